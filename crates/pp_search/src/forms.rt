//! Conditions as numbers: how a client that is not written in Rattle has them.
ghost use Rattle.pp_machine.specs.Numbering.{fixed_places};
ghost use Rattle.pp_search.specs.Condition.{HasAllPlaces, HasPlaces};
ghost use Rattle.pp_search.specs.Forms as spec;
ghost use Rattle.pp_search.specs.Forms.{AreForms, IsForm};
ghost use Rattle.pp_machine.specs.Ranges.{processor_count};
ghost use Rattle.std.specs.Prelude.{◌≡◌, ◌≢◌, ◌+◌, ◌<◌, ◌≤◌, All, IfSome, IsSome, true};

use crate::condition::{Alternative, Condition, Test};
use arrayvec::ArrayVec;
use pp_machine::place_at;
use pp_rig::{Rig, place_count};

/// The number at `place` is from `first` to `last`.
pub const INSIDE: u32 = 0;

/// The number at `place` is below `first` or above `last`.
pub const OUTSIDE: u32 = 1;

/// One of `first` numbers from `place` on changes.
pub const CHANGES: u32 = 2;

/// One of `first` places from `place` on is written.
pub const WRITES: u32 = 3;

/// Processor `place` is about to perform the instruction at address `first`.
pub const PERFORMS: u32 = 4;

/// Processor `place` waits.
pub const WAITS: u32 = 5;

/// Another alternative begins.
pub const OR: u32 = 6;

/// A test by its kind and numbers, or the beginning of another alternative. A number that the kind does not name is ignored.
#[repr(C)]
#[derive(Clone, Copy, Default, Drop)]
pub struct Form {
    /// What is tested: one of the constants of this module.
    pub kind: u32,
    /// The number of a place in the order of all places, or a processor.
    pub place: u32,
    /// The least number, how many places, or the address, as the kind says.
    pub first: u64,
    /// The greatest number.
    pub last: u64,
}

/// Returns how many of the places from one on a form is about, or `None` if the machine does not have so many.
fn count_of(machine: &Rig, form: &Form) -> Option<u32>
    ensures count { IfSome result (λ count. count ≡ form.now.first) }
    ensures within { IfSome result (λ count. form.now.place + count ≤ fixed_places + machine.now.setup.central_words) }
    ensures some { form.now.place + form.now.first ≤ fixed_places + machine.now.setup.central_words → IsSome result }
{
    let count = place_count(machine);
    if form.place > count || form.first > u64::from(count - form.place) {
        return None;
    }
    Some(form.first as u32)
}

/// Returns a processor, or `None` if there is none of this number.
fn processor_of(form: &Form) -> Option<u8>
    ensures processor { IfSome result (λ pp. (pp ≡ form.now.place) × (pp < processor_count)) }
    ensures some { form.now.place < processor_count → IsSome result }
{
    if form.place < 10 {
        Some(form.place as u8)
    } else {
        None
    }
}

/// Returns the test of a number, or `None` if the machine does not have its place.
fn number_test(machine: &Rig, form: &Form) -> Option<Test>
    requires { form.now.kind ≤ OUTSIDE }
    ensures test { IfSome result (λ test. test ≡ spec.test_of form.now) }
    ensures has { IfSome result (HasPlaces machine.now.setup.central_words) }
    ensures is_form { IfSome result (λ _. IsForm machine.now.setup.central_words form.now) }
    ensures some { IsForm machine.now.setup.central_words form.now → IsSome result }
{
    if form.place >= place_count(machine) {
        return None;
    }
    let place = place_at(form.place);
    let Form { first, last, .. } = *form;
    Some(if form.kind == INSIDE {
        Test::Inside { place, first, last }
    } else {
        Test::Outside { place, first, last }
    })
}

/// Returns the test of a form, or `None` if there is no such kind, or if the machine does not have the places.
fn test_of(machine: &Rig, form: &Form) -> Option<Test>
    requires { form.now.kind ≢ OR }
    ensures test { IfSome result (λ test. test ≡ spec.test_of form.now) }
    ensures has { IfSome result (HasPlaces machine.now.setup.central_words) }
    ensures is_form { IfSome result (λ _. IsForm machine.now.setup.central_words form.now) }
    ensures some { IsForm machine.now.setup.central_words form.now → IsSome result }
{
    let first = form.place;
    match form.kind {
        INSIDE | OUTSIDE => number_test(machine, form),
        CHANGES => {
            let count = count_of(machine, form)?;
            Some(Test::Changes { first, count })
        }
        WRITES => {
            let count = count_of(machine, form)?;
            Some(Test::WritesTo { first, count })
        }
        PERFORMS if form.first <= 0o7777 => {
            let pp = processor_of(form)?;
            let address = form.first as u16;
            Some(Test::Performs { pp, address })
        }
        WAITS => {
            let pp = processor_of(form)?;
            Some(Test::Waits { pp })
        }
        _ => None,
    }
}

/// Makes `condition` that of some forms, and returns whether there is one. There is none if one of them is no form of this
/// machine, or if an alternative has more than 8 tests, or if there are more than 64 alternatives (decimal). A condition is
/// large, so it is made in place.
pub fn condition_into(machine: &Rig, forms: &[Form], condition: &mut Condition) -> bool
    ensures is { result ≡ true → condition.new ≡ spec.condition_of forms.now }
    ensures has { result ≡ true → HasAllPlaces machine.now.setup.central_words condition.new }
    ensures are_forms { result ≡ true → AreForms machine.now.setup.central_words forms.now }
    ensures some { AreForms machine.now.setup.central_words forms.now → result ≡ true }
{
    let alternatives = &mut condition.alternatives;
    let mut tests = ArrayVec::new();
    alternatives.clear();
    for form in forms {
        if form.kind == OR {
            if alternatives.is_full() {
                return false;
            }
            alternatives.push(Alternative { tests });
            tests = ArrayVec::new();
        } else {
            if tests.is_full() {
                return false;
            }
            match test_of(machine, form) {
                Some(test) => tests.push(test),
                None => return false,
            }
        }
    }
    if alternatives.is_full() {
        return false;
    }
    alternatives.push(Alternative { tests });
    true
}
