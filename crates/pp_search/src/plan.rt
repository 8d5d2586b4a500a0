//! Which turns a search must judge: by the marks of the places of a condition it skips most.
ghost use Rattle.pp_search.specs.Condition.{HasAllPlaces, HasPlaces};
ghost use Rattle.pp_search.specs.Plan.{AreCandidates, Grows, IsAwaited, IsCandidate, IsListed, IsOfAnother, IsOwn};
ghost use Rattle.pp_search.specs.Plan.{IsOwnPlace, IsPlan, IsTestListed, KeepsFlags, can_hold_at};
ghost use Rattle.pp_search.specs.declared.condition.Test.TheVariants.{Performs};
ghost use Rattle.pp_machine.specs.Machine.{number};
ghost use Rattle.pp_machine.specs.Numbering.{fixed_places, place_at};
ghost use Rattle.pp_machine.specs.Ranges.{processor_count};
ghost use Rattle.pp_machine.specs.declared.place.Place.TheVariants.{RegP};
ghost use Rattle.std.specs.Prelude.{◌≡◌, [], ◌+◌, ◌<◌, ◌≤◌, ◌⊎◌, All, Contains, IfSome, get_or, length, true, ℕ};

use crate::condition::{Alternative, Condition, MOST_ALTERNATIVES, Test};
use arrayvec::ArrayVec;
use pp_history::{Marks, Reversible};
use pp_machine::{Place, place_at};
use pp_rig::Rig;

/// The most places whose marks are set, decimal. If a condition has more, each turn is judged.
pub const MOST_MARKED: usize = 512;

/// The places on whose numbers a condition depends.
#[derive(Drop)]
pub struct Looked {
    places: ArrayVec<Place, MOST_MARKED>,
    /// Whether each turn must be judged, whatever it writes.
    is_each: bool,
    /// Whether one of the places is written so often that turns are performed one by one, which is faster then.
    is_stepped: bool,
}

/// The numbers of the alternatives that a turn of one processor can bring to hold.
#[derive(Drop)]
pub struct Candidates {
    pub alternatives: ArrayVec<u8, MOST_ALTERNATIVES>,
    /// Whether one of them can come to hold at any address of the processor.
    pub is_anywhere: bool,
    /// Flags of the addresses at which one of the others can come to hold, modulo 256 (decimal).
    pub flags: [bool; 256],
}

/// Which turns a search judges, and by which alternatives.
#[derive(Drop)]
pub(crate) struct Plan {
    /// Marks of the places of the condition. A turn that writes none of them is not judged.
    pub marks: Marks,
    /// Whether each turn is judged, whatever it writes.
    pub is_each: bool,
    /// Whether turns are performed one by one.
    pub is_stepped: bool,
    /// Of each of the ten processors (decimal) its candidates.
    pub candidates: ArrayVec<Candidates, 10>,
}

impl Default for Candidates {
    fn default() -> Candidates
        ensures { result.alternatives.items ≡ [] }
    {
        Candidates {
            alternatives: ArrayVec::new(),
            is_anywhere: false,
            flags: [false; 256],
        }
    }
}

impl Candidates {
    /// Sets the flag of the only address at which an alternative can come to hold, or notes that there is no such address.
    fn set_flag(&mut self, address: Option<u16>)
        ensures sets { IsAwaited self.new address }
        ensures keeps { KeepsFlags self.old self.new }
        ensures alternatives { self.new.alternatives.items ≡ self.old.alternatives.items }
    {
        match address {
            Some(address) => self.flags[usize::from(address % 256)] = true,
            None => self.is_anywhere = true,
        }
    }

    /// Returns `false` only if none of them can come to hold at the address where the processor is.
    #[inline(always)]
    pub(crate) fn can_hold(&self, machine: &Rig, pp: u8) -> bool
        requires { pp < processor_count }
        ensures { result ≡ can_hold_at self.now (number machine.now (RegP pp)) }
    {
        !self.alternatives.is_empty()
            && (self.is_anywhere || self.flags[(machine.value(&Place::RegP { pp }) % 256) as usize])
    }
}

impl Looked {
    /// Adds a place. If there is no room for it, each turn must be judged.
    #[tactic(auto, using(crate::proofs::Listed::listed))]
    fn add_place(&mut self, place: Place)
        ensures added { IsListed self.new place }
        ensures grows { Grows self.old self.new }
    {
        let is_rare = matches!(
            place,
            Place::Cell { .. } | Place::Central { .. } | Place::ChannelWord { .. }
        );
        self.is_stepped = self.is_stepped || !is_rare;
        if self.places.is_full() {
            self.is_each = true;
        } else {
            self.places.push(place);
        }
    }

    /// Adds consecutive places.
    fn add_places(&mut self, machine: &Rig, first: u32, count: u32)
        requires has { first + count ≤ fixed_places + machine.now.setup.central_words }
        ensures added { (k : ℕ) → k < count → IsListed self.new (place_at (first + k)) }
        ensures grows { Grows self.old self.new }
    {
        let _count = pp_rig::place_count(machine);
        for k in 0..count {
            self.add_place(place_at(first + k));
        }
    }

    /// Adds the places of a test.
    fn add_test(&mut self, machine: &Rig, test: &Test)
        requires has { HasPlaces machine.now.setup.central_words test.now }
        ensures added { IsTestListed self.new test.now }
        ensures grows { Grows self.old self.new }
    {
        match *test {
            Test::Inside { place, .. } => self.add_place(place),
            Test::Outside { place, .. } => self.add_place(place),
            Test::Changes { first, count } => self.add_places(machine, first, count),
            Test::Performs { pp, .. } => {
                self.add_place(Place::RegP { pp });
                self.add_place(Place::Phase { pp });
            }
            Test::WritesTo { .. } | Test::Waits { .. } => self.is_each = true,
        }
    }

    /// Adds the places of tests.
    fn add_tests(&mut self, machine: &Rig, tests: &[Test])
        requires has { All (HasPlaces machine.now.setup.central_words) tests.now }
        ensures added { All (IsTestListed self.new) tests.now }
        ensures grows { Grows self.old self.new }
    {
        for test in tests {
            self.add_test(machine, test);
        }
    }

    /// Adds the places of alternatives.
    fn add_all(&mut self, machine: &Rig, alternatives: &[Alternative])
        requires has { All (λ alternative. All (HasPlaces machine.now.setup.central_words) alternative.tests.items)
            alternatives.now }
        ensures added { All (λ alternative. All (IsTestListed self.new) alternative.tests.items) alternatives.now }
    {
        for alternative in alternatives {
            self.add_tests(machine, alternative.tests.as_slice());
        }
    }
}

/// Returns the processor whose register, phase or cell a place is, or `None` if it is no such place.
fn owner_of_place(place: &Place) -> Option<u8>
    ensures { IfSome result (λ n. IsOwnPlace n place.now) }
{
    match *place {
        Place::Cell { pp, .. }
        | Place::RegA { pp }
        | Place::RegP { pp }
        | Place::RegQ { pp }
        | Place::Phase { pp } => Some(pp),
        _ => None,
    }
}

/// Returns the processor to whose memory consecutive places belong, or that of the place if it is one. Returns `None` if
/// there is no such processor.
fn owner_of_places(first: u32, count: u32) -> Option<u8>
    ensures { IfSome result (λ n. (k : ℕ) → k < count → IsOwnPlace n (place_at (first + k))) }
{
    if count == 1 {
        return owner_of_place(&place_at(first));
    }
    let pp = first / 4096;
    if pp < 10 && count <= 4096 - first % 4096 {
        Some(pp as u8)
    } else {
        None
    }
}

/// Returns the processor on which alone a test depends, or `None` if there is no such processor.
fn owner_of_test(test: &Test) -> Option<u8>
    ensures { IfSome result (λ n. IsOwn n test.now) }
{
    match *test {
        Test::Inside { place, .. } => owner_of_place(&place),
        Test::Outside { place, .. } => owner_of_place(&place),
        Test::Changes { first, count } => owner_of_places(first, count),
        Test::WritesTo { first, count } => owner_of_places(first, count),
        Test::Performs { pp, .. } => Some(pp),
        Test::Waits { pp } => Some(pp),
    }
}

/// Returns whether a test depends on a processor alone.
fn is_own(test: &Test, pp: u8) -> bool
    ensures { result ≡ true → IsOwn pp test.now }
{
    match owner_of_test(test) {
        Some(owner) => owner == pp,
        None => false,
    }
}

/// Returns whether tests depend on a processor alone.
fn are_own(tests: &[Test], pp: u8) -> bool
    ensures { result ≡ true → All (IsOwn pp) tests.now }
{
    for test in tests {
        if !is_own(test, pp) {
            return false;
        }
    }
    true
}

/// Returns whether an alternative depends on one processor alone, which is another one than `pp`.
fn is_of_another(alternative: &Alternative, pp: u8) -> bool
    ensures { result ≡ true → IsOfAnother pp alternative.now }
{
    let tests = alternative.tests.as_slice();
    match tests.first() {
        Some(test) => match owner_of_test(test) {
            Some(owner) => owner != pp && are_own(tests, owner),
            None => false,
        },
        None => false,
    }
}

/// Returns the address at which one of some tests has a processor perform, or `None` if none of them does.
fn address_of(tests: &[Test], pp: u8) -> Option<u16>
    ensures { IfSome result (λ address. Contains tests.now (Performs pp address)) }
{
    for test in tests {
        match *test {
            Test::Performs { pp: n, address } if n == pp => return Some(address),
            _ => {}
        }
    }
    None
}

/// Adds the number of an alternative to the candidates of a processor, if a turn of it can bring it to hold.
#[tactic(auto, using(crate::proofs::Chosen::chosen))]
fn add_candidate(candidates: &mut Candidates, alternative: &Alternative, i: u8, pp: u8)
    requires room { length candidates.old.alternatives.items < MOST_ALTERNATIVES }
    ensures added { IsCandidate pp candidates.new i alternative.now ⊎ IsOfAnother pp alternative.now }
    ensures keeps { KeepsFlags candidates.old candidates.new }
    ensures keeps_numbers { (j : ℕ) → Contains candidates.old.alternatives.items j → Contains candidates.new.alternatives.items j }
    ensures few { length candidates.new.alternatives.items ≤ length candidates.old.alternatives.items + 1 }
    ensures within { (n : ℕ) → i < n → All (λ j. j < n) candidates.old.alternatives.items →
        All (λ j. j < n) candidates.new.alternatives.items }
{
    if is_of_another(alternative, pp) {
        return;
    }
    candidates.alternatives.push(i);
    candidates.set_flag(address_of(alternative.tests.as_slice(), pp));
}

/// Returns the candidates of a processor.
fn candidates_of(alternatives: &[Alternative], pp: u8) -> Candidates
    requires { length alternatives.now ≤ MOST_ALTERNATIVES }
    ensures { AreCandidates pp alternatives.now result }
{
    let mut found = Candidates::default();
    for i in 0..alternatives.len() {
        add_candidate(&mut found, &alternatives[i], i as u8, pp);
    }
    found
}

/// Returns the candidates of each processor.
fn all_candidates(alternatives: &[Alternative]) -> ArrayVec<Candidates, 10>
    requires { length alternatives.now ≤ MOST_ALTERNATIVES }
    ensures processors { length result.items ≡ 10 }
    ensures candidates { (n : ℕ) (d : Candidates) → n < 10 → AreCandidates n alternatives.now (get_or result.items n d) }
{
    let mut found = ArrayVec::new();
    for pp in 0..10 {
        found.push(candidates_of(alternatives, pp));
    }
    found
}

/// Returns the plan of a search for a condition.
pub(crate) fn plan_for(machine: &Rig, condition: &Condition) -> Plan
    requires { HasAllPlaces machine.now.setup.central_words condition.now }
    ensures { IsPlan result condition.now }
{
    let mut looked = Looked {
        places: ArrayVec::new(),
        is_each: false,
        is_stepped: false,
    };
    looked.add_all(machine, condition.alternatives.as_slice());
    Plan {
        marks: Marks::of::<Rig>(looked.places.as_slice()),
        is_each: looked.is_each,
        is_stepped: looked.is_stepped,
        candidates: all_candidates(condition.alternatives.as_slice()),
    }
}
