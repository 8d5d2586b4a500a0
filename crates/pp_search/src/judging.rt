//! Whether a condition comes to hold in an action, by its undo record and the machine after it.
ghost use Rattle.pp_history.specs.UndoRecord.{whole_record};
ghost use Rattle.pp_machine.specs.Machine.{Machine};
ghost use Rattle.pp_machine.specs.Numbering.{fixed_places};
ghost use Rattle.pp_machine.specs.Olds.{numbered};
ghost use Rattle.pp_machine.specs.Prelude.{Has, list_room, number};
ghost use Rattle.pp_machine.specs.Ranges.{processor_count};
ghost use Rattle.pp_rig.specs.Inner.ActionRecords.{FitsRecord, before, record_pairs};
ghost use Rattle.pp_rig.specs.Inner.Short.{unpacked, whole};
ghost use Rattle.pp_rig.specs.declared.rig.ShortTurn.{ShortTurn};
ghost use Rattle.pp_search.specs.Condition as spec;
ghost use Rattle.pp_search.specs.Condition.{HasAllPlaces, HasPlaces};
ghost use Rattle.pp_search.specs.Plan.{AreCandidates};
ghost use Rattle.pp_search.specs.declared.condition.Test.TheVariants.{Waits};
ghost use Rattle.std.specs.Prelude.{◌≡◌, ◌+◌, ◌<◌, ◌≤◌, All, length, take};

use crate::condition::{Alternative, Condition, Test};
use crate::plan::Candidates;
use pp_history::{Reversible, UndoRecord};
use pp_machine::{Place, place_at};
use pp_rig::{MOST_OLDS, Old, Rig, RigRecord, ShortTurn, old_value};

/// The most places of a range that are tested one by one.
const FEW: u32 = 8;

/// Returns whether a number is from `first` to `last`.
#[inline(always)]
fn is_inside(number: u64, first: u64, last: u64) -> bool
    ensures { result ≡ spec.is_inside first last number }
{
    first <= number && number <= last
}

/// Returns the number at a place before the action.
#[inline(always)]
#[tactic(auto, using(pp_rig::proofs::Runs::record_was))]
fn number_before(machine: &Rig, back: &UndoRecord<ShortTurn, RigRecord>, place: &Place) -> u64
    requires fits { FitsRecord (whole_record unpacked back.now) machine.now }
    requires has { Has machine.now.setup.central_words place.now }
    ensures { result ≡ number (before (whole_record unpacked back.now) machine.now) place.now }
{
    match old_value(back, place) {
        Some(was) => was,
        None => machine.value(place),
    }
}

/// Returns whether the action changed the number at a place.
#[inline(always)]
fn is_changed(machine: &Rig, back: &UndoRecord<ShortTurn, RigRecord>, place: &Place) -> bool
    requires fits { FitsRecord (whole_record unpacked back.now) machine.now }
    requires has { Has machine.now.setup.central_words place.now }
    ensures { result ≡ spec.is_changed (before (whole_record unpacked back.now) machine.now) machine.now place.now }
{
    number_before(machine, back, place) != machine.value(place)
}

/// Lists the places of an undo record by their numbers, and returns how many these are.
fn list_places(back: &UndoRecord<ShortTurn, RigRecord>, olds: &mut [Old]) -> usize
    requires fits { (s : Machine) × FitsRecord (whole_record unpacked back.now) s }
    requires room { list_room ≤ length olds.old }
    ensures lists { take result olds.new ≡ numbered (record_pairs (whole_record unpacked back.now)) }
    ensures within { result ≤ list_room }
{
    match back {
        UndoRecord::Head(turn) => turn.put_old_values(olds, 0),
        UndoRecord::Tail(record) => record.put_old_values(olds, 0),
    }
}

/// Does what `has_changed` does. Here the places of the undo record are tested, and not those of the range.
#[inline(never)]
fn has_changed_of_many(
    machine: &Rig,
    back: &UndoRecord<ShortTurn, RigRecord>,
    first: u32,
    count: u32,
) -> bool
    requires fits { FitsRecord (whole_record unpacked back.now) machine.now }
    requires has { first + count ≤ fixed_places + machine.now.setup.central_words }
    ensures { result
        ≡ spec.is_of_any (spec.is_changed (before (whole_record unpacked back.now) machine.now) machine.now) first count }
{
    let _count = pp_rig::place_count(machine);
    let end = u64::from(first) + u64::from(count);
    let mut olds = [Old::default(); MOST_OLDS];
    for k in 0..list_places(back, &mut olds) {
        let number = olds[k].place;
        if u64::from(first) <= number
            && number < end
            && is_changed(machine, back, &place_at(number as u32))
        {
            return true;
        }
    }
    false
}

/// Returns whether the action changed one of `count` numbers, from the place with number `first` on.
#[tactic(auto, using(crate::proofs::AnyPlace::any_place))]
fn has_changed(
    machine: &Rig,
    back: &UndoRecord<ShortTurn, RigRecord>,
    first: u32,
    count: u32,
) -> bool
    requires fits { FitsRecord (whole_record unpacked back.now) machine.now }
    requires has { first + count ≤ fixed_places + machine.now.setup.central_words }
    ensures { result
        ≡ spec.is_of_any (spec.is_changed (before (whole_record unpacked back.now) machine.now) machine.now) first count }
{
    if count > FEW {
        return has_changed_of_many(machine, back, first, count);
    }
    let _count = pp_rig::place_count(machine);
    for k in 0..count {
        if is_changed(machine, back, &place_at(first + k)) {
            return true;
        }
    }
    false
}

/// Returns whether the action wrote one of `count` places, from the one with number `first` on.
#[tactic(auto, using(crate::proofs::AnyPlace::any_place))]
pub(crate) fn has_written(
    machine: &Rig,
    back: &UndoRecord<ShortTurn, RigRecord>,
    first: u32,
    count: u32,
) -> bool
    requires { first + count ≤ fixed_places + machine.now.setup.central_words }
    ensures { result ≡ spec.is_of_any (spec.is_written (record_pairs (whole_record unpacked back.now))) first count }
{
    let _count = pp_rig::place_count(machine);
    for k in 0..count {
        if old_value(back, &place_at(first + k)).is_some() {
            return true;
        }
    }
    false
}

/// Returns whether the action was a turn of a processor in which it waited.
#[inline(always)]
fn has_waited(back: &UndoRecord<ShortTurn, RigRecord>, pp: u8) -> bool
    ensures { (old new : Machine) → result ≡ spec.holds (Waits pp) old (record_pairs (whole_record unpacked back.now)) new }
{
    match old_value(back, &Place::Slot) {
        Some(slot) => slot == u64::from(pp) && old_value(back, &Place::RegP { pp }).is_none(),
        None => false,
    }
}

/// Returns whether a test held of the machine before the action.
#[tactic(auto, using(pp_rig::proofs::Runs::record_was))]
fn was_met(test: &Test, machine: &Rig, back: &UndoRecord<ShortTurn, RigRecord>) -> bool
    requires fits { FitsRecord (whole_record unpacked back.now) machine.now }
    requires has { HasPlaces machine.now.setup.central_words test.now }
    ensures { result ≡ spec.is_met test.now (before (whole_record unpacked back.now) machine.now) }
{
    match *test {
        Test::Inside { place, first, last } => {
            is_inside(number_before(machine, back, &place), first, last)
        }
        Test::Outside { place, first, last } => {
            !is_inside(number_before(machine, back, &place), first, last)
        }
        Test::Performs { pp, address } => {
            number_before(machine, back, &Place::RegP { pp }) == u64::from(address)
                && number_before(machine, back, &Place::Phase { pp }) == 0
        }
        Test::Changes { .. } | Test::WritesTo { .. } | Test::Waits { .. } => false,
    }
}

/// Returns whether a test holds of the action.
#[inline(always)]
fn holds(test: &Test, machine: &Rig, back: &UndoRecord<ShortTurn, RigRecord>) -> bool
    requires fits { FitsRecord (whole_record unpacked back.now) machine.now }
    requires has { HasPlaces machine.now.setup.central_words test.now }
    ensures { result ≡ spec.holds test.now (before (whole_record unpacked back.now) machine.now)
        (record_pairs (whole_record unpacked back.now)) machine.now }
{
    match *test {
        Test::Inside { place, first, last } => is_inside(machine.value(&place), first, last),
        Test::Outside { place, first, last } => !is_inside(machine.value(&place), first, last),
        Test::Performs { pp, address } => {
            machine.value(&Place::RegP { pp }) == u64::from(address)
                && machine.value(&Place::Phase { pp }) == 0
        }
        Test::Changes { first, count } => has_changed(machine, back, first, count),
        Test::WritesTo { first, count } => has_written(machine, back, first, count),
        Test::Waits { pp } => has_waited(back, pp),
    }
}

/// Returns whether all tests hold of the action.
#[inline(always)]
fn all_hold(tests: &[Test], machine: &Rig, back: &UndoRecord<ShortTurn, RigRecord>) -> bool
    requires fits { FitsRecord (whole_record unpacked back.now) machine.now }
    requires has { All (HasPlaces machine.now.setup.central_words) tests.now }
    ensures { result ≡ spec.all_hold tests.now (before (whole_record unpacked back.now) machine.now)
        (record_pairs (whole_record unpacked back.now)) machine.now }
{
    for test in tests {
        if !holds(test, machine, back) {
            return false;
        }
    }
    true
}

/// Returns whether all tests held of the machine before the action.
fn were_all_met(tests: &[Test], machine: &Rig, back: &UndoRecord<ShortTurn, RigRecord>) -> bool
    requires fits { FitsRecord (whole_record unpacked back.now) machine.now }
    requires has { All (HasPlaces machine.now.setup.central_words) tests.now }
    ensures { result ≡ spec.all_met tests.now (before (whole_record unpacked back.now) machine.now) }
{
    for test in tests {
        if !was_met(test, machine, back) {
            return false;
        }
    }
    true
}

/// Returns whether an alternative comes to hold in the action.
#[inline(always)]
fn comes(alternative: &Alternative, machine: &Rig, back: &UndoRecord<ShortTurn, RigRecord>) -> bool
    requires fits { FitsRecord (whole_record unpacked back.now) machine.now }
    requires has { All (HasPlaces machine.now.setup.central_words) alternative.now.tests.items }
    ensures { result ≡ spec.comes alternative.now (before (whole_record unpacked back.now) machine.now)
        (record_pairs (whole_record unpacked back.now)) machine.now }
{
    let tests = alternative.tests.as_slice();
    all_hold(tests, machine, back) && !were_all_met(tests, machine, back)
}

/// Returns whether a condition comes to hold in the action.
#[inline(always)]
pub(crate) fn comes_to_hold(
    condition: &Condition,
    machine: &Rig,
    back: &UndoRecord<ShortTurn, RigRecord>,
) -> bool
    requires fits { FitsRecord (whole_record unpacked back.now) machine.now }
    requires has { HasAllPlaces machine.now.setup.central_words condition.now }
    ensures { result ≡ spec.comes_to_hold condition.now (before (whole_record unpacked back.now) machine.now)
        (record_pairs (whole_record unpacked back.now)) machine.now }
{
    for alternative in condition.alternatives.as_slice() {
        if comes(alternative, machine, back) {
            return true;
        }
    }
    false
}

/// Does what `comes_to_hold` does. The action was a turn of a processor, and only its candidates are judged.
#[inline(always)]
pub(crate) fn candidate_comes(
    condition: &Condition,
    candidates: &Candidates,
    machine: &Rig,
    back: &UndoRecord<ShortTurn, RigRecord>,
) -> bool
    requires fits { FitsRecord (whole_record unpacked back.now) machine.now }
    requires has { HasAllPlaces machine.now.setup.central_words condition.now }
    requires turn { (turn : ShortTurn) × (whole_record unpacked back.now ≡ whole turn)
        × AreCandidates turn.rest.slot condition.now.alternatives.items candidates.now }
    ensures { result ≡ spec.comes_to_hold condition.now (before (whole_record unpacked back.now) machine.now)
        (record_pairs (whole_record unpacked back.now)) machine.now }
{
    for i in candidates.alternatives.as_slice() {
        if comes(
            &condition.alternatives.as_slice()[usize::from(*i)],
            machine,
            back,
        ) {
            return true;
        }
    }
    false
}
