//! The undo record of each kind of action: it has the old number of each place that changed, and leads back to the whole machine as it
//! was before.
mod whole;

use super::*;
use whole::{is_true_of, numbers_at, places_of};

/// Returns a session of a machine with one card in the reader, on channel 0o10, and the printer on channel 0o11.
fn make(alloc: Global) -> Result<Session<Rig>, Fail> {
    let deck = deck_of(alloc, 1, 0o1234)?;
    let panel = [0o1405, 0o3420, 0o300, 0, 0, 0, 0, 0, 0, 0, 0, 0];
    match Rig::new(alloc, setup_of(8, 9, deck, Some(panel))) {
        Ok(rig) => session_of(alloc, rig),
        Err(_) => Err("refused".into()),
    }
}

/// Returns whether the machine of a session has these numbers at the places.
fn has_numbers(
    alloc: Global,
    session: &Session<Rig>,
    places: &[Place],
    numbers: &[u64],
) -> Result<bool, AllocError> {
    Ok(numbers_at(alloc, session.machine(), places)?.as_slice() == numbers)
}

/// Performs an action. Checks that it changed a number, and that its record has the old number of each place that changed.
/// Returns the numbers after it.
fn act_recorded(
    rt: &impl Abort,
    alloc: Global,
    session: &mut Session<Rig>,
    places: &[Place],
    action: Action,
    before: &[u64],
) -> Result<Vec<u64>, Fail> {
    assert!(rt; act(session, action));
    let after = numbers_at(alloc, session.machine(), places)?;
    assert!(rt; before != after.as_slice());
    assert!(rt; is_true_of(session, places, before, after.as_slice()));
    Ok(after)
}

/// Undoes the newest action and performs it again, and checks the numbers each time.
fn back_and_forward(
    rt: &impl Abort,
    alloc: Global,
    session: &mut Session<Rig>,
    places: &[Place],
    before: &[u64],
    after: &[u64],
) -> Result<(), Fail> {
    assert!(rt; session.back(1).is_ok());
    assert!(rt; has_numbers(alloc, session, places, before)?);
    assert!(rt; session.forward(1).is_ok());
    assert!(rt; has_numbers(alloc, session, places, after)?);
    Ok(())
}

/// Performs an action, undoes it, and performs it again. Checks every number of the machine each time.
fn act_and_back(
    rt: &impl Abort,
    alloc: Global,
    session: &mut Session<Rig>,
    places: &[Place],
    action: Action,
) -> Result<(), Fail> {
    let before = numbers_at(alloc, session.machine(), places)?;
    let after = act_recorded(rt, alloc, session, places, action, before.as_slice())?;
    back_and_forward(
        rt,
        alloc,
        session,
        places,
        before.as_slice(),
        after.as_slice(),
    )
}

/// Runs `act_and_back` for each action in turn.
fn act_all(
    rt: &impl Abort,
    alloc: Global,
    session: &mut Session<Rig>,
    places: &[Place],
    steps: &[Step],
) -> Result<(), Fail> {
    for step in steps {
        if let Some(action) = action_of(step) {
            act_and_back(rt, alloc, session, places, action)?;
        }
    }
    Ok(())
}

/// Performs the actions of the first lists, and runs `act_and_back` for each of the others.
fn lead_back(
    rt: &impl Abort,
    alloc: Global,
    session: &mut Session<Rig>,
    first: &[&[Step]],
    others: &[Step],
) -> Result<(), Fail> {
    for steps in first {
        follow(rt, session, "first", steps);
    }
    let places = places_of(alloc, 0o100000)?;
    act_all(rt, alloc, session, places.as_slice(), others)
}

/// Lists of actions that are performed first, the actions whose records are checked, and numbers after them.
type Recorded = (
    &'static [&'static [Step]],
    &'static [Step],
    &'static [(Place, u64)],
);

/// Does the same on a new machine, and checks numbers after the actions.
fn lead_back_anew(rt: &impl Abort, alloc: Global, row: &Recorded) -> Result<(), Fail> {
    let (first, others, after) = *row;
    let mut session = make(alloc)?;
    lead_back(rt, alloc, &mut session, first, others)?;
    check_numbers(rt, session.machine(), after);
    drop(session);
    Ok(())
}

/// Settings of every kind of number, and a turn.
const SETTINGS: [Step; 7] = [
    Step::Cells(0, 0o7777, &[0o1405, 0o7777]),
    Step::SetP(0, 0o7777),
    Step::Turn,
    Step::SetA(0, 0o777777),
    Step::SetQ(9, 0o7777),
    Step::SetWord(0o77777, 1),
    Step::SetChannel(3, ChannelState::Full, Some(0o17)),
];

const WATCHES: [Step; 3] = [
    Step::Watch(Watched::RegA { pp: 0 }),
    Step::Watch(Watched::RegP { pp: 0 }),
    Step::Unwatch(Watched::RegA { pp: 0 }),
];

const SETTINGS_AND_DEADSTART: [&[Step]; 2] = [&SETTINGS, &[Step::Deadstart]];

const BEFORE_THE_EXCHANGE: [Step; 4] = [
    Step::Cells(0, 0o100, &[0o2600]),
    Step::SetP(0, 0o100),
    Step::SetA(0, 0o77770),
    Step::SetWord(0o77777, (1 << 60) - 1),
];

const AFTER_THE_EXCHANGE: [(Place, u64); 1] = [(Place::FrameWord { i: 7 }, (1 << 60) - 1)];

/// Settings, watches, a dead start, a turn after one, and an exchange in slot 0, which changes central memory, the frame and P.
const ACTIONS: [Recorded; 5] = [
    (&[], &SETTINGS, &[]),
    (&[], &WATCHES, &[]),
    (&[&SETTINGS], &[Step::Deadstart], &[]),
    (&SETTINGS_AND_DEADSTART, &[Step::Turn], &[]),
    (&[&BEFORE_THE_EXCHANGE], &[Step::Turn], &AFTER_THE_EXCHANGE),
];

#[test]
fn the_record_of_each_action_leads_back(rt: HostRuntime) -> Result<(), Fail> {
    for i in 0..ACTIONS.len() {
        lead_back_anew(&rt, rt.alloc(), &ACTIONS[i])?;
    }
    Ok(())
}

const CALLS: [Step; 4] = [
    Step::Cells(0, 0o100, &[0o7710, 1]),
    Step::SetP(0, 0o100),
    Step::Cells(1, 0o100, &[0o7711, 1]),
    Step::SetP(1, 0o100),
];

/// The turns of slots 2 to 0o10, and what the last turn needs.
const BEFORE_THE_LAST: [Step; 12] = [
    Step::Turn,
    Step::Turn,
    Step::Turn,
    Step::Turn,
    Step::Turn,
    Step::Turn,
    Step::Turn,
    Step::Cells(9, 0o100, &[0o3420]),
    Step::SetP(9, 0o100),
    Step::SetA(9, 0o4321),
    Step::SetChannel(8, ChannelState::Empty, Some(0)),
    Step::SetChannel(9, ChannelState::Full, Some(0o0102)),
];

const AFTER_THE_LAST: [(Place, u64); 6] = [
    (Place::Cell { pp: 9, a: 0o20 }, 0o4321),
    (Place::CardColumn, 1),
    (Place::ChannelWord { c: 8 }, 0o1234),
    (Place::PaperSymbol { k: 1 }, 2),
    (Place::Clock, 1),
    (Place::Slot, 0),
];

/// Performs two turns, the turns up to slot 0o11, and the turn of that slot.
fn all_parts_lead_back(
    rt: &impl Abort,
    alloc: Global,
    session: &mut Session<Rig>,
) -> Result<(), Fail> {
    lead_back(rt, alloc, session, &[&CALLS], &[Step::Turn, Step::Turn])?;
    follow(rt, session, "before the last", &BEFORE_THE_LAST);
    assert!(rt; session.machine().slot() == 9);
    lead_back(rt, alloc, session, &[], &[Step::Turn])
}

/// In one turn of slot 0o11 a processor stores, the reader sends a column, the printer prints two symbols, and the
/// clock ticks.
#[test]
fn a_turn_of_all_parts_leads_back(rt: HostRuntime) -> Result<(), Fail> {
    let mut session = make(rt.alloc())?;
    all_parts_lead_back(&rt, rt.alloc(), &mut session)?;
    check_numbers(&rt, session.machine(), &AFTER_THE_LAST);
    Ok(())
}

/// Most turns keep a short record. Any other action keeps a record no larger than an exchange and the devices need.
#[test]
fn records_are_small(rt: HostRuntime) {
    assert!(rt; size_of::<Option<ShortTurn>>() <= 48);
    assert!(rt; size_of::<RigRecord>() <= 400);
}
