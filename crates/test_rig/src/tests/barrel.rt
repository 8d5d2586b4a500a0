//! Turns of the barrel.

use super::*;
use pp_rig::old_value;

const P_OF_LAST: Place = Place::RegP { pp: 0o11 };

const LOADS_AND_GOES_BACK: [Step; 12] = [
    Step::Cells(0, 0o100, &[0o1405, 0o3420]),
    Step::SetP(0, 0o100),
    Step::Runs(1),
    Step::Is(A, 5),
    Step::Is(P, 0o101),
    Step::Is(SLOT, 1),
    Step::Back(1, None),
    Step::Is(A, 0),
    Step::Is(P, 0o100),
    Step::Is(SLOT, 0),
    Step::Is(Place::Cell { pp: 0, a: 0o101 }, 0o3420),
    Step::Kept(2),
];

const TAKES_TURNS: [Step; 11] = [
    Step::Cells(0, 0o200, &[0o300]),
    Step::SetP(0, 0o200),
    Step::Runs(0o24),
    Step::Is(SLOT, 0),
    Step::Is(P, 0o200),
    Step::Is(P_OF_LAST, 0o2),
    Step::Is(CLOCK, 2),
    Step::Back(0o24, None),
    Step::Is(SLOT, 0),
    Step::Is(P_OF_LAST, 0),
    Step::Is(CLOCK, 0),
];

/// The first processor calls for the status of the reader, on channel 0o10 with 0o1234 in its register.
const CALLS_THE_READER: [Step; 3] = [
    Step::Cells(0, 0o100, &[0o7710, 0o0002]),
    Step::SetP(0, 0o100),
    Step::SetChannel(0o10, ChannelState::Inactive, Some(0o1234)),
];

const STATE: Place = Place::ChannelMode { c: 0o10 };

const WORD: Place = Place::ChannelWord { c: 0o10 };

/// The numbers after the turn.
const AFTER: [(Place, u64); 3] = [(STATE, 0), (WORD, 2), (Place::ReaderMode, 2)];

/// The old numbers that the record of the turn has.
const OLD: [(Place, Option<u64>); 4] = [
    (STATE, Some(0)),
    (WORD, Some(0o1234)),
    (SLOT, Some(0)),
    (CLOCK, None),
];

/// The numbers after the turn is undone.
const UNDONE: [(Place, u64); 3] = [(STATE, 0), (WORD, 0o1234), (Place::ReaderMode, 0)];

/// Checks the old numbers that the newest undo record has.
fn check_old(
    rt: &impl Abort,
    session: &Session<Rig>,
    rows: &[(Place, Option<u64>)],
) -> Result<(), Fail> {
    let back = session.newest().ok_or("no record")?;
    for i in 0..rows.len() {
        let (place, number) = &rows[i];
        assert!(rt; old_value(&back, place) == *number, "old number {i}");
    }
    Ok(())
}

/// If a processor and the reader write one channel in one turn, its number before the turn counts.
#[test]
fn the_oldest_number_of_a_channel_counts(rt: HostRuntime) -> Result<(), Fail> {
    let mut session = new_session(rt.alloc())?;
    follow(&rt, &mut session, "calls", &CALLS_THE_READER);
    assert!(rt; act(&mut session, Action::Turn));
    check_numbers(&rt, session.machine(), &AFTER);
    check_old(&rt, &session, &OLD)?;
    assert!(rt; session.back(1).is_ok());
    check_numbers(&rt, session.machine(), &UNDONE);
    Ok(())
}

const LAST: Place = Place::Cell { pp: 0, a: 0o7777 };

const FIRST: Place = Place::Cell { pp: 0, a: 0 };

const GOES_ROUND: [Step; 6] = [
    Step::Cells(0, 0o7777, &[0o11, 0o22]),
    Step::Is(LAST, 0o11),
    Step::Is(FIRST, 0o22),
    Step::Back(1, None),
    Step::Is(LAST, 0),
    Step::Is(FIRST, 0),
];

const EXAMPLES: [Example; 3] = [
    ("loads, steps and goes back", &LOADS_AND_GOES_BACK),
    ("ten processors take turns", &TAKES_TURNS),
    ("cells go round the end of the memory", &GOES_ROUND),
];

#[test]
fn turns(rt: HostRuntime) -> Result<(), Fail> {
    follow_each(&rt, rt.alloc(), &EXAMPLES)
}
