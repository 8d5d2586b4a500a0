//! Runs of turns, and the places that are watched meanwhile.

use super::*;

const CELL_50: Watched = Watched::Cell { pp: 0, a: 0o50 };

const WATCHED_A: Watched = Watched::RegA { pp: 0 };

const WATCHED_P: Watched = Watched::RegP { pp: 0 };

const WORD_5: Watched = Watched::Central { a: 0o5 };

const CHANNEL_3: Watched = Watched::Register { c: 3 };

const REGISTER_14: Watched = Watched::Register { c: 0o14 };

/// A program at 0o100 loads 5 into A and stores it in cell 0o50.
const STOPS_AND_GOES_BACK: [Step; 9] = [
    Step::Cells(0, 0o100, &[0o1405, 0o2400, 0o3450]),
    Step::SetP(0, 0o100),
    Step::Watch(CELL_50),
    Step::Stops(0o1000, 0o25, CELL_50, 0, 5),
    Step::Is(SLOT, 1),
    Step::BackToChange(Ok(1)),
    Step::Is(Place::Cell { pp: 0, a: 0o50 }, 0),
    Step::BackToChange(Err(BackFault::NoChange { kept: 0o27 })),
    Step::Is(Place::Cell { pp: 0, a: 0o50 }, 0),
];

/// The same program, with 5 in the cell already.
const STORES_THE_SAME: [Step; 8] = [
    Step::Cells(0, 0o50, &[5]),
    Step::Cells(0, 0o100, &[0o1405, 0o2400, 0o3450]),
    Step::SetP(0, 0o100),
    Step::Watch(CELL_50),
    Step::Runs(0o1000),
    Step::Is(SLOT, 2),
    Step::BackToChange(Ok(0o1004)),
    Step::Watches(&[]),
];

const WATCHES_THE_CLOCK: [Step; 6] = [
    Step::Watch(REGISTER_14),
    Step::Stops(0o1000, 0o12, REGISTER_14, 0, 1),
    Step::Is(SLOT, 0),
    Step::BackToChange(Ok(1)),
    Step::Is(SLOT, 0o11),
    Step::BackToChange(Err(BackFault::NoChange { kept: 0o12 })),
];

// The turn that loads A advances P, too.
const WATCHES_A_AND_P: [Step; 5] = [
    Step::Cells(0, 0o100, &[0o1405]),
    Step::SetP(0, 0o100),
    Step::Watch(WATCHED_A),
    Step::Watch(WATCHED_P),
    Step::Stops(1, 1, WATCHED_A, 0, 5),
];

const WATCHES_P_AND_A: [Step; 5] = [
    Step::Cells(0, 0o100, &[0o1405]),
    Step::SetP(0, 0o100),
    Step::Watch(WATCHED_P),
    Step::Watch(WATCHED_A),
    Step::Stops(1, 1, WATCHED_P, 0o100, 0o101),
];

const NO_TURNS: [Step; 3] = [Step::Watch(WATCHED_P), Step::Runs(0), Step::Kept(1)];

/// The same program, with a watched cell, in a session that keeps four actions.
const STOPS_IN_A_SHORT_HISTORY: [Step; 10] = [
    Step::Cells(0, 0o100, &[0o1405, 0o2400, 0o3450]),
    Step::SetP(0, 0o100),
    Step::Watch(CELL_50),
    Step::Stops(0o1000, 0o25, CELL_50, 0, 5),
    Step::Kept(4),
    Step::Back(4, None),
    Step::Is(SLOT, 7),
    Step::Is(Place::Cell { pp: 0, a: 0o50 }, 0),
    Step::Runs(3),
    Step::Ahead(0),
];

#[test]
fn a_run_may_be_longer_than_the_history(rt: HostRuntime) -> Result<(), Fail> {
    let rig = make_rig(rt.alloc())?;
    let Ok(mut session) = Session::new(rt.alloc(), rig, 4) else {
        return Err("no memory".into());
    };
    follow(&rt, &mut session, "stops", &STOPS_IN_A_SHORT_HISTORY);
    drop(session);
    Ok(())
}

const WAITS: [Step; 7] = [
    Step::SetChannel(3, ChannelState::Empty, None),
    Step::Cells(0, 0o100, &[0o7403]),
    Step::SetP(0, 0o100),
    Step::Runs(1),
    Step::Is(SLOT, 1),
    Step::Is(P, 0o100),
    Step::Kept(4),
];

const EXAMPLES: [Example; 7] = [
    (
        "stops at a changed cell and goes back",
        &STOPS_AND_GOES_BACK,
    ),
    ("a store of the same number is no change", &STORES_THE_SAME),
    ("the clock is watched as register 14", &WATCHES_THE_CLOCK),
    ("the hit is the first in watch order", &WATCHES_A_AND_P),
    ("the hit is the first in the other order", &WATCHES_P_AND_A),
    ("no turns are no run", &NO_TURNS),
    ("a wait is a turn", &WAITS),
];

#[test]
fn runs(rt: HostRuntime) -> Result<(), Fail> {
    follow_each(&rt, rt.alloc(), &EXAMPLES)
}

/// Performs two turns of processor 0 with the steps before them: it loads 5 into A and then performs the second word.
/// Channel 3 is active and empty, and central word 5 is 0o77.
fn load_and_perform(rt: &impl Abort, alloc: Global, example: &Example) -> Result<(), Fail> {
    let (name, steps) = *example;
    let mut session = new_session(alloc)?;
    follow(rt, &mut session, "before the turns", &LOADS);
    follow(rt, &mut session, name, steps);
    drop(session);
    Ok(())
}

const LOADS: [Step; 4] = [
    Step::SetChannel(3, ChannelState::Empty, None),
    Step::SetWord(0o5, 0o77),
    Step::SetP(0, 0o100),
    Step::Watch(CELL_50),
];

const EXCHANGES: [Step; 3] = [
    Step::Cells(0, 0o100, &[0o1405, 0o2600]),
    Step::Watch(WORD_5),
    Step::Stops(0o13, 0o13, WORD_5, 0o77, 0),
];

const OUTPUTS: [Step; 3] = [
    Step::Cells(0, 0o100, &[0o1405, 0o7203]),
    Step::Watch(CHANNEL_3),
    Step::Stops(0o13, 0o13, CHANNEL_3, 0, 5),
];

const STORES: [Step; 3] = [
    Step::Cells(0, 0o100, &[0o1405, 0o3450]),
    Step::Watch(WATCHED_A),
    Step::Stops(0o13, 1, WATCHED_A, 0, 5),
];

const ADDS: [Step; 3] = [
    Step::Cells(0, 0o100, &[0o1405, 0o1601]),
    Step::Watch(WORD_5),
    Step::Runs(0o13),
];

const LOADED: [Example; 4] = [
    ("an exchange may change a watched word", &EXCHANGES),
    ("an output changes the register of a channel", &OUTPUTS),
    ("a register is watched beside a cell", &STORES),
    (
        "turns that write registers alone change no watched cell",
        &ADDS,
    ),
];

#[test]
fn runs_after_a_load(rt: HostRuntime) -> Result<(), Fail> {
    for i in 0..LOADED.len() {
        load_and_perform(&rt, rt.alloc(), &LOADED[i])?;
    }
    Ok(())
}
