//! Dead starts.

use super::*;

/// A panel that loads 5 and stores it in cell 0o20.
const PANEL: [u16; 12] = [0o1405, 0o3420, 0o300, 0, 0, 0, 0, 0, 0, 0, 0, 0];

/// Returns a machine with this panel, with the reader on channel 5 and one card.
fn make_with_panel(alloc: Global) -> Result<Rig, Fail> {
    let setup = setup_of(5, 9, deck_of(alloc, 1, 1)?, Some(PANEL));
    match Rig::new(alloc, setup) {
        Ok(rig) => Ok(rig),
        Err(_) => Err("refused".into()),
    }
}

/// Performs the steps of an example on a new machine with the panel.
fn follow_with_panel(rt: &impl Abort, alloc: Global, example: &Example) -> Result<(), Fail> {
    let (name, steps) = *example;
    let mut session = session_of(alloc, make_with_panel(alloc)?)?;
    follow(rt, &mut session, name, steps);
    drop(session);
    Ok(())
}

const PHASE: Place = Place::Phase { pp: 0 };

const A_1: Place = Place::RegA { pp: 1 };

const P_1: Place = Place::RegP { pp: 1 };

const Q_1: Place = Place::RegQ { pp: 1 };

const PHASE_1: Place = Place::Phase { pp: 1 };

const STARTS_AND_GOES_BACK: [Step; 21] = [
    Step::Deadstart,
    Step::Runs(1),
    Step::Is(SLOT, 1),
    Step::Is(A, 5),
    Step::Is(P, 2),
    Step::Is(Q, 0),
    Step::Is(PHASE, 0),
    Step::Is(A_1, 0o10000),
    Step::Is(P_1, 0),
    Step::Is(Q_1, 0),
    Step::Is(PHASE_1, 0o7101),
    Step::Back(2, None),
    Step::Is(SLOT, 0),
    Step::Is(A, 0),
    Step::Is(P, 0),
    Step::Is(Q, 0),
    Step::Is(PHASE, 0),
    Step::Is(A_1, 0),
    Step::Is(P_1, 0),
    Step::Is(Q_1, 0),
    Step::Is(PHASE_1, 0),
];

const LAST: Place = Place::Cell { pp: 0, a: 0o15 };

const SETS_CHANNELS: [Step; 21] = [
    Step::Cells(0, 0o15, &[0o1234]),
    Step::SetChannel(0o12, ChannelState::Full, Some(0o17)),
    Step::Deadstart,
    Step::Is(LAST, 0),
    Step::Is(Place::ChannelMode { c: 0 }, 0),
    Step::Is(Place::ChannelMode { c: 1 }, 1),
    Step::Is(Place::ChannelMode { c: 2 }, 1),
    Step::Is(Place::ChannelMode { c: 3 }, 1),
    Step::Is(Place::ChannelMode { c: 4 }, 1),
    Step::Is(Place::ChannelMode { c: 5 }, 1),
    Step::Is(Place::ChannelMode { c: 6 }, 1),
    Step::Is(Place::ChannelMode { c: 7 }, 1),
    Step::Is(Place::ChannelMode { c: 0o10 }, 1),
    Step::Is(Place::ChannelMode { c: 0o11 }, 1),
    Step::Is(Place::ChannelMode { c: 0o12 }, 0),
    Step::Is(Place::ChannelMode { c: 0o13 }, 0),
    Step::Is(Place::ChannelWord { c: 0o12 }, 0o17),
    Step::Back(1, None),
    Step::Is(LAST, 0o1234),
    Step::Is(Place::ChannelMode { c: 0o12 }, 2),
    Step::Is(Place::ChannelMode { c: 1 }, 0),
];

const GOES_ON_READING: [Step; 11] = [
    Step::Cells(0, 0o100, &[0o7705, 0o0001]),
    Step::SetP(0, 0o100),
    Step::Runs(1),
    Step::Is(Place::ReaderMode, 1),
    Step::Is(Place::ChannelMode { c: 5 }, 0),
    Step::Deadstart,
    Step::Is(Place::ReaderMode, 1),
    Step::Runs(1),
    Step::Is(Place::ChannelMode { c: 5 }, 2),
    Step::Is(Place::ChannelWord { c: 5 }, 0o1),
    Step::Is(Place::CardColumn, 1),
];

const EXAMPLES: [Example; 3] = [
    ("starts at the panel and goes back", &STARTS_AND_GOES_BACK),
    ("sets channels and the last cell", &SETS_CHANNELS),
    ("a reader that was reading goes on", &GOES_ON_READING),
];

#[test]
fn dead_starts(rt: HostRuntime) -> Result<(), Fail> {
    for i in 0..EXAMPLES.len() {
        follow_with_panel(&rt, rt.alloc(), &EXAMPLES[i])?;
    }
    Ok(())
}
