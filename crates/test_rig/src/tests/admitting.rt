//! Which actions a machine rejects, and for which cause.

use super::*;

/// A processor, an address and words of an action that sets cells, and whether the machine admits it.
const CELLS: [(u8, u16, &[u16], bool); 8] = [
    (0o11, 0o7777, &[0o7777], true),
    (0o12, 0, &[0], false),
    (0, 0, &[0], true),
    (0, 0o10000, &[0], false),
    (0, 0, &[1], true),
    (0, 0, &[0o10000], false),
    (0, 0, &[2], true),
    (0, 0, &[], false),
];

/// Checks whether a machine admits an action. It rejects it because of a range, if at all.
fn check_range(rt: &impl Abort, rig: &Rig, action: &Action, is_within: bool, row: usize) {
    let fault = if is_within {
        None
    } else {
        Some(ActionFault::Range)
    };
    assert!(rt; rig.check(action).err() == fault, "row {row}");
    assert!(rt; rig.admits(action) == is_within, "row {row}");
}

fn check_cells(rt: &impl Abort, rig: &Rig) {
    for i in 0..CELLS.len() {
        let (pp, a, words, is_within) = CELLS[i];
        let values = values_of(words);
        check_range(rt, rig, &Action::SetCells { pp, a, values }, is_within, i);
    }
}

/// Actions that a machine admits, and beside each one that it rejects because of a range: of registers, central words, channels and
/// watched places.
const PAIRS: [(Action, Action); 11] = [
    (
        Action::SetA { pp: 0, v: 0o777777 },
        Action::SetA {
            pp: 0,
            v: 0o1000000,
        },
    ),
    (
        Action::SetA { pp: 0o11, v: 0 },
        Action::SetA { pp: 0o12, v: 0 },
    ),
    (
        Action::SetP { pp: 0, v: 0o7777 },
        Action::SetP { pp: 0, v: 0o10000 },
    ),
    (
        Action::SetQ { pp: 0, v: 0o7777 },
        Action::SetQ { pp: 0, v: 0o10000 },
    ),
    (
        Action::SetWord { a: 0o77777, v: 0 },
        Action::SetWord { a: 0o100000, v: 0 },
    ),
    (
        Action::SetWord {
            a: 0,
            v: (1 << 60) - 1,
        },
        Action::SetWord { a: 0, v: 1 << 60 },
    ),
    (
        Action::SetChannel {
            c: 0o13,
            state: ChannelState::Full,
            word: Some(0o7777),
        },
        Action::SetChannel {
            c: 0o14,
            state: ChannelState::Full,
            word: Some(0),
        },
    ),
    (
        Action::SetChannel {
            c: 3,
            state: ChannelState::Empty,
            word: None,
        },
        Action::SetChannel {
            c: 3,
            state: ChannelState::Function,
            word: None,
        },
    ),
    (
        Action::SetChannel {
            c: 3,
            state: ChannelState::Inactive,
            word: Some(0),
        },
        Action::SetChannel {
            c: 3,
            state: ChannelState::Inactive,
            word: Some(0o10000),
        },
    ),
    (
        Action::Watch(Watched::Register { c: 0o14 }),
        Action::Watch(Watched::Register { c: 0o15 }),
    ),
    (
        Action::Watch(Watched::Central { a: 0o77777 }),
        Action::Watch(Watched::Central { a: 0o100000 }),
    ),
];

fn check_pairs(rt: &impl Abort, rig: &Rig, pairs: &[(Action, Action)]) {
    for i in 0..pairs.len() {
        let (within, beyond) = &pairs[i];
        check_range(rt, rig, within, true, i);
        check_range(rt, rig, beyond, false, i);
    }
}

#[test]
fn ranges(rt: HostRuntime) -> Result<(), Fail> {
    let rig = make_rig(rt.alloc())?;
    check_cells(&rt, &rig);
    check_pairs(&rt, &rig, &PAIRS);
    drop(rig);
    Ok(())
}

const FIRST: Watched = Watched::Register { c: 0 };

const BEYOND: Watched = Watched::Register { c: 0o15 };

const NOTHING_WATCHED: [(Action, ActionFault); 3] = [
    (Action::Unwatch(FIRST), ActionFault::NotWatched),
    (Action::Unwatch(BEYOND), ActionFault::Range),
    (Action::Deadstart, ActionFault::NoPanel),
];

const ONE_WATCHED: [(Action, ActionFault); 1] = [(
    Action::Watch(FIRST),
    ActionFault::AlreadyWatched,
)];

const ALL_WATCHED: [(Action, ActionFault); 2] = [
    (Action::Watch(FIRST), ActionFault::WatchesFull),
    (Action::Watch(BEYOND), ActionFault::Range),
];

/// Checks that a machine rejects each action for the cause beside it.
fn check_causes(rt: &impl Abort, rig: &Rig, rows: &[(Action, ActionFault)]) {
    for i in 0..rows.len() {
        let (action, cause) = &rows[i];
        assert!(rt;
            rig.check(action) == Err(*cause),
            "{} watched, row {i}",
            rig.watches().len()
        );
    }
}

/// Watches the first register.
fn watch_first(rt: &impl Abort, session: &mut Session<Rig>) {
    assert!(rt; act(session, Action::Watch(FIRST)));
}

/// Watches the registers after the first, until no entry is left.
fn watch_others(rt: &impl Abort, session: &mut Session<Rig>) {
    for c in 1..8u8 {
        assert!(rt; act(session, Action::Watch(Watched::Register { c })));
    }
    assert!(rt; session.machine().watches().len() == 8);
}

fn check_in_order(rt: &impl Abort, session: &mut Session<Rig>) {
    check_causes(rt, session.machine(), &NOTHING_WATCHED);
    watch_first(rt, session);
    check_causes(rt, session.machine(), &ONE_WATCHED);
    watch_others(rt, session);
    check_causes(rt, session.machine(), &ALL_WATCHED);
    assert!(rt; session.machine().check(&Action::Unwatch(FIRST)) == Ok(()));
}

#[test]
fn causes_in_their_order(rt: HostRuntime) -> Result<(), Fail> {
    let mut session = new_session(rt.alloc())?;
    check_in_order(&rt, &mut session);
    drop(session);
    Ok(())
}
