//! Each call of a session once, with a rig as the machine.

use super::*;
use pp_history::Looks;

const GOES_BACK_AND_FORWARD: [Step; 16] = [
    Step::SetA(0, 1),
    Step::SetA(0, 2),
    Step::SetA(0, 3),
    Step::Kept(3),
    Step::Back(4, Some(BackFault::TooFew { kept: 3 })),
    Step::Back(2, None),
    Step::Ahead(2),
    Step::Forward(1, None),
    Step::Is(A, 2),
    Step::SetQ(0, 7),
    Step::Forward(1, Some(BackFault::TooFewAhead { ahead: 0 })),
    Step::Back(3, None),
    Step::Forward(3, None),
    Step::Is(A, 2),
    Step::Is(Q, 7),
    Step::Kept(3),
];

#[test]
fn goes_back_and_forward(rt: HostRuntime) -> Result<(), Fail> {
    let mut session = new_session(rt.alloc())?;
    assert!(rt; session.capacity() == 10_000);
    follow(&rt, &mut session, "goes back", &GOES_BACK_AND_FORWARD);
    drop(session);
    Ok(())
}

/// Looks for a change of A, and of the clock.
fn look_for_changes(rt: &impl Abort, session: &Session<Rig>) {
    let mut looks = Looks::new();
    assert!(rt; session.find_change(&[A], &mut looks) == Some(2));
    assert!(rt; session.find_change(&[CLOCK], &mut looks) == None);
}

fn go_back_to_changes(rt: &impl Abort, session: &mut Session<Rig>) {
    assert!(rt; session.back_to_change(&[A]) == Ok(2));
    assert!(rt; session.back_to_change(&[A]) == Err(BackFault::NoChange { kept: 0 }));
    assert!(rt; session.ahead() == 2);
}

const SETS_A_TWICE: [Step; 2] = [Step::SetA(0, 1), Step::SetA(0, 1)];

#[test]
fn finds_the_latest_change(rt: HostRuntime) -> Result<(), Fail> {
    let mut session = new_session(rt.alloc())?;
    follow(&rt, &mut session, "sets", &SETS_A_TWICE);
    look_for_changes(&rt, &session);
    go_back_to_changes(&rt, &mut session);
    drop(session);
    Ok(())
}

const WATCHED_A: Watched = Watched::RegA { pp: 0 };

const WATCHED_P: Watched = Watched::RegP { pp: 0 };

const WATCHED_Q: Watched = Watched::RegQ { pp: 0 };

const DROPS_A_WATCH: [Step; 7] = [
    Step::Watch(WATCHED_A),
    Step::Watch(WATCHED_P),
    Step::Watch(WATCHED_Q),
    Step::Unwatch(WATCHED_P),
    Step::Watches(&[WATCHED_A, WATCHED_Q]),
    Step::Back(1, None),
    Step::Watches(&[WATCHED_A, WATCHED_P, WATCHED_Q]),
];

/// A program of processor 0, a number of turns, a place that is watched after them, and what the search for its latest
/// change returns. The program loads 5 into A in turn 1, and performs its other words in turns 0o13 and 0o25. The watch
/// counts as an action.
struct Row(&'static [u16], u32, Watched, Result<u32, BackFault>);

const BEFORE_THE_SEARCH: [Step; 5] = [
    Step::SetChannel(3, ChannelState::Empty, None),
    Step::SetWord(0o5, 0o77),
    Step::SetWord(0o24, 0o77),
    Step::Cells(0, 0o50, &[1]),
    Step::SetP(0, 0o100),
];

/// Makes the search of a row.
fn search_in(rt: &impl Abort, session: &mut Session<Rig>, row: &Row, i: usize) {
    follow(rt, session, "before the search", &BEFORE_THE_SEARCH);
    let Row(program, turns, watched, found) = *row;
    let steps = [
        Step::Cells(0, 0o100, program),
        Step::Runs(turns),
        Step::Watch(watched),
    ];
    follow(rt, session, "searched", &steps);
    assert!(rt; back_to_change(session) == found, "search {i}");
}

/// Makes the search of a row on a new machine.
fn search(rt: &impl Abort, alloc: Global, row: &Row, i: usize) -> Result<(), Fail> {
    let mut session = new_session(alloc)?;
    search_in(rt, &mut session, row, i);
    drop(session);
    Ok(())
}

/// Makes the searches of a table.
fn search_all(rt: &impl Abort, alloc: Global, rows: &[Row]) -> Result<(), Fail> {
    for i in 0..rows.len() {
        search(rt, alloc, &rows[i], i)?;
    }
    Ok(())
}

const CELL_1: Watched = Watched::Cell { pp: 0, a: 1 };

const CELL_51: Watched = Watched::Cell { pp: 0, a: 0o51 };

const CELL_52: Watched = Watched::Cell { pp: 0, a: 0o52 };

const CELL_7777: Watched = Watched::Cell { pp: 0, a: 0o7777 };

const WORD_5: Watched = Watched::Central { a: 0o5 };

const WORD_24: Watched = Watched::Central { a: 0o24 };

const WORD_25: Watched = Watched::Central { a: 0o25 };

const WORD_40: Watched = Watched::Central { a: 0o40 };

const CHANNEL_3: Watched = Watched::Register { c: 3 };

const READER: Watched = Watched::Register { c: 8 };

const REGISTER_14: Watched = Watched::Register { c: 0o14 };

/// Stores, outputs, exchanges, blocks, and places without a mark.
const SEARCHES: [Row; 16] = [
    Row(&[0o1405, 0o3451], 0o15, CELL_51, Ok(4)),
    // Ten turns and an exchange follow.
    Row(&[0o1405, 0o3451, 0o2600], 0o27, CELL_51, Ok(0o16)),
    // The cell after it, in the same block.
    Row(
        &[0o1405, 0o3451],
        0o15,
        CELL_52,
        Err(BackFault::NoChange { kept: 0o24 }),
    ),
    // The last row's register is that of the reader, which puts its status there.
    Row(&[0o1405, 0o7203], 0o15, CHANNEL_3, Ok(4)),
    Row(&[0o1405, 0o7203, 0o2600], 0o27, CHANNEL_3, Ok(0o16)),
    Row(&[0o1405, 0o7710, 2, 0o7410], 0o27, READER, Ok(4)),
    // An exchange at 5 writes central words 5 to 0o24. In the last two rows nothing writes the word, once in a block that
    // the exchange writes to.
    Row(&[0o1405, 0o2600], 0o15, WORD_5, Ok(4)),
    Row(&[0o1405, 0o2600], 0o15, WORD_24, Ok(4)),
    Row(&[0o1405, 0o2600, 0o3451], 0o27, WORD_24, Ok(0o16)),
    Row(
        &[0o1405, 0o2600],
        0o15,
        WORD_25,
        Err(BackFault::NoChange { kept: 0o24 }),
    ),
    Row(
        &[0o1405, 0o2600],
        0o15,
        WORD_40,
        Err(BackFault::NoChange { kept: 0o24 }),
    ),
    // The first row writes cells 0o50 to 0o54 to a central word. The move of turn 0o25 writes central word 5 to cells 0o7775
    // to 0o7777, 0 and 1, or to 0o7773 to 0o7777; three turns follow.
    Row(&[0o1405, 0o6250], 0o15, WORD_5, Ok(4)),
    Row(&[0o1405, 0o6150, 0o7775], 0o30, CELL_1, Ok(5)),
    Row(&[0o1405, 0o6150, 0o7773], 0o30, CELL_7777, Ok(5)),
    // The clock changed in turn 0o12.
    Row(&[0o1405, 0o2600], 0o15, WATCHED_A, Ok(0o16)),
    Row(&[0o1405, 0o2600], 0o15, REGISTER_14, Ok(5)),
];

#[test]
fn the_search_finds_the_latest_change(rt: HostRuntime) -> Result<(), Fail> {
    search_all(&rt, rt.alloc(), &SEARCHES)
}

/// The store is in turn 0o13, the output in turn 0o25. A search also takes back the watches behind the change.
const SEARCHES_FOR_TWO: [Step; 9] = [
    Step::SetChannel(3, ChannelState::Empty, None),
    Step::Cells(0, 0o100, &[0o1405, 0o3451, 0o7203]),
    Step::SetP(0, 0o100),
    Step::Runs(0o27),
    Step::Watch(CELL_51),
    Step::Watch(CHANNEL_3),
    Step::BackToChange(Ok(5)),
    Step::Watch(CELL_51),
    Step::BackToChange(Ok(0o13)),
];

const EXAMPLES: [Example; 2] = [
    ("a dropped watch comes back where it stood", &DROPS_A_WATCH),
    (
        "the search finds the latest of two changes",
        &SEARCHES_FOR_TWO,
    ),
];

#[test]
fn watches_and_searches(rt: HostRuntime) -> Result<(), Fail> {
    follow_each(&rt, rt.alloc(), &EXAMPLES)
}
