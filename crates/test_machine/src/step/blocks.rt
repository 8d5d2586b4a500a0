//! Codes 61, 63, 71 and 73: the issue, the moves and the end.

use super::*;
use pp_machine::ChannelState::{Empty, Full, Function, Inactive};

/// Words, and Q after their issue.
const ISSUES: [(u16, u16); 6] = [
    (0o6110, 0o3),
    (0o6310, 0o3),
    (0o7105, 0o6),
    (0o7114, 0o6),
    (0o7305, 0o6),
    (0o7314, 0o6),
];

/// Issues a block transfer. Returns whether it leaves this Q.
fn is_issued(m: &mut Machine, word: u16, q: u16) -> bool {
    put_cells(m, 0, &[0]);
    put_cells(m, 0o10, &[3]);
    put_cells(m, 0o100, &[word, 0o300]);
    put_registers(m, 0o100, 2);
    m.pp.q = 6;
    let _ = forward(m);
    registers(m) == (0o300, 2, q, word) && m.memory.get(0) == 0o101
}

#[test]
fn issues(rt: HostRuntime) -> Result<(), Fail> {
    let mut m = make(rt.alloc(), CentralSize::K32)?;
    for i in 0..ISSUES.len() {
        let (word, q) = ISSUES[i];
        assert!(rt; is_issued(&mut m, word, q), "row {i}");
    }
    drop(m);
    Ok(())
}

/// With d = 00 the count is the content of cell 0000 before it got P+1.
const COUNT_IN_CELL_ZERO: [Row; 4] = [
    Row::Cells(0, &[7]),
    Row::Run(&[0o6100, 0o300], 0, 1),
    Row::HasQ(7),
    Row::HasCells(0, &[0o101]),
];

const BLOCK_OVER_ITS_RETURN_ADDRESS: [Row; 14] = [
    Row::Word(0o1000, 0o00010002000300040005),
    Row::Cells(0o10, &[2]),
    Row::Cells(0o100, &[0o6110, 0o7776]),
    Row::Registers(0o100, 0o1000),
    Row::ForwardAndBack,
    Row::Steps(1),
    Row::ForwardAndBack,
    Row::Steps(1),
    Row::ForwardAndBack,
    Row::Steps(1),
    Row::ForwardAndBack,
    Row::Steps(1),
    Row::HasRegisters(0o4, 0o1002, 0, 0),
    Row::HasCells(0o7776, &[1, 2, 3, 4, 5]),
];

const BLOCK: TwinExample = (
    "a block over its return address",
    CentralSize::K32,
    &BLOCK_OVER_ITS_RETURN_ADDRESS,
);

#[test]
fn block_over_its_return_address(rt: HostRuntime) -> Result<(), Fail> {
    follow_twins_anew(&rt, rt.alloc(), &BLOCK)
}

/// The second word comes from central 0, behind address 777777.
const PAST_THE_LAST_ADDRESS: [Row; 6] = [
    Row::Cells(0o10, &[2]),
    Row::Cells(0o1000, &[7, 7, 7, 7, 7]),
    Row::Word(0, 0o00010002000300040005),
    Row::Run(&[0o6110, 0o1000], 0o777777, 4),
    Row::HasCells(0o1000, &[0, 0, 0, 0, 0, 1, 2, 3, 4, 5]),
    Row::HasRegisters(0o102, 1, 0, 0),
];

/// The first word is past the size, and is not written.
const CELLS_TO_WORDS: [Row; 8] = [
    Row::Cells(0o10, &[2]),
    Row::Cells(0o7773, &[0o11, 0o12, 0o13, 0o14, 0o15]),
    Row::Cells(1, &[0o22, 0o23, 0o24, 0o25]),
    Row::Run(&[0o6310, 0o7773], 0o777777, 4),
    Row::HasWord(0o777777, 0),
    Row::HasWord(0, 0o01010022002300240025),
    Row::HasWord(1, 0),
    Row::HasRegisters(0o102, 1, 0, 0),
];

const INPUT_FROM_AN_INACTIVE_CHANNEL: [Row; 4] = [
    Row::Cells(0o300, &[0o7777]),
    Row::Run(&[0o7105, 0o300], 5, 2),
    Row::HasCells(0o300, &[0]),
    Row::HasRegisters(0o102, 5, 0, 0),
];

/// Cell 0000 is cleared first, and then P is read from it.
const INPUT_TO_CELL_ZERO: [Row; 9] = [
    Row::Cells(0, &[0o101]),
    Row::Registers(0, 5),
    Row::Phase(0o7105),
    Row::ForwardAndBack,
    Row::HasCells(0, &[0o101]),
    Row::HasRegisters(0, 5, 0, 0o7105),
    Row::Steps(1),
    Row::HasCells(0, &[0]),
    Row::HasRegisters(1, 5, 0, 0),
];

const NO_WORD_TO_MOVE: [Row; 4] = [
    Row::Channel(5, Full, 0o1234),
    Row::Run(&[0o7105, 0o300], 0, 2),
    Row::HasRegisters(0o102, 0, 0, 0),
    Row::HasChannel(5, Full, 0o1234),
];

/// A phase and the state of its channel. Afterwards P, A, the state, the register and a cell.
#[derive(Clone, Copy)]
struct Move(u16, ChannelState, u16, u32, ChannelState, u16, u16);

/// For each phase: the states in which a word moves, and those in which the transfer ends. In any other state it waits.
const MOVES: [Move; 8] = [
    Move(0o7105, Inactive, 0o102, 2, Inactive, 0o1234, 0o0000),
    Move(0o7105, Empty, 0o300, 2, Empty, 0o1234, 0o4567),
    Move(0o7105, Full, 0o301, 1, Empty, 0o1234, 0o1234),
    Move(0o7105, Function, 0o300, 2, Function, 0o1234, 0o4567),
    Move(0o7305, Inactive, 0o102, 2, Inactive, 0o1234, 0o4567),
    Move(0o7305, Empty, 0o301, 1, Full, 0o4567, 0o4567),
    Move(0o7305, Full, 0o300, 2, Full, 0o1234, 0o4567),
    Move(0o7305, Function, 0o300, 2, Function, 0o1234, 0o4567),
];

/// Makes a move in the given state. Returns whether it leaves the numbers of its row.
fn is_moved(m: &mut Machine, row: &Move) -> bool {
    let Move(phase, state, p, a, after, register, cell) = *row;
    put_cells(m, 0, &[0o101]);
    put_cells(m, 0o300, &[0o4567]);
    put_registers(m, 0o300, 2);
    put_phase(m, phase);
    put_channel(m, 5, state, 0o1234);
    let _ = forward(m);
    let has_moved = m.pp.p == p && m.pp.a == a && m.memory.get(0o300) == cell;
    has_moved && has_channel(m, 5, after, register)
}

#[test]
fn moves_in_each_state(rt: HostRuntime) -> Result<(), Fail> {
    let mut m = make(rt.alloc(), CentralSize::K32)?;
    for i in 0..MOVES.len() {
        assert!(rt; is_moved(&mut m, &MOVES[i]), "row {i}");
    }
    drop(m);
    Ok(())
}

const CLOCK_COMES_IN: [Row; 8] = [
    Row::Run(&[0o7114, 0o300], 2, 1),
    Row::Clock(1),
    Row::Steps(1),
    Row::Clock(2),
    Row::Steps(2),
    Row::HasCells(0o300, &[1, 2]),
    Row::HasRegisters(0o102, 0, 0, 0),
    Row::HasClock(2),
];

const CLOCK_OVER_THE_RETURN_ADDRESS: [Row; 4] = [
    Row::Clock(0o4000),
    Row::Run(&[0o7114, 0], 1, 3),
    Row::HasCells(0, &[0o4000]),
    Row::HasP(0o4001),
];

/// The clock accepts no word: the transfer waits, unless there is no word to move.
const OUTPUT_TO_THE_CLOCK: [Row; 6] = [
    Row::Run(&[0o7314, 0o300], 2, 2),
    Row::HasRegisters(0o300, 2, 0, 0o7314),
    Row::HasClock(0),
    Row::Run(&[0o7314, 0o300], 0, 2),
    Row::HasRegisters(0o102, 0, 0, 0),
    Row::HasClock(0),
];

const EXAMPLES: [Example; 9] = [
    ("the count is in cell 0000", &COUNT_IN_CELL_ZERO),
    ("past the last central address", &PAST_THE_LAST_ADDRESS),
    ("cells to central words", &CELLS_TO_WORDS),
    (
        "input from an inactive channel",
        &INPUT_FROM_AN_INACTIVE_CHANNEL,
    ),
    ("the same to cell 0000", &INPUT_TO_CELL_ZERO),
    ("no word to move", &NO_WORD_TO_MOVE),
    ("the clock comes in", &CLOCK_COMES_IN),
    (
        "the clock over the return address",
        &CLOCK_OVER_THE_RETURN_ADDRESS,
    ),
    ("output to the clock", &OUTPUT_TO_THE_CLOCK),
];

#[test]
fn transfers(rt: HostRuntime) -> Result<(), Fail> {
    follow_each(&rt, rt.alloc(), &EXAMPLES)
}
