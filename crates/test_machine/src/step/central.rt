//! Codes 26, 27, 60 and 62: central memory and the exchange.

use super::*;

const PROGRAM_ADDRESS: [Row; 5] = [
    Row::Package(0, 0o00001234000005123456),
    Row::HasPackage(0, 0o00001234000005000000),
    Row::HasProgramAddress(0o1234),
    Row::Run(&[0o2700], 0o777777, 1),
    Row::HasRegisters(0o101, 0o1234, 0, 0),
];

const WORD_TO_CELLS: [Row; 4] = [
    Row::Word(0o1000, 0o01234567012345670123),
    Row::Run(&[0o6076], 0o1000, 1),
    Row::HasCells(0o76, &[0o0123, 0o4567, 0o0123, 0o4567, 0o0123]),
    Row::HasRegisters(0o101, 0o1000, 0, 0),
];

const CELLS_TO_WORD: [Row; 4] = [
    Row::Cells(0o20, &[0o0123, 0o4567, 0o0123, 0o4567, 0o0123]),
    Row::Run(&[0o6220], 0o77777, 1),
    Row::HasWord(0o77777, 0o01234567012345670123),
    Row::HasRegisters(0o101, 0o77777, 0, 0),
];

const MOVES_PAST_THE_SIZE: [Row; 8] = [
    Row::Cells(0o76, &[7, 7, 7, 7, 7]),
    Row::Cells(0o200, &[0o6076, 0o6276]),
    Row::Registers(0o200, 0o400000),
    Row::Steps(1),
    Row::HasCells(0o76, &[0, 0, 0, 0, 0]),
    Row::HasP(0o201),
    Row::Cells(0o76, &[7, 7, 7, 7, 7]),
    Row::Steps(1),
];

/// The same cells, after both moves.
const MOVED_PAST_THE_SIZE: [Row; 3] = [
    Row::Cells(0o76, &[7, 7, 7, 7, 7]),
    Row::Cells(0o200, &[0o6076, 0o6276]),
    Row::Registers(0o202, 0o400000),
];

#[test]
fn words_past_the_size(rt: HostRuntime) -> Result<(), Fail> {
    let mut twins = make_twins(rt.alloc(), CentralSize::K128)?;
    follow(&rt, &mut twins.machine, "both moves", &MOVES_PAST_THE_SIZE);
    follow(&rt, &mut twins.twin, "after them", &MOVED_PAST_THE_SIZE);
    assert!(rt; is_same(&twins.machine, &twins.twin));
    drop(twins);
    Ok(())
}

/// The bits of word 0 in the place of B0 are lost in the frame, and only undo brings them back.
const TWO_EXCHANGES: [Row; 12] = [
    Row::Word(0o1000, 0o00001234000005123456),
    Row::Cells(0o100, &[0o2600, 0o2600]),
    Row::Registers(0o100, 0o1000),
    Row::ForwardAndBack,
    Row::Steps(1),
    Row::HasPackage(0, 0o00001234000005000000),
    Row::HasWord(0o1000, 0),
    Row::ForwardAndBack,
    Row::Steps(1),
    Row::HasPackage(0, 0),
    Row::HasWord(0o1000, 0o00001234000005000000),
    Row::HasP(0o102),
];

const EXCHANGE_AT_THE_END: [Row; 12] = [
    Row::Word(0o377775, 0o00001234000005000000),
    Row::Word(0o377776, 0o00000100000006000007),
    Row::Word(0o377777, 0o00000200000010000011),
    Row::Cells(0o100, &[0o2600]),
    Row::Registers(0o100, 0o377775),
    Row::ForwardAndBack,
    Row::Steps(1),
    Row::HasPackage(0, 0o00001234000005000000),
    Row::HasPackage(1, 0o00000100000006000007),
    Row::HasPackage(2, 0o00000200000010000011),
    Row::HasZeros((3, 16), (0o377775, 0o400000)),
    Row::HasP(0o101),
];

/// Three words are past the size: they read as zero and are not written. The next word is central word 0.
const EXCHANGE_OVER_THE_LAST_ADDRESS: [Row; 14] = [
    Row::CountingPackage(1),
    Row::Word(0, 0o11),
    Row::Word(0o14, 0o12),
    Row::Word(0o15, 0o13),
    Row::Cells(0o100, &[0o2600]),
    Row::Registers(0o100, 0o777775),
    Row::ForwardAndBack,
    Row::Steps(1),
    Row::HasZeros((0, 3), (0, 0)),
    Row::HasPackage(3, 0o11),
    Row::HasPackage(0o17, 0o12),
    Row::HasWord(0o15, 0o13),
    Row::HasP(0o101),
    Row::HasCountingWords(0, 0o15, 4),
];

/// All sixteen (decimal) words are there, and they are the last.
const EXCHANGE_OF_THE_LAST_WORDS: [Row; 9] = [
    Row::CountingWords(0o377760, 1),
    Row::CountingPackage(0o21),
    Row::Cells(0o100, &[0o2600]),
    Row::Registers(0o100, 0o377760),
    Row::ForwardAndBack,
    Row::Steps(1),
    Row::HasCountingPackage(16, 1),
    Row::HasCountingWords(0o377760, 16, 0o21),
    Row::HasWord(0o377757, 0),
];

/// One address further the last word is past the size.
const EXCHANGE_OF_THE_LAST_FIFTEEN_WORDS: [Row; 10] = [
    Row::CountingWords(0o377760, 1),
    Row::CountingPackage(0o21),
    Row::Cells(0o100, &[0o2600]),
    Row::Registers(0o100, 0o377761),
    Row::ForwardAndBack,
    Row::Steps(1),
    Row::HasCountingPackage(15, 2),
    Row::HasPackage(0o17, 0),
    Row::HasCountingWords(0o377761, 15, 0o21),
    Row::HasWord(0o377760, 1 << 18),
];

const EXAMPLES: [Example; 3] = [
    ("the program address", &PROGRAM_ADDRESS),
    ("a word to cells", &WORD_TO_CELLS),
    ("cells to a word", &CELLS_TO_WORD),
];

#[test]
fn moves(rt: HostRuntime) -> Result<(), Fail> {
    follow_each(&rt, rt.alloc(), &EXAMPLES)
}

const TWIN_EXAMPLES: [TwinExample; 5] = [
    ("two exchanges", CentralSize::K32, &TWO_EXCHANGES),
    ("at the end", CentralSize::K128, &EXCHANGE_AT_THE_END),
    (
        "over the last address",
        CentralSize::K128,
        &EXCHANGE_OVER_THE_LAST_ADDRESS,
    ),
    (
        "the last words",
        CentralSize::K128,
        &EXCHANGE_OF_THE_LAST_WORDS,
    ),
    (
        "the last fifteen words",
        CentralSize::K128,
        &EXCHANGE_OF_THE_LAST_FIFTEEN_WORDS,
    ),
];

#[test]
fn exchanges(rt: HostRuntime) -> Result<(), Fail> {
    follow_twins_each(&rt, rt.alloc(), &TWIN_EXAMPLES)
}
