//! Codes 00 to 25 and 30 to 57.

use super::*;
use pp_step::{Code, Op, decode};

/// Words, and their fields.
const FIELDS: [(u16, Code, u8); 4] = [
    (0o0000, Code::Psn, 0o00),
    (0o2477, Code::Psn24, 0o77),
    (0o3520, Code::Rad, 0o20),
    (0o7777, Code::Fnc, 0o77),
];

#[test]
fn fields_of_a_word(rt: HostRuntime) {
    for i in 0..FIELDS.len() {
        let (word, code, d) = FIELDS[i];
        let op = decode(word & 0o7777);
        assert!(rt; op == Op { code, d }, "{word:o}");
    }
}

/// Performs an instruction, whose second word is 0200, with this number in A. Returns whether it leaves these P and A.
fn leaves(m: &mut Machine, word: u16, a: u32, after: (u16, u32)) -> bool {
    put_cells(m, 0o20, &[0o300]);
    put_cells(m, 0o30, &[0]);
    put_cells(m, 0o200, &[0o11]);
    put_cells(m, 0o300, &[0o4005]);
    put_cells(m, 0o500, &[0o7777]);
    run(m, &[word, 0o200], a, 1);
    m.pp.p == after.0 && m.pp.a == after.1
}

/// Words, A, and P afterwards.
const JUMPS: [(u16, u32, u16); 18] = [
    (0o0000, 0o000000, 0o0101),
    (0o2400, 0o000000, 0o0101),
    (0o2500, 0o000000, 0o0101),
    (0o0100, 0o000000, 0o0200),
    (0o0120, 0o000000, 0o0500),
    (0o0305, 0o000000, 0o0105),
    (0o0372, 0o000000, 0o0073),
    (0o0300, 0o000000, 0o0100),
    (0o0377, 0o000000, 0o0100),
    (0o0405, 0o000000, 0o0105),
    (0o0405, 0o000001, 0o0101),
    (0o0405, 0o777777, 0o0101),
    (0o0505, 0o000000, 0o0101),
    (0o0505, 0o777777, 0o0105),
    (0o0605, 0o377777, 0o0105),
    (0o0605, 0o400000, 0o0101),
    (0o0705, 0o377777, 0o0101),
    (0o0705, 0o400000, 0o0105),
];

#[test]
fn jumps(rt: HostRuntime) -> Result<(), Fail> {
    let mut m = make(rt.alloc(), CentralSize::K32)?;
    for i in 0..JUMPS.len() {
        let (word, a, p) = JUMPS[i];
        assert!(rt; leaves(&mut m, word, a, (p, a)), "row {i}");
    }
    drop(m);
    Ok(())
}

/// Words, A before and after, and P afterwards.
const CONSTANTS: [(u16, u32, u32, u16); 18] = [
    (0o1001, 0o400000, 0o000001, 0o0101),
    (0o1022, 0o123456, 0o123456, 0o0101),
    (0o1040, 0o777777, 0o000000, 0o0101),
    (0o1076, 0o777777, 0o377777, 0o0101),
    (0o1125, 0o777707, 0o777722, 0o0101),
    (0o1225, 0o777717, 0o000005, 0o0101),
    (0o1325, 0o777717, 0o777712, 0o0101),
    (0o1445, 0o777777, 0o000045, 0o0101),
    (0o1545, 0o000000, 0o777732, 0o0101),
    (0o1600, 0o777777, 0o000000, 0o0101),
    (0o1601, 0o777776, 0o000000, 0o0101),
    (0o1605, 0o000003, 0o000010, 0o0101),
    (0o1701, 0o000000, 0o777776, 0o0101),
    (0o1703, 0o000010, 0o000005, 0o0101),
    (0o2012, 0o777777, 0o120200, 0o0102),
    (0o2112, 0o777777, 0o120200, 0o0102),
    (0o2212, 0o100777, 0o100200, 0o0102),
    (0o2312, 0o100777, 0o020577, 0o0102),
];

#[test]
fn constants(rt: HostRuntime) -> Result<(), Fail> {
    let mut m = make(rt.alloc(), CentralSize::K32)?;
    for i in 0..CONSTANTS.len() {
        let (word, before, after, p) = CONSTANTS[i];
        assert!(rt; leaves(&mut m, word, before, (p, after)), "row {i}");
    }
    drop(m);
    Ok(())
}

/// A word, A before and after, a cell and its content, and P afterwards.
type Operand = (u16, u32, u32, u16, u16, u16);

const OPERANDS: [Operand; 26] = [
    (0o3020, 0o000001, 0o000300, 0o0020, 0o0300, 0o0101),
    (0o3120, 0o777777, 0o000300, 0o0020, 0o0300, 0o0101),
    (0o3220, 0o000100, 0o777577, 0o0020, 0o0300, 0o0101),
    (0o3320, 0o000511, 0o000611, 0o0020, 0o0300, 0o0101),
    (0o3420, 0o654321, 0o654321, 0o0020, 0o4321, 0o0101),
    (0o3520, 0o007700, 0o010200, 0o0020, 0o0200, 0o0101),
    (0o3620, 0o555555, 0o000301, 0o0020, 0o0301, 0o0101),
    (0o3720, 0o555555, 0o000277, 0o0020, 0o0277, 0o0101),
    (0o3730, 0o555555, 0o777776, 0o0030, 0o7776, 0o0101),
    (0o4020, 0o000001, 0o004005, 0o0300, 0o4005, 0o0101),
    (0o4120, 0o774000, 0o000006, 0o0300, 0o4005, 0o0101),
    (0o4220, 0o004000, 0o777772, 0o0300, 0o4005, 0o0101),
    (0o4320, 0o004001, 0o000004, 0o0300, 0o4005, 0o0101),
    (0o4420, 0o000017, 0o000017, 0o0300, 0o0017, 0o0101),
    (0o4520, 0o004000, 0o010005, 0o0300, 0o0005, 0o0101),
    (0o4620, 0o555555, 0o004006, 0o0300, 0o4006, 0o0101),
    (0o4720, 0o555555, 0o004004, 0o0300, 0o4004, 0o0101),
    (0o5000, 0o000000, 0o000011, 0o0200, 0o0011, 0o0102),
    (0o5020, 0o000000, 0o007777, 0o0500, 0o7777, 0o0102),
    (0o5120, 0o000001, 0o010000, 0o0500, 0o7777, 0o0102),
    (0o5220, 0o010000, 0o000001, 0o0500, 0o7777, 0o0102),
    (0o5320, 0o770077, 0o777700, 0o0500, 0o7777, 0o0102),
    (0o5420, 0o123456, 0o123456, 0o0500, 0o3456, 0o0102),
    (0o5520, 0o000001, 0o010000, 0o0500, 0o0000, 0o0102),
    (0o5620, 0o555555, 0o010000, 0o0500, 0o0000, 0o0102),
    (0o5720, 0o555555, 0o007776, 0o0500, 0o7776, 0o0102),
];

fn leaves_operand(m: &mut Machine, row: &Operand) -> bool {
    let (word, before, after, address, cell, p) = *row;
    leaves(m, word, before, (p, after)) && m.memory.get(address & 0o7777) == cell
}

#[test]
fn operands(rt: HostRuntime) -> Result<(), Fail> {
    let mut m = make(rt.alloc(), CentralSize::K32)?;
    for i in 0..OPERANDS.len() {
        assert!(rt; leaves_operand(&mut m, &OPERANDS[i]), "row {i}");
    }
    drop(m);
    Ok(())
}

/// P, the words from there on, cell 0020 and A. Afterwards P and A, and a cell and its content.
type Edge = (u16, [u16; 2], u16, u32, (u16, u32), u16, u16);

/// Instructions that write over themselves, index with 7777, or have minus zero in A.
const EDGES: [Edge; 7] = [
    // A return jump to the last cell, and one over its own second word.
    (0o100, [0o0200, 0o7777], 0, 0, (0, 0), 0o7777, 0o102),
    (0o100, [0o0200, 0o0101], 0, 0, (0o102, 0), 0o0101, 0o102),
    // A store over the instruction itself.
    (0, [0o3400, 0], 0, 0o1405, (1, 0o1405), 0, 0o1405),
    // With d = 00 there is no index.
    (2, [0o5000, 0o20], 0o707, 0, (4, 0o707), 0o20, 0o707),
    (2, [0o5001, 0o20], 0o707, 0, (4, 0o707), 0o20, 0o707),
    (0, [0o3520, 0], 0, 0o777777, (1, 0), 0o20, 0),
    (0, [0o1600, 0], 0, 0o777777, (1, 0), 0, 0o1600),
];

fn put_edge(m: &mut Machine, edge: &Edge) {
    let (p, words, indexed, a, _, _, _) = *edge;
    put_cells(m, 1, &[0o7777]);
    put_cells(m, 0o20, &[indexed]);
    put_cells(m, p, &words);
    put_registers(m, p, a);
}

/// Performs an instruction and undoes it. Returns whether the machine is as it should be each time.
fn is_right(m: &mut Machine, twin: &Machine, edge: &Edge) -> bool {
    let (_, _, _, _, after, address, cell) = *edge;
    let back = forward(m);
    let has_numbers = registers(m) == (after.0, after.1, 0, 0);
    let is_done = has_numbers && m.memory.get(address & 0o7777) == cell;
    take_back(m, back);
    is_done && is_same(m, twin)
}

fn edge_is_right(alloc: Global, edge: &Edge) -> Result<bool, Fail> {
    let mut twins = make_twins(alloc, CentralSize::K32)?;
    put_edge(&mut twins.machine, edge);
    put_edge(&mut twins.twin, edge);
    let right = is_right(&mut twins.machine, &twins.twin, edge);
    drop(twins);
    Ok(right)
}

#[test]
fn edges(rt: HostRuntime) -> Result<(), Fail> {
    for i in 0..EDGES.len() {
        assert!(rt; edge_is_right(rt.alloc(), &EDGES[i])?, "row {i}");
    }
    Ok(())
}
