//! Statements of a source, as a disassembler writes them.

use arrayvec::ArrayVec;

/// The most words of a statement CON.
pub const WORDS_OF_LINE: usize = 4;

/// What a name is of: its first letter.
#[derive(Clone, Copy)]
pub enum Kind {
    /// An instruction: L.
    Code,
    /// The entry of a subroutine: S.
    Subroutine,
    /// Data: D.
    Data,
    /// The exit of a subroutine, before its entry: the entry's name and X.
    Exit,
}

/// A name that is made of an address, as L0100.
#[derive(Clone, Copy)]
pub struct Name {
    pub kind: Kind,
    /// The address that it names, up to octal 7777.
    pub address: u16,
}

/// The operand of a statement, or the first of two.
#[derive(Clone, Copy)]
pub enum Operand {
    /// A number in octal.
    Number(u32),
    /// A number in octal with a minus sign.
    Minus(u32),
    /// The address of the statement, `*`.
    Here,
    /// A name, and how many cells after it, up to 1.
    Named(Name, u16),
}

/// What a statement does.
#[derive(Drop)]
pub enum Operation {
    /// `BASE OCTAL`: the numbers of the source are octal.
    Base,
    /// `ORG a`: the next word is for this address, up to octal 7777.
    Origin(u16),
    /// An instruction by its code, up to octal 77, with its operands, d as the second one.
    Instruction(u8, Option<Operand>, Option<u8>),
    /// `SUBR`: the exit and the entry of a subroutine. The exit has its own address in place of a return address.
    Subroutine,
    /// `EQU *-1`: the label is of the cell before.
    Equal,
    /// `CON w,..`: words.
    Words(ArrayVec<u16, WORDS_OF_LINE>),
    /// `BSSZ n`: as many words of zero.
    Zeros(usize),
    /// `END a`: the source ends, and a processor begins at this address, if one is named.
    End(Option<Operand>),
}

/// A statement of a source: its label, if it has one, and what it does.
#[derive(Drop)]
pub struct Statement {
    pub label: Option<Name>,
    pub operation: Operation,
}
