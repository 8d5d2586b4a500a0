//! Statements.
use crate::expressions::{Base, Literal, Operand};
use std::alloc::{AllocError, AllocFailed};

/// The number of cells of a memory.
pub const CELLS: usize = 4096;
/// How many bits a word has.
pub const WORD: u32 = 12;

/// Why there are no words.
#[derive(Clone, Copy, Debug, PartialEq, Eq, Drop)]
pub enum Refusal {
    /// Memory ran out.
    NoMemory,
    /// A statement is not right: that of a unit, both by their indices. The end of a unit is behind its last statement, and the
    /// symbols are behind the last unit.
    At(usize, usize),
    /// A statement of a system text is not right.
    System,
}

impl Refusal {
    /// Returns why a system text is refused.
    pub fn of_system(self) -> Self {
        match self {
            Refusal::At(..) => Refusal::System,
            refusal => refusal,
        }
    }
}

impl From<AllocError> for Refusal {
    fn from(_: AllocError) -> Self {
        Refusal::NoMemory
    }
}

impl<T: Drop> From<AllocFailed<T>> for Refusal {
    fn from(_: AllocFailed<T>) -> Self {
        Refusal::NoMemory
    }
}

/// The label of a statement.
#[derive(Clone, Copy)]
pub enum Label {
    /// Nothing.
    Empty,
    /// `+`, which is no label.
    Plus,
    /// `-`, which is no label.
    Minus,
    /// The name of the symbol at an index.
    Named(usize),
}

/// What a statement does.
#[derive(Clone, Copy)]
pub enum Operation {
    /// No operation: a label alone.
    Blank,
    /// The instruction with a code.
    Instruction(u8),
    /// CON.
    Constants,
    /// DATA.
    Data,
    /// BSSZ.
    Zeros,
    /// BSS.
    Space,
    /// ORG.
    Origin,
    /// LOC.
    Location,
    /// EQU, or `=`.
    Equate(bool),
    /// SET.
    Set,
    /// MAX, or MIN.
    Choose(bool),
    /// MICCNT, with the number of symbols of its micro.
    Count(usize),
    /// BASE with the first letter of a base's name, and so many more.
    SetBase(Base, u8),
    /// `BASE *`.
    BaseBefore,
    /// PERIPH.
    Deck,
    /// DIS.
    Display,
    /// VFD.
    Bits,
    /// POS.
    Position,
    /// ADK, or LDK.
    Shortest(bool),
    /// LIT, with the address of its literal.
    Pool(usize),
    /// USE.
    Use,
    /// OPSYN.
    Synonym,
    /// QUAL, with so many slashes before its qualifier, and behind it.
    Qualify(u8, u8),
    /// END.
    End,
}

/// A statement as it is performed: its line and the fields of that line.
#[derive(Drop)]
pub struct Statement {
    /// The line of the listing, in capitals.
    pub line: Vec<u8>,
    /// What is before a name with the present qualifier: `/Q/`, or nothing.
    pub prefix: Vec<u8>,
    /// The blanks before the label.
    pub margin: Vec<u8>,
    pub label: Label,
    /// What is in place of a label: the name that OPSYN gives to an operation, or a word that says nothing.
    pub word: Vec<u8>,
    /// The blanks before the operation.
    pub gap: Vec<u8>,
    /// The name of the operation, or a synonym.
    pub name: Vec<u8>,
    pub operation: Operation,
    /// The blanks before the operands.
    pub space: Vec<u8>,
    pub operands: Vec<Operand>,
    /// What follows the operands.
    pub comment: Vec<u8>,
}

/// A program of a source: its literals, and its blocks of USE, in the order in which they are named first, and its statements.
#[derive(Drop)]
pub struct Unit {
    pub literals: Vec<Literal>,
    pub blocks: Vec<Block>,
    pub statements: Vec<Statement>,
}

/// A system text, which is mostly one program.
#[derive(Drop)]
pub struct SystemText {
    pub units: Vec<Unit>,
}

/// What programs leave to the next one.
#[derive(Drop)]
pub struct Left {
    /// How many symbols they define.
    pub defined: usize,
    pub synonyms: Vec<Synonym>,
    /// PERIPH says that the source is a deck.
    pub is_deck: bool,
    pub base: Option<Base>,
    /// Those that `BASE *` goes back to, the last one at the end.
    pub bases: Vec<Option<Base>>,
    /// What was before a name with the qualifiers of QUAL, that of the present one at the end.
    pub prefixes: Vec<Vec<u8>>,
}

/// What a program makes: a word or none for each cell, the words in the order of their statements, and where a processor begins.
#[derive(Drop)]
pub struct Image {
    pub memory: Vec<Option<u32>>,
    pub words: Vec<u32>,
    pub start: Option<u32>,
}

/// A block of USE, and its first cell.
#[derive(Drop)]
pub struct Block {
    pub name: Vec<u8>,
    pub base: usize,
}

/// A name of OPSYN, and the name of its operation.
#[derive(Drop)]
pub struct Synonym {
    pub name: Vec<u8>,
    pub operation: Vec<u8>,
}

/// Where the next statement of a block is, and the cell after its highest one.
#[derive(Clone, Copy)]
pub struct Counters {
    pub location: usize,
    pub origin: usize,
    pub reach: usize,
}

/// What there is so far.
#[derive(Drop)]
pub struct State {
    /// A system text is performed.
    pub is_system: bool,
    pub location: usize,
    pub origin: usize,
    /// PERIPH says that the source is a deck.
    pub is_deck: bool,
    pub base: Option<Base>,
    /// Those that `BASE *` goes back to, the last one at the end.
    pub bases: Vec<Option<Base>>,
    pub defined: usize,
    pub literals: usize,
    pub reach: usize,
    pub memory: Vec<Option<u32>>,
    pub words: Vec<u32>,
    /// How many bits of the last word are used, if VFD has not filled it, or 0.
    pub used: usize,
    pub start: Option<u32>,
    /// The present block: 0, the nominal one, or an index of the others, from 1.
    pub block: usize,
    /// Those that USE * goes back to, the last one at the end.
    pub before: Vec<usize>,
    /// How many blocks USE has named.
    pub named: usize,
    /// The counters of the blocks as USE has left them.
    pub blocks: Vec<Counters>,
    pub synonyms: Vec<Synonym>,
    /// What was before a name with the qualifiers of QUAL, that of the present one at the end.
    pub prefixes: Vec<Vec<u8>>,
}
