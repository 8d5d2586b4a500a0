//! What is wrong in a source.
use crate::wordings::Wording;
pub use pp_decks::Span as Field;
use std::alloc::{AllocError, AllocFailed};

/// What stands in the text of a fault in place of a `{}`.
#[derive(Clone, Copy)]
pub enum Argument {
    Nothing,
    /// A part of the statement's line.
    Part(Field),
    Text(Wording),
    Symbol(u8),
    Octal(i64),
    /// An address, in four octal digits.
    Cell(u16),
    Decimal(u32),
    /// The name of the instruction with this code.
    Instruction(u8),
    /// The symbol that may be meant by this one, if there is one.
    NearestSymbol(Field),
    /// The operation that may be meant by this one, if there is one, at the statement with a number.
    NearestOperation(Field, u32),
    /// The instruction that takes a greater operand than that with this code, if there is one.
    Wider(Field, u8),
    /// A name that the symbols keep.
    Kept(Field),
    /// What reaches the target of the relative jump with this code.
    Reaching(Field, u8),
    /// The names of a macro's operands.
    Names(Field),
}

/// What is wrong: a text, and what stands in it in place of each `{}`.
#[derive(Clone, Copy)]
pub struct Fault {
    pub text: Wording,
    pub first: Argument,
    pub second: Argument,
    pub third: Argument,
    pub fourth: Argument,
}

impl Fault {
    /// Returns a fault without arguments.
    pub fn new(text: Wording) -> Self {
        Fault {
            text,
            first: Argument::Nothing,
            second: Argument::Nothing,
            third: Argument::Nothing,
            fourth: Argument::Nothing,
        }
    }

    /// Returns the fault with one more argument, after those that it has.
    pub fn with(mut self, argument: Argument) -> Self {
        match (self.first, self.second, self.third) {
            (Argument::Nothing, ..) => self.first = argument,
            (_, Argument::Nothing, _) => self.second = argument,
            (_, _, Argument::Nothing) => self.third = argument,
            _ => self.fourth = argument,
        }
        self
    }

    /// Returns that it is at a column, from 0.
    pub fn at(self, column: usize) -> Stop {
        Stop::At(column, self)
    }

    pub fn part(self, part: Field) -> Self {
        self.with(Argument::Part(part))
    }

    /// Returns the fault with a part of the line that may be empty.
    pub fn part_or_nothing(self, part: Field) -> Self {
        if part.is_empty() {
            self.with(Argument::Text(Wording::Nothing))
        } else {
            self.part(part)
        }
    }

    pub fn symbol(self, symbol: u8) -> Self {
        self.with(Argument::Symbol(symbol))
    }

    pub fn octal(self, number: i64) -> Self {
        self.with(Argument::Octal(number))
    }

    pub fn decimal(self, number: u32) -> Self {
        self.with(Argument::Decimal(number))
    }

    /// Returns the fault with a count.
    pub fn count(self, count: usize) -> Self {
        self.decimal(u32::try_from(count).unwrap_or(u32::MAX))
    }
}

/// Why a statement, or a part of it, has no value.
#[derive(Clone, Copy)]
pub enum Stop {
    /// A fault at a column, from 0.
    At(usize, Fault),
    /// A fault elsewhere, which is reported there.
    Follows,
    /// A fault at a column, from 0, after which nothing is assembled.
    Ends(usize, Fault),
    /// The source makes too much.
    TooMuch(Fault),
    /// Memory ran out.
    NoMemory,
}

/// What a statement, or a part of it, stands for, or why there is nothing.
pub type Outcome<T = ()> = Result<T, Stop>;

impl Stop {
    /// Returns a fault at the first column of a part, which is its argument.
    pub fn of(text: Wording, part: Field) -> Self {
        Fault::new(text).part(part).at(part.first)
    }

    /// Returns a fault of a part as that of a line, in which the part begins at a column.
    pub fn moved(self, first: usize) -> Self {
        match self {
            Stop::At(column, fault) => Stop::At(first.saturating_add(column), fault),
            stop => stop,
        }
    }

    pub fn too_much(text: Wording) -> Self {
        Stop::TooMuch(Fault::new(text))
    }

    /// Returns that this assembler does not know a part of the line yet.
    pub fn not_yet(part: Field) -> Self {
        let fault = Fault::new(Wording::NotTakenYet);
        Stop::Ends(part.first, fault.part(part))
    }
}

impl From<AllocError> for Stop {
    fn from(_error: AllocError) -> Self {
        Stop::NoMemory
    }
}

impl<T: Drop> From<AllocFailed<T>> for Stop {
    fn from(_error: AllocFailed<T>) -> Self {
        Stop::NoMemory
    }
}

/// A fault, or a warning, of a statement.
#[derive(Clone, Copy)]
pub struct Message {
    /// From 1.
    pub line: u32,
    /// From 1.
    pub column: u32,
    /// The index of the statement that has the parts.
    pub statement: usize,
    pub fault: Fault,
}

impl Message {
    pub fn new(line: u32, column: usize, statement: usize, fault: Fault) -> Self {
        let column = u32::try_from(column).unwrap_or(u32::MAX);
        Message {
            line,
            column,
            statement,
            fault,
        }
    }
}
