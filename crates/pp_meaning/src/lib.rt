//! What the statements of a source mean: their words.
#![tactic(auto)]

mod bit_words;
mod bits;
mod blocks;
mod directives;
mod expressions;
mod fields;
mod instruction;
mod lines;
mod literals;
mod naming;
mod numbers;
mod performing;
mod qualifiers;
mod state;
mod statements;
mod synonyms;
mod texts;
mod words;

pub use expressions::{
    Atom, Base, Expression, Factor, Item, Linkage, Literal, Operand, Place, Radix, Sign, Symbol,
    Term, Validity, Width,
};
pub use lines::is_written;
pub use qualifiers::may_qualify;
pub use statements::{
    Block, CELLS, Counters, Image, Label, Left, Operation, Refusal, State, Statement, Synonym,
    SystemText, Unit,
};
pub use texts::{Cut, Kind, Text};
