//! The language of PP programs, as docs/ASSEMBLER.md has it: a source to words.
#![tactic(auto)]

mod deck_lines;
mod meaning;
mod naming;
mod order;
mod parts;
mod passes;
mod program;
mod readings;
mod row_statements;
mod rows;
mod sources;
mod statements;
mod terms;
mod units;

pub use passes::{assemble, assemble_with};
pub use pp_decks::{Complaint, Deck, Decks, Line, Lines, Span, Text};
pub use pp_expansion::Reading;
pub use pp_source::{Definition, Symbol, Symbols};
pub use pp_statements::{CELLS, Row, SystemRows, Unit};
pub use program::{Assembly, Performed};
