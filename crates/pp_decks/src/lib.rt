//! The lines of a source and of the texts that it may read: common decks and system texts.
#![tactic(auto)]

mod blanks;
mod cuts;
mod decks;
mod lines;
mod places;
mod spans;

pub use blanks::{LAST_COLUMN, in_columns, is_empty, is_space, length_without_blanks, tail};
pub use cuts::are_cut;
pub use decks::{Deck, Decks, Text};
pub use lines::{Call, Join, Line, Lines, cut_lines, read_lines, without_mark};
pub use places::{Complaint, placed};
pub use spans::Span;
