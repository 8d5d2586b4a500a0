//! What is written of an assembled source: complaints, words, lines, names and the listing.
#![tactic(auto)]

mod forms;
mod listing;
mod rows;

pub use forms::{complaints_text, lines_text, listing_text, names_text, words_text};
pub use rows::{rows_text, units_text};
