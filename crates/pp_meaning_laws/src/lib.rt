//! What the definition of the words of statements says of each source.
#![tactic(auto)]

mod laws;

pub use laws::{statements_have_one_table, text_is_cut_in_one_way};
