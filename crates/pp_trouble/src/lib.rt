//! What ends the program early: its text and its exit status.
#![tactic(auto)]

mod message;
mod trouble;

pub use trouble::{FileKind, Trouble};
