//! Where each number that a step of a processor writes comes from: an operation, and the places that it reads.
#![tactic(auto)]

mod blocks;
mod laws;
mod links;
mod origin;
mod rows;
mod situation;

pub use blocks::put_block;
pub use laws::{moved_numbers_are_read, numbers_come_from_their_origins, reads_are_enough};
pub use links::{put, put_constant, whole};
pub use origin::{Field, Link, NOTHING, Operation, Read, constant};
pub use rows::{MOST_LINKS, put_row};
pub use situation::Situation;
