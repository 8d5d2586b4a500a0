//! The lines of a source that read a common deck.

use pp_source::Field;

/// A line that reads a common deck, by XTEXT or *CALL.
#[derive(Clone, Copy)]
pub struct Reading {
    /// The index of the line.
    pub statement: usize,
    /// Where the name of the deck is in it.
    pub name: Field,
    /// The index of the first line that it adds.
    pub first: usize,
}
