//! One pass over the statements of a source: what it knows, what the source has added to the notation, and what is still to be
//! done.
use crate::macros::Repetition;
use crate::reading::Reading;
use crate::running::{Job, Run};
use pp_decks::Span;
use pp_source::{Outcome, Symbols, Vocabulary};
use pp_statements::{Blocks, Scope, count_one};
use std::alloc::{AllocError, Global};

/// A pass at a line.
#[derive(Drop)]
pub struct Pass {
    pub scope: Scope,
    pub vocabulary: Vocabulary,
    /// How many lines macros have made, or HERE has performed.
    pub made_lines: u32,
    /// How many references of micros there are.
    pub references: u32,
    /// The index of the present line, and the run that it is of.
    pub at: usize,
    pub present: Run,
    /// What is still to be done, first the last one.
    pub jobs: Vec<Job>,
    /// The names of the statements whose end is looked for.
    pub open_names: Vec<Span>,
    /// The lines between two IRP that the next lines of a macro are within.
    pub parts: Vec<Repetition>,
    /// The common decks that it has read.
    pub readings: Vec<Reading>,
}

impl Pass {
    /// Returns a pass before its first line.
    pub fn new(
        alloc: Global,
        symbols: Symbols,
        blocks: Blocks,
        is_last: bool,
    ) -> Result<Self, AllocError> {
        Ok(Pass {
            scope: Scope::new(alloc, symbols, blocks, is_last)?,
            vocabulary: Vocabulary::new(alloc),
            made_lines: 0,
            references: 0,
            at: 0,
            present: Run::new(),
            jobs: Vec::new(alloc),
            open_names: Vec::new(alloc),
            parts: Vec::new(alloc),
            readings: Vec::new(alloc),
        })
    }

    /// Counts one more line that another one makes.
    pub fn count_made(&mut self) -> Outcome {
        count_one(&mut self.made_lines)
    }
}
