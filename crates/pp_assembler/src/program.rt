//! All that is known of a source.
use pp_decks::{Complaint, Decks, Lines};
use pp_expansion::Reading;
use pp_meaning::{Symbol, SystemText, Unit as Statements};
use pp_notation::Program;
use pp_source::{Symbols, Vocabulary};
use pp_statements::{Row, SystemRows, Unit};

/// The statements of a source as they are performed, after macros, repetitions, conditions and micros, with the terms of their
/// operands.
#[derive(Drop)]
pub struct Performed {
    /// What the names stand for, in the order of the statements that define them.
    pub symbols: Vec<Symbol>,
    pub systems: Vec<SystemText>,
    /// Those of each program, with its literals and its blocks of USE.
    pub units: Vec<Statements>,
}

/// All that is known of a source: the program that it makes, its statements and their rows in the listing, its names, and what is
/// wrong with it. If there is a message, the program is not to be used.
#[derive(Drop)]
pub struct Assembly {
    pub program: Program,
    /// The statements that the words are of, if `pp_meaning` has the meaning of them all and nothing is wrong.
    pub meaning: Option<Performed>,
    /// The programs of further IDENTs.
    pub others: Vec<Unit>,
    /// The lines, each with those that continue it.
    pub lines: Lines,
    /// The common decks that were given.
    pub decks: Decks,
    /// The lines that read decks, as they were performed.
    pub readings: Vec<Reading>,
    pub symbols: Symbols,
    pub vocabulary: Vocabulary,
    /// The words of the rows.
    pub words: Vec<u16>,
    pub rows: Vec<Row>,
    /// The rows of system texts, which the listing has not.
    pub systems: Vec<SystemRows>,
    /// What is wrong, in the order of the lines.
    pub messages: Vec<Complaint>,
    /// What is to be known, in the order of the lines.
    pub warnings: Vec<Complaint>,
}
