//! The line that is performed, and the places of messages about it.
use crate::message::{Fault, Field, Message};
use pp_decks::{Join, Line, Lines, Span};

/// The line that is performed.
#[derive(Clone, Copy)]
pub struct Here<'a> {
    pub index: usize,
    pub line: Line,
    /// In capitals.
    pub text: &'a [u8],
    pub joins: &'a [Join],
}

impl<'a> Here<'a> {
    /// Returns a line with an index.
    pub fn new(lines: &'a Lines, index: usize) -> Self {
        let line = lines.all.get(index).copied().unwrap_or_default();
        Here {
            index,
            line,
            text: lines.capitals_of(line),
            joins: lines.joins_of(line),
        }
    }

    /// Returns where a part of the line is in the capitals of all lines.
    pub fn span_of(&self, part: Field) -> Span {
        self.line.read.part(part.first, part.end)
    }

    /// Returns the line and the column, from 1, of a column of the line, from 0. A system text is before the first column of the
    /// source.
    pub fn place_of(&self, column: usize) -> (u32, usize) {
        if !self.line.system.is_empty() {
            return (1, 1);
        }
        let (number, before, first) = match self.line.call {
            Some(call) => (self.line.number, column, call.column.saturating_add(1)),
            None => match self.joins.iter().rev().find(|join| join.column <= column) {
                Some(join) => (join.number, join.column, join.first),
                None => (self.line.number, 0, 1),
            },
        };
        (number, column.saturating_sub(before).saturating_add(first))
    }

    /// Returns a message about a column of the line.
    pub fn message(&self, column: usize, fault: Fault) -> Message {
        let (line, column) = self.place_of(column);
        Message::new(line, column, self.index, fault)
    }

    /// Returns a message of the line that is the last one.
    pub fn last_message(&self, fault: Fault) -> Message {
        let (number, _) = self.place_of(0);
        Message::new(number, 1, usize::MAX, fault)
    }
}
