//! Directives that perform lines from elsewhere, or give operations other names.
use crate::pass::Pass;
use crate::reading::Reading;
use pp_decks::{Call, Decks, Line, Lines, Span};
use pp_source::{
    Argument, Elsewhere, FIRST_OF_COMMENTS, Fault, Field, Here, Macro, Meaning, Operation, Outcome,
    Statement, Stop, Wording, after_blanks, end_of_word, operation_of,
};
use pp_statements::{the_only, too_many_statements};

/// How many lines there are at most, with those that others make.
const MOST_LINES: usize = 1_000_000;

const CALL: &[u8; 6] = b"*CALL ";

/// Returns that there is no common deck with a name.
fn no_deck(decks: &Decks, name: Field) -> Fault {
    let (text, nothing) = if decks.is_empty() {
        (Wording::NoFolderOfDecks, Wording::Xtext)
    } else {
        (Wording::NoDeck, Wording::NamelessDeck)
    };
    let name = match name.is_empty() {
        true => Argument::Text(nothing),
        false => Argument::Part(name),
    };
    Fault::new(text).with(name)
}

/// Returns the name after *CALL, if a line is one, and there are common decks.
pub fn name_after_call(lines: &Lines, decks: &Decks, index: usize) -> Option<Field> {
    let text = Here::new(lines, index).text;
    if decks.is_empty() || !text.starts_with(CALL.as_slice()) {
        return None;
    }
    let first = after_blanks(text, CALL.len());
    Some(Field::new(first, end_of_word(text, first)))
}

/// Returns the lines of the first deck with a name. No deck is without a name.
fn deck_with(decks: &Decks, name: &[u8]) -> Option<Span> {
    if name.is_empty() {
        return None;
    }
    Some(decks.all.get(decks.find(name)?)?.lines)
}

/// Adds the lines of a deck, which have the number, the call and the system text of the line that reads it.
fn copy_deck(lines: &mut Lines, deck: Span, reader: Line, call: Call) -> Outcome {
    for index in deck.first..deck.end {
        let line = Here::new(lines, index).line;
        lines.all.push(Line {
            number: reader.number,
            call: Some(call),
            system: reader.system,
            ..line
        })?;
    }
    if lines.all.len() > MOST_LINES {
        return Err(too_many_statements());
    }
    Ok(())
}

impl Pass {
    pub fn elsewhere(
        &mut self,
        lines: &mut Lines,
        decks: &Decks,
        statement: Statement,
        directive: Elsewhere,
    ) -> Outcome {
        let here = Here::new(lines, self.at);
        match directive {
            Elsewhere::Synonym => self.name_operation(&here, statement),
            Elsewhere::Purge => self.purge(&here, statement),
            Elsewhere::Stop => self.stop_repetition(&here, statement),
            Elsewhere::Column => self.set_comments(&here, statement),
            Elsewhere::Deck => {
                let name = if statement.operand.is_empty() {
                    statement.location
                } else {
                    statement.operand
                };
                self.read_deck(lines, decks, name, statement.operand.first)
            }
            Elsewhere::Here => {
                self.scope.plain_row(&here, false)?;
                let is_before = !statement.location.is_empty();
                let name = if is_before {
                    statement.location
                } else {
                    statement.operand
                };
                let name = self.vocabulary.keep(name.of(here.text))?;
                let first = lines.all.len();
                self.copy_remote(lines, name)?;
                self.push_run(Span::new(first, lines.all.len()), 1, 0)
            }
        }
    }

    /// Performs the lines of the common deck that a part of the present line names, next. A message is about a column.
    pub fn read_deck(
        &mut self,
        lines: &mut Lines,
        decks: &Decks,
        name: Field,
        column: usize,
    ) -> Outcome {
        let here = Here::new(lines, self.at);
        self.scope.plain_row(&here, false)?;
        let Some(deck) = deck_with(decks, name.of(here.text)) else {
            return Err(no_deck(decks, name).at(column));
        };
        let call = Call {
            column: here.line.call.map_or(column, |outer| outer.column),
            name: here.span_of(name),
            is_deck: true,
        };
        let reader = here.line;
        let first = lines.all.len();
        let size = deck.end.saturating_sub(deck.first);
        self.readings.push(Reading {
            statement: self.at,
            name,
            first,
        })?;
        self.push_run(Span::new(first, first.saturating_add(size)), 1, 0)?;
        copy_deck(lines, deck, reader, call)
    }

    /// Copies the lines of RMT with a name, which are then no longer kept.
    fn copy_remote(&mut self, lines: &mut Lines, name: Span) -> Outcome {
        for taken in &self.vocabulary.take_remote(self.scope.alloc, name)? {
            self.copy_lines(lines, *taken)?;
        }
        Ok(())
    }

    /// Copies lines that are performed next.
    fn copy_lines(&mut self, lines: &mut Lines, taken: Span) -> Outcome {
        for line in taken.first..taken.end {
            self.count_made()?;
            let line = Here::new(lines, line).line;
            lines.all.push(line)?;
        }
        Ok(())
    }

    /// Copies all lines of RMT, those with one name after those with another, and returns where they are.
    pub fn all_remote(&mut self, lines: &mut Lines) -> Outcome<Span> {
        let first = lines.all.len();
        for index in 0..self.vocabulary.remote.len() {
            if let Some(remote) = self.vocabulary.remote.get(index).copied() {
                self.copy_remote(lines, remote.name)?;
            }
        }
        self.vocabulary.forget_remote();
        Ok(Span::new(first, lines.all.len()))
    }

    /// OPSYN gives another name to an operation, or to a macro: to what its name means here.
    fn name_operation(&mut self, here: &Here, statement: Statement) -> Outcome {
        let operand = the_only(here, statement)?;
        let old = operand.of(here.text);
        if statement.location.is_empty() {
            return Err(Stop::of(Wording::NameBeforeWanted, statement.operation));
        }
        let from = self.scope.output.performed;
        let words = &mut self.vocabulary;
        let name = words.keep(statement.location.of(here.text))?;
        if let Some(one) = words.macro_of(old) {
            words.add_macro(Macro { name, from, ..one })?;
        } else {
            let text = self.operation_meant(here, operand)?;
            self.vocabulary.add_synonym(Meaning { name, text }, from)?;
            if let Some(cut) = &mut self.scope.output.cut {
                cut.has_renamed = true;
            }
        }
        self.scope.plain_row(here, false)
    }

    /// Returns the name of the operation that a name means here.
    fn operation_meant(&mut self, here: &Here, operand: Field) -> Outcome<Span> {
        let name = operand.of(here.text);
        if let Some(text) = self.vocabulary.synonym_of(name) {
            return Ok(text);
        }
        if matches!(operation_of(name), Operation::Unknown) {
            let nearest = Argument::NearestOperation(operand, self.scope.output.performed);
            let fault = Fault::new(Wording::NoOperation).part(operand);
            return Err(fault.with(nearest).at(operand.first));
        }
        Ok(self.vocabulary.keep(name)?)
    }

    /// COL says from which column on no operand begins; without a number it is column 30.
    fn set_comments(&mut self, here: &Here, statement: Statement) -> Outcome {
        let column = self.lines_count(here, statement.operand)?;
        self.vocabulary.comments = column.checked_sub(1).unwrap_or(FIRST_OF_COMMENTS);
        self.scope.plain_row(here, false)
    }

    /// PURGMAC forgets macros.
    fn purge(&mut self, here: &Here, statement: Statement) -> Outcome {
        let names = statement.operand.of(here.text);
        for name in names.split(|symbol| *symbol == b',') {
            self.vocabulary.purge(name, self.scope.output.performed);
        }
        self.scope.plain_row(here, false)
    }
}
