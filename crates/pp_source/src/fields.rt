//! A line cut into the fields of a statement: location, operation and operand. The comment is left out.
use crate::message::{Fault, Field, Outcome};
use crate::scan::{after_blanks, end_of_word, find, has_word, is_blank, next_outside};
use crate::texts::text_at;
use crate::vocabulary::Vocabulary;
use crate::wordings::Wording;
use pp_decks::{LAST_COLUMN, in_columns, is_empty, tail};

const TAB: usize = 8;

/// The fields of a statement. The column of one that is missing is that of the field before it.
#[derive(Clone, Copy)]
pub struct Statement {
    pub location: Field,
    pub operation: Field,
    pub operand: Field,
    /// The column, from 0, from which on there are comments.
    pub comments: usize,
}

/// How lines are cut.
#[derive(Clone, Copy)]
pub enum Origin {
    /// A line of the source.
    Source,
    /// A line with others that continue it, which has no sequence number.
    Joined,
    /// A line that a macro made, which has no comment either.
    Made,
}

/// Returns the column on paper, with tabs.
fn column_on_paper(line: &[u8], to: usize) -> usize {
    let mut column: usize = 0;
    for symbol in line.iter().take(to) {
        column = if *symbol == b'\t' {
            (column / TAB).saturating_add(1).saturating_mul(TAB)
        } else {
            column.saturating_add(1)
        };
    }
    column
}

/// Returns the label, which begins in the first or the second column.
fn location_of(line: &[u8]) -> Field {
    let first = match line {
        [b' ', symbol, ..] if !is_blank(*symbol) => 1,
        _ => 0,
    };
    Field::new(first, end_of_word(line, first))
}

/// Returns whether the operand of an operation has texts with blanks.
fn is_of_text(operation: &[u8]) -> bool {
    has_word("DIS MICRO IFC", operation)
}

/// Returns a line up to its last column. An operand that goes on there is whole, but not one with texts.
fn without_sequence(line: &[u8], is_text: bool) -> &[u8] {
    let ends = line.get(LAST_COLUMN - 1..=LAST_COLUMN).unwrap_or(b"");
    let is_going_on = !is_text && !ends.contains(&b' ');
    if is_going_on || find(line, 0, b'\t').is_some() {
        line
    } else {
        in_columns(line)
    }
}

/// Returns the column after a text that begins at a column, or else the next one.
fn after_text(line: &[u8], at: usize, start: usize, is_delimited: bool) -> Outcome<usize> {
    let next = at.saturating_add(1);
    let before = line.get(at.wrapping_sub(1)).copied().unwrap_or(b' ');
    if at != start && !b"=,+-^*/".contains(&before) {
        return Ok(next);
    }
    match text_at(line, at, is_delimited)? {
        Some(text) => Ok(text.end),
        None => Ok(next),
    }
}

/// Returns the first column from a start on that has one of some symbols and is in no text, or the length of the line.
fn end_outside_texts(line: &[u8], start: usize, ends: &[u8], is_delimited: bool) -> Outcome<usize> {
    let mut next = start;
    for (distance, symbol) in tail(line, start).iter().enumerate() {
        let at = start.saturating_add(distance);
        if at == next {
            if ends.contains(symbol) {
                return Ok(at);
            }
            next = after_text(line, at, start, is_delimited)?;
        }
    }
    Ok(line.len())
}

/// Returns the operand: what comes next, if it begins before the column of comments, or one blank after the operation.
fn operand_of(line: &[u8], operation: Field, origin: Origin, words: &Vocabulary) -> Outcome<Field> {
    let name = operation.of(line);
    let line = match origin {
        Origin::Source => without_sequence(line, is_of_text(name)),
        _ => line,
    };
    let start = after_blanks(line, operation.end);
    let is_apart = start > operation.end.saturating_add(1)
        && column_on_paper(line, start) >= words.comments;
    if start >= line.len() || is_apart && !matches!(origin, Origin::Made) {
        return Ok(Field::new(operation.first, operation.first));
    }
    Ok(Field::new(start, end_of_operand(line, start, name, words)?))
}

/// Returns the column after the operand of an operation with a name. That of a macro's call has no end in parentheses.
fn end_of_operand(line: &[u8], start: usize, name: &[u8], words: &Vocabulary) -> Outcome<usize> {
    if is_of_text(name) {
        return Ok(line.len());
    }
    if words.macro_of(name).is_some() {
        return Ok(next_outside(line, start, b" \t"));
    }
    let is_delimited = matches!(name, b"DATA") || matches!(line.get(start), Some(b'='));
    end_outside_texts(line, start, b" \t", is_delimited)
}

/// Returns whether what begins at a column of a line is its sequence number.
fn is_sequence(line: &[u8], first: usize, origin: Origin) -> bool {
    matches!(origin, Origin::Source) && column_on_paper(line, first) >= LAST_COLUMN
}

/// Returns the statement of a line in capitals, or `None` of a note, an empty line or one with a sequence number alone.
pub fn statement_of(line: &[u8], origin: Origin, words: &Vocabulary) -> Outcome<Option<Statement>> {
    match line {
        [b'*', ..] => return Ok(None),
        [b',', ..] => return Err(Fault::new(Wording::NothingToContinue).at(0)),
        _ if is_empty(line) => return Ok(None),
        _ => {}
    }
    let location = location_of(line);
    let first = after_blanks(line, location.end);
    let is_alone = first >= line.len() || is_sequence(line, first, origin);
    if is_alone && location.is_empty() {
        return Ok(None);
    }
    let none = Field::new(location.end, location.end);
    let mut statement = Statement {
        location,
        operation: none,
        operand: none,
        comments: words.comments,
    };
    if !is_alone {
        statement.operation = Field::new(first, end_of_word(line, first));
        statement.operand = operand_of(line, statement.operation, origin, words)?;
    }
    Ok(Some(statement))
}

/// The parts of an operand between commas that are in no text.
#[derive(Clone, Copy)]
pub struct Parts {
    operand: Field,
    /// The column, from 0 in the operand, at which the next part begins; none after the last one.
    next: Option<usize>,
    is_delimited: bool,
}

impl Parts {
    /// Returns the parts of an operand, of which none has been read.
    pub fn new(operand: Field, is_delimited: bool) -> Self {
        Parts {
            operand,
            next: (!operand.is_empty()).then_some(0),
            is_delimited,
        }
    }

    /// Returns the next part, or `None` after the last one.
    pub fn next(&mut self, line: &[u8]) -> Outcome<Option<Field>> {
        let Some(start) = self.next else {
            return Ok(None);
        };
        let text = self.operand.of(line);
        let end = match end_outside_texts(text, start, b",", self.is_delimited) {
            Ok(end) => end,
            Err(stop) => return Err(stop.moved(self.operand.first)),
        };
        self.next = (end < text.len()).then_some(end.saturating_add(1));
        Ok(Some(self.operand.part(start, end)))
    }
}

/// The first parts of an operand, and how many it has.
#[derive(Clone, Copy)]
pub struct FirstParts {
    pub count: usize,
    pub parts: [Field; 3],
}

/// Returns the first parts of an operand, all of which can be read.
pub fn first_parts(line: &[u8], operand: Field, is_delimited: bool) -> Outcome<FirstParts> {
    let mut parts = Parts::new(operand, is_delimited);
    let mut found = FirstParts {
        count: 0,
        parts: [operand; 3],
    };
    for count in 0..=line.len() {
        let Some(part) = parts.next(line)? else {
            break;
        };
        if let Some(place) = found.parts.get_mut(count) {
            *place = part;
        }
        found.count = count.saturating_add(1);
    }
    Ok(found)
}
