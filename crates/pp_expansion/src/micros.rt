//! Micros: names of texts, which stand between two marks in a line in place of these.
use crate::macros::LONGEST;
use crate::pass::Pass;
use pp_decks::{Lines, Span};
use pp_notation::put_digits;
use pp_source::{
    Definition, Fault, Field, Here, Meaning, Outcome, Statement, Stop, Wording, cut, end_of_name,
    first_parts,
};
use pp_statements::{Base, the_only, wants_operand};

/// How many references of micros a source has.
const MOST_REFERENCES: u32 = 100_000;

/// The text of the micros that COMPASS defines by the clock or its call.
const BLANK: &[u8; 10] = b"          ";

impl Pass {
    /// Reads the present line with what its micros stand for, if it may have some.
    pub fn replace_micros(&mut self, lines: &mut Lines) -> Outcome {
        let here = Here::new(lines, self.at);
        if here.text.first() == Some(&b'*') || !here.text.contains(&b'"') {
            return Ok(());
        }
        self.vocabulary.made.clear();
        let mut next = 0;
        for _ in here.text {
            next = self.replace_next(&here, next)?;
        }
        let line = here.line;
        self.at = lines.add_read(line, &self.vocabulary.made)?;
        Ok(())
    }

    /// Adds what the micro at a column stands for, or else the symbol there; the same text if it is no micro, as in a comment.
    fn replace_next(&mut self, here: &Here, at: usize) -> Outcome<usize> {
        let next = at.saturating_add(1);
        let size = match here.text.get(at..).unwrap_or(b"") {
            [b'"', rest @ ..] => rest.iter().position(|symbol| b"\" ".contains(symbol)),
            _ => None,
        };
        let name = Field::new(next, next.saturating_add(size.unwrap_or(0)));
        let is_micro = size.is_some() && here.text.get(name.end) == Some(&b'"');
        let (end, text) = if is_micro {
            (name.end.saturating_add(1), self.micro(here, name)?)
        } else {
            (next, None)
        };
        match text {
            Some(text) => self.add_micro_text(here, name, text)?,
            None => {
                let same = Field::new(at, end).of(here.text);
                self.vocabulary.made.extend_from_slice(same)?;
            }
        }
        Ok(end)
    }

    /// Adds what a micro stands for, which a source refers to so many times at most, and which makes no line that is too long.
    fn add_micro_text(&mut self, here: &Here, name: Field, text: Span) -> Outcome {
        self.references = self.references.saturating_add(1);
        if self.references > MOST_REFERENCES {
            return Err(Stop::too_much(Wording::ManyReferences));
        }
        self.vocabulary.add_kept(text)?;
        if self.vocabulary.made.len() > LONGEST.max(here.text.len()) {
            return Err(Stop::of(Wording::LongMadeLine, name));
        }
        Ok(())
    }

    /// Returns what a micro stands for. Those that COMPASS defines by the clock are blank.
    fn micro(&mut self, here: &Here, name: Field) -> Outcome<Option<Span>> {
        let word = name.of(here.text);
        if let Some(text) = self.vocabulary.micro_of(word) {
            return Ok(Some(text));
        }
        let text: &[u8] = match word {
            b"BASE" if matches!(self.scope.counters.base, Some(Base::Octal | Base::Mixed)) => b"O",
            b"BASE" | b"CODE" => b"D",
            b"QUAL" => {
                let text = self.vocabulary.keep(self.scope.symbols.qualifier())?;
                return Ok(Some(text));
            }
            b"DATE" | b"JDATE" | b"TIME" | b"MODLEVEL" | b"PCOMMENT" => {
                let fault = Fault::new(Wording::BlankMicro).part(name);
                self.scope.warn(here, name.first, fault)?;
                BLANK.as_slice()
            }
            _ => return Ok(None),
        };
        Ok(Some(self.vocabulary.keep(text)?))
    }

    /// MICRO n,m,*text* names m symbols of a text from the one with number n on; without m all up to its end.
    pub fn name_text(&mut self, here: &Here, statement: Statement) -> Outcome {
        let Some((number, size, text)) = operands_of_micro(here.text, statement.operand) else {
            let fault = Fault::new(Wording::MicroWanted);
            return Err(Stop::At(statement.operand.first, fault));
        };
        let number = self.lines_count(here, number)?;
        let size = match size.is_empty() {
            true => usize::MAX,
            false => self.lines_count(here, size)?,
        };
        let text = match number.checked_sub(1) {
            Some(before) => text.get(before..).unwrap_or(b""),
            None => b"",
        };
        let text = self.vocabulary.keep(text.get(..size).unwrap_or(text))?;
        self.name_micro(here, statement, text)
    }

    /// DECMIC e,n and OCTMIC e,n name the digits of a number, with zeros before them up to n digits.
    pub fn name_digits(&mut self, here: &Here, statement: Statement, is_decimal: bool) -> Outcome {
        wants_operand(statement)?;
        let found = first_parts(here.text, statement.operand, false)?;
        let [operand, size, _] = found.parts;
        let number = self.scope.number(here, operand, true)?;
        let size = if found.count > 1 {
            self.lines_count(here, size)?
        } else {
            0
        };
        let magnitude = number.unsigned_abs();
        let digits = if is_decimal {
            format!(in self.scope.alloc; "{magnitude}")?
        } else {
            format!(in self.scope.alloc; "{magnitude:o}")?
        };
        let number = if size > 0 {
            number.wrapping_abs()
        } else {
            number
        };
        let text = &mut self.vocabulary.text;
        let first = text.len();
        put_digits(text, number, digits.as_bytes(), size)?;
        let end = text.len();
        let last = if size > 0 {
            end.saturating_sub(size)
        } else {
            first
        };
        self.name_micro(here, statement, Span::new(first.max(last), end))
    }

    fn name_micro(&mut self, here: &Here, statement: Statement, text: Span) -> Outcome {
        let name = statement.location.of(here.text);
        if end_of_name(name, 0) != Some(name.len()) {
            return Err(Stop::of(Wording::NameBeforeWanted, statement.operation));
        }
        let name = self.vocabulary.keep(name)?;
        self.vocabulary.add_micro(Meaning { name, text })?;
        self.scope.plain_row(here, false)
    }

    /// MICCNT names how many symbols a micro has.
    pub fn count_micro(&mut self, here: &Here, statement: Statement) -> Outcome {
        if statement.location.is_empty() {
            return Err(Stop::of(Wording::SymbolWanted, statement.operation));
        }
        let name = the_only(here, statement)?;
        let Some(text) = self.micro(here, name)? else {
            return Err(Stop::of(Wording::NoMicro, name));
        };
        let count = i64::try_from(text.end.saturating_sub(text.first)).ok();
        let meaning = Definition {
            value: count,
            is_set: true,
            ..Definition::default()
        };
        self.scope.define(here, statement.location, meaning)?;
        self.scope.value_row(here, count, true)
    }
}

/// Returns the operands of MICRO, if there are: which symbol is the first one, how many there are, and the text.
fn operands_of_micro(line: &[u8], operand: Field) -> Option<(Field, Field, &[u8])> {
    let (number, rest) = cut(operand.of(line), b',');
    let (size, rest) = cut(rest?, b',');
    let [mark, text @ ..] = rest? else {
        return None;
    };
    let (text, after) = cut(text, *mark);
    if after.is_none() && *mark != b' ' {
        return None;
    }
    let end = operand.first.saturating_add(number.len());
    let next = end.saturating_add(1);
    Some((
        Field::new(operand.first, end),
        Field::new(next, next.saturating_add(size.len())),
        text,
    ))
}
