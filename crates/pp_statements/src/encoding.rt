//! The words of statements, and how they are put into cells.
ghost use Rattle.std.specs.Prelude.{◌≡◌, true};
ghost use Rattle.pp_statements.specs.Reading.{Gives};
ghost use Rattle.pp_statements.specs.Values.{distance, text_in};

use crate::forms::{Way, two_words};
use crate::scope::{CELLS, Scope};
use pp_decks::{is_empty, tail};
use pp_notation::{Form, form_of, size_of};
use pp_source::{
    Argument, Fault, Field, FirstParts, Here, Outcome, Statement, Stop, Wording, first_parts,
};

/// How many words a source makes, though only as many as a memory has can be right.
const MOST_WORDS: usize = 100_000;

/// Returns the least and the most operands of a form, and what it takes.
fn wanted(form: Form) -> (usize, usize, Wording) {
    match form {
        Form::Alone => (0, 1, Wording::AtMostOneOperand),
        Form::D => (1, 1, Wording::OneOperand),
        Form::Target => (1, 1, Wording::TargetOfJump),
        Form::Constant => (1, 1, Wording::WideOperand),
        Form::Indexed => (1, 2, Wording::MaybeIndexedAddress),
        Form::Both => (2, 2, Wording::AddressAndChannel),
    }
}

/// Returns the index of a cell, which is none of a memory if there is no such cell.
pub fn index_of(cell: i64) -> usize {
    usize::try_from(cell).unwrap_or(CELLS)
}

impl Scope {
    /// Makes the words of an instruction. There are always as many, also if the statement is wrong.
    pub fn instruction(&mut self, here: &Here, statement: Statement, code: u8) -> Outcome {
        let words = self.words_of(here, statement, code);
        let words = self.reported(here, words, [0, 0])?;
        self.put_instruction(here, code, words)
    }

    /// Puts the words of an instruction, of which it may have the first one alone.
    pub fn put_instruction(&mut self, here: &Here, code: u8, words: [u16; 2]) -> Outcome {
        self.put(here, words.get(..size_of(code)).unwrap_or(&[]))
    }

    /// Returns the words of an instruction; the second one is 0 if it has one alone.
    fn words_of(&mut self, here: &Here, statement: Statement, code: u8) -> Outcome<[u16; 2]> {
        let FirstParts { count, parts } = operands_of(here, statement, code)?;
        let [first, second, _] = parts;
        let (d, m) = match form_of(code) {
            _ if count == 0 => (0, 0),
            Form::Constant => {
                let number = self.field(here, first, 18, None)?;
                (number / 0o10000, number)
            }
            Form::Indexed | Form::Both if count == 2 => {
                let d = self.field(here, second, 6, None)?;
                (d, self.field(here, first, 12, None)?)
            }
            Form::Indexed | Form::Both => (0, self.field(here, first, 12, None)?),
            Form::Target => (self.distance(here, first, code)?, 0),
            Form::Alone | Form::D => (self.field(here, first, 6, Some(code))?, 0),
        };
        Ok(two_words(code, d, m))
    }

    /// Returns d of a relative jump to a target; addresses go round after 7777.
    fn distance(&mut self, here: &Here, target: Field, code: u8) -> Outcome<u64>
        ensures { self.old.is_last ≡ true → Gives (λ d. d) result (distance self.old (text_in here.now target)) }
    {
        let (location, is_last) = (self.counters.location, self.is_last);
        let number = self.number(here, target, false)?;
        let Some(way) = Way::new(location, number) else {
            let fault = Fault::new(Wording::NoAddress).octal(number);
            return Err(fault.at(target.first));
        };
        match way.d() {
            Some(d) => Ok(u64::from(d)),
            None if is_last => Err(too_far(target, way, code)),
            None => Ok(0),
        }
    }

    /// Puts words into the cells from here on. Of lines that follow one another only the first is reported if they can't be.
    pub fn put(&mut self, here: &Here, words: &[u16]) -> Outcome {
        self.output.made = self.output.made.saturating_add(words.len());
        if self.output.made > MOST_WORDS {
            return Err(Stop::too_much(Wording::ManyWords));
        }
        self.add_row(here, words, true, None, false)?;
        for word in words {
            self.put_word(here, *word)?;
            self.counters.origin = self.counters.origin.wrapping_add(1);
            self.counters.location = self.counters.location.wrapping_add(1);
        }
        Ok(())
    }

    /// Puts a word into the present cell, or reports why that can't be. Words that begin over others, after ORG or BSS, may be there.
    fn put_word(&mut self, here: &Here, word: u16) -> Outcome {
        if !self.is_last {
            return Ok(());
        }
        let cell = self.counters.origin;
        let Some(slot) = self.output.cells.get_mut(index_of(cell)) else {
            return self.report_word(here, cell, Fault::new(Wording::PastLastCell));
        };
        let before = slot.line;
        if before != 0 && self.output.over_from != Some(cell) {
            return self.report_word(here, cell, filled(Wording::FilledTwice, cell, before));
        }
        slot.word = word;
        slot.line = here.line.number;
        if before == 0 {
            return Ok(());
        }
        self.output.over_from = Some(cell.wrapping_add(1));
        self.warn(here, 0, filled(Wording::WarningFilledTwice, cell, before))
    }

    /// Reports why no word can be put into a cell, but not for the cell after another such one.
    fn report_word(&mut self, here: &Here, cell: i64, fault: Fault) -> Outcome {
        if self.output.wrong_from != Some(cell) {
            self.report(here, 0, fault)?;
        }
        self.output.wrong_from = Some(cell.wrapping_add(1));
        Ok(())
    }
}

/// Returns that the target of a relative jump is too far away.
fn too_far(target: Field, way: Way, code: u8) -> Stop {
    let (text, cells) = if way.on < way.back {
        (Wording::FarOn, way.on)
    } else {
        (Wording::FarBack, way.back)
    };
    let fault = Fault::new(text)
        .part(target)
        .octal(i64::from(cells))
        .with(Argument::Instruction(code))
        .with(Argument::Reaching(target, code));
    fault.at(target.first)
}

/// Returns that a cell has the word of a line.
fn filled(text: Wording, cell: i64, line: u32) -> Fault {
    let address = u16::try_from(cell).unwrap_or(0);
    Fault::new(text).with(Argument::Cell(address)).decimal(line)
}

/// Returns the lower bits of a number.
pub fn bits_of(number: u64, mask: u16) -> u16 {
    u16::try_from(number & u64::from(mask)).unwrap_or(0)
}

/// Returns the operands, as many as the instruction may have.
fn operands_of(here: &Here, statement: Statement, code: u8) -> Outcome<FirstParts> {
    let operand = statement.operand;
    let is_literal = operand.of(here.text).first() == Some(&b'=');
    let found = first_parts(here.text, operand, is_literal)?;
    let (least, most, takes) = wanted(form_of(code));
    if found.count >= least && found.count <= most {
        return Ok(found);
    }
    let name = statement.operation;
    let is_far = found.count == 0 && !is_empty(tail(here.text, name.end));
    let fault = Fault::new(if is_far {
        Wording::TakesButComment
    } else {
        Wording::Takes
    });
    let column = match found.parts.get(most) {
        Some(first_left) if found.count > most => first_left.first,
        _ => name.first,
    };
    let fault = fault.part(name).with(Argument::Text(takes));
    Err(fault.count(statement.comments.saturating_add(1)).at(column))
}
