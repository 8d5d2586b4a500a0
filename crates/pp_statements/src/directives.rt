//! The directives that name numbers, move the counters or say how the rest is meant.
ghost use Rattle.std.specs.Prelude.{◌≡◌, Some};
ghost use Rattle.pp_statements.specs.Reading.{Gives, OnlySays};
ghost use Rattle.pp_statements.specs.Values.{short_in, text_in};

use crate::encoding::bits_of;
use crate::forms::short_word;
use crate::scope::{CELLS, Scope, is_minus_zero};
use crate::units::NAME_OF_LITERALS;
use crate::values::{Base, Value};
use pp_source::{
    Argument, Definition, Fault, Field, Here, Operation, Order, Outcome, Parts, Statement, Stop,
    Wording, cut, first_parts,
};

/// Returns that an operation has no operand, if it has none.
pub fn wants_operand(statement: Statement) -> Outcome {
    if statement.operand.is_empty() {
        let fault = Fault::new(Wording::OperandWanted).part(statement.operation);
        let column = statement.comments.saturating_add(1);
        return Err(fault.count(column).at(statement.operation.first));
    }
    Ok(())
}

/// Returns the operand, of which there must be one and no more.
pub fn the_only(here: &Here, statement: Statement) -> Outcome<Field> {
    wants_operand(statement)?;
    let found = first_parts(here.text, statement.operand, false)?;
    let [first, second, _] = found.parts;
    if found.count > 1 {
        let fault = Fault::new(Wording::OneOperandTaken).part(statement.operation);
        return Err(fault.at(second.first));
    }
    Ok(first)
}

impl Scope {
    /// Returns the operands, of which there must be one.
    pub fn items(
        &self,
        here: &Here,
        statement: Statement,
        is_delimited: bool,
    ) -> Outcome<Vec<Field>> {
        wants_operand(statement)?;
        let mut items = Vec::new(self.alloc);
        let mut parts = Parts::new(statement.operand, is_delimited);
        for _ in 0..=here.text.len() {
            let Some(part) = parts.next(here.text)? else {
                break;
            };
            items.push(part)?;
        }
        Ok(items)
    }

    /// Returns the only operand, as a number that is known from the lines above.
    pub fn count_of(&mut self, here: &Here, statement: Statement, least: i64) -> Outcome<i64> {
        let operand = the_only(here, statement)?;
        self.count(here, operand, least)
    }

    /// Adds a line to the listing, and gives its address to its label.
    fn labelled_row(&mut self, here: &Here, statement: Statement) -> Outcome {
        self.plain_row(here, true)?;
        self.label(here, statement)
    }

    /// BSS leaves cells, backwards if their number is minus.
    pub fn space(&mut self, here: &Here, statement: Statement) -> Outcome {
        let count = self.count_of(here, statement, -(CELLS as i64))?;
        self.plain_row(here, true)?;
        let origin = self.counters.origin.wrapping_add(count);
        let location = self.counters.location.wrapping_add(count);
        let column = statement.operand.first;
        if origin < 0 || location < 0 {
            return Err(Fault::new(Wording::BelowFirstCell).at(column));
        }
        self.move_to(origin, location);
        if count >= 0 {
            return Ok(());
        }
        self.output.over_from = Some(origin);
        let fault = Fault::new(Wording::SpaceGoesBack);
        self.warn(here, column, fault.octal(count.wrapping_neg()))
    }

    /// ORG sets both counters, in the nominal block; its label has the address after it.
    pub fn set_origin(&mut self, here: &Here, statement: Statement) -> Outcome {
        let number = self.count_of(here, statement, 0)?;
        if let Some(block) = self.named_block() {
            let fault = Fault::new(Wording::OriginInBlock);
            let fault = fault.with(Argument::Kept(block));
            self.warn(here, statement.operation.first, fault)?;
            self.use_block(b"")?;
        }
        self.move_to(number, number);
        self.output.over_from = Some(number);
        self.labelled_row(here, statement)
    }

    /// LOC sets the location counter alone.
    pub fn set_location(&mut self, here: &Here, statement: Statement) -> Outcome {
        let number = self.count_of(here, statement, 0)?;
        self.move_to(self.counters.origin, number);
        self.labelled_row(here, statement)
    }

    /// USE goes on with a block: 0 or none is the nominal one, * the one before. That of the literals has no statements.
    pub fn set_block(&mut self, here: &Here, statement: Statement) -> Outcome {
        let name = statement.operand.of(here.text);
        if name == NAME_OF_LITERALS.as_slice() {
            return Err(Stop::of(Wording::BlockOfLiterals, statement.operand));
        }
        self.use_block(if matches!(name, b"0") { b"" } else { name })?;
        self.labelled_row(here, statement)
    }

    /// QUAL qualifies the names that are defined from here on; * goes back, and without a name they have no qualifier.
    pub fn set_qualifier(&mut self, here: &Here, statement: Statement) -> Outcome {
        let name = without_marks(statement.operand.of(here.text));
        // A name with its qualifier could not be read.
        if name.contains(&b'/') || name.contains(&b',') {
            return Err(Stop::of(Wording::WrongSymbol, statement.operand));
        }
        self.symbols.qualify(name)?;
        self.plain_row(here, false)
    }

    /// LIT puts words among the literals; its label is the address of the first one.
    pub fn literals(&mut self, here: &Here, statement: Statement) -> Outcome {
        let mut words = Vec::new(self.alloc);
        self.data(here, statement, &mut words)?;
        let address = self.literals.address_of(&words)?;
        if !matches!(statement.location.of(here.text), b"" | b"-") {
            self.define(here, statement.location, Definition::address(address))?;
        }
        self.value_row(here, Some(address), false)
    }

    /// EQU, =, SET, MAX and MIN name the number of an expression; a name whose expression is wrong has none.
    pub fn equate(&mut self, here: &Here, statement: Statement, operation: Operation) -> Outcome {
        if statement.location.is_empty() {
            return Err(Stop::of(Wording::SymbolWanted, statement.operation));
        }
        let chosen = match operation {
            Operation::Greatest => self.chosen(here, statement, true),
            Operation::Least => self.chosen(here, statement, false),
            _ => self.value(here, statement.operand, true),
        };
        let mut meaning = Definition::default();
        match chosen {
            Ok(value) => {
                meaning.value = Some(value.number);
                meaning.is_address = value.addresses == 1;
            }
            Err(stop) => self.report_stop(here, stop)?,
        }
        meaning.is_set = !matches!(operation, Operation::Equate);
        meaning.is_here = matches!(statement.operand.of(here.text), b"*" | b"*L" | b"*O");
        self.define(here, statement.location, meaning)?;
        self.value_row(here, meaning.value, meaning.is_set)
    }

    /// Returns the greatest or the least of several expressions, with what the first one says of addresses.
    fn chosen(&mut self, here: &Here, statement: Statement, is_greatest: bool) -> Outcome<Value> {
        let mut chosen: Option<Value> = None;
        for item in &self.items(here, statement, false)? {
            let value = self.value(here, *item, true)?;
            let before = chosen.unwrap_or(value);
            let number = match is_greatest {
                true => before.number.max(value.number),
                false => before.number.min(value.number),
            };
            chosen = Some(Value::new(number, before.addresses));
        }
        chosen.ok_or(Stop::Follows)
    }

    /// ERR is an error, ERRNZ and the others if their expression is so.
    pub fn error(&mut self, here: &Here, statement: Statement, order: Option<Order>) -> Outcome {
        self.plain_row(here, false)?;
        let is_error = match order {
            Some(order) => order.holds(self.number(here, statement.operand, false)?, 0),
            None => true,
        };
        if is_error && self.is_last {
            return Err(Stop::of(Wording::SourceSaysError, statement.operation));
        }
        Ok(())
    }

    /// IDENT names a program; a second one, or one behind END, begins another program of the same source.
    pub fn name_program(&mut self, here: &Here, statement: Statement) -> Outcome {
        let (name, _) = cut(statement.operand.of(here.text), b',');
        if self.programs.has_ended {
            self.programs.has_ended = false;
            self.begin_unit()?;
        } else if self.programs.has_name {
            self.end_unit(here)?;
            self.begin_unit()?;
        }
        self.programs.has_name = true;
        self.programs.name = Vec::from_slice(self.alloc, name)?;
        self.plain_row(here, false)
    }

    /// BASE says what numbers without a letter are; * goes back.
    pub fn set_base(&mut self, here: &Here, statement: Statement) -> Outcome {
        let word = statement.operand.of(here.text);
        if matches!(word, b"*")
            && let Some(base) = self.counters.bases.pop()
        {
            self.counters.base = base;
        } else if let Some(base) = base_of(word) {
            self.counters.bases.push(self.counters.base)?;
            self.counters.base = Some(base);
        } else {
            let fault = Fault::new(Wording::BaseWanted).part_or_nothing(statement.operand);
            return Err(fault.at(statement.operand.first));
        }
        self.plain_row(here, false)
    }

    /// CODE says in which code texts are: DISPLAY, or *, the one before. There is no other here.
    pub fn set_code(&mut self, here: &Here, statement: Statement) -> Outcome {
        wants_operand(statement)?;
        let word = statement.operand.of(here.text);
        if !matches!(word, b"*") && !b"DISPLAY".starts_with(word) {
            return Err(Stop::of(Wording::CodeWanted, statement.operand));
        }
        self.plain_row(here, false)
    }

    /// END ends a program, and says where it begins if it has an operand.
    pub fn end(&mut self, here: &Here, statement: Statement) -> Outcome {
        if !statement.operand.is_empty() {
            let start = self.field(here, statement.operand, 12, None)?;
            self.programs.start = Some(bits_of(start, 0o7777));
        }
        self.end_unit(here)?;
        self.programs.has_ended = true;
        self.plain_row(here, false)
    }

    /// LDK and ADK are an instruction of one word if their operand is known to be small.
    pub fn shortest(&mut self, here: &Here, statement: Statement, operation: Operation) -> Outcome {
        let Operation::Shortest(small, minus, other) = operation else {
            return Ok(());
        };
        let operand = the_only(here, statement)?;
        match self.short(here, operand, small, minus)? {
            Some(word) => self.put(here, &[word]),
            None => self.instruction(here, statement, other),
        }
    }

    /// Returns the word of LDK or ADK, if its operand is known to be small.
    fn short(&mut self, here: &Here, operand: Field, small: u8, minus: u8) -> Outcome<Option<u16>>
        ensures word { Gives (λ word. word) result (Some (short_in self.old small minus (text_in here.now operand))) }
        ensures unchanged { OnlySays self.old self.new }
    {
        match self.number(here, operand, true) {
            Ok(number) => {
                let is_ones = is_minus_zero(operand.of(here.text));
                Ok(short_word(number, is_ones, small, minus))
            }
            Err(Stop::At(..) | Stop::Follows) => Ok(None),
            Err(stop) => Err(stop),
        }
    }
}

/// Returns a text without the slashes at its ends.
fn without_marks(text: &[u8]) -> &[u8] {
    let mut rest = text;
    for _ in 0..text.len() {
        rest = match rest {
            [b'/', rest @ ..] | [rest @ .., b'/'] => rest,
            _ => break,
        };
    }
    rest
}

/// Returns the base that a word, or its beginning, names.
pub fn base_of(word: &[u8]) -> Option<Base> {
    match word.first()? {
        b'O' if b"OCTAL".starts_with(word) => Some(Base::Octal),
        b'D' if b"DECIMAL".starts_with(word) => Some(Base::Decimal),
        b'M' if b"MIXED".starts_with(word) => Some(Base::Mixed),
        _ => None,
    }
}
