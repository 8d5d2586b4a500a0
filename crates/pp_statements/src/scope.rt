//! What a pass knows at a line, and what it has made: its counters, its names, its cells, and the rows of the listing.
ghost use Rattle.std.specs.Prelude.{◌≡◌, IfErr, [], OnOk, false, option_map, true};
ghost use Rattle.pp_source.specs.Texts.{text_in as text_of};
ghost use Rattle.pp_statements.specs.Fields.{alone_in, is_literal, plain_field, text_field};
ghost use Rattle.pp_statements.specs.Forms.{field_of_bits, is_minus_zero};
ghost use Rattle.pp_statements.specs.Reading.{Gives, GoesOn, Noted, OnlyNotes, OnlySays, is_fault};
ghost use Rattle.pp_statements.specs.Values.{count_in, number_field, text_in, value_in};

use crate::forms::field_of;
use crate::units::{Blocks, Layout, Literals, Unit};
use crate::values::{Base, Expression, Value, beyond};
use pp_decks::Span;
use pp_notation::Slot;
use pp_source::{
    Argument, Definition, DisplayText, Fault, Field, Here, Message, Outcome, Statement, Stop,
    Symbols, Wording, are_in_code, text_at,
};
use std::alloc::{AllocError, Global};
use std::mem::replace;

/// The number of cells of a memory.
pub const CELLS: usize = 4096;
/// How many statements a source has, those of a macro of its own among them.
pub const MOST_STATEMENTS: u32 = 100_000;

/// Returns that a source makes too many statements.
pub fn too_many_statements() -> Stop {
    Stop::too_much(Wording::ManyStatements)
}

/// How a line has been cut when it was performed.
#[derive(Clone, Copy)]
pub struct Cut {
    /// The fields of the line, as it stands there.
    pub fields: Statement,
    /// Where the name of its operation is: in its field, or behind the line if OPSYN has given that name another meaning.
    pub name: Field,
    /// It is the call of a macro.
    pub is_call: bool,
    /// OPSYN has given another name to an operation that is no macro.
    pub has_renamed: bool,
}

/// A literal that an operand names: the column of the operand, and the address.
#[derive(Clone, Copy)]
pub struct Named {
    pub column: usize,
    pub address: i64,
}

/// What the listing has of a line.
#[derive(Clone, Copy)]
pub struct Row {
    /// The index of the statement.
    pub statement: usize,
    pub origin: i64,
    pub location: i64,
    /// Where its words are, from the first one to before the last one.
    pub first: usize,
    pub end: usize,
    pub has_address: bool,
    /// The number that the line names.
    pub value: Option<i64>,
    /// The number may change.
    pub is_set: bool,
    /// The line has been performed, and is not only listed.
    pub is_performed: bool,
    /// How the line was cut, if it has a statement.
    pub cut: Option<Cut>,
    /// Where the literals are that the line names.
    pub named: Span,
}

/// What the listing would have of the lines of a system text, and the layouts of its programs.
#[derive(Drop)]
pub struct SystemRows {
    pub rows: Vec<Row>,
    pub layouts: Vec<Layout>,
}

/// A word of VFD that is not full: its cell, and how many bits are used.
#[derive(Clone, Copy)]
pub struct OpenWord {
    pub cell: i64,
    pub used: u32,
}

/// The counters, and how numbers are read.
#[derive(Drop)]
pub struct Counters {
    pub origin: i64,
    pub location: i64,
    /// The word of VFD that is not full.
    pub open: Option<OpenWord>,
    pub base: Option<Base>,
    /// Those that BASE * goes back to.
    pub bases: Vec<Option<Base>>,
    /// Numbers are read as in a deck.
    pub is_deck: bool,
}

/// What a pass has made of the present program, and what it has to say.
#[derive(Drop)]
pub struct Output {
    pub cells: Vec<Slot>,
    pub words: Vec<u16>,
    pub rows: Vec<Row>,
    /// How the present line is cut.
    pub cut: Option<Cut>,
    /// The literals that operands name, and how many of them are of the rows.
    pub named: Vec<Named>,
    pub listed: usize,
    /// The rows of system texts, which the listing has not.
    pub systems: Vec<SystemRows>,
    pub messages: Vec<Message>,
    pub warnings: Vec<Message>,
    /// The cell after words that could not be put; what follows there follows from that fault.
    pub wrong_from: Option<i64>,
    /// The cell after words that are over others, because of ORG or BSS.
    pub over_from: Option<i64>,
    /// How many words and statements there are.
    pub made: usize,
    pub performed: u32,
}

/// The present program, and those that have ended.
#[derive(Drop)]
pub struct Programs {
    pub name: Vec<u8>,
    pub start: Option<u16>,
    pub has_ended: bool,
    pub has_more: bool,
    pub has_name: bool,
    pub ended: Vec<Unit>,
    /// The layouts of those that have ended.
    pub layouts: Vec<Layout>,
}

/// What a pass knows at a line, and what it has made.
#[derive(Drop)]
pub struct Scope {
    pub is_last: bool,
    /// No fault has been noted.
    pub is_right: bool,
    pub alloc: Global,
    pub symbols: Symbols,
    pub blocks: Blocks,
    pub literals: Literals,
    pub counters: Counters,
    pub output: Output,
    pub programs: Programs,
}

impl Counters {
    fn new(alloc: Global) -> Counters {
        Counters {
            origin: 0,
            location: 0,
            open: None,
            base: None,
            bases: Vec::new(alloc),
            is_deck: false,
        }
    }
}

impl Output {
    fn new(alloc: Global) -> Output {
        Output {
            cells: Vec::new(alloc),
            words: Vec::new(alloc),
            rows: Vec::new(alloc),
            cut: None,
            named: Vec::new(alloc),
            listed: 0,
            systems: Vec::new(alloc),
            messages: Vec::new(alloc),
            warnings: Vec::new(alloc),
            wrong_from: None,
            over_from: None,
            made: 0,
            performed: 0,
        }
    }

    /// Returns where the literals are that the statement with an index has named. The row of a literal has none.
    fn named_in_row(&mut self, statement: usize) -> Span {
        let first = self.listed;
        if statement == usize::MAX {
            return Span::new(first, first);
        }
        self.listed = self.named.len();
        Span::new(first, self.listed)
    }

    /// Forgets the words of a system text. The listing has no row of it, and it has no warnings.
    fn forget_words(&mut self, alloc: Global, layouts: Vec<Layout>) -> Result<(), AllocError> {
        self.wrong_from = None;
        self.over_from = None;
        self.made = 0;
        self.words.clear();
        self.warnings.clear();
        let rows = replace(&mut self.rows, Vec::new(alloc));
        Ok(self.systems.push(SystemRows { rows, layouts })?)
    }
}

impl Programs {
    fn new(alloc: Global) -> Programs {
        Programs {
            name: Vec::new(alloc),
            start: None,
            has_ended: false,
            has_more: false,
            has_name: false,
            ended: Vec::new(alloc),
            layouts: Vec::new(alloc),
        }
    }
}

impl Scope {
    /// Returns what a pass knows before its first line.
    pub fn new(
        alloc: Global,
        symbols: Symbols,
        blocks: Blocks,
        is_last: bool,
    ) -> Result<Self, AllocError> {
        let mut scope = Scope {
            is_last,
            is_right: true,
            alloc,
            symbols,
            blocks,
            literals: Literals::new(alloc),
            counters: Counters::new(alloc),
            output: Output::new(alloc),
            programs: Programs::new(alloc),
        };
        scope.begin_unit()?;
        Ok(scope)
    }

    /// Ends a system text, of which the names stay and no words.
    pub fn end_system(&mut self) -> Result<(), AllocError> {
        if !self.programs.has_ended {
            self.keep_layout()?;
        }
        self.symbols.end_system();
        self.restart_blocks()?;
        self.counters.base = None;
        self.counters.bases.clear();
        self.counters.is_deck = false;
        self.programs.has_name = false;
        self.programs.has_ended = false;
        self.programs.has_more = false;
        self.programs.ended.clear();
        let layouts = replace(&mut self.programs.layouts, Vec::new(self.alloc));
        self.output.forget_words(self.alloc, layouts)
    }

    /// Returns whether each name and each block is as in the pass before.
    pub fn has_settled(&self) -> bool {
        self.symbols.have_settled() && self.blocks.have_settled(&self.symbols.text)
    }

    /// Counts one more statement.
    pub fn count_statement(&mut self) -> Outcome {
        count_one(&mut self.output.performed)
    }

    /// Notes a fault of a line. Only the last pass keeps what it is.
    pub fn report(&mut self, here: &Here, column: usize, fault: Fault) -> Outcome
        ensures noted { OnOk result (self.new.is_right ≡ false) }
        ensures unchanged { OnlyNotes self.old self.new }
    {
        self.is_right = false;
        if !self.is_last {
            return Ok(());
        }
        Ok(self.output.messages.push(here.message(column, fault))?)
    }

    /// Notes why something has no value, if that is a fault, and returns what stops the pass.
    pub fn report_stop(&mut self, here: &Here, stop: Stop) -> Outcome
        ensures noted { OnOk result (self.new.is_right ≡ false) }
        ensures fault { OnOk result (is_fault stop ≡ true) }
        ensures stop { IfErr result (λ other. is_fault other ≡ true → is_fault stop ≡ true) }
        ensures unchanged { OnlyNotes self.old self.new }
    {
        match stop {
            Stop::At(column, fault) => self.report(here, column, fault),
            Stop::Follows => {
                self.is_right = false;
                Ok(())
            }
            Stop::Ends(..) | Stop::TooMuch(_) | Stop::NoMemory => Err(stop),
        }
    }

    /// Keeps a warning, of each kind the first one.
    pub fn warn(&mut self, here: &Here, column: usize, fault: Fault) -> Outcome
        ensures { OnlySays self.old self.new }
    {
        self.warn_at(here.message(column, fault))
    }

    /// Keeps a warning at its place, of each kind the first one.
    pub fn warn_at(&mut self, message: Message) -> Outcome
        ensures { OnlySays self.old self.new }
    {
        for warning in &self.output.warnings {
            if warning.fault.text.text() == message.fault.text.text() {
                return Ok(());
            }
        }
        if self.is_last {
            self.output.warnings.push(message)?;
        }
        Ok(())
    }

    /// Sets the counters.
    pub fn move_to(&mut self, origin: i64, location: i64) {
        self.reach();
        self.counters.origin = origin;
        self.counters.location = location;
        self.counters.open = None;
    }

    /// Gives a name its meaning by a line, or reports why that can't be.
    pub fn define(&mut self, here: &Here, name: Field, meaning: Definition) -> Outcome {
        let line = here.line.number;
        let defined = self
            .symbols
            .define(here.text, name, Definition { line, ..meaning });
        self.reported(here, defined, ())
    }

    /// Gives the present address to the label of a statement, if it has one.
    pub fn label(&mut self, here: &Here, statement: Statement) -> Outcome {
        let name = statement.location.of(here.text);
        if matches!(name, b"" | b"+" | b"-") {
            return Ok(());
        }
        self.define(
            here,
            statement.location,
            Definition::address(self.counters.location),
        )
    }

    /// Returns the value of an expression. Names count only from the lines above if that is asked.
    pub fn value(&mut self, here: &Here, operand: Field, is_from_above: bool) -> Outcome<Value>
        ensures number { Gives (λ x. x.number) result (value_in self.old is_from_above (text_in here.now operand)) }
        ensures unchanged { OnlySays self.old self.new }
    {
        let mut decimal = None;
        let value = Expression::new(self, here.text, operand, is_from_above).value(&mut decimal);
        if let Some(digits) = decimal {
            let fault = Fault::new(Wording::DecimalWithoutBase);
            if self.warn(here, digits.first, fault.part(digits)).is_err() {
                return Err(Stop::NoMemory);
            }
        }
        value
    }

    /// Returns a number of an expression, which has at most 60 bits.
    pub fn number(&mut self, here: &Here, operand: Field, is_from_above: bool) -> Outcome<i64>
        ensures number { Gives (λ n. n) result (value_in self.old is_from_above (text_in here.now operand)) }
        ensures unchanged { OnlySays self.old self.new }
    {
        let value = self.value(here, operand, is_from_above)?;
        Ok(value.number)
    }

    /// Returns a number up to octal 7777 whose names are known from the lines above.
    pub fn count(&mut self, here: &Here, operand: Field, least: i64) -> Outcome<i64>
        ensures number { Gives (λ n. n) result (count_in self.old least (text_in here.now operand)) }
        ensures unchanged { OnlySays self.old self.new }
    {
        let number = self.number(here, operand, true)?;
        if number < least || number >= CELLS as i64 {
            let fault = Fault::new(Wording::NoNumberInRange);
            return Err(fault.octal(number).octal(least).at(operand.first));
        }
        Ok(number)
    }

    /// Returns what is found, or something else if there is a fault, which is reported.
    pub fn reported<T: Drop>(&mut self, here: &Here, found: Outcome<T>, or: T) -> Outcome<T>
        ensures found { GoesOn self.old self.new found result }
        ensures unchanged { OnlyNotes self.old self.new }
    {
        match found {
            Ok(value) => Ok(value),
            Err(stop) => {
                self.report_stop(here, stop)?;
                Ok(or)
            }
        }
    }

    /// Returns an operand as a number of so many bits, at most 60; 0 if it is wrong, which is noted. The code is that of the
    /// instruction whose d it is.
    pub fn field(
        &mut self,
        here: &Here,
        operand: Field,
        bits: u32,
        code: Option<u8>,
    ) -> Outcome<u64>
        ensures { is_literal (text_in here.now operand) ≡ false →
            Noted self.old.is_right self.new.is_right (λ d. d) result (plain_field self.old (text_in here.now operand) bits) }
    {
        let number = self.checked_field(here, operand, bits, code);
        self.reported(here, number, 0)
    }

    /// Returns an operand as a number of so many bits: minus is the ones complement.
    fn checked_field(
        &mut self,
        here: &Here,
        operand: Field,
        bits: u32,
        code: Option<u8>,
    ) -> Outcome<u64>
        ensures number { is_literal (text_in here.now operand) ≡ false →
            Gives (λ d. d) result (plain_field self.old (text_in here.now operand) bits) }
        ensures unchanged { is_literal (text_in here.now operand) ≡ false → OnlySays self.old self.new }
    {
        if is_literal(operand.of(here.text)) {
            self.literal_field(here, operand, bits, code)
        } else {
            self.plain_field(here, operand, bits, code)
        }
    }

    /// Returns the number of a literal as one of so many bits.
    fn literal_field(
        &mut self,
        here: &Here,
        operand: Field,
        bits: u32,
        code: Option<u8>,
    ) -> Outcome<u64> {
        let number = self.literal(here, operand)?;
        fitting(operand, number, false, bits, code)
    }

    /// Returns a text or an expression as a number of so many bits.
    #[tactic(auto, unfolding(crate::specs::Fields::plain_field))]
    fn plain_field(
        &mut self,
        here: &Here,
        operand: Field,
        bits: u32,
        code: Option<u8>,
    ) -> Outcome<u64>
        ensures number { Gives (λ d. d) result (plain_field self.old (text_in here.now operand) bits) }
        ensures unchanged { OnlySays self.old self.new }
    {
        match text_alone(operand.of(here.text))? {
            Some(text) => text_field(operand, text, bits),
            None => {
                let number = self.number(here, operand, false)?;
                let is_ones = is_minus_zero(operand.of(here.text));
                fitting(operand, number, is_ones, bits, code)
            }
        }
    }

    /// Returns a number without a name as one of so many bits.
    pub fn number_field(&mut self, here: &Here, operand: Field, bits: u32) -> Outcome<u64>
        ensures number { Gives (λ d. d) result (number_field self.old (text_in here.now operand) bits) }
        ensures unchanged { OnlySays self.old self.new }
    {
        let number = self.number(here, operand, false)?;
        let is_ones = is_minus_zero(operand.of(here.text));
        fitting(operand, number, is_ones, bits, None)
    }

    /// Adds a line to the listing, in the last pass.
    pub fn add_row(
        &mut self,
        here: &Here,
        words: &[u16],
        has_address: bool,
        value: Option<i64>,
        is_set: bool,
    ) -> Outcome {
        if !self.is_last {
            return Ok(());
        }
        let first = self.output.words.len();
        let named = self.output.named_in_row(here.index);
        self.output.words.extend_from_slice(words)?;
        let row = Row {
            statement: here.index,
            origin: self.counters.origin,
            location: self.counters.location,
            first,
            end: self.output.words.len(),
            has_address,
            value,
            is_set,
            is_performed: true,
            cut: self.output.cut,
            named,
        };
        Ok(self.output.rows.push(row)?)
    }

    /// Adds a line without words to the listing.
    pub fn plain_row(&mut self, here: &Here, has_address: bool) -> Outcome {
        self.add_row(here, &[], has_address, None, false)
    }

    /// Adds a line that names a number to the listing.
    pub fn value_row(&mut self, here: &Here, value: Option<i64>, is_set: bool) -> Outcome {
        self.add_row(here, &[], false, value, is_set)
    }
}

/// Adds one to a count, which has a most.
pub fn count_one(count: &mut u32) -> Outcome {
    *count = count.saturating_add(1);
    if *count > MOST_STATEMENTS {
        return Err(too_many_statements());
    }
    Ok(())
}

/// Returns whether a text is minus zero, which is all ones.
pub fn is_minus_zero(text: &[u8]) -> bool
    ensures { result ≡ is_minus_zero text.now }
{
    matches!(text, b"-0")
}

/// Returns a number as one of so many bits: minus is the ones complement.
fn fitting(operand: Field, number: i64, is_ones: bool, bits: u32, code: Option<u8>) -> Outcome<u64>
    ensures { Gives (λ d. d) result (field_of_bits bits is_ones number) }
{
    match field_of(number, bits, is_ones) {
        Some(field) => Ok(field),
        None => Err(unfitting(operand, number, bits, code)),
    }
}

/// Returns that a number is not one of so many bits.
fn unfitting(operand: Field, number: i64, bits: u32, code: Option<u8>) -> Stop {
    let fault = Fault::new(Wording::NumberDoesNotFit);
    let fault = fault.octal(number).decimal(bits);
    match code {
        Some(code) => fault.with(Argument::Wider(operand, code)).at(operand.first),
        None => fault.at(operand.first),
    }
}

/// Returns whether a text is a literal.
fn is_literal(text: &[u8]) -> bool
    ensures { result ≡ is_literal text.now }
{
    matches!(text, [b'=', ..])
}

/// Returns the text that a whole operand is, but for one of R, which is a number.
fn text_alone(operand: &[u8]) -> Outcome<Option<DisplayText<'_>>>
    ensures { Gives (option_map (text_of operand.now)) result (alone_in operand.now) }
{
    match text_at(operand, 0, false)? {
        Some(text) if text.end == operand.len() && text.kind != b'R' => Ok(Some(text)),
        _ => Ok(None),
    }
}

/// Returns a text as a number of so many bits.
fn text_field(operand: Field, text: DisplayText, bits: u32) -> Outcome<u64>
    ensures { Gives (λ d. d) result (text_field bits (text_of [] text.entry)) }
{
    let size = (bits / 6) as usize;
    if b"CZ".contains(&text.kind) || bits % 6 != 0 || text.count > size {
        let fault = Fault::new(Wording::TextDoesNotFit);
        return Err(fault.part(operand).decimal(bits).at(operand.first));
    }
    are_in_code(text.symbols, operand.first)?;
    match text.number(size) {
        Some(number) => Ok(number.unsigned_abs()),
        None => Err(beyond(operand)),
    }
}
