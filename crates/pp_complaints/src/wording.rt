//! The text of a message: what is wrong, and what to write instead.
use crate::nearest::Nearest;
use pp_decks::{Line, Lines, Span, length_without_blanks};
use pp_notation::{INSTRUCTIONS, name_of, put_decimal, put_octal};
use pp_source::{
    Argument, Fault, Field, Message, OPERATIONS, Operation, Symbols, Vocabulary, after_blanks,
    is_alphanumeric,
};
use std::alloc::{AllocError, Global};

/// How many symbols of a line that a macro made are shown.
const MOST_SHOWN: usize = 72;

/// What the text of a message is about: the lines of a source, its symbols, and what it adds to the notation.
#[derive(Clone, Copy)]
pub struct Known<'a> {
    pub lines: &'a Lines,
    pub symbols: &'a Symbols,
    pub vocabulary: &'a Vocabulary,
}

/// A text that is written, about a line in capitals.
#[derive(Drop)]
struct Writer<'a> {
    alloc: Global,
    known: Known<'a>,
    line: &'a [u8],
    out: Vec<u8>,
}

/// Returns the text of a message.
///
/// # Errors
/// Memory ran out.
pub fn message_text(alloc: Global, known: Known, message: &Message) -> Result<Vec<u8>, AllocError> {
    let line = known.lines.all.get(message.statement).copied();
    let capitals = match line {
        Some(line) => known.lines.capitals_of(line),
        None => b"",
    };
    let mut writer = Writer {
        alloc,
        known,
        line: capitals,
        out: Vec::new(alloc),
    };
    writer.fault(message.fault)?;
    if let Some(line) = line {
        writer.origin(line)?;
    }
    let Writer { out, .. } = writer;
    Ok(out)
}

impl Writer<'_> {
    fn text(&mut self, text: &[u8]) -> Result<(), AllocError> {
        self.out.extend_from_slice(text)
    }

    /// Writes the text of a fault, with its arguments.
    fn fault(&mut self, fault: Fault) -> Result<(), AllocError> {
        let mut rest = fault.text.text();
        let Fault {
            first,
            second,
            third,
            fourth,
            ..
        } = fault;
        for argument in &[first, second, third, fourth] {
            let Some((before, after)) = rest.split_once("{}") else {
                break;
            };
            self.text(before.as_bytes())?;
            self.argument(*argument)?;
            rest = after;
        }
        self.text(rest.as_bytes())
    }

    /// Writes from where a line is that is not in the source, and its text.
    fn origin(&mut self, line: Line) -> Result<(), AllocError> {
        let Line {
            number,
            text,
            call,
            system,
            ..
        } = line;
        let lines = self.known.lines;
        if !system.is_empty() {
            self.text(b" (in line ")?;
            put_decimal(self.alloc, &mut self.out, number)?;
            self.text(b" of the system text ")?;
            self.text(system.of(&lines.text))?;
        } else if let Some(call) = call {
            self.text(if call.is_deck {
                b" (in the common deck "
            } else {
                b" (in the macro "
            })?;
            self.text(call.name.of(&lines.capitals))?;
        } else {
            return Ok(());
        }
        self.text(b": ")?;
        let text = stripped(text.of(&lines.text));
        self.text(text.get(..MOST_SHOWN).unwrap_or(text))?;
        self.text(b")")
    }

    fn argument(&mut self, argument: Argument) -> Result<(), AllocError> {
        match argument {
            Argument::Nothing => Ok(()),
            Argument::Part(part) => self.text(part.of(self.line)),
            Argument::Text(text) => self.text(text.text().as_bytes()),
            Argument::Symbol(b'\t') => self.text(b"\\t"),
            Argument::Symbol(symbol) => self.text(&[symbol]),
            Argument::Octal(number) => put_octal(&mut self.out, number, 1),
            Argument::Cell(cell) => put_octal(&mut self.out, i64::from(cell), 4),
            Argument::Decimal(number) => put_decimal(self.alloc, &mut self.out, number),
            Argument::Instruction(code) => self.instruction(code),
            Argument::NearestSymbol(name) => self.nearest_symbol(name),
            Argument::NearestOperation(name, number) => self.nearest_operation(name, number),
            Argument::Wider(operand, code) => self.wider(operand, code),
            Argument::Kept(name) => self.text(self.known.symbols.text_of(name)),
            Argument::Reaching(target, code) => self.reaching(target, code),
            Argument::Names(operands) => self.names(operands),
        }
    }

    fn instruction(&mut self, code: u8) -> Result<(), AllocError> {
        self.text(name_of(code & 0o77))
    }

    fn nearest_symbol(&mut self, name: Field) -> Result<(), AllocError> {
        let symbols = self.known.symbols;
        let mut nearest = Nearest::new(name.of(self.line));
        for symbol in &symbols.all {
            if symbol.is_known() {
                nearest.see(symbols.text_of(symbol.key));
            }
        }
        self.nearest(nearest.found())
    }

    /// Writes the operation that may be meant at the statement with a number.
    fn nearest_operation(&mut self, name: Field, number: u32) -> Result<(), AllocError> {
        let mut nearest = Nearest::new(name.of(self.line));
        see_operations(&mut nearest);
        let vocabulary = self.known.vocabulary;
        for one in &vocabulary.macros {
            if one.from < number && number <= one.until {
                nearest.see(vocabulary.text_of(one.name));
            }
        }
        self.nearest(nearest.found())
    }

    /// Writes the names of a macro's operands.
    fn names(&mut self, operands: Span) -> Result<(), AllocError> {
        let vocabulary = self.known.vocabulary;
        for index in operands.first..operands.end {
            if let Some(operand) = vocabulary.operands.get(index) {
                self.text(if index > operands.first { b", " } else { b"" })?;
                self.text(vocabulary.text_of(operand.name))?;
                self.text(b"=")?;
            }
        }
        Ok(())
    }

    /// Writes the name that may be meant.
    fn nearest(&mut self, name: Option<&[u8]>) -> Result<(), AllocError> {
        let Some(name) = name else {
            return Ok(());
        };
        self.text(b"; ")?;
        self.text(name)?;
        self.text(b" is")
    }

    /// Writes the instruction that takes a greater operand, if there is one.
    fn wider(&mut self, operand: Field, code: u8) -> Result<(), AllocError> {
        let (wider, sign): (u8, &[u8]) = match code {
            0o11 => (0o23, b""),
            0o12 => (0o22, b""),
            0o14 => (0o20, b""),
            0o15 => (0o20, b"-"),
            0o16 => (0o21, b""),
            0o17 => (0o21, b"-"),
            0o30..=0o37 => (code + 0o20, b""),
            _ => return Ok(()),
        };
        if !sign.is_empty() && !is_simple(operand.of(self.line)) {
            return Ok(());
        }
        self.text(b"; ")?;
        self.instruction(wider)?;
        self.text(b" ")?;
        self.text(sign)?;
        self.text(operand.of(self.line))?;
        self.text(b" would do")
    }

    /// Writes what reaches the target of a jump.
    fn reaching(&mut self, target: Field, code: u8) -> Result<(), AllocError> {
        if is_distance(target.of(self.line)) {
            return self.text(b"the operand is the target; write *+ or *- before a distance");
        }
        if matches!(code, 0o04..=0o07) {
            self.instruction(code ^ 1)?;
            self.text(b" *+3 and ")?;
        }
        self.text(b"LJM ")?;
        self.text(target.of(self.line))?;
        self.text(b" would do")
    }
}

/// Returns whether an operand is a name or a number alone.
fn is_simple(text: &[u8]) -> bool {
    for symbol in text {
        if !(is_alphanumeric(*symbol) || *symbol == b'.' || *symbol == b'$') {
            return false;
        }
    }
    !text.is_empty()
}

/// Returns whether an operand is one or two octal digits, with a sign and a letter or without.
fn is_distance(text: &[u8]) -> bool {
    let digits = match text {
        [b'-', rest @ .., b'B'] => rest,
        [b'-', rest @ ..] => rest,
        [rest @ .., b'B'] => rest,
        rest => rest,
    };
    match digits {
        [one] => matches!(*one, b'0'..=b'7'),
        [one, two] => matches!(*one, b'0'..=b'7') && matches!(*two, b'0'..=b'7'),
        _ => false,
    }
}

/// Returns a text without the blanks at its ends.
fn stripped(text: &[u8]) -> &[u8] {
    let text = text.get(..length_without_blanks(text)).unwrap_or(text);
    text.get(after_blanks(text, 0)..).unwrap_or(b"")
}

/// Looks at the operations that are no macros.
fn see_operations(nearest: &mut Nearest) {
    for code in 0..INSTRUCTIONS {
        if code != 0o24 && code != 0o25 {
            nearest.see(name_of(code as u8));
        }
    }
    for (names, operation) in &OPERATIONS {
        if !matches!(
            operation,
            Operation::Lines(_) | Operation::Inside | Operation::SystemText | Operation::Refused(_)
        ) {
            for one in names.split_whitespace() {
                nearest.see(one.as_bytes());
            }
        }
    }
}
