//! Macros: their definitions, and the lines that their calls make. ECHO makes lines likewise.
use crate::blocks::name_of_block;
use crate::pass::Pass;
use pp_decks::{Call, Line, Lines, Span, length_without_blanks};
use pp_source::{
    Argument, Fault, Field, Here, Macro, Meaning, Opening, Operation, Outcome, Statement, Stop,
    Wording, cut, end_of_name, is_enclosed, operation_of, split_nested,
};
use pp_statements::too_many_statements;
use std::alloc::{AllocError, Global};

/// How many symbols a line has that a macro or a micro makes.
pub const LONGEST: usize = 1000;
/// How many macros call one another.
const MOST_CALLS: u32 = 20;
/// How many times the lines of a call are gone over, as IRP repeats them.
const MOST_PARTS: u32 = 1_000_000;
/// The columns of a label in a line that a macro makes.
const LABEL: usize = 8;
/// The columns of an operation there.
const OPERATION: usize = 6;
/// What begins the operation that defines a macro.
const MACRO: &[u8; 5] = b"MACRO";

/// An operand of a macro's call: its column, and the part of the line without its parentheses.
#[derive(Clone, Copy)]
struct Operand {
    column: usize,
    text: Field,
}

impl Operand {
    fn new(line: &[u8], column: usize, end: usize) -> Self {
        let whole = Field::new(column, end);
        let text = if is_enclosed(whole.of(line)) {
            Field::new(column.saturating_add(1), end.saturating_sub(1))
        } else {
            whole
        };
        Operand { column, text }
    }
}

/// Returns the operands of a macro's call, between commas that are in no parentheses.
fn operands_of(alloc: Global, line: &[u8], operand: Field) -> Result<Vec<Operand>, AllocError> {
    let mut operands = Vec::new(alloc);
    let mut first = operand.first;
    let mut depth: i64 = 0;
    for at in operand.first..operand.end {
        match line.get(at) {
            Some(b'(') => depth = depth.saturating_add(1),
            Some(b')') => depth = depth.saturating_sub(1),
            Some(b',') if depth <= 0 => {
                operands.push(Operand::new(line, first, at))?;
                first = at.saturating_add(1);
            }
            _ => {}
        }
    }
    if !operand.is_empty() {
        operands.push(Operand::new(line, first, operand.end))?;
    }
    Ok(operands)
}

/// Lines of a macro that are still to be made with the first values, and of IRP its name, with the items that it is in turn.
#[derive(Clone, Copy)]
pub struct Repetition {
    body: Span,
    values: usize,
    name: Span,
    items: Option<Span>,
}

impl Pass {
    /// Keeps a macro: NAME MACRO P,.. or MACRO NAME,LABEL,P,.. where LABEL stands for the label of a call; MACROE has P=DEFAULT.
    pub fn define_macro(
        &mut self,
        here: &Here,
        statement: Statement,
        has_names: bool,
        body: Span,
    ) -> Outcome {
        let operands = operands_of(self.scope.alloc, here.text, statement.operand)?;
        let none = Field::none();
        let (name, label, operands) = match operands.as_slice() {
            all if !statement.location.is_empty() => (statement.location, none, all),
            [name, label, operands @ ..] => (name.text, label.text, operands),
            [name] => (name.text, none, [].as_slice()),
            [] => (none, none, [].as_slice()),
        };
        if name.is_empty() {
            return Err(Stop::of(Wording::NameWanted, statement.operation));
        }
        let kept = Macro {
            name: self.keep_name(here, name)?,
            label: self.keep_name(here, label)?,
            operands: self.keep_operands(here, operands, has_names)?,
            has_names,
            body,
            from: self.scope.output.performed,
            until: u32::MAX,
        };
        Ok(self.vocabulary.add_macro(kept)?)
    }

    /// Keeps the names of a macro's operands, with what they are if a call says nothing else.
    fn keep_operands(
        &mut self,
        here: &Here,
        operands: &[Operand],
        has_names: bool,
    ) -> Outcome<Span> {
        let first = self.vocabulary.operands.len();
        for operand in operands {
            let text = operand.text.of(here.text);
            let (name, value) = match has_names {
                true => cut(text, b'='),
                false => (text, None),
            };
            let end = operand.text.first.saturating_add(name.len());
            let name = self.keep_name(here, Field::new(operand.text.first, end))?;
            let text = self.vocabulary.keep(value.unwrap_or(b""))?;
            self.vocabulary.operands.push(Meaning { name, text })?;
        }
        Ok(Span::new(first, self.vocabulary.operands.len()))
    }

    /// Keeps a name, and reports if it is none.
    fn keep_name(&mut self, here: &Here, name: Field) -> Outcome<Span> {
        let text = name.of(here.text);
        if !text.is_empty() && end_of_name(text, 0) != Some(text.len()) {
            self.scope
                .report_stop(here, Stop::of(Wording::NoName, name))?;
        }
        Ok(self.vocabulary.keep(text)?)
    }

    /// Makes the lines of a macro's call, which are performed next.
    pub fn call(&mut self, lines: &mut Lines, statement: Statement, called: Macro) -> Outcome {
        let kept = self.vocabulary.text.len();
        let here = Here::new(lines, self.at);
        let is_of_system = called.body.end <= lines.source.first;
        self.begin_call(&here, statement, called, is_of_system)?;
        let own = statement.operation.first;
        let column = here.line.call.map_or(own, |outer| outer.column);
        let name = here.span_of(statement.operation);
        let line = Line {
            joins: Span::none(),
            call: Some(Call {
                column,
                name,
                is_deck: false,
            }),
            ..here.line
        };
        let made = self.expand(lines, statement.operation, line, called.body)?;
        self.vocabulary.text.truncate(kept);
        self.push_run(made, 1, 1)
    }

    /// Gives the operands of a call to the names of a macro, and its address to its label. SUBR wants one.
    fn begin_call(
        &mut self,
        here: &Here,
        statement: Statement,
        called: Macro,
        is_of_system: bool,
    ) -> Outcome {
        let name = statement.operation;
        self.give_operands(here, statement, called)?;
        let has_label = !statement.location.is_empty();
        if is_of_system && !called.label.is_empty() && !has_label {
            return Err(Stop::of(Wording::LabelWanted, name));
        }
        if self.present.calls >= MOST_CALLS {
            let fault = Wording::DeepMacros;
            return Err(Stop::At(name.first, Fault::new(fault)));
        }
        if called.label.is_empty() {
            self.scope.label(here, statement)?;
            return self.scope.plain_row(here, has_label);
        }
        let text = self.vocabulary.keep(statement.location.of(here.text))?;
        let name = called.label;
        self.vocabulary.values.push(Meaning { name, text })?;
        self.scope.plain_row(here, false)
    }

    /// Gives the operands of a call to the names of a macro: to that in its place, or to that which it has.
    fn give_operands(&mut self, here: &Here, statement: Statement, called: Macro) -> Outcome {
        let operands = operands_of(self.scope.alloc, here.text, statement.operand)?;
        let words = &mut self.vocabulary;
        let Span { first, end } = called.operands;
        let names = words.operands.get(first..end).unwrap_or(&[]);
        let most = names.len();
        words.values.clear();
        words.values.extend_from_slice(names)?;
        for (index, operand) in operands.iter().enumerate() {
            let text = operand.text.of(here.text);
            let given = match words.values.get(index) {
                _ if called.has_names => words.named(text),
                Some(own) if index < most => Some((own.name, text)),
                _ => None,
            };
            let Some((name, text)) = given else {
                let fault = wrong_operands(called, statement.operation, most, operands.len());
                return Err(Stop::At(operand.column, fault));
            };
            let text = words.keep(text)?;
            words.values.push(Meaning { name, text })?;
        }
        Ok(())
    }

    /// Makes the lines of a macro's call.
    fn expand(&mut self, lines: &mut Lines, name: Field, line: Line, body: Span) -> Outcome<Span> {
        let first = lines.all.len();
        self.parts.clear();
        self.add_part(body, Span::none(), None)?;
        for _ in 0..MOST_PARTS {
            let Some(part) = self.parts.pop() else {
                return Ok(Span::new(first, lines.all.len()));
            };
            self.expand_part(lines, name, line, part)?;
        }
        Err(too_many_statements())
    }

    /// Lets lines be made with the present values, once or for each item of a list.
    fn add_part(&mut self, body: Span, name: Span, items: Option<Span>) -> Outcome {
        let values = self.vocabulary.values.len();
        let part = Repetition {
            body,
            values,
            name,
            items,
        };
        Ok(self.parts.push(part)?)
    }

    /// Makes lines up to an IRP. A name of LOCAL becomes another one in each call.
    fn expand_part(
        &mut self,
        lines: &mut Lines,
        name: Field,
        line: Line,
        part: Repetition,
    ) -> Outcome {
        let words = &mut self.vocabulary;
        words.values.truncate(part.values);
        if let Some(items) = part.items {
            let (text, items) = split_nested(&words.text, items);
            if items.is_some() {
                self.parts.push(Repetition { items, ..part })?;
            }
            let name = part.name;
            words.values.push(Meaning { name, text })?;
        }
        let mut inner = part.body.first;
        for index in part.body.first..part.body.end {
            let here = Here::new(lines, index);
            let is_own = index >= inner;
            match first_words(here.text) {
                (b"LOCAL", names) if is_own => self.vocabulary.give_locals(names)?,
                (b"IRP", name) if is_own && !name.is_empty() => {
                    let rest = Span::new(index.saturating_add(1), part.body.end);
                    return self.begin_parts(lines, name, rest);
                }
                _ => {
                    if is_own {
                        inner = self.end_of_inner(lines, index, part.body.end)?;
                    }
                    self.replace_line(lines, Here::new(lines, index))?;
                    self.add_made(lines, name, line)?;
                }
            }
        }
        Ok(())
    }

    /// Returns the index of the last line of the macro that a line of another one defines, or that line if it defines none. The
    /// LOCAL and IRP of such lines are those of the macro within.
    fn end_of_inner(&mut self, lines: &Lines, index: usize, end: usize) -> Outcome<usize> {
        let here = Here::new(lines, index);
        let (first, second) = first_words(here.text);
        if !(first.starts_with(MACRO.as_slice()) || second.starts_with(MACRO.as_slice())) {
            return Ok(index);
        }
        let Ok(Some(statement)) = self.statement(&here) else {
            return Ok(index);
        };
        let operation = operation_of(statement.operation.of(here.text));
        let Operation::Block(kind @ Opening::Macro { .. }) = operation else {
            return Ok(index);
        };
        let rest = Span::new(index.saturating_add(1), end);
        let found = self.nested(lines, name_of_block(&here, statement, kind), kind, rest)?;
        Ok(found.map_or(end, |block| block.end.first))
    }

    /// Returns the index of the IRP that ends the lines of another one, or that after all lines.
    fn end_of_parts(&mut self, lines: &Lines, rest: Span) -> Outcome<usize> {
        let mut inner = rest.first;
        for index in rest.first..rest.end {
            if index < inner {
                continue;
            }
            if matches!(first_words(Here::new(lines, index).text), (b"IRP", b"")) {
                return Ok(index);
            }
            inner = self.end_of_inner(lines, index, rest.end)?;
        }
        Ok(rest.end)
    }

    /// Begins the lines up to the next IRP, which are there once for each item of what is given for a name.
    fn begin_parts(&mut self, lines: &Lines, name: &[u8], rest: Span) -> Outcome {
        let end = self.end_of_parts(lines, rest)?;
        let words = &mut self.vocabulary;
        let items = words.meaning(&words.values, name);
        let name = words.keep(name)?;
        self.add_part(Span::new(end.saturating_add(1), rest.end), name, None)?;
        match items {
            Some(list) if !list.is_empty() => {
                self.add_part(Span::new(rest.first, end), name, items)
            }
            _ => Ok(()),
        }
    }

    /// Adds the line that has been made.
    fn add_made(&mut self, lines: &mut Lines, name: Field, line: Line) -> Outcome {
        if self.vocabulary.made.len() > LONGEST {
            let fault = Wording::LongMadeLine;
            return Err(Stop::of(fault, name));
        }
        self.count_made()?;
        lines.add(line, &self.vocabulary.made)?;
        Ok(())
    }

    /// Makes a line of a macro's line with what is given for its names, in the usual columns and without its comment.
    fn replace_line(&mut self, lines: &Lines, here: Here) -> Outcome {
        self.vocabulary.made.clear();
        if here.text.first() == Some(&b'*') {
            let text = lines.text_of(here.line);
            return Ok(self.vocabulary.made.extend_from_slice(text)?);
        }
        let statement = match self.statement(&here) {
            Ok(Some(statement)) => statement,
            Ok(None) => return Ok(()),
            Err(_) => return Ok(self.vocabulary.replace(here.text)?),
        };
        let words = &mut self.vocabulary;
        words.made.push(b' ')?;
        words.replace_padded(statement.location.of(here.text), LABEL)?;
        words.replace_padded(statement.operation.of(here.text), OPERATION)?;
        words.replace(statement.operand.of(here.text))?;
        let length = length_without_blanks(&words.made);
        words.made.truncate(length);
        Ok(())
    }

    /// Repeats lines with one item of each list: ECHO n,P=(A,B),Q=(C,D).
    pub fn echo(&mut self, lines: &mut Lines, statement: Statement, body: Span) -> Outcome {
        let count = self.give_lists(&Here::new(lines, self.at), statement)?;
        for _ in 0..count {
            self.vocabulary.give_items()?;
            self.echo_lines(lines, statement.operation, body)?;
        }
        // The run that is put last is performed first.
        let size = body.end.saturating_sub(body.first);
        let mut end = lines.all.len();
        for _ in 0..count {
            let first = end.saturating_sub(size);
            self.push_repeated(Span::new(first, end), 1)?;
            end = first;
        }
        Ok(())
    }

    /// Makes lines with what is given for their names.
    fn echo_lines(&mut self, lines: &mut Lines, name: Field, body: Span) -> Outcome {
        for index in body.first..body.end {
            let Here { line, text, .. } = Here::new(lines, index);
            self.vocabulary.made.clear();
            self.vocabulary.replace(text)?;
            self.add_made(lines, name, line)?;
        }
        Ok(())
    }

    /// Gives the lists of ECHO to their names. Returns how many items the shortest one has.
    fn give_lists(&mut self, here: &Here, statement: Statement) -> Outcome<usize> {
        self.vocabulary.lists.clear();
        let (mut least, mut most) = (usize::MAX, 0);
        let operands = operands_of(self.scope.alloc, here.text, statement.operand)?;
        for operand in operands.get(1..).unwrap_or(&[]) {
            let (name, Some(list)) = cut(operand.text.of(here.text), b'=') else {
                let fault = Fault::new(Wording::NoNameAndList).part(operand.text);
                return Err(Stop::At(operand.column, fault));
            };
            let list = without_all_parentheses(list);
            let name = self.vocabulary.keep(name)?;
            let text = self.vocabulary.keep(list)?;
            self.vocabulary.lists.push(Meaning { name, text })?;
            let size = list.split(|symbol| *symbol == b',').count();
            least = size.min(least);
            most = size.max(most);
        }
        if least < most {
            let fault = Fault::new(Wording::ListsDiffer);
            self.scope.warn(here, statement.operation.first, fault)?;
        }
        Ok(least.min(most))
    }
}

/// Returns that a call of a macro does not have the operands that it may have.
fn wrong_operands(called: Macro, name: Field, most: usize, count: usize) -> Fault {
    if called.has_names {
        let fault = Fault::new(Wording::TakesNothingElse).part(name);
        return fault.with(Argument::Names(called.operands));
    }
    let fault = Fault::new(Wording::TakesOperandsNot).part(name);
    fault.count(most).count(count)
}

/// Returns a text without the parentheses at its ends.
fn without_all_parentheses(text: &[u8]) -> &[u8] {
    let first = text.iter().position(|symbol| !b"()".contains(symbol));
    let last = text.iter().rposition(|symbol| !b"()".contains(symbol));
    match (first, last) {
        (Some(first), Some(last)) => text.get(first..=last).unwrap_or(text),
        _ => b"",
    }
}

/// Returns the first two words of a line.
fn first_words(text: &[u8]) -> (&[u8], &[u8]) {
    let words = text.split(|symbol| matches!(*symbol, b' ' | b'\t'));
    let mut words = words.filter(|word| !word.is_empty());
    (words.next().unwrap_or(b""), words.next().unwrap_or(b""))
}
