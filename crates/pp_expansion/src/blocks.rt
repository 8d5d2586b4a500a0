//! Statements that other lines belong to: IF and SKIP, DUP and ECHO, MACRO, RMT. The lines end with ENDIF, ENDD, ENDM or RMT, or
//! are counted.
use crate::conditions::texts_of;
use crate::pass::Pass;
use crate::running::Job;
use pp_decks::{Lines, Span};
use pp_source::{
    Argument, Fault, Field, Here, Opening, Operation, Outcome, Statement, Stop, Wording, cut,
    operation_of,
};
use pp_statements::Base;

/// The lines of a statement: those up to ELSE, those after it, and the line that ends them, if it is one of its own.
#[derive(Clone, Copy)]
pub struct Block {
    first: Span,
    second: Span,
    pub end: Span,
    /// The lines are ended, or counted.
    is_closed: bool,
}

impl Block {
    /// Returns a block of lines without ELSE and without a last line.
    fn new(first: Span, is_closed: bool) -> Self {
        Block {
            first,
            second: Span::none(),
            end: Span::new(first.end, first.end),
            is_closed,
        }
    }
}

/// Returns that a statement counts more lines than there are.
fn fewer_lines(statement: Statement, count: usize) -> Fault {
    Fault::new(Wording::HasFewerLines)
        .part(statement.operation)
        .count(count)
}

/// Returns whether a statement is an ELSE that counts its lines, of a condition with a label.
fn is_else(here: &Here, statement: Statement, own: &[u8]) -> bool {
    let label = statement.location.of(here.text);
    matches!(statement.operation.of(here.text), b"ELSE")
        && !statement.operand.is_empty()
        && (label.is_empty() || label == own)
}

/// Returns the name that an end gives to say which statement it ends: the label, or else the name of a macro.
pub fn name_of_block(here: &Here, statement: Statement, kind: Opening) -> Span {
    if !statement.location.is_empty() || !matches!(kind, Opening::Macro { .. }) {
        return here.span_of(statement.location);
    }
    let (name, _) = cut(statement.operand.of(here.text), b',');
    here.span_of(statement.operand.part(0, name.len()))
}

impl Pass {
    /// Performs a statement that other lines belong to.
    pub fn block(&mut self, lines: &mut Lines, statement: Statement, kind: Opening) -> Outcome {
        let block = self.block_of(lines, statement, kind)?;
        let begun = match self.begin_block(lines, statement, kind, block) {
            Ok(()) if matches!(kind, Opening::Echo) && block.is_closed => {
                self.echo(lines, statement, block.first)
            }
            begun => begun,
        };
        if let Err(Stop::At(..) | Stop::Follows) = begun {
            self.pass_over(lines, block.first)?;
            self.pass_over(lines, block.second)?;
        }
        begun
    }

    /// Returns the lines that belong to a statement, of the lines after it.
    fn block_of(&mut self, lines: &Lines, statement: Statement, kind: Opening) -> Outcome<Block> {
        let here = Here::new(lines, self.at);
        self.scope.plain_row(&here, false)?;
        let rest = Span::new(self.present.next, self.present.all.end);
        let name = statement.operation;
        let own = name_of_block(&here, statement, kind);
        let count = self.count_of(&here, statement, kind)?;
        let found = match count {
            0 => self.nested(lines, own, kind, rest)?,
            _ => self.counted(lines, &here, name, rest, count)?,
        };
        if let Some(block) = found {
            return Ok(block);
        }
        let fault = match count {
            0 => Fault::new(Wording::HasNoEnd)
                .part(name)
                .with(Argument::Text(kind.ending())),
            _ => fewer_lines(statement, count),
        };
        self.scope.report(&here, name.first, fault)?;
        Ok(Block::new(rest, false))
    }

    /// Returns the operands of a statement.
    fn operands(&self, here: &Here, statement: Statement) -> Outcome<Vec<Field>> {
        if statement.operand.is_empty() {
            return Ok(Vec::new(self.scope.alloc));
        }
        self.scope.items(here, statement, false)
    }

    /// Returns how many lines a statement says that it has; 0 if their end is a line of its own.
    fn count_of(&mut self, here: &Here, statement: Statement, kind: Opening) -> Outcome<usize> {
        if matches!(kind, Opening::Texts) {
            let texts = texts_of(here, statement.operand);
            let count = texts.and_then(|texts| self.lines_count(here, texts.count));
            if let Err(stop) = count {
                self.scope.report_stop(here, stop)?;
            }
            return Ok(count.unwrap_or(0));
        }
        let operands = self.operands(here, statement)?;
        if let Some(before) = kind.operands() {
            if let Some(more) = operands.get(before.saturating_add(1)) {
                let fault = Fault::new(Wording::OperandsAndCount);
                let fault = fault.part(statement.operation).count(before);
                return Err(Stop::At(more.first, fault));
            }
        }
        self.lines_count(here, kind.count_in(&operands))
    }

    /// Returns a count of lines or of symbols, whose numbers are decimal.
    pub fn lines_count(&mut self, here: &Here, operand: Field) -> Outcome<usize> {
        if operand.is_empty() {
            return Ok(0);
        }
        let base = self.scope.counters.base;
        self.scope.counters.base = Some(Base::Decimal);
        let count = self.scope.count(here, operand, 0);
        self.scope.counters.base = base;
        Ok(usize::try_from(count?).unwrap_or(0))
    }

    /// Returns so many lines; notes are not counted.
    fn counted(
        &mut self,
        lines: &Lines,
        here: &Here,
        name: Field,
        rest: Span,
        count: usize,
    ) -> Outcome<Option<Block>> {
        let mut left = count;
        for index in rest.first..rest.end {
            if matches!(lines.part_of(index, Field::new(0, 1)), b"*") {
                let fault = Wording::NotesNotCounted;
                self.scope.warn(here, name.first, Fault::new(fault))?;
                continue;
            }
            left = left.saturating_sub(1);
            if left == 0 {
                let all = Span::new(rest.first, index.saturating_add(1));
                return Ok(Some(Block::new(all, true)));
            }
        }
        Ok(None)
    }

    /// ELSE n passes over n lines, if those before it were performed.
    pub fn pass_else(&mut self, lines: &Lines, statement: Statement) -> Outcome {
        let here = Here::new(lines, self.at);
        let name = statement.operation;
        let rest = Span::new(self.present.next, self.present.all.end);
        let count = self.lines_count(&here, statement.operand)?;
        if count == 0 {
            return Err(Stop::of(Wording::EndsNothing, name));
        }
        let Some(block) = self.counted(lines, &here, name, rest, count)? else {
            return Err(fewer_lines(statement, count).at(name.first));
        };
        self.go_on_at(block.end.end);
        self.show(lines, Span::new(self.at, self.at.saturating_add(1)))?;
        self.show(lines, block.first)
    }

    /// Returns the lines that a condition counts and that are not performed: up to an ELSE that counts its own, after them or among
    /// them.
    fn up_to_else(&self, lines: &Lines, statement: Statement, block: Block) -> Block {
        let own = lines.part_of(self.at, statement.location);
        let counted = block.first;
        let mut depth: u32 = 0;
        for index in counted.first..self.present.all.end {
            let here = Here::new(lines, index);
            let found = self.statement(&here);
            if let Ok(Some(inner)) = found {
                if depth == 0 && is_else(&here, inner, own) {
                    return Block {
                        first: Span::new(counted.first, index),
                        end: Span::new(index, index.saturating_add(1)),
                        ..block
                    };
                }
                depth = self.depth_after(&here, inner, depth);
            }
            if index >= counted.end && !matches!(found, Ok(None)) {
                break;
            }
        }
        block
    }

    /// Returns how many conditions are open after a statement, of those that do not count their lines.
    fn depth_after(&self, here: &Here, statement: Statement, before: u32) -> u32 {
        match operation_of(statement.operation.of(here.text)) {
            Operation::Block(inner)
                if inner.is_condition() && !self.has_count(here, statement, inner) => {
                before.saturating_add(1)
            }
            Operation::Inside if matches!(statement.operation.of(here.text), b"ENDIF") => {
                before.saturating_sub(1)
            }
            _ => before,
        }
    }

    /// Returns the lines up to the end of a statement with a name, if there is one. An end with a name is that of the statement
    /// with this name, one without that of the last one that is open; of RMT it is the first one.
    pub fn nested(
        &mut self,
        lines: &Lines,
        name: Span,
        kind: Opening,
        rest: Span,
    ) -> Outcome<Option<Block>> {
        let mut middle = None;
        self.open_names.clear();
        self.open_names.push(name)?;
        for index in rest.first..rest.end {
            if self.follow(lines, index, kind)? && middle.is_none() {
                middle = Some(index);
            }
            if self.open_names.is_empty() {
                let middle = middle.unwrap_or(index);
                return Ok(Some(Block {
                    first: Span::new(rest.first, middle),
                    second: Span::new(middle.saturating_add(1), index),
                    end: Span::new(index, index.saturating_add(1)),
                    is_closed: true,
                }));
            }
        }
        Ok(None)
    }

    /// Follows the names of the statements that are open. Returns whether a line is an ELSE of the outermost one.
    fn follow(&mut self, lines: &Lines, index: usize, outer: Opening) -> Outcome<bool> {
        let here = Here::new(lines, index);
        let Ok(Some(statement)) = self.statement(&here) else {
            return Ok(false);
        };
        let word = statement.operation.of(here.text);
        let name = statement.location.of(here.text);
        let mut open = self.open_names.iter();
        let own = match name {
            b"" => None,
            name => open.position(|one| one.of(&lines.capitals) == name),
        };
        let last = self.open_names.len().saturating_sub(1);
        if word == outer.end().as_bytes() {
            self.open_names.truncate(match outer {
                Opening::Remote => 0,
                _ => own.unwrap_or(last),
            });
            return Ok(false);
        }
        match operation_of(word) {
            Operation::Block(inner) if inner.end() == outer.end() => {
                if !self.has_count(&here, statement, inner) {
                    self.open_names
                        .push(name_of_block(&here, statement, inner))?;
                }
                Ok(false)
            }
            _ => {
                let is_outer = own == Some(0) || name.is_empty() && last == 0;
                Ok(matches!(word, b"ELSE") && outer.is_condition() && is_outer)
            }
        }
    }

    /// Returns whether a statement within others counts its lines.
    fn has_count(&self, here: &Here, statement: Statement, kind: Opening) -> bool {
        if matches!(kind, Opening::Texts) {
            return texts_of(here, statement.operand).is_ok_and(|texts| !texts.count.is_empty());
        }
        match self.operands(here, statement) {
            Ok(operands) => !matches!(kind.count_in(&operands).of(here.text), b"" | b"0"),
            Err(_) => false,
        }
    }

    /// Begins a statement with its lines. Of an IF or DUP without end the lines are performed once. The lines that a condition
    /// counts are the next ones, since they may end with a SKIP of others.
    fn begin_block(
        &mut self,
        lines: &Lines,
        statement: Statement,
        kind: Opening,
        block: Block,
    ) -> Outcome {
        let here = Here::new(lines, self.at);
        let is_condition = kind.is_condition() && block.is_closed;
        let holds = if is_condition {
            self.holds(&here, statement, kind)
        } else {
            Ok(true)
        };
        let is_counted = is_condition && block.end.is_empty();
        if is_counted && matches!(holds, Ok(true)) {
            return Ok(());
        }
        let block = match is_counted && matches!(holds, Ok(false)) {
            true => self.up_to_else(lines, statement, block),
            false => block,
        };
        self.go_on_at(block.end.end);
        self.jobs.push(Job::Show(block.end))?;
        let is_first = holds?;
        match kind {
            Opening::Macro { has_names } => { self.keep_macro(lines, statement, has_names, block) }
            Opening::Remote => self.keep_remote(lines, statement, block.first),
            _ if !block.is_closed => self.push_run(block.first, 1, 0),
            Opening::Repeat => self.repeat(&here, statement, block.first),
            Opening::Echo => Ok(()),
            _ => self.choose(lines, block, is_first),
        }
    }

    /// Keeps the lines of a macro.
    fn keep_macro(
        &mut self,
        lines: &Lines,
        statement: Statement,
        has_names: bool,
        block: Block,
    ) -> Outcome {
        if !block.is_closed {
            self.pass_over(lines, block.first)?;
        }
        self.define_macro(
            &Here::new(lines, self.at),
            statement,
            has_names,
            block.first,
        )?;
        self.show(lines, block.first)
    }

    /// Keeps the lines of RMT.
    fn keep_remote(&mut self, lines: &Lines, statement: Statement, body: Span) -> Outcome {
        let here = Here::new(lines, self.at);
        self.show(lines, body)?;
        let name = self.vocabulary.keep(statement.location.of(here.text))?;
        Ok(self.vocabulary.add_remote(name, body)?)
    }

    /// DUP performs lines so many times.
    fn repeat(&mut self, here: &Here, statement: Statement, body: Span) -> Outcome {
        let operands = self.operands(here, statement)?;
        let operand = operands.first().copied().unwrap_or(statement.operand);
        let times = self.scope.count(here, operand, 0)?;
        self.push_repeated(body, times)
    }

    /// Performs the lines up to ELSE, or those after it.
    fn choose(&mut self, lines: &Lines, block: Block, is_first: bool) -> Outcome {
        if is_first {
            self.jobs.push(Job::Show(block.second))?;
            return self.push_run(block.first, 1, 0);
        }
        self.show(lines, block.first)?;
        self.push_run(block.second, 1, 0)
    }
}
