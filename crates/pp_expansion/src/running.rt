//! The order in which lines are performed: those of a source, and those that other lines repeat, choose or make.
use crate::pass::Pass;
use crate::remote::name_after_call;
use pp_decks::{Decks, Join, LAST_COLUMN, Line, Lines, Span};
use pp_source::{
    FIRST_OF_COMMENTS, Field, Here, Message, Operation, Origin, Outcome, Statement, Stop, Wording,
    operation_of, statement_of,
};
use pp_statements::{Cut, MOST_STATEMENTS, is_known, too_many_statements};

/// How many blocks and calls are within one another.
const MOST_NESTED: u32 = 100;
/// How many jobs there are at most: each statement has a few.
const MOST_JOBS: u32 = 10 * MOST_STATEMENTS;

/// Lines that are performed so many times, with the next one, and how many runs and calls of macros they are within.
#[derive(Clone, Copy)]
pub struct Run {
    pub all: Span,
    pub next: usize,
    pub times: i64,
    pub level: u32,
    pub calls: u32,
    /// They are those of a DUP, or one round of an ECHO.
    pub is_repeated: bool,
}

/// What is still to be done.
#[derive(Clone, Copy)]
pub enum Job {
    Run(Run),
    /// The listing has lines that make nothing.
    Show(Span),
    /// The statement END, of a line, after the lines of RMT.
    End(usize, Statement, Option<Cut>),
}

impl Run {
    /// Returns a run that is in no other one.
    pub fn new() -> Self {
        Run {
            all: Span::none(),
            next: 0,
            times: 1,
            level: 0,
            calls: 0,
            is_repeated: false,
        }
    }
}

impl Pass {
    /// Performs all lines. Returns what ends the pass early.
    pub fn run(&mut self, lines: &mut Lines, decks: &Decks) -> Result<(), Ending> {
        lines.forget_made();
        let source = lines.source;
        self.run_all(lines, decks, Span::new(0, source.first))?;
        self.scope.output.rows.clear();
        for index in 0..decks.all.len() {
            if let Some(text) = decks.system_text(index) {
                self.run_text(lines, decks, text)?;
                self.end_system()?;
            }
        }
        self.scope.symbols.begin_source();
        self.run_text(lines, decks, source)?;
        if self.scope.programs.has_ended {
            return Ok(());
        }
        let ended = self.scope.end_unit(&Here::new(lines, self.at));
        ended.or_else(|stop| self.stopped(lines, stop))
    }

    /// Performs the lines of a text, and at its end those of RMT.
    fn run_text(&mut self, lines: &mut Lines, decks: &Decks, text: Span) -> Result<(), Ending> {
        self.run_all(lines, decks, text)?;
        if self.scope.programs.has_ended {
            return Ok(());
        }
        match self.all_remote(lines) {
            Ok(rest) => self.run_all(lines, decks, rest),
            Err(stop) => self.stopped(lines, stop),
        }
    }

    /// Ends a system text, of which the names, macros and micros stay.
    fn end_system(&mut self) -> Result<(), Ending> {
        self.vocabulary.forget_remote();
        self.vocabulary.comments = FIRST_OF_COMMENTS;
        match self.scope.end_system() {
            Ok(()) => Ok(()),
            Err(_) => Err(Ending::NoMemory),
        }
    }

    /// Performs lines, and those that they make.
    fn run_all(&mut self, lines: &mut Lines, decks: &Decks, span: Span) -> Result<(), Ending> {
        self.present = Run::new();
        if let Err(stop) = self.push_run(span, 1, 0) {
            return self.stopped(lines, stop);
        }
        for _ in 0..MOST_JOBS {
            let Some(job) = self.jobs.pop() else {
                return Ok(());
            };
            if let Err(stop) = self.perform_job(lines, decks, job) {
                self.stopped(lines, stop)?;
            }
        }
        self.stopped(lines, too_many_statements())
    }

    /// Keeps why a line has not been performed, or returns what ends the pass.
    fn stopped(&mut self, lines: &Lines, stop: Stop) -> Result<(), Ending> {
        let here = Here::new(lines, self.at);
        match self.scope.report_stop(&here, stop) {
            Ok(()) => Ok(()),
            Err(Stop::Ends(column, fault)) => Err(Ending::At(here.message(column, fault))),
            Err(Stop::TooMuch(fault)) => Err(Ending::At(here.last_message(fault))),
            Err(_) => Err(Ending::NoMemory),
        }
    }

    fn perform_job(&mut self, lines: &mut Lines, decks: &Decks, job: Job) -> Outcome {
        match job {
            Job::Show(span) => self.show(lines, span),
            Job::End(index, statement, cut) => {
                self.at = index;
                self.scope.output.cut = cut;
                self.scope.end(&Here::new(lines, index), statement)
            }
            Job::Run(run) if run.next < run.all.end => {
                self.at = run.next;
                self.present = Run {
                    next: run.next.saturating_add(1),
                    ..run
                };
                self.jobs.push(Job::Run(self.present))?;
                self.perform(lines, decks)
            }
            Job::Run(run) if run.times > 1 && !run.all.is_empty() => {
                let times = run.times.wrapping_sub(1);
                let next = run.all.first;
                Ok(self.jobs.push(Job::Run(Run { next, times, ..run }))?)
            }
            Job::Run(_) => Ok(()),
        }
    }

    /// Lets lines be performed next, so many times, in the present ones or in a call of a macro more.
    pub fn push_run(&mut self, all: Span, times: i64, calls: u32) -> Outcome {
        if self.present.level >= MOST_NESTED {
            return Err(Stop::too_much(Wording::DeepLines));
        }
        if times < 1 {
            return Ok(());
        }
        let run = Run {
            all,
            next: all.first,
            times,
            level: self.present.level.saturating_add(1),
            calls: self.present.calls.saturating_add(calls),
            is_repeated: false,
        };
        Ok(self.jobs.push(Job::Run(run))?)
    }

    /// Lets lines of a DUP or an ECHO be performed next, so many times.
    pub fn push_repeated(&mut self, all: Span, times: i64) -> Outcome {
        let index = self.jobs.len();
        self.push_run(all, times, 0)?;
        if let Some(Job::Run(run)) = self.jobs.get_mut(index) {
            run.is_repeated = true;
        }
        Ok(())
    }

    /// STOPDUP lets the innermost DUP or ECHO end after its present round.
    pub fn stop_repetition(&mut self, here: &Here, statement: Statement) -> Outcome {
        let mut level = None;
        for job in self.jobs.iter_mut().rev() {
            let Job::Run(run) = job else {
                continue;
            };
            match level {
                None if run.is_repeated => level = Some(run.level),
                None => continue,
                // The rounds of an ECHO that are still to come are beside the present one.
                Some(level) if run.is_repeated && run.level == level => run.next = run.all.end,
                Some(_) => break,
            }
            run.times = 1;
        }
        if level.is_none() {
            return Err(Stop::of(Wording::EndsNothing, statement.operation));
        }
        self.scope.plain_row(here, false)
    }

    /// Lets the present run go on at a line, after those that belong to the present one.
    pub fn go_on_at(&mut self, next: usize) {
        if let Some(Job::Run(run)) = self.jobs.last_mut() {
            run.next = next;
        }
    }

    /// Puts lines that make nothing into the listing.
    pub fn show(&mut self, lines: &Lines, span: Span) -> Outcome {
        for index in span.first..span.end {
            self.at = index;
            self.scope.plain_row(&Here::new(lines, index), false)?;
            if let Some(row) = self.scope.output.rows.last_mut() {
                row.is_performed = false;
            }
        }
        Ok(())
    }

    /// Keeps the names of lines that a fault leaves out, so that these are not said to be missing too.
    pub fn pass_over(&mut self, lines: &Lines, span: Span) -> Outcome {
        for index in span.first..span.end {
            let here = Here::new(lines, index);
            if let Ok(Some(statement)) = self.statement(&here) {
                self.scope
                    .symbols
                    .pass_over(statement.location.of(here.text))?;
            }
        }
        Ok(())
    }

    /// Performs the present line.
    fn perform(&mut self, lines: &mut Lines, decks: &Decks) -> Outcome {
        self.scope.count_statement()?;
        self.scope.output.cut = None;
        if let Some(name) = name_after_call(lines, decks, self.at) {
            return self.read_deck(lines, decks, name, 0);
        }
        self.replace_micros(lines)?;
        let Some(fields) = self.present_statement(lines)? else {
            return Ok(());
        };
        let called = self
            .vocabulary
            .macro_of(lines.part_of(self.at, fields.operation));
        let statement = match called {
            Some(_) => fields,
            None => self.renamed(lines, fields)?,
        };
        self.scope.output.cut = Some(Cut {
            fields,
            name: statement.operation,
            is_call: called.is_some(),
            has_renamed: false,
        });
        match called {
            Some(called) => self.call(lines, statement, called),
            None => self.perform_operation(lines, decks, statement),
        }
    }

    /// Performs a statement of the present line that calls no macro.
    fn perform_operation(
        &mut self,
        lines: &mut Lines,
        decks: &Decks,
        statement: Statement,
    ) -> Outcome {
        let name = lines.part_of(self.at, statement.operation);
        match operation_of(name) {
            Operation::Block(opening) => self.block(lines, statement, opening),
            Operation::Lines(directive) => self.elsewhere(lines, decks, statement, directive),
            Operation::End => {
                let rest = self.all_remote(lines)?;
                let cut = self.scope.output.cut;
                self.jobs.push(Job::End(self.at, statement, cut))?;
                self.push_run(rest, 1, 0)
            }
            Operation::Micro => self.name_text(&Here::new(lines, self.at), statement),
            Operation::NumberMicro { is_decimal } => {
                self.name_digits(&Here::new(lines, self.at), statement, is_decimal)
            }
            Operation::MicroCount => self.count_micro(&Here::new(lines, self.at), statement),
            Operation::Inside if matches!(name, b"ELSE") && !statement.operand.is_empty() => {
                self.pass_else(lines, statement)
            }
            operation => self
                .scope
                .one(&Here::new(lines, self.at), statement, operation),
        }
    }

    /// Returns the statement of the present line, if it is one that is performed.
    fn present_statement(&mut self, lines: &Lines) -> Outcome<Option<Statement>> {
        let here = Here::new(lines, self.at);
        match self.statement(&here)? {
            Some(statement)
                if self.scope.programs.has_ended && !self.begins_program(&here, statement) => {
                self.scope.after_end(&here, statement)?
            }
            Some(statement) => {
                is_known(&here, statement)?;
                return Ok(Some(statement));
            }
            None => self.scope.plain_row(&here, false)?,
        }
        Ok(None)
    }

    /// Returns whether a statement is IDENT.
    fn begins_program(&self, here: &Here, statement: Statement) -> bool {
        let words = &self.vocabulary;
        let name = statement.operation.of(here.text);
        let meant = words
            .synonym_of(name)
            .map_or(name, |kept| words.text_of(kept));
        words.macro_of(name).is_none() && matches!(operation_of(meant), Operation::Name)
    }

    /// Returns the statement of a line, as it stands there.
    pub fn statement(&self, here: &Here) -> Outcome<Option<Statement>> {
        let origin = match here.line.call {
            Some(call) if !call.is_deck => Origin::Made,
            _ if here.joins.is_empty() => Origin::Source,
            _ => Origin::Joined,
        };
        statement_of(here.text, origin, &self.vocabulary)
    }

    /// Returns a statement with the operation that OPSYN names. The line is then read with that name behind its last column.
    fn renamed(&mut self, lines: &mut Lines, statement: Statement) -> Outcome<Statement> {
        let here = Here::new(lines, self.at);
        let words = &mut self.vocabulary;
        let Some(name) = words.synonym_of(statement.operation.of(here.text)) else {
            return Ok(statement);
        };
        words.made.clear();
        words.made.extend_from_slice(here.text)?;
        for _ in here.text.len()..LAST_COLUMN {
            words.made.push(b' ')?;
        }
        words.made.push(b' ')?;
        let column = words.made.len();
        words.add_kept(name)?;
        let (number, first) = here.place_of(statement.operation.first);
        let line = here.line;
        let join = Join {
            column,
            number,
            first,
        };
        let joins = lines.add_joins(line.joins, join)?;
        self.at = lines.add_read(Line { joins, ..line }, &words.made)?;
        let operation = Field::new(column, words.made.len());
        Ok(Statement {
            operation,
            ..statement
        })
    }
}

/// Why a pass does not go on.
#[derive(Clone, Copy)]
pub enum Ending {
    /// A fault after which nothing is assembled.
    At(Message),
    /// Memory ran out.
    NoMemory,
}
