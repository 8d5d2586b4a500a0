//! The statements of a source and of the texts that it may read: their lines, each with those that continue it, and those that SUBR
//! makes.
ghost use Rattle.std.specs.Prelude.{◌≡◌, IfOk, map};
ghost use Rattle.pp_notation.specs.Columns.{between};
ghost use Rattle.pp_decks.specs.Cuts.{capitals_of, listed_text, without_mark, without_returns};
ghost use Rattle.pp_decks.specs.Decks.{AreOf};
ghost use Rattle.pp_lines.specs.Lines.{lines};
ghost use Rattle.pp_decks.specs.Places.{length_of, line_lengths, text_in};

use crate::blanks::{
    in_columns, is_empty, length_without_blanks, tail, without_blanks, without_end,
};
use crate::decks::{Decks, Text, lines_of_name, up_to_endx};
use crate::spans::Span;
use std::alloc::{AllocError, Global};

/// How many lines continue one.
const MOST_JOINS: usize = 9;
/// What some editors put before a text.
const MARK: &[u8; 3] = b"\xef\xbb\xbf";
/// The macro SUBR, before the lines of a source: a subroutine's exit, whose second word is its entry.
static SUBR: [&[u8]; SUBR_LINES] = [
    b"          MACRO  SUBR,A",
    b" A_X      LJM    *",
    b" A        EQU    *-1",
    b"          ENDM",
];
/// How many lines it has.
const SUBR_LINES: usize = 4;

/// The column, from 0, at which another line of the source goes on, its number, and its column there, from 1.
#[derive(Clone, Copy)]
pub struct Join {
    pub column: usize,
    pub number: u32,
    pub first: usize,
}

/// The call of a macro that made a line, or the XTEXT of the common deck that has it: its column, from 0, and where the name is.
#[derive(Clone, Copy)]
pub struct Call {
    pub column: usize,
    pub name: Span,
    pub is_deck: bool,
}

/// A line with those that continue it, or a line that another one made.
#[derive(Clone, Copy, Default)]
pub struct Line {
    /// The number of its first line, from 1, in the source or in its system text.
    pub number: u32,
    /// Where its text is, as the listing has it.
    pub text: Span,
    /// Where it is in capitals, with what its micros stand for.
    pub read: Span,
    /// Where its joins are.
    pub joins: Span,
    pub call: Option<Call>,
    /// Where the name of its system text is, in the text of all lines. It is empty if the line is of no such text.
    pub system: Span,
}

/// The lines of a source and of the texts that it may read, with their text and the same in capitals.
#[derive(Drop)]
pub struct Lines {
    pub text: Vec<u8>,
    pub capitals: Vec<u8>,
    pub joins: Vec<Join>,
    pub all: Vec<Line>,
    /// The lines of the source.
    pub source: Span,
    /// How many lines no other one made: those of SUBR, of the source and of its texts.
    pub own: usize,
}

impl Lines {
    fn new(alloc: Global) -> Self {
        Lines {
            text: Vec::new(alloc),
            capitals: Vec::new(alloc),
            joins: Vec::new(alloc),
            all: Vec::new(alloc),
            source: Span::none(),
            own: 0,
        }
    }

    /// Returns the text of a line in capitals.
    pub fn capitals_of(&self, line: Line) -> &[u8]
        ensures { result.now ≡ capitals_of self.now line }
    {
        line.read.of(&self.capitals)
    }

    /// Returns the text of a line.
    pub fn text_of(&self, line: Line) -> &[u8]
        ensures { result.now ≡ listed_text self.now line }
    {
        line.text.of(&self.text)
    }

    /// Returns the joins of a line.
    pub fn joins_of(&self, line: Line) -> &[Join] {
        let Span { first, end } = line.joins;
        self.joins.get(first..end).unwrap_or(&[])
    }

    /// Returns a part of the line with an index, in capitals.
    pub fn part_of(&self, index: usize, part: Span) -> &[u8] {
        let line = self.all.get(index).copied().unwrap_or_default();
        part.of(self.capitals_of(line))
    }

    fn add_text(&mut self, bytes: &[u8]) -> Result<(), AllocError> {
        self.text.extend_from_slice(bytes)?;
        for byte in bytes {
            self.capitals.push(byte.to_ascii_uppercase())?;
        }
        Ok(())
    }

    /// Adds a line with another text, and returns its index.
    pub fn add(&mut self, mut line: Line, bytes: &[u8]) -> Result<usize, AllocError> {
        let first = self.text.len();
        self.add_text(bytes)?;
        line.text = Span::new(first, self.text.len());
        line.read = line.text;
        self.all.push(line)?;
        Ok(self.all.len().wrapping_sub(1))
    }

    /// Adds a line that is read otherwise than the listing has it, and returns its index.
    pub fn add_read(&mut self, line: Line, bytes: &[u8]) -> Result<usize, AllocError> {
        let index = self.add(line, bytes)?;
        if let Some(last) = self.all.last_mut() {
            last.text = line.text;
        }
        Ok(index)
    }

    /// Adds joins, and one more behind them, and returns where they are.
    pub fn add_joins(&mut self, joins: Span, last: Join) -> Result<Span, AllocError> {
        let first = self.joins.len();
        for index in joins.first..joins.end {
            if let Some(join) = self.joins.get(index).copied() {
                self.joins.push(join)?;
            }
        }
        self.joins.push(last)?;
        Ok(Span::new(first, self.joins.len()))
    }

    /// Adds a line, which may be of a system text with a name.
    fn add_line(&mut self, number: u32, system: Span, bytes: &[u8]) -> Result<(), AllocError> {
        let mut line = Line::default();
        line.number = number;
        line.system = system;
        line.joins = Span::new(self.joins.len(), self.joins.len());
        self.add(line, bytes)?;
        Ok(())
    }

    /// Forgets the lines that others made.
    pub fn forget_made(&mut self) {
        self.all.truncate(self.own);
        if let Some(last) = self.all.last().copied() {
            self.text.truncate(last.text.end);
            self.capitals.truncate(last.text.end);
            self.joins.truncate(last.joins.end);
        }
    }

    /// Returns the last line of a text, whose first one has an index, if another one may continue it.
    fn continued(&self, first: usize) -> Option<Line> {
        let line = *self.all.get(first..)?.last()?;
        let text = self.text_of(line);
        let is_note = text.first() == Some(&b'*') || is_empty(text);
        (!is_note && self.joins_of(line).len() < MOST_JOINS).then_some(line)
    }

    /// Adds a line that continues the last one, which goes on after its last symbol.
    fn join(&mut self, number: u32, last: Line, bytes: &[u8]) -> Result<(), AllocError> {
        let text = self.text_of(last);
        let column = if last.joins.is_empty() {
            length_without_blanks(in_columns(text))
        } else {
            text.len()
        };
        let end = last.text.first.saturating_add(column);
        self.text.truncate(end);
        self.capitals.truncate(end);
        let more = tail(in_columns(bytes), 1);
        self.add_text(without_blanks(more))?;
        let first = 2; // its comma is in column 1
        self.joins.push(Join {
            column,
            number,
            first,
        })?;
        if let Some(line) = self.all.last_mut() {
            line.joins.end = self.joins.len();
            line.text.end = self.text.len();
            line.read = line.text;
        }
        Ok(())
    }

    /// Adds the lines of a text, each with those that continue it, and returns where they are. So many lines are before them; the
    /// text may be one of a system, with a name.
    fn add_lines(
        &mut self,
        source: &[u8],
        spans: &[Span],
        before: u32,
        system: Span,
    ) -> Result<Span, AllocError> {
        let first = self.all.len();
        let mut number = before;
        for span in spans {
            number = number.saturating_add(1);
            let mut bytes = without_returns(span.of(source));
            if number == 1 {
                bytes = without_mark(bytes);
            }
            match self.continued(first) {
                Some(last) if bytes.first() == Some(&b',') => self.join(number, last, bytes)?,
                _ => self.add_line(number, system, bytes)?,
            }
        }
        Ok(Span::new(first, self.all.len()))
    }

    /// Adds the lines of a common deck, or of a system text with a name, and returns where they are.
    fn add_deck(&mut self, alloc: Global, text: &[u8], system: Span) -> Result<Span, AllocError> {
        let text = without_mark(text);
        let spans = cut_lines(alloc, text)?;
        let before = u32::try_from(lines_of_name(text, &spans)).unwrap_or(0);
        self.add_lines(text, up_to_endx(text, &spans), before, system)
    }

    /// Adds the name of a text, if it is one of a system, to the text of all lines, and returns where it is.
    fn add_name(&mut self, text: Text) -> Result<Span, AllocError> {
        let first = self.text.len();
        if let Some(name) = text.system_name() {
            self.add_text(name)?;
        }
        Ok(Span::new(first, self.text.len()))
    }
}

/// Returns a text without what some editors put before it.
pub fn without_mark(text: &[u8]) -> &[u8]
    ensures { result.now ≡ without_mark text.now }
{
    if text.starts_with(MARK.as_slice()) {
        tail(text, MARK.len())
    } else {
        text
    }
}

/// Returns a line without the carriage returns at its end.
pub fn without_returns(line: &[u8]) -> &[u8]
    ensures { result.now ≡ without_returns line.now }
{
    without_end(b"\r", line)
}

/// Returns where the lines of a source are, each without its line feed.
pub fn cut_lines(alloc: Global, source: &[u8]) -> Result<Vec<Span>, AllocError>
    ensures lengths { IfOk result (λ spans. map length_of spans.items ≡ line_lengths source.now) }
    ensures texts { IfOk result (λ spans. map (text_in source.now) spans.items ≡ lines source.now) }
{
    let mut spans = Vec::new(alloc);
    let mut first: usize = 0;
    for at in 0..source.len() {
        if source[at] == b'\n' {
            spans.push(Span { first, end: at })?;
            first = at + 1;
        }
    }
    if first < source.len() {
        spans.push(Span {
            first,
            end: source.len(),
        })?;
    }
    Ok(spans)
}

/// Returns the lines of SUBR, those of a source and those of its texts, each with those that continue it, and these texts.
pub fn read_lines(
    alloc: Global,
    source: &[u8],
    spans: &[Span],
    texts: &[Text],
) -> Result<(Lines, Decks), AllocError>
    ensures decks { IfOk result (λ read. AreOf texts.now read.1.all.items) }
{
    let mut lines = Lines::new(alloc);
    for line in &SUBR {
        lines.add_line(0, Span::none(), line)?;
    }
    lines.source = lines.add_lines(source, spans, 0, Span::none())?;
    let mut decks = Decks::new(alloc);
    for index in 0..texts.len() {
        let text = texts[index];
        let system = lines.add_name(text)?;
        let read = lines.add_deck(alloc, text.lines, system)?;
        decks.add(alloc, text.name, read)?;
    }
    lines.own = lines.all.len();
    Ok((lines, decks))
}
