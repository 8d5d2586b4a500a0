//! Whether lines are those of a text, cut at its line feeds, each with those that continue it.
ghost use Rattle.std.specs.Prelude.{ℕ, ◌≡◌, ◌<◌, ◌++◌, List, IfOk, IsTrue, length, map};
ghost use Rattle.std.specs.Char.{to_ascii_uppercase};
ghost use Rattle.std.specs.List.{flat_map};
ghost use Rattle.pp_notation.specs.Columns.{between};
ghost use Rattle.pp_decks.specs.Cuts.{AreCut, IsCut, IsJoined, capitals_of, continued, first_part, joined, listed_text, number_at};
ghost use Rattle.pp_decks.specs.Cuts.{read_text};
ghost use Rattle.pp_decks.specs.Places.{text_in};

use crate::blanks::{in_columns, tail, without_blanks};
use crate::lines::{Line, Lines, without_mark, without_returns};
use crate::spans::Span;
use std::alloc::{AllocError, Global};

/// Returns a line as it is read, which has a number in its text.
fn read_text(number: usize, line: &[u8]) -> &[u8]
    ensures { result.now ≡ read_text number line.now }
{
    let line = without_returns(line);
    if number == 1 {
        without_mark(line)
    } else {
        line
    }
}

/// Returns what a statement has of its first line, if others continue it.
fn first_part(line: &[u8]) -> &[u8]
    ensures { result.now ≡ first_part line.now }
{
    without_blanks(in_columns(line))
}

/// Returns what a statement has of a line that continues it.
fn continued(line: &[u8]) -> &[u8]
    ensures { result.now ≡ continued line.now }
{
    without_blanks(tail(in_columns(without_returns(line)), 1))
}

/// Returns the text of a line with others that continue it.
fn with_others(
    alloc: Global,
    line: &[u8],
    source: &[u8],
    others: &[Span],
) -> Result<Vec<u8>, AllocError>
    ensures { IfOk result (λ made. made.items ≡
        first_part line.now ++ flat_map (λ span. continued (text_in source.now span)) others.now) }
{
    let mut text = Vec::from_slice(alloc, first_part(line))?;
    for span in others {
        text.extend_from_slice(continued(span.of(source)))?;
    }
    Ok(text)
}

/// Returns the text of some lines of a source, of which the first one has a number.
fn joined(
    alloc: Global,
    number: usize,
    source: &[u8],
    spans: &[Span],
) -> Result<Vec<u8>, AllocError>
    ensures { IfOk result (λ made. made.items ≡ joined number (map (text_in source.now) spans.now)) }
{
    match spans {
        [] => Ok(Vec::new(alloc)),
        [one] => Vec::from_slice(alloc, read_text(number, one.of(source))),
        [one, _, ..] => {
            let line = read_text(number, one.of(source));
            with_others(alloc, line, source, &spans[1..])
        }
    }
}

/// Returns whether a line is read as the listing has it, in capitals.
fn is_read(alloc: Global, lines: &Lines, line: Line) -> Result<bool, AllocError>
    ensures { IfOk result (λ right. IsTrue right →
        (capitals_of lines.now line ≡ map to_ascii_uppercase (listed_text lines.now line))) }
{
    let read = lines.text_of(line).to_ascii_uppercase(alloc)?;
    Ok(lines.capitals_of(line) == read.as_slice())
}

/// Returns a part of the lines of a text, or none if there is no such part.
fn part(spans: &[Span], first: usize, end: usize) -> &[Span]
    ensures { result.now ≡ between spans.now first end }
{
    spans.get(first..end).unwrap_or(&[])
}

/// Returns whether a line has the text of those from its number on to before another number.
fn is_joined(
    alloc: Global,
    lines: &Lines,
    source: &[u8],
    spans: &[Span],
    line: Line,
    next: usize,
) -> Result<bool, AllocError>
    ensures { IfOk result (λ right. IsTrue right → IsJoined lines.now (map (text_in source.now) spans.now) line next) }
{
    let number = line.number as usize;
    if number >= next {
        return Ok(false);
    }
    let own = part(spans, number.saturating_sub(1), next - 1);
    let text = joined(alloc, number, source, own)?;
    if !is_read(alloc, lines, line)? {
        return Ok(false);
    }
    Ok(lines.text_of(line) == text.as_slice())
}

/// Returns the number of the line at an index, of some lines of a text.
fn number_at(spans: &[Span], own: &[Line], at: usize) -> usize
    ensures { (source : List ℕ) → result ≡ number_at (map (text_in source) spans.now) own.now at }
{
    match own.get(at) {
        Some(line) => line.number as usize,
        None => spans.len() + 1,
    }
}

/// Returns whether the line at an index has its text, of some lines of a text.
fn is_cut(
    alloc: Global,
    lines: &Lines,
    source: &[u8],
    spans: &[Span],
    own: &[Line],
    at: usize,
) -> Result<bool, AllocError>
    requires { at < length own.now }
    ensures { IfOk result (λ right. IsTrue right → IsCut lines.now (map (text_in source.now) spans.now) own.now at) }
{
    let next = number_at(spans, own, at + 1);
    match own.get(at) {
        Some(line) => is_joined(alloc, lines, source, spans, *line, next),
        None => Ok(false),
    }
}

/// Returns whether some lines are those of a text, from an index on.
///
/// # Errors
/// Memory ran out.
pub fn are_cut(
    alloc: Global,
    lines: &Lines,
    source: &[u8],
    spans: &[Span],
    first: usize,
    own: &[Line],
) -> Result<bool, AllocError>
    ensures { IfOk result (λ right. IsTrue right → AreCut lines.now (map (text_in source.now) spans.now) first own.now) }
{
    let number = number_at(spans, own, 0);
    if number == 0 || number - 1 != first {
        return Ok(false);
    }
    for at in 0..own.len() {
        if !is_cut(alloc, lines, source, spans, own, at)? {
            return Ok(false);
        }
    }
    Ok(true)
}
