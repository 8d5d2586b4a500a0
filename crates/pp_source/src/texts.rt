//! Texts in display code: 3HABC, 0HABC up to a comma or a blank, H*ABC* between two equal symbols.
ghost use Rattle.std.specs.Prelude.{◌≡◌, ◌+◌, ◌-◌, ◌<◌, ◌≤◌, ◌^◌, IfOk, IfSome, Some, is_ok, length, drop, min, option_map, pos, slice_index_or, take};
ghost use Rattle.std.specs.List.{position};
ghost use Rattle.pp_notation.specs.Digits.{number_of_codes};
ghost use Rattle.pp_source.specs.Numbers.{kept};
ghost use Rattle.pp_source.specs.Scan.{index_of};
ghost use Rattle.pp_source.specs.Texts.{are_in_code, code_or_blank, codes_of, counted, fill, filled, has_no_code, is_at_end, is_kind};
ghost use Rattle.pp_source.specs.Texts.{marked, read_of, size_in_words, symbols_read, text_at, word_size};

use crate::message::{Fault, Outcome, Stop};
use crate::numbers::with_digit;
use crate::scan::{digits_of, index_of, is_alphanumeric, is_blank};
use crate::wordings::Wording;
use pp_decks::tail;
pub use pp_notation::code_of_symbol as code_of;

/// How many symbols a line has. Blanks at its end may be lost.
const LONGEST: usize = 72;

/// The display code of a blank.
const BLANK: u8 = 0o55;

/// A text: its kind, its symbols, how many it has with blanks that the line has lost, and the column after it.
#[derive(Clone, Copy)]
pub struct DisplayText<'a> {
    pub kind: u8,
    pub symbols: &'a [u8],
    pub count: usize,
    pub end: usize,
}

impl<'a> DisplayText<'a> {
    pub fn new(kind: u8, symbols: &'a [u8], count: usize, end: usize) -> Self
        ensures kind { result.kind ≡ kind }
        ensures symbols { result.symbols.now ≡ symbols.now }
        ensures count { result.count ≡ count }
        ensures end { result.end ≡ end }
    {
        DisplayText {
            kind,
            symbols,
            count,
            end,
        }
    }

    /// Returns how many codes fill whole words. C ends in a word of zero, Z in a symbol of zero at least.
    pub fn size_in_words(self) -> usize
        ensures { self.entry.count < 2 ^ 63 → result ≡ size_in_words self.entry.kind self.entry.count }
    {
        let size = self.count.saturating_add(match self.kind {
            b'C' => 2,
            b'Z' => 1,
            _ => 0,
        });
        size.saturating_add(size % 2)
    }

    /// Returns the code at an index of the text filled up to a size: H and A with blanks, the others with zeros; R and A before it.
    #[tactic(auto, using(crate::proofs::Filling::at_before, crate::proofs::Filling::at_after, crate::proofs::Filling::at_behind))]
    pub fn code(self, index: usize, size: usize) -> u8
        ensures { result ≡ slice_index_or (filled size self.entry.kind self.entry.count self.entry.symbols.now) index (fill self.entry.kind) }
    {
        if !is_at_end(self.kind) {
            return self.own_code(index);
        }
        let before = size.saturating_sub(self.count);
        if index < before {
            fill_of(self.kind)
        } else {
            self.own_code(index - before)
        }
    }

    /// Returns the code at an index of the text with the blanks that its line has lost, or else what fills it.
    #[tactic(auto, using(crate::proofs::Filling::own, crate::proofs::Filling::lost, crate::proofs::Filling::beyond))]
    fn own_code(self, at: usize) -> u8
        ensures { result ≡ slice_index_or (codes_of self.entry.symbols.now self.entry.count) at (fill self.entry.kind) }
    {
        if at < self.symbols.len() {
            code_or_blank(self.symbols[at])
        } else if at < self.count {
            BLANK
        } else {
            fill_of(self.kind)
        }
    }

    /// Returns the codes of the filled text as one number, if it is not too great.
    #[tactic(auto, using(crate::proofs::Filling::are_too_many, crate::proofs::Filling::is_long))]
    pub fn number(self, size: usize) -> Option<i64>
        ensures { result ≡ kept (pos (number_of_codes (take size (filled size self.entry.kind self.entry.count self.entry.symbols.now)))) }
    {
        let mut number: u64 = 0;
        for index in 0..size {
            let Some(next) = with_digit(number, 0o100, self.code(index, size)) else {
                return None;
            };
            number = next;
        }
        Some(number as i64)
    }
}

/// Returns the code of a symbol, or that of a blank if it has none.
fn code_or_blank(symbol: u8) -> u8
    ensures { result ≡ code_or_blank symbol }
{
    code_of(symbol).unwrap_or(BLANK)
}

/// Returns the code that fills a text.
fn fill_of(kind: u8) -> u8
    ensures { result ≡ fill kind }
{
    if b"HA".contains(&kind) { BLANK } else { 0 }
}

/// Returns whether a text is at the end of what is filled.
fn is_at_end(kind: u8) -> bool
    ensures { result ≡ is_at_end kind }
{
    b"RA".contains(&kind)
}

fn is_kind(symbol: u8) -> bool
    ensures { result ≡ is_kind symbol }
{
    b"HLRACZ".contains(&symbol)
}

/// Returns the column that is so many symbols behind another one.
#[tactic(auto, using(crate::proofs::Columns::far_column))]
fn column_after(line: &[u8], at: usize, size: usize) -> usize
    ensures rest { drop result line.now ≡ drop size (drop at line.now) }
    ensures column { result ≡ min (at + size) (2 ^ 64 - 1) }
{
    at.saturating_add(size)
}

/// Returns the text that begins at a column, if one does. One between two symbols is a text only where that is allowed.
#[tactic(auto, unfolding(crate::specs::Texts::text_at))]
pub fn text_at(line: &[u8], at: usize, is_delimited: bool) -> Outcome<Option<DisplayText<'_>>>
    ensures text { read_of line.now result ≡ text_at (72 - length line.now) is_delimited (drop at line.now) }
    ensures end { IfOk result (λ found. IfSome found (λ text. text.end ≤ length line.now)) }
{
    let (digits, count) = digits_of(tail(line, at), 9);
    let start = column_after(line, at, digits);
    let [kind, ..] = tail(line, start) else {
        return Ok(None);
    };
    let first = column_after(line, start, 1);
    if !is_kind(*kind) {
        Ok(None)
    } else if digits != 0 {
        counted(line, at, *kind, first, count)
    } else if is_delimited {
        marked(line, at, *kind, first)
    } else {
        Ok(None)
    }
}

/// Returns the text between two equal symbols behind its kind, if the first one is no letter, digit or blank.
#[tactic(auto, using(crate::proofs::Columns::between_marks))]
fn marked(line: &[u8], at: usize, kind: u8, first: usize) -> Outcome<Option<DisplayText<'_>>>
    ensures text { read_of line.now result ≡ marked kind (drop first line.now) }
    ensures end { IfOk result (λ found. IfSome found (λ text. text.end ≤ length line.now)) }
{
    let [mark, rest @ ..] = tail(line, first) else {
        return Ok(None);
    };
    if is_alphanumeric(*mark) || *mark == b' ' {
        return Ok(None);
    }
    let Some(size) = index_of(rest, *mark) else {
        return Err(without_end(*mark, at));
    };
    let end = column_after(line, first, size.saturating_add(2));
    Ok(Some(DisplayText::new(kind, &rest[..size], size, end)))
}

/// Returns how many symbols a text has before the first comma or blank.
fn word_size(text: &[u8]) -> usize
    ensures { result ≡ word_size text.now }
{
    text.iter()
        .take_while(|symbol| !is_blank(**symbol) && **symbol != b',')
        .count()
}

/// Returns the text of so many symbols.
#[tactic(auto, using(crate::proofs::Columns::from_column))]
fn counted(
    line: &[u8],
    at: usize,
    kind: u8,
    first: usize,
    count: u32,
) -> Outcome<Option<DisplayText<'_>>>
    ensures text { read_of line.now result ≡ option_map Some (counted (72 - length line.now) count kind (drop first line.now)) }
    ensures end { IfOk result (λ found. IfSome found (λ text. text.end ≤ length line.now)) }
{
    let text = tail(line, first);
    let size = if count == 0 {
        word_size(text)
    } else {
        count as usize
    };
    let lost = LONGEST.saturating_sub(line.len());
    if size > text.len().saturating_add(lost) {
        return Err(Fault::new(Wording::ShortText).decimal(count).at(at));
    }
    let end = first.saturating_add(size).min(line.len());
    let symbols = text.get(..size).unwrap_or(text);
    Ok(Some(DisplayText::new(kind, symbols, size, end)))
}

/// Returns the symbols before a mark. Without it, a column has a fault.
pub fn before_mark(text: &[u8], mark: u8, column: usize) -> Outcome<&[u8]>
    ensures symbols { symbols_read result ≡ option_map (λ size. take size text.now) (index_of mark text.now) }
    ensures within { IfOk result (λ symbols. length symbols.now < length text.now) }
{
    match index_of(text, mark) {
        Some(size) => Ok(&text[..size]),
        None => Err(without_end(mark, column)),
    }
}

/// Returns that a text at a column has no mark at its end.
fn without_end(mark: u8, column: usize) -> Stop {
    Fault::new(Wording::TextWithoutEnd).symbol(mark).at(column)
}

/// Returns that a symbol has no display code.
pub fn no_code(symbol: u8) -> Fault {
    Fault::new(Wording::NoDisplayCode).symbol(symbol)
}

/// Returns that a column has a fault if a symbol of a text has no display code.
pub fn are_in_code(symbols: &[u8], column: usize) -> Outcome
    ensures { is_ok result ≡ are_in_code symbols.now }
{
    match first_without_code(symbols) {
        Some(index) => Err(no_code(symbols[index]).at(column)),
        None => Ok(()),
    }
}

/// Returns the index of the first symbol that has no display code.
fn first_without_code(symbols: &[u8]) -> Option<usize>
    ensures index { result ≡ position has_no_code symbols.now }
    ensures within { IfSome result (λ index. index < length symbols.now) }
{
    symbols.iter().position(|symbol| has_no_code(*symbol))
}

fn has_no_code(symbol: u8) -> bool
    ensures { result ≡ has_no_code symbol }
{
    code_of(symbol).is_none()
}
