//! Texts in display code.
ghost use Rattle.std.specs.Prelude.{◌≡◌, ◌++◌, ◌==◌, ◌-◌, ◌+◌, ◌*◌, IfOk, IfSome, IsTrue, OnOk};
ghost use Rattle.std.specs.Prelude.{Some, length, map, pos, replicate, true};
ghost use Rattle.pp_notation.specs.DisplayCode.{symbol};
ghost use Rattle.pp_meaning.specs.Numbers.{decimal_number};
ghost use Rattle.pp_meaning.specs.Texts.{are_codes, count_words, display, display_words, filled, filled_with, is_cut, is_ended};
ghost use Rattle.pp_meaning.specs.Texts.{is_mark, is_whole, is_without, is_word, least_size, number_from_codes, pairs, text_number};
ghost use Rattle.pp_meaning.specs.Texts.{text_words, text_after, text_with, whole_words};

use crate::numbers::decimal_value;
use pp_notation::symbol_of;
use std::alloc::{AllocError, Global};

/// The codes after the last one, and that of a blank.
const CODES: u8 = 0o100;

const BLANK: u8 = 0o55;

const COMMA: u8 = 0o56;

/// How many words there are at most.
const MOST_WORDS: usize = 0o7777;

/// How a text is filled up.
#[derive(Clone, Copy)]
pub enum Kind {
    /// With blanks at its end.
    H,
    /// With blanks before it.
    A,
    /// With zeros at its end.
    L,
    /// With zeros before it.
    R,
    /// It ends in a word of zero.
    C,
    /// It ends in a symbol of zero.
    Z,
}

/// What says where a text ends.
#[derive(Drop)]
pub enum Cut {
    /// The digits of the number of its symbols, or of its words for DIS.
    Counted(Vec<u8>),
    /// The symbol before and after it.
    Marked(u8),
}

/// A text by the codes of its symbols.
#[derive(Drop)]
pub struct Text {
    pub kind: Kind,
    pub cut: Cut,
    pub codes: Vec<u8>,
}

/// Returns whether all are codes.
fn has_codes(codes: &[u8]) -> bool
    ensures { result ≡ are_codes codes.now }
{
    codes.iter().all(|code| *code < CODES)
}

/// Returns the symbol of a code, or 0 if there is none.
fn symbol_or_zero(code: u8) -> u8
    ensures { result ≡ symbol code }
{
    if code < CODES { symbol_of(code) } else { 0 }
}

/// Writes the symbols of codes.
pub fn put_codes(out: &mut Vec<u8>, codes: &[u8]) -> Result<(), AllocError>
    ensures { OnOk result (out.new.items ≡ out.old.items ++ map symbol codes.now) }
{
    for code in codes {
        out.push(symbol_or_zero(*code))?;
    }
    Ok(())
}

/// Writes the symbols of codes with what says where they end.
fn put_cut(out: &mut Vec<u8>, letter: &[u8], codes: &[u8], cut: &Cut) -> Result<(), AllocError>
    ensures { OnOk result (out.new.items ≡ out.old.items ++ text_after letter.now (map symbol codes.now) cut.now) }
{
    match cut {
        Cut::Counted(digits) => {
            out.extend_from_slice(digits)?;
            out.extend_from_slice(letter)?;
            put_codes(out, codes)
        }
        Cut::Marked(mark) => {
            out.extend_from_slice(letter)?;
            out.push(*mark)?;
            put_codes(out, codes)?;
            Ok(out.push(*mark)?)
        }
    }
}

/// Writes a text.
pub fn put_text(out: &mut Vec<u8>, letter: &[u8], text: &Text) -> Result<(), AllocError>
    ensures { OnOk result (out.new.items ≡ out.old.items ++ text_with letter.now text.now) }
{
    put_cut(out, letter, &text.codes, &text.cut)
}

/// Returns whether no symbol of a text is a mark.
pub fn has_no_mark(codes: &[u8], mark: u8) -> bool
    ensures { result ≡ is_without mark codes.now }
{
    codes.iter().all(|code| symbol_or_zero(*code) != mark)
}

/// Returns whether no symbol of a text is a comma or a blank.
fn is_one_word(codes: &[u8]) -> bool
    ensures { result ≡ is_word codes.now }
{
    codes.iter().all(|code| *code != BLANK && *code != COMMA)
}

/// Returns whether a text has as many symbols as its count, or no comma and blank if that is 0.
fn is_whole_text(count: Option<i64>, codes: &[u8]) -> bool
    ensures { IsTrue result → is_whole count codes.now ≡ true }
{
    match count {
        Some(number) if number == 0 => is_one_word(codes),
        Some(number) if number > 0 => number as usize == codes.len(),
        _ => false,
    }
}

/// Returns whether a byte is no letter, digit or blank.
fn may_mark(byte: u8) -> bool
    ensures { result ≡ is_mark byte }
{
    !(48 <= byte && byte <= 57) && !(65 <= byte && byte <= 90) && byte != 32
}

fn has_cut(cut: &Cut, codes: &[u8]) -> bool
    ensures { IsTrue result → is_cut cut.now codes.now ≡ true }
{
    match cut {
        Cut::Counted(digits) => is_whole_text(decimal_value(digits), codes),
        Cut::Marked(mark) => may_mark(*mark) && has_no_mark(codes, *mark),
    }
}

/// Returns whether a text ends where its count or its mark says.
pub fn has_end(cut: &Cut, codes: &[u8]) -> bool
    ensures { IsTrue result → is_ended cut.now codes.now ≡ true }
{
    has_codes(codes) && has_cut(cut, codes)
}

/// Returns a text with so many codes more.
fn filled_up(alloc: Global, kind: Kind, more: usize, codes: &[u8]) -> Result<Vec<u8>, AllocError>
    ensures { IfOk result (λ all. all.items ≡ filled_with kind more codes.now) }
{
    let mut all = Vec::new(alloc);
    match kind {
        Kind::A => {
            all.extend_from_slice(&vec![in alloc; BLANK; more]?)?;
            all.extend_from_slice(codes)?;
        }
        Kind::R => {
            all.extend_from_slice(&vec![in alloc; 0u8; more]?)?;
            all.extend_from_slice(codes)?;
        }
        Kind::H => {
            all.extend_from_slice(codes)?;
            all.extend_from_slice(&vec![in alloc; BLANK; more]?)?;
        }
        _ => {
            all.extend_from_slice(codes)?;
            all.extend_from_slice(&vec![in alloc; 0u8; more]?)?;
        }
    }
    Ok(all)
}

/// Returns a text up to a size.
fn filled_to(alloc: Global, kind: Kind, size: usize, codes: &[u8]) -> Result<Vec<u8>, AllocError>
    ensures { IfOk result (λ all. all.items ≡ filled kind size codes.now) }
{
    filled_up(alloc, kind, size.saturating_sub(codes.len()), codes)
}

/// Returns a word of two codes.
fn pair(upper: u8, lower: u8) -> u32
    ensures { result ≡ upper * 0o100 + lower }
{
    u32::from(upper) * 0o100 + u32::from(lower)
}

/// Returns the words of codes, two of which are a word.
fn pairs_of(alloc: Global, codes: &[u8]) -> Result<Vec<u32>, AllocError>
    ensures { IfOk result (λ words. words.items ≡ pairs codes.now) }
{
    let mut words = Vec::new(alloc);
    let mut rest = codes;
    'codes: while let [upper, lower, others @ ..] = rest {
        words.push(pair(*upper, *lower))?;
        rest = others;
    }
    Ok(words)
}

/// Returns how many codes a text of a kind has.
fn size_of(kind: Kind, count: usize) -> Option<usize>
    ensures { IfSome result (λ size. size ≡ least_size kind count) }
{
    match kind {
        Kind::C => count.checked_add(2),
        Kind::Z => count.checked_add(1),
        _ => Some(count),
    }
}

/// Returns the words of a text that is whole words.
fn words_of_text(alloc: Global, kind: Kind, codes: &[u8]) -> Result<Option<Vec<u32>>, AllocError>
    ensures { IfOk result (λ made. IfSome made (λ words. words.items ≡ whole_words kind codes.now)) }
{
    let Some(size) = size_of(kind, codes.len()) else {
        return Ok(None);
    };
    let Some(size) = size.checked_add(size % 2) else {
        return Ok(None);
    };
    let all = filled_to(alloc, kind, size, codes)?;
    Ok(Some(pairs_of(alloc, &all)?))
}

/// Returns the words of a text of DATA.
pub fn words_of_data(alloc: Global, text: &Text) -> Result<Option<Vec<u32>>, AllocError>
    ensures { IfOk result (λ made. IfSome made (λ words. text_words text.now ≡ Some words.items)) }
{
    if !has_end(&text.cut, &text.codes) {
        return Ok(None);
    }
    words_of_text(alloc, text.kind, &text.codes)
}

/// Returns codes as the digits of a number.
fn number_of_codes(first: u64, codes: &[u8]) -> Option<u64>
    ensures { IfSome result (λ number. number ≡ number_from_codes first codes.now) }
{
    let mut number: u64 = first;
    for code in codes {
        number = number.checked_mul(0o100)?.checked_add(u64::from(*code))?;
    }
    Some(number)
}

/// Returns a text with R as a number.
pub fn number_of_text(digits: &[u8], codes: &[u8]) -> Option<i64>
    ensures { IfSome result (λ number. text_number digits.now codes.now ≡ Some number) }
{
    let count = decimal_value(digits)?;
    if count < 0 || count as usize != codes.len() || !has_codes(codes) {
        return None;
    }
    i64::try_from(number_of_codes(0, codes)?).ok()
}

/// Returns a number with so many codes of one symbol more.
fn with_more_codes(first: u64, code: u8, more: usize) -> Option<u64>
    ensures { IfSome result (λ number. number ≡ number_from_codes first (replicate more code)) }
{
    let mut number: u64 = first;
    for _count in 0..more {
        number = number.checked_mul(0o100)?.checked_add(u64::from(code))?;
    }
    Some(number)
}

/// Returns the number of a text that is filled up to a size.
#[tactic(auto, using(crate::proofs::TextNumbers::codes_append))]
pub fn number_of_filled(kind: Kind, size: usize, codes: &[u8]) -> Option<u64>
    ensures { IfSome result (λ number. number ≡ number_from_codes 0 (filled kind size codes.now)) }
{
    let more = size.saturating_sub(codes.len());
    match kind {
        Kind::H => with_more_codes(number_of_codes(0, codes)?, BLANK, more),
        Kind::A => number_of_codes(with_more_codes(0, BLANK, more)?, codes),
        Kind::R => number_of_codes(with_more_codes(0, 0, more)?, codes),
        _ => with_more_codes(number_of_codes(0, codes)?, 0, more),
    }
}

/// Returns so many words of a text.
fn words_of_count(
    alloc: Global,
    digits: &[u8],
    codes: &[u8],
) -> Result<Option<Vec<u32>>, AllocError>
    ensures { IfOk result (λ made. IfSome made (λ words. count_words (decimal_number digits.now) codes.now ≡ Some words.items)) }
{
    let Some(count) = decimal_value(digits) else {
        return Ok(None);
    };
    if count < 0 || count > MOST_WORDS as i64 {
        return Ok(None);
    }
    let size = count as usize * 2;
    if codes.len() > size {
        return Ok(None);
    }
    let all = filled_to(alloc, Kind::H, size, codes)?;
    Ok(Some(pairs_of(alloc, &all)?))
}

/// Returns the words of DIS.
pub fn words_of_display(alloc: Global, text: &Text) -> Result<Option<Vec<u32>>, AllocError>
    ensures { IfOk result (λ made. IfSome made (λ words. display text.now ≡ Some words.items)) }
{
    if !has_codes(&text.codes) {
        return Ok(None);
    }
    match &text.cut {
        Cut::Counted(digits) => words_of_count(alloc, digits, &text.codes),
        Cut::Marked(mark) => {
            if !has_no_mark(&text.codes, *mark) {
                return Ok(None);
            }
            words_of_text(alloc, Kind::C, &text.codes)
        }
    }
}
