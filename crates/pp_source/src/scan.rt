//! Parts of a line: its blanks, words and digits.
ghost use Rattle.std.specs.Prelude.{◌≡◌, ◌-◌, ◌<◌, ◌≤◌, ◌^◌, IfSome, length, min, option_map, take};
ghost use Rattle.pp_notation.specs.Digits.{number_in};
ghost use Rattle.pp_source.specs.Scan.{column_of, cut_at, digits_size, index_of, is_alphanumeric, is_blank};

use pp_decks::tail;

/// Returns whether a symbol is a blank within a line.
pub fn is_blank(symbol: u8) -> bool
    ensures { result ≡ is_blank symbol }
{
    matches!(symbol, b' ' | b'\t')
}

/// Returns whether a symbol is a letter or digit that goes on with a name or a number.
pub fn is_alphanumeric(symbol: u8) -> bool
    ensures { result ≡ is_alphanumeric symbol }
{
    symbol.is_ascii_uppercase() || symbol.is_ascii_digit()
}

/// Returns the column of the first symbol at or after a column that passes a test, or the length of the line.
pub fn next_where<F: FnMut(&u8) -> bool>(line: &[u8], from: usize, test: F) -> usize
    requires { (state : F) (x : _) → F.pre state x }
{
    match tail(line, from).iter().position(test) {
        Some(distance) => from.saturating_add(distance),
        None => line.len(),
    }
}

/// Returns the column of the first of some symbols at or after a column that is in no parentheses, or the length of the line.
pub fn next_outside(line: &[u8], from: usize, ends: &[u8]) -> usize {
    let mut depth: u32 = 0;
    next_where(line, from, |symbol| {
        match symbol {
            b'(' => depth = depth.saturating_add(1),
            b')' => depth = depth.saturating_sub(1),
            _ => {}
        }
        depth == 0 && ends.contains(symbol)
    })
}

/// Returns the column of the first blank at or after a column, or the length of the line.
pub fn end_of_word(line: &[u8], from: usize) -> usize {
    next_where(line, from, |symbol| is_blank(*symbol))
}

/// Returns the first column at or after one that has a symbol, or the length of the line.
pub fn after_blanks(line: &[u8], from: usize) -> usize {
    next_where(line, from, |symbol| !is_blank(*symbol))
}

/// Returns the column of a symbol at or after a column.
pub fn find(line: &[u8], from: usize, symbol: u8) -> Option<usize>
    ensures { result ≡ column_of symbol line.now from }
{
    match index_of(tail(line, from), symbol) {
        Some(distance) => Some(from + distance),
        None => None,
    }
}

/// Returns the index of the first one of a symbol.
pub fn index_of(text: &[u8], symbol: u8) -> Option<usize>
    ensures index { result ≡ index_of symbol text.now }
    ensures within { IfSome result (λ index. index < length text.now) }
{
    text.iter().position(|one| *one == symbol)
}

/// Returns whether a text of words between blanks has a word.
pub fn has_word(text: &str, word: &[u8]) -> bool {
    text.split_whitespace().any(|one| one.as_bytes() == word)
}

/// Returns how many decimal digits a text begins with, up to a most, and the number that they write, if these are nine at most.
#[tactic(auto, using(crate::proofs::Digits::are_few))]
pub fn digits_of(text: &[u8], most: usize) -> (usize, u32)
    ensures size { result.0 ≡ min most (digits_size text.now) }
    ensures within { result.0 ≤ length text.now }
    ensures number { result.0 ≤ 9 → result.1 ≡ number_in 10 (take result.0 text.now) }
{
    let size = most.min(digits_size(text));
    (size, count_of(&text[..size]))
}

/// Returns how many digits a text begins with.
#[tactic(auto, using(crate::proofs::Digits::are_within))]
pub fn digits_size(text: &[u8]) -> usize
    ensures size { result ≡ digits_size text.now }
    ensures within { result ≤ length text.now }
{
    text.iter()
        .take_while(|symbol| symbol.is_ascii_digit())
        .count()
}

/// Returns the number that decimal digits write, or the greatest one.
fn count_of(digits: &[u8]) -> u32
    ensures { result ≡ min (2 ^ 32 - 1) (number_in 10 digits.now) }
{
    let mut value: u32 = 0;
    for digit in digits {
        let digit = u32::from(digit.saturating_sub(b'0'));
        value = value.saturating_mul(10).saturating_add(digit);
    }
    value
}

/// Returns the part of a text before a symbol, and the part after it, if it has the symbol.
#[tactic(auto, using(crate::proofs::Columns::cut_found))]
pub fn cut(text: &[u8], symbol: u8) -> (&[u8], Option<&[u8]>)
    ensures { (result.0.now, option_map (λ part. part.now) result.1) ≡ cut_at text.now (index_of symbol text.now) }
{
    match index_of(text, symbol) {
        Some(at) => (&text[..at], Some(tail(text, at + 1))),
        None => (text, None),
    }
}
