//! Numbers and counters as a text begins with them.
ghost use Rattle.std.specs.Prelude.{◌≡◌, ◌+◌, ◌*◌, ◌*ℤ◌, ◌^◌, ◌<◌, ◌≤◌, IfSome, None, Some, nat_lt, option_map, pos};
ghost use Rattle.pp_notation.specs.Digits.{number_in};
ghost use Rattle.pp_source.specs.Numbers.{counter_at, ends_element, kept, letter_at, number_at, number_with, shift_at, written};
ghost use Rattle.pp_source.specs.Scan.{goes_on};

use crate::scan::{digits_of, digits_size, is_alphanumeric};
use pp_decks::tail;

/// A shift by more bits than this gives no number that is kept.
const MOST_SHIFT: u32 = 62;
/// The greatest size of a number that is kept.
const MOST: u64 = 0x7fff_ffff_ffff_ffff;

/// Returns the letter of the counter whose `*` is before a text, or a `*` of `**`, and what follows it.
pub fn counter_of(after: &[u8]) -> (u8, &[u8])
    ensures { (result.0, result.1.now) ≡ counter_at after.now }
{
    match after {
        [b'*', rest @ ..] if ends_element(rest) => (b'*', rest),
        [letter @ (b'L' | b'O'), rest @ ..] if !goes_on(rest, b".$=") => (*letter, rest),
        _ => (b'L', after),
    }
}

/// Returns whether a second `*` before a text ends an element: nothing follows, or an operator that is no third `*`.
fn ends_element(text: &[u8]) -> bool
    ensures { result ≡ ends_element text.now }
{
    match text {
        [] => true,
        [symbol, ..] => b"+-/".contains(symbol),
    }
}

/// A number that a text begins with: its digits, their letter, by how many bits it is shifted, and what follows.
#[derive(Clone, Copy)]
pub struct Number<'a> {
    pub digits: &'a [u8],
    pub letter: Option<u8>,
    pub shift: u32,
    pub rest: &'a [u8],
}

/// Returns whether a number or a counter goes on with a text: with a letter, a digit or one of other symbols.
fn goes_on(text: &[u8], others: &[u8]) -> bool
    ensures { result ≡ goes_on others.now text.now }
{
    match text {
        [symbol, ..] => is_alphanumeric(*symbol) || others.contains(symbol),
        [] => false,
    }
}

/// Returns the number that a text begins with, if it does.
#[tactic(auto, unfolding(crate::specs::Numbers::number_at))]
pub fn number_of(text: &[u8]) -> Option<Number<'_>>
    ensures { option_map written result ≡ number_at text.now }
{
    let (digits, rest) = text.split_at(digits_size(text));
    let (letter, rest) = letter_of(rest);
    let (shift, rest) = shift_of(rest);
    if digits.is_empty() || goes_on(rest, b".$") {
        return None;
    }
    Some(Number {
        digits,
        letter,
        shift,
        rest,
    })
}

/// Returns the letter of a number that a text begins with, if it does, and what follows it.
fn letter_of(text: &[u8]) -> (Option<u8>, &[u8])
    ensures { (result.0, result.1.now) ≡ letter_at text.now }
{
    match text {
        [letter @ (b'B' | b'D' | b'O'), rest @ ..] => (Some(*letter), rest),
        _ => (None, text),
    }
}

/// Returns the shift that a text begins with, or 0, and what follows it.
fn shift_of(text: &[u8]) -> (u32, &[u8])
    ensures { (result.0, result.1.now) ≡ shift_at text.now }
{
    let [b'S', after @ ..] = text else {
        return (0, text);
    };
    match digits_of(after, 2) {
        (0, _) => (0, text),
        (size, shift) => (shift, tail(after, size)),
    }
}

/// Returns the number that digits make, if it is kept.
#[tactic(auto, using(crate::proofs::Digits::are_too_many))]
pub fn decoded(digits: &[u8], base: u64) -> Option<i64>
    ensures { result ≡ kept (pos (number_in base digits.now)) }
{
    let mut value: u64 = 0;
    for digit in digits {
        let Some(next) = with_digit(value, base, digit.saturating_sub(b'0')) else {
            return None;
        };
        value = next;
    }
    Some(value as i64)
}

/// Returns a number with one more digit, if it is kept.
pub(crate) fn with_digit(number: u64, base: u64, digit: u8) -> Option<u64>
    ensures some { IfSome result (λ next. (next ≡ number * base + digit) × (next < 2 ^ 63)) }
    ensures none { result ≡ None → (0 < base) × (2 ^ 63 ≤ number * base + digit) }
{
    if base != 0 && number > MOST / base {
        return None;
    }
    let next = number * base + u64::from(digit);
    if next > MOST { None } else { Some(next) }
}

/// Returns a number shifted to the left, if it is kept.
#[tactic(auto, using(crate::proofs::Kept::one_shifted, crate::proofs::Kept::shift_is_not_kept))]
pub fn shifted(value: i64, bits: u32) -> Option<i64>
    ensures { result ≡ kept (value *ℤ pos (2 ^ bits)) }
{
    if value == 0 {
        return Some(0);
    }
    if bits > MOST_SHIFT {
        return None;
    }
    product(value, 1i64.wrapping_shl(bits))
}

/// Returns a product, if it is kept.
#[tactic(auto, using(crate::proofs::Kept::product_is_kept, crate::proofs::Kept::product_is_not_kept))]
pub fn product(number: i64, other: i64) -> Option<i64>
    ensures { result ≡ kept (number *ℤ other) }
{
    if is_kept(number.unsigned_abs(), other.unsigned_abs()) {
        Some(number * other)
    } else {
        None
    }
}

/// Returns whether a product is kept. The division comes first, since WebAssembly has no product of 128 bits to look at.
fn is_kept(number: u64, other: u64) -> bool
    ensures { result ≡ nat_lt (number * other) (2 ^ 63) }
{
    other == 0 || number <= MOST / other
}
