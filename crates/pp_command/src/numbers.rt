//! The numbers of a command line.
ghost use Rattle.std.specs.Prelude.{◌≡◌, ◌≤◌, ◌∷◌, [], IfOk};
ghost use Rattle.pp_lines.specs.Words.{words};
ghost use Rattle.pp_command.specs.Numbers as spec;

use crate::fault::LineFault;
use crate::words::{first_word, no_words};
use pp_arith::{OctalFault, is_octal, read_octal};
use pp_lines::next_word;

/// Reads the number in a word, 0 to `most`.
///
/// # Errors
/// `NotANumber` if the word is not octal, and `OutOfRange` if its value is above `most`.
pub fn number(word: &[u8], most: u64) -> Result<u64, LineFault>
    ensures value { result ≡ spec.number_read most word.now }
    ensures within { IfOk result (λ value. value ≤ most) }
{
    match read_octal(word, most) {
        Ok(value) => Ok(value),
        Err(OctalFault::NotOctal) => Err(LineFault::NotANumber),
        Err(OctalFault::TooLarge) => Err(LineFault::OutOfRange),
    }
}

/// Reads one number, 0 to `most`.
///
/// # Errors
/// `WordCount` if the text does not have exactly one word. Otherwise as `number`.
#[tactic(auto, unfolding(crate::specs::Numbers::one))]
pub fn one(text: &[u8], most: u64) -> Result<u64, LineFault>
    ensures value { result ≡ spec.one most (words text.now) }
    ensures within { IfOk result (λ value. value ≤ most) }
{
    let (word, rest) = first_word(text)?;
    no_words(rest)?;
    number(word, most)
}

/// Reads the numbers in two words, 0 to `first` and 0 to `second`.
///
/// # Errors
/// `NotANumber` if either word is not octal. Otherwise `OutOfRange` if either value is above its maximum.
#[tactic(auto, unfolding(crate::specs::Numbers::two))]
pub fn pair(x: &[u8], y: &[u8], first: u64, second: u64) -> Result<(u64, u64), LineFault>
    ensures value { result ≡ spec.two first second (x.now ∷ y.now ∷ []) }
    ensures within { IfOk result (λ values. (values.0 ≤ first) × (values.1 ≤ second)) }
{
    if !is_octal(x) || !is_octal(y) {
        return Err(LineFault::NotANumber);
    }
    Ok((number(x, first)?, number(y, second)?))
}

/// Reads two numbers, 0 to `first` and 0 to `second`.
///
/// # Errors
/// `WordCount` if the text does not have exactly two words. Otherwise as `pair`.
#[tactic(auto, unfolding(crate::specs::Numbers::two))]
pub fn two(text: &[u8], first: u64, second: u64) -> Result<(u64, u64), LineFault>
    ensures value { result ≡ spec.two first second (words text.now) }
    ensures within { IfOk result (λ values. (values.0 ≤ first) × (values.1 ≤ second)) }
{
    let (x, rest) = first_word(text)?;
    let (y, rest) = first_word(rest)?;
    no_words(rest)?;
    pair(x, y, first, second)
}

/// Reads the number of a processor, 0 to 11 octal, and another number, 0 to `most`.
///
/// # Errors
/// As `two`.
pub fn processor_and(text: &[u8], most: u64) -> Result<(u8, u64), LineFault>
    ensures value { result ≡ spec.two 0o11 most (words text.now) }
    ensures within { IfOk result (λ values. (values.0 ≤ 0o11) × (values.1 ≤ most)) }
{
    let (pp, number) = two(text, 0o11, most)?;
    Ok((pp as u8, number))
}

/// Reads three numbers, 0 to `first`, 0 to `second` and 0 to `third`.
///
/// # Errors
/// `WordCount` if the text does not have exactly three words. Otherwise `NotANumber` if any word is not
/// octal. Otherwise `OutOfRange` if any value is above its maximum.
#[tactic(auto, unfolding(crate::specs::Numbers::three))]
pub fn three(text: &[u8], first: u64, second: u64, third: u64) -> Result<(u64, u64, u64), LineFault>
    ensures value { result ≡ spec.three first second third (words text.now) }
    ensures within { IfOk result (λ (x, y, z). (x ≤ first) × (y ≤ second) × (z ≤ third)) }
{
    let (x, rest) = first_word(text)?;
    let (y, rest) = first_word(rest)?;
    let (z, rest) = first_word(rest)?;
    no_words(rest)?;
    if !is_octal(x) || !is_octal(y) || !is_octal(z) {
        return Err(LineFault::NotANumber);
    }
    Ok((number(x, first)?, number(y, second)?, number(z, third)?))
}

/// Reads a count of 1 to 1000000 (octal). Returns 1 if the text has no words.
///
/// # Errors
/// `WordCount` if the text has more than one word. Otherwise `NotANumber` if the word is not octal, and
/// `OutOfRange` if the count is 0 or above the maximum.
#[tactic(auto, unfolding(crate::specs::Numbers::count))]
pub fn count(text: &[u8]) -> Result<u32, LineFault>
    ensures value { result ≡ spec.count (words text.now) }
    ensures some { IfOk result (λ count. 1 ≤ count) }
    ensures within { IfOk result (λ count. count ≤ 0o1000000) }
{
    if next_word(text).is_none() {
        return Ok(1);
    }
    match one(text, 0o1000000)? {
        0 => Err(LineFault::OutOfRange),
        count => Ok(count as u32),
    }
}
