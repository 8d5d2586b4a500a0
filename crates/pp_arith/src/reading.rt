//! Reads octal numbers.
ghost use Rattle.std.specs.List.{list_all};
ghost use Rattle.std.specs.Prelude.{◌≡◌};
ghost use Rattle.pp_arith.specs.Octal.{is_octal, is_octal_digit};
ghost use Rattle.pp_arith.specs.OctalRead.{octal_read};

/// Why a word is not an octal number within range.
#[derive(Clone, Copy, Debug, PartialEq, Eq, Drop)]
pub enum OctalFault {
    /// The word is empty, or has a byte that is not `0` to `7`.
    NotOctal,
    /// The word is octal, but its value is above the maximum.
    TooLarge,
}

fn are_octal_digits(word: &[u8]) -> bool
    ensures { result ≡ list_all is_octal_digit word.now }
{
    word.iter().all(|byte| *byte >= b'0' && *byte <= b'7')
}

/// Returns whether the word is one or more octal digits, `0` to `7`, and nothing else.
pub fn is_octal(word: &[u8]) -> bool
    ensures { result ≡ is_octal word.now }
{
    !word.is_empty() && are_octal_digits(word)
}

/// Returns the value of an octal word, 0 to `max`. Any number of leading zeros is allowed.
///
/// # Errors
/// `NotOctal` if the word is empty or has a byte that is not `0` to `7`. Otherwise `TooLarge` if its
/// value is above `max`.
#[tactic(auto, using(crate::proofs::OctalValues::values))]
pub fn read_octal(word: &[u8], max: u64) -> Result<u64, OctalFault>
    ensures { result ≡ octal_read word.now max }
{
    if !is_octal(word) {
        return Err(OctalFault::NotOctal);
    }
    let mut value = 0u64;
    for byte in word {
        if value >= 1 << 61 {
            return Err(OctalFault::TooLarge);
        }
        value = value * 8 + u64::from(*byte - b'0');
        if value > max {
            return Err(OctalFault::TooLarge);
        }
    }
    Ok(value)
}
