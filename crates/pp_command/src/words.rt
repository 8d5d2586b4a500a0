//! The words of a command line.
ghost use Rattle.std.specs.Prelude.{◌≡◌, ◌∷◌, [], ℕ, List, MatchResult};
ghost use Rattle.std.specs.Str.{str_eq_ignore_ascii_case};
ghost use Rattle.pp_lines.specs.Words.{words};

use crate::fault::LineFault;
use pp_lines::next_word;

/// Returns whether a word is the keyword, in letters of either case.
pub fn is_word(word: &[u8], keyword: &[u8]) -> bool
    ensures { result ≡ str_eq_ignore_ascii_case word.now keyword.now }
{
    word.eq_ignore_ascii_case(keyword)
}

/// Returns the first word of the text, and the text after it.
///
/// # Errors
/// `WordCount` if the text has no words.
pub fn first_word(text: &[u8]) -> Result<(&[u8], &[u8]), LineFault>
    ensures { MatchResult result (λ cut. words text.now ≡ cut.0.now ∷ words cut.1.now)
        (λ fault. (words text.now ≡ []) × (fault ≡ LineFault.WordCount)) }
{
    next_word(text).ok_or(LineFault::WordCount)
}

/// Checks that the text has no words.
///
/// # Errors
/// `WordCount` if the text has a word.
pub fn no_words(text: &[u8]) -> Result<(), LineFault>
    ensures { MatchResult result (λ _. words text.now ≡ [])
        (λ fault. (word : List ℕ) × (others : List (List ℕ)) × (words text.now ≡ word ∷ others) × (fault ≡ LineFault.WordCount)) }
{
    match next_word(text) {
        Some(_) => Err(LineFault::WordCount),
        None => Ok(()),
    }
}
