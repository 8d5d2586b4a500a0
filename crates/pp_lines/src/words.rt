//! The words of a line.
ghost use Rattle.std.specs.Prelude.{◌≡◌, ◌∷◌, ◌<◌, ◌≤◌, [], IfSome, MatchOption, length, not, position};
ghost use Rattle.std.specs.List.{list_all, position_or_len};
ghost use Rattle.pp_arith.specs.Octal.{is_octal};
ghost use Rattle.pp_lines.specs.Words.{is_blank, is_ignored, words};

use pp_arith::is_octal;

/// Returns whether the byte is a blank or a tab.
fn is_blank(byte: u8) -> bool
    ensures { result ≡ is_blank byte }
{
    byte == b' ' || byte == b'\t'
}

/// Returns the position of the first blank or tab.
fn first_blank(text: &[u8]) -> Option<usize>
    ensures { result ≡ position is_blank text.now }
{
    text.iter().position(|byte| is_blank(*byte))
}

/// Returns the position of the first byte of a word.
fn first_letter(text: &[u8]) -> Option<usize>
    ensures { result ≡ position (λ byte. not (is_blank byte)) text.now }
{
    text.iter().position(|byte| !is_blank(*byte))
}

/// Returns the length of the word that the text begins with.
#[tactic(auto, using(crate::proofs::WordCuts::position_or))]
fn word_len(text: &[u8]) -> usize
    ensures len { result ≡ position_or_len is_blank text.now }
    ensures within { result ≤ length text.now }
{
    first_blank(text).unwrap_or(text.len())
}

/// Returns the first word of a text and the text after it, or `None` if the text has only blanks and tabs.
#[tactic(auto, using(crate::proofs::WordCuts::cuts))]
pub fn next_word(text: &[u8]) -> Option<(&[u8], &[u8])>
    ensures cut { MatchOption result (words text.now ≡ [])
        (λ cut. words text.now ≡ cut.0.now ∷ words cut.1.now) }
    ensures shorter { IfSome result (λ cut. length cut.1.now < length text.now) }
{
    let word = &text[first_letter(text)?..];
    Some(word.split_at(word_len(word)))
}

/// Returns whether a line with this text is ignored: it has no words, or its first word begins with a star.
pub fn is_ignored(text: &[u8]) -> bool
    ensures { result ≡ is_ignored (words text.now) }
{
    next_word(text).is_none_or(|(first, _)| first.first() == Some(&b'*'))
}

/// Returns whether all words of the text are octal.
pub fn are_octal(text: &[u8]) -> bool
    ensures { result ≡ list_all is_octal (words text.now) }
{
    let mut rest = text;
    'words: while let Some((word, others)) = next_word(rest) {
        if !is_octal(word) {
            return false;
        }
        rest = others;
    }
    true
}
