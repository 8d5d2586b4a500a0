//! The name of the deck that a line reads, as it stands in the line.
ghost use Rattle.std.specs.Prelude.{◌≡◌, ◌==◌, position};
ghost use Rattle.std.specs.List.{list_any};
ghost use Rattle.std.specs.Cmp.Lexicographic.{pointwise};
ghost use Rattle.pp_assembler.specs.Naming.{after_blanks, deck_name, first_word, from_label, from_place, is_blank, is_macro, is_sign};
ghost use Rattle.pp_assembler.specs.Naming.{is_synonym, name_called, name_in, named_by, next_word, operation_in, up_to_place};

use crate::parts::{head, tail};
use pp_source::Vocabulary;

/// The operation that reads a deck.
pub const XTEXT: &[u8; 5] = b"XTEXT";

/// What a note begins with that reads a deck.
pub const CALL: &[u8; 6] = b"*CALL ";

fn is_blank(sign: u8) -> bool
    ensures { result ≡ is_blank sign }
{
    sign == b' ' || sign == b'\t'
}

fn is_sign(sign: u8) -> bool
    ensures { result ≡ is_sign sign }
{
    !is_blank(sign)
}

/// Returns where the first blank of a text is.
fn first_blank(text: &[u8]) -> Option<usize>
    ensures { result ≡ position is_blank text.now }
{
    text.iter().position(|sign| is_blank(*sign))
}

/// Returns where the first sign of a text is that is no blank.
pub fn first_sign(text: &[u8]) -> Option<usize>
    ensures { result ≡ position is_sign text.now }
{
    text.iter().position(|sign| is_sign(*sign))
}

/// Returns a text from a place on, or nothing.
pub fn from_place(text: &[u8], place: Option<usize>) -> &[u8]
    ensures { result.now ≡ from_place text.now place }
{
    match place {
        Some(at) => tail(text, at),
        None => b"",
    }
}

/// Returns a text up to a place, or all of it.
pub fn up_to_place(text: &[u8], place: Option<usize>) -> &[u8]
    ensures { result.now ≡ up_to_place text.now place }
{
    match place {
        Some(at) => head(text, at),
        None => text,
    }
}

/// Returns the first word of a text, which ends at a blank.
pub fn first_word(text: &[u8]) -> &[u8]
    ensures { result.now ≡ first_word text.now }
{
    up_to_place(text, first_blank(text))
}

/// Returns a text from its first sign on.
fn after_blanks(text: &[u8]) -> &[u8]
    ensures { result.now ≡ after_blanks text.now }
{
    from_place(text, first_sign(text))
}

/// Returns a text from its second word on.
pub fn next_word(text: &[u8]) -> &[u8]
    ensures { result.now ≡ next_word text.now }
{
    after_blanks(from_place(text, first_blank(text)))
}

/// Returns a line from its label on, which begins in column 1 or 2.
pub fn from_label(line: &[u8]) -> &[u8]
    ensures { result.now ≡ from_label line.now }
{
    if line.starts_with(b" ".as_slice()) {
        tail(line, 1)
    } else {
        line
    }
}

/// Returns the name of a deck: the operand, or the label if there is none.
fn named_by<'a>(label: &'a [u8], operand: &'a [u8]) -> &'a [u8]
    ensures { result.now ≡ named_by label.now operand.now }
{
    match operand {
        [] => label,
        _ => first_word(operand),
    }
}

/// Returns the name of the deck that a statement reads, if its operation is XTEXT.
fn name_in(line: &[u8]) -> &[u8]
    ensures { result.now ≡ name_in line.now }
{
    let operation = next_word(line);
    if first_word(operation) == XTEXT.as_slice() {
        named_by(first_word(line), next_word(operation))
    } else {
        b""
    }
}

/// Returns the name of the deck that a note reads, if it is *CALL.
fn name_called(line: &[u8]) -> &[u8]
    ensures { result.now ≡ name_called line.now }
{
    if line.starts_with(CALL.as_slice()) {
        first_word(after_blanks(tail(line, CALL.len())))
    } else {
        b""
    }
}

/// Returns the name of the deck that a line reads, or nothing. XTEXT reads none if the word has another meaning.
pub fn deck_name(is_taken: bool, line: &[u8]) -> &[u8]
    ensures { result.now ≡ deck_name is_taken line.now }
{
    if line.starts_with(b"*".as_slice()) {
        name_called(line)
    } else if is_taken {
        b""
    } else {
        name_in(from_label(line))
    }
}

/// Returns the operation of a line.
pub fn operation_in(line: &[u8]) -> &[u8]
    ensures { result.now ≡ operation_in line.now }
{
    first_word(next_word(from_label(line)))
}

/// Returns whether a word is one of some names.
pub fn is_one_of(names: &[&[u8]], word: &[u8]) -> bool
    ensures { result ≡ list_any (λ name. pointwise ◌==◌ name.now word.now) names.now }
{
    names.iter().any(|name| *name == word)
}

/// Returns whether a word is the name of a macro, or was.
pub fn is_macro(words: &Vocabulary, word: &[u8]) -> bool
    ensures { result ≡ is_macro words.now word.now }
{
    words
        .macros
        .iter()
        .any(|one| one.name.of(&words.text) == word)
}

/// Returns whether OPSYN has given a word to an operation.
pub fn is_synonym(words: &Vocabulary, word: &[u8]) -> bool
    ensures { result ≡ is_synonym words.now word.now }
{
    words
        .synonyms
        .iter()
        .any(|one| one.name.of(&words.text) == word)
}
