//! The common decks that a source reads, and whether the lines that it took from them are theirs.
ghost use Rattle.std.specs.Prelude.{◌≡◌, Any, IsTrue};
ghost use Rattle.std.specs.List.{AllByRecursion};
ghost use Rattle.pp_assembler.specs.Decks.{AreCopies, IsCopied, IsRead, IsReading, deck_lines, is_deck, is_taken, name_read};
ghost use Rattle.pp_assembler.specs.Meaning.{read_at};

use crate::naming::{XTEXT, deck_name, is_macro, is_synonym};
use crate::parts::{part, tail};
use pp_decks::{Decks, Line, Lines, Span};
use pp_expansion::Reading;
use pp_source::Vocabulary;
use pp_statements::Row;

/// Returns the lines of the deck with an index.
fn deck_lines<'a>(lines: &'a Lines, decks: &Decks, index: usize) -> &'a [Line]
    ensures { result.now ≡ deck_lines lines.now decks.now.all.items index }
{
    match decks.all.get(index) {
        Some(deck) => part(&lines.all, deck.lines),
        None => &[],
    }
}

/// Returns the line at an index, as it is read.
pub fn read_line(lines: &Lines, index: usize) -> &[u8]
    ensures { result.now ≡ read_at lines.now index }
{
    match lines.all.get(index) {
        Some(line) => line.read.of(&lines.capitals),
        None => b"",
    }
}

/// Returns the name that a line reads.
fn name_of(lines: &Lines, reading: Reading) -> &[u8]
    ensures { result.now ≡ name_read lines.now reading }
{
    reading.name.of(read_line(lines, reading.statement))
}

/// Returns whether the lines at an index of two lists have the same text.
fn is_copied(own: &[Line], copies: &[Line], at: usize) -> bool
    ensures { IsTrue result → IsCopied own.now copies.now at }
{
    let (Some(one), Some(copy)) = (own.get(at), copies.get(at)) else {
        return false;
    };
    is_same(one.text, copy.text) && is_same(one.read, copy.read)
}

fn is_same(one: Span, other: Span) -> bool
    ensures { IsTrue result → (one ≡ other) }
{
    one.first == other.first && one.end == other.end
}

/// Returns whether lines begin with copies of others.
fn are_copies(own: &[Line], copies: &[Line]) -> bool
    ensures { IsTrue result → AreCopies own.now copies.now }
{
    for at in 0..own.len() {
        if !is_copied(own, copies, at) {
            return false;
        }
    }
    true
}

/// Returns whether what a line took from a deck are the lines of the first deck with the name that it has.
fn is_reading(lines: &Lines, decks: &Decks, reading: Reading) -> bool
    ensures { IsTrue result → IsReading lines.now decks.now.all.items reading }
{
    let Some(index) = decks.find(name_of(lines, reading)) else {
        return false;
    };
    are_copies(
        deck_lines(lines, decks, index),
        tail(&lines.all, reading.first),
    )
}

/// Returns whether all that lines took from decks are the lines of these.
pub fn are_readings(lines: &Lines, decks: &Decks, readings: &[Reading]) -> bool
    ensures { IsTrue result → AllByRecursion (IsReading lines.now decks.now.all.items) readings.now }
{
    for reading in readings {
        if !is_reading(lines, decks, *reading) {
            return false;
        }
    }
    true
}

/// Returns whether a macro, or OPSYN, has given another meaning to XTEXT.
fn is_taken(words: &Vocabulary) -> bool
    ensures { result ≡ is_taken words.now }
{
    is_macro(words, XTEXT) || is_synonym(words, XTEXT)
}

/// Returns whether there is a deck with a name.
fn is_deck(decks: &Decks, name: &[u8]) -> bool
    ensures { result ≡ is_deck decks.now.all.items name.now }
{
    !name.is_empty() && decks.find(name).is_some()
}

/// Returns whether a line has taken lines from a deck.
fn has_reading(readings: &[Reading], statement: usize) -> bool
    ensures { IsTrue result → Any (λ reading. reading.statement ≡ statement) readings.now }
{
    readings
        .iter()
        .any(|reading| reading.statement == statement)
}

/// Returns whether the line of a row, if it is performed and reads a deck, has taken lines. XTEXT may have another meaning.
#[tactic(auto, unfolding(crate::specs::Decks::IsRead))]
fn is_read(
    lines: &Lines,
    decks: &Decks,
    words: &Vocabulary,
    is_renamed: bool,
    readings: &[Reading],
    row: &Row,
) -> bool
    requires { is_renamed ≡ is_taken words.now }
    ensures { IsTrue result → IsRead lines.now decks.now.all.items words.now readings.now row.now }
{
    if !row.is_performed {
        return true;
    }
    let name = deck_name(is_renamed, read_line(lines, row.statement));
    !is_deck(decks, name) || has_reading(readings, row.statement)
}

/// Returns whether each line that is performed and reads a deck has taken lines.
pub fn are_read(
    lines: &Lines,
    decks: &Decks,
    words: &Vocabulary,
    readings: &[Reading],
    rows: &[Row],
) -> bool
    ensures { IsTrue result → AllByRecursion (IsRead lines.now decks.now.all.items words.now readings.now) rows.now }
{
    let is_renamed = is_taken(words);
    for row in rows {
        if !is_read(lines, decks, words, is_renamed, readings, row) {
            return false;
        }
    }
    true
}
