//! Whether the rows are those of the lines of the source, in their order, up to the first line that may make, repeat, choose or move
//! lines.
ghost use Rattle.std.specs.Prelude.{◌≡◌, IsTrue, true};
ghost use Rattle.pp_assembler.specs.Order.{begins_in_order, has_mark, is_begun, is_turn, may_be_else, turns};

use crate::naming::{CALL, is_macro, is_one_of, is_synonym, operation_in};
use crate::readings::read_line;
use pp_decks::Lines;
use pp_source::Vocabulary;
use pp_statements::Row;

/// Returns whether an operation may make, repeat, choose or move lines.
pub fn turns(words: &Vocabulary, word: &[u8]) -> bool
    ensures { result ≡ turns words.now word.now }
{
    word.starts_with(b"IF".as_slice())
        || is_one_of(
            &[
                b"SKIP", b"ELSE", b"DUP", b"ECHO", b"STOPDUP", b"MACRO", b"MACROE", b"OPSYN",
                b"RMT", b"HERE", b"XTEXT",
            ],
            word,
        )
        || is_macro(words, word)
        || is_synonym(words, word)
}

/// Returns whether a line may have a micro.
fn has_mark(line: &[u8]) -> bool
    ensures { result ≡ has_mark line.now }
{
    line.iter().any(|symbol| *symbol == b'"')
}

/// Returns whether a line may make, repeat, choose or move lines.
fn is_turn(words: &Vocabulary, line: &[u8]) -> bool
    ensures { result ≡ is_turn words.now line.now }
{
    if line.starts_with(b"*".as_slice()) {
        line.starts_with(CALL.as_slice())
    } else {
        has_mark(line) || turns(words, operation_in(line))
    }
}

/// Returns whether an operation may be an ELSE.
fn may_be_else(words: &Vocabulary, word: &[u8]) -> bool
    ensures { result ≡ may_be_else words.now word.now }
{
    word == b"ELSE".as_slice() || is_synonym(words, word)
}

/// Returns whether a row is of the line with an index, or of a line made from others, and has been performed or may be an ELSE.
fn is_begun(lines: &Lines, words: &Vocabulary, index: usize, row: &Row) -> bool
    ensures { result ≡ is_begun lines.now words.now index row.now }
{
    let is_begun = row.is_performed
        || may_be_else(words, operation_in(read_line(lines, row.statement)));
    is_begun && (row.statement == index || lines.own <= row.statement)
}

/// Returns whether rows are those of the lines of the source, in their order, up to the first line that may make, repeat, choose or move
/// lines.
pub fn are_in_order(lines: &Lines, words: &Vocabulary, rows: &[Row]) -> bool
    ensures { IsTrue result → (begins_in_order lines.now words.now rows.now ≡ true) }
{
    let mut next = lines.source.first;
    for row in rows {
        if row.statement == usize::MAX {
            continue;
        }
        if next == lines.source.end {
            return false;
        }
        if is_turn(words, read_line(lines, next)) {
            return is_begun(lines, words, next, row);
        }
        if !row.is_performed || row.statement != next {
            return false;
        }
        next += 1;
    }
    next == lines.source.end
}
