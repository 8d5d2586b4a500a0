//! Whether the statements of programs are those of the rows of the listing.
ghost use Rattle.std.specs.Prelude.{◌≡◌, ◌<◌, IsTrue, length, slice_get, true};
ghost use Rattle.std.specs.List.{list_all};
ghost use Rattle.pp_decks.specs.Blanks.{BLANKS, is_among};
ghost use Rattle.pp_assembler.specs.RowStatements.{AreOfRows, AreOfSystemRows, column_behind, first_column, follow, has_statement};
ghost use Rattle.pp_assembler.specs.RowStatements.{is_note, is_silent, may_be_without};

use crate::naming::{first_sign, is_one_of, operation_in, up_to_place};
use crate::order::turns;
use crate::parts::{head, tail};
use crate::readings::read_line;
use crate::rows::end_of_unit;
use pp_decks::{LAST_COLUMN, Lines, is_space};
use pp_meaning::{Statement, SystemText, Unit};
use pp_source::Vocabulary;
use pp_statements::{Row, SystemRows};

/// Returns the column on paper behind a symbol.
fn column_behind(column: usize, symbol: u8) -> usize
    ensures { result ≡ column_behind column symbol }
{
    if column >= LAST_COLUMN {
        column
    } else if symbol == b'\t' {
        column / 8 * 8 + 8
    } else {
        column + 1
    }
}

/// Returns the column of the first symbol that is no blank.
fn first_column(line: &[u8]) -> usize
    ensures { result ≡ first_column line.now }
{
    up_to_place(line, first_sign(line))
        .iter()
        .fold(0, |column, symbol| column_behind(column, *symbol))
}

fn is_empty(line: &[u8]) -> bool
    ensures { result ≡ list_all (is_among BLANKS) line.now }
{
    line.iter().all(|symbol| is_space(*symbol))
}

/// Returns whether a line is a note, empty, or has a sequence number alone.
fn is_note(line: &[u8]) -> bool
    ensures { result ≡ is_note line.now }
{
    line.starts_with(b"*".as_slice()) || is_empty(line) || first_column(line) >= LAST_COLUMN
}

/// Returns whether a line may be without a statement.
#[tactic(auto, unfolding(crate::specs::RowStatements::is_silent))]
fn is_silent(words: &Vocabulary, line: &[u8]) -> bool
    ensures { result ≡ is_silent words.now line.now }
{
    let operation = operation_in(line);
    is_note(line)
        || is_one_of(
            &[
                b"IDENT", b"ABS", b"SST", b"ENTRY", b"TITLE", b"TTL", b"COMMENT", b"SPACE",
                b"EJECT", b"LIST", b"NOREF", b"XREF", b"CTEXT", b"ENDX", b"NOLABEL", b"NIL",
                b"SEG", b"LCC", b"STEXT", b"CODE", b"COL", b"MICRO", b"DECMIC", b"OCTMIC",
                b"PURGMAC", b"ERR", b"ERRNZ", b"ERRZR", b"ERRPL", b"ERRMI", b"ERRNG",
            ],
            operation,
        )
        || turns(words, operation)
}

/// Returns whether a row may be without a statement.
#[tactic(auto, unfolding(crate::specs::RowStatements::may_be_without))]
fn may_be_without(lines: &Lines, words: &Vocabulary, row: &Row) -> bool
    ensures { result ≡ may_be_without lines.now words.now row.now }
{
    if !row.is_performed || row.statement == usize::MAX {
        return true;
    }
    is_silent(words, read_line(lines, row.statement))
}

/// Returns whether a row has the statement at an index.
fn has_statement(lines: &Lines, row: &Row, statements: &[Statement], at: usize) -> bool
    ensures value { result ≡ has_statement lines.now row.now (slice_get statements.now at) }
    ensures within { IsTrue result → at < length statements.now }
{
    match statements.get(at) {
        Some(statement) => row.is_performed
            && statement.line.as_slice() == read_line(lines, row.statement),
        None => false,
    }
}

/// Returns whether statements are those of rows.
fn follow(lines: &Lines, words: &Vocabulary, statements: &[Statement], rows: &[Row]) -> bool
    ensures { IsTrue result → (follow lines.now words.now statements.now 0 rows.now ≡ true) }
{
    let mut next: usize = 0;
    for row in rows {
        if has_statement(lines, row, statements, next) {
            next += 1;
        } else if !may_be_without(lines, words, row) {
            return false;
        }
    }
    next == statements.len()
}

/// Returns whether the statements of programs are those of rows.
pub fn are_of_rows(lines: &Lines, words: &Vocabulary, units: &[Unit], rows: &[Row]) -> bool
    ensures { IsTrue result → AreOfRows lines.now words.now units.now rows.now }
{
    let mut rest = rows;
    for unit in units {
        let end = end_of_unit(lines, rest, 0);
        if !follow(lines, words, &unit.statements, head(rest, end)) {
            return false;
        }
        rest = tail(rest, end);
    }
    rest.is_empty()
}

/// Returns whether the statements of system texts are those of their rows.
pub fn are_of_system_rows(
    lines: &Lines,
    words: &Vocabulary,
    systems: &[SystemText],
    rows: &[SystemRows],
) -> bool
    ensures { IsTrue result → AreOfSystemRows lines.now words.now systems.now rows.now }
{
    let mut rest = rows;
    for text in systems {
        let [own, others @ ..] = rest else {
            return false;
        };
        if !are_of_rows(lines, words, &text.units, &own.rows) {
            return false;
        }
        rest = others;
    }
    rest.is_empty()
}
