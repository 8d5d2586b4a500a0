//! The listing: for each line its address, its words and its text.
ghost use Rattle.std.specs.Prelude.{◌≡◌, ◌<◌, ◌+◌, ◌%◌, ◌==◌, ◌++◌, OnOk, bit_and, drop, length, if◌then◌else◌, slice_get};
ghost use Rattle.pp_listing.specs.Listing.{address, address_fields, listed_row, load_address, named, next_address, text_of, two_on};
ghost use Rattle.pp_listing.specs.Listing.{value_field, without_tabs, words_field};
ghost use Rattle.pp_notation.specs.Columns.{ended, in_columns, optional, signed_octal};

use crate::forms::{line_of, words_of};
use pp_assembler::{Assembly, CELLS, Row};
use pp_notation::{put_field, put_line, put_number, put_octal};
use std::alloc::{AllocError, Global};

/// How many words a line of the listing has.
const WORDS_OF_LINE: usize = 2;

/// The columns of an address, of the address to which a word is loaded, and of the words.
const ADDRESS: usize = 4;

const LOAD: usize = 5;

const WORDS: usize = 11;

const TAB: usize = 8;

/// What is instead of a line of the source.
const LITERAL: &[u8; 17] = b"*         LITERAL";

/// Writes the lines of the listing for a row. If code is assembled for another place, its address there comes first, and then >
/// with that to which it is loaded.
pub fn put_row(
    alloc: Global,
    out: &mut Vec<u8>,
    made: &Assembly,
    row: &Row,
) -> Result<(), AllocError>
    ensures { OnOk result (out.new.items ≡ out.old.items ++ listed_row made.now row.now) }
{
    let mut words = words_of(made, row);
    put_first(alloc, out, row, words, text_of(made, row))?;
    let mut next = *row;
    while words.len() > WORDS_OF_LINE {
        words = others(words);
        next = two_on(next);
        put_further(alloc, out, &next, words)?;
    }
    Ok(())
}

/// Returns the words after those of a line.
fn others(words: &[u16]) -> &[u16]
    requires { 2 < length words.now }
    ensures { result.now ≡ drop 2 words.now }
{
    &words[WORDS_OF_LINE..]
}

/// Returns the text of the line of a row.
pub fn text_of<'a>(made: &'a Assembly, row: &Row) -> &'a [u8]
    ensures { result.now ≡ text_of made.now (slice_get made.now.lines.all.items row.now.statement) }
{
    match line_of(made, row) {
        Some(line) => line.text.of(&made.lines.text),
        None => LITERAL,
    }
}

/// Returns a row two words on.
fn two_on(row: Row) -> Row
    ensures { result ≡ two_on row }
{
    Row {
        location: next_address(row.location),
        origin: next_address(row.origin),
        ..row
    }
}

/// Returns the address two words on.
fn next_address(address: i64) -> i64
    ensures { result ≡ next_address address }
{
    address.wrapping_add(2)
}

/// Writes the first line of a row.
fn put_first(
    alloc: Global,
    out: &mut Vec<u8>,
    row: &Row,
    words: &[u16],
    text: &[u8],
) -> Result<(), AllocError>
    ensures { OnOk result (out.new.items ≡ out.old.items ++ ended
        (address_fields row.now ++ value_field row.now words.now row.now.value ++ without_tabs 0 text.now)) }
{
    let mut line = Vec::new(alloc);
    put_addresses(alloc, &mut line, row)?;
    put_value(alloc, &mut line, row, words)?;
    put_text(&mut line, text)?;
    put_line(out, &line)
}

/// Writes a further line of a row.
fn put_further(alloc: Global, out: &mut Vec<u8>, row: &Row, words: &[u16]) -> Result<(), AllocError>
    ensures { OnOk result (out.new.items ≡ out.old.items ++ ended (address_fields row.now ++ words_field words.now)) }
{
    let mut line = Vec::new(alloc);
    put_addresses(alloc, &mut line, row)?;
    put_words(alloc, &mut line, words)?;
    put_line(out, &line)
}

/// Returns the address that a row names.
fn named(row: &Row) -> Option<i64>
    ensures { result ≡ named row.now.is_set row.now.value }
{
    match row.value {
        Some(value) if !row.is_set && value >= 0 && value < CELLS as i64 => Some(value),
        _ => None,
    }
}

/// Returns the address of a row, or the one that it names.
fn address(row: &Row) -> Option<i64>
    ensures { result ≡ address row.now }
{
    if row.has_address {
        Some(row.location)
    } else {
        named(row)
    }
}

/// Returns the address to which a row is loaded, if that is another one.
fn load_address(row: &Row) -> Option<i64>
    ensures { result ≡ load_address row.now }
{
    if row.has_address && row.origin != row.location {
        Some(row.origin)
    } else {
        None
    }
}

/// Writes an address after a mark, if there is one.
fn put_marked(out: &mut Vec<u8>, mark: &[u8], number: Option<i64>) -> Result<(), AllocError>
    ensures { OnOk result (out.new.items ≡ out.old.items ++ optional (λ number. mark.now ++ signed_octal number 4) number) }
{
    match number {
        Some(number) => {
            out.extend_from_slice(mark)?;
            put_octal(out, number, 4)
        }
        None => Ok(()),
    }
}

/// Writes the fields of the addresses of a row.
fn put_addresses(alloc: Global, out: &mut Vec<u8>, row: &Row) -> Result<(), AllocError>
    ensures { OnOk result (out.new.items ≡ out.old.items ++ address_fields row.now) }
{
    let mut text = Vec::new(alloc);
    put_marked(&mut text, b"", address(row))?;
    put_field(out, &text, ADDRESS)?;
    out.push(b' ')?;
    let mut text = Vec::new(alloc);
    put_marked(&mut text, b">", load_address(row))?;
    put_field(out, &text, LOAD)?;
    Ok(out.push(b' ')?)
}

/// Writes the number that a row names, if it is no address, or else the first words.
fn put_value(alloc: Global, out: &mut Vec<u8>, row: &Row, words: &[u16]) -> Result<(), AllocError>
    ensures { OnOk result (out.new.items ≡ out.old.items ++ value_field row.now words.now row.now.value) }
{
    match row.value {
        Some(value) if !row.has_address && named(row).is_none() => {
            let mut text = Vec::new(alloc);
            put_octal(&mut text, value, 1)?;
            put_field(out, &text, WORDS)
        }
        _ => put_words(alloc, out, words),
    }
}

/// Writes the first words of some, as many as a line has.
fn put_words(alloc: Global, out: &mut Vec<u8>, words: &[u16]) -> Result<(), AllocError>
    ensures { OnOk result (out.new.items ≡ out.old.items ++ words_field words.now) }
{
    let mut text = Vec::new(alloc);
    for word in &words[..words.len().min(WORDS_OF_LINE)] {
        put_number(&mut text, u64::from(*word), 4)?;
        text.push(b' ')?;
    }
    put_field(out, &text, WORDS)
}

/// Writes the text of a line, with tabs as blanks.
fn put_text(out: &mut Vec<u8>, text: &[u8]) -> Result<(), AllocError>
    ensures { OnOk result (out.new.items ≡ out.old.items ++ without_tabs 0 text.now) }
{
    let mut column = 0;
    for byte in text {
        if *byte == b'\t' {
            put_field(out, b"", TAB - column)?;
            column = 0;
        } else {
            out.push(*byte)?;
            column = next_column(column, *byte);
        }
    }
    Ok(())
}

/// Returns the column after a byte, modulo 8. A byte that goes on with a character of UTF-8 has none of its own.
fn next_column(column: usize, byte: u8) -> usize
    requires { column < 8 }
    ensures below { result < 8 }
    ensures next { result ≡ (if bit_and byte 0o300 == 0o200 then column else (column + 1) % 8) }
{
    if byte & 0o300 == 0o200 {
        column
    } else {
        (column + 1) % TAB
    }
}
