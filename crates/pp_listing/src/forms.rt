//! What is written of a source: what is wrong with it, its words, its listing, whose line each word is, its names.
ghost use Rattle.std.specs.Prelude.{◌≡◌, ◌++◌, IfOk, OnOk, codes, slice_get};
ghost use Rattle.std.specs.List.{flat_map};
ghost use Rattle.pp_arith.specs.Octal.{octal_text};
ghost use Rattle.pp_listing.specs.Listing.{listed_row};
ghost use Rattle.pp_listing.specs.Texts.{addresses, cell_lines, complaint_line, complaint_lines, name_line, numbers_line, row_line};
ghost use Rattle.pp_listing.specs.Texts.{row_words, start_line, unqualified, value_line};

use crate::listing::put_row;
use pp_assembler::{Assembly, CELLS, Complaint, Definition, Line, Row, Symbol};
use pp_notation::{put_decimal, put_number, put_octal};
use std::alloc::{AllocError, Global};

/// Returns a line for each message and then for each warning: its line and its column, decimal and from 1, and its text.
///
/// # Errors
/// Memory ran out.
pub fn complaints_text(alloc: Global, made: &Assembly) -> Result<Vec<u8>, AllocError>
    ensures { IfOk result (λ text. text.items ≡ complaint_lines made.now.messages.items ++ complaint_lines
        made.now.warnings.items) }
{
    let mut out = Vec::new(alloc);
    put_complaints(alloc, &mut out, &made.messages)?;
    put_complaints(alloc, &mut out, &made.warnings)?;
    Ok(out)
}

/// Writes a line for each complaint.
fn put_complaints(
    alloc: Global,
    out: &mut Vec<u8>,
    complaints: &[Complaint],
) -> Result<(), AllocError>
    ensures { OnOk result (out.new.items ≡ out.old.items ++ complaint_lines complaints.now) }
{
    for complaint in complaints {
        put_complaint(alloc, out, complaint)?;
    }
    Ok(())
}

/// Writes the line of a complaint.
fn put_complaint(alloc: Global, out: &mut Vec<u8>, complaint: &Complaint) -> Result<(), AllocError>
    ensures { OnOk result (out.new.items ≡ out.old.items ++ complaint_line complaint.now) }
{
    put_decimal(alloc, out, complaint.line)?;
    out.push(b':')?;
    put_decimal(alloc, out, complaint.column)?;
    out.extend_from_slice(b": ")?;
    out.extend_from_slice(&complaint.text)?;
    out.push(b'\n')?;
    Ok(())
}

/// Returns a line for each cell: its address and its word, octal; and if the program says where it begins, a last line with P and
/// that address.
///
/// # Errors
/// Memory ran out.
pub fn words_text(alloc: Global, made: &Assembly) -> Result<Vec<u8>, AllocError>
    ensures { IfOk result (λ text. text.items ≡ cell_lines made.now.program.cells.items ++ start_line made.now.program.start) }
{
    let mut out = Vec::new(alloc);
    let cells = made.program.cells();
    for cell in cells {
        put_number(&mut out, u64::from(cell.address), 4)?;
        out.push(b' ')?;
        put_number(&mut out, u64::from(cell.word), 4)?;
        out.push(b'\n')?;
    }
    put_start(&mut out, made.program.start())?;
    Ok(out)
}

/// Writes where a program begins, if it says so.
pub fn put_start(out: &mut Vec<u8>, start: Option<u16>) -> Result<(), AllocError>
    ensures { OnOk result (out.new.items ≡ out.old.items ++ start_line start) }
{
    match start {
        Some(start) => {
            out.extend_from_slice(b"P ")?;
            put_number(out, u64::from(start), 4)?;
            Ok(out.push(b'\n')?)
        }
        None => Ok(()),
    }
}

/// Returns the listing.
///
/// # Errors
/// Memory ran out.
pub fn listing_text(alloc: Global, made: &Assembly) -> Result<Vec<u8>, AllocError>
    ensures { IfOk result (λ text. text.items ≡ flat_map (listed_row made.now) made.now.rows.items) }
{
    let mut out = Vec::new(alloc);
    for row in &made.rows {
        put_row(alloc, &mut out, made, row)?;
    }
    Ok(out)
}

/// Returns the words of a row.
pub fn words_of<'a>(made: &'a Assembly, row: &Row) -> &'a [u16]
    ensures { result.now ≡ row_words made.now row.now }
{
    made.words.get(row.first..row.end).unwrap_or(&[])
}

/// Returns a line for each row of the listing that has words: the number of its line, its location, its origin and its words,
/// octal.
///
/// # Errors
/// Memory ran out.
pub fn lines_text(alloc: Global, made: &Assembly) -> Result<Vec<u8>, AllocError>
    ensures { IfOk result (λ text. text.items ≡ flat_map (row_line made.now) made.now.rows.items) }
{
    let mut out = Vec::new(alloc);
    for row in &made.rows {
        put_row_line(&mut out, made, row)?;
    }
    Ok(out)
}

/// Returns the line of a row, if it is one of the source.
pub fn line_of(made: &Assembly, row: &Row) -> Option<Line>
    ensures { result ≡ slice_get made.now.lines.all.items row.now.statement }
{
    made.lines.all.get(row.statement).copied()
}

/// Writes the line of a row, if it has words.
fn put_row_line(out: &mut Vec<u8>, made: &Assembly, row: &Row) -> Result<(), AllocError>
    ensures { OnOk result (out.new.items ≡ out.old.items ++ row_line made.now row.now) }
{
    let words = words_of(made, row);
    match line_of(made, row) {
        Some(line) => put_numbers(out, line.number, row, words),
        None => Ok(()),
    }
}

/// Writes a number of a line, a location, an origin and words, if there are words.
fn put_numbers(out: &mut Vec<u8>, number: u32, row: &Row, words: &[u16]) -> Result<(), AllocError>
    ensures { OnOk result (out.new.items ≡ out.old.items ++ numbers_line number row.now words.now) }
{
    if words.is_empty() {
        return Ok(());
    }
    put_number(out, u64::from(number), 1)?;
    put_addresses(out, row)?;
    put_words(out, words)?;
    Ok(out.push(b'\n')?)
}

/// Writes the location and the origin of a row, each after a blank.
pub fn put_addresses(out: &mut Vec<u8>, row: &Row) -> Result<(), AllocError>
    ensures { OnOk result (out.new.items ≡ out.old.items ++ addresses row.now) }
{
    out.push(b' ')?;
    put_octal(out, row.location, 4)?;
    out.push(b' ')?;
    put_octal(out, row.origin, 4)
}

/// Writes words, each after a blank.
pub fn put_words(out: &mut Vec<u8>, words: &[u16]) -> Result<(), AllocError>
    ensures { OnOk result (out.new.items ≡ out.old.items ++ flat_map (λ word. codes " " ++ octal_text word 4) words.now) }
{
    for word in words {
        out.push(b' ')?;
        put_number(out, u64::from(*word), 4)?;
    }
    Ok(())
}

/// Returns a line for each label, as `LOOP 0106`, and for each other name of one number that is not minus, as `SIZE = 12`, octal.
///
/// # Errors
/// Memory ran out.
pub fn names_text(alloc: Global, made: &Assembly) -> Result<Vec<u8>, AllocError>
    ensures { IfOk result (λ text. text.items ≡ flat_map (name_line made.now.symbols.text.items) made.now.symbols.all.items) }
{
    let mut out = Vec::new(alloc);
    for symbol in &made.symbols.all {
        put_name(&mut out, &made.symbols.text, symbol)?;
    }
    Ok(out)
}

/// Writes the line of a name, if it has one number. Its key is in the text.
fn put_name(out: &mut Vec<u8>, text: &[u8], symbol: &Symbol) -> Result<(), AllocError>
    ensures { OnOk result (out.new.items ≡ out.old.items ++ name_line text.now symbol.now) }
{
    let name = without_qualifier(symbol.key.of(text));
    match symbol.seen {
        Some(
            Definition {
                value: Some(value),
                is_address,
                is_set: false,
                ..
            },
        ) => put_value(out, name, value, is_address),
        _ => Ok(()),
    }
}

/// Writes the line of a name that stands for a number, if that is not minus.
fn put_value(out: &mut Vec<u8>, name: &[u8], value: i64, is_address: bool) -> Result<(), AllocError>
    ensures { OnOk result (out.new.items ≡ out.old.items ++ value_line name.now value is_address) }
{
    if value < 0 {
        return Ok(());
    }
    out.extend_from_slice(name)?;
    if is_address && value < CELLS as i64 {
        out.push(b' ')?;
        put_octal(out, value, 4)?;
        Ok(out.push(b'\n')?)
    } else {
        out.extend_from_slice(b" = ")?;
        put_octal(out, value, 1)?;
        Ok(out.push(b'\n')?)
    }
}

/// Returns a name without its qualifier.
fn without_qualifier(key: &[u8]) -> &[u8]
    ensures { result.now ≡ unqualified key.now }
{
    let mut name = key;
    while name.contains(&b'/') {
        name = &name[1..];
    }
    name
}
