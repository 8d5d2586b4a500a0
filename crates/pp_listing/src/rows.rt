//! All that is known of a source's rows and programs, for tools.
ghost use Rattle.std.specs.Prelude.{◌≡◌, ◌++◌, IfOk, OnOk, slice_get};
ghost use Rattle.std.specs.List.{flat_map};
ghost use Rattle.pp_listing.specs.Rows.{flag, kind, known_row, letters, line_fields, mark, numbered_cell, program_lines};
ghost use Rattle.pp_listing.specs.Rows.{row_fields, row_numbers, unit_lines, value_text};

use crate::forms::{line_of, put_addresses, put_start, put_words, words_of};
use crate::listing::text_of;
use pp_assembler::{Assembly, Line, Row, Unit};
use pp_notation::{Cell, Program, put_number, put_octal};
use std::alloc::{AllocError, Global};

/// Returns a line for each row of the listing, with all that is known of it, and behind a tab the text of its line.
///
/// # Errors
/// Memory ran out.
pub fn rows_text(alloc: Global, made: &Assembly) -> Result<Vec<u8>, AllocError>
    ensures { IfOk result (λ text. text.items ≡ flat_map (known_row made.now) made.now.rows.items) }
{
    let mut out = Vec::new(alloc);
    for row in &made.rows {
        put_known(&mut out, made, row)?;
    }
    Ok(out)
}

/// Writes all that is known of a row.
fn put_known(out: &mut Vec<u8>, made: &Assembly, row: &Row) -> Result<(), AllocError>
    ensures { OnOk result (out.new.items ≡ out.old.items ++ known_row made.now row.now) }
{
    put_fields(out, line_of(made, row), row)?;
    put_numbers(out, made, row)?;
    out.push(b'\t')?;
    out.extend_from_slice(text_of(made, row))?;
    Ok(out.push(b'\n')?)
}

/// Writes what a row is.
fn put_fields(out: &mut Vec<u8>, line: Option<Line>, row: &Row) -> Result<(), AllocError>
    ensures { OnOk result (out.new.items ≡ out.old.items ++ row_fields line row.now) }
{
    put_line(out, line)?;
    put_addresses(out, row)?;
    put_letters(out, row)
}

/// Writes the number that a row names, and its words.
fn put_numbers(out: &mut Vec<u8>, made: &Assembly, row: &Row) -> Result<(), AllocError>
    ensures { OnOk result (out.new.items ≡ out.old.items ++ row_numbers made.now row.now) }
{
    put_value(out, row)?;
    put_words(out, words_of(made, row))
}

/// Writes what the line of a row is.
fn put_line(out: &mut Vec<u8>, line: Option<Line>) -> Result<(), AllocError>
    ensures { OnOk result (out.new.items ≡ out.old.items ++ line_fields line) }
{
    match line {
        Some(line) => {
            put_number(out, u64::from(line.number), 1)?;
            out.push(b' ')?;
            put_number(out, line.text.first as u64, 1)?;
            out.push(b' ')?;
            Ok(out.push(kind(line))?)
        }
        None => out.extend_from_slice(b"0 0 L"),
    }
}

/// Returns S for a line of the source, M for one that the call of a macro made.
fn kind(line: Line) -> u8
    ensures { result ≡ kind line }
{
    match line.call {
        None => b'S',
        Some(_) => b'M',
    }
}

/// Returns a letter, or else a minus.
fn flag(is: bool, letter: u8) -> u8
    ensures { result ≡ flag is letter }
{
    if is { letter } else { b'-' }
}

/// Returns ~ for a number that SET may change, = for another one.
fn mark(is_set: bool) -> u8
    ensures { result ≡ mark is_set }
{
    if is_set { b'~' } else { b'=' }
}

/// Writes whether a row has an address, and whether its line was performed.
fn put_letters(out: &mut Vec<u8>, row: &Row) -> Result<(), AllocError>
    ensures { OnOk result (out.new.items ≡ out.old.items ++ letters row.now) }
{
    out.push(b' ')?;
    out.push(flag(row.has_address, b'A'))?;
    Ok(out.push(flag(row.is_performed, b'P'))?)
}

/// Writes the number that a row names, if it names one.
fn put_value(out: &mut Vec<u8>, row: &Row) -> Result<(), AllocError>
    ensures { OnOk result (out.new.items ≡ out.old.items ++ value_text row.now.is_set row.now.value) }
{
    match row.value {
        Some(value) => {
            out.push(b' ')?;
            out.push(mark(row.is_set))?;
            put_octal(out, value, 1)
        }
        None => Ok(()),
    }
}

/// Returns for each program of a source a line for each of its cells, with its word and the number of the line that put it there,
/// octal, and if the program says where it begins, a last line with P and that address. Before each program but the first is a line
/// with its name.
///
/// # Errors
/// Memory ran out.
pub fn units_text(alloc: Global, made: &Assembly) -> Result<Vec<u8>, AllocError>
    ensures { IfOk result (λ text. text.items ≡ program_lines made.now.program ++ flat_map unit_lines made.now.others.items) }
{
    let mut out = Vec::new(alloc);
    put_program(&mut out, &made.program)?;
    for unit in &made.others {
        put_unit(&mut out, unit)?;
    }
    Ok(out)
}

/// Writes a further program of a source, after its name.
fn put_unit(out: &mut Vec<u8>, unit: &Unit) -> Result<(), AllocError>
    ensures { OnOk result (out.new.items ≡ out.old.items ++ unit_lines unit.now) }
{
    out.extend_from_slice(b"IDENT ")?;
    out.extend_from_slice(&unit.name)?;
    out.push(b'\n')?;
    put_program(out, &unit.program)
}

/// Writes a program.
fn put_program(out: &mut Vec<u8>, program: &Program) -> Result<(), AllocError>
    ensures { OnOk result (out.new.items ≡ out.old.items ++ program_lines program.now) }
{
    put_cells(out, program.cells())?;
    put_start(out, program.start())
}

/// Writes a line for each cell.
fn put_cells(out: &mut Vec<u8>, cells: &[Cell]) -> Result<(), AllocError>
    ensures { OnOk result (out.new.items ≡ out.old.items ++ flat_map numbered_cell cells.now) }
{
    for cell in cells {
        put_cell(out, cell)?;
    }
    Ok(())
}

/// Writes the line of a cell.
fn put_cell(out: &mut Vec<u8>, cell: &Cell) -> Result<(), AllocError>
    ensures { OnOk result (out.new.items ≡ out.old.items ++ numbered_cell cell.now) }
{
    put_number(out, u64::from(cell.address), 4)?;
    out.push(b' ')?;
    put_number(out, u64::from(cell.word), 4)?;
    out.push(b' ')?;
    put_number(out, u64::from(cell.line), 1)?;
    Ok(out.push(b'\n')?)
}
