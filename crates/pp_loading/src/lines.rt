//! Writes the lines of the console that load a program.
ghost use Rattle.std.specs.Prelude.{◌≡◌, ◌<◌, ◌≤◌, ◌++◌, ◌∷◌, [], All, IfOk, OnOk, length, take};
ghost use Rattle.pp_notation.specs.Cells.{IsCell, IsStart};
ghost use Rattle.pp_notation.specs.Rows.{IsRow, first_address};
ghost use Rattle.pp_machine.specs.Writes.{Writes};
ghost use Rattle.pp_machine.specs.declared.place.Place.{Place};
ghost use Rattle.pp_loading.specs.Inner.Rows.{LoadsWhole, cells_line, start_line, word_text};
ghost use Rattle.pp_loading.specs.LoadLines.{Loads, cell_list, start_list};

use pp_arith::octal;
use pp_notation::Cell;
use std::alloc::{AllocError, Global};

/// The most words that a line sets.
const ROW: usize = 8;

/// Appends a blank and a number in octal, without leading zeros.
fn put_number(text: &mut Vec<u8>, number: u16) -> Result<(), AllocError>
    ensures { OnOk result (text.new.items ≡ text.old.items ++ word_text number) }
{
    text.push(b' ')?;
    text.extend_from_slice(octal(u64::from(number), 1).as_slice())
}

/// Appends the line that sets cells whose addresses follow one another: `SET M n a v ..`.
fn put_cells(text: &mut Vec<u8>, pp: u8, row: &[Cell]) -> Result<(), AllocError>
    requires { 0 < length row.now }
    ensures { OnOk result (text.new.items ≡ text.old.items ++ (cells_line pp row.now ++ 10 ∷ [])) }
{
    text.extend_from_slice(b"SET M")?;
    put_number(text, u16::from(pp))?;
    put_number(text, row[0].address)?;
    for cell in row {
        put_number(text, cell.word)?;
    }
    text.push(b'\n')?;
    Ok(())
}

/// Appends the line that sets P: `SET P n a`.
fn put_address(text: &mut Vec<u8>, pp: u8, address: u16) -> Result<(), AllocError>
    ensures { OnOk result (text.new.items ≡ text.old.items ++ (start_line pp address ++ 10 ∷ [])) }
{
    text.extend_from_slice(b"SET P")?;
    put_number(text, u16::from(pp))?;
    put_number(text, address)?;
    text.push(b'\n')?;
    Ok(())
}

/// Appends the line that sets P, if a program names its start.
fn put_start(text: &mut Vec<u8>, pp: u8, start: Option<u16>) -> Result<(), AllocError>
    requires pp { pp < 10 }
    requires start { IsStart start }
    ensures { OnOk result ((list : Writes Place) → LoadsWhole text.old.items list →
        LoadsWhole text.new.items (start_list pp start ++ list)) }
{
    let Some(address) = start else {
        return Ok(());
    };
    put_address(text, pp, address)?;
    Ok(())
}

/// Returns how many of the first cells a line sets: their addresses follow one another, and they are at most eight.
#[tactic(auto, using(pp_notation::proofs::RowCells::rows))]
fn row_len(cells: &[Cell]) -> usize
    requires some { 0 < length cells.now }
    requires cells { All IsCell cells.now }
    ensures some { 0 < result }
    ensures at_most { result ≤ ROW }
    ensures within { result ≤ length cells.now }
    ensures row { IsRow (first_address cells.now) (take result cells.now) }
{
    let first = usize::from(cells[0].address);
    let mut count = 1;
    while count < ROW && count < cells.len() && usize::from(cells[count].address) == first + count {
        count += 1;
    }
    count
}

/// Appends the lines that set cells.
fn put_program(text: &mut Vec<u8>, pp: u8, cells: &[Cell]) -> Result<(), AllocError>
    requires pp { pp < 10 }
    requires cells { All IsCell cells.now }
    requires empty { text.old.items ≡ [] }
    ensures { OnOk result (LoadsWhole text.new.items (cell_list pp cells.now)) }
{
    let mut done = 0;
    while done < cells.len() {
        let count = row_len(&cells[done..]);
        put_cells(text, pp, &cells[done..done + count])?;
        done += count;
    }
    Ok(())
}

/// Returns the lines of the console that load a program into processor `pp`, 0 to 11 octal: `SET M n a v ..` for its
/// cells, at most eight a line, and `SET P n a` if it names its start.
///
/// # Errors
/// `AllocError` if memory runs out.
pub fn load_lines(
    alloc: Global,
    cells: &[Cell],
    start: Option<u16>,
    pp: u8,
) -> Result<Vec<u8>, AllocError>
    requires cells { All IsCell cells.now }
    requires start { IsStart start }
    requires pp { pp < 10 }
    ensures { IfOk result (λ text. Loads text.items (start_list pp start ++ cell_list pp cells.now)) }
{
    let mut text = Vec::new(alloc);
    put_program(&mut text, pp, cells)?;
    put_start(&mut text, pp, start)?;
    Ok(text)
}
