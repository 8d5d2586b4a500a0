//! The program of what a source puts into each cell of the memory.
ghost use Rattle.std.specs.Prelude.{◌≡◌, ◌<◌, IfOk};
ghost use Rattle.pp_notation.specs.Cells.{IsProgram, IsStart};

use crate::program::{Cell, Program};
use std::alloc::{AllocError, Global};

/// What the source puts into a cell: a word, of which twelve bits count, and the line, from 1, or 0 if there is nothing.
#[derive(Clone, Copy, Default)]
pub struct Slot {
    pub word: u16,
    pub line: u32,
}

/// Returns the program of the first 4096 slots, each that of the cell with its index: its words of twelve bits, and the address of
/// its beginning, each without the bits beyond.
///
/// # Errors
/// Memory ran out.
pub fn program_of(alloc: Global, slots: &[Slot], start: Option<u16>) -> Result<Program, AllocError>
    ensures cells { IfOk result (λ program. IsProgram program.cells.items) }
    ensures start { IfOk result (λ program. IsStart program.start) }
{
    Ok(Program::new(cells_of(alloc, slots)?, address_of(start)))
}

/// Returns an address of twelve bits.
fn address_of(start: Option<u16>) -> Option<u16>
    ensures { IsStart result }
{
    match start {
        Some(address) => Some(address & 0o7777),
        None => None,
    }
}

/// Returns the cells that have words, in the order of their addresses.
fn cells_of(alloc: Global, slots: &[Slot]) -> Result<Vec<Cell>, AllocError>
    ensures { IfOk result (λ cells. IsProgram cells.items) }
{
    let mut cells = Vec::new(alloc);
    for address in 0..0o10000 {
        if let Some(slot) = slots.get(address) {
            if slot.line != 0 {
                cells.push(cell_of(address, *slot))?;
            }
        }
    }
    Ok(cells)
}

/// Returns the cell at an address.
fn cell_of(address: usize, slot: Slot) -> Cell
    requires { address < 0o10000 }
    ensures address { result.address ≡ address }
    ensures word { result.word < 0o10000 }
{
    Cell {
        address: address as u16,
        word: slot.word & 0o7777,
        line: slot.line,
    }
}
