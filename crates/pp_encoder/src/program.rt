//! The program of an image.
ghost use Rattle.std.specs.Prelude.{◌≡◌, ◌<◌, IfOk, IfSome, length, map};
ghost use Rattle.pp_notation.specs.Cells.{IsProgram, IsStart};
ghost use Rattle.pp_meaning.specs.Cells.{addressed, filled};

use pp_meaning::{CELLS, Image};
use pp_notation::{Cell, Program};
use std::alloc::{AllocError, Global};

/// The greatest word.
const WORD: u32 = 0o7777;

/// Returns the cell at an address, with the line that a list has for it.
fn cell_at(address: usize, word: u32, lines: &[u32]) -> Cell
    requires address { address < 0o10000 }
    requires word { word < 0o10000 }
    ensures address { result.address ≡ address }
    ensures word { result.word ≡ word }
{
    let line = lines.get(address).copied().unwrap_or(0);
    Cell {
        address: address as u16,
        word: word as u16,
        line,
    }
}

/// Returns the cells that have words of twelve bits, or `None` if a word has more.
fn cells_of(
    alloc: Global,
    memory: &[Option<u32>],
    lines: &[u32],
) -> Result<Option<Vec<Cell>>, AllocError>
    requires { length memory.now ≡ 0o10000 }
    ensures program { IfOk result (λ made. IfSome made (λ cells. IsProgram cells.items)) }
    ensures words { IfOk result (λ made. IfSome made (λ cells. addressed cells.items ≡ filled 0 memory.now)) }
{
    let mut cells = Vec::new(alloc);
    for address in 0..CELLS {
        match memory[address] {
            None => {}
            Some(word) => {
                if word > WORD {
                    return Ok(None);
                }
                cells.push(cell_at(address, word, lines))?;
            }
        }
    }
    Ok(Some(cells))
}

/// Returns the address at which a program begins, if it has twelve bits.
fn start_of(start: Option<u32>) -> Option<Option<u16>>
    ensures in_range { IfSome result IsStart }
    ensures same { IfSome result (λ address. address ≡ start) }
{
    match start {
        None => Some(None),
        Some(address) if address <= WORD => Some(Some(address as u16)),
        Some(_) => None,
    }
}

/// Returns the program that has the words of an image, or `None` if a word has more than twelve bits. Each cell has the line that a
/// list has at its address.
///
/// # Errors
/// Memory ran out.
pub fn program_of(
    alloc: Global,
    image: &Image,
    lines: &[u32],
) -> Result<Option<Program>, AllocError>
    ensures cells { IfOk result (λ made. IfSome made (λ program. addressed program.cells.items ≡ filled 0 image.now.memory.items)) }
    ensures start { IfOk result (λ made. IfSome made (λ program. program.start ≡ image.now.start)) }
{
    if image.memory.len() != CELLS {
        return Ok(None);
    }
    let Some(start) = start_of(image.start) else {
        return Ok(None);
    };
    match cells_of(alloc, &image.memory, lines)? {
        Some(cells) => Ok(Some(Program::new(cells, start))),
        None => Ok(None),
    }
}
