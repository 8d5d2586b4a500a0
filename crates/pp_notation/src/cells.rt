//! Whether cells are those of a memory.
ghost use Rattle.std.specs.Prelude.{◌↔◌, All, IsTrue};
ghost use Rattle.pp_notation.specs.Cells.{IsCell};

use crate::program::Cell;

/// Returns whether all are cells of a memory: each address and each word has twelve bits.
#[tactic(auto, using(crate::proofs::RowCells::cells))]
pub fn are_cells(cells: &[Cell]) -> bool
    ensures { IsTrue result ↔ All IsCell cells.now }
{
    cells
        .iter()
        .all(|cell| cell.address < 0o10000 && cell.word < 0o10000)
}
