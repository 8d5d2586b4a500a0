//! Turns with the processor before each, which C reads as columns.
ghost use Rattle.pp_library.specs.Columns.{Columns};

use crate::handle::Handle;
use crate::status::{CLOSED, run_status};
use pp_rig::{TurnRow, record_rows};
use std::alloc::Global;

/// Performs turns until there were `most` (`DONE`), or one changed the number of a watched place (`WATCHED`), or there is no
/// more room in `rows` (`ROOM`). Writes the row before each turn.
#[unsafe(no_mangle)]
pub extern "C" fn pp6600_columns(
    alloc: Global,
    session: &mut Handle,
    most: u32,
    rows: &mut [TurnRow],
    turns: &mut usize,
) -> u32
    ensures { Columns most
        (record { session = session.old.value; rows = rows.old; turns = turns.old })
        (record { session = session.new.value; rows = rows.new; turns = turns.new }) result }
{
    let Some(mut console) = session.take(alloc) else {
        return CLOSED;
    };
    let ended = record_rows(&mut console.session, most as usize, rows);
    *turns = ended.turns;
    *session = Handle::of_box(console);
    run_status(ended.hit, ended.turns, most as usize)
}
