//! Turns, and what the processor is about to do before each of them.
ghost use Rattle.pp_history.specs.SessionValue.{Moves};
ghost use Rattle.pp_rig.specs.Columns.{EndsAsStep};
ghost use Rattle.pp_rig.specs.Rules.{rules};
ghost use Rattle.pp_rig.specs.Stopping.{after_turns, turned};
ghost use Rattle.pp_rig.specs.TurnRows.{rows_before};
ghost use Rattle.std.specs.Prelude.{◌≡◌, ◌+◌, ◌≤◌, ◌++◌, ◌⊎◌, false, length, take};

use crate::columns::Ended;
use crate::rig::Rig;
use crate::stopping::turn_once;
use pp_history::{Sampled, Session};

/// What the processor in the slot is about to do.
#[repr(C)]
#[derive(Clone, Copy, Default, Drop)]
pub struct TurnRow {
    /// The processor, 0 to 9.
    pub processor: u16,
    /// Its P.
    pub p: u16,
    /// Its A.
    pub a: u32,
    /// Its Q.
    pub q: u16,
    /// Its phase: 0 outside a block transfer, and during one the first word of its instruction.
    pub phase: u16,
    /// The word in the cell P.
    pub word: u16,
    /// The word in the cell after P, which is m if the instruction has two words.
    pub m: u16,
}

/// Performs turns, 1 to `most`, and writes the row before each, behind the first `first`. Only the last turn may have changed
/// the number of a watched place. If no place is watched, one loop performs all that a block of the session has room for.
/// Returns also whether the last turn changed one.
#[inline(always)]
fn rows_part(
    session: &mut Session<Rig>,
    most: usize,
    rows: &mut [TurnRow],
    first: usize,
) -> (usize, bool)
    requires some { 1 ≤ most }
    requires room { first + most ≤ length rows.old }
    ensures some { (1 ≤ result.0) × (result.0 ≤ most) }
    ensures moves { Moves rules session.old session.new (after_turns result.0) }
    ensures machine { session.new.machine ≡ turned result.0 session.old.machine }
    ensures stops { EndsAsStep result.0 session.old.machine result.1 }
    ensures rows { take (first + result.0) rows.new ≡ take first rows.old ++ rows_before result.0 session.old.machine }
{
    if session.machine().watches().is_empty() {
        return (session.repeat_sampled(most, rows, first), false);
    }
    rows[first] = session.machine().sample();
    (1, turn_once(session))
}

/// Performs turns until there were `most`, or one changed the number of a watched place, or `rows` has no room for one more.
/// Writes the row before each turn into `rows`.
pub fn record_rows(session: &mut Session<Rig>, most: usize, rows: &mut [TurnRow]) -> Ended
    ensures moves { Moves rules session.old session.new (after_turns result.turns) }
    ensures stops { EndsAsStep result.turns session.old.machine result.hit }
    ensures rows { take result.turns rows.new ≡ rows_before result.turns session.old.machine }
    ensures within { (result.turns ≤ most) × (result.turns ≤ length rows.new) }
    ensures full { result.hit ≡ false → (most ≤ result.turns) ⊎ (length rows.new ≤ result.turns) }
{
    let mut turns = 0;
    let end = most.min(rows.len());
    while turns < end {
        let (count, hit) = rows_part(session, end - turns, rows, turns);
        turns += count;
        if hit {
            return Ended { turns, hit };
        }
    }
    Ended { turns, hit: false }
}
