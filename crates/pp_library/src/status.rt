//! What each call returns. The numbers are those of `pp6600.h`.
ghost use Rattle.pp_console.specs.declared.answering.End.{End};
ghost use Rattle.pp_library.specs.Status.{end_status, run_status};
ghost use Rattle.std.specs.Prelude.{◌≡◌};

use pp_console::End;

/// All was done.
pub const DONE: u32 = 0;

/// The call stopped before what has no more room.
pub const ROOM: u32 = 1;

/// The last turn changed the number of a watched place.
pub const WATCHED: u32 = 2;

/// The handle has no session.
pub const CLOSED: u32 = 3;

/// The handle has a session already.
pub const OPEN: u32 = 4;

/// Memory ran out.
pub const NO_MEMORY: u32 = 5;

/// The program refuses the options, the machine does not have a place, or there are too few actions.
pub const REFUSED: u32 = 6;

/// A call answers at most 1,000,000 lines and 268,435,456 bytes (decimal).
pub const LIMIT: u32 = 7;

/// A condition came to hold in none of the actions that were searched.
pub const NOT_FOUND: u32 = 8;

/// Returns the status of answers that ended so.
pub fn end_status(end: End) -> u32
    ensures { result ≡ end_status end }
{
    match end {
        End::All => DONE,
        End::Room => ROOM,
        End::Limit => LIMIT,
    }
}

/// Returns the status of so many turns of at most `most`, of which the last may have changed a watched number.
pub fn run_status(hit: bool, turns: usize, most: usize) -> u32
    ensures { result ≡ run_status hit turns most }
{
    if hit {
        WATCHED
    } else if turns < most {
        ROOM
    } else {
        DONE
    }
}
