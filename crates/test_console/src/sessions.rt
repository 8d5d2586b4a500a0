//! Sessions of two machines: one has only the required methods, and one overwrites its short and long undo records in
//! place.

ghost use Rattle.std.specs.Prelude.{◌≤◌};

use pp_history::*;
use std::alloc::Global;

mod dials;
mod gauge;

fn session_of<T: Reversible>(alloc: Global, machine: T, capacity: u32) -> Option<Session<T>>
    requires { (1 ≤ capacity) × (capacity ≤ 10000) }
{
    Session::new(alloc, machine, capacity).ok()
}

/// Returns the number that a place had before the newest action.
fn before_newest<T: Reversible>(session: &Session<T>, place: &T::Place) -> Option<u64> {
    match session.newest()? {
        UndoRecord::Head(head) => T::was(&T::unpack(head).1, place),
        UndoRecord::Tail(back) => T::was(back, place),
    }
}
