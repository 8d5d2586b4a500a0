//! What a session keeps of its actions, in blocks and rings.

ghost use Rattle.std.specs.Prelude.{◌≡◌, ◌≤◌, IfOk};
ghost use Rattle.pp_history.specs.{Parts.IsSession, SessionValue.fresh};

use crate::heads::Heads;
use crate::reversible::Reversible;
use crate::tails::Tails;
use circular_buffer::HeapCircularBuffer;
use std::alloc::{AllocError, Global};

/// The newest actions, at most as many as the capacity of the heads. Some were undone; the others have undo records.
/// Each slot is written when the log is made. Memory for tails is touched only as they are made.
#[derive(Drop)]
pub(crate) struct Log<A, R, H> {
    /// An action that is performed overwrites a head in place.
    pub(crate) heads: Heads<H>,
    /// The place between the slots: the heads of the kept actions are behind it, those of the undone ones before it.
    pub(crate) at: usize,
    /// How many actions are kept.
    pub(crate) kept: usize,
    /// How many actions were undone and can be performed again.
    pub(crate) ahead: usize,
    /// The kept actions without a head, the newest first, and then discarded ones.
    pub(crate) tails: Tails<A, R>,
    /// The undone actions without a head, the next to perform again first, and then discarded ones.
    pub(crate) undone: HeapCircularBuffer<A>,
}

impl<A: Drop, R: Drop, H: Drop> Log<A, R, H> {
    /// Returns an empty log. Fails if there is no memory left.
    pub(crate) fn new<T: Reversible<Action = A, Record = R, Head = H>>(
        alloc: Global,
        capacity: u32,
    ) -> Result<Log<A, R, H>, AllocError>
        requires { (1 ≤ capacity) × (capacity ≤ 10000) }
        ensures { IfOk result (λ log. (machine : T) → (is : IsSession T.Reversible machine log) × (is.value ≡ fresh machine capacity)) }
    {
        let heads = Heads::new(alloc, capacity as usize)?;
        let tails = Tails::new(alloc, capacity as usize)?;
        let undone = HeapCircularBuffer::with_capacity(alloc, capacity as usize)?;
        Ok(Log {
            heads,
            at: 0,
            kept: 0,
            ahead: 0,
            tails,
            undone,
        })
    }
}
