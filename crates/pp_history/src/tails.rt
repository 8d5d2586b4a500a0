//! The kept actions that no head holds.

ghost use Rattle.std.specs.Prelude.{◌≡◌, ◌≤◌, Some, [], IfOk};
ghost use Rattle.circular_buffer.specs.Buffer.{buffer};
ghost use Rattle.pp_history.specs.Tails.{pushed};

use circular_buffer::HeapCircularBuffer;
use std::alloc::{AllocError, Global};

/// An action and its undo record. Each one is missing once it is moved out, and the tail is discarded then.
#[derive(Drop)]
pub struct Tail<A, R> {
    pub action: Option<A>,
    pub back: Option<R>,
}

/// Tails in a ring, the newest first.
#[derive(Drop)]
pub struct Tails<A, R> {
    pub(crate) ring: HeapCircularBuffer<Tail<A, R>>,
}

impl<A: Drop, R: Drop> Tails<A, R> {
    ghost use Rattle.std.specs.{Borrow.LendsIf, Borrow.sem, Option.option_copied_mut, Prelude.slice_get};
    ghost use Rattle.pp_history.specs.Tails.{with_newest};
    ghost use Rattle.pp_history.specs.contracts.tails.Tail.{the_row as tail_row};
    ghost use Rattle.pp_history.specs.contracts.tails.Tails.{the_row};

    /// Returns a ring without tails. Fails if there is no memory left.
    pub(crate) fn new(alloc: Global, capacity: usize) -> Result<Tails<A, R>, AllocError>
        ensures { IfOk result (λ tails. tails.ring ≡ buffer [] capacity) }
    {
        Ok(Tails {
            ring: HeapCircularBuffer::with_capacity(alloc, capacity)?,
        })
    }

    /// Returns the newest tail, or `None` if there is none.
    #[inline(always)]
    pub fn newest(&mut self) -> Option<&mut Tail<A, R>>
        ensures* writes_back { sem 𝓛 (LendsIf (the_row A.row R.row) (tail_row A.row R.row) self.entry result (with_newest self.old) self.old) }
        ensures value { option_copied_mut result ≡ slice_get self.old.ring.items 0 }
    {
        self.ring.get_mut(0)
    }

    /// Puts an action with its undo record in front. If the ring is full, the oldest tail is dropped.
    #[inline(always)]
    pub fn push(&mut self, action: A, back: R)
        requires { 1 ≤ self.old.ring.capacity }
        ensures { self.new.ring ≡ pushed (record { action = Some action; back = Some back }) self.old.ring }
    {
        push(
            &mut self.ring,
            Tail {
                action: Some(action),
                back: Some(back),
            },
        );
    }
}

/// Puts an item in front of a ring. If the ring is full, the last item is dropped in place; `push_front` would copy it
/// out.
#[inline(always)]
pub(crate) fn push<E: Drop>(items: &mut HeapCircularBuffer<E>, item: E)
    requires { 1 ≤ items.old.capacity }
    ensures { items.new ≡ pushed item items.old }
{
    items.truncate_back(items.capacity() - 1);
    let _pushed = items.try_push_front(item);
}
