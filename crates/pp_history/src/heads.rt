//! Slots for the heads of actions, in blocks. The crate's page has a drawing.

ghost use Rattle.std.specs.Prelude.{◌≡◌, ◌≤◌, ◌<◌, ◌+◌, ℕ, Some, length, slice_get, take, IfOk};
ghost use Rattle.pp_history.specs.Heads.{IsHeads, IsSame, behind};

use circular_buffer::HeapCircularBuffer;
use std::alloc::{AllocError, Global};
use std::mem::replace;

/// The number of slots of a block (decimal).
pub(crate) const SLOTS: usize = 256;

/// Slots for heads. One block of them is in use; a place in it, 0 to `SLOTS`, is between two slots or at an end. Behind each
/// place there are at least `capacity` slots, and before it as many. No block is made or dropped after `new`.
#[derive(Drop)]
pub(crate) struct Heads<H> {
    /// The block in use.
    pub(crate) block: Vec<Option<H>>,
    /// The other blocks in a ring, the next one behind the block in use first, and the next one before it last.
    pub(crate) others: HeapCircularBuffer<Vec<Option<H>>>,
    pub(crate) capacity: usize,
}

impl<H: Drop> Heads<H> {
    /// Returns blocks without heads. Fails if there is no memory left.
    pub(crate) fn new(alloc: Global, capacity: usize) -> Result<Heads<H>, AllocError>
        requires { (1 ≤ capacity) × (capacity ≤ 10000) }
        ensures { IfOk result (λ heads. IsHeads heads × (heads.capacity ≡ capacity)) }
    {
        let count = (capacity - 1) / SLOTS + 1;
        let mut others = HeapCircularBuffer::with_capacity(alloc, count)?;
        for _block in 0..count {
            others.push_back(empty_block(alloc)?);
        }
        Ok(Heads {
            block: empty_block(alloc)?,
            others,
            capacity,
        })
    }

    /// Returns the head in the k-th slot behind the place `at`, counted from 0.
    #[inline(always)]
    #[tactic(auto, using(crate::proofs::Blocks::slot_here, crate::proofs::Blocks::slot_there, crate::proofs::Blocks::block_whole))]
    pub(crate) fn get(&self, at: usize, k: usize) -> &Option<H>
        requires is { IsHeads self.now }
        requires within { (at ≤ SLOTS) × (k < self.now.capacity) }
        ensures { (kept : ℕ) → k < kept → slice_get (take kept (behind self.now at)) k ≡ Some result.now }
    {
        let slot = at + k;
        if slot < SLOTS {
            &self.block[slot]
        } else {
            &self.others.get(slot / SLOTS - 1).unwrap()[slot % SLOTS]
        }
    }

    /// Returns the slot behind the place `at`. At the end of the block in use it is slot 0 of the next block behind, which
    /// comes into use.
    #[inline(always)]
    pub(crate) fn slot_behind(&mut self, at: usize) -> usize
        requires is { IsHeads self.old }
        requires within { at ≤ SLOTS }
        ensures is { IsHeads self.new }
        ensures within { result < SLOTS }
        ensures same { IsSame self.old at self.new result }
    {
        if at == SLOTS {
            self.turn_back();
            return 0;
        }
        at
    }

    /// Returns the slot before the place `at`. At the beginning of the block in use it is the last slot of the next block before,
    /// which comes into use.
    #[inline(always)]
    pub(crate) fn slot_before(&mut self, at: usize) -> usize
        requires is { IsHeads self.old }
        requires within { at ≤ SLOTS }
        ensures is { IsHeads self.new }
        ensures within { result < SLOTS }
        ensures same { IsSame self.old at self.new (result + 1) }
    {
        if at == 0 {
            self.turn_forward();
            return SLOTS - 1;
        }
        at - 1
    }

    /// The next block behind comes into use.
    #[cold]
    #[inline(never)]
    fn turn_back(&mut self)
        requires is { IsHeads self.old }
        ensures is { IsHeads self.new }
        ensures same { IsSame self.old SLOTS self.new 0 }
    {
        let next = self.others.pop_front().unwrap();
        self.others.push_back(replace(&mut self.block, next));
    }

    /// The next block before comes into use.
    #[cold]
    #[inline(never)]
    fn turn_forward(&mut self)
        requires is { IsHeads self.old }
        ensures is { IsHeads self.new }
        ensures same { IsSame self.old 0 self.new SLOTS }
    {
        let next = self.others.pop_back().unwrap();
        self.others.push_front(replace(&mut self.block, next));
    }
}

/// Returns a block of empty slots. Fails if there is no memory left.
fn empty_block<H: Drop>(alloc: Global) -> Result<Vec<Option<H>>, AllocError>
    ensures { IfOk result (λ block. length block.items ≡ SLOTS) }
{
    let mut block = Vec::with_capacity(alloc, SLOTS)?;
    for _slot in 0..SLOTS {
        block.push(None)?;
    }
    Ok(block)
}
