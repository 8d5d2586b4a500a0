//! The blocks of USE.
ghost use Rattle.std.specs.Prelude.{◌≡◌, ◌++◌, ◌∷◌, ◌+◌, ◌-◌, ◌==◌, [], bytes_eq, IfOk};
ghost use Rattle.std.specs.Prelude.{IfSome, IsTrue, Some, length, slice_get, true};
ghost use Rattle.pp_meaning.specs.Blocks.{block_before, block_from, block_used, block_with_name, closed, entered, left, lie_behind};
ghost use Rattle.pp_meaning.specs.Blocks.{named_block, nominal, used_block};
ghost use Rattle.pp_meaning.specs.Meaning.{with_blocks};
ghost use Rattle.pp_meaning.specs.Standing.{Standing, standing};

use crate::expressions::{Literal, Operand};
use crate::literals::size_of_all;
use crate::statements::{Block, Counters, State};
use std::alloc::AllocError;

/// Returns whether two names are one.
fn are_same(name: &[u8], other: &[u8]) -> bool
    ensures { result ≡ bytes_eq name.now other.now }
{
    name == other
}

/// Returns the index of the block with a name.
fn find_block(blocks: &[Block], name: &[u8]) -> Option<usize>
    ensures { IfSome result (λ index. block_from 0 blocks.now name.now ≡ Some index) }
{
    let mut index: usize = 0;
    for block in blocks {
        if are_same(&block.name, name) {
            return Some(index);
        }
        index = index.checked_add(1)?;
    }
    None
}

/// Returns whether blocks lie one behind another, from a cell on, each with its counters.
fn are_behind(first: usize, blocks: &[Block], counters: &[Counters]) -> bool
    ensures { IsTrue result → lie_behind first blocks.now counters.now ≡ true }
{
    let mut cell = first;
    let mut rest = counters;
    for block in blocks {
        let [own, others @ ..] = rest else {
            return false;
        };
        if block.base != cell {
            return false;
        }
        cell = own.reach;
        rest = others;
    }
    true
}

impl State {
    /// Keeps the counters of the present block.
    fn leave(&mut self) -> Option<()>
        ensures { IfSome result (λ done. left (standing self.old) ≡ standing self.new) }
    {
        let counters = Counters {
            location: self.location,
            origin: self.origin,
            reach: self.reach,
        };
        let block = self.block;
        if block >= self.blocks.len() {
            return None;
        }
        self.blocks[block] = counters;
        Some(())
    }

    /// Enters a block where it was left.
    fn enter(&mut self, index: usize) -> Option<()>
        ensures { IfSome result (λ done. entered (standing self.old) index ≡ Some (standing self.new)) }
    {
        let Counters {
            location,
            origin,
            reach,
        } = *self.blocks.get(index)?;
        self.block = index;
        self.location = location;
        self.origin = origin;
        self.reach = reach;
        self.used = 0;
        Some(())
    }

    /// Leaves the present block for another one.
    fn use_block(&mut self, index: usize) -> Result<Option<()>, AllocError>
        ensures { IfOk result (λ made. IfSome made (λ done. used_block (standing self.old) index ≡ Some (standing self.new))) }
    {
        let block = self.block;
        if self.leave().is_none() {
            return Ok(None);
        }
        self.before.push(block)?;
        Ok(self.enter(index))
    }

    /// Leaves the present block for the one before.
    fn use_before(&mut self) -> Option<()>
        ensures { IfSome result (λ done. block_before (standing self.old)
            (slice_get (standing self.old).before (length (standing self.old).before - 1)) ≡ Some (standing self.new)) }
    {
        self.leave()?;
        let last = self.before.len().saturating_sub(1);
        match self.before.get(last).copied() {
            None => self.enter(0),
            Some(index) => {
                self.before.truncate(last);
                self.enter(index)
            }
        }
    }

    /// Leaves the present block for one of the others, which USE may not have named before.
    fn use_named(&mut self, index: usize) -> Result<Option<()>, AllocError>
        ensures { IfOk result (λ made. IfSome made (λ done. named_block (standing self.old) (Some index) ≡ Some
            (standing self.new))) }
    {
        let Some(next) = index.checked_add(1) else {
            return Ok(None);
        };
        if index > self.named {
            return Ok(None);
        }
        if index == self.named {
            self.named = next;
        }
        self.use_block(next)
    }

    /// Leaves the present block for the one with a name.
    fn use_name(&mut self, blocks: &[Block], name: &[u8]) -> Result<Option<()>, AllocError>
        ensures { IfOk result (λ made. IfSome made (λ done. block_with_name blocks.now (standing self.old) name.now ≡ Some
            (standing self.new))) }
    {
        if are_same(name, b"0") {
            return self.use_block(0);
        }
        if are_same(name, b"*") {
            return Ok(self.use_before());
        }
        match find_block(blocks, name) {
            Some(index) => self.use_named(index),
            None => Ok(None),
        }
    }

    /// USE.
    pub(crate) fn use_any(
        &mut self,
        blocks: &[Block],
        operands: &[Operand],
    ) -> Result<Option<()>, AllocError>
        ensures { IfOk result (λ made. IfSome made (λ done. block_used blocks.now (standing self.old) operands.now ≡ Some
            (standing self.new))) }
    {
        match operands {
            [] => self.use_block(0),
            [Operand::Word(name)] => self.use_name(blocks, name),
            _ => Ok(None),
        }
    }

    /// Leaves another block for the nominal one.
    pub(crate) fn use_nominal(&mut self) -> Result<Option<()>, AllocError>
        ensures { IfOk result (λ made. IfSome made (λ done. nominal (standing self.old) ≡ Some (standing self.new))) }
    {
        if self.block == 0 {
            return Ok(Some(()));
        }
        self.use_block(0)
    }

    /// Leaves the present block for the nominal one, behind the last statement. Returns `None` if the state has no such blocks.
    pub fn close(&mut self) -> Option<()>
        ensures { IfSome result (λ done. closed (Some (standing self.old)) ≡ Some (standing self.new)) }
    {
        self.leave()?;
        self.enter(0)
    }

    /// Returns `Some` if USE has named each block, and they are one behind another, behind the nominal one and its literals.
    pub fn has_blocks(&self, literals: &[Literal], blocks: &[Block]) -> Option<()>
        ensures { IfSome result (λ done. with_blocks literals.now blocks.now (Some (standing self.now)) ≡ Some
            (standing self.now)) }
    {
        let first = self.reach.checked_add(size_of_all(literals)?)?;
        let others = self.blocks.get(1..)?;
        if self.named != blocks.len() || !are_behind(first, blocks, others) {
            return None;
        }
        Some(())
    }
}
