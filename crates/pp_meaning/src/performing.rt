//! Statements, one after another.
ghost use Rattle.std.specs.Prelude.{◌≡◌, IfOk, IfSome, Some};
ghost use Rattle.pp_meaning.specs.Blocks.{block_used};
ghost use Rattle.pp_meaning.specs.Standing.{standing};
ghost use Rattle.pp_meaning.specs.Meaning.{after, after_any, follow, labelled, reached, then_labelled, then_words, with_literals};

use crate::expressions::{Literal, Operand, Symbol};
use crate::literals::{follow_one_another, words_in};
use crate::statements::{Block, Label, Operation, State, Statement};
use crate::words::words_at;
use std::alloc::{AllocError, Global};

impl State {
    /// A statement that may have words.
    fn fill(
        &mut self,
        alloc: Global,
        symbols: &[Symbol],
        label: Label,
        operation: Operation,
        operands: &[Operand],
    ) -> Result<Option<()>, AllocError>
        ensures { IfOk result (λ made. IfSome made (λ done. then_words symbols.now (labelled symbols.now (standing self.old) label)
            operation operands.now ≡ Some (standing self.new))) }
    {
        if self.label(symbols, label).is_none() {
            return Ok(None);
        }
        match words_at(alloc, symbols, self.place(), operation, operands)? {
            Some(words) => self.put_words(&words),
            None => Ok(None),
        }
    }

    /// Moves the counters: BSS, ORG and LOC.
    fn move_counters(
        &mut self,
        symbols: &[Symbol],
        label: Label,
        operation: Operation,
        operands: &[Operand],
    ) -> Result<Option<()>, AllocError>
        ensures { IfOk result (λ made. IfSome made (λ done. after symbols.now (standing self.old) label operation operands.now
            ≡ Some (standing self.new))) }
    {
        match (operation, operands) {
            (Operation::Space, [x]) => Ok(self.space(symbols, label, x)),
            (Operation::Origin, [x]) => self.set_origin(symbols, label, x),
            (Operation::Location, [x]) => Ok(self.set_location(symbols, label, x)),
            _ => Ok(None),
        }
    }

    /// Defines the symbol of a number that is not the location: EQU, SET, MAX, MIN, MICCNT and LIT.
    fn name_number(
        &mut self,
        symbols: &[Symbol],
        label: Label,
        operation: Operation,
        operands: &[Operand],
    ) -> Option<()>
        ensures { IfSome result (λ done. after symbols.now (standing self.old) label operation operands.now ≡ Some
            (standing self.new)) }
    {
        match (label, operation, operands) {
            (Label::Named(index), Operation::Equate(_), [x]) => {
                self.equate(symbols, index, false, x)
            }
            (Label::Named(index), Operation::Set, [x]) => self.equate(symbols, index, true, x),
            (Label::Named(index), Operation::Choose(is_greatest), _) => {
                self.choose(symbols, index, is_greatest, operands)
            }
            (Label::Named(index), Operation::Count(number), [Operand::Word(_)]) => {
                self.count(symbols, index, number)
            }
            (_, Operation::Pool(address), _) => self.pool(symbols, label, address, operands),
            _ => None,
        }
    }

    /// Performs a statement without a label that makes no words: BASE, PERIPH, OPSYN, QUAL and END.
    fn directive(
        &mut self,
        alloc: Global,
        symbols: &[Symbol],
        label: Label,
        operation: Operation,
        operands: &[Operand],
    ) -> Result<Option<()>, AllocError>
        ensures { IfOk result (λ made. IfSome made (λ done. after symbols.now (standing self.old) label operation operands.now
            ≡ Some (standing self.new))) }
    {
        match (label, operation, operands) {
            (Label::Empty, Operation::SetBase(base, more), []) => {
                self.set_base(base, more)?;
                Ok(Some(()))
            }
            (Label::Empty, Operation::BaseBefore, []) => Ok(self.set_base_before()),
            (Label::Empty, Operation::Deck, []) => {
                self.set_deck();
                Ok(Some(()))
            }
            (Label::Empty, Operation::Synonym, [Operand::Word(_)]) => Ok(Some(())),
            (Label::Empty, Operation::Qualify(..), _) => self.qualify(alloc, operands),
            (Label::Empty, Operation::End, []) => Ok(Some(())),
            (Label::Empty, Operation::End, [x]) => Ok(self.end(symbols, x)),
            _ => Ok(None),
        }
    }

    /// Puts bits into words: VFD and POS.
    fn perform_fields(
        &mut self,
        alloc: Global,
        symbols: &[Symbol],
        label: Label,
        operation: Operation,
        operands: &[Operand],
    ) -> Result<Option<()>, AllocError>
        ensures { IfOk result (λ made. IfSome made (λ done. after symbols.now (standing self.old) label operation operands.now
            ≡ Some (standing self.new))) }
    {
        match (operation, operands) {
            (Operation::Bits, _) => self.fields(alloc, symbols, label, operands),
            (Operation::Position, [x]) => self.position(alloc, symbols, label, x),
            _ => Ok(None),
        }
    }

    /// Does what a statement says.
    fn perform(
        &mut self,
        alloc: Global,
        symbols: &[Symbol],
        label: Label,
        operation: Operation,
        operands: &[Operand],
    ) -> Result<Option<()>, AllocError>
        ensures { IfOk result (λ made. IfSome made (λ done. after symbols.now (standing self.old) label operation operands.now
            ≡ Some (standing self.new))) }
    {
        match operation {
            Operation::Space | Operation::Origin | Operation::Location => {
                self.move_counters(symbols, label, operation, operands)
            }
            Operation::Equate(_)
            | Operation::Set
            | Operation::Choose(_)
            | Operation::Count(_)
            | Operation::Pool(_) => Ok(self.name_number(symbols, label, operation, operands)),
            Operation::SetBase(..)
            | Operation::BaseBefore
            | Operation::Deck
            | Operation::Synonym
            | Operation::Qualify(..)
            | Operation::End => self.directive(alloc, symbols, label, operation, operands),
            Operation::Bits | Operation::Position => {
                self.perform_fields(alloc, symbols, label, operation, operands)
            }
            Operation::Use => Ok(None),
            Operation::Blank
            | Operation::Instruction(_)
            | Operation::Constants
            | Operation::Data
            | Operation::Zeros
            | Operation::Display
            | Operation::Shortest(_) => self.fill(alloc, symbols, label, operation, operands),
        }
    }

    /// Does what a statement says, which may be USE.
    fn perform_any(
        &mut self,
        alloc: Global,
        symbols: &[Symbol],
        blocks: &[Block],
        label: Label,
        operation: Operation,
        operands: &[Operand],
    ) -> Result<Option<()>, AllocError>
        ensures { IfOk result (λ made. IfSome made (λ done. after_any symbols.now blocks.now (standing self.old) label operation
            operands.now ≡ Some (standing self.new))) }
    {
        match operation {
            Operation::Use => self.use_labelled(symbols, blocks, label, operands),
            _ => self.perform(alloc, symbols, label, operation, operands),
        }
    }

    /// USE, and its label.
    fn use_labelled(
        &mut self,
        symbols: &[Symbol],
        blocks: &[Block],
        label: Label,
        operands: &[Operand],
    ) -> Result<Option<()>, AllocError>
        ensures { IfOk result (λ made. IfSome made (λ done. then_labelled symbols.now
            (block_used blocks.now (standing self.old) operands.now) label ≡ Some (standing self.new))) }
    {
        if self.use_any(blocks, operands)?.is_none() {
            return Ok(None);
        }
        Ok(self.label(symbols, label))
    }

    /// Keeps the cell after the highest one.
    fn reach_on(&mut self)
        ensures { reached (Some (standing self.old)) ≡ Some (standing self.new) }
    {
        if self.reach < self.origin {
            self.reach = self.origin;
        }
    }

    /// Performs a statement: notes the literals that it names, does what it says, and keeps the name that it gives to an operation.
    /// Returns `None` if the statement is not right, and then the state is of no use.
    ///
    /// # Errors
    /// Memory ran out.
    pub fn follow(
        &mut self,
        alloc: Global,
        symbols: &[Symbol],
        literals: &[Literal],
        blocks: &[Block],
        statement: &Statement,
    ) -> Result<Option<()>, AllocError>
        ensures { IfOk result (λ made. IfSome made (λ done. follow symbols.now literals.now blocks.now (Some (standing self.old))
            statement.now ≡ Some (standing self.new))) }
    {
        if self.is_in_qualifier(statement).is_none() || self.is_named(statement).is_none() {
            return Ok(None);
        }
        let operands = &statement.operands;
        let Statement {
            label,
            operation,
            ..
        } = statement;
        if self
            .note_literals(alloc, symbols, literals, *operation, operands)?
            .is_none()
        {
            return Ok(None);
        }
        if self
            .perform_any(alloc, symbols, blocks, *label, *operation, operands)?
            .is_none()
        {
            return Ok(None);
        }
        self.keep_synonym(alloc, &statement.word, *operation, operands)?;
        self.reach_on();
        Ok(Some(()))
    }

    /// Puts the words of the literals into the cells behind the highest one of the present block. Returns `None` if the statements
    /// have not named them all, one is at another address, or their words do not fit, and then the state is of no use.
    ///
    /// # Errors
    /// Memory ran out.
    pub fn put_literals(
        &mut self,
        alloc: Global,
        literals: &[Literal],
    ) -> Result<Option<()>, AllocError>
        ensures { IfOk result (λ made. IfSome made (λ done. with_literals literals.now (Some (standing self.old)) ≡ Some
            (standing self.new))) }
    {
        if literals.is_empty() {
            return Ok(Some(()));
        }
        if self.literals != literals.len() || !follow_one_another(literals, self.reach) {
            return Ok(None);
        }
        let words = words_in(alloc, literals)?;
        self.origin = self.reach;
        self.put_words(&words)
    }
}
