//! The literals that statements name.
ghost use Rattle.std.specs.Prelude.{◌≡◌, IfOk, IfSome, Some, fold};
ghost use Rattle.pp_meaning.specs.Expressions.{address};
ghost use Rattle.pp_meaning.specs.Literals.{index_of};
ghost use Rattle.pp_meaning.specs.Meaning.{data_words, datum, in_order, naming, with_all_literals, with_literal, with_pool};
ghost use Rattle.pp_meaning.specs.Standing.{place_of, standing};

use crate::expressions::{Item, Literal, Operand, Symbol};
use crate::literals::{find, is_literal_at};
use crate::statements::{Operation, State};
use crate::words::{some_data, words_of_datum};
use std::alloc::{AllocError, Global};

impl State {
    /// Notes that a literal is named. Returns whether it is one of those named above, or the next one.
    fn name_literal(&mut self, literals: &[Literal], address: usize, words: &[u32]) -> Option<()>
        ensures { IfSome result (λ done. naming literals.now (standing self.old) address (index_of literals.now (Some words.now))
            ≡ Some (standing self.new)) }
    {
        let index = find(literals, words)?;
        if !is_literal_at(literals, index, address) {
            return None;
        }
        if index < self.literals {
            return Some(());
        }
        if index != self.literals {
            return None;
        }
        self.literals = self.literals.checked_add(1)?;
        Some(())
    }

    /// Notes that the literal at an address is named, which is a number or a text.
    fn name_datum(
        &mut self,
        alloc: Global,
        symbols: &[Symbol],
        literals: &[Literal],
        address: usize,
        item: &Item,
    ) -> Result<Option<()>, AllocError>
        ensures { IfOk result (λ made. IfSome made (λ done. naming literals.now (standing self.old) address
            (index_of literals.now (datum symbols.now (place_of (standing self.old)) item.now)) ≡ Some (standing self.new))) }
    {
        match words_of_datum(alloc, symbols, self.place(), item)? {
            Some(words) => Ok(self.name_literal(literals, address, &words)),
            None => Ok(None),
        }
    }

    /// Notes the literal that an operand names, if it names one.
    fn note_operand(
        &mut self,
        alloc: Global,
        symbols: &[Symbol],
        literals: &[Literal],
        operand: &Operand,
    ) -> Result<Option<()>, AllocError>
        ensures { IfOk result (λ made. IfSome made (λ done. with_literal symbols.now literals.now (Some (standing self.old))
            operand.now ≡ Some (standing self.new))) }
    {
        match operand {
            Operand::Literal(address, item) => {
                self.name_datum(alloc, symbols, literals, *address, item)
            }
            Operand::LiteralBits(_, address, item) => {
                self.name_datum(alloc, symbols, literals, *address, item)
            }
            _ => Ok(Some(())),
        }
    }

    /// Notes the literals that operands name.
    fn note_operands(
        &mut self,
        alloc: Global,
        symbols: &[Symbol],
        literals: &[Literal],
        operands: &[Operand],
    ) -> Result<Option<()>, AllocError>
        ensures { IfOk result (λ made. IfSome made (λ done. fold (with_literal symbols.now literals.now) (Some (standing self.old))
            operands.now ≡ Some (standing self.new))) }
    {
        for operand in operands {
            if self
                .note_operand(alloc, symbols, literals, operand)?
                .is_none()
            {
                return Ok(None);
            }
        }
        Ok(Some(()))
    }

    /// Notes the literals of two operands, first that of the second one.
    fn note_both(
        &mut self,
        alloc: Global,
        symbols: &[Symbol],
        literals: &[Literal],
        first: &Operand,
        second: &Operand,
    ) -> Result<Option<()>, AllocError>
        ensures { IfOk result (λ made. IfSome made (λ done. with_literal symbols.now literals.now
            (with_literal symbols.now literals.now (Some (standing self.old)) second.now) first.now ≡ Some (standing self.new))) }
    {
        if self
            .note_operand(alloc, symbols, literals, second)?
            .is_none()
        {
            return Ok(None);
        }
        self.note_operand(alloc, symbols, literals, first)
    }

    /// Notes the literals that the operands of an operation name.
    fn note_in_order(
        &mut self,
        alloc: Global,
        symbols: &[Symbol],
        literals: &[Literal],
        operation: Operation,
        operands: &[Operand],
    ) -> Result<Option<()>, AllocError>
        ensures { IfOk result (λ made. IfSome made (λ done. fold (with_literal symbols.now literals.now) (Some (standing self.old))
            (in_order operation operands.now) ≡ Some (standing self.new))) }
    {
        match (operation, operands) {
            (Operation::Instruction(_), [first, second]) => {
                self.note_both(alloc, symbols, literals, first, second)
            }
            _ => self.note_operands(alloc, symbols, literals, operands),
        }
    }

    /// Notes that the literal at an address is named, whose words are those of DATA.
    fn name_data(
        &mut self,
        alloc: Global,
        symbols: &[Symbol],
        literals: &[Literal],
        address: usize,
        operands: &[Operand],
    ) -> Result<Option<()>, AllocError>
        ensures { IfOk result (λ made. IfSome made (λ done. naming literals.now (standing self.old) address
            (index_of literals.now (data_words symbols.now (place_of (standing self.old)) operands.now)) ≡ Some
            (standing self.new))) }
    {
        match some_data(alloc, symbols, self.place(), operands)? {
            Some(words) => Ok(self.name_literal(literals, address, &words)),
            None => Ok(None),
        }
    }

    /// Notes the literal of LIT.
    fn note_pool(
        &mut self,
        alloc: Global,
        symbols: &[Symbol],
        literals: &[Literal],
        operation: Operation,
        operands: &[Operand],
    ) -> Result<Option<()>, AllocError>
        ensures { IfOk result (λ made. IfSome made (λ done. with_pool symbols.now literals.now (Some (standing self.old)) operation
            operands.now ≡ Some (standing self.new))) }
    {
        match operation {
            Operation::Pool(address) => self.name_data(alloc, symbols, literals, address, operands),
            _ => Ok(Some(())),
        }
    }

    /// Notes the literals of a statement.
    pub(crate) fn note_literals(
        &mut self,
        alloc: Global,
        symbols: &[Symbol],
        literals: &[Literal],
        operation: Operation,
        operands: &[Operand],
    ) -> Result<Option<()>, AllocError>
        ensures { IfOk result (λ made. IfSome made (λ done. with_all_literals symbols.now literals.now (Some (standing self.old))
            operation operands.now ≡ Some (standing self.new))) }
    {
        if self
            .note_in_order(alloc, symbols, literals, operation, operands)?
            .is_none()
        {
            return Ok(None);
        }
        self.note_pool(alloc, symbols, literals, operation, operands)
    }
}
