//! Statements that move the counters, name numbers or say how others are meant.
ghost use Rattle.std.specs.Prelude.{◌≡◌, ◌∷◌, IfOk, IfSome, OnOk, Some, [], pos, true};
ghost use Rattle.pp_meaning.specs.Expressions.{address, chosen, value_above};
ghost use Rattle.pp_meaning.specs.Meaning.{after, at, cells_on, define, moved};
ghost use Rattle.pp_meaning.specs.Standing.{place_of, standing};
ghost use Rattle.pp_meaning.specs.declared.statements.Label.TheVariants.{Empty};
ghost use Rattle.pp_meaning.specs.declared.statements.Operation.TheVariants.{BaseBefore, Deck, End, Location};
ghost use Rattle.pp_meaning.specs.declared.statements.Operation.TheVariants.{Origin, Pool, SetBase, Space};

use crate::expressions::{Base, Operand, Place, Symbol, chosen_value, value_by_names_above};
use crate::fields::field_in;
use crate::statements::{CELLS, Label, State, WORD};
use std::alloc::AllocError;

/// Returns a number up to octal 7777.
fn in_memory(number: i64) -> Option<usize>
    ensures { IfSome result (λ cell. address (Some number) ≡ Some cell) }
{
    if number < 0 || number >= CELLS as i64 {
        return None;
    }
    Some(number as usize)
}

/// Returns the number of an operand by the names above, up to octal 7777.
pub fn address_above(symbols: &[Symbol], place: Place, operand: &Operand) -> Option<usize>
    ensures { IfSome result (λ cell. address (value_above symbols.now place operand.now) ≡ Some cell) }
{
    in_memory(value_by_names_above(symbols, place, operand)?)
}

/// Returns the cell so many on, or back.
fn cell_on(cell: usize, number: i64) -> Option<usize>
    ensures { IfSome result (λ at. cells_on cell number ≡ Some at) }
{
    let size = usize::try_from(number.unsigned_abs()).ok()?;
    if number < 0 {
        return cell.checked_sub(size);
    }
    cell.checked_add(size)
}

impl State {
    /// Moves both counters by so many cells.
    fn move_by(&mut self, number: i64) -> Option<()>
        ensures { IfSome result (λ done. moved (standing self.old) (Some number) ≡ Some (standing self.new)) }
    {
        let origin = cell_on(self.origin, number)?;
        let location = cell_on(self.location, number)?;
        self.origin = origin;
        self.location = location;
        self.used = 0;
        Some(())
    }

    /// BSS.
    pub(crate) fn space(
        &mut self,
        symbols: &[Symbol],
        label: Label,
        operand: &Operand,
    ) -> Option<()>
        ensures { IfSome result (λ done. after symbols.now (standing self.old) label Space (operand.now ∷ []) ≡ Some
            (standing self.new)) }
    {
        self.label(symbols, label)?;
        let number = value_by_names_above(symbols, self.place(), operand)?;
        self.move_by(number)
    }

    /// ORG.
    pub(crate) fn set_origin(
        &mut self,
        symbols: &[Symbol],
        label: Label,
        operand: &Operand,
    ) -> Result<Option<()>, AllocError>
        ensures { IfOk result (λ made. IfSome made (λ done. after symbols.now (standing self.old) label Origin (operand.now ∷ [])
            ≡ Some (standing self.new))) }
    {
        let Some(cell) = address_above(symbols, self.place(), operand) else {
            return Ok(None);
        };
        if self.use_nominal()?.is_none() {
            return Ok(None);
        }
        self.move_to(cell);
        Ok(self.label(symbols, label))
    }

    /// Sets both counters.
    fn move_to(&mut self, cell: usize)
        ensures { at (standing self.old) (Some cell) (Some cell) ≡ Some (standing self.new) }
    {
        self.origin = cell;
        self.location = cell;
        self.used = 0;
    }

    /// LOC.
    pub(crate) fn set_location(
        &mut self,
        symbols: &[Symbol],
        label: Label,
        operand: &Operand,
    ) -> Option<()>
        ensures { IfSome result (λ done. after symbols.now (standing self.old) label Location (operand.now ∷ []) ≡ Some
            (standing self.new)) }
    {
        self.location = address_above(symbols, self.place(), operand)?;
        self.used = 0;
        self.label(symbols, label)
    }

    /// EQU and SET.
    pub(crate) fn equate(
        &mut self,
        symbols: &[Symbol],
        index: usize,
        is_set: bool,
        operand: &Operand,
    ) -> Option<()>
        ensures { IfSome result (λ done. define symbols.now is_set (standing self.old) index
            (value_above symbols.now (place_of (standing self.old)) operand.now) ≡ Some (standing self.new)) }
    {
        let number = value_by_names_above(symbols, self.place(), operand)?;
        self.define(symbols, index, is_set, number)
    }

    /// MAX and MIN.
    pub(crate) fn choose(
        &mut self,
        symbols: &[Symbol],
        index: usize,
        is_greatest: bool,
        operands: &[Operand],
    ) -> Option<()>
        ensures { IfSome result (λ done. define symbols.now true (standing self.old) index
            (chosen symbols.now (place_of (standing self.old)) is_greatest operands.now) ≡ Some (standing self.new)) }
    {
        let number = chosen_value(symbols, self.place(), is_greatest, operands)?;
        self.define(symbols, index, true, number)
    }

    /// MICCNT.
    pub(crate) fn count(&mut self, symbols: &[Symbol], index: usize, number: usize) -> Option<()>
        ensures { IfSome result (λ done. define symbols.now true (standing self.old) index (Some (pos number)) ≡ Some
            (standing self.new)) }
    {
        let number = i64::try_from(number).ok()?;
        self.define(symbols, index, true, number)
    }

    /// Gives the label of LIT the address of its literal.
    pub(crate) fn pool(
        &mut self,
        symbols: &[Symbol],
        label: Label,
        address: usize,
        operands: &[Operand],
    ) -> Option<()>
        ensures { IfSome result (λ done. after symbols.now (standing self.old) label (Pool address) operands.now ≡ Some
            (standing self.new)) }
    {
        match label {
            Label::Empty | Label::Minus => Some(()),
            Label::Plus => None,
            Label::Named(index) => {
                let number = i64::try_from(address).ok()?;
                self.define(symbols, index, false, number)
            }
        }
    }

    /// BASE with the name of a base.
    pub(crate) fn set_base(&mut self, base: Base, more: u8) -> Result<(), AllocError>
        ensures { OnOk result (after [] (standing self.old) Empty (SetBase base more) [] ≡ Some (standing self.new)) }
    {
        let before = self.base;
        self.bases.push(before)?;
        self.base = Some(base);
        Ok(())
    }

    /// `BASE *`.
    pub(crate) fn set_base_before(&mut self) -> Option<()>
        ensures { IfSome result (λ done. after [] (standing self.old) Empty BaseBefore [] ≡ Some (standing self.new)) }
    {
        let last = self.bases.len().saturating_sub(1);
        let base = self.bases.get(last).copied()?;
        self.bases.truncate(last);
        self.base = base;
        Some(())
    }

    /// PERIPH.
    pub(crate) fn set_deck(&mut self)
        ensures { after [] (standing self.old) Empty Deck [] ≡ Some (standing self.new) }
    {
        self.is_deck = true;
    }

    /// END with an address.
    pub(crate) fn end(&mut self, symbols: &[Symbol], operand: &Operand) -> Option<()>
        ensures { IfSome result (λ done. after symbols.now (standing self.old) Empty End (operand.now ∷ []) ≡ Some
            (standing self.new)) }
    {
        self.start = Some(field_in(WORD, symbols, self.place(), operand)?);
        Some(())
    }
}
