//! The lines of the statements of units and system texts.
ghost use Rattle.std.specs.Prelude.{OnOk};
ghost use Rattle.std.specs.List.{AllByRecursion};
ghost use Rattle.pp_meaning.specs.Lines.{AreAllWritten, AreWritten, IsWritten};

use pp_meaning::{Refusal, Statement, Symbol, SystemText, Unit, is_written};
use std::alloc::Global;

/// Checks the lines of the statements of a unit, which has this number.
///
/// # Errors
/// Memory ran out, or a line does not have the fields of its statement.
fn is_unit_written(
    alloc: Global,
    symbols: &[Symbol],
    number: usize,
    statements: &[Statement],
) -> Result<(), Refusal>
    ensures { OnOk result (AllByRecursion (IsWritten symbols.now) statements.now) }
{
    let mut index: usize = 0;
    for statement in statements {
        if !is_written(alloc, symbols, statement)? {
            return Err(Refusal::At(number, index));
        }
        index = index.saturating_add(1);
    }
    Ok(())
}

/// Checks the lines of the statements of units.
///
/// # Errors
/// Memory ran out, or a line does not have the fields of its statement.
pub fn are_written(alloc: Global, symbols: &[Symbol], units: &[Unit]) -> Result<(), Refusal>
    ensures { OnOk result (AllByRecursion (AreWritten symbols.now) units.now) }
{
    let mut number: usize = 0;
    for unit in units {
        is_unit_written(alloc, symbols, number, &unit.statements)?;
        number = number.saturating_add(1);
    }
    Ok(())
}

/// Checks the lines of the statements of system texts.
///
/// # Errors
/// Memory ran out, or a line does not have the fields of its statement.
pub fn all_written(alloc: Global, symbols: &[Symbol], systems: &[SystemText]) -> Result<(), Refusal>
    ensures { OnOk result (AllByRecursion (AreAllWritten symbols.now) systems.now) }
{
    for text in systems {
        if let Err(refusal) = are_written(alloc, symbols, &text.units) {
            return Err(refusal.of_system());
        }
    }
    Ok(())
}
