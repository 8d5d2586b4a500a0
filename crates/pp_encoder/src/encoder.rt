//! The words of statements.
ghost use Rattle.std.specs.Prelude.{IfOk, OnOk};
ghost use Rattle.std.specs.List.{AllByRecursion};
ghost use Rattle.pp_meaning.specs.Lines.{AreAllWritten, AreWritten};
ghost use Rattle.pp_meaning.specs.Names.{AreNames};
ghost use Rattle.pp_meaning.specs.Units.{IsAssembled};

use crate::assembled::images_of;
use crate::names::are_names;
use crate::written::{all_written, are_written};
use pp_meaning::{Image, Refusal, Symbol, SystemText, Unit};
use std::alloc::Global;

/// Returns what the programs of a source make, behind system texts. Their statements are given as they are performed, with the terms
/// of each operand, and the symbols with their values, in the order of the statements that define them; and the literals and the
/// blocks of USE of each program, in the order in which they are named first.
///
/// # Errors
/// Memory ran out, or a statement is not right: its line has not its fields, an operand has no value or does not fit, a symbol does
/// not have the number that its statement gives it, or a word is for no cell.
pub fn encode(
    alloc: Global,
    symbols: &[Symbol],
    systems: &[SystemText],
    units: &[Unit],
) -> Result<Vec<Image>, Refusal>
    // The words are what the statements mean.
    ensures words { IfOk result (λ images. IsAssembled symbols.now systems.now units.now images.items) }
    // The fields of each statement are those of its line.
    ensures lines { OnOk result (AllByRecursion (AreWritten symbols.now) units.now) }
    // So are those of each statement of a system text.
    ensures systems { OnOk result (AllByRecursion (AreAllWritten symbols.now) systems.now) }
    // The names are names, and no two are one.
    ensures names { OnOk result (AreNames symbols.now) }
{
    if !are_names(alloc, symbols)? {
        return Err(Refusal::At(units.len(), 0));
    }
    all_written(alloc, symbols, systems)?;
    are_written(alloc, symbols, units)?;
    images_of(alloc, symbols, systems, units)
}
