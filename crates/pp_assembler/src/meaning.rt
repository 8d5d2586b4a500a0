//! The words that `pp_encoder` makes of the statements of a source, if `pp_meaning` has the meaning of them all.
ghost use Rattle.std.specs.Prelude.{◌≡◌, ◌∷◌, IfOk, IfSome, map};
ghost use Rattle.std.specs.List.{AllZip, flat_map};
ghost use Rattle.pp_assembler.specs.Meaning.{ArePerformedAll, AreWordsOf, IsFound, IsProgramOf};

use crate::program::Performed;
use crate::rows::{Part, index_of_statement, part_of};
use crate::terms::Names;
use crate::units::{Lack, add_all_names, add_names, system_texts, units_of};
use pp_decks::Lines;
use pp_encoder::{encode, program_of};
use pp_expansion::Pass;
use pp_meaning::{Image, Refusal, Symbol, SystemText, Unit as Statements};
use pp_notation::{Cell, Program};
use pp_source::{Fault, Here, Message, Wording};
use pp_statements::{CELLS, Unit};
use std::alloc::{AllocError, Global};

/// The greatest word.
const WORD: u32 = 0o7777;

const REFUSED: Wording = Wording::NotEncoded;

/// What statements make.
#[derive(Drop)]
pub struct Encoded {
    pub performed: Performed,
    /// The first program, and those of further IDENTs.
    pub program: Program,
    pub others: Vec<Unit>,
    /// The words in the order of their statements.
    pub words: Vec<u16>,
}

/// Returns the statements that a pass has performed, if all have a meaning.
fn performed_of(alloc: Global, lines: &Lines, pass: &Pass) -> Result<Performed, Lack>
    ensures { IfOk result (ArePerformedAll lines.now pass.now.scope.output.rows.items pass.now.scope.output.systems.items) }
{
    let mut names = Names::new(alloc);
    add_all_names(lines, pass, &mut names)?;
    names.end_systems();
    add_names(lines, &pass.scope.output.rows, &mut names)?;
    let systems = system_texts(alloc, lines, pass, &mut names)?;
    names.begin_source()?;
    let Pass { scope, .. } = pass;
    let units = units_of(
        alloc,
        lines,
        pass,
        &scope.output.rows,
        &scope.programs.layouts,
        &mut names,
    )?;
    Ok(Performed {
        symbols: names.all,
        systems,
        units,
    })
}

/// Returns the line of each cell, or 0 of one without a word.
fn lines_of_cells(alloc: Global, cells: &[Cell]) -> Result<Vec<u32>, AllocError> {
    let mut lines = vec![in alloc; 0; CELLS]?;
    for cell in cells {
        if let Some(line) = lines.get_mut(usize::from(cell.address)) {
            *line = cell.line;
        }
    }
    Ok(lines)
}

/// Returns words, if each has twelve bits.
fn words_of(alloc: Global, words: &[u32]) -> Result<Option<Vec<u16>>, AllocError>
    ensures { IfOk result (λ made. IfSome made (λ small. small.items ≡ words.now)) }
{
    let mut small = Vec::new(alloc);
    for word in words {
        if *word > WORD {
            return Ok(None);
        }
        small.push(*word as u16)?;
    }
    Ok(Some(small))
}

/// Returns the words of images, one image behind another.
fn words_in(alloc: Global, images: &[Image]) -> Result<Vec<u32>, AllocError>
    ensures { IfOk result (λ words. words.items ≡ flat_map (λ image. image.words.items) images.now) }
{
    let mut words = Vec::new(alloc);
    for image in images {
        words.extend_from_slice(&image.words)?;
    }
    Ok(words)
}

/// Returns the program that has the words of an image, with the name and the lines of the one that the pass has made.
fn unit_with(alloc: Global, image: &Image, before: &Unit) -> Result<Option<Unit>, AllocError>
    ensures { IfOk result (λ made. IfSome made (λ unit. IsProgramOf unit.program image.now)) }
{
    let lines = lines_of_cells(alloc, before.program.cells())?;
    let Some(program) = program_of(alloc, image, &lines)? else {
        return Ok(None);
    };
    let name = Vec::from_slice(alloc, &before.name)?;
    Ok(Some(Unit { name, program }))
}

/// Returns the first program and the others that have the words of images, if there is one, with the names and the lines of those
/// that the pass has made.
fn programs_of(
    alloc: Global,
    images: &[Image],
    before: &[Unit],
) -> Result<Option<(Program, Vec<Unit>)>, AllocError>
    ensures { IfOk result (λ made. IfSome made (λ programs.
        AllZip IsProgramOf (programs.0 ∷ map (λ unit. unit.program) programs.1.items) images.now)) }
{
    let ([image, images @ ..], [unit, units @ ..]) = (images, before) else {
        return Ok(None);
    };
    let Some(first) = unit_with(alloc, image, unit)? else {
        return Ok(None);
    };
    match units_with(alloc, images, units)? {
        Some(others) => Ok(Some((first.program, others))),
        None => Ok(None),
    }
}

/// Returns the programs that have the words of images, with the names and the lines of those that the pass has made.
fn units_with(
    alloc: Global,
    images: &[Image],
    before: &[Unit],
) -> Result<Option<Vec<Unit>>, AllocError>
    ensures { IfOk result (λ made. IfSome made (λ units. AllZip IsProgramOf (map (λ unit. unit.program) units.items) images.now)) }
{
    let mut units = Vec::new(alloc);
    let mut rest = before;
    for image in images {
        let [first, others @ ..] = rest else {
            return Ok(None);
        };
        let Some(unit) = unit_with(alloc, image, first)? else {
            return Ok(None);
        };
        units.push(unit)?;
        rest = others;
    }
    Ok(Some(units))
}

/// Returns the first program, the others, and the words in the order of their statements, that units make. The pass has made so many
/// words.
///
/// # Errors
/// Memory ran out, or a statement is refused.
fn encoding_of(
    alloc: Global,
    symbols: &[Symbol],
    systems: &[SystemText],
    units: &[Statements],
    before: &[Unit],
    count: usize,
) -> Result<(Program, Vec<Unit>, Vec<u16>), Refusal>
    ensures { IfOk result (λ made. AreWordsOf symbols.now systems.now units.now (made.0 ∷ map (λ unit. unit.program) made.1.items)
        made.2.items) }
{
    let images = encode(alloc, symbols, systems, units)?;
    let refusal = Refusal::At(units.len(), 0);
    let Some((program, others)) = programs_of(alloc, &images, before)? else {
        return Err(refusal);
    };
    let all = words_in(alloc, &images)?;
    match words_of(alloc, &all)? {
        Some(words) if words.len() == count => Ok((program, others, words)),
        _ => Err(refusal),
    }
}

/// Returns that the statement of a line is refused, which is no fault of the source.
fn refused(lines: &Lines, index: usize) -> Message {
    Here::new(lines, index).last_message(Fault::new(REFUSED))
}

/// What a pass has found of the meaning of its statements.
#[derive(Drop)]
pub enum Found {
    Words(Encoded),
    /// A statement is refused.
    Refused(Message),
    /// Something is wrong with the source.
    Nothing,
}

/// Returns what the statements of a pass make, if nothing is wrong.
///
/// # Errors
/// Memory ran out.
pub fn encode_performed(alloc: Global, lines: &Lines, pass: &Pass) -> Result<Found, AllocError>
    ensures { IfOk result (IsFound lines.now pass.now.scope.output.rows.items pass.now.scope.output.systems.items) }
{
    if !pass.scope.output.messages.is_empty() {
        return Ok(Found::Nothing);
    }
    match performed_of(alloc, lines, pass) {
        Ok(performed) => encode_all(alloc, lines, pass, performed),
        Err(Lack::NoMemory) => Err(AllocError),
        Err(Lack::At(index)) => Ok(Found::Refused(refused(lines, index))),
    }
}

/// Returns what statements make.
fn encode_all(
    alloc: Global,
    lines: &Lines,
    pass: &Pass,
    performed: Performed,
) -> Result<Found, AllocError>
    ensures { ArePerformedAll lines.now pass.now.scope.output.rows.items pass.now.scope.output.systems.items performed →
        IfOk result (IsFound lines.now pass.now.scope.output.rows.items pass.now.scope.output.systems.items) }
{
    let Performed {
        symbols,
        systems,
        units,
    } = &performed;
    let ended = &pass.scope.programs.ended;
    let count = pass.scope.output.words.len();
    match encoding_of(alloc, symbols, systems, units, ended, count) {
        Ok((program, others, words)) => Ok(Found::Words(Encoded {
            performed,
            program,
            others,
            words,
        })),
        Err(Refusal::NoMemory) => Err(AllocError),
        Err(Refusal::At(unit, index)) => Ok(Found::Refused(refused(
            lines,
            index_of_statement(lines, pass, unit, index),
        ))),
        Err(Refusal::System) => Ok(Found::Refused(refused(lines, 0))),
    }
}
