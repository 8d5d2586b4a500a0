//! What the programs of a source make, behind its system texts.
ghost use Rattle.std.specs.Prelude.{◌≡◌, IfOk, IfSome, None, OnOk, Some, false, fold, replicate, true};
ghost use Rattle.pp_meaning.specs.Blocks.{closed};
ghost use Rattle.pp_meaning.specs.Meaning.{follow, with_blocks, with_literals};
ghost use Rattle.pp_meaning.specs.Standing.{first_counters, from_cell, standing};
ghost use Rattle.pp_meaning.specs.Units.{AreAssembled, IsAssembled, IsImage, assembled, begun, first, known, left_by, nothing_known};
ghost use Rattle.pp_meaning.specs.Units.{performed, with_system, with_unit, without_bases};

use pp_meaning::{
    Block, CELLS, Counters, Image, Left, Literal, Refusal, State, Statement, Symbol, SystemText,
    Unit,
};
use std::alloc::{AllocError, Global};

/// Returns a memory without words.
fn empty_memory(alloc: Global) -> Result<Vec<Option<u32>>, AllocError>
    ensures { IfOk result (λ memory. memory.items ≡ replicate 0o10000 None) }
{
    let mut memory = Vec::new(alloc);
    for _count in 0..CELLS {
        memory.push(None)?;
    }
    Ok(memory)
}

/// Returns the counters of blocks at their beginning, behind those of the nominal one.
fn counters_of(alloc: Global, blocks: &[Block]) -> Result<Vec<Counters>, AllocError>
    ensures { IfOk result (λ counters. counters.items ≡ first_counters blocks.now) }
{
    let mut counters = Vec::new(alloc);
    counters.push(counters_from(0))?;
    for block in blocks {
        counters.push(counters_from(block.base))?;
    }
    Ok(counters)
}

/// Returns the counters of a block that begins at a cell.
fn counters_from(cell: usize) -> Counters
    ensures { result ≡ from_cell cell }
{
    Counters {
        location: cell,
        origin: cell,
        reach: cell,
    }
}

/// Returns what there is before the first statement of a unit.
fn state_with(
    alloc: Global,
    is_system: bool,
    blocks: &[Block],
    before: Left,
) -> Result<State, AllocError>
    ensures { IfOk result (λ state. first is_system blocks.now (known before) ≡ standing state) }
{
    let memory = empty_memory(alloc)?;
    let counters = counters_of(alloc, blocks)?;
    Ok(State {
        is_system,
        location: 0,
        origin: 0,
        is_deck: before.is_deck,
        base: before.base,
        bases: before.bases,
        defined: before.defined,
        literals: 0,
        reach: 0,
        memory,
        words: Vec::new(alloc),
        used: 0,
        start: None,
        block: 0,
        before: Vec::new(alloc),
        named: 0,
        blocks: counters,
        synonyms: before.synonyms,
        prefixes: before.prefixes,
    })
}

/// Returns what a unit makes, and what it leaves to the next one.
fn parts_of(state: State) -> (Image, Left)
    ensures image { IsImage (standing state) result.0 }
    ensures left { known result.1 ≡ left_by (standing state) }
{
    let image = Image {
        memory: state.memory,
        words: state.words,
        start: state.start,
    };
    let left = Left {
        defined: state.defined,
        synonyms: state.synonyms,
        is_deck: state.is_deck,
        base: state.base,
        bases: state.bases,
        prefixes: state.prefixes,
    };
    (image, left)
}

/// Does what the statements of a unit say, of which the number is given.
fn follow_all(
    alloc: Global,
    state: &mut State,
    symbols: &[Symbol],
    literals: &[Literal],
    blocks: &[Block],
    number: usize,
    statements: &[Statement],
) -> Result<(), Refusal>
    ensures { OnOk result (fold (follow symbols.now literals.now blocks.now) (Some (standing state.old)) statements.now ≡ Some
        (standing state.new)) }
{
    let mut index: usize = 0;
    for statement in statements {
        if state
            .follow(alloc, symbols, literals, blocks, statement)?
            .is_none()
        {
            return Err(Refusal::At(number, index));
        }
        index = index.saturating_add(1);
    }
    Ok(())
}

/// Returns what there is after statements, of a unit with these literals and blocks.
fn perform_all(
    alloc: Global,
    symbols: &[Symbol],
    is_system: bool,
    literals: &[Literal],
    blocks: &[Block],
    before: Left,
    number: usize,
    statements: &[Statement],
) -> Result<State, Refusal>
    ensures { IfOk result (λ state. fold (follow symbols.now literals.now blocks.now)
        (Some (first is_system blocks.now (known before))) statements.now ≡ Some (standing state)) }
{
    let mut state = state_with(alloc, is_system, blocks, before)?;
    follow_all(
        alloc, &mut state, symbols, literals, blocks, number, statements,
    )?;
    Ok(state)
}

/// Returns what there is after the statements of a unit.
fn perform_unit(
    alloc: Global,
    symbols: &[Symbol],
    is_system: bool,
    before: Left,
    number: usize,
    unit: &Unit,
) -> Result<State, Refusal>
    ensures { IfOk result (λ state. performed symbols.now is_system (known before) unit.now ≡ Some (standing state)) }
{
    perform_all(
        alloc,
        symbols,
        is_system,
        &unit.literals,
        &unit.blocks,
        before,
        number,
        &unit.statements,
    )
}

/// Returns what a unit of a system text leaves.
fn after_unit(alloc: Global, symbols: &[Symbol], before: Left, unit: &Unit) -> Result<Left, Refusal>
    ensures { IfOk result (λ left. with_unit symbols.now (Some (known before)) unit.now ≡ Some (known left)) }
{
    let state = perform_unit(alloc, symbols, true, before, 0, unit)?;
    let (_, left) = parts_of(state);
    Ok(left)
}

/// Returns what the units of a system text leave.
fn after_units(
    alloc: Global,
    symbols: &[Symbol],
    before: Left,
    units: &[Unit],
) -> Result<Left, Refusal>
    ensures { IfOk result (λ left. fold (with_unit symbols.now) (Some (known before)) units.now ≡ Some (known left)) }
{
    let mut left = before;
    for unit in units {
        left = after_unit(alloc, symbols, left, unit)?;
    }
    Ok(left)
}

/// Returns what units leave as those of a system text: symbols and names of OPSYN.
fn as_of_system(alloc: Global, left: Left) -> Left
    ensures { without_bases (Some (known left)) ≡ Some (known result) }
{
    Left {
        defined: left.defined,
        synonyms: left.synonyms,
        is_deck: false,
        base: None,
        bases: Vec::new(alloc),
        prefixes: Vec::new(alloc),
    }
}

/// Returns what a system text leaves.
fn after_system(
    alloc: Global,
    symbols: &[Symbol],
    before: Left,
    text: &SystemText,
) -> Result<Left, Refusal>
    ensures { IfOk result (λ left. with_system symbols.now (Some (known before)) text.now ≡ Some (known left)) }
{
    match after_units(alloc, symbols, before, &text.units) {
        Ok(left) => Ok(as_of_system(alloc, left)),
        Err(refusal) => Err(refusal.of_system()),
    }
}

/// Returns what there is before the first system text.
fn nothing(alloc: Global) -> Left
    ensures { known result ≡ nothing_known }
{
    Left {
        defined: 0,
        synonyms: Vec::new(alloc),
        is_deck: false,
        base: None,
        bases: Vec::new(alloc),
        prefixes: Vec::new(alloc),
    }
}

/// Returns what system texts leave.
fn after_systems(alloc: Global, symbols: &[Symbol], systems: &[SystemText]) -> Result<Left, Refusal>
    ensures { IfOk result (λ left. begun symbols.now systems.now ≡ Some (known left)) }
{
    let mut left = nothing(alloc);
    for text in systems {
        left = after_system(alloc, symbols, left, text)?;
    }
    Ok(left)
}

/// Puts the literals behind the last statement, and checks the blocks.
fn end(
    alloc: Global,
    state: &mut State,
    literals: &[Literal],
    blocks: &[Block],
) -> Result<Option<()>, AllocError>
    ensures { IfOk result (λ made. IfSome made (λ done. with_blocks literals.now blocks.now
        (with_literals literals.now (closed (Some (standing state.old)))) ≡ Some (standing state.new))) }
{
    if state.close().is_none() || state.put_literals(alloc, literals)?.is_none() {
        return Ok(None);
    }
    Ok(state.has_blocks(literals, blocks))
}

/// Returns what there is after the statements of a unit, its literals and its blocks.
fn assemble_unit(
    alloc: Global,
    symbols: &[Symbol],
    before: Left,
    number: usize,
    unit: &Unit,
) -> Result<State, Refusal>
    ensures { IfOk result (λ state. assembled symbols.now (known before) unit.now ≡ Some (standing state)) }
{
    let mut state = perform_unit(alloc, symbols, false, before, number, unit)?;
    match end(alloc, &mut state, &unit.literals, &unit.blocks)? {
        Some(()) => Ok(state),
        None => Err(Refusal::At(number, unit.statements.len())),
    }
}

/// Returns what units make, behind others.
fn images_behind(
    alloc: Global,
    symbols: &[Symbol],
    before: Left,
    units: &[Unit],
) -> Result<Vec<Image>, Refusal>
    ensures { IfOk result (λ images. AreAssembled symbols.now (known before) units.now images.items) }
{
    let mut images = Vec::new(alloc);
    let mut left = before;
    let mut number: usize = 0;
    for unit in units {
        let state = assemble_unit(alloc, symbols, left, number, unit)?;
        let (image, rest) = parts_of(state);
        images.push(image)?;
        left = rest;
        number = number.saturating_add(1);
    }
    if left.defined != symbols.len() {
        return Err(Refusal::At(number, 0));
    }
    Ok(images)
}

/// Returns what the units of a source make.
pub fn images_of(
    alloc: Global,
    symbols: &[Symbol],
    systems: &[SystemText],
    units: &[Unit],
) -> Result<Vec<Image>, Refusal>
    ensures { IfOk result (λ images. IsAssembled symbols.now systems.now units.now images.items) }
{
    let left = after_systems(alloc, symbols, systems)?;
    images_behind(alloc, symbols, left, units)
}
