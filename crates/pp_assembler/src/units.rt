//! The statements of a source, and those of its system texts, program by program.
ghost use Rattle.std.specs.Prelude.{◌≡◌, IfOk, IfSome};
ghost use Rattle.std.specs.List.{AllByRecursion, AllZip};
ghost use Rattle.pp_assembler.specs.Meaning.{ArePerformed, AreOfSystem, IsPerformed, read_at};

use crate::readings::read_line;
use crate::rows::{Part, end_of_unit, is_name, part_of, qualifier_in};
use crate::statements::{has_word, named_by, statement_of};
use crate::terms::Names;
use pp_decks::Lines;
use pp_expansion::Pass;
use pp_meaning::{Block, Literal, Operation as Meant, Statement, SystemText, Unit};
use pp_source::Statement as Fields;
use pp_statements::{Layout, Row, SystemRows};
use std::alloc::{AllocError, AllocFailed, Global};

/// Why there are no statements with a meaning.
#[derive(Clone, Copy, Drop)]
pub enum Lack {
    NoMemory,
    /// The statement of the line with an index has none, which is no fault of the source.
    At(usize),
}

impl From<AllocError> for Lack {
    fn from(_: AllocError) -> Self {
        Lack::NoMemory
    }
}

impl<T: Drop> From<AllocFailed<T>> for Lack {
    fn from(_: AllocFailed<T>) -> Self {
        Lack::NoMemory
    }
}

/// Returns whether an operation names a number that another one may change.
fn is_set(operation: Meant) -> bool {
    matches!(operation, Meant::Set | Meant::Choose(_) | Meant::Count(_))
}

/// Returns what the label of a row stands for.
fn value_of(row: &Row, operation: Meant) -> Option<i64> {
    match operation {
        Meant::Equate(_) | Meant::Set | Meant::Choose(_) | Meant::Count(_) | Meant::Pool(_) =>
            row.value,
        _ => Some(row.location),
    }
}

/// Adds what the label of a row stands for, if it has one.
fn add_name(
    lines: &Lines,
    row: &Row,
    fields: Fields,
    operation: Meant,
    names: &mut Names,
) -> Result<(), Lack> {
    if matches!(operation, Meant::Qualify(..)) {
        let (_, qualifier, _) = qualifier_in(lines.part_of(row.statement, fields.operand));
        return Ok(names.qualify(qualifier)?);
    }
    let label = lines.part_of(row.statement, fields.location);
    if !is_name(label) || has_word(operation) {
        return Ok(());
    }
    match value_of(row, operation) {
        Some(value) => Ok(names.add(label, value, is_set(operation))?),
        None => Err(Lack::At(row.statement)),
    }
}

/// Adds what the names of rows stand for.
pub fn add_names(lines: &Lines, rows: &[Row], names: &mut Names) -> Result<(), Lack> {
    for row in rows {
        match part_of(lines, row) {
            Part::Silent => {}
            Part::Other => return Err(Lack::At(row.statement)),
            Part::Kept(fields, operation) => add_name(lines, row, fields, operation, names)?,
        }
    }
    names.end_text();
    Ok(())
}

/// Adds what the names of all system texts stand for.
pub fn add_all_names(lines: &Lines, pass: &Pass, names: &mut Names) -> Result<(), Lack> {
    for text in &pass.scope.output.systems {
        add_names(lines, &text.rows, names)?;
    }
    Ok(())
}

/// Returns the statement of a row, if it has one.
fn statement_of_row(
    alloc: Global,
    lines: &Lines,
    pass: &Pass,
    names: &mut Names,
    row: &Row,
) -> Result<Option<Statement>, Lack>
    ensures { IfOk result (λ made. IfSome made (λ statement. statement.line.items ≡ read_at lines.now row.now.statement)) }
{
    let Part::Kept(fields, operation) = part_of(lines, row) else {
        return Ok(None);
    };
    let line = read_line(lines, row.statement);
    let named = named_by(pass, row);
    match statement_of(alloc, names, line, fields, operation, named)? {
        Some(statement) => Ok(Some(statement)),
        None => Err(Lack::At(row.statement)),
    }
}

/// Returns the statements of rows, from an index on to before another one.
fn statements_of(
    alloc: Global,
    lines: &Lines,
    pass: &Pass,
    rows: &[Row],
    first: usize,
    end: usize,
    names: &mut Names,
) -> Result<Vec<Statement>, Lack>
    ensures { IfOk result (λ statements. AllByRecursion (IsPerformed lines.now rows.now) statements.items) }
{
    let mut statements = Vec::new(alloc);
    for at in first..end.min(rows.len()) {
        let row = &rows[at];
        if !row.is_performed {
            continue;
        }
        let made = statement_of_row(alloc, lines, pass, names, row)?;
        match made {
            Some(statement) => statements.push(statement)?,
            None => {}
        }
    }
    Ok(statements)
}

/// Returns copies of literals.
fn copied_literals(alloc: Global, all: &[Literal]) -> Result<Vec<Literal>, AllocError> {
    let mut literals = Vec::new(alloc);
    for Literal { address, words } in all {
        let words = Vec::from_slice(alloc, words)?;
        literals.push(Literal {
            address: *address,
            words,
        })?;
    }
    Ok(literals)
}

/// Returns copies of blocks.
fn copied_blocks(alloc: Global, all: &[Block]) -> Result<Vec<Block>, AllocError> {
    let mut blocks = Vec::new(alloc);
    for Block { name, base } in all {
        let name = Vec::from_slice(alloc, name)?;
        blocks.push(Block { name, base: *base })?;
    }
    Ok(blocks)
}

/// Returns the program of rows, from an index on to before another one.
fn unit_of(
    alloc: Global,
    lines: &Lines,
    pass: &Pass,
    rows: &[Row],
    first: usize,
    end: usize,
    layout: &Layout,
    names: &mut Names,
) -> Result<Unit, Lack>
    ensures { IfOk result (ArePerformed lines.now rows.now) }
{
    Ok(Unit {
        literals: copied_literals(alloc, &layout.literals)?,
        blocks: copied_blocks(alloc, &layout.blocks)?,
        statements: statements_of(alloc, lines, pass, rows, first, end, names)?,
    })
}

/// Returns the programs of rows, each of which has a layout.
pub fn units_of(
    alloc: Global,
    lines: &Lines,
    pass: &Pass,
    rows: &[Row],
    layouts: &[Layout],
    names: &mut Names,
) -> Result<Vec<Unit>, Lack>
    ensures { IfOk result (λ units. AllByRecursion (ArePerformed lines.now rows.now) units.items) }
{
    let mut units = Vec::new(alloc);
    let mut first: usize = 0;
    for layout in layouts {
        let end = end_of_unit(lines, rows, first);
        let unit = unit_of(alloc, lines, pass, rows, first, end, layout, names)?;
        units.push(unit)?;
        first = end;
    }
    if first < rows.len() {
        return Err(Lack::At(0));
    }
    names.end_text();
    Ok(units)
}

/// Returns the statements of a system text.
fn system_text(
    alloc: Global,
    lines: &Lines,
    pass: &Pass,
    names: &mut Names,
    text: &SystemRows,
) -> Result<SystemText, Lack>
    ensures { IfOk result (λ made. AreOfSystem lines.now made text.now) }
{
    let units = units_of(alloc, lines, pass, &text.rows, &text.layouts, names)?;
    Ok(SystemText { units })
}

/// Returns the statements of all system texts.
pub fn system_texts(
    alloc: Global,
    lines: &Lines,
    pass: &Pass,
    names: &mut Names,
) -> Result<Vec<SystemText>, Lack>
    ensures { IfOk result (λ texts. AllZip (AreOfSystem lines.now) texts.items pass.now.scope.output.systems.items) }
{
    let mut texts = Vec::new(alloc);
    for text in &pass.scope.output.systems {
        let made = system_text(alloc, lines, pass, names, text)?;
        texts.push(made)?;
    }
    Ok(texts)
}
