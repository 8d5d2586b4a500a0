//! What the rows of the listing are: statements with a meaning, or nothing.
use pp_decks::{Lines, Span};
use pp_expansion::Pass;
use pp_meaning::Operation as Meant;
use pp_source::{Elsewhere, Here, Operation, Statement as Fields, next_where, operation_of};
use pp_statements::{Cut, Row, base_of};

/// The code of LDN, which LDK may be.
const LOAD: u8 = 0o14;

/// The statement of a row of the listing that has a literal.
const NO_STATEMENT: usize = usize::MAX;

/// What a row of the listing is.
#[derive(Clone, Copy)]
pub enum Part {
    /// A statement with a meaning.
    Kept(Fields, Meant),
    /// What neither makes words nor says how others are meant.
    Silent,
    /// A statement that should have a meaning, and has none.
    Other,
}

/// Returns whether a row has nothing beside its line.
fn is_bare(row: &Row) -> bool {
    row.first == row.end && !row.has_address && row.value.is_none()
}

/// Returns what an operation does to the words, if that is known here. LIT has an address, and MICCNT a number of symbols.
fn meant(operation: Operation, name: &[u8], operand: &[u8], value: Option<usize>) -> Option<Meant> {
    Some(match operation {
        Operation::None => Meant::Blank,
        Operation::Instruction(code) => Meant::Instruction(code),
        Operation::Expressions => Meant::Constants,
        Operation::Data => Meant::Data,
        Operation::Zeros => Meant::Zeros,
        Operation::Space => Meant::Space,
        Operation::Origin => Meant::Origin,
        Operation::Location => Meant::Location,
        Operation::Equate => Meant::Equate(matches!(name, b"=")),
        Operation::Set => Meant::Set,
        Operation::Greatest => Meant::Choose(true),
        Operation::Least => Meant::Choose(false),
        Operation::MicroCount => Meant::Count(value?),
        Operation::Base if matches!(operand, b"*") => Meant::BaseBefore,
        Operation::Base => {
            let more = u8::try_from(operand.len().wrapping_sub(1)).ok()?;
            Meant::SetBase(base_of(operand)?, more)
        }
        Operation::Deck => Meant::Deck,
        Operation::End => Meant::End,
        Operation::Text => Meant::Display,
        Operation::Bits => Meant::Bits,
        Operation::Position => Meant::Position,
        Operation::Shortest(code, ..) => Meant::Shortest(code != LOAD),
        Operation::Literals => Meant::Pool(value?),
        Operation::Use => Meant::Use,
        Operation::Qualifier => {
            let (left, _, right) = qualifier_in(operand);
            Meant::Qualify(u8::try_from(left).ok()?, u8::try_from(right).ok()?)
        }
        _ => return None,
    })
}

/// Returns how many slashes are before a qualifier, the qualifier, and how many are behind it.
pub fn qualifier_in(text: &[u8]) -> (usize, &[u8], usize) {
    let left = next_where(text, 0, |symbol| *symbol != b'/');
    let end = next_where(text, left, |symbol| *symbol == b'/');
    let name = text.get(left..end).unwrap_or(b"");
    (left, name, text.len().saturating_sub(end))
}

/// Returns whether an operation neither makes words nor says how others are meant.
fn is_silent(operation: Operation) -> bool {
    matches!(
        operation,
        Operation::Ignored
            | Operation::SystemText
            | Operation::Error(_)
            | Operation::Name
            | Operation::Micro
            | Operation::NumberMicro { .. }
            | Operation::Block(_)
            | Operation::TextCode
            | Operation::Lines(
                Elsewhere::Deck
                    | Elsewhere::Here
                    | Elsewhere::Purge
                    | Elsewhere::Stop
                    | Elsewhere::Column
            )
    )
}

/// Returns what the call of a macro is: nothing, or its label, which is alone in what it means.
fn part_of_call(row: &Row, fields: Fields) -> Part {
    if is_bare(row) {
        return Part::Silent;
    }
    let nothing = Span::new(fields.location.end, fields.location.end);
    let label_alone = Fields {
        operation: nothing,
        operand: nothing,
        ..fields
    };
    Part::Kept(label_alone, Meant::Blank)
}

/// Returns what OPSYN is. A macro with another name is no statement.
fn part_of_synonym(cut: Cut) -> Part {
    if cut.has_renamed {
        Part::Kept(cut.fields, Meant::Synonym)
    } else {
        Part::Silent
    }
}

/// Returns what the statement of a row is.
fn part_of_statement(here: &Here, row: &Row, cut: Cut) -> Part {
    let fields = cut.fields;
    if cut.is_call {
        return part_of_call(row, fields);
    }
    let name = cut.name.of(here.text);
    let operation = operation_of(name);
    if matches!(operation, Operation::Lines(Elsewhere::Synonym)) {
        return part_of_synonym(cut);
    }
    if is_bare(row) && is_silent(operation) {
        return Part::Silent;
    }
    let value = row.value.and_then(|value| usize::try_from(value).ok());
    match meant(operation, name, fields.operand.of(here.text), value) {
        Some(meant) => Part::Kept(fields, meant),
        None => Part::Other,
    }
}

/// Returns what a row is.
pub fn part_of(lines: &Lines, row: &Row) -> Part {
    if !row.is_performed || row.statement == NO_STATEMENT {
        return Part::Silent;
    }
    match row.cut {
        Some(cut) => part_of_statement(&Here::new(lines, row.statement), row, cut),
        None if is_bare(row) => Part::Silent,
        None => Part::Other,
    }
}

/// Returns whether a label is a name.
pub fn is_name(label: &[u8]) -> bool {
    !matches!(label, b"" | b"+" | b"-")
}

/// Returns the operation of a row.
fn operation_of_row(lines: &Lines, row: &Row) -> Operation {
    match row.cut {
        Some(cut) if row.is_performed && row.statement != NO_STATEMENT && !cut.is_call => {
            operation_of(cut.name.of(Here::new(lines, row.statement).text))
        }
        _ => Operation::None,
    }
}

/// Returns the index of the row behind those of a program, which begin at an index: that of the next IDENT behind its own one, or
/// behind its END.
pub fn end_of_unit(lines: &Lines, rows: &[Row], first: usize) -> usize {
    let mut may_end = false;
    for (at, row) in rows.iter().enumerate().skip(first) {
        match operation_of_row(lines, row) {
            Operation::Name if may_end => return at,
            Operation::Name | Operation::End => may_end = true,
            _ => {}
        }
    }
    rows.len()
}

/// Returns the index of the line of a statement: that of a program of the source, both by their indices.
pub fn index_of_statement(lines: &Lines, pass: &Pass, unit: usize, index: usize) -> usize {
    let rows = &pass.scope.output.rows;
    let mut first: usize = 0;
    for _ in 0..unit {
        first = end_of_unit(lines, rows, first);
    }
    let mut count: usize = 0;
    let mut line: usize = 0;
    for row in rows.iter().skip(first) {
        if matches!(part_of(lines, row), Part::Kept(..)) {
            line = row.statement;
            if count == index {
                break;
            }
            count = count.saturating_add(1);
        }
    }
    line
}
