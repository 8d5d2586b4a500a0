//! Statements with the terms of their operands.
ghost use Rattle.std.specs.Prelude.{◌≡◌, IfOk, IfSome};

use crate::rows::qualifier_in;
use crate::terms::{Names, begins_with_blank, field_of, may_follow, operand_of, text_of_display};
use pp_decks::{LAST_COLUMN, Span, in_columns, is_empty, tail};
use pp_expansion::Pass;
use pp_meaning::{Item, Operand, Operation as Meant, Statement};
use pp_source::{Parts, Statement as Fields};
use pp_statements::{Named, Row};
use std::alloc::{AllocError, Global};

/// Returns the literals that a row names.
pub fn named_by<'a>(pass: &'a Pass, row: &Row) -> &'a [Named] {
    let Span { first, end } = row.named;
    pass.scope.output.named.get(first..end).unwrap_or(&[])
}

/// Returns whether an operation has numbers and texts, and no symbols.
fn is_of_data(operation: Meant) -> bool {
    matches!(operation, Meant::Data | Meant::Pool(_))
}

/// Returns the terms of an operand, which begins at a column.
fn one_operand(
    alloc: Global,
    names: &Names,
    operation: Meant,
    text: &[u8],
    named: &[Named],
    column: usize,
) -> Result<Option<Operand>, AllocError> {
    match operation {
        Meant::Bits => field_of(alloc, names, text, named, column),
        Meant::Constants if text.is_empty() => Ok(Some(Operand::Single(Item::Nothing))),
        _ => operand_of(alloc, names, text, is_of_data(operation), named, column),
    }
}

/// Returns how many columns an operand may have with the blanks behind it, which are in the line up to its last column, or lost at its
/// end.
fn room_of(line: &[u8], part: Span) -> usize {
    if part.end >= line.len() {
        LAST_COLUMN
    } else if is_empty(tail(in_columns(line), part.end)) {
        LAST_COLUMN.saturating_sub(part.first)
    } else {
        0
    }
}

/// Returns the terms of an operand that is a part of a line, and the column after it. A text may go on in the blanks behind it.
fn operand_in(
    alloc: Global,
    names: &Names,
    line: &[u8],
    operation: Meant,
    part: Span,
    named: &[Named],
) -> Result<Option<(Operand, usize)>, AllocError> {
    let mut text = Vec::from_slice(alloc, part.of(line))?;
    let longest = text.len().max(room_of(line, part));
    for size in text.len()..=longest {
        if let Some(found) = one_operand(alloc, names, operation, &text, named, part.first)? {
            let end = part.first.saturating_add(size);
            return Ok(Some((found, end)));
        }
        text.push(b' ')?;
    }
    Ok(None)
}

/// Returns the terms of operands, between two of which is a comma, and the columns that they have.
fn operands_of(
    alloc: Global,
    names: &Names,
    line: &[u8],
    operation: Meant,
    field: Span,
    named: &[Named],
) -> Result<Option<(Vec<Operand>, Span)>, AllocError> {
    let mut operands = Vec::new(alloc);
    let mut end = field.end;
    let is_literal = field.of(line).first() == Some(&b'=');
    let is_single = matches!(operation, Meant::Instruction(_) | Meant::End);
    let mut parts = Parts::new(field, is_of_data(operation) || is_single && is_literal);
    for _ in 0..=line.len() {
        let part = match parts.next(line) {
            Ok(Some(part)) => part,
            Ok(None) => return Ok(Some((operands, Span::new(field.first, end)))),
            Err(_) => return Ok(None),
        };
        match operand_in(alloc, names, line, operation, part, named)? {
            Some((operand, after)) => {
                operands.push(operand)?;
                end = end.max(after);
            }
            None => return Ok(None),
        }
    }
    Ok(None)
}

/// Returns the text of DIS, and the columns that it has.
fn display_of(
    alloc: Global,
    line: &[u8],
    field: Span,
) -> Result<Option<(Vec<Operand>, Span)>, AllocError> {
    let Some((text, size)) = text_of_display(alloc, field.of(line))? else {
        return Ok(None);
    };
    let field = field.part(0, size);
    let mut operands = Vec::new(alloc);
    operands.push(Operand::Single(Item::Characters(text)))?;
    Ok(Some((operands, field)))
}

/// Returns what USE, OPSYN or MICCNT has, if it has something.
fn word_of(alloc: Global, line: &[u8], field: Span) -> Result<Vec<Operand>, AllocError> {
    let mut operands = Vec::new(alloc);
    if !field.is_empty() {
        let word = Vec::from_slice(alloc, field.of(line))?;
        operands.push(Operand::Word(word))?;
    }
    Ok(operands)
}

/// Returns the qualifier of QUAL, if it has one.
fn qualifier_of(alloc: Global, line: &[u8], field: Span) -> Result<Vec<Operand>, AllocError> {
    let mut operands = Vec::new(alloc);
    if !field.is_empty() {
        let (_, name, _) = qualifier_in(field.of(line));
        operands.push(Operand::Word(Vec::from_slice(alloc, name)?))?;
    }
    Ok(operands)
}

/// Returns the operands of a statement with their terms, and the columns that they have.
fn variable_of(
    alloc: Global,
    names: &Names,
    line: &[u8],
    operation: Meant,
    field: Span,
    named: &[Named],
) -> Result<Option<(Vec<Operand>, Span)>, AllocError> {
    match operation {
        Meant::SetBase(..) | Meant::BaseBefore => Ok(Some((Vec::new(alloc), field))),
        Meant::Deck => Ok(Some((Vec::new(alloc), Span::none()))),
        Meant::Display => display_of(alloc, line, field),
        Meant::Use | Meant::Synonym | Meant::Count(_) => Ok(Some((
            word_of(alloc, line, field)?,
            field,
        ))),
        Meant::Qualify(..) => Ok(Some((qualifier_of(alloc, line, field)?, field))),
        _ => operands_of(alloc, names, line, operation, field, named),
    }
}

/// Returns whether a text is the comment behind operands, before which are so many columns. Under another name DIS has an operand without blanks.
fn is_comment(
    name: &[u8],
    columns: usize,
    operation: Meant,
    operands: &[Operand],
    comment: &[u8],
) -> bool {
    match (operation, operands) {
        (Meant::Display, [Operand::Single(Item::Characters(text))]) => {
            may_follow(text, columns, comment)
                || !matches!(name, b"DIS") && begins_with_blank(comment)
        }
        _ => begins_with_blank(comment),
    }
}

/// Returns whether a word is in place of a label: a name of OPSYN, or what says nothing.
pub fn has_word(operation: Meant) -> bool {
    matches!(
        operation,
        Meant::Synonym
            | Meant::SetBase(..)
            | Meant::BaseBefore
            | Meant::Qualify(..)
            | Meant::Deck
            | Meant::End
    )
}

/// Returns a statement with the terms of its operands. An operand that says nothing is a part of its comment.
pub fn statement_of(
    alloc: Global,
    names: &mut Names,
    line: &[u8],
    fields: Fields,
    operation: Meant,
    named: &[Named],
) -> Result<Option<Statement>, AllocError>
    ensures { IfOk result (λ made. IfSome made (λ statement. statement.line.items ≡ line.now)) }
{
    let Fields {
        location,
        operation: name,
        operand,
        ..
    } = fields;
    let Some((operands, field)) = variable_of(alloc, names, line, operation, operand, named)? else {
        return Ok(None);
    };
    let (space, end) = if field.is_empty() {
        (Span::new(name.end, name.end), name.end)
    } else {
        (Span::new(name.end, field.first), field.end)
    };
    let comment = tail(line, end);
    if !is_comment(name.of(line), end, operation, &operands, comment) {
        return Ok(None);
    }
    let (label, word) = if has_word(operation) {
        (b"".as_slice(), location.of(line))
    } else {
        (location.of(line), b"".as_slice())
    };
    let prefix = Vec::from_slice(alloc, names.prefix())?;
    if matches!(operation, Meant::Qualify(..)) {
        let (_, qualifier, _) = qualifier_in(operand.of(line));
        names.qualify(qualifier)?;
    }
    Ok(Some(Statement {
        line: Vec::from_slice(alloc, line)?,
        prefix,
        margin: Vec::from_slice(alloc, Span::new(0, location.first).of(line))?,
        label: names.label(label)?,
        word: Vec::from_slice(alloc, word)?,
        gap: Vec::from_slice(alloc, Span::new(location.end, name.first).of(line))?,
        name: Vec::from_slice(alloc, name.of(line))?,
        operation,
        space: Vec::from_slice(alloc, space.of(line))?,
        operands,
        comment: Vec::from_slice(alloc, comment)?,
    }))
}
