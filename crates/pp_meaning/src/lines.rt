//! How statements are written.
ghost use Rattle.std.specs.Prelude.{◌≡◌, ◌∷◌, ◌++◌, [], codes, drop, slice_get, IfOk, IfSome, IsTrue, OnOk, ◌&&◌, ◌==◌, ◌||◌, not};
ghost use Rattle.std.specs.Prelude.{length, map, replicate, take, ◌+◌, true};
ghost use Rattle.std.specs.List.{flat_map, list_all};
ghost use Rattle.pp_meaning.specs.declared.statements.Operation.TheVariants.{Instruction};
ghost use Rattle.pp_meaning.specs.Lines.{IsWritten, atom_text, base_name, begins_blank, external_letter};
ghost use Rattle.pp_meaning.specs.Lines.{external_text, factor_text, follows_display, item_text, literal_text, up_to};
ghost use Rattle.pp_meaning.specs.Lines.{follows_text, has_no_blank, is_blank, is_comment, is_cut, is_gap, is_in_place};
ghost use Rattle.pp_meaning.specs.Lines.{is_label, is_margin, is_wide};
ghost use Rattle.pp_meaning.specs.Lines.{kind_letter, label_text, letter, line_text, operand_text, operands_text, operation_name};
ghost use Rattle.pp_meaning.specs.Lines.{sign_text, sum_text, term_text, variable, width_text};
ghost use Rattle.pp_meaning.specs.Qualifiers.{names_in};
ghost use Rattle.pp_notation.specs.DisplayCode.{symbol};
ghost use Rattle.pp_meaning.specs.Numbers.{decimal_number};
ghost use Rattle.pp_meaning.specs.Texts.{has_all, text_with};

use crate::expressions::{
    Atom, Base, Expression, Factor, Item, Linkage, Operand, Radix, Sign, Symbol, Term, Width,
};
use crate::numbers::decimal_value;
use crate::qualifiers::Scope;
use crate::statements::{Label, Operation, Statement};
use crate::texts::{Cut, Kind, Text, has_no_mark, put_codes, put_text};
use pp_notation::name_of;
use std::alloc::{AllocError, Global};

/// The last column of a statement.
const LAST_COLUMN: usize = 72;

/// Returns the letter of a number.
fn letter_of(radix: Radix) -> &'static [u8]
    ensures { result.now ≡ letter radix }
{
    match radix {
        Radix::B => b"B",
        Radix::O => b"O",
        Radix::D => b"D",
        Radix::Plain => b"",
    }
}

/// Writes symbols as a number.
fn put_symbols(out: &mut Vec<u8>, digits: &[u8], items: &[u8]) -> Result<(), AllocError>
    ensures { OnOk result (out.new.items ≡ out.old.items ++ digits.now ++ codes "R" ++ map symbol items.now) }
{
    out.extend_from_slice(digits)?;
    out.push(b'R')?;
    put_codes(out, items)
}

/// Writes an atom.
fn put_atom(out: &mut Vec<u8>, scope: &Scope, atom: &Atom) -> Result<(), AllocError>
    ensures { OnOk result (out.new.items ≡ out.old.items ++ atom_text (names_in scope.now) atom.now) }
{
    match atom {
        Atom::Number(digits, radix) => {
            out.extend_from_slice(digits)?;
            out.extend_from_slice(letter_of(*radix))
        }
        Atom::Name(index) => scope.put_short(out, *index),
        Atom::Qualified(index) => scope.put_full(out, *index),
        Atom::Here => out.extend_from_slice(b"*"),
        Atom::LocationCounter => out.extend_from_slice(b"*L"),
        Atom::OriginCounter => out.extend_from_slice(b"*O"),
        Atom::Nothing => out.extend_from_slice(b"**"),
        Atom::Shifted(digits, radix, shift) => {
            out.extend_from_slice(digits)?;
            out.extend_from_slice(letter_of(*radix))?;
            out.push(b'S')?;
            out.extend_from_slice(shift)
        }
        Atom::Symbols(digits, items) => put_symbols(out, digits, items),
    }
}

/// Writes a factor with its operator.
fn put_factor(out: &mut Vec<u8>, scope: &Scope, factor: &Factor) -> Result<(), AllocError>
    ensures { OnOk result (out.new.items ≡ out.old.items ++ factor_text (names_in scope.now) factor.now) }
{
    out.push(if factor.is_quotient { b'/' } else { b'*' })?;
    put_atom(out, scope, &factor.atom)
}

/// Writes factors.
fn put_factors(out: &mut Vec<u8>, scope: &Scope, factors: &[Factor]) -> Result<(), AllocError>
    ensures { OnOk result (out.new.items ≡ out.old.items ++ flat_map (factor_text (names_in scope.now)) factors.now) }
{
    for factor in factors {
        put_factor(out, scope, factor)?;
    }
    Ok(())
}

fn symbol_of_sign(sign: Sign) -> u8
    ensures { sign_text sign ≡ result ∷ [] }
{
    match sign {
        Sign::Plus => b'+',
        Sign::Minus => b'-',
        Sign::Differ => b'^',
    }
}

/// Writes a term with its sign.
fn put_term(out: &mut Vec<u8>, scope: &Scope, term: &Term) -> Result<(), AllocError>
    ensures { OnOk result (out.new.items ≡ out.old.items ++ term_text (names_in scope.now) term.now) }
{
    out.push(symbol_of_sign(term.sign))?;
    put_atom(out, scope, &term.atom)?;
    put_factors(out, scope, &term.factors)
}

/// Returns terms, each with its sign.
fn terms_text(alloc: Global, scope: &Scope, terms: &[Term]) -> Result<Vec<u8>, AllocError>
    ensures { IfOk result (λ text. text.items ≡ flat_map (term_text (names_in scope.now)) terms.now) }
{
    let mut out = Vec::new(alloc);
    for term in terms {
        put_term(&mut out, scope, term)?;
    }
    Ok(out)
}

/// Returns a text without its first symbol.
fn without_first(text: &[u8]) -> &[u8]
    ensures { result.now ≡ drop 1 text.now }
{
    match text {
        [] => text,
        [_, rest @ ..] => rest,
    }
}

/// Writes an expression.
fn put_sum(
    alloc: Global,
    out: &mut Vec<u8>,
    scope: &Scope,
    x: &Expression,
) -> Result<(), AllocError>
    ensures { OnOk result (out.new.items ≡ out.old.items ++ sum_text (names_in scope.now) x.now) }
{
    let signed = terms_text(alloc, scope, &x.terms)?;
    if x.has_sign {
        return out.extend_from_slice(&signed);
    }
    out.extend_from_slice(without_first(&signed))
}

/// Returns the letter of a text.
fn letter_of_text(kind: Kind) -> &'static [u8]
    ensures { result.now ≡ kind_letter kind }
{
    match kind {
        Kind::H => b"H",
        Kind::A => b"A",
        Kind::L => b"L",
        Kind::R => b"R",
        Kind::C => b"C",
        Kind::Z => b"Z",
    }
}

/// Writes an expression or a text.
fn put_item(alloc: Global, out: &mut Vec<u8>, scope: &Scope, item: &Item) -> Result<(), AllocError>
    ensures { OnOk result (out.new.items ≡ out.old.items ++ item_text (names_in scope.now) item.now) }
{
    match item {
        Item::Sum(x) => put_sum(alloc, out, scope, x),
        Item::Characters(text) => put_text(out, letter_of_text(text.kind), text),
        Item::Nothing => Ok(()),
    }
}

/// Writes how many bits a field of VFD has.
fn put_width(
    alloc: Global,
    out: &mut Vec<u8>,
    scope: &Scope,
    width: &Width,
) -> Result<(), AllocError>
    ensures { OnOk result (out.new.items ≡ out.old.items ++ width_text (names_in scope.now) width.now) }
{
    match width {
        Width::Digits(digits, radix) => {
            out.extend_from_slice(digits)?;
            out.extend_from_slice(letter_of(*radix))
        }
        Width::Named(index) => scope.put_short(out, *index),
        Width::Rest => out.extend_from_slice(b"*P"),
        Width::Count(x) => put_sum(alloc, out, scope, x),
        Width::Beyond(x) => {
            out.extend_from_slice(b"*P")?;
            put_sum(alloc, out, scope, x)
        }
    }
}

/// Returns the letter before a name.
fn letter_of_name(linkage: Linkage) -> &'static [u8]
    ensures { result.now ≡ external_letter linkage }
{
    match linkage {
        Linkage::S => b"S",
        Linkage::X => b"X",
        Linkage::Y => b"Y",
    }
}

/// Writes a literal.
fn put_literal(
    alloc: Global,
    out: &mut Vec<u8>,
    scope: &Scope,
    item: &Item,
) -> Result<(), AllocError>
    ensures { OnOk result (out.new.items ≡ out.old.items ++ literal_text (names_in scope.now) item.now) }
{
    out.push(b'=')?;
    put_item(alloc, out, scope, item)
}

/// Writes the name of a symbol that may be one of another program.
fn put_external(
    out: &mut Vec<u8>,
    scope: &Scope,
    linkage: Linkage,
    index: usize,
) -> Result<(), AllocError>
    ensures { OnOk result (out.new.items ≡ out.old.items ++ external_text (names_in scope.now) linkage index) }
{
    out.push(b'=')?;
    out.extend_from_slice(letter_of_name(linkage))?;
    scope.put_short(out, index)
}

/// Writes an operand.
fn put_operand(
    alloc: Global,
    out: &mut Vec<u8>,
    scope: &Scope,
    operand: &Operand,
) -> Result<(), AllocError>
    ensures { OnOk result (out.new.items ≡ out.old.items ++ operand_text (names_in scope.now) operand.now) }
{
    match operand {
        Operand::Single(item) => put_item(alloc, out, scope, item),
        Operand::Literal(_, item) => put_literal(alloc, out, scope, item),
        Operand::External(linkage, index) => put_external(out, scope, *linkage, *index),
        Operand::Bits(width, item) => {
            put_width(alloc, out, scope, width)?;
            out.push(b'/')?;
            put_item(alloc, out, scope, item)
        }
        Operand::LiteralBits(width, _, item) => {
            put_width(alloc, out, scope, width)?;
            out.push(b'/')?;
            put_literal(alloc, out, scope, item)
        }
        Operand::ExternalBits(width, linkage, index) => {
            put_width(alloc, out, scope, width)?;
            out.push(b'/')?;
            put_external(out, scope, *linkage, *index)
        }
        Operand::Word(name) => out.extend_from_slice(name),
    }
}

/// Returns the text of DIS after a comma.
fn text_of_display(alloc: Global, text: &Text) -> Result<Vec<u8>, AllocError>
    ensures { IfOk result (λ all. all.items ≡ text_with (codes ",") text.now) }
{
    let mut out = Vec::new(alloc);
    put_text(&mut out, b",", text)?;
    Ok(out)
}

/// Returns operands, each after a comma.
fn with_commas(alloc: Global, scope: &Scope, operands: &[Operand]) -> Result<Vec<u8>, AllocError>
    ensures { IfOk result (λ text. text.items ≡ flat_map (λ operand. codes "," ++ operand_text (names_in scope.now) operand)
        operands.now) }
{
    let mut out = Vec::new(alloc);
    for operand in operands {
        out.push(b',')?;
        put_operand(alloc, &mut out, scope, operand)?;
    }
    Ok(out)
}

/// Returns operands with a comma between two.
fn text_of_operands(
    alloc: Global,
    scope: &Scope,
    operands: &[Operand],
) -> Result<Vec<u8>, AllocError>
    ensures { IfOk result (λ text. text.items ≡ operands_text (names_in scope.now) operands.now) }
{
    let all = with_commas(alloc, scope, operands)?;
    Vec::from_slice(alloc, without_first(&all))
}

/// Returns the name of a base.
fn name_of_base(base: Base) -> &'static [u8]
    ensures { result.now ≡ base_name base }
{
    match base {
        Base::Octal => b"OCTAL",
        Base::Decimal => b"DECIMAL",
        Base::Mixed => b"MIXED",
    }
}

/// Returns the beginning of the name of a base.
fn beginning(base: Base, more: u8) -> &'static [u8]
    ensures { result.now ≡ take (more + 1) (base_name base) }
{
    let name = name_of_base(base);
    let count = usize::from(more) + 1;
    &name[..count.min(name.len())]
}

/// Returns a qualifier with slashes before it and behind it.
fn text_of_qualifier(
    alloc: Global,
    before: u8,
    name: &[u8],
    after: u8,
) -> Result<Vec<u8>, AllocError>
    ensures { IfOk result (λ text. text.items ≡ replicate before 47 ++ name.now ++ replicate after 47) }
{
    let mut text = vec![in alloc; b'/'; usize::from(before)]?;
    text.extend_from_slice(name)?;
    text.extend_from_slice(&vec![in alloc; b'/'; usize::from(after)]?)?;
    Ok(text)
}

/// Returns what an operation has as operands.
fn variable_of(
    alloc: Global,
    scope: &Scope,
    operation: Operation,
    operands: &[Operand],
) -> Result<Vec<u8>, AllocError>
    ensures { IfOk result (λ text. text.items ≡ variable (names_in scope.now) operation operands.now) }
{
    match (operation, operands) {
        (Operation::SetBase(base, more), _) => Vec::from_slice(alloc, beginning(base, more)),
        (Operation::BaseBefore, _) => Vec::from_slice(alloc, b"*"),
        (Operation::Display, [Operand::Single(Item::Characters(text))]) => text_of_display(
            alloc, text,
        ),
        (Operation::Qualify(before, after), [Operand::Word(name)]) => text_of_qualifier(
            alloc, before, name, after,
        ),
        _ => text_of_operands(alloc, scope, operands),
    }
}

/// Returns the name of an instruction, or that of the last one.
fn name_of_instruction(code: u8) -> Option<&'static [u8]>
    ensures { IfSome result (λ name. name.now ≡ operation_name (Instruction code)) }
{
    if code < 0o100 {
        Some(name_of(code))
    } else {
        None
    }
}

/// Returns the name of an operation.
pub fn name_of_operation(operation: Operation) -> Option<&'static [u8]>
    ensures { IfSome result (λ name. name.now ≡ operation_name operation) }
{
    match operation {
        Operation::Blank => Some(b""),
        Operation::Instruction(code) => name_of_instruction(code),
        Operation::Constants => Some(b"CON"),
        Operation::Data => Some(b"DATA"),
        Operation::Zeros => Some(b"BSSZ"),
        Operation::Space => Some(b"BSS"),
        Operation::Origin => Some(b"ORG"),
        Operation::Location => Some(b"LOC"),
        Operation::Equate(true) => Some(b"="),
        Operation::Equate(false) => Some(b"EQU"),
        Operation::Set => Some(b"SET"),
        Operation::Choose(true) => Some(b"MAX"),
        Operation::Choose(false) => Some(b"MIN"),
        Operation::Count(_) => Some(b"MICCNT"),
        Operation::SetBase(..) | Operation::BaseBefore => Some(b"BASE"),
        Operation::Deck => Some(b"PERIPH"),
        Operation::Display => Some(b"DIS"),
        Operation::Bits => Some(b"VFD"),
        Operation::Position => Some(b"POS"),
        Operation::Shortest(true) => Some(b"ADK"),
        Operation::Shortest(false) => Some(b"LDK"),
        Operation::Pool(_) => Some(b"LIT"),
        Operation::Use => Some(b"USE"),
        Operation::Synonym => Some(b"OPSYN"),
        Operation::Qualify(..) => Some(b"QUAL"),
        Operation::End => Some(b"END"),
    }
}

/// Returns the text of a label.
fn text_of_label<'a>(scope: &Scope<'a>, label: Label) -> &'a [u8]
    ensures { result.now ≡ label_text (names_in scope.now) label }
{
    match label {
        Label::Empty => b"",
        Label::Plus => b"+",
        Label::Minus => b"-",
        Label::Named(index) => scope.label_at(index),
    }
}

/// Returns the line that has the fields of a statement.
fn text_of_line(
    alloc: Global,
    scope: &Scope,
    statement: &Statement,
    variable: &[u8],
) -> Result<Vec<u8>, AllocError>
    ensures { IfOk result (λ line. line.items ≡ statement.now.margin.items ++ label_text (names_in scope.now) statement.now.label
        ++ statement.now.word.items ++ statement.now.gap.items ++ statement.now.name.items ++ statement.now.space.items
        ++ variable.now ++ statement.now.comment.items) }
{
    let mut line = Vec::new(alloc);
    line.extend_from_slice(&statement.margin)?;
    line.extend_from_slice(text_of_label(scope, statement.label))?;
    line.extend_from_slice(&statement.word)?;
    line.extend_from_slice(&statement.gap)?;
    line.extend_from_slice(&statement.name)?;
    line.extend_from_slice(&statement.space)?;
    line.extend_from_slice(variable)?;
    line.extend_from_slice(&statement.comment)?;
    Ok(line)
}

fn are_blanks(text: &[u8]) -> bool
    ensures { result ≡ list_all is_blank text.now }
{
    text.iter().all(|byte| *byte == b' ' || *byte == b'\t')
}

fn begins_with_blank(text: &[u8]) -> bool
    ensures { result ≡ begins_blank text.now }
{
    match text {
        [] => true,
        [byte, ..] => *byte == b' ' || *byte == b'\t',
    }
}

fn is_narrow_margin(text: &[u8]) -> bool
    ensures { result ≡ is_margin text.now }
{
    match text {
        [] => true,
        [byte] => *byte == b' ',
        _ => false,
    }
}

fn is_wide_gap(text: &[u8]) -> bool
    ensures { result ≡ is_wide text.now }
{
    match text {
        [] => false,
        [byte] => *byte == b'\t',
        _ => true,
    }
}

/// Returns whether a text has no blank.
fn has_no_blank(text: &[u8]) -> bool
    ensures { result ≡ has_no_blank text.now }
{
    text.iter().all(|byte| *byte != b' ' && *byte != b'\t')
}

/// Returns whether a word may be in place of a label.
fn may_be_in_place(operation: Operation, word: &[u8]) -> bool
    ensures { result ≡ is_in_place operation word.now }
{
    match operation {
        Operation::Synonym => !word.is_empty() && has_no_blank(word),
        Operation::SetBase(..)
        | Operation::BaseBefore
        | Operation::Qualify(..)
        | Operation::Deck
        | Operation::End => has_no_blank(word),
        _ => word.is_empty(),
    }
}

/// Returns whether the blanks round a label are right.
fn has_gap(label: Label, word: &[u8], operation: Operation, margin: &[u8], gap: &[u8]) -> bool
    ensures { result ≡ is_gap label word.now operation margin.now gap.now }
{
    match (label, word, operation) {
        (Label::Empty, [], _) => margin.is_empty() && is_wide_gap(gap),
        (Label::Empty, [_, ..], _) => is_narrow_margin(margin) && !gap.is_empty(),
        (_, _, Operation::Blank) => is_narrow_margin(margin),
        _ => is_narrow_margin(margin) && !gap.is_empty(),
    }
}

/// Returns whether a text of DIS has all its symbols, two for each word.
fn has_all_symbols(count: usize, digits: &[u8]) -> bool
    ensures { IsTrue result → has_all count (decimal_number digits.now) ≡ true }
{
    match decimal_value(digits) {
        Some(number) if number >= 0 => number as usize == count / 2 && count % 2 == 0,
        _ => false,
    }
}

/// Returns whether a comment may follow a text of DIS.
fn may_follow(cut: &Cut, columns: usize, count: usize, comment: &[u8]) -> bool
    ensures { IsTrue result → follows_text cut.now columns count comment.now ≡ true }
{
    match cut {
        Cut::Counted(digits) => {
            comment.is_empty() || columns == LAST_COLUMN || has_all_symbols(count, digits)
        }
        Cut::Marked(_) => true,
    }
}

/// Returns whether a comment may follow a text of DIS, or of another name of it.
fn may_follow_display(name: &[u8], columns: usize, text: &Text, comment: &[u8]) -> bool
    ensures { IsTrue result → follows_display name.now columns text.now comment.now ≡ true }
{
    may_follow(&text.cut, columns, text.codes.len(), comment)
        || name != b"DIS".as_slice() && begins_with_blank(comment) && has_no_mark(&text.codes, b' ')
}

/// Returns whether what follows the operands is a comment.
fn has_comment(
    name: &[u8],
    columns: usize,
    operation: Operation,
    operands: &[Operand],
    comment: &[u8],
) -> bool
    ensures { IsTrue result → is_comment name.now columns operation operands.now comment.now ≡ true }
{
    match (operation, operands) {
        (Operation::Display, [Operand::Single(Item::Characters(text))]) => may_follow_display(
            name, columns, text, comment,
        ),
        _ => begins_with_blank(comment),
    }
}

/// Returns whether a label has the present qualifier.
fn has_label(scope: &Scope, label: Label) -> bool
    ensures { result ≡ is_label (names_in scope.now) label }
{
    match label {
        Label::Named(index) => scope.may_define(index),
        _ => true,
    }
}

/// Returns whether blanks are where a line needs them. So many columns are before its comment.
fn is_cut_so(scope: &Scope, statement: &Statement, columns: usize, variable: &[u8]) -> bool
    ensures { IsTrue result → (list_all is_blank statement.now.gap.items && list_all is_blank
        statement.now.space.items && is_comment statement.now.name.items columns statement.now.operation
        statement.now.operands.items statement.now.comment.items &&
        is_in_place statement.now.operation statement.now.word.items &&
        is_label (names_in scope.now) statement.now.label &&
        is_gap statement.now.label statement.now.word.items statement.now.operation statement.now.margin.items
        statement.now.gap.items &&
        (not (length statement.now.space.items == 0) || length variable.now == 0)) ≡ true }
{
    are_blanks(&statement.gap)
        && are_blanks(&statement.space)
        && has_comment(
            &statement.name,
            columns,
            statement.operation,
            &statement.operands,
            &statement.comment,
        )
        && may_be_in_place(statement.operation, &statement.word)
        && has_label(scope, statement.label)
        && has_gap(
            statement.label,
            &statement.word,
            statement.operation,
            &statement.margin,
            &statement.gap,
        )
        && (!statement.space.is_empty() || variable.is_empty())
}

/// Returns a line with the blanks that it has lost at its end, up to a size.
fn with_lost_blanks(alloc: Global, line: &[u8], size: usize) -> Result<Vec<u8>, AllocError>
    ensures { IfOk result (λ whole. whole.items ≡ up_to size line.now) }
{
    let mut whole = Vec::from_slice(alloc, line)?;
    let lost = size.saturating_sub(line.len());
    whole.extend_from_slice(&vec![in alloc; b' '; lost]?)?;
    Ok(whole)
}

/// Returns whether the line of a statement has its fields and nothing else, with blanks between them. Its operands are written by their
/// terms. The line may have lost blanks at its end.
///
/// # Errors
/// Memory ran out.
pub fn is_written(
    alloc: Global,
    symbols: &[Symbol],
    statement: &Statement,
) -> Result<bool, AllocError>
    ensures { IfOk result (λ yes. IsTrue yes → IsWritten symbols.now statement.now) }
{
    let scope = &Scope {
        symbols,
        prefix: &statement.prefix,
    };
    let variable = variable_of(alloc, scope, statement.operation, &statement.operands)?;
    let line = text_of_line(alloc, scope, statement, &variable)?;
    let whole = with_lost_blanks(alloc, &statement.line, line.len())?;
    if whole.as_slice() != line.as_slice() {
        return Ok(false);
    }
    let columns = line.len().saturating_sub(statement.comment.len());
    Ok(is_cut_so(scope, statement, columns, &variable))
}
