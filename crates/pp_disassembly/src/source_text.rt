//! Writes statements as the lines of a source.
ghost use Rattle.std.specs.Prelude.{◌≡◌, ◌∷◌, ◌++◌, IfOk, OnOk};
ghost use Rattle.pp_arith.specs.Octal.{octal_text};
ghost use Rattle.pp_disassembly.specs.SourceText.{name_text, numbers, operand_text, operands, operation_name};
ghost use Rattle.pp_disassembly.specs.SourceText.{source_line, source_text, symbols, variable};
ghost use Rattle.pp_notation.specs.Columns.{optional};

use crate::statement::{Kind, Name, Operand, Operation, Statement};
use pp_notation::{name_of, put_field, put_line, put_number, symbol_of};
use std::alloc::{AllocError, Global};

/// The columns of a label, of an operation, and of words before their symbols.
const LABEL: usize = 8;

const OPERATION: usize = 6;

const WORDS: usize = 22;

/// Writes a name: its letter and its address in four octal digits. The exit of a subroutine has the name of the entry and X.
fn put_name(out: &mut Vec<u8>, name: Name) -> Result<(), AllocError>
    ensures { OnOk result (out.new.items ≡ out.old.items ++ name_text name) }
{
    let address = u64::from(name.address);
    match name.kind {
        Kind::Code => put_lettered(out, b'L', address),
        Kind::Subroutine => put_lettered(out, b'S', address),
        Kind::Data => put_lettered(out, b'D', address),
        Kind::Exit => {
            put_lettered(out, b'S', address + 1)?;
            out.push(b'X')?;
            Ok(())
        }
    }
}

/// Writes a letter and an address.
fn put_lettered(out: &mut Vec<u8>, letter: u8, address: u64) -> Result<(), AllocError>
    ensures { OnOk result (out.new.items ≡ out.old.items ++ letter ∷ octal_text address 4) }
{
    out.push(letter)?;
    put_number(out, address, 4)
}

/// Writes an operand.
fn put_operand(out: &mut Vec<u8>, operand: Operand) -> Result<(), AllocError>
    ensures { OnOk result (out.new.items ≡ out.old.items ++ operand_text operand) }
{
    match operand {
        Operand::Number(number) => put_number(out, u64::from(number), 1),
        Operand::Minus(number) => {
            out.push(b'-')?;
            put_number(out, u64::from(number), 1)
        }
        Operand::Here => Ok(out.push(b'*')?),
        Operand::Named(name, 0) => put_name(out, name),
        Operand::Named(name, more) => {
            put_name(out, name)?;
            out.push(b'+')?;
            put_number(out, u64::from(more), 1)
        }
    }
}

/// Writes an operand, if there is one.
fn put_optional(out: &mut Vec<u8>, operand: Option<Operand>) -> Result<(), AllocError>
    ensures { OnOk result (out.new.items ≡ out.old.items ++ optional operand_text operand) }
{
    match operand {
        Some(operand) => put_operand(out, operand),
        None => Ok(()),
    }
}

/// Writes the operands of an instruction.
fn put_operands(
    out: &mut Vec<u8>,
    first: Option<Operand>,
    second: Option<u8>,
) -> Result<(), AllocError>
    ensures { OnOk result (out.new.items ≡ out.old.items ++ operands first second) }
{
    put_optional(out, first)?;
    match second {
        Some(d) => {
            out.push(b',')?;
            put_number(out, u64::from(d), 1)
        }
        None => Ok(()),
    }
}

/// Writes words with a comma between two.
fn put_numbers(out: &mut Vec<u8>, words: &[u16]) -> Result<(), AllocError>
    ensures { OnOk result (out.new.items ≡ out.old.items ++ numbers words.now) }
{
    let Some((first, others)) = words.split_first() else {
        return Ok(());
    };
    put_number(out, u64::from(*first), 1)?;
    for word in others {
        out.push(b',')?;
        put_number(out, u64::from(*word), 1)?;
    }
    Ok(())
}

/// Writes the symbols of words.
fn put_symbols(out: &mut Vec<u8>, words: &[u16]) -> Result<(), AllocError>
    ensures { OnOk result (out.new.items ≡ out.old.items ++ symbols words.now) }
{
    for word in words {
        out.push(symbol_of((*word / 0o100 % 0o100) as u8))?;
        out.push(symbol_of((*word % 0o100) as u8))?;
    }
    Ok(())
}

/// Returns the name of an operation.
fn operation_name(operation: &Operation) -> &'static [u8]
    ensures { result.now ≡ operation_name operation.now }
{
    match operation {
        Operation::Base => b"BASE",
        Operation::Origin(_) => b"ORG",
        Operation::Instruction(code, ..) => name_of(*code % 0o100),
        Operation::Subroutine => b"SUBR",
        Operation::Equal => b"EQU",
        Operation::Words(_) => b"CON",
        Operation::Zeros(_) => b"BSSZ",
        Operation::End(_) => b"END",
    }
}

/// Writes the operand field of a statement, and its comment.
fn put_variable(alloc: Global, out: &mut Vec<u8>, operation: &Operation) -> Result<(), AllocError>
    ensures { OnOk result (out.new.items ≡ out.old.items ++ variable operation.now) }
{
    match operation {
        Operation::Base => out.extend_from_slice(b"OCTAL"),
        Operation::Origin(address) => put_number(out, u64::from(*address), 1),
        Operation::Instruction(_, first, second) => put_operands(out, *first, *second),
        Operation::Subroutine => Ok(()),
        Operation::Equal => out.extend_from_slice(b"*-1"),
        Operation::Words(words) => {
            let mut numbers = Vec::new(alloc);
            put_numbers(&mut numbers, words.as_slice())?;
            put_field(out, &numbers, WORDS)?;
            put_symbols(out, words.as_slice())
        }
        Operation::Zeros(count) => put_number(out, *count as u64, 1),
        Operation::End(entry) => put_optional(out, *entry),
    }
}

/// Writes the label of a statement, if it has one.
fn put_label(out: &mut Vec<u8>, label: Option<Name>) -> Result<(), AllocError>
    ensures { OnOk result (out.new.items ≡ out.old.items ++ optional name_text label) }
{
    match label {
        Some(name) => put_name(out, name),
        None => Ok(()),
    }
}

/// Writes the line of a statement.
fn put_statement(alloc: Global, out: &mut Vec<u8>, statement: &Statement) -> Result<(), AllocError>
    ensures { OnOk result (out.new.items ≡ out.old.items ++ source_line statement.now) }
{
    let mut label = Vec::new(alloc);
    put_label(&mut label, statement.label)?;
    let mut line = Vec::new(alloc);
    line.push(b' ')?;
    put_field(&mut line, &label, LABEL)?;
    line.push(b' ')?;
    put_field(&mut line, operation_name(&statement.operation), OPERATION)?;
    line.push(b' ')?;
    put_variable(alloc, &mut line, &statement.operation)?;
    put_line(out, &line)
}

/// Returns the lines of a source with these statements.
///
/// # Errors
/// `AllocError` if memory runs out.
pub fn write_source(alloc: Global, statements: &[Statement]) -> Result<Vec<u8>, AllocError>
    ensures { IfOk result (λ text. text.items ≡ source_text statements.now) }
{
    let mut text = Vec::new(alloc);
    for statement in statements {
        put_statement(alloc, &mut text, statement)?;
    }
    Ok(text)
}
