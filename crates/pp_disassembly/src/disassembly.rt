//! Cells as statements that assemble to the same words.
ghost use Rattle.std.specs.Prelude.{◌≡◌, ◌<◌, ◌≤◌, ◌+◌, ℕ, List, ◌∷◌, ◌++◌, [], All, IfOk, IfSome, OnOk, Some, length, take, true};
ghost use Rattle.pp_notation.specs.Cells.{IsCell};
ghost use Rattle.pp_notation.specs.Rows.{IsPair, IsRow, address_at, are_zeros, first_address, words_in};
ghost use Rattle.pp_disassembly.specs.Statements.{Adds, Continues, HasAssembled, HasWords, addressed, assembled, cells_of};
ghost use Rattle.pp_notation.specs.InstructionWords.{then_distance};
ghost use Rattle.pp_disassembly.specs.Statements.{field, is_named, labelled_address, words_of};
ghost use Rattle.pp_notation.specs.declared.program.Cell.{Cell as ProgramCell};

use crate::flow::{Flow, Role, is_unnamed, names_cell, parts};
use crate::statement::{Kind, Name, Operand, Operation, Statement, WORDS_OF_LINE};
use arrayvec::ArrayVec;
use pp_arith::relative;
use pp_notation::{Cell, Form, form_of};
use std::alloc::{AllocError, Global};

/// How many words of zero are a statement BSSZ, at least.
const ZEROS: usize = 4;

/// The greatest d, which no operand of a jump or a shift means.
const ALL_ONES: u8 = 0o77;

/// The code of the shift.
const SHN: u8 = 0o10;

/// Returns how an operand names an address: by the name of a cell there or before it, or as a number.
fn named(flow: &Flow, address: u16) -> Operand
    requires { address < 0o10000 }
    ensures { (here : ℕ) → field 0o7777 here result ≡ Some address }
{
    let mark = flow.mark(address);
    if mark.word.is_none() || mark.label.is_none() {
        return Operand::Number(u32::from(address));
    }
    if mark.role != Role::Second || address == 0 {
        return Operand::Named(flow.name_of(address), 0);
    }
    let owner = address - 1;
    if flow.is_exit(owner) {
        let kind = Kind::Subroutine;
        return Operand::Named(Name { kind, address }, 0);
    }
    Operand::Named(flow.name_of(owner), 1)
}

/// Returns the operand of a relative jump, or `None` if no target has this d.
#[tactic(auto, using(crate::proofs::Distances::distances))]
fn target_operand(flow: &Flow, here: u16, d: u8) -> Option<Operand>
    requires here { here < 0o10000 }
    requires d { d ≤ 0o77 }
    ensures { IfSome result (λ operand. then_distance here (field 0o7777 here operand) ≡ Some d) }
{
    match d {
        0 => Some(Operand::Here),
        ALL_ONES => None,
        _ => Some(named(flow, relative(here, d))),
    }
}

/// Returns the operand of an instruction that has d alone, or `None` if no operand means it.
fn plain_operand(code: u8, d: u8) -> Option<Operand>
    requires { d ≤ 0o77 }
    ensures { IfSome result (λ operand. (here : ℕ) → field 0o77 here operand ≡ Some d) }
{
    if code != SHN || d <= 0o37 {
        return Some(Operand::Number(u32::from(d)));
    }
    if d == ALL_ONES {
        return None;
    }
    Some(Operand::Minus(u32::from(ALL_ONES - d)))
}

/// Returns the first operand of an instruction of two words that has an address: its second word.
fn address_operand(flow: &Flow, here: u16, word: u16, second: u16) -> Operand
    requires here { here < 0o10000 }
    requires second { second < 0o10000 }
    ensures { field 0o7777 here result ≡ Some second }
{
    if second == here {
        Operand::Here
    } else if names_cell(here, word, second) {
        named(flow, second)
    } else {
        Operand::Number(u32::from(second))
    }
}

/// Returns the instruction of one word at an address, or `None` if no statement is assembled to it.
fn single(flow: &Flow, here: u16, word: u16) -> Option<Operation>
    requires here { here < 0o10000 }
    requires word { word < 0o10000 }
    ensures words { IfSome result (λ operation. words_of here operation ≡ Some (word ∷ [])) }
    ensures place { IfSome result (λ operation. labelled_address here operation ≡ here) }
{
    let (code, d) = parts(word);
    if is_unnamed(code) {
        return None;
    }
    let first = match form_of(code) {
        Form::Alone if d == 0 => None,
        Form::Alone => Some(Operand::Number(u32::from(d))),
        Form::D => Some(plain_operand(code, d)?),
        Form::Target => Some(target_operand(flow, here, d)?),
        _ => return None,
    };
    Some(Operation::Instruction(code, first, None))
}

/// Returns the instruction of two words at an address, or `None` if no statement is assembled to them.
fn double(flow: &Flow, here: u16, word: u16, second: u16) -> Option<Operation>
    requires here { here < 0o10000 }
    requires word { word < 0o10000 }
    requires second { second < 0o10000 }
    ensures words { IfSome result (λ operation. words_of here operation ≡ Some (word ∷ second ∷ [])) }
    ensures place { IfSome result (λ operation. labelled_address here operation ≡ here) }
{
    let (code, d) = parts(word);
    match form_of(code) {
        Form::Constant => {
            let number = u32::from(d) * 0o10000 + u32::from(second);
            Some(Operation::Instruction(code, Some(Operand::Number(number)), None))
        }
        Form::Indexed if d == 0 => {
            let first = address_operand(flow, here, word, second);
            Some(Operation::Instruction(code, Some(first), None))
        }
        Form::Indexed | Form::Both => {
            let first = address_operand(flow, here, word, second);
            Some(Operation::Instruction(code, Some(first), Some(d)))
        }
        _ => None,
    }
}

/// Returns the word after the first one of a row, if it is in the next cell.
fn second_word(row: &[Cell]) -> Option<u16>
    requires some { 0 < length row.now }
    requires cells { All IsCell row.now }
    ensures { IfSome result (λ word. IsPair row.now word) }
{
    let next = row.get(1)?;
    if usize::from(next.address) == usize::from(row[0].address) + 1 {
        Some(next.word)
    } else {
        None
    }
}

/// Returns whether a cell of a row may be in the statement of data that begins with the first one: it has the address that
/// follows, is of no instruction, and needs no label, unless it is the first one.
fn is_data(flow: &Flow, row: &[Cell], index: usize) -> bool
    requires index { index < length row.now }
    ensures { result ≡ true → address_at row.now index ≡ first_address row.now + index }
{
    let Cell { address, .. } = row[index];
    let first = row[0].address;
    address >= first
        && usize::from(address - first) == index
        && flow.mark(address).role == Role::Data
        && (index == 0 || !flow.is_head(address))
}

/// Returns how many of the first cells of a row are words of zero of a statement of data.
#[tactic(auto, using(pp_notation::proofs::RowCells::rows))]
fn zeros_len(flow: &Flow, row: &[Cell]) -> usize
    requires { All IsCell row.now }
    ensures within { result ≤ length row.now }
    ensures row { IsRow (first_address row.now) (take result row.now) }
    ensures zeros { are_zeros (take result row.now) ≡ true }
{
    let mut count = 0;
    while count < row.len() && row[count].word == 0 && is_data(flow, row, count) {
        count += 1;
    }
    count
}

/// Returns how many of the first cells of a row a statement of data has: words of zero, or up to four words.
#[tactic(auto, using(pp_notation::proofs::RowCells::rows))]
fn data_len(flow: &Flow, row: &[Cell]) -> usize
    requires some { 0 < length row.now }
    requires cells { All IsCell row.now }
    ensures some { 0 < result }
    ensures within { result ≤ length row.now }
    ensures row { IsRow (first_address row.now) (take result row.now) }
    ensures zeros { 4 < result → are_zeros (take result row.now) ≡ true }
{
    let mut size = 1;
    if flow.mark(row[0].address).role != Role::Data {
        return size;
    }
    let zeros = zeros_len(flow, row);
    if zeros >= ZEROS {
        return zeros;
    }
    while size < WORDS_OF_LINE
        && size < row.len()
        && is_data(flow, row, size)
        && zeros_len(flow, &row[size..]) < ZEROS
    {
        size += 1;
    }
    size
}

/// Returns whether all words of some cells are zero.
fn are_zeros(row: &[Cell]) -> bool
    ensures { result ≡ are_zeros row.now }
{
    row.iter().all(|cell| cell.word == 0)
}

/// Returns the statement of data of a row: words of zero, or up to four words.
#[tactic(auto, using(pp_notation::proofs::RowCells::zeros))]
fn data(row: &[Cell]) -> Operation
    requires { 4 < length row.now → are_zeros row.now ≡ true }
    ensures words { (here : ℕ) → words_of here result ≡ Some (words_in row.now) }
    ensures place { (here : ℕ) → labelled_address here result ≡ here }
{
    if row.len() >= ZEROS && are_zeros(row) {
        return Operation::Zeros(row.len());
    }
    let mut words = ArrayVec::new();
    for cell in row {
        words.push(cell.word);
    }
    Operation::Words(words)
}

/// Adds a statement.
#[tactic(auto, using(crate::proofs::Continuing::statements))]
fn push(
    statements: &mut Vec<Statement>,
    label: Option<Name>,
    operation: Operation,
) -> Result<(), AllocError>
    ensures items { OnOk result
        (statements.new.items ≡ statements.old.items ++ record { label = label; operation = operation } ∷ []) }
    ensures continues { OnOk result ((row : List ProgramCell) → HasWords label operation row →
        Continues statements.old.items statements.new.items row) }
{
    statements.push(Statement { label, operation })?;
    Ok(())
}

/// Adds an instruction of two words with its label. The exit of a subroutine is SUBR, if it returns to itself; otherwise a
/// statement after it names the entry.
#[tactic(auto, using(crate::proofs::Continuing::statements))]
fn put_double(
    statements: &mut Vec<Statement>,
    flow: &Flow,
    row: &[Cell],
    operation: Operation,
) -> Result<(), AllocError>
    requires row { length row.now ≡ 2 }
    requires cells { IsRow (first_address row.now) row.now }
    requires words { words_of (first_address row.now) operation ≡ Some (words_in row.now) }
    requires place { labelled_address (first_address row.now) operation ≡ first_address row.now }
    ensures { OnOk result (Continues statements.old.items statements.new.items row.now) }
{
    let address = row[0].address;
    if !flow.is_exit(address) {
        push(statements, label(flow, address), operation)?;
        return Ok(());
    }
    let entry = Name {
        kind: Kind::Subroutine,
        address: address + 1,
    };
    if row[0].word == 0o100 && row[1].word == address {
        push(statements, Some(entry), Operation::Subroutine)?;
        return Ok(());
    }
    push(statements, Some(flow.name_of(address)), operation)?;
    push(statements, Some(entry), Operation::Equal)?;
    Ok(())
}

/// Returns the label of the statement that begins at an address, if it needs one.
fn label(flow: &Flow, address: u16) -> Option<Name>
    ensures { is_named result address ≡ true }
{
    if flow.is_head(address) {
        Some(flow.name_of(address))
    } else {
        None
    }
}

/// Adds the statements of the instruction that begins a row, if it is one, and returns how many words it has, otherwise 0.
#[tactic(auto, using(crate::proofs::Continuing::statements, pp_notation::proofs::RowCells::rows))]
fn put_instruction(
    statements: &mut Vec<Statement>,
    flow: &Flow,
    row: &[Cell],
) -> Result<usize, AllocError>
    requires some { 0 < length row.now }
    requires cells { All IsCell row.now }
    ensures none { IfOk result (λ count. count ≡ 0 → statements.new.items ≡ statements.old.items) }
    ensures adds { IfOk result (λ count. 0 < count → Adds statements.old.items statements.new.items row.now count) }
{
    let Cell { address, word, .. } = row[0];
    match flow.mark(address).role {
        Role::Single => {
            let Some(operation) = single(flow, address, word) else {
                return Ok(0);
            };
            push(statements, label(flow, address), operation)?;
            Ok(1)
        }
        Role::First => {
            let Some(second) = second_word(row) else {
                return Ok(0);
            };
            let Some(operation) = double(flow, address, word, second) else {
                return Ok(0);
            };
            put_double(statements, flow, &row[..2], operation)?;
            Ok(2)
        }
        Role::Data | Role::Second => Ok(0),
    }
}

/// Adds the statements of the first cells of a row, and returns how many cells these are.
#[tactic(auto, using(crate::proofs::Continuing::statements))]
fn put_row(statements: &mut Vec<Statement>, flow: &Flow, row: &[Cell]) -> Result<usize, AllocError>
    requires some { 0 < length row.now }
    requires cells { All IsCell row.now }
    ensures some { IfOk result (λ count. 0 < count) }
    ensures adds { IfOk result (λ count. Adds statements.old.items statements.new.items row.now count) }
{
    let count = put_instruction(statements, flow, row)?;
    if count > 0 {
        return Ok(count);
    }
    let count = data_len(flow, row);
    push(statements, label(flow, row[0].address), data(&row[..count]))?;
    Ok(count)
}

/// Adds ORG, unless the next word is for this address already.
#[tactic(auto, using(crate::proofs::Continuing::origins))]
fn put_origin(
    statements: &mut Vec<Statement>,
    after: Option<usize>,
    address: u16,
) -> Result<(), AllocError>
    ensures { OnOk result ((cells : List ProgramCell) → HasAssembled statements.old.items after cells →
        HasAssembled statements.new.items (Some address) cells) }
{
    if after == Some(usize::from(address)) {
        return Ok(());
    }
    push(statements, None, Operation::Origin(address))
}

/// Returns a source that assembles to cells, as statements. What a processor reaches from the entries on is code, and the
/// rest is data. Each name says the address of its cell in octal.
///
/// # Errors
/// `AllocError` if memory runs out.
#[tactic(auto, using(crate::proofs::Continuing::origins, crate::proofs::Continuing::rows))]
pub fn disassemble(
    alloc: Global,
    cells: &[Cell],
    entries: &[u16],
) -> Result<Vec<Statement>, AllocError>
    requires { All IsCell cells.now }
    ensures { IfOk result (λ statements. cells_of (assembled statements.items) ≡ Some (addressed cells.now)) }
{
    let flow = Flow::new(alloc, cells, entries)?;
    let mut statements = Vec::new(alloc);
    push(&mut statements, None, Operation::Base)?;
    let mut done = 0;
    let mut after = None;
    while done < cells.len() {
        let row = &cells[done..];
        let address = row[0].address;
        put_origin(&mut statements, after, address)?;
        let count = put_row(&mut statements, &flow, row)?;
        after = Some(usize::from(address) + count);
        done += count;
    }
    push(
        &mut statements,
        None,
        Operation::End(first_entry(&flow, entries)),
    )?;
    Ok(statements)
}

/// Returns the operand of END: the first entry that is the address of a cell.
fn first_entry(flow: &Flow, entries: &[u16]) -> Option<Operand> {
    for entry in entries {
        if *entry < 0o10000 && flow.mark(*entry).word.is_some() {
            return Some(named(flow, *entry));
        }
    }
    None
}
