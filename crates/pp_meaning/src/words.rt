//! The words of a statement.
ghost use Rattle.std.specs.Prelude.{◌≡◌, ℕ, List, ◌∷◌, ◌++◌, ◌-◌, IfOk, IfSome, Some, [], fold, length, slice_get};
ghost use Rattle.pp_meaning.specs.Fields.{item_field};
ghost use Rattle.pp_meaning.specs.Meaning.{constant, constants, data_words, datum, is_number, is_something, with_constant};
ghost use Rattle.pp_meaning.specs.Meaning.{with_datum, words_in, words_of, zeros};

use crate::directives::address_above;
use crate::expressions::{Atom, Item, Operand, Place, Symbol, Term};
use crate::fields::{field_in, field_of_item};
use crate::instruction::{Words, instruction, short_instruction};
use crate::statements::{Operation, WORD};
use crate::texts::{words_of_data, words_of_display};
use std::alloc::{AllocError, Global};

/// Returns a word of CON.
fn word_of_constant(symbols: &[Symbol], place: Place, operand: &Operand) -> Option<u32>
    ensures { IfSome result (λ word. constant symbols.now place operand.now ≡ Some word) }
{
    match operand {
        Operand::Single(Item::Nothing) => Some(0),
        _ => field_in(WORD, symbols, place, operand),
    }
}

/// Returns whether there is something behind the last comma.
fn ends_in_something(operands: &[Operand]) -> bool
    ensures { result ≡ is_something (slice_get operands.now (length operands.now - 1)) }
{
    match operands.get(operands.len().saturating_sub(1)) {
        None | Some(Operand::Single(Item::Nothing)) => false,
        Some(_) => true,
    }
}

/// Returns the words of CON, one for each operand.
fn words_of_constants(
    alloc: Global,
    symbols: &[Symbol],
    place: Place,
    operands: &[Operand],
) -> Result<Option<Vec<u32>>, AllocError>
    ensures { IfOk result (λ made. IfSome made (λ words. fold (with_constant symbols.now place) (Some []) operands.now ≡ Some
        words.items)) }
{
    let mut words = Vec::new(alloc);
    for operand in operands {
        match word_of_constant(symbols, place, operand) {
            Some(word) => words.push(word)?,
            None => return Ok(None),
        }
    }
    Ok(Some(words))
}

/// Returns the words of CON, which ends in an operand.
fn some_constants(
    alloc: Global,
    symbols: &[Symbol],
    place: Place,
    operands: &[Operand],
) -> Result<Option<Vec<u32>>, AllocError>
    ensures { IfOk result (λ made. IfSome made (λ words. constants symbols.now place operands.now ≡ Some words.items)) }
{
    if !ends_in_something(operands) {
        return Ok(None);
    }
    words_of_constants(alloc, symbols, place, operands)
}

/// Returns whether terms are a number alone.
fn are_number(terms: &[Term]) -> bool
    ensures { result ≡ is_number terms.now }
{
    match terms {
        [term] => matches!(term.atom, Atom::Number(..)) && term.factors.is_empty(),
        _ => false,
    }
}

/// Returns a list of one word.
fn single(alloc: Global, word: u32) -> Result<Vec<u32>, AllocError>
    ensures { IfOk result (λ words. words.items ≡ word ∷ []) }
{
    let mut words = Vec::new(alloc);
    words.push(word)?;
    Ok(words)
}

/// Returns a number of DATA.
fn word_of_number(symbols: &[Symbol], place: Place, item: &Item) -> Option<u32>
    ensures { IfSome result (λ word. item_field 12 symbols.now place item.now ≡ Some word) }
{
    u32::try_from(field_of_item(WORD, symbols, place, item)?).ok()
}

/// Returns the words of a number or a text of DATA.
pub fn words_of_datum(
    alloc: Global,
    symbols: &[Symbol],
    place: Place,
    item: &Item,
) -> Result<Option<Vec<u32>>, AllocError>
    ensures { IfOk result (λ made. IfSome made (λ words. datum symbols.now place item.now ≡ Some words.items)) }
{
    match item {
        Item::Characters(text) => words_of_data(alloc, text),
        Item::Nothing => Ok(None),
        Item::Sum(x) => {
            if !are_number(&x.terms) {
                return Ok(None);
            }
            match word_of_number(symbols, place, item) {
                Some(word) => Ok(Some(single(alloc, word)?)),
                None => Ok(None),
            }
        }
    }
}

/// Returns the words of an operand of DATA.
fn words_of_operand(
    alloc: Global,
    symbols: &[Symbol],
    place: Place,
    operand: &Operand,
) -> Result<Option<Vec<u32>>, AllocError>
    ensures { IfOk result (λ made. IfSome made (λ more. (words : List ℕ) → with_datum symbols.now place (Some words) operand.now
        ≡ Some (words ++ more.items))) }
{
    match operand {
        Operand::Single(item) => words_of_datum(alloc, symbols, place, item),
        _ => Ok(None),
    }
}

/// Returns the words of the operands of DATA.
fn words_of_items(
    alloc: Global,
    symbols: &[Symbol],
    place: Place,
    operands: &[Operand],
) -> Result<Option<Vec<u32>>, AllocError>
    ensures { IfOk result (λ made. IfSome made (λ words. fold (with_datum symbols.now place) (Some []) operands.now ≡ Some
        words.items)) }
{
    let mut words = Vec::new(alloc);
    for operand in operands {
        match words_of_operand(alloc, symbols, place, operand)? {
            Some(more) => words.extend_from_slice(&more)?,
            None => return Ok(None),
        }
    }
    Ok(Some(words))
}

/// Returns the words of DATA, which has an operand.
pub fn some_data(
    alloc: Global,
    symbols: &[Symbol],
    place: Place,
    operands: &[Operand],
) -> Result<Option<Vec<u32>>, AllocError>
    ensures { IfOk result (λ made. IfSome made (λ words. data_words symbols.now place operands.now ≡ Some words.items)) }
{
    if operands.is_empty() {
        return Ok(None);
    }
    words_of_items(alloc, symbols, place, operands)
}

/// Returns words of zero.
fn words_of_zero(alloc: Global, count: usize) -> Result<Vec<u32>, AllocError>
    ensures { IfOk result (λ words. zeros (Some count) ≡ Some words.items) }
{
    vec![in alloc; 0u32; count]
}

/// Returns the words of an instruction as a list.
fn listed(alloc: Global, words: Words) -> Result<Vec<u32>, AllocError>
    ensures { IfOk result (λ list. list.items ≡ words_in words) }
{
    let mut list = Vec::new(alloc);
    list.push(words.first)?;
    if let Some(second) = words.second {
        list.push(second)?;
    }
    Ok(list)
}

/// Returns the words of a statement.
pub fn words_at(
    alloc: Global,
    symbols: &[Symbol],
    place: Place,
    operation: Operation,
    operands: &[Operand],
) -> Result<Option<Vec<u32>>, AllocError>
    ensures { IfOk result (λ made. IfSome made (λ words. words_of symbols.now place operation operands.now ≡ Some words.items)) }
{
    match (operation, operands) {
        (Operation::Blank, []) => Ok(Some(Vec::new(alloc))),
        (Operation::Instruction(code), _) => match instruction(symbols, place, code, operands) {
            Some(words) => Ok(Some(listed(alloc, words)?)),
            None => Ok(None),
        },
        (Operation::Constants, _) => some_constants(alloc, symbols, place, operands),
        (Operation::Data, _) => some_data(alloc, symbols, place, operands),
        (Operation::Zeros, [x]) => match address_above(symbols, place, x) {
            Some(count) => Ok(Some(words_of_zero(alloc, count)?)),
            None => Ok(None),
        },
        (Operation::Display, [Operand::Single(Item::Characters(text))]) => words_of_display(
            alloc, text,
        ),
        (Operation::Shortest(is_sum), [x]) => match short_instruction(symbols, place, is_sum, x) {
            Some(words) => Ok(Some(listed(alloc, words)?)),
            None => Ok(None),
        },
        _ => Ok(None),
    }
}
