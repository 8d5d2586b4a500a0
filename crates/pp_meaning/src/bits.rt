//! The fields of VFD: numbers of so many bits.
ghost use Rattle.std.specs.Prelude.{◌≡◌, ◌++◌, ◌*◌, ◌+◌, ◌/◌, ◌≤◌, IfOk, IfSome, Some, drop, fold, length, take};
ghost use Rattle.pp_meaning.specs.Bits.{bits_left, bits_of, field_number, field_size, left_and, number_from_bits, size_value};
ghost use Rattle.pp_meaning.specs.Bits.{whole, width_value, with_bits, words_from, words_of_bits, zeros_before};
ghost use Rattle.pp_meaning.specs.Meaning.{bits_used};

use crate::expressions::{
    Base, Expression, Item, Operand, Place, Sign, Symbol, Width, counter, decimal_sum_above,
    name_value,
};
use crate::fields::{field_of, field_of_item, greatest};
use crate::numbers::{power_of_two, sum_of, value_of};
use std::alloc::{AllocError, Global};

/// How many bits a word has.
const WORD: usize = 12;

/// How many bits a field has at most.
const MOST: i64 = 60;

/// Returns how many bits a word has left after so many; those of a new one if it is full.
pub fn left_after(count: usize) -> usize
    ensures { result ≡ bits_left count }
{
    WORD - count % WORD
}

/// Returns what `*P` and more is in a word that has so many bits left.
fn value_beyond(symbols: &[Symbol], place: Place, left: usize, x: &Expression) -> Option<i64>
    ensures { IfSome result (λ number. left_and symbols.now place left x.now ≡ Some number) }
{
    if !x.has_sign {
        return None;
    }
    let more = decimal_sum_above(symbols, place, x)?;
    sum_of(counter(left)?, more, Sign::Plus)
}

/// Returns what a size says that is behind so many bits.
fn value_of_width(symbols: &[Symbol], place: Place, count: usize, width: &Width) -> Option<i64>
    ensures { IfSome result (λ number. width_value symbols.now place count width.now ≡ Some number) }
{
    match width {
        Width::Digits(digits, radix) => value_of(digits, *radix, Some(Base::Decimal)),
        Width::Named(index) => {
            if place.defined > symbols.len() {
                return None;
            }
            name_value(&symbols[..place.defined], place, *index)
        }
        Width::Rest => counter(left_after(count)),
        Width::Count(x) => decimal_sum_above(symbols, place, x),
        Width::Beyond(x) => value_beyond(symbols, place, left_after(count), x),
    }
}

/// Returns how many bits a field has, from 1 to 60 (decimal).
fn size_of(number: i64) -> Option<u32>
    ensures { IfSome result (λ size. field_size (Some number) ≡ Some size) }
{
    if number < 1 || number > MOST {
        return None;
    }
    Some(number as u32)
}

/// Returns what the size of a field says that is behind so many bits.
fn value_of_size(symbols: &[Symbol], place: Place, count: usize, operand: &Operand) -> Option<i64>
    ensures { IfSome result (λ number. size_value symbols.now place count operand.now ≡ Some number) }
{
    match operand {
        Operand::Bits(width, _) => value_of_width(symbols, place, count, width),
        Operand::LiteralBits(width, ..) => value_of_width(symbols, place, count, width),
        Operand::ExternalBits(width, ..) => value_of_width(symbols, place, count, width),
        _ => None,
    }
}

/// Returns how many bits the field has that is behind so many.
fn size_behind(symbols: &[Symbol], place: Place, count: usize, operand: &Operand) -> Option<u32>
    ensures { IfSome result (λ size. field_size (size_value symbols.now place count operand.now) ≡ Some size) }
{
    size_of(value_of_size(symbols, place, count, operand)?)
}

/// Returns the number of a field.
fn number_of(size: u32, symbols: &[Symbol], place: Place, operand: &Operand) -> Option<u64>
    ensures { IfSome result (λ number. field_number size symbols.now place operand.now ≡ Some number) }
{
    match operand {
        Operand::Bits(_, Item::Nothing) => Some(0),
        Operand::Bits(_, item) => field_of_item(size, symbols, place, item),
        Operand::LiteralBits(_, address, _) => field_of(greatest(size)?, false, counter(*address)?),
        Operand::ExternalBits(_, _, index) => {
            let number = name_value(symbols, place, *index)?;
            field_of(greatest(size)?, false, number)
        }
        _ => None,
    }
}

/// Returns so many bits of a number, the upper ones first.
#[tactic(auto, using(crate::proofs::BitSteps::bits_push, crate::proofs::BitSteps::no_bits))]
fn bits_in(alloc: Global, size: u32, number: u64) -> Result<Option<Vec<u8>>, AllocError>
    ensures { IfOk result (λ made. IfSome made (λ bits. bits.items ≡ bits_of size number)) }
{
    let mut bits = Vec::new(alloc);
    for index in 0..size {
        let Some(power) = power_of_two(size - index - 1) else {
            return Ok(None);
        };
        let Some(upper) = number.checked_div(power) else {
            return Ok(None);
        };
        bits.push((upper % 2) as u8)?;
    }
    Ok(Some(bits))
}

/// Adds the bits of a field.
fn add_field(
    alloc: Global,
    bits: &mut Vec<u8>,
    symbols: &[Symbol],
    place: Place,
    operand: &Operand,
) -> Result<Option<()>, AllocError>
    ensures { IfOk result (λ made. IfSome made (λ done. with_bits symbols.now place (Some bits.old.items) operand.now ≡ Some
        bits.new.items)) }
{
    let Some(size) = size_behind(symbols, place, bits.len(), operand) else {
        return Ok(None);
    };
    let Some(number) = number_of(size, symbols, place, operand) else {
        return Ok(None);
    };
    let Some(field) = bits_in(alloc, size, number)? else {
        return Ok(None);
    };
    bits.extend_from_slice(&field)?;
    Ok(Some(()))
}

/// Returns the bits of fields, behind those that are there before.
pub fn bits_of_fields(
    alloc: Global,
    symbols: &[Symbol],
    place: Place,
    before: &[u8],
    operands: &[Operand],
) -> Result<Option<Vec<u8>>, AllocError>
    ensures { IfOk result (λ made. IfSome made (λ bits. fold (with_bits symbols.now place) (Some before.now) operands.now ≡ Some
        bits.items)) }
{
    let mut bits = Vec::from_slice(alloc, before)?;
    for operand in operands {
        if add_field(alloc, &mut bits, symbols, place, operand)?.is_none() {
            return Ok(None);
        }
    }
    Ok(Some(bits))
}

/// Returns bits as a number.
fn number_of_bits(bits: &[u8]) -> Option<u32>
    ensures { IfSome result (λ number. number ≡ number_from_bits 0 bits.now) }
{
    let mut number: u32 = 0;
    for bit in bits {
        number = number.checked_mul(2)?.checked_add(u32::from(*bit))?;
    }
    Some(number)
}

/// Returns bits with zeros up to the end of a word.
fn whole_bits(alloc: Global, bits: &[u8]) -> Result<Vec<u8>, AllocError>
    ensures { IfOk result (λ all. all.items ≡ whole bits.now) }
{
    let mut all = Vec::from_slice(alloc, bits)?;
    let more = (WORD - bits.len() % WORD) % WORD;
    all.extend_from_slice(&vec![in alloc; 0u8; more]?)?;
    Ok(all)
}

/// Returns the first twelve bits as a word.
fn first_word(bits: &[u8]) -> Option<u32>
    requires { 12 ≤ length bits.now }
    ensures { IfSome result (λ word. word ≡ number_from_bits 0 (take 12 bits.now)) }
{
    number_of_bits(&bits[..WORD])
}

/// Returns what is behind the first twelve bits.
fn after_word(bits: &[u8]) -> &[u8]
    requires { 12 ≤ length bits.now }
    ensures { result.now ≡ drop 12 bits.now }
{
    &bits[WORD..]
}

/// Returns the words of bits that are whole words.
#[tactic(auto, using(crate::proofs::BitSteps::no_words))]
fn words_in(alloc: Global, bits: &[u8]) -> Result<Option<Vec<u32>>, AllocError>
    ensures { IfOk result (λ made. IfSome made (λ words. words.items ≡ words_from (length bits.now / 12) bits.now)) }
{
    let mut words = Vec::new(alloc);
    let mut rest = bits;
    for _word in 0..bits.len() / WORD {
        if rest.len() < WORD {
            return Ok(None);
        }
        let Some(word) = first_word(rest) else {
            return Ok(None);
        };
        words.push(word)?;
        rest = after_word(rest);
    }
    Ok(Some(words))
}

/// Returns the words of bits; the last one ends in zeros.
pub fn words_with_bits(alloc: Global, bits: &[u8]) -> Result<Option<Vec<u32>>, AllocError>
    ensures { IfOk result (λ made. IfSome made (λ words. words.items ≡ words_of_bits bits.now)) }
{
    let all = whole_bits(alloc, bits)?;
    words_in(alloc, &all)
}

/// Returns the bits of a word that are used.
pub fn bits_used_of(alloc: Global, word: u32, count: usize) -> Result<Option<Vec<u8>>, AllocError>
    ensures { IfOk result (λ made. IfSome made (λ bits. bits.items ≡ bits_used count (Some word))) }
{
    let Some(mut bits) = bits_in(alloc, WORD as u32, u64::from(word))? else {
        return Ok(None);
    };
    bits.truncate(count);
    Ok(Some(bits))
}

/// Returns how many zeros POS puts into a word that has so many bits left.
pub fn zeros_up_to(left: usize, number: i64) -> Option<usize>
    ensures { IfSome result (λ count. zeros_before left (Some number) ≡ Some count) }
{
    let wanted = usize::try_from(number).ok()?;
    if wanted == 0 && left == WORD {
        return Some(0);
    }
    left.checked_sub(wanted)
}
