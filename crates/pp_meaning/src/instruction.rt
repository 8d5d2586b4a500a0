//! The words of instructions.
ghost use Rattle.std.specs.Prelude.{◌≡◌, ◌<◌, IfSome, Some, ◌+◌, ◌*◌};
ghost use Rattle.pp_notation.specs.Instructions.{form};
ghost use Rattle.pp_notation.specs.InstructionWords.{constant_words, distance, one_word, then_distance};
ghost use Rattle.pp_meaning.specs.Expressions.{address_around, value};
ghost use Rattle.pp_meaning.specs.Fields.{is_minus_zero, operand_field};
ghost use Rattle.pp_meaning.specs.Meaning.{distance_at, form_words, minus_code, shortest, sized_words, small_code, two_words};
ghost use Rattle.pp_meaning.specs.Meaning.{wide_code, wide_words, words_in};

use crate::expressions::{Operand, Place, Symbol, is_known_above, value_of_operand};
use crate::fields::{field_in, is_minus_zero};
use pp_notation::{Form, form_of};

/// How many bits d, m and both have.
const D: u32 = 6;

const M: u32 = 12;

const DM: u32 = 18;

/// The greatest number that is d of LDK and ADK.
const MOST: i64 = 0o77;

/// Returns an address, around 0000 and 7777.
fn address_of(number: i64) -> Option<usize>
    ensures at_most { IfSome result (λ address. address < 0o10000) }
    ensures found { IfSome result (λ address. address_around (Some number) ≡ Some address) }
{
    let size = usize::try_from(number.unsigned_abs()).ok()?;
    if number < 0 {
        if size < 0o10000 {
            Some(0o10000 - size)
        } else {
            None
        }
    } else if size < 0o20000 {
        Some(size % 0o10000)
    } else {
        None
    }
}

/// Returns d of a relative jump.
fn distance_of(here: usize, target: usize) -> Option<u32>
    requires here { here < 0o10000 }
    requires target { target < 0o10000 }
    ensures { IfSome result (λ d. distance here target ≡ Some d) }
{
    let on = (target + 0o10000 - here) % 0o10000;
    let back = (here + 0o10000 - target) % 0o10000;
    if on <= 0o37 {
        Some(on as u32)
    } else if back <= 0o37 {
        Some(0o77 - back as u32)
    } else {
        None
    }
}

/// Returns d of a relative jump to an operand.
fn distance_to(symbols: &[Symbol], place: Place, operand: &Operand) -> Option<u32>
    ensures { IfSome result (λ d. distance_at symbols.now place operand.now ≡ Some d) }
{
    let number = value_of_operand(symbols, place, operand)?;
    distance_of(place.location % 0o10000, address_of(number)?)
}

/// One word, or two.
#[derive(Clone, Copy)]
pub struct Words {
    pub first: u32,
    pub second: Option<u32>,
}

/// Returns a code with d.
fn first_word(code: u8, d: u32) -> Option<u32>
    ensures { IfSome result (λ word. word ≡ code * 0o100 + d) }
{
    u32::from(code).checked_mul(0o100)?.checked_add(d)
}

/// Returns an instruction of one word.
fn one(code: u8, d: Option<u32>) -> Option<Words>
    ensures { IfSome result (λ words. one_word code d ≡ Some (words_in words)) }
{
    let first = first_word(code, d?)?;
    Some(Words {
        first,
        second: None,
    })
}

/// Returns an instruction of two words.
fn two(code: u8, d: Option<u32>, m: Option<u32>) -> Option<Words>
    ensures { IfSome result (λ words. two_words code d m ≡ Some (words_in words)) }
{
    let first = first_word(code, d?)?;
    Some(Words {
        first,
        second: Some(m?),
    })
}

/// Returns an instruction with a number of 18 (decimal) bits.
fn constant(code: u8, number: Option<u32>) -> Option<Words>
    ensures { IfSome result (λ words. constant_words code number ≡ Some (words_in words)) }
{
    let number = number?;
    let first = first_word(code, number / 0o10000)?;
    Some(Words {
        first,
        second: Some(number % 0o10000),
    })
}

/// Returns the words of an instruction.
pub fn instruction(
    symbols: &[Symbol],
    place: Place,
    code: u8,
    operands: &[Operand],
) -> Option<Words>
    ensures { IfSome result (λ words. form_words symbols.now place (form code) code operands.now ≡ Some (words_in words)) }
{
    match (form_of(code), operands) {
        (Form::Alone, []) => one(code, Some(0)),
        (Form::Alone | Form::D, [x]) => one(code, field_in(D, symbols, place, x)),
        (Form::Target, [x]) => one(code, distance_to(symbols, place, x)),
        (Form::Constant, [x]) => constant(code, field_in(DM, symbols, place, x)),
        (Form::Indexed, [x]) => two(code, Some(0), field_in(M, symbols, place, x)),
        (Form::Indexed | Form::Both, [x, y]) => {
            let m = field_in(M, symbols, place, x);
            two(code, field_in(D, symbols, place, y), m)
        }
        _ => None,
    }
}

/// Returns the words of LDC or ADC.
fn wide(symbols: &[Symbol], place: Place, is_sum: bool, operand: &Operand) -> Option<Words>
    ensures { IfSome result (λ words. wide_words symbols.now place is_sum operand.now ≡ Some (words_in words)) }
{
    let code = if is_sum { 0o21 } else { 0o20 };
    constant(code, field_in(DM, symbols, place, operand))
}

/// Returns the words of LDK or ADK of a number that is known.
fn sized(
    symbols: &[Symbol],
    place: Place,
    is_sum: bool,
    operand: &Operand,
    number: i64,
) -> Option<Words>
    ensures { IfSome result (λ words. sized_words symbols.now place is_sum operand.now (Some number) ≡ Some (words_in words)) }
{
    if number >= 0 && is_minus_zero(operand) {
        return one(if is_sum { 0o17 } else { 0o15 }, Some(0));
    }
    if number > MOST || number < -MOST {
        return wide(symbols, place, is_sum, operand);
    }
    if number < 0 {
        return one(if is_sum { 0o17 } else { 0o15 }, Some((-number) as u32));
    }
    let d = field_in(D, symbols, place, operand);
    one(if is_sum { 0o16 } else { 0o14 }, d)
}

/// Returns the words of LDK or ADK.
pub fn short_instruction(
    symbols: &[Symbol],
    place: Place,
    is_sum: bool,
    operand: &Operand,
) -> Option<Words>
    ensures { IfSome result (λ words. shortest symbols.now place is_sum operand.now ≡ Some (words_in words)) }
{
    if !is_known_above(place, operand) {
        return wide(symbols, place, is_sum, operand);
    }
    let number = value_of_operand(symbols, place, operand)?;
    sized(symbols, place, is_sum, operand, number)
}
