//! Operands as numbers of so many bits.
ghost use Rattle.std.specs.Prelude.{◌≡◌, ◌==◌, ◌&&◌, ◌-◌, ◌^◌, IfOk, IfSome, IsTrue, Some, length, true};
ghost use Rattle.pp_meaning.specs.declared.expressions.Item.TheVariants.{Sum};
ghost use Rattle.pp_meaning.specs.Fields.{are_ones, field, fills_up, fits, has_count, is_minus, is_minus_zero, is_zero};
ghost use Rattle.pp_meaning.specs.Fields.{is_zero_digit, item_field, operand_field, text_field, then_field};

use crate::expressions::{
    Atom, Expression, Item, Operand, Place, Radix, Sign, Symbol, Term, counter, name_value,
    value_of_sum,
};
use crate::numbers::power_of_two;
use crate::texts::{Cut, Kind, Text, has_end, number_of_filled};

/// How many bits a code has.
const CODE_BITS: u32 = 6;

/// Returns the greatest number of so many bits.
pub fn greatest(bits: u32) -> Option<u64>
    ensures { IfSome result (λ most. most ≡ 2 ^ bits - 1) }
{
    power_of_two(bits)?.checked_sub(1)
}

/// Returns a number as one up to a greatest one, which is all ones: minus is the complement.
pub fn field_of(most: u64, is_ones: bool, number: i64) -> Option<u64>
    ensures { IfSome result (λ d. field most is_ones number ≡ Some d) }
{
    let size = number.unsigned_abs();
    if size > most {
        return None;
    }
    if number < 0 || is_ones {
        Some(most - size)
    } else {
        Some(size)
    }
}

/// Returns whether digits are 0 alone.
fn is_digit_zero(digits: &[u8]) -> bool
    ensures { result ≡ is_zero_digit digits.now }
{
    match digits {
        [digit] => *digit == b'0',
        _ => false,
    }
}

/// Returns whether an atom is 0 without a letter.
fn is_plain_zero(atom: &Atom) -> bool
    ensures { result ≡ is_zero atom.now }
{
    match atom {
        Atom::Number(digits, Radix::Plain) => is_digit_zero(digits),
        _ => false,
    }
}

/// Returns whether terms are -0.
fn are_minus_zero(terms: &[Term]) -> bool
    ensures { result ≡ are_ones terms.now }
{
    match terms {
        [term] => matches!(term.sign, Sign::Minus)
            && is_plain_zero(&term.atom)
            && term.factors.is_empty(),
        _ => false,
    }
}

/// Returns whether an operand is -0.
pub fn is_minus_zero(operand: &Operand) -> bool
    ensures { result ≡ is_minus_zero operand.now }
{
    match operand {
        Operand::Single(Item::Sum(x)) => are_minus_zero(&x.terms),
        _ => false,
    }
}

/// Returns an expression as a number of so many bits.
fn field_of_sum(bits: u32, symbols: &[Symbol], place: Place, x: &Expression) -> Option<u64>
    ensures { IfSome result (λ d. item_field bits symbols.now place (Sum x.now) ≡ Some d) }
{
    let number = value_of_sum(symbols, place, x)?;
    field_of(greatest(bits)?, are_minus_zero(&x.terms), number)
}

/// Returns whether a text of a kind is filled up to a field.
fn is_filled_up(kind: Kind) -> bool
    ensures { result ≡ fills_up kind }
{
    matches!(kind, Kind::H | Kind::A | Kind::L)
}

fn is_counted(cut: &Cut) -> bool
    ensures { result ≡ has_count cut.now }
{
    match cut {
        Cut::Counted(_) => true,
        Cut::Marked(_) => false,
    }
}

/// Returns whether a text fits in so many bits.
fn fits_in(bits: u32, text: &Text) -> bool
    ensures { IsTrue result → fits bits text.now ≡ true }
{
    is_filled_up(text.kind)
        && is_counted(&text.cut)
        && has_end(&text.cut, &text.codes)
        && bits % CODE_BITS == 0
        && text.codes.len() <= (bits / CODE_BITS) as usize
}

/// Returns a text as a number of so many bits.
fn field_of_text(bits: u32, text: &Text) -> Option<u64>
    ensures { IfSome result (λ d. text_field bits text.now ≡ Some d) }
{
    if !fits_in(bits, text) {
        return None;
    }
    number_of_filled(text.kind, (bits / CODE_BITS) as usize, &text.codes)
}

/// Returns an expression or a text as a number of so many bits.
pub fn field_of_item(bits: u32, symbols: &[Symbol], place: Place, item: &Item) -> Option<u64>
    ensures { IfSome result (λ d. item_field bits symbols.now place item.now ≡ Some d) }
{
    match item {
        Item::Sum(x) => field_of_sum(bits, symbols, place, x),
        Item::Characters(text) => field_of_text(bits, text),
        Item::Nothing => None,
    }
}

/// Returns an operand as a number of so many bits.
fn wide_field_in(bits: u32, symbols: &[Symbol], place: Place, operand: &Operand) -> Option<u64>
    ensures { IfSome result (λ d. operand_field bits symbols.now place operand.now ≡ Some d) }
{
    match operand {
        Operand::Single(item) => field_of_item(bits, symbols, place, item),
        Operand::Literal(address, _) => field_of(greatest(bits)?, false, counter(*address)?),
        Operand::External(_, index) => {
            let number = name_value(symbols, place, *index)?;
            field_of(greatest(bits)?, false, number)
        }
        Operand::Bits(..) | Operand::LiteralBits(..) | Operand::ExternalBits(..) => None,
        Operand::Word(_) => None,
    }
}

/// Returns an operand as a number of so many bits, at most 32 (decimal).
pub fn field_in(bits: u32, symbols: &[Symbol], place: Place, operand: &Operand) -> Option<u32>
    ensures { IfSome result (λ d. operand_field bits symbols.now place operand.now ≡ Some d) }
{
    u32::try_from(wide_field_in(bits, symbols, place, operand)?).ok()
}
