//! Expressions: terms joined by +, - and ^, elements of a term joined by * and /, from left to right.
ghost use Rattle.std.specs.Prelude.{◌≡◌, ◌≤◌, ◌-◌, ◌*ℤ◌, ◌^◌, IfSome, Some, false, length, nat_le, pos};
ghost use Rattle.std.specs.List.{list_any};
ghost use Rattle.pp_notation.specs.Columns.{between};
ghost use Rattle.pp_notation.specs.Digits.{number_in};
ghost use Rattle.pp_source.specs.Numbers.{counter_at, written};
ghost use Rattle.pp_meaning.specs.Expressions.{difference, plus, times};
ghost use Rattle.pp_statements.specs.Reading.{Gives, is_fault};
ghost use Rattle.pp_statements.specs.Values.{behind, counter_after, element_at, ends_qualifier, factor_in, factors_at, first_term};
ghost use Rattle.pp_statements.specs.Values.{full_size, more_factors, more_terms, name_at, number_value, octal, plain_radix};
ghost use Rattle.pp_statements.specs.Values.{qualifier_size, short_radix, sign_in, signed_at, term_at, terms_at, text_element};
ghost use Rattle.pp_statements.specs.Values.{value, view, view_from};

use crate::scope::Scope;
use pp_decks::tail;
pub use pp_meaning::Base;
use pp_meaning::Sign;
use pp_source::{
    Fault, Field, Number, Outcome, Place, Stop, Wording, are_in_code, counter_of, decoded,
    name_size, number_of, product, shifted, text_at,
};

const MOST_BITS: u32 = 60;

const MOST_DIGITS: usize = 20;

/// A number, and how many addresses more are added than subtracted: 1 in an address.
#[derive(Clone, Copy)]
pub struct Value {
    pub number: i64,
    pub addresses: i64,
}

impl Value {
    pub fn new(number: i64, addresses: i64) -> Self
        ensures { result.number ≡ number }
    {
        Value { number, addresses }
    }

    /// Returns a sum, a difference or a logical difference, if it is kept.
    fn with(self, other: Value, sign: Sign) -> Option<Self>
        ensures { IfSome result (λ sum. plus sign (Some self.number) (Some other.number) ≡ Some sum.number) }
    {
        let number = sum_of(self.number, other.number, sign)?;
        let addresses = match sign {
            Sign::Plus => self.addresses.wrapping_add(other.addresses),
            Sign::Minus => self.addresses.wrapping_sub(other.addresses),
            Sign::Differ => 0,
        };
        Some(Value { number, addresses })
    }
}

/// A value, and what follows it in the text.
type Found<'a> = Outcome<(Value, &'a [u8])>;

/// An expression in an operand of a line.
#[derive(Clone, Copy)]
pub struct Expression<'a> {
    scope: &'a Scope,
    operand: Field,
    text: &'a [u8],
    /// Names count only from the lines above.
    is_from_above: bool,
}

impl<'a> Expression<'a> {
    /// Returns a reader of an operand of a line.
    #[tactic(auto, unfolding(crate::specs::Values::view))]
    pub fn new(scope: &'a Scope, line: &'a [u8], operand: Field, is_from_above: bool) -> Self
        ensures { view result ≡ view_from scope.now is_from_above (between line.now operand.first operand.end) }
    {
        Expression {
            scope,
            operand,
            text: operand.of(line),
            is_from_above,
        }
    }

    /// Returns the column, from 0 in the operand, of what has not been read.
    fn at(self, rest: &[u8]) -> usize
        ensures { result ≡ length self.entry.text.now - length rest.now }
    {
        self.text.len().saturating_sub(rest.len())
    }

    /// Returns the part of the line that has so many symbols of the rest.
    fn part(self, rest: &[u8], size: usize) -> Field {
        let at = self.at(rest);
        self.operand.part(at, at.saturating_add(size))
    }

    /// Returns a fault at the rest.
    fn fault(self, rest: &[u8], fault: Fault) -> Stop {
        fault.at(self.part(rest, 0).first)
    }

    /// Returns the value of the whole text, and keeps the first number that is decimal only because the source is a deck.
    #[tactic(auto, unfolding(crate::specs::Values::value, crate::specs::Values::view))]
    pub fn value(self, decimal: &mut Option<Field>) -> Outcome<Value>
        ensures { Gives (λ x. x.number) result (value (view self.entry)) }
    {
        if self.text.is_empty() {
            return Err(self.fault(b"", Fault::new(Wording::OperandMissing)));
        }
        let (first, behind) = self.first_term(decimal)?;
        let (total, rest) = self.terms(first, behind, decimal)?;
        if !rest.is_empty() {
            return Err(self.no_operator(rest));
        }
        if total.number.unsigned_abs() >= 1 << MOST_BITS {
            return Err(Fault::new(Wording::MoreThan60Bits).at(self.operand.first));
        }
        Ok(total)
    }

    fn no_operator(self, rest: &[u8]) -> Stop {
        Stop::of(Wording::NoOperator, self.part(rest, rest.len()))
    }

    /// Returns the first term, which may have no sign.
    fn first_term(self, decimal: &mut Option<Field>) -> Found<'a>
        ensures { Gives (λ x. (x.0.number, x.1.now)) result (first_term (view self.entry) self.entry.text.now (sign_in self.entry.text.now)) }
    {
        let none = Value::new(0, 0);
        match sign_in(self.text) {
            Some(sign) => self.signed(none, sign, self.behind(self.text)?, decimal),
            None => self.signed(none, Sign::Plus, self.text, decimal),
        }
    }

    /// Returns a sum with the terms that a text begins with.
    #[tactic(auto, using(crate::proofs::Repeating::fails), unfolding(crate::specs::Values::terms_at))]
    fn terms(self, first: Value, text: &'a [u8], decimal: &mut Option<Field>) -> Found<'a>
        ensures { Gives (λ x. (x.0.number, x.1.now)) result (terms_at (view self.entry) first.number text.now) }
    {
        let mut total = first;
        let mut rest = text;
        for _turn in 0..text.len() {
            let (sum, after) = self.more_terms(total, rest, decimal)?;
            total = sum;
            rest = after;
        }
        Ok((total, rest))
    }

    /// Returns a sum with one more term, if there is one.
    #[tactic(auto, unfolding(crate::specs::Values::more_terms))]
    fn more_terms(self, total: Value, rest: &'a [u8], decimal: &mut Option<Field>) -> Found<'a>
        ensures { Gives (λ x. (x.0.number, x.1.now)) result (more_terms (view self.entry) (total.number, rest.now)) }
    {
        if rest.is_empty() {
            return Ok((total, rest));
        }
        match sign_in(rest) {
            Some(sign) => self.signed(total, sign, self.behind(rest)?, decimal),
            None => Err(self.no_operator(rest)),
        }
    }

    /// Returns a sum with the term that a text begins with.
    #[tactic(auto, unfolding(crate::specs::Values::signed_at))]
    fn signed(
        self,
        total: Value,
        sign: Sign,
        text: &'a [u8],
        decimal: &mut Option<Field>,
    ) -> Found<'a>
        ensures { Gives (λ x. (x.0.number, x.1.now)) result (signed_at (view self.entry) total.number sign text.now) }
    {
        let (term, rest) = self.term(text, decimal)?;
        match total.with(term, sign) {
            Some(sum) => Ok((sum, rest)),
            None => Err(beyond(self.operand)),
        }
    }

    /// Returns what follows an operator.
    fn behind(self, rest: &'a [u8]) -> Outcome<&'a [u8]>
        ensures { Gives (λ x. x.now) result (behind rest.now) }
    {
        if let [_, _, ..] = rest {
            return Ok(tail(rest, 1));
        }
        let operator = rest.first().copied().unwrap_or(b' ');
        Err(self.fault(rest, Fault::new(Wording::NothingFollows).symbol(operator)))
    }

    #[tactic(auto, unfolding(crate::specs::Values::term_at))]
    fn term(self, text: &'a [u8], decimal: &mut Option<Field>) -> Found<'a>
        ensures { Gives (λ x. (x.0.number, x.1.now)) result (term_at (view self.entry) text.now) }
    {
        let (first, rest) = self.element(text, decimal)?;
        self.factors(first, rest, decimal)
    }

    /// Returns a product with the factors that a text begins with.
    #[tactic(auto, using(crate::proofs::Repeating::fails), unfolding(crate::specs::Values::factors_at))]
    fn factors(self, first: Value, text: &'a [u8], decimal: &mut Option<Field>) -> Found<'a>
        ensures { Gives (λ x. (x.0.number, x.1.now)) result (factors_at (view self.entry) first.number text.now) }
    {
        let mut value = first;
        let mut rest = text;
        for _turn in 0..text.len() {
            let (product, after) = self.more_factors(value, rest, decimal)?;
            value = product;
            rest = after;
        }
        Ok((value, rest))
    }

    /// Returns a product with one more factor, if there is one.
    #[tactic(auto, unfolding(crate::specs::Values::more_factors, crate::specs::Values::factor_at))]
    fn more_factors(self, value: Value, rest: &'a [u8], decimal: &mut Option<Field>) -> Found<'a>
        ensures { Gives (λ x. (x.0.number, x.1.now)) result (more_factors (view self.entry) (value.number, rest.now)) }
    {
        let Some(is_quotient) = factor_in(rest) else {
            return Ok((value, rest));
        };
        let (other, after) = self.element(self.behind(rest)?, decimal)?;
        match product_of(value.number, other.number, is_quotient) {
            Some(number) => Ok((Value::new(number, 0), after)),
            None => Err(beyond(self.operand)),
        }
    }

    /// Returns the value of a name, a number, a counter or a text, and what follows it.
    #[tactic(auto, unfolding(crate::specs::Values::element_at))]
    fn element(self, rest: &'a [u8], decimal: &mut Option<Field>) -> Found<'a>
        ensures { Gives (λ x. (x.0.number, x.1.now)) result (element_at (view self.entry) rest.now) }
    {
        if let Some(size) = size_of_name(rest) {
            return self.name(rest, size);
        }
        if let Some(number) = number_of(rest) {
            return self.number(rest, number, decimal);
        }
        match rest {
            [b'*', after @ ..] => Ok(self.counter(after)),
            _ => self.text_element(rest),
        }
    }

    /// Returns the value of the name of so many symbols.
    #[tactic(auto, unfolding(crate::specs::Values::view))]
    fn name(self, rest: &'a [u8], size: usize) -> Found<'a>
        ensures { Gives (λ x. (x.0.number, x.1.now)) result (name_at (view self.entry) rest.now size) }
    {
        let name = self.part(rest, size);
        let place = Place {
            name,
            column: name.first,
            is_from_above: self.is_from_above,
        };
        let text = rest.get(..size).unwrap_or(rest);
        let symbol = self.scope.symbols.look_up(text, place, self.scope.is_last)?;
        let addresses = if symbol.is_address { 1 } else { 0 };
        match symbol.value {
            Some(number) => Ok((Value { number, addresses }, tail(rest, size))),
            None => Err(Stop::Follows),
        }
    }

    /// Returns the value of a counter; of ** it is 0.
    #[tactic(auto, unfolding(crate::specs::Values::view))]
    fn counter(self, after: &'a [u8]) -> (Value, &'a [u8])
        ensures { (result.0.number, result.1.now) ≡ counter_after (view self.entry) (counter_at after.now) }
    {
        let (letter, rest) = counter_of(after);
        let value = match letter {
            b'*' => Value::new(0, 0),
            b'O' => Value::new(self.scope.counters.origin, 1),
            _ => Value::new(self.scope.counters.location, 1),
        };
        (value, rest)
    }

    #[tactic(auto, unfolding(crate::specs::Values::number_value))]
    fn number(self, rest: &[u8], number: Number<'a>, decimal: &mut Option<Field>) -> Found<'a>
        ensures { Gives (λ x. (x.0.number, x.1.now)) result (number_value (view self.entry) (written number.entry)) }
    {
        let base = self.base_of(rest, number, decimal)?;
        match shifted_number(number.digits, base, number.shift) {
            Some(value) => Ok((Value::new(value, 0), number.rest)),
            None => Err(beyond(self.operand)),
        }
    }

    /// Returns the base of a number, 8 or 10 (decimal).
    fn base_of(self, rest: &[u8], number: Number, decimal: &mut Option<Field>) -> Outcome<u64>
        ensures { Gives (λ x. x) result (short_radix (view self.entry) (written number.entry)) }
    {
        if number.digits.len() > MOST_DIGITS {
            return Err(self.fault(rest, Fault::new(Wording::LongNumber)));
        }
        match number.letter {
            Some(b'D') => Ok(10),
            Some(_) => self.octal(rest, number.digits),
            None => self.plain_base(rest, number.digits, decimal),
        }
    }

    /// Returns the base of digits without a letter.
    #[tactic(auto, unfolding(crate::specs::Values::view))]
    fn plain_base(self, rest: &[u8], digits: &[u8], decimal: &mut Option<Field>) -> Outcome<u64>
        ensures { Gives (λ x. x) result (plain_radix (view self.entry).base (view self.entry).is_deck digits.now) }
    {
        match self.scope.counters.base {
            Some(Base::Decimal) => Ok(10),
            Some(Base::Octal | Base::Mixed) => self.octal(rest, digits),
            None if is_up_to_7(digits) => self.octal(rest, digits),
            None => {
                let part = self.part(rest, digits.len());
                if !self.scope.counters.is_deck {
                    let fault = Fault::new(Wording::EitherBase).part(part).part(part);
                    return Err(self.fault(rest, fault.part(part)));
                }
                *decimal = decimal.or(Some(part));
                Ok(10)
            }
        }
    }

    /// Returns 8, if digits are octal.
    fn octal(self, rest: &[u8], digits: &[u8]) -> Outcome<u64>
        ensures { Gives (λ x. x) result (octal digits.now) }
    {
        if has_8_or_9(digits) {
            let part = self.part(rest, digits.len());
            let fault = Fault::new(Wording::NoOctalNumber);
            return Err(self.fault(rest, fault.part(part).part(part)));
        }
        Ok(8)
    }

    /// Returns the number of a text.
    #[tactic(auto, unfolding(crate::specs::Values::text_element, crate::specs::Values::view))]
    fn text_element(self, rest: &'a [u8]) -> Found<'a>
        ensures { Gives (λ x. (x.0.number, x.1.now)) result (text_element (view self.entry) rest.now) }
    {
        let Some(text) = text_at(self.text, self.at(rest), false)? else {
            let fault = Fault::new(match rest {
                [b'"', ..] => Wording::NoElementOrMicro,
                [b'=', ..] => Wording::NoElementButLiteral,
                _ => Wording::NoElement,
            });
            return Err(self.fault(rest, fault.part(self.part(rest, rest.len()))));
        };
        if text.kind != b'R' {
            let fault = Fault::new(Wording::WrongTextInSum);
            return Err(self.fault(rest, fault.symbol(text.kind)));
        }
        are_in_code(text.symbols, self.part(rest, 0).first)?;
        match text.number(text.count) {
            Some(number) => Ok((Value::new(number, 0), tail(self.text, text.end))),
            None => Err(beyond(self.operand)),
        }
    }
}

/// Returns that a number is too great to be worked out here.
pub fn beyond(operand: Field) -> Stop
    ensures { is_fault result ≡ false }
{
    let fault = Fault::new(Wording::NotTakenYet).part(operand);
    Stop::Ends(operand.first, fault)
}

/// Returns whether a text begins with an operator of products, and whether it is that of a quotient.
fn factor_in(text: &[u8]) -> Option<bool>
    ensures { result ≡ factor_in text.now }
{
    match text {
        [b'*', ..] => Some(false),
        [b'/', ..] => Some(true),
        _ => None,
    }
}

/// Returns the sign that a text begins with.
fn sign_in(text: &[u8]) -> Option<Sign>
    ensures { result ≡ sign_in text.now }
{
    match text {
        [b'+', ..] => Some(Sign::Plus),
        [b'-', ..] => Some(Sign::Minus),
        [b'^', ..] => Some(Sign::Differ),
        _ => None,
    }
}

/// Returns a sum, a difference or a logical difference, if it is kept.
fn sum_of(a: i64, b: i64, sign: Sign) -> Option<i64>
    ensures { IfSome result (λ sum. plus sign (Some a) (Some b) ≡ Some sum) }
{
    match sign {
        Sign::Plus => a.checked_add(b),
        Sign::Minus => a.checked_sub(b),
        Sign::Differ => difference(a, b),
    }
}

/// Returns the bits in which two numbers differ: minus is the ones complement, and so is the difference if one of the two has it.
fn difference(a: i64, b: i64) -> Option<i64>
    ensures { IfSome result (λ bits. difference a b ≡ bits) }
{
    let bits = i64::try_from(a.unsigned_abs() ^ b.unsigned_abs()).ok()?;
    if (a < 0) == (b < 0) {
        Some(bits)
    } else {
        0i64.checked_sub(bits)
    }
}

/// Returns a product, or a quotient, which has no fraction and is 0 if the divisor is 0; if it is kept.
fn product_of(a: i64, b: i64, is_quotient: bool) -> Option<i64>
    ensures { IfSome result (λ number. times is_quotient (Some a) (Some b) ≡ Some number) }
{
    match (is_quotient, b) {
        (false, _) => product(a, b),
        (true, 0) => Some(0),
        (true, _) => a.checked_div(b),
    }
}

/// Returns the number of digits, shifted to the left, if it is kept.
fn shifted_number(digits: &[u8], base: u64, bits: u32) -> Option<i64>
    ensures { IfSome result (λ number. number ≡ pos (number_in base digits.now) *ℤ pos (2 ^ bits)) }
{
    match decoded(digits, base) {
        Some(number) => shifted(number, bits),
        None => None,
    }
}

/// Returns whether one of some digits is not octal.
fn has_8_or_9(digits: &[u8]) -> bool
    ensures { result ≡ list_any (λ digit. nat_le 56 digit) digits.now }
{
    digits.iter().any(|digit| *digit >= b'8')
}

/// Returns whether digits write the same number, up to 7, in both bases.
fn is_up_to_7(digits: &[u8]) -> bool
    ensures { result ≡ nat_le (number_in 10 digits.now) 7 }
{
    match decoded(digits, 10) {
        Some(number) => number <= 7,
        None => false,
    }
}

/// Returns how many symbols are before one that ends a qualifier.
fn qualifier_size(text: &[u8]) -> usize
    ensures at_most { result ≤ length text.now }
    ensures found { result ≡ qualifier_size text.now }
{
    text.iter()
        .take_while(|symbol| !ends_qualifier(**symbol))
        .count()
}

fn ends_qualifier(symbol: u8) -> bool
    ensures { result ≡ ends_qualifier symbol }
{
    b"\t\n\x0b\x0c\r ,/".contains(&symbol)
}

/// Returns how many symbols the name has that a text begins with, if it does. It may have its qualifier before it.
pub fn size_of_name(text: &[u8]) -> Option<usize>
    ensures { result ≡ full_size text.now }
{
    let [b'/', behind @ ..] = text else {
        return name_size(text);
    };
    let size = qualifier_size(behind);
    match tail(behind, size) {
        [b'/', name @ ..] => match name_size(name) {
            Some(more) => Some(size + 2 + more),
            None => None,
        },
        _ => None,
    }
}
