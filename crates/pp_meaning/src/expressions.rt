//! Expressions and their values.
ghost use Rattle.std.specs.Prelude.{◌≡◌, IfSome, Some, pos, fold, slice_get, take};
ghost use Rattle.std.specs.List.{list_all};
ghost use Rattle.pp_meaning.specs.declared.expressions.Base.TheVariants.{Decimal};
ghost use Rattle.pp_meaning.specs.Expressions.{are_signed, better, choose, chosen, decimal_above, is_above};
ghost use Rattle.pp_meaning.specs.Expressions.{is_atom_above, is_factor_above, is_term_above, sum, atom_value};
ghost use Rattle.pp_meaning.specs.Expressions.{is_current, is_last, is_plus, named_value, plus, shifted, product, times};
ghost use Rattle.pp_meaning.specs.Expressions.{value, value_above, with_choice, with_factor, with_term};

use crate::numbers::{product_of, shifted_by, sum_of, value_of};
use crate::texts::{Text, number_of_text};

/// What numbers without a letter are.
#[derive(Clone, Copy)]
pub enum Base {
    Octal,
    Decimal,
    /// Octal, but in a count of bits or of symbols.
    Mixed,
}

/// The letter of a number.
#[derive(Clone, Copy)]
pub enum Radix {
    B,
    O,
    D,
    /// None.
    Plain,
}

/// Where a symbol has its number.
#[derive(Clone, Copy)]
pub enum Validity {
    /// Everywhere.
    Fixed,
    /// Up to the next symbol of its name, which SET makes.
    Set,
    /// In system texts, up to the next symbol of its name. The source, or a later system text, defines that one.
    Replaced,
}

/// A name and its number.
#[derive(Drop)]
pub struct Symbol {
    pub name: Vec<u8>,
    pub value: i64,
    pub validity: Validity,
    /// The index of the next symbol of the name, or one that no symbol has.
    pub next: usize,
}

/// What is added, multiplied, or a part of that.
#[derive(Drop)]
pub enum Atom {
    /// Digits and their letter.
    Number(Vec<u8>, Radix),
    /// The name at an index among the symbols.
    Name(usize),
    /// The same, written in full: with its qualifier, or with `//` if it has none.
    Qualified(usize),
    /// `*`, the location counter.
    Here,
    /// `*L`, the location counter.
    LocationCounter,
    /// `*O`, the origin counter.
    OriginCounter,
    /// `**`, which is 0.
    Nothing,
    /// Digits and their letter, and the digits of how many bits it is shifted to the left.
    Shifted(Vec<u8>, Radix, Vec<u8>),
    /// A text with R: the digits of its count, and the codes of its symbols.
    Symbols(Vec<u8>, Vec<u8>),
}

/// What a product is multiplied with, or divided by.
#[derive(Drop)]
pub struct Factor {
    pub is_quotient: bool,
    pub atom: Atom,
}

/// How a term is combined with those before it.
#[derive(Clone, Copy)]
pub enum Sign {
    Plus,
    Minus,
    /// `^`: the bits in which both differ.
    Differ,
}

/// A product with its sign.
#[derive(Drop)]
pub struct Term {
    pub sign: Sign,
    pub atom: Atom,
    pub factors: Vec<Factor>,
}

/// An expression by its terms. The first one may have no sign.
#[derive(Drop)]
pub struct Expression {
    pub has_sign: bool,
    pub terms: Vec<Term>,
}

/// An expression, or a text.
#[derive(Drop)]
pub enum Item {
    Sum(Expression),
    Characters(Text),
    /// What is between two commas with nothing between them, or behind the size of a field of VFD.
    Nothing,
}

/// How many bits a field of VFD has.
#[derive(Drop)]
pub enum Width {
    /// Digits and their letter. Without a letter they are decimal.
    Digits(Vec<u8>, Radix),
    /// The name at an index among the symbols.
    Named(usize),
    /// `*P`: the bits that the word has left.
    Rest,
    /// An expression, whose numbers are decimal.
    Count(Expression),
    /// `*P`, and behind it what is added, with its sign. Its numbers are decimal.
    Beyond(Expression),
}

/// The letter before the name of a symbol that may be one of another program.
#[derive(Clone, Copy)]
pub enum Linkage {
    S,
    X,
    Y,
}

/// One operand: what is between two commas of the variable field.
#[derive(Drop)]
pub enum Operand {
    Single(Item),
    /// A literal at an address, and what its words are.
    Literal(usize, Item),
    /// The name of the symbol at an index.
    External(Linkage, usize),
    /// A field of VFD.
    Bits(Width, Item),
    /// A field of VFD with a literal at an address, and what its words are.
    LiteralBits(Width, usize, Item),
    /// A field of VFD with the name of the symbol at an index.
    ExternalBits(Width, Linkage, usize),
    /// What USE has: the name of a block, 0 or `*`.
    Word(Vec<u8>),
}

/// Words that are named by what they are, from an address on.
#[derive(Drop)]
pub struct Literal {
    pub address: usize,
    pub words: Vec<u32>,
}

/// Where a statement is: the counters, the base of its numbers, and how many symbols are defined above.
#[derive(Clone, Copy)]
pub struct Place {
    pub location: usize,
    pub origin: usize,
    pub base: Option<Base>,
    pub defined: usize,
    /// A system text is performed.
    pub is_system: bool,
}

/// Returns a counter as a number.
pub fn counter(cell: usize) -> Option<i64>
    ensures { IfSome result (λ number. pos cell ≡ number) }
{
    i64::try_from(cell).ok()
}

/// Returns whether a symbol at an index is defined above, and the next one of its name is not.
fn is_last(place: Place, index: usize, next: usize) -> bool
    ensures { result ≡ is_last place index next }
{
    index < place.defined && place.defined <= next
}

/// Returns whether a symbol at an index has its present number.
fn is_current_at(place: Place, index: usize, symbol: &Symbol) -> bool
    ensures { result ≡ is_current place index symbol.now }
{
    match symbol.validity {
        Validity::Fixed => true,
        Validity::Set => is_last(place, index, symbol.next),
        Validity::Replaced => place.is_system && is_last(place, index, symbol.next),
    }
}

/// Returns the value of the name at an index.
pub fn name_value(symbols: &[Symbol], place: Place, index: usize) -> Option<i64>
    ensures { IfSome result (λ number. named_value place index (slice_get symbols.now index) ≡ Some number) }
{
    match symbols.get(index) {
        Some(symbol) if is_current_at(place, index, symbol) => Some(symbol.value),
        _ => None,
    }
}

/// Returns the value of an atom.
fn value_of_atom(symbols: &[Symbol], place: Place, atom: &Atom) -> Option<i64>
    ensures { IfSome result (λ number. atom_value symbols.now place atom.now ≡ Some number) }
{
    match atom {
        Atom::Number(digits, radix) => value_of(digits, *radix, place.base),
        Atom::Name(index) | Atom::Qualified(index) => name_value(symbols, place, *index),
        Atom::Here | Atom::LocationCounter => counter(place.location),
        Atom::OriginCounter => counter(place.origin),
        Atom::Nothing => Some(0),
        Atom::Shifted(digits, radix, shift) => {
            let number = value_of(digits, *radix, place.base)?;
            shifted_by(number, shift)
        }
        Atom::Symbols(digits, codes) => number_of_text(digits, codes),
    }
}

/// Returns a product with one more factor.
fn with_one_factor(symbols: &[Symbol], place: Place, number: i64, factor: &Factor) -> Option<i64>
    ensures { IfSome result (λ after. with_factor symbols.now place (Some number) factor.now ≡ Some after) }
{
    let other = value_of_atom(symbols, place, &factor.atom)?;
    product_of(number, other, factor.is_quotient)
}

/// Returns a number with factors.
fn with_factors(symbols: &[Symbol], place: Place, first: i64, factors: &[Factor]) -> Option<i64>
    ensures { IfSome result (λ after. fold (with_factor symbols.now place) (Some first) factors.now ≡ Some after) }
{
    let mut number: i64 = first;
    for factor in factors {
        number = with_one_factor(symbols, place, number, factor)?;
    }
    Some(number)
}

/// Returns the product of a term.
fn product_of_term(symbols: &[Symbol], place: Place, term: &Term) -> Option<i64>
    ensures { IfSome result (λ number. product symbols.now place term.now ≡ Some number) }
{
    let first = value_of_atom(symbols, place, &term.atom)?;
    with_factors(symbols, place, first, &term.factors)
}

/// Returns a sum with one more term.
fn with_one_term(symbols: &[Symbol], place: Place, total: i64, term: &Term) -> Option<i64>
    ensures { IfSome result (λ after. with_term symbols.now place (Some total) term.now ≡ Some after) }
{
    let number = product_of_term(symbols, place, term)?;
    sum_of(total, number, term.sign)
}

/// Returns the sum of terms.
fn sum_of_terms(symbols: &[Symbol], place: Place, terms: &[Term]) -> Option<i64>
    ensures { IfSome result (λ number. fold (with_term symbols.now place) (Some (pos 0)) terms.now ≡ Some number) }
{
    let mut total: i64 = 0;
    for term in terms {
        total = with_one_term(symbols, place, total, term)?;
    }
    Some(total)
}

/// Returns whether there are terms, of which the first one may have no sign.
fn have_signs(has_sign: bool, terms: &[Term]) -> bool
    ensures { result ≡ are_signed has_sign terms.now }
{
    match terms {
        [] => false,
        [first, ..] => has_sign || matches!(first.sign, Sign::Plus),
    }
}

/// Returns the value of an expression.
pub fn value_of_sum(symbols: &[Symbol], place: Place, x: &Expression) -> Option<i64>
    ensures { IfSome result (λ number. sum symbols.now place x.now ≡ Some number) }
{
    if !have_signs(x.has_sign, &x.terms) {
        return None;
    }
    sum_of_terms(symbols, place, &x.terms)
}

/// Returns the value of an operand.
pub fn value_of_operand(symbols: &[Symbol], place: Place, operand: &Operand) -> Option<i64>
    ensures { IfSome result (λ number. value symbols.now place operand.now ≡ Some number) }
{
    match operand {
        Operand::Single(Item::Sum(x)) => value_of_sum(symbols, place, x),
        _ => None,
    }
}

/// Returns the value of an operand by the names above.
pub fn value_by_names_above(symbols: &[Symbol], place: Place, operand: &Operand) -> Option<i64>
    ensures { IfSome result (λ number. value_above symbols.now place operand.now ≡ Some number) }
{
    if place.defined > symbols.len() {
        return None;
    }
    value_of_operand(&symbols[..place.defined], place, operand)
}

/// Returns the value of an operand by the names above, whose numbers are decimal.
pub fn decimal_by_names_above(symbols: &[Symbol], place: Place, operand: &Operand) -> Option<i64>
    ensures { IfSome result (λ number. decimal_above symbols.now place operand.now ≡ Some number) }
{
    let place = Place {
        base: Some(Base::Decimal),
        ..place
    };
    value_by_names_above(symbols, place, operand)
}

/// Returns the value of an expression by the names above, whose numbers are decimal.
pub fn decimal_sum_above(symbols: &[Symbol], place: Place, x: &Expression) -> Option<i64>
    ensures { IfSome result (λ number. sum (take place.defined symbols.now) (record place { base = Some Decimal }) x.now ≡ Some
        number) }
{
    if place.defined > symbols.len() {
        return None;
    }
    let place = Place {
        base: Some(Base::Decimal),
        ..place
    };
    value_of_sum(&symbols[..place.defined], place, x)
}

/// Returns whether an atom is no name that is defined below.
fn is_known_atom(place: Place, atom: &Atom) -> bool
    ensures { result ≡ is_atom_above place atom.now }
{
    match atom {
        Atom::Name(index) | Atom::Qualified(index) => *index < place.defined,
        _ => true,
    }
}

/// Returns whether no factor is a name that is defined below.
fn are_known_factors(place: Place, factors: &[Factor]) -> bool
    ensures { result ≡ list_all (is_factor_above place) factors.now }
{
    factors
        .iter()
        .all(|factor| is_known_atom(place, &factor.atom))
}

/// Returns whether a term has no name that is defined below.
fn is_known_term(place: Place, term: &Term) -> bool
    ensures { result ≡ is_term_above place term.now }
{
    is_known_atom(place, &term.atom) && are_known_factors(place, &term.factors)
}

fn are_known_terms(place: Place, terms: &[Term]) -> bool
    ensures { result ≡ list_all (is_term_above place) terms.now }
{
    terms.iter().all(|term| is_known_term(place, term))
}

/// Returns whether an operand is an expression, each name of which is defined above.
pub fn is_known_above(place: Place, operand: &Operand) -> bool
    ensures { result ≡ is_above place operand.now }
{
    match operand {
        Operand::Single(Item::Sum(x)) => are_known_terms(place, &x.terms),
        _ => false,
    }
}

/// Returns the greater or the lesser one of two numbers.
fn better_of(is_greatest: bool, a: i64, b: i64) -> i64
    ensures { result ≡ better is_greatest a b }
{
    let is_other = if is_greatest { a < b } else { b < a };
    if is_other { b } else { a }
}

/// Returns the greater or the lesser one of a number and the value of an operand.
fn with_one_choice(
    symbols: &[Symbol],
    place: Place,
    is_greatest: bool,
    number: i64,
    operand: &Operand,
) -> Option<i64>
    ensures { IfSome result (λ after. with_choice symbols.now place is_greatest (Some number) operand.now ≡ Some after) }
{
    let other = value_by_names_above(symbols, place, operand)?;
    Some(better_of(is_greatest, number, other))
}

/// Returns the greatest or the least of a number and the values of operands.
fn best_of(
    symbols: &[Symbol],
    place: Place,
    is_greatest: bool,
    first: i64,
    others: &[Operand],
) -> Option<i64>
    ensures { IfSome result (λ number. fold (with_choice symbols.now place is_greatest) (Some first) others.now ≡ Some number) }
{
    let mut best: i64 = first;
    for operand in others {
        best = with_one_choice(symbols, place, is_greatest, best, operand)?;
    }
    Some(best)
}

/// Returns the greatest or the least value of operands.
pub fn chosen_value(
    symbols: &[Symbol],
    place: Place,
    is_greatest: bool,
    operands: &[Operand],
) -> Option<i64>
    ensures { IfSome result (λ number. chosen symbols.now place is_greatest operands.now ≡ Some number) }
{
    match operands {
        [] => None,
        [first, others @ ..] => {
            let first = value_by_names_above(symbols, place, first)?;
            best_of(symbols, place, is_greatest, first, others)
        }
    }
}
