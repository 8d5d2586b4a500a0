//! The terms of operands, and the names that they have.
use pp_decks::{LAST_COLUMN, tail};
use pp_meaning::{
    Atom, Cut, Expression, Factor, Item, Kind, Label, Linkage, Operand, Radix, Sign, Symbol, Term,
    Text, Validity, Width,
};
use pp_source::{
    Number, code_of, counter_of, digits_of, end_of_name, find, is_blank, number_of, text_at,
};
use pp_statements::{Named, end_of_size, size_of_name};
use std::alloc::{AllocError, Global};
use std::collections::BTreeMap;

/// What names stand for, in the order of the statements that define them: first those of system texts. SET makes a symbol each time,
/// and so does a source that defines a name of a system text anew.
#[derive(Drop)]
pub struct Names {
    alloc: Global,
    pub all: Vec<Symbol>,
    /// The index of the last symbol of a name, with its qualifier.
    last: BTreeMap<Vec<u8>, usize>,
    /// The index of the symbol that a name with its qualifier means now, if it means one.
    present: BTreeMap<Vec<u8>, usize>,
    /// How many statements that define names have been read anew.
    defined: usize,
    /// How many symbols system texts define.
    of_systems: usize,
    /// What was before a name with the qualifiers of QUAL, that of the present one at the end.
    prefixes: Vec<Vec<u8>>,
}

impl Names {
    pub fn new(alloc: Global) -> Self {
        Names {
            alloc,
            all: Vec::new(alloc),
            last: BTreeMap::new(alloc),
            present: BTreeMap::new(alloc),
            defined: 0,
            of_systems: 0,
            prefixes: Vec::new(alloc),
        }
    }

    /// Returns what is before a name with the present qualifier.
    pub fn prefix(&self) -> &[u8] {
        match self.prefixes.last() {
            Some(prefix) => prefix,
            None => b"",
        }
    }

    /// Goes on with a qualifier, or without one; * goes back to the one before.
    pub fn qualify(&mut self, name: &[u8]) -> Result<(), AllocError> {
        if matches!(name, b"*") {
            let _ = self.prefixes.pop();
            return Ok(());
        }
        let mut prefix = Vec::new(self.alloc);
        if !name.is_empty() {
            prefix.push(b'/')?;
            prefix.extend_from_slice(name)?;
            prefix.push(b'/')?;
        }
        Ok(self.prefixes.push(prefix)?)
    }

    /// Ends a source, or a system text: names have no qualifier.
    pub fn end_text(&mut self) {
        self.prefixes.clear();
    }

    /// Returns a name with the present qualifier.
    fn qualified(&self, name: &[u8]) -> Result<Vec<u8>, AllocError> {
        let mut full = Vec::from_slice(self.alloc, self.prefix())?;
        full.extend_from_slice(name)?;
        Ok(full)
    }

    /// Adds what a name stands for, in each statement if it is none of SET. The symbol before of the same name stands for its number
    /// up to there alone, and does so in the source only if SET makes this one.
    pub fn add(&mut self, name: &[u8], value: i64, is_set: bool) -> Result<(), AllocError> {
        let index = self.all.len();
        let name = self.qualified(name)?;
        if let Some(before) = self.last.insert(name.clone()?, index)?
            && let Some(symbol) = self.all.get_mut(before)
        {
            symbol.next = index;
            symbol.validity = if is_set {
                Validity::Set
            } else {
                Validity::Replaced
            };
        }
        if is_set {
            self.present.remove(&name);
        } else {
            self.present.insert(name.clone()?, index)?;
        }
        let validity = if is_set {
            Validity::Set
        } else {
            Validity::Fixed
        };
        Ok(
            self.all.push(Symbol {
                name,
                value,
                validity,
                next: usize::MAX,
            })?,
        )
    }

    /// Returns what is in the label field of the next statement. A name means from here on what it stands for there.
    pub fn label(&mut self, label: &[u8]) -> Result<Label, AllocError> {
        Ok(match label {
            b"" => Label::Empty,
            b"+" => Label::Plus,
            b"-" => Label::Minus,
            name => {
                let index = self.defined;
                let name = self.qualified(name)?;
                self.present.insert(name, index)?;
                self.defined = index.saturating_add(1);
                Label::Named(index)
            }
        })
    }

    /// Keeps that the symbols so far are those of system texts.
    pub fn end_systems(&mut self) {
        self.of_systems = self.all.len();
    }

    /// Begins the source, when the statements of system texts have been read anew: a name that it has itself, but for SET, means that.
    pub fn begin_source(&mut self) -> Result<(), AllocError> {
        for index in self.of_systems..self.all.len() {
            if let Some(symbol) = self.all.get(index)
                && matches!(symbol.validity, Validity::Fixed)
            {
                self.present.insert(symbol.name.clone()?, index)?;
            }
        }
        Ok(())
    }

    /// Returns the symbol that a name means: with its qualifier, or else with the present one, or else without.
    fn index_of(&self, name: &[u8]) -> Result<Option<usize>, AllocError> {
        if name.first() == Some(&b'/') {
            let name = name.strip_prefix(b"//").unwrap_or(name);
            return Ok(
                self.present
                    .get(&Vec::from_slice(self.alloc, name)?)
                    .copied(),
            );
        }
        let full = self.qualified(name)?;
        if self.last.contains_key(&full) {
            return Ok(self.present.get(&full).copied());
        }
        Ok(
            self.present
                .get(&Vec::from_slice(self.alloc, name)?)
                .copied(),
        )
    }
}

/// Returns what the letter of a number says, and how many letters it is.
fn radix_of(number: Number) -> (Radix, usize) {
    match number.letter {
        Some(b'B') => (Radix::B, 1),
        Some(b'O') => (Radix::O, 1),
        Some(_) => (Radix::D, 1),
        None => (Radix::Plain, 0),
    }
}

/// A number that is shifted by more bits is 0.
const MOST_SHIFT: u32 = 62;

/// Reads the terms of a text.
#[derive(Clone, Copy)]
struct Reader<'a> {
    alloc: Global,
    names: &'a Names,
    /// What has not been read.
    rest: &'a [u8],
}

impl<'a> Reader<'a> {
    /// Returns a number, a name, a counter or a text. There is `None` if the text has something else.
    fn atom(&mut self) -> Result<Option<Atom>, AllocError> {
        if let Some(size) = size_of_name(self.rest) {
            let name = self.rest.get(..size).unwrap_or(b"");
            self.rest = tail(self.rest, size);
            return self.name(name);
        }
        match self.rest {
            [b'*', after @ ..] => {
                let (letter, rest) = counter_of(after);
                self.rest = rest;
                Ok(Some(match letter {
                    b'*' => Atom::Nothing,
                    b'O' => Atom::OriginCounter,
                    _ if rest.len() == after.len() => Atom::Here,
                    _ => Atom::LocationCounter,
                }))
            }
            rest => match number_of(rest) {
                Some(number) => self.number(number),
                None => self.symbols(),
            },
        }
    }

    /// Returns a name, which is written in full if it begins with a slash.
    fn name(&self, name: &[u8]) -> Result<Option<Atom>, AllocError> {
        let index = self.names.index_of(name)?;
        Ok(match name.first() {
            Some(b'/') => index.map(Atom::Qualified),
            _ => index.map(Atom::Name),
        })
    }

    /// Returns a text with R that has as many symbols as its count.
    fn symbols(&mut self) -> Result<Option<Atom>, AllocError> {
        let (size, count) = digits_of(self.rest, 9);
        let digits = self.rest.get(..size).unwrap_or(b"");
        let Some([b'R', after @ ..]) = self.rest.get(size..) else {
            return Ok(None);
        };
        let Some((symbols, rest)) = after.split_at_checked(count as usize) else {
            return Ok(None);
        };
        if size == 0 {
            return Ok(None);
        }
        self.rest = rest;
        let digits = Vec::from_slice(self.alloc, digits)?;
        let codes = codes_of(self.alloc, symbols)?;
        Ok(codes.map(|codes| Atom::Symbols(digits, codes)))
    }

    /// Returns a number, which may be shifted.
    fn number(&mut self, number: Number<'a>) -> Result<Option<Atom>, AllocError> {
        let (radix, letters) = radix_of(number);
        let digits = Vec::from_slice(self.alloc, number.digits)?;
        let size = number.digits.len().saturating_add(letters);
        let shift = match self.rest.get(size..) {
            Some([b'S', shift @ ..]) => shift,
            _ => b"",
        };
        self.rest = number.rest;
        let (size, bits) = digits_of(shift, 2);
        if size == 0 {
            return Ok(Some(Atom::Number(digits, radix)));
        }
        if bits > MOST_SHIFT {
            return Ok(None);
        }
        let shift = Vec::from_slice(self.alloc, shift.get(..size).unwrap_or(b""))?;
        Ok(Some(Atom::Shifted(digits, radix, shift)))
    }

    /// Returns the factors after the first atom of a term.
    fn factors(&mut self) -> Result<Option<Vec<Factor>>, AllocError> {
        let mut factors = Vec::new(self.alloc);
        for _ in 0..self.rest.len() {
            let [operator @ (b'*' | b'/'), rest @ ..] = self.rest else {
                break;
            };
            let is_quotient = *operator == b'/';
            self.rest = rest;
            let Some(atom) = self.atom()? else {
                return Ok(None);
            };
            factors.push(Factor { is_quotient, atom })?;
        }
        Ok(Some(factors))
    }

    /// Returns a term. Only the first one may have no sign.
    fn term(&mut self, is_first: bool) -> Result<Option<Term>, AllocError> {
        let (sign, rest) = match self.rest {
            [b'+', rest @ ..] => (Sign::Plus, rest),
            [b'-', rest @ ..] => (Sign::Minus, rest),
            [b'^', rest @ ..] => (Sign::Differ, rest),
            rest if is_first => (Sign::Plus, rest),
            _ => return Ok(None),
        };
        self.rest = rest;
        let Some(atom) = self.atom()? else {
            return Ok(None);
        };
        let Some(factors) = self.factors()? else {
            return Ok(None);
        };
        Ok(Some(Term {
            sign,
            atom,
            factors,
        }))
    }

    fn terms(&mut self) -> Result<Option<Vec<Term>>, AllocError> {
        let mut terms = Vec::new(self.alloc);
        for at in 0..self.rest.len() {
            if self.rest.is_empty() {
                break;
            }
            let Some(term) = self.term(at == 0)? else {
                return Ok(None);
            };
            terms.push(term)?;
        }
        Ok(Some(terms))
    }
}

/// Returns the kind with a letter.
fn kind_of(letter: u8) -> Option<Kind> {
    Some(match letter {
        b'H' => Kind::H,
        b'A' => Kind::A,
        b'L' => Kind::L,
        b'R' => Kind::R,
        b'C' => Kind::C,
        b'Z' => Kind::Z,
        _ => return None,
    })
}

/// Returns what says where a text ends: its count, or its mark.
fn cut_of(alloc: Global, text: &[u8]) -> Result<Cut, AllocError> {
    let (size, _) = digits_of(text, 9);
    match text {
        [_, mark, ..] if size == 0 => Ok(Cut::Marked(*mark)),
        _ => Ok(Cut::Counted(Vec::from_slice(alloc, text.get(..size).unwrap_or(b""))?)),
    }
}

/// Returns the text that is alone, if the line has all its symbols.
fn text_alone(alloc: Global, text: &[u8], is_data: bool) -> Result<Option<Item>, AllocError> {
    let Ok(Some(found)) = text_at(text, 0, is_data) else {
        return Ok(None);
    };
    let Some(kind) = kind_of(found.kind) else {
        return Ok(None);
    };
    if found.end != text.len() || found.symbols.len() != found.count {
        return Ok(None);
    }
    let Some(codes) = codes_of(alloc, found.symbols)? else {
        return Ok(None);
    };
    let cut = cut_of(alloc, text)?;
    Ok(Some(Item::Characters(Text { kind, cut, codes })))
}

/// Returns whether a text alone is not a sum, as one with R is.
fn is_alone(text: &[u8], is_data: bool) -> bool {
    match text_at(text, 0, is_data) {
        Ok(Some(found)) => found.end == text.len() && (is_data || found.kind != b'R'),
        _ => false,
    }
}

/// Returns an expression with its terms, or a text. That of DATA may have marks.
fn item_of(
    alloc: Global,
    names: &Names,
    text: &[u8],
    is_data: bool,
) -> Result<Option<Item>, AllocError> {
    if is_alone(text, is_data) {
        return text_alone(alloc, text, is_data);
    }
    sum_of(alloc, names, text)
}

/// Returns the letter before the name of a symbol that may be one of another program, and the name.
fn name_after(text: &[u8]) -> Option<(Linkage, &[u8])> {
    let (linkage, name) = match text {
        [b'S', name @ ..] => (Linkage::S, name),
        [b'X', name @ ..] => (Linkage::X, name),
        [b'Y', name @ ..] => (Linkage::Y, name),
        _ => return None,
    };
    (end_of_name(name, 0) == Some(name.len())).then_some((linkage, name))
}

/// Returns an operand with its terms, or as a text. A literal is the one that the operand at a column names.
pub fn operand_of(
    alloc: Global,
    names: &Names,
    text: &[u8],
    is_data: bool,
    named: &[Named],
    column: usize,
) -> Result<Option<Operand>, AllocError> {
    // Nothing between two commas of CON is zero, and has no terms.
    if text.is_empty() {
        return Ok(None);
    }
    let [b'=', written @ ..] = text else {
        let item = item_of(alloc, names, text, is_data)?;
        return Ok(item.map(Operand::Single));
    };
    if let Some((linkage, name)) = name_after(written) {
        let index = names.index_of(name)?;
        return Ok(index.map(|index| Operand::External(linkage, index)));
    }
    match (
        item_of(alloc, names, written, true)?,
        address_at(named, column),
    ) {
        (Some(item), Some(address)) => Ok(Some(Operand::Literal(address, item))),
        _ => Ok(None),
    }
}

/// Returns the size of a field of VFD that begins with `*P`, and may go on in what is added.
fn width_beyond(alloc: Global, names: &Names, more: &[u8]) -> Result<Option<Width>, AllocError> {
    if more.is_empty() {
        return Ok(Some(Width::Rest));
    }
    match sum_of(alloc, names, more)? {
        Some(Item::Sum(x)) if x.has_sign => Ok(Some(Width::Beyond(x))),
        _ => Ok(None),
    }
}

/// Returns what the size of a field of VFD says: a number, a name, `*P` or an expression.
fn width_of(alloc: Global, names: &Names, text: &[u8]) -> Result<Option<Width>, AllocError> {
    if let [b'*', b'P', more @ ..] = text {
        return width_beyond(alloc, names, more);
    }
    if end_of_name(text, 0) == Some(text.len()) {
        return Ok(names.index_of(text)?.map(Width::Named));
    }
    if let Some(number) = number_of(text) {
        let (radix, letters) = radix_of(number);
        if number.digits.len().saturating_add(letters) == text.len() {
            let digits = Vec::from_slice(alloc, number.digits)?;
            return Ok(Some(Width::Digits(digits, radix)));
        }
    }
    match sum_of(alloc, names, text)? {
        Some(Item::Sum(x)) => Ok(Some(Width::Count(x))),
        _ => Ok(None),
    }
}

/// Returns a field of VFD: its size, and its expression, which may be left out.
pub fn field_of(
    alloc: Global,
    names: &Names,
    text: &[u8],
    named: &[Named],
    column: usize,
) -> Result<Option<Operand>, AllocError> {
    let Some(end) = end_of_size(text) else {
        return Ok(None);
    };
    let size = text.get(..end).unwrap_or(b"");
    let Some(width) = width_of(alloc, names, size)? else {
        return Ok(None);
    };
    let first = end.saturating_add(1);
    let expression = tail(text, first);
    if expression.is_empty() {
        return Ok(Some(Operand::Bits(width, Item::Nothing)));
    }
    let column = column.saturating_add(first);
    let value = operand_of(alloc, names, expression, false, named, column)?;
    Ok(match value {
        Some(Operand::Single(item)) => Some(Operand::Bits(width, item)),
        Some(Operand::Literal(address, item)) => Some(Operand::LiteralBits(width, address, item)),
        Some(Operand::External(linkage, index)) => {
            Some(Operand::ExternalBits(width, linkage, index))
        }
        _ => None,
    })
}

/// Returns the address of the literal that the operand at a column names.
fn address_at(named: &[Named], column: usize) -> Option<usize> {
    let mut all = named.iter();
    usize::try_from(all.find(|one| one.column == column)?.address).ok()
}

/// Returns the terms of an operand, if they are known here.
fn sum_of(alloc: Global, names: &Names, text: &[u8]) -> Result<Option<Item>, AllocError> {
    let mut reader = Reader {
        alloc,
        names,
        rest: text,
    };
    let has_sign = matches!(text.first(), Some(b'+' | b'-' | b'^'));
    let terms = reader.terms()?;
    Ok(terms.map(|terms| Item::Sum(Expression { has_sign, terms })))
}

/// Returns the display codes of symbols, if each has one.
fn codes_of(alloc: Global, symbols: &[u8]) -> Result<Option<Vec<u8>>, AllocError> {
    let mut codes = Vec::new(alloc);
    for symbol in symbols {
        match code_of(*symbol) {
            Some(code) => codes.push(code)?,
            None => return Ok(None),
        }
    }
    Ok(Some(codes))
}

/// Returns whether a text is empty or begins with a blank.
pub fn begins_with_blank(text: &[u8]) -> bool {
    text.first().is_none_or(|symbol| is_blank(*symbol))
}

/// Returns what says where a text ends, its symbols, and how many columns both have. With a count of words it may be short.
fn cut_of_display(
    alloc: Global,
    operand: &[u8],
) -> Result<Option<(Cut, &[u8], usize)>, AllocError> {
    let (digits, count) = digits_of(operand, 4);
    let first = digits.saturating_add(1);
    let rest = tail(operand, first);
    if digits > 0 {
        let size = (count as usize).saturating_mul(2);
        let symbols = rest.get(..size).unwrap_or(rest);
        let count = Vec::from_slice(alloc, operand.get(..digits).unwrap_or(b""))?;
        let end = first.saturating_add(symbols.len());
        return Ok(Some((Cut::Counted(count), symbols, end)));
    }
    let [mark, rest @ ..] = rest else {
        return Ok(None);
    };
    let Some(size) = find(rest, 0, *mark) else {
        return Ok(None);
    };
    let symbols = rest.get(..size).unwrap_or(b"");
    let end = first.saturating_add(size).saturating_add(2);
    Ok(Some((Cut::Marked(*mark), symbols, end)))
}

/// Returns the text of DIS, and how many columns it has.
pub fn text_of_display(alloc: Global, operand: &[u8]) -> Result<Option<(Text, usize)>, AllocError> {
    let Some((cut, symbols, end)) = cut_of_display(alloc, operand)? else {
        return Ok(None);
    };
    let kind = Kind::C;
    let codes = codes_of(alloc, symbols)?;
    Ok(codes.map(|codes| (Text { kind, cut, codes }, end)))
}

/// Returns whether a comment may follow a text of DIS, before which are so many columns: it may be any behind a mark, or if the text has
/// all symbols that its count says, or ends in the last column.
pub fn may_follow(text: &Text, columns: usize, comment: &[u8]) -> bool {
    match &text.cut {
        Cut::Counted(digits) => {
            let (_, count) = digits_of(digits, 4);
            comment.is_empty()
                || columns == LAST_COLUMN
                || text.codes.len() == (count as usize).saturating_mul(2)
        }
        Cut::Marked(_) => true,
    }
}
