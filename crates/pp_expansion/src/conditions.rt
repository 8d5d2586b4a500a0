//! The conditions of IF and the operations like it.
use crate::pass::Pass;
use pp_source::{
    Fault, Field, Here, Opening, Operation, Order, Outcome, Statement, Stop, Wording, after_blanks,
    code_of, end_of_word, first_parts, operation_of,
};

/// The operand of IFC: the condition, which a minus turns round, its two texts, and the count of lines.
#[derive(Clone, Copy)]
pub struct Texts<'a> {
    is_turned: bool,
    order: Order,
    one: &'a [u8],
    other: &'a [u8],
    pub count: Field,
}

/// Returns what the operand of IFC says.
pub fn texts_of<'a>(here: &Here<'a>, operand: Field) -> Outcome<Texts<'a>> {
    texts_in(operand.of(here.text), operand.end).ok_or(Stop::At(
        operand.first,
        Fault::new(Wording::TextsWanted),
    ))
}

/// Returns what a text says that is the operand of IFC, and ends at a column.
fn texts_in(operand: &[u8], end: usize) -> Option<Texts<'_>> {
    let (is_turned, rest) = match operand {
        [b'-', rest @ ..] => (true, rest),
        rest => (false, rest),
    };
    let [first, second, b',', mark, texts @ ..] = rest else {
        return None;
    };
    // EQ compares texts as IFEQ compares numbers.
    let compare = operation_of(&[b'I', b'F', *first, *second]);
    let Operation::Block(Opening::Numbers(order)) = compare else {
        return None;
    };
    let mut parts = texts.splitn(3, |symbol| symbol == mark);
    let (one, other, after) = (parts.next()?, parts.next()?, parts.next()?);
    let first = after_blanks(after, 1);
    let last = match after.first() {
        Some(b',') => end_of_word(after, first),
        _ => first,
    };
    let before = end.saturating_sub(after.len());
    Some(Texts {
        is_turned,
        order,
        one,
        other,
        count: Field::new(before.saturating_add(first), before.saturating_add(last)),
    })
}

/// Compares texts by their display code, the shorter one with zeros at its end: minus if the first one is less, 0 if they are
/// equal.
fn compared(one: &[u8], other: &[u8]) -> i64 {
    let code_at = |text: &[u8], at: usize| match text.get(at) {
        Some(symbol) => i64::from(code_of(*symbol).unwrap_or(0)),
        None => 0,
    };
    (0..one.len().max(other.len()))
        .map(|at| code_at(one, at).wrapping_sub(code_at(other, at)))
        .find(|difference| *difference != 0)
        .unwrap_or(0)
}

impl Pass {
    /// Returns whether the condition of an IF holds.
    pub fn holds(&mut self, here: &Here, statement: Statement, opening: Opening) -> Outcome<bool> {
        match opening {
            Opening::Fixed(holds) => return Ok(holds),
            Opening::Texts => return holds_of_texts(here, statement.operand),
            _ => {}
        }
        let found = first_parts(here.text, statement.operand, false)?;
        let [first, second, _] = found.parts;
        let wanted = opening.operands().unwrap_or(0);
        if found.count < wanted {
            let fault = if wanted == 1 {
                Wording::OneOperandOfCondition
            } else {
                Wording::TwoOperandsOfCondition
            };
            return Err(Stop::of(fault, statement.operation));
        }
        match opening {
            Opening::Sign { is_minus } => Ok(
                (self.scope.number(here, first, true)? < 0) == is_minus,
            ),
            Opening::Numbers(order) => {
                let one = self.scope.number(here, first, true)?;
                Ok(order.holds(one, self.scope.number(here, second, true)?))
            }
            _ => self.has_attribute(here, first, second),
        }
    }

    /// Returns whether a symbol or an expression has an attribute: IF DEF,X; a minus before it turns it round.
    fn has_attribute(&self, here: &Here, attribute: Field, operand: Field) -> Outcome<bool> {
        let name = operand.of(here.text);
        let word = attribute.of(here.text);
        let first = word.iter().position(|symbol| *symbol != b'-');
        let has = match word.get(first.unwrap_or(0)..).unwrap_or(b"") {
            b"DEF" => self.scope.symbols.seen(name).is_some(),
            b"SET" => self
                .scope
                .symbols
                .seen(name)
                .is_some_and(|seen| seen.is_set),
            b"MIC" => self.vocabulary.micro_of(name).is_some(),
            b"ABS" => true,
            b"SST" => self
                .scope
                .symbols
                .seen(name)
                .is_some_and(|seen| seen.is_system),
            b"REL" | b"EXT" | b"COM" | b"LCM" | b"REG" => false,
            _ => return Err(Stop::At(attribute.first, Fault::new(Wording::AttributeWanted))),
        };
        Ok(has != (word.first() == Some(&b'-')))
    }
}

fn holds_of_texts(here: &Here, operand: Field) -> Outcome<bool> {
    let texts = texts_of(here, operand)?;
    let holds = match texts.order {
        Order::Equal => texts.one == texts.other,
        Order::NotEqual => texts.one != texts.other,
        order => order.holds(compared(texts.one, texts.other), 0),
    };
    Ok(holds != texts.is_turned)
}
