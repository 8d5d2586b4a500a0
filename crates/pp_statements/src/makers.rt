//! The directives that make words.
use crate::directives::the_only;
use crate::encoding::{bits_of, index_of};
use crate::scope::{OpenWord, Scope};
use crate::values::Base;
use pp_decks::tail;
use pp_source::{
    DisplayText, Fault, Field, Here, Operation, Outcome, Statement, Stop, Wording, are_in_code,
    before_mark, digits_of, find, text_at,
};

const WORD_BITS: u32 = 12;

const MOST_BITS: u32 = 60;

/// How many words DIS has at most.
const LAST: u32 = 0o7777;

impl Scope {
    /// Adds the words of a directive.
    pub fn make(
        &mut self,
        here: &Here,
        statement: Statement,
        operation: Operation,
        words: &mut Vec<u16>,
    ) -> Outcome {
        match operation {
            Operation::Expressions => self.expressions(here, statement, words),
            Operation::Data => self.data(here, statement, words),
            Operation::Bits => self.bits(here, statement, words),
            Operation::Position => self.position(here, statement, words),
            Operation::Text => self.text(here, statement, words),
            Operation::Zeros => self.zeros(here, statement, words),
            _ => Err(self.why_not(here, statement, operation)),
        }
    }

    /// CON has expressions; nothing between two commas is zero.
    fn expressions(&mut self, here: &Here, statement: Statement, words: &mut Vec<u16>) -> Outcome {
        for item in &self.items(here, statement, false)? {
            let word = match item.is_empty() && item.end < statement.operand.end {
                true => 0,
                false => self.field(here, *item, WORD_BITS, None)?,
            };
            words.push(bits_of(word, 0o7777))?;
        }
        Ok(())
    }

    /// BSSZ has words of zero.
    fn zeros(&mut self, here: &Here, statement: Statement, words: &mut Vec<u16>) -> Outcome {
        let count = self.count_of(here, statement, 0)?;
        put_zeros(words, usize::try_from(count).unwrap_or(0))
    }

    /// DATA has numbers and texts.
    pub fn data(&mut self, here: &Here, statement: Statement, words: &mut Vec<u16>) -> Outcome {
        for item in &self.items(here, statement, true)? {
            if let Err(stop) = self.datum(here, *item, words) {
                self.report_stop(here, stop)?;
                words.push(0)?;
            }
        }
        Ok(())
    }

    /// Adds the words of a number or a text.
    pub fn datum(&mut self, here: &Here, item: Field, words: &mut Vec<u16>) -> Outcome {
        let text = item.of(here.text);
        let Some(found) = text_at(text, 0, true)? else {
            if !is_number(text) {
                let fault = Fault::new(Wording::NoNumberOrText);
                return Err(fault.part_or_nothing(item).at(item.first));
            }
            let number = self.number_field(here, item, WORD_BITS);
            let word = self.reported(here, number, 0)?;
            return Ok(words.push(bits_of(word, 0o7777))?);
        };
        if found.end != text.len() {
            let rest = item.part(found.end, text.len());
            return Err(Stop::of(Wording::FollowsText, rest));
        }
        are_in_code(found.symbols, item.first)?;
        put_text(words, found)
    }

    /// DIS n,text has n words of a text; DIS ,*text* ends in a word of zero.
    fn text(&mut self, here: &Here, statement: Statement, words: &mut Vec<u16>) -> Outcome {
        let (column, text) = text_of(here.text, statement.operand)?;
        match are_in_code(text.symbols, column) {
            Ok(()) => put_text(words, text),
            Err(stop) => {
                self.report_stop(here, stop)?;
                put_zeros(words, text.size_in_words() / 2)
            }
        }
    }

    /// VFD has fields of bits. One without a label goes on in the word that the one before has not filled.
    fn bits(&mut self, here: &Here, statement: Statement, words: &mut Vec<u16>) -> Outcome {
        let items = self.items(here, statement, false)?;
        let before = self.used_before(here, statement);
        let mut used = before;
        for item in &items {
            match self.bits_field(here, *item, used) {
                Ok((size, number)) => used = add_bits(words, used, size, number)?,
                Err(stop) => self.report_stop(here, stop)?,
            }
        }
        self.end_bits(words, used, before < WORD_BITS);
        Ok(())
    }

    /// POS n puts zeros into the word that VFD has not filled, or into a new one, up to its last n bits.
    fn position(&mut self, here: &Here, statement: Statement, words: &mut Vec<u16>) -> Outcome {
        let operand = the_only(here, statement)?;
        let left = self.decimal_number(here, operand)?;
        let used = self.used_before(here, statement);
        let before = bits_left(used);
        if left < 0 || left > i64::from(before) {
            let fault = Fault::new(Wording::PositionWanted).decimal(before);
            return Err(fault.part(operand).at(operand.first));
        }
        let size = match u32::try_from(left).unwrap_or(0) {
            0 if before == WORD_BITS => 0,
            left => before.saturating_sub(left),
        };
        let last = add_bits(words, used, size, 0)?;
        self.end_bits(words, last, used < WORD_BITS);
        Ok(())
    }

    /// Returns how many bits are used of the word that the VFD before has not filled, if a statement goes on in it; else all.
    fn used_before(&self, here: &Here, statement: Statement) -> u32 {
        let is_plain = matches!(statement.location.of(here.text), b"" | b"-");
        match self.counters.open {
            Some(word) if is_plain && word.cell == self.counters.origin.wrapping_sub(1) =>
                word.used,
            _ => WORD_BITS,
        }
    }

    /// Leaves the words that are new, and keeps how many bits of the last one are used. The first bits may be of the word before.
    fn end_bits(&mut self, words: &mut Vec<u16>, used: u32, is_open: bool) {
        if words.is_empty() {
            return;
        }
        if is_open {
            self.fill_last(words.remove(0));
        }
        let count = i64::try_from(words.len()).unwrap_or(0);
        let cell = self.counters.origin.wrapping_add(count).wrapping_sub(1);
        self.counters.open = Some(OpenWord { cell, used });
    }

    /// Returns the size, decimal, and the number of a field; the one without an expression is zero.
    fn bits_field(&mut self, here: &Here, item: Field, used: u32) -> Outcome<(u32, u64)> {
        let text = item.of(here.text);
        let wrong = Fault::new(Wording::NoNumberOfBits).part_or_nothing(item);
        let wrong = wrong.at(item.first);
        let end = end_of_size(text).ok_or(wrong)?;
        let size = self.bits_wanted(here, item.part(0, end), used)?;
        let size = u32::try_from(size).unwrap_or(0);
        if size == 0 || size > MOST_BITS {
            return Err(wrong);
        }
        let expression = item.part(end.saturating_add(1), text.len());
        if expression.is_empty() {
            return Ok((size, 0));
        }
        Ok((size, self.field(here, expression, size, None)?))
    }

    /// Returns how many bits an expression says; *P is those that fill the word, of which so many are used.
    fn bits_wanted(&mut self, here: &Here, size: Field, used: u32) -> Outcome<i64> {
        let left = i64::from(bits_left(used));
        let text = size.of(here.text);
        match text {
            [b'*', b'P'] => Ok(left),
            [b'*', b'P', b'+' | b'-', ..] => {
                let more = self.decimal_number(here, size.part(2, text.len()))?;
                Ok(left.saturating_add(more))
            }
            _ => self.decimal_number(here, size),
        }
    }

    /// Returns a number of names from above, whose digits are decimal.
    fn decimal_number(&mut self, here: &Here, operand: Field) -> Outcome<i64> {
        let base = self.counters.base;
        self.counters.base = Some(Base::Decimal);
        let number = self.number(here, operand, true);
        self.counters.base = base;
        number
    }

    /// Puts bits into the last word, which was not full.
    fn fill_last(&mut self, bits: u16) {
        let before = index_of(self.counters.origin.wrapping_sub(1));
        if let Some(slot) = self.output.cells.get_mut(before)
            && slot.line != 0
        {
            slot.word |= bits;
        }
        if let Some(last) = self.output.words.last_mut() {
            *last |= bits;
        }
    }
}

/// Returns how many bits a word has after those that are used; those of a new one if it is full.
fn bits_left(used: u32) -> u32 {
    match WORD_BITS.saturating_sub(used) {
        0 => WORD_BITS,
        left => left,
    }
}

/// Returns the column of the / after the size of a field, which may be a name with its qualifier.
pub fn end_of_size(field: &[u8]) -> Option<usize> {
    let first = match field {
        [b'/', ..] => find(field, 1, b'/')?.saturating_add(1),
        _ => 0,
    };
    find(field, first, b'/')
}

/// Adds the bits of a field, the upper ones first, and returns how many bits of the last word are then used.
fn add_bits(words: &mut Vec<u16>, used: u32, size: u32, number: u64) -> Outcome<u32> {
    let mut used = used;
    for bit in 0..size {
        if words.is_empty() || used >= WORD_BITS {
            words.push(0)?;
            used %= WORD_BITS;
        }
        used = used.saturating_add(1);
        let below = size.wrapping_sub(bit).wrapping_sub(1);
        let one = bits_of(number.wrapping_shr(below), 1);
        if let Some(last) = words.last_mut() {
            *last |= one.wrapping_shl(WORD_BITS.wrapping_sub(used));
        }
    }
    Ok(used)
}

/// Returns the text of DIS and its column.
fn text_of(line: &[u8], operand: Field) -> Outcome<(usize, DisplayText<'_>)> {
    let text = operand.of(line);
    let (digits, count) = digits_of(text, 4);
    if text.get(digits) != Some(&b',') || count > LAST {
        return Err(Fault::new(Wording::TextOfWordsWanted).at(operand.first));
    }
    let before = digits.saturating_add(1);
    let column = operand.first.saturating_add(before);
    let rest = tail(text, before);
    if digits > 0 {
        let size = (count as usize).saturating_mul(2);
        let symbols = rest.get(..size).unwrap_or(rest);
        return Ok((column, DisplayText::new(b'H', symbols, size, 0)));
    }
    let mark = rest.first().copied().unwrap_or(b'*');
    let symbols = before_mark(tail(rest, 1), mark, column)?;
    Ok((column, DisplayText::new(b'C', symbols, symbols.len(), 0)))
}

/// Adds words of zero.
fn put_zeros(words: &mut Vec<u16>, count: usize) -> Outcome {
    for _ in 0..count {
        words.push(0)?;
    }
    Ok(())
}

/// Adds the words of a text, two symbols each.
fn put_text(words: &mut Vec<u16>, text: DisplayText) -> Outcome {
    let size = text.size_in_words();
    for word in 0..size / 2 {
        let at = word.saturating_mul(2);
        let upper = u16::from(text.code(at, size)).wrapping_mul(0o100);
        let lower = u16::from(text.code(at.saturating_add(1), size));
        words.push((upper | lower) & 0o7777)?;
    }
    Ok(())
}

/// Returns whether a text is a number of DATA: a sign, digits and a letter.
fn is_number(text: &[u8]) -> bool {
    let digits = match text {
        [b'+' | b'-', rest @ ..] => rest,
        digits => digits,
    };
    let digits = match digits {
        [rest @ .., b'B' | b'D' | b'O'] => rest,
        digits => digits,
    };
    let (count, _) = digits_of(digits, digits.len());
    count > 0 && count == digits.len()
}
