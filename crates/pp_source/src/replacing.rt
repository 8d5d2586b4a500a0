//! Lines that are made of others, with what is given for the names in these.
use crate::message::Outcome;
use crate::scan::{cut, find, is_alphanumeric, next_outside};
use crate::vocabulary::{Meaning, Vocabulary};
use pp_decks::Span;
use pp_notation::put_octal;
use std::alloc::AllocError;

/// Returns the first item of a list that is kept, and the others, if there are some.
pub fn split(kept: &[u8], list: Span) -> (Span, Option<Span>) {
    let text = list.of(kept);
    let end = find(text, 0, b',').unwrap_or(text.len());
    let others = (end < text.len()).then_some(list.part(end.saturating_add(1), text.len()));
    (list.part(0, end), others)
}

/// Returns the first item of a list that is kept, without its parentheses, and the others, if there are some. A comma in
/// parentheses is within an item.
pub fn split_nested(kept: &[u8], list: Span) -> (Span, Option<Span>) {
    let text = list.of(kept);
    let end = next_outside(text, 0, b",");
    let others = (end < text.len()).then_some(list.part(end.saturating_add(1), text.len()));
    let item = if is_enclosed(Span::new(0, end).of(text)) {
        list.part(1, end.saturating_sub(1))
    } else {
        list.part(0, end)
    };
    (item, others)
}

/// Returns whether a text is in parentheses: the first one has its end in the last one.
pub fn is_enclosed(text: &[u8]) -> bool {
    matches!(text, [b'(', .., b')']) && next_outside(text, 0, b")").saturating_add(1) >= text.len()
}

/// Adds a text without the _ in it to a line.
fn add_joined(text: &[u8], line: &mut Vec<u8>) -> Result<(), AllocError> {
    for symbol in text {
        if *symbol != b'_' {
            line.push(*symbol)?;
        }
    }
    Ok(())
}

impl Vocabulary {
    /// Gives new names to those of LOCAL.
    pub fn give_locals(&mut self, names: &[u8]) -> Outcome {
        if names.is_empty() {
            return Ok(());
        }
        for name in names.split(|symbol| *symbol == b',') {
            let name = self.keep(name)?;
            let text = self.next_local()?;
            self.values.push(Meaning { name, text })?;
        }
        Ok(())
    }

    /// Makes the next name for LOCAL, and keeps it.
    fn next_local(&mut self) -> Result<Span, AllocError> {
        self.locals = self.locals.saturating_add(1);
        let first = self.text.len();
        self.text.extend_from_slice(b"Z.")?;
        put_octal(&mut self.text, i64::from(self.locals), 4)?;
        Ok(Span::new(first, self.text.len()))
    }

    /// Returns the name before the = of an operand, if the macro has it, and what is given to it.
    pub fn named<'a>(&self, operand: &'a [u8]) -> Option<(Span, &'a [u8])> {
        let (name, Some(value)) = cut(operand, b'=') else {
            return None;
        };
        let own = self.last_named(&self.values, name)?;
        let value = match value {
            [b'(', inner @ .., b')'] if is_enclosed(value) => inner,
            value => value,
        };
        Some((own.name, value))
    }

    /// Gives the next item of each list to its name.
    pub fn give_items(&mut self) -> Result<(), AllocError> {
        self.values.clear();
        for list in &mut self.lists {
            let (text, rest) = split(&self.text, list.text);
            list.text = rest.unwrap_or(Span::new(text.end, text.end));
            let name = list.name;
            self.values.push(Meaning { name, text })?;
        }
        Ok(())
    }

    /// Adds a text to the line that is made, with what is given for its names; a _ between names joins them. The B of 12B is no
    /// name, the A of $A$ is one.
    pub fn replace(&mut self, text: &[u8]) -> Result<(), AllocError> {
        for word in text.chunk_by(|one, next| is_alphanumeric(*one) && is_alphanumeric(*next)) {
            let given = match word {
                [b'A'..=b'Z', ..] => self.meaning(&self.values, word),
                _ => None,
            };
            match given {
                Some(given) => add_joined(given.of(&self.text), &mut self.made)?,
                None => add_joined(word, &mut self.made)?,
            }
        }
        Ok(())
    }

    /// Adds a field to the line that is made, with blanks up to a size, and a blank.
    pub fn replace_padded(&mut self, text: &[u8], size: usize) -> Result<(), AllocError> {
        let end = self.made.len().saturating_add(size);
        self.replace(text)?;
        for _ in self.made.len()..end {
            self.made.push(b' ')?;
        }
        Ok(self.made.push(b' ')?)
    }
}
