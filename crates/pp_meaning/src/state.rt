//! What there is between statements: the counters, symbols and words.
ghost use Rattle.std.specs.Prelude.{◌≡◌, ◌+◌, ◌≤◌, IfOk, IfSome, Some, fold, length, slice_get};
ghost use Rattle.pp_meaning.specs.Meaning.{define, is_symbol, labelled, may_make, store, with_words};
ghost use Rattle.pp_meaning.specs.Standing.{deck_base, place_of, standing};

use crate::expressions::{Base, Place, Symbol, Validity};
use crate::statements::{CELLS, Label, State};
use std::alloc::AllocError;

/// Puts words into the cells from one on, and returns the cell after them.
fn put(memory: &mut [Option<u32>], first: usize, words: &[u32]) -> usize
    requires { first + length words.now ≤ length memory.old }
    ensures stored { (result, memory.new) ≡ fold store (first, memory.old) words.now }
    ensures length { length memory.new ≡ length memory.old }
{
    let mut at = first;
    for word in words {
        memory[at] = Some(*word);
        at += 1;
    }
    at
}

/// Returns whether a statement may make a symbol.
fn may_make(is_system: bool, is_set: bool, validity: Validity) -> bool
    ensures { result ≡ may_make is_system is_set validity }
{
    match validity {
        Validity::Fixed => !is_set,
        Validity::Set => is_set || is_system,
        Validity::Replaced => is_system,
    }
}

/// Returns whether the symbol at an index has this number, and a statement may make it.
fn stands_for(symbols: &[Symbol], index: usize, is_system: bool, is_set: bool, number: i64) -> bool
    ensures { result ≡ is_symbol is_system is_set number (slice_get symbols.now index) }
{
    match symbols.get(index) {
        Some(symbol) => symbol.value == number && may_make(is_system, is_set, symbol.validity),
        None => false,
    }
}

/// Returns the base of the numbers of a deck.
fn base_of_deck(base: Option<Base>) -> Base
    ensures { result ≡ deck_base base }
{
    match base {
        Some(base) => base,
        None => Base::Decimal,
    }
}

impl State {
    /// Returns where the next statement is.
    pub(crate) fn place(&self) -> Place
        ensures { result ≡ place_of (standing self.now) }
    {
        Place {
            location: self.location,
            origin: self.origin,
            base: if self.is_deck {
                Some(base_of_deck(self.base))
            } else {
                self.base
            },
            defined: self.defined,
            is_system: self.is_system,
        }
    }

    /// Defines a symbol. Returns `None` if it is not the next one with this number.
    pub(crate) fn define(
        &mut self,
        symbols: &[Symbol],
        index: usize,
        is_set: bool,
        number: i64,
    ) -> Option<()>
        ensures { IfSome result (λ done. define symbols.now is_set (standing self.old) index (Some number) ≡ Some
            (standing self.new)) }
    {
        if index != self.defined
            || index >= symbols.len()
            || !stands_for(symbols, index, self.is_system, is_set, number)
        {
            return None;
        }
        self.defined = index + 1;
        Some(())
    }

    /// Gives a label the location.
    pub(crate) fn label(&mut self, symbols: &[Symbol], label: Label) -> Option<()>
        ensures { IfSome result (λ done. labelled symbols.now (standing self.old) label ≡ Some (standing self.new)) }
    {
        match label {
            Label::Named(index) => {
                let location = i64::try_from(self.location).ok()?;
                self.define(symbols, index, false, location)
            }
            _ => Some(()),
        }
    }

    /// Puts words into the cells from the origin on.
    pub(crate) fn put_words(&mut self, words: &[u32]) -> Result<Option<()>, AllocError>
        ensures { IfOk result (λ made. IfSome made (λ done. with_words (standing self.old) (Some words.now) ≡ Some
            (standing self.new))) }
    {
        if words.is_empty() {
            return Ok(Some(()));
        }
        let Some(location) = self.location.checked_add(words.len()) else {
            return Ok(None);
        };
        if words.len() > CELLS.saturating_sub(self.origin)
            || self.memory.len() < CELLS
            || self.origin > CELLS
        {
            return Ok(None);
        }
        self.words.extend_from_slice(words)?;
        self.origin = put(&mut self.memory, self.origin, words);
        self.location = location;
        self.used = 0;
        Ok(Some(()))
    }
}
