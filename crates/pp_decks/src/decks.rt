//! Common decks: texts that XTEXT and *CALL read by their names. A text may also be one of a system, which is assembled before the
//! source.
ghost use Rattle.std.specs.Prelude.{◌≡◌, ◌++◌, ◌∷◌, [], IfOk, map};
ghost use Rattle.std.specs.Char.{to_ascii_uppercase};
ghost use Rattle.pp_decks.specs.Decks.{first_named, is_named, name_of};

use crate::blanks::{is_empty, is_space, tail, without_blanks};
use crate::lines::without_returns;
use crate::spans::Span;
use std::alloc::{AllocError, Global};

/// What is before the name of a system text, in letters of either case. No line names such a deck: a name that it reads has no
/// blank.
const SYSTEM: &[u8; 7] = b"SYSTEM ";

/// A common deck: its name, in letters of either case, and its text. With the word SYSTEM and a blank before its name it is a
/// system text, whose names and macros the source has.
#[derive(Clone, Copy)]
pub struct Text<'a> {
    pub name: &'a [u8],
    pub lines: &'a [u8],
}

/// A common deck, or a system text, whose lines have been read.
#[derive(Drop)]
pub struct Deck {
    /// In capitals, of a system text after the word SYSTEM and a blank.
    pub name: Vec<u8>,
    /// Where its lines are, of all lines.
    pub lines: Span,
}

/// The texts that a source has: the decks that it may read, and system texts.
#[derive(Drop)]
pub struct Decks {
    pub all: Vec<Deck>,
}

impl<'a> Text<'a> {
    /// Returns the name of a system text, or `None` of a common deck.
    pub fn system_name(self) -> Option<&'a [u8]> {
        let (word, name) = self.name.split_at_checked(SYSTEM.len())?;
        (word.eq_ignore_ascii_case(SYSTEM) && !name.is_empty()).then_some(name)
    }
}

impl Deck {
    /// Returns whether it is a system text, which no line can read.
    pub fn is_system(&self) -> bool {
        self.name.len() > SYSTEM.len() && self.name.starts_with(SYSTEM.as_slice())
    }

    /// Returns whether this is the name of the deck, in capitals.
    fn is_named(&self, name: &[u8]) -> bool
        ensures { result ≡ is_named name.now self.now }
    {
        self.name.as_slice() == name
    }
}

impl Decks {
    pub(crate) fn new(alloc: Global) -> Self
        ensures { result.all.items ≡ [] }
    {
        Decks {
            all: Vec::new(alloc),
        }
    }

    /// Returns whether there is no deck that a line may read.
    pub fn is_empty(&self) -> bool {
        self.all.iter().all(|deck| deck.is_system())
    }

    /// Returns the lines of the system text with an index, if it is one.
    pub fn system_text(&self, index: usize) -> Option<Span> {
        let deck = self.all.get(index)?;
        deck.is_system().then_some(deck.lines)
    }

    /// Adds a deck, whose lines are these of all lines.
    pub(crate) fn add(&mut self, alloc: Global, name: &[u8], lines: Span) -> Result<(), AllocError>
        ensures names { IfOk result (λ _. map name_of self.new.all.items ≡
            map name_of self.old.all.items ++ map to_ascii_uppercase name.now ∷ []) }
    {
        let name = name.to_ascii_uppercase(alloc)?;
        Ok(self.all.push(Deck { name, lines })?)
    }

    /// Returns the index of the first deck with a name, in capitals.
    pub fn find(&self, name: &[u8]) -> Option<usize>
        ensures { result ≡ first_named name.now self.now.all.items }
    {
        self.all.iter().position(|deck| deck.is_named(name))
    }
}

/// Returns the lines of a deck that are performed, of all its lines: those up to ENDX, without the first ones that name it in a
/// library.
pub fn up_to_endx<'a>(text: &[u8], spans: &'a [Span]) -> &'a [Span] {
    let mut end = spans.len();
    for (index, span) in spans.iter().enumerate() {
        if is_endx(span.of(text)) {
            end = index.saturating_add(1);
            break;
        }
    }
    spans.get(lines_of_name(text, spans)..end).unwrap_or(&[])
}

/// Returns whether the first word of a line is ENDX.
fn is_endx(line: &[u8]) -> bool {
    let first = line.iter().position(|symbol| !is_space(*symbol));
    match tail(line, first.unwrap_or(line.len())) {
        [
            b'E' | b'e',
            b'N' | b'n',
            b'D' | b'd',
            b'X' | b'x',
            rest @ ..,
        ] => { rest.is_empty() || is_empty(Span::new(0, 1).of(rest)) }
        _ => false,
    }
}

/// Returns how many of the first lines name a deck in a library: a line with a word alone, and then maybe COMMON.
pub fn lines_of_name(text: &[u8], spans: &[Span]) -> usize {
    match spans {
        [name, ..] if !is_word(without_returns(name.of(text))) => 0,
        [_, kind, ..] if matches!(without_returns(kind.of(text)), b"COMMON") => 2,
        [_, ..] => 1,
        [] => 0,
    }
}

/// Returns whether a line has one word alone, which begins with a letter.
fn is_word(line: &[u8]) -> bool {
    let word = without_blanks(line);
    match word {
        [letter, ..] => letter.is_ascii_alphabetic()
            && !word.iter().any(|symbol| is_space(*symbol)),
        [] => false,
    }
}
