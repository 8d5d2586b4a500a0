//! What a host in memory has: its words, its files and its counts.

use crate::rows::check_rows;
use crate::words::words_of as words;
use pp_files::LoadFault;
use pp_host::*;
use pp_trouble::{FileKind, Trouble};
use std::alloc::Global;
use std::env::{self, FillError};
use std::rt::Env;
use std::test::Fail;

const FILES: [StoredFile<'static>; 4] = [
    StoredFile {
        path: "cards",
        bytes: b"1 2 3\n4\n",
        failing: None,
    },
    StoredFile {
        path: "bad",
        bytes: b"* note\n1 2 8\n",
        failing: None,
    },
    StoredFile {
        path: "panel",
        bytes: b"1\n2\n3\n4\n5\n6\n7\n10\n11\n12\n13\n7777\n",
        failing: None,
    },
    StoredFile {
        path: "torn",
        bytes: b"1 2 3\n",
        failing: Some(1),
    },
];

/// Returns a host with these words over the files above.
fn host(words: Result<Vec<String>, WordsFault>) -> System<Memory<'static>> {
    System::new(words, Memory::new(&FILES))
}

/// Returns whether a host's words are rejected for this reason, and no file is asked for.
fn rejects(alloc: Global, words: Result<Vec<String>, WordsFault>, trouble: Trouble) -> bool {
    let mut system = host(words);
    options_of(alloc, &mut system).err() == Some(trouble)
        && system.files.asked == 0
        && system.failures == 0
}

/// Returns whether the words of a line are rejected for this reason.
fn rejects_line(alloc: Global, line: &str, trouble: Trouble) -> bool {
    match words(alloc, line) {
        Ok(words) => rejects(alloc, Ok(words), trouble),
        Err(_) => false,
    }
}

#[test]
fn words_ask_for_options(rt: HostRuntime) -> Result<(), Fail> {
    let alloc = rt.alloc();
    let mut system = host(Ok(words(alloc, "pp6600 --history 7 --deck cards lines")?));
    let options = options_of(alloc, &mut system)?;
    let rows = [
        options.history == 7,
        options.panel.is_none(),
        options.script.is_some(),
    ];
    check_rows(&rt, &rows);
    assert!(rt; deck(alloc, &mut system, &options.deck)?.len() == 2);
    assert!(rt; system.files.asked == 1);
    Ok(())
}

#[test]
fn rejected_words_are_a_trouble(rt: HostRuntime) {
    let alloc = rt.alloc();
    let rows = [
        rejects_line(alloc, "pp6600 --history 0", Trouble::BadArguments),
        rejects_line(alloc, "pp6600 --reader 14", Trouble::BadChannel),
        rejects_line(alloc, "pp6600 --help", Trouble::Help),
        rejects(alloc, Err(WordsFault::NotText), Trouble::BadArguments),
        rejects(alloc, Err(WordsFault::NoMemory), Trouble::NoMemory),
    ];
    check_rows(&rt, &rows);
}

/// Returns whether no deck is named, and none is loaded.
fn loads_no_deck(alloc: Global) -> bool {
    let mut system = host(Ok(Vec::new(alloc)));
    let is_empty = match deck(alloc, &mut system, &None) {
        Ok(cards) => cards.is_empty(),
        Err(_) => false,
    };
    is_empty && system.files.asked == 0
}

/// Returns whether these are the cards of the file `cards`.
fn are_the_cards(cards: &[[u16; 80]]) -> bool {
    cards.len() == 2 && cards[0][2] == 3 && cards[1][0] == 4 && cards[1][1] == 0
}

/// Returns whether a deck is loaded from the file `cards`, once.
fn loads_a_deck(alloc: Global) -> bool {
    let mut system = host(Ok(Vec::new(alloc)));
    let path = String::from_str(alloc, "cards").ok();
    let is_loaded = match deck(alloc, &mut system, &path) {
        Ok(cards) => are_the_cards(&cards),
        Err(_) => false,
    };
    is_loaded && system.files.asked == 1 && system.failures == 0
}

/// Returns whether no panel is named, and none is loaded.
fn loads_no_panel(alloc: Global) -> bool {
    panel(&mut host(Ok(Vec::new(alloc))), &None) == Ok(None)
}

fn loads_a_panel(alloc: Global) -> bool {
    let path = String::from_str(alloc, "panel").ok();
    let loaded = panel(&mut host(Ok(Vec::new(alloc))), &path);
    loaded == Ok(Some([1, 2, 3, 4, 5, 6, 7, 8, 9, 10, 11, 4095]))
}

/// Returns whether a deck is not loaded for this reason, after so many failed reads.
fn fails(alloc: Global, path: &str, trouble: Trouble, failures: u64) -> bool {
    let mut system = host(Ok(Vec::new(alloc)));
    let path = String::from_str(alloc, path).ok();
    deck(alloc, &mut system, &path).err() == Some(trouble)
        && system.files.asked == 1
        && system.failures == failures
}

#[test]
fn decks_and_panels(rt: HostRuntime) {
    let alloc = rt.alloc();
    let octal = Trouble::load(FileKind::Deck, LoadFault::NotOctal(2));
    let rows = [
        loads_no_deck(alloc),
        loads_a_deck(alloc),
        loads_no_panel(alloc),
        loads_a_panel(alloc),
        fails(alloc, "none", Trouble::CannotOpen(FileKind::Deck), 0),
        fails(alloc, "bad", octal, 0),
        fails(alloc, "torn", Trouble::ReadFailed, 1),
    ];
    check_rows(&rt, &rows);
}

/// An environment whose program was called by a name that is no text, and with these words.
#[derive(Drop)]
struct Nameless<'a> {
    words: &'a [&'a [u8]],
}

impl Env for Nameless<'_> {
    fn arg(&self, i: usize, buf: &mut [u8]) -> Result<usize, FillError> {
        let Some(word) = self.words.get(i) else {
            return Err(FillError::NotPresent);
        };
        if buf.len() < word.len() {
            return Err(FillError::TooLong);
        }
        buf[..word.len()].copy_from_slice(word);
        Ok(word.len())
    }

    fn var(&self, _name: &str, _buf: &mut [u8]) -> Result<usize, FillError> {
        Err(FillError::NotPresent)
    }

    fn var_at(&self, _i: usize, _buf: &mut [u8]) -> Result<usize, FillError> {
        Err(FillError::NotPresent)
    }
}

/// Returns the words of a program that was called with these.
fn called(alloc: Global, words: &[&[u8]]) -> Result<Vec<String>, WordsFault> {
    let environment = Named {
        environment: Nameless { words },
    };
    words_of(alloc, env::args(&(environment, alloc)))
}

/// Returns whether a program that was called with these words has its own name and the word `-h`.
fn has_its_name(alloc: Global, given: &[&[u8]]) -> bool {
    match called(alloc, given) {
        Ok(words) => words.len() == 2 && words[0].as_str() == "pp6600" && words[1].as_str() == "-h",
        Err(_) => false,
    }
}

/// Returns whether a program that was called with no words has its name alone.
fn has_its_name_alone(alloc: Global) -> bool {
    match called(alloc, &[]) {
        Ok(words) => words.len() == 1,
        Err(_) => false,
    }
}

#[test]
fn the_name_of_a_program_is_its_own(rt: HostRuntime) {
    let alloc = rt.alloc();
    let rows = [
        has_its_name(alloc, &[b"\xff/pp6600", b"-h"]),
        has_its_name(alloc, &[b"", b"-h"]),
        has_its_name(alloc, &[b"pp6600", b"-h"]),
        has_its_name_alone(alloc),
        called(alloc, &[b"pp6600", b"\xff"]) == Err(WordsFault::NotText),
    ];
    check_rows(&rt, &rows);
}
