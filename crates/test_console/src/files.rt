//! Tests of decks and panels, and of their faults.
ghost use Rattle.std.specs.Prelude.{◌<◌};

use crate::rows::check_rows;
use pp_files::{LoadFault, load_deck, load_panel};
use pp_lines::{Endless, Feed, Log, Source};
use std::alloc::{AllocError, Global};

/// Returns whether a deck file has this fault, or none.
fn deck_has(alloc: Global, bytes: &[u8], wanted: Option<LoadFault>) -> bool {
    load_deck(alloc, &mut Feed::new(bytes, 4096)).err() == wanted
}

/// Returns whether a panel file has this fault, or none.
fn panel_has(bytes: &[u8], wanted: Option<LoadFault>) -> bool {
    load_panel(&mut Feed::new(bytes, 4096)).err() == wanted
}

/// Returns whether a source is a deck of as many cards.
fn has_cards(alloc: Global, source: &mut Feed, cards: usize) -> bool {
    match load_deck(alloc, source) {
        Ok(deck) => deck.len() == cards,
        Err(_) => false,
    }
}

/// Returns whether loading a deck from a source fails for this reason.
fn fails<S: Source>(alloc: Global, source: &mut S, wanted: LoadFault) -> bool {
    match load_deck(alloc, source) {
        Ok(_) => false,
        Err(fault) => fault == wanted,
    }
}

/// A file: a text repeated a number of times, between a beginning and an end.
struct LongFile(&'static str, &'static str, usize, &'static str);

/// Returns the text of a file.
fn text_of(alloc: Global, file: &LongFile) -> Result<String, AllocError> {
    let LongFile(beginning, text, times, end) = *file;
    let mut all = String::from_str(alloc, beginning)?;
    for _ in 0..times {
        all.push_str(text)?;
    }
    all.push_str(end)?;
    Ok(all)
}

/// Returns whether a deck has this fault, or none.
fn long_deck_has(alloc: Global, file: &LongFile, fault: Option<LoadFault>) -> bool {
    match text_of(alloc, file) {
        Ok(text) => deck_has(alloc, text.as_bytes(), fault),
        Err(_) => false,
    }
}

/// Returns whether a panel has this fault, or none.
fn long_panel_has(alloc: Global, file: &LongFile, fault: Option<LoadFault>) -> bool {
    match text_of(alloc, file) {
        Ok(text) => panel_has(text.as_bytes(), fault),
        Err(_) => false,
    }
}

/// Returns whether a file is a deck of as many cards.
fn long_deck_has_cards(alloc: Global, file: &LongFile, cards: usize) -> bool {
    match text_of(alloc, file) {
        Ok(text) => has_cards(alloc, &mut Feed::new(text.as_bytes(), 4096), cards),
        Err(_) => false,
    }
}

/// Returns whether a file is a deck of the one card `1 2 3`.
fn has_one_card(alloc: Global, file: &[u8], piece: usize) -> bool
    requires { 0 < piece }
{
    let mut card = [0; 80];
    card[0] = 1;
    card[1] = 2;
    card[2] = 3;
    match load_deck(alloc, &mut Feed::new(file, piece)) {
        Ok(deck) => deck.len() == 1 && deck[0] == card,
        Err(_) => false,
    }
}

/// Returns whether a file is a deck of two cards, which begin with `1 2 0` and `7777`.
fn has_two_cards(alloc: Global, file: &[u8], piece: usize) -> bool
    requires { 0 < piece }
{
    match load_deck(alloc, &mut Feed::new(file, piece)) {
        Ok(deck) => {
            deck.len() == 2
                && deck[0][0] == 1
                && deck[0][1] == 2
                && deck[0][2] == 0
                && deck[1][0] == 0o7777
        }
        Err(_) => false,
    }
}

#[test]
fn skipped_lines_returns_and_tabs(rt: HostRuntime) {
    let file = b"* two cards\r\n\n \t\r\n 1\t02 \r\n\t* 9\n0007777\r";
    for piece in 1..40 {
        assert!(rt;
            has_two_cards(rt.alloc(), file, piece),
            "in pieces of {piece}"
        );
    }
}

/// A card is a line of words.
#[test]
fn decks(rt: HostRuntime) {
    let alloc = rt.alloc();
    let rows = [
        has_one_card(alloc, b"1 2 3", 1),
        has_one_card(alloc, b"1 2 3", 2),
        has_one_card(alloc, b"1 2 3", 3),
        has_one_card(alloc, b"1 2 3", 4096),
        has_cards(alloc, &mut Feed::new(b"", 1), 0),
        long_deck_has_cards(alloc, &LongFile("", "0\n", 2001, ""), 2001),
        long_deck_has_cards(alloc, &LongFile("", "\n", 1_048_576, ""), 0),
    ];
    check_rows(&rt, &rows);
}

#[test]
fn damaged_decks(rt: HostRuntime) {
    let alloc = rt.alloc();
    let rows = [
        deck_has(alloc, b"1 10000", Some(LoadFault::TooLarge(1))),
        deck_has(alloc, b"1 10000 8", Some(LoadFault::NotOctal(1))),
        deck_has(alloc, b"* deck\n1 8", Some(LoadFault::NotOctal(2))),
        deck_has(alloc, b"1\n\xc3\n", Some(LoadFault::NotOctal(2))),
        deck_has(alloc, b"* \xc3\n", None),
        deck_has(alloc, b"1\r2\n", Some(LoadFault::NotOctal(1))),
        deck_has(alloc, b"8\n10000\n", Some(LoadFault::NotOctal(1))),
    ];
    check_rows(&rt, &rows);
}

const EIGHTY: LongFile = LongFile("", "1 ", 80, "\n");

const EIGHTY_ONE: LongFile = LongFile("", "1 ", 81, "\n8\n");

const LAST_TOO_LARGE: LongFile = LongFile("", "1 ", 80, "10000");

const NOTE_AND_81: LongFile = LongFile("* eighty-one words\n", "1 ", 81, "");

const BLANKS: LongFile = LongFile("", " ", 1022, "1\r\n");

const ONE_BLANK_MORE: LongFile = LongFile("", " ", 1023, "1");

const STARS: LongFile = LongFile("", "*", 1023, "\r\r\n");

const TOO_MANY_LINES: LongFile = LongFile("", "\n", 1_048_577, "");

/// Decks of many words, of long lines, and of too many lines.
#[test]
fn long_files(rt: HostRuntime) {
    let alloc = rt.alloc();
    let rows = [
        long_deck_has(alloc, &EIGHTY, None),
        long_deck_has(alloc, &EIGHTY_ONE, Some(LoadFault::TooManyWords(1))),
        long_deck_has(alloc, &LAST_TOO_LARGE, Some(LoadFault::TooLarge(1))),
        long_deck_has(alloc, &NOTE_AND_81, Some(LoadFault::TooManyWords(2))),
        long_deck_has(alloc, &BLANKS, None),
        long_deck_has(alloc, &ONE_BLANK_MORE, Some(LoadFault::LineTooLong(1))),
        long_deck_has(alloc, &STARS, Some(LoadFault::LineTooLong(1))),
        long_deck_has(alloc, &TOO_MANY_LINES, Some(LoadFault::FileTooLong)),
    ];
    check_rows(&rt, &rows);
}

/// A source that always reads this byte.
fn endless(byte: u8) -> Endless {
    Endless {
        byte,
        log: Log::new(),
    }
}

/// Returns whether a file is this panel.
fn is_panel(file: &[u8], piece: usize) -> bool
    requires { 0 < piece }
{
    let panel = [0o1405, 0o3420, 0o300, 0, 0, 0, 0, 0, 0, 0, 0, 0];
    load_panel(&mut Feed::new(file, piece)) == Ok(panel)
}

const PANEL: &[u8] = b"1405 3420 300 0 0 0\n* half\n0 0 0 0 0 0";

const WORDS_81: LongFile = LongFile("", "1 ", 81, "");

#[test]
fn panels(rt: HostRuntime) {
    let alloc = rt.alloc();
    let rows = [
        is_panel(PANEL, 1),
        is_panel(PANEL, 7),
        is_panel(PANEL, 4096),
        panel_has(b"", Some(LoadFault::PanelCount)),
        panel_has(b"1 2 3 4 5 6 7 1 2 3 4", Some(LoadFault::PanelCount)),
        panel_has(b"0 0 0 0 0 0 0 0 0 0 0 0\n8", Some(LoadFault::NotOctal(2))),
        panel_has(
            b"0 0 0 0 0 0 0 0 0 0 0 0\n1\n8",
            Some(LoadFault::PanelCount),
        ),
        panel_has(b"0 0 0 0 0 0 0 0 0 0 0 0 1 8", Some(LoadFault::NotOctal(1))),
        panel_has(
            b"0 0 0 0 0 0 0 0 0 0 0 0 1 10000",
            Some(LoadFault::TooLarge(1)),
        ),
        long_panel_has(alloc, &WORDS_81, Some(LoadFault::PanelCount)),
        long_panel_has(alloc, &STARS, Some(LoadFault::LineTooLong(1))),
    ];
    check_rows(&rt, &rows);
}

/// Returns whether loading a deck of two lines fails if the source fails at this call.
fn fails_at(alloc: Global, piece: usize, call: u64) -> bool
    requires { 0 < piece }
{
    let mut source = Feed::failing(b"1\n2\n", piece, call);
    fails(alloc, &mut source, LoadFault::ReadFailed) && source.failures() == 1
}

/// Returns whether a source that would fail after its end is a deck.
fn would_fail_later(alloc: Global) -> bool {
    let mut source = Feed::failing(b"1\n2\n", 1, 6);
    has_cards(alloc, &mut source, 2) && source.failures() == 0
}

/// Returns whether a panel of a damaged line whose source fails at this call has this fault.
fn failing_panel_has(call: u64, fault: LoadFault) -> bool {
    load_panel(&mut Feed::failing(b"8\n1", 1, call)).err() == Some(fault)
}

/// Returns whether loading a deck of a long line fails at the second call of its source, and else for the line.
fn fails_before_a_long_line(alloc: Global) -> bool {
    match text_of(alloc, &LongFile("", "1", 2000, "")) {
        Ok(text) => {
            let mut source = Feed::failing(text.as_bytes(), 4096, 2);
            fails(alloc, &mut source, LoadFault::ReadFailed)
                && deck_has(alloc, text.as_bytes(), Some(LoadFault::LineTooLong(1)))
        }
        Err(_) => false,
    }
}

#[test]
fn sources_that_fail(rt: HostRuntime) {
    let alloc = rt.alloc();
    let rows = [
        // Two lines in pieces of one byte are five calls, the last one at the end.
        fails_at(alloc, 1, 1),
        fails_at(alloc, 1, 2),
        fails_at(alloc, 1, 3),
        fails_at(alloc, 1, 4),
        fails_at(alloc, 1, 5),
        would_fail_later(alloc),
        fails_at(alloc, 4096, 1),
        fails_at(alloc, 4096, 2),
        // A line with a fault is reported if the failure comes after it.
        failing_panel_has(3, LoadFault::NotOctal(1)),
        failing_panel_has(2, LoadFault::ReadFailed),
        fails_before_a_long_line(alloc),
        // Files without end.
        fails(alloc, &mut endless(b'1'), LoadFault::FileTooLong),
        load_panel(&mut endless(b'\n')).err() == Some(LoadFault::FileTooLong),
    ];
    check_rows(&rt, &rows);
}

fn is_text(alloc: Global, fault: LoadFault, text: &str) -> bool {
    match format!(in alloc; "{fault}") {
        Ok(found) => found.as_str() == text,
        Err(_) => false,
    }
}

#[test]
fn texts_of_faults(rt: HostRuntime) {
    let alloc = rt.alloc();
    let rows = [
        is_text(alloc, LoadFault::NoMemory, "NO MEMORY"),
        is_text(alloc, LoadFault::ReadFailed, "READ FAILED"),
        is_text(alloc, LoadFault::FileTooLong, "FILE TOO LONG"),
        is_text(alloc, LoadFault::LineTooLong(1), "LINE 1 TOO LONG"),
        is_text(alloc, LoadFault::NotOctal(2), "LINE 2 NOT OCTAL"),
        is_text(alloc, LoadFault::TooLarge(10), "LINE 10 TOO LARGE"),
        is_text(alloc, LoadFault::TooManyWords(80), "LINE 80 TOO MANY WORDS"),
        is_text(alloc, LoadFault::PanelCount, "PANEL COUNT"),
    ];
    check_rows(&rt, &rows);
}
