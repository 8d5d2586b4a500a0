//! The line and the exit status of each trouble.

use pp_actions::SetupFault;
use pp_arguments::ArgFault;
use pp_files::LoadFault;
use pp_lines::{IoFault, Tray};
use pp_trouble::FileKind::{Deck, Panel, Script};
use pp_trouble::*;
use std::alloc::Global;
use std::process::Abort;

/// Returns whether the trouble prints this line, in pieces of five bytes.
fn prints(trouble: &Trouble, line: &str) -> bool {
    let mut tray = Tray::new(5);
    if trouble.put(&mut tray).is_err() {
        return false;
    }
    match tray.text().split_last() {
        Some((last, text)) => *last == b'\n' && text == line.as_bytes(),
        None => false,
    }
}

/// Returns whether a trouble has this line and this exit status.
fn has(alloc: Global, trouble: Trouble, line: &str, status: u8) -> bool {
    match trouble.to_string(alloc) {
        Ok(text) => {
            text.as_str() == line && prints(&trouble, line) && trouble.status() == status
        }
        Err(_) => false,
    }
}

const USAGE: &str =
    "usage: pp6600 [--history N] [--central K] [--deck F] [--reader C] [--printer C] [--panel F] [SCRIPT]";

/// A trouble, and its line.
type Row = (Trouble, &'static str);

/// Checks troubles with one exit status.
fn check(rt: &impl Abort, alloc: Global, status: u8, rows: &[Row]) {
    for i in 0..rows.len() {
        let (trouble, line) = rows[i];
        assert!(rt; has(alloc, trouble, line, status), "{line}");
    }
}

#[test]
fn help_and_faults_before_the_first_line(rt: HostRuntime) {
    check(
        &rt,
        rt.alloc(),
        0,
        &[(Trouble::from(ArgFault::Help), USAGE)],
    );
    let rows = [
        (
            Trouble::from(ArgFault::BadArguments),
            "pp6600: BAD ARGUMENTS",
        ),
        (Trouble::from(ArgFault::BadChannel), "pp6600: BAD CHANNEL"),
        (Trouble::from(ArgFault::NoMemory), "pp6600: NO MEMORY"),
        (
            Trouble::from(SetupFault::SameChannel),
            "pp6600: SAME CHANNEL",
        ),
        (
            Trouble::from(SetupFault::DeckTooLong),
            "pp6600: DECK TOO LONG",
        ),
        (Trouble::from(SetupFault::NoMemory), "pp6600: NO MEMORY"),
        (Trouble::CannotOpen(Deck), "pp6600: CANNOT OPEN DECK"),
        (Trouble::CannotOpen(Panel), "pp6600: CANNOT OPEN PANEL"),
        (Trouble::CannotOpen(Script), "pp6600: CANNOT OPEN SCRIPT"),
    ];
    check(&rt, rt.alloc(), 2, &rows);
}

#[test]
fn faults_of_input_and_output(rt: HostRuntime) {
    let failed = LoadFault::ReadFailed;
    let rows = [
        (Trouble::from(IoFault::ReadFailed), "pp6600: READ FAILED"),
        (Trouble::from(IoFault::WriteFailed), "pp6600: WRITE FAILED"),
        (Trouble::from(IoFault::LineLimit), "pp6600: LINE LIMIT"),
        (Trouble::load(Deck, failed), "pp6600: READ FAILED"),
    ];
    check(&rt, rt.alloc(), 3, &rows);
}

/// A file, its fault, and the line of the trouble.
type FileRow = (FileKind, LoadFault, &'static str);

const FILES: [FileRow; 8] = [
    (Deck, LoadFault::FileTooLong, "pp6600: DECK FILE TOO LONG"),
    (Panel, LoadFault::FileTooLong, "pp6600: PANEL FILE TOO LONG"),
    (
        Deck,
        LoadFault::LineTooLong(1),
        "pp6600: DECK LINE 1 TOO LONG",
    ),
    (
        Deck,
        LoadFault::NotOctal(12),
        "pp6600: DECK LINE 12 NOT OCTAL",
    ),
    (
        Panel,
        LoadFault::TooLarge(3),
        "pp6600: PANEL LINE 3 TOO LARGE",
    ),
    (
        Deck,
        LoadFault::TooManyWords(1_048_576),
        "pp6600: DECK LINE 1048576 TOO MANY WORDS",
    ),
    (Panel, LoadFault::PanelCount, "pp6600: PANEL PANEL COUNT"),
    (Panel, LoadFault::NoMemory, "pp6600: NO MEMORY"),
];

/// Returns whether a fault of a file is a trouble with this line and status 2.
fn file_has(alloc: Global, row: &FileRow) -> bool {
    let (file, fault, line) = *row;
    file != Script && has(alloc, Trouble::load(file, fault), line, 2)
}

#[test]
fn each_fault_of_a_file_names_it(rt: HostRuntime) {
    for i in 0..FILES.len() {
        assert!(rt; file_has(rt.alloc(), &FILES[i]), "row {i}");
    }
}
