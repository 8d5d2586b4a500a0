//! Lines, and why they are rejected.
use crate::rows::check_rows;
use pp_command::*;
use std::process::Abort;

/// Returns why a line is rejected, if it is.
fn fault_of(line: &[u8]) -> Option<LineFault> {
    parse(line).err()
}

/// Returns whether a line is rejected for this reason.
fn is_rejected(line: &[u8], fault: LineFault) -> bool {
    fault_of(line) == Some(fault)
}

/// Checks that each line is rejected for this reason.
fn rejects(rt: &impl Abort, fault: LineFault, lines: &[&[u8]]) {
    for line in lines {
        assert!(rt; is_rejected(line, fault));
    }
}

/// Returns whether a line is ignored.
fn is_ignored(line: &[u8]) -> bool {
    matches!(parse(line), Ok(None))
}

/// Returns whether a line is a command.
fn is_command(line: &[u8]) -> bool {
    matches!(parse(line), Ok(Some(_)))
}

/// Why lines are rejected, and the lines.
const REJECTED: [(LineFault, &[&[u8]]); 5] = [
    // Words that name nothing.
    (
        LineFault::NotACommand,
        &[
            b"GO",
            b"SET Z",
            b"DUMP Z 1",
            b"WATCH X 0",
            b"UNWATCH PP 0",
            b"SET H 3 Z 1 2",
        ],
    ),
    // Too few words, and too many.
    (
        LineFault::WordCount,
        &[
            b"SET",
            b"SET H 3",
            b"SET H 3 E 1 2",
            b"SET M 0 100",
            b"SET M 0 100 1 2 3 4 5 6 7 0 1",
            b"SET A 0",
            b"WATCH",
            b"WATCH M 0",
            b"DUMP",
            b"DUMP H 1",
            b"DUMP M 0 1",
            b"DEADSTART 0",
            b"BACK W 1",
            b"STEP 1 2",
        ],
    ),
    // Words that are no numbers, before any range.
    (
        LineFault::NotANumber,
        &[
            b"SET M 0 8 1",
            b"SET M 0 10000 8",
            b"SET M 0 10000 1 2 9",
            b"SET Q 12 x",
            b"DUMP M 12 1 8",
            b"BACK X",
            b"FORWARD W",
            b"STEP -1",
        ],
    ),
    // Numbers out of range.
    (
        LineFault::OutOfRange,
        &[
            b"SET M 12 0 1",
            b"SET M 0 10000 1",
            b"SET M 0 0 10000",
            b"SET A 0 1000000",
            b"SET P 0 10000",
            b"SET Q 0 10000",
            b"SET C 400000 0",
            b"SET C 0 100000000000000000000",
            b"SET H 14 I",
            b"SET H 3 I 10000",
            b"STEP 0",
            b"STEP 1000001",
            b"BACK 1000001",
            b"FORWARD 1000001",
            b"WATCH H 15",
            b"WATCH C 400000",
            b"DUMP M 0 2 1",
            b"DUMP C 2 1",
            b"DUMP PP 12",
        ],
    ),
    // Bytes that are not text, before anything else.
    (LineFault::NotAscii, &[b"*\xc3", b"STEP\r1", b"\x7f"]),
];

#[test]
fn rejects_each_line_for_its_reason(rt: HostRuntime) {
    for i in 0..REJECTED.len() {
        let (fault, lines) = REJECTED[i];
        rejects(&rt, fault, lines);
    }
}

const ACCEPTED: [&[u8]; 29] = [
    b"SET M 11 7777 1 2 3 4 5 6 7 7777",
    b"SET A 0 777777",
    b"SET P 0 7777",
    b"SET Q 0 7777",
    b"SET C 377777 77777777777777777777",
    b"SET H 13 I",
    b"set h 3 e 0017",
    b"SET H 3 F 7777",
    b"STEP",
    b"STEP 1000000",
    b"back w",
    b"BACK 1000000",
    b"FORWARD 00000000001",
    b"WATCH M 0 0",
    b"WATCH A 0",
    b"WATCH P 0",
    b"WATCH Q 0",
    b"WATCH C 0",
    b"WATCH H 14",
    b"\tUnWatch  M 0\t0 ",
    b"DEADSTART",
    b"DUMP M 0 1 1",
    b"DUMP PP 0",
    b"DUMP H",
    b"DUMP C 0 377777",
    b"DUMP XP",
    b"DUMP CR",
    b"DUMP LP",
    b"DUMP W\r",
];

#[test]
fn accepts_every_command_in_letters_of_either_case(rt: HostRuntime) {
    for i in 0..ACCEPTED.len() {
        assert!(rt; is_command(ACCEPTED[i]), "row {i}");
    }
}

/// The length is checked first. Notes and lines without words are ignored.
#[test]
fn long_lines_and_ignored_lines(rt: HostRuntime) {
    let mut line = [b'X'; 257];
    line[255] = b'\r';
    let is_short = is_rejected(&line[..256], LineFault::NotACommand);
    line[256] = b'\r';
    let mut note = [b' '; 256];
    note[0] = b'*';
    let rows = [
        is_rejected(&[b'X'; 255], LineFault::NotACommand),
        is_rejected(&[b'X'; 256], LineFault::TooLong),
        is_short,
        is_rejected(&line, LineFault::TooLong),
        is_rejected(&note, LineFault::TooLong),
        is_ignored(b""),
        is_ignored(b"\r"),
        is_ignored(b" \t"),
        is_ignored(b"* note"),
        is_ignored(b"\t *GO"),
    ];
    check_rows(&rt, &rows);
}
