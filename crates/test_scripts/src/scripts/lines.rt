//! Lines and words.
use super::{Case, With, check_rows, compare, follows_each, session_of};
use pp_console::{IoFault, Summary, parse, perform, serve};
use pp_history::Session;
use pp_lines::{Feed, Tray};
use pp_rig::Rig;
use std::alloc::{AllocError, Global};

const SESSIONS: [(With, &str); 3] = [
    // A word that is not a number is reported before a number out of range, and an unknown word before the word count.
    (
        With::Nothing,
        "\
> SET M 0 10000 8
ERR 03 NUMBER
> SET H 3 Z 1 2
ERR 01 NOT A COMMAND
> SET H 3
ERR 02 WORDS
> WATCH
ERR 02 WORDS
> DUMP
ERR 02 WORDS
> DUMP H 1
ERR 02 WORDS
> BACK W 1
ERR 02 WORDS
> BACK X
ERR 03 NUMBER
> FORWARD W
ERR 03 NUMBER
> SET H 14 I
ERR 04 RANGE
",
    ),
    // Addresses past the machine's own central memory are rejected before all else.
    (
        With::LittleMemory,
        "\
> SET C 77777 1
OK
> WATCH A 0
OK
> WATCH A 1
OK
> WATCH A 2
OK
> WATCH A 3
OK
> WATCH A 4
OK
> WATCH A 5
OK
> WATCH A 6
OK
> WATCH A 7
OK
> WATCH C 100000
ERR 04 RANGE
> UNWATCH C 100000
ERR 04 RANGE
> SET C 100000 0
ERR 04 RANGE
> DUMP C 77777 77777
C 077777 00000000000000000001
> DUMP C 77777 100000
ERR 04 RANGE
",
    ),
    // Cells in rows of eight, starting at the first cell.
    (
        With::Nothing,
        "\
> SET M 3 1775 1 2 3 4 5 6 7 10
OK
> SET M 3 7777 11 12
OK
> DUMP M 3 1774 2006
1774 0000 0001 0002 0003 0004 0005 0006 0007
2004 0010 0000 0000
> DUMP M 3 7777 7777
7777 0011
> DUMP M 3 0 0
0000 0012
",
    ),
];

#[test]
fn words_and_ranges(rt: HostRuntime) {
    follows_each(&rt, rt.alloc(), &SESSIONS);
}

/// A script, its answers, its number of lines, and how many of them are rejected.
type Script = (&'static [u8], &'static [u8], u32, u32);

const SCRIPTS: [Script; 8] = [
    // Nothing in, nothing out.
    (b"", b"", 0, 0),
    // Lines that are rejected, a note, and a last line without an end.
    (
        b"XXXXXXXXXXXXXXXXXXXXXXXXXXXXXXXXXXXXXXXXXXXXXXXXXXXXXXXXXXXXXXXX\
XXXXXXXXXXXXXXXXXXXXXXXXXXXXXXXXXXXXXXXXXXXXXXXXXXXXXXXXXXXXXXXX\
XXXXXXXXXXXXXXXXXXXXXXXXXXXXXXXXXXXXXXXXXXXXXXXXXXXXXXXXXXXXXXXX\
XXXXXXXXXXXXXXXXXXXXXXXXXXXXXXXXXXXXXXXXXXXXXXXXXXXXXXXXXXXXXXXX\n\
STEP 0\nSET M 0 8 1\nSET\nSET Z\nGO\n* note\nSTEP",
        b"ERR 05 LINE TOO LONG\nERR 04 RANGE\nERR 03 NUMBER\nERR 02 WORDS\nERR 01 NOT A COMMAND\n\
ERR 01 NOT A COMMAND\nTURNS 1 SLOT 01\n",
        8,
        6,
    ),
    // Letters of either case, blanks and tabs.
    (
        b"\tset  a 0\t1 \nWatch a 0\nstep 1\nback W\ndump Pp 0\n",
        b"OK\nOK\nTURNS 1 SLOT 01\nBACK 3 SLOT 00\nPP 00 P 0000 A 000000 Q 0000 PHASE 0000 SLOT 00\n",
        5,
        0,
    ),
    // A line without words is ignored and counted, even if it is only a carriage return.
    (b"\r", b"", 1, 0),
    (b"\n \t\r\n\n* note", b"", 4, 0),
    // A carriage return at the end of a line is dropped.
    (
        b"STEP\r\nSTEP\r",
        b"TURNS 1 SLOT 01\nTURNS 1 SLOT 02\n",
        2,
        0,
    ),
    (
        b"STEP\r1\nSTEP\r\r\n",
        b"ERR 06 NOT ASCII\nERR 06 NOT ASCII\n",
        2,
        2,
    ),
    // A byte that is not ASCII is reported even in a note.
    (
        b"\xc3\n*\xc3\n",
        b"ERR 06 NOT ASCII\nERR 06 NOT ASCII\n",
        2,
        2,
    ),
];

/// Performs a script without a deck and a panel, and compares it.
fn script_follows(alloc: Global, script: &[u8], answers: &[u8], summary: Summary) -> bool {
    let case = Case {
        with: With::Nothing,
        capacity: 10000,
        script,
        answers,
        summary,
    };
    compare(alloc, &case)
}

fn row_follows(alloc: Global, row: &Script) -> bool {
    let (script, answers, lines, refused) = *row;
    script_follows(alloc, script, answers, Summary { lines, refused })
}

#[test]
fn scripts(rt: HostRuntime) {
    for i in 0..SCRIPTS.len() {
        assert!(rt; row_follows(rt.alloc(), &SCRIPTS[i]), "row {i}");
    }
}

const NOT_A_COMMAND: &[u8] = b"ERR 01 NOT A COMMAND\n";

const TOO_LONG: &[u8] = b"ERR 05 LINE TOO LONG\n";

/// The first byte of a line, the others, its length, its end, its answer, and how often it is rejected.
type LongLine = (u8, u8, usize, &'static [u8], &'static [u8], u32);

const LONG_LINES: [LongLine; 6] = [
    (b'X', b'X', 255, b"\n", NOT_A_COMMAND, 1),
    (b'X', b'X', 255, b"\r\n", NOT_A_COMMAND, 1),
    (b'X', b'X', 255, b"\r\r\n", TOO_LONG, 1),
    (b'X', b'X', 256, b"\n", TOO_LONG, 1),
    (b'*', b' ', 255, b"", b"", 0),
    (b'*', b' ', 256, b"", TOO_LONG, 1),
];

/// Returns a line with its end.
fn line_of(alloc: Global, line: &LongLine) -> Result<Vec<u8>, AllocError> {
    let (first, others, length, end, _, _) = *line;
    let mut script = vec![in alloc; others; length]?;
    if let Some(byte) = script.first_mut() {
        *byte = first;
    }
    script.extend_from_slice(end)?;
    Ok(script)
}

fn long_line_follows(alloc: Global, line: &LongLine) -> bool {
    let (_, _, _, _, answer, refused) = *line;
    match line_of(alloc, line) {
        Ok(script) => {
            script_follows(
                alloc,
                script.as_slice(),
                answer,
                Summary { lines: 1, refused },
            )
        }
        Err(_) => false,
    }
}

/// The longest line has 255 bytes before its carriage return.
#[test]
fn long_lines(rt: HostRuntime) {
    for i in 0..LONG_LINES.len() {
        assert!(rt; long_line_follows(rt.alloc(), &LONG_LINES[i]), "row {i}");
    }
}

/// A command, its result, all that is written so far, and the length of the undo history after it.
type Performed = (&'static [u8], Result<bool, IoFault>, &'static [u8], u32);

/// The third write fails. The command is performed even if its answer can't be written.
const COMMANDS: [Performed; 3] = [
    (b"SET A 0 5", Ok(true), b"OK\n", 1),
    (b"BACK 2", Ok(false), b"OK\nERR 07 TOO FEW KEPT\n", 1),
    (
        b"SET A 0 5",
        Err(IoFault::WriteFailed),
        b"OK\nERR 07 TOO FEW KEPT\n",
        2,
    ),
];

/// Performs a command, and returns whether the result is the expected one.
fn performs(
    session: &mut Session<Rig>,
    line: &[u8],
    out: &mut Tray,
    expected: Result<bool, IoFault>,
) -> bool {
    match parse(line) {
        Ok(Some(command)) => perform(session, &command, out) == expected,
        _ => false,
    }
}

/// Performs the command of a row. Returns whether the result, what is written, and the length of the undo history are
/// right.
fn is_performed(session: &mut Session<Rig>, out: &mut Tray, row: &Performed) -> bool {
    let (line, expected, text, kept) = *row;
    performs(session, line, out, expected) && out.text() == text && session.kept() == kept
}

/// Performs the commands in one session, and returns whether all is right.
fn performs_each(alloc: Global) -> bool {
    let Some(mut session) = session_of(alloc, With::LittleMemory, 100) else {
        return false;
    };
    let mut out = Tray::failing(100, 3);
    is_performed(&mut session, &mut out, &COMMANDS[0])
        && is_performed(&mut session, &mut out, &COMMANDS[1])
        && is_performed(&mut session, &mut out, &COMMANDS[2])
}

/// Performs lines. Returns whether this many calls of a sink of 4096 bytes write their answers, and these have this many bytes.
fn writes_in_pieces(alloc: Global, script: &[u8], calls: u64, bytes: usize) -> bool {
    let Some(mut session) = session_of(alloc, With::LittleMemory, 1) else {
        return false;
    };
    let mut out = Tray::new(4096);
    let ended = serve(&mut session, &mut Feed::new(script, 4096), &mut out);
    ended.is_ok() == (bytes <= 4096)
        && out.text().len() == bytes.min(4096)
        && out.calls.made == calls
}

/// `perform` returns whether the command was rejected. The second dump is longer than a piece: the second call takes 7 bytes,
/// and the third fails.
#[test]
fn single_commands_and_few_calls(rt: HostRuntime) {
    let alloc = rt.alloc();
    let rows = [
        performs_each(alloc),
        writes_in_pieces(alloc, b"DUMP M 0 0 777\n", 1, 2880),
        writes_in_pieces(alloc, b"DUMP C 0 215\n", 3, 4118),
        writes_in_pieces(alloc, b"DUMP LP\n", 1, 44),
        writes_in_pieces(alloc, b"DUMP PP 0\nDUMP H\n", 2, 204),
    ];
    check_rows(&rt, &rows);
}
