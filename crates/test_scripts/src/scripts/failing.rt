//! Devices that fail, and input without end.
ghost use Rattle.std.specs.Prelude.{◌<◌};

use super::{Fails, Run, With, check_rows, runs_end};
use pp_console::Summary;
use pp_lines::IoFault;
use std::alloc::{AllocError, Global};
use std::process::Abort;

/// A line with its line end, its answer, and the length of the undo history after it.
type Exchange = (&'static [u8], &'static [u8], u32);

/// A load, which is undone.
const LOAD: [Exchange; 6] = [
    (b"SET M 0 100 1405 3420\n", b"OK\n", 1),
    (b"SET P 0 100\n", b"OK\n", 2),
    (b"STEP\n", b"TURNS 1 SLOT 01\n", 3),
    (
        b"DUMP PP 0\n",
        b"PP 00 P 0101 A 000005 Q 0000 PHASE 0000 SLOT 01\n",
        3,
    ),
    (b"BACK\n", b"BACK 1 SLOT 00\n", 2),
    (
        b"DUMP PP 0\n",
        b"PP 00 P 0100 A 000000 Q 0000 PHASE 0000 SLOT 00\n",
        2,
    ),
];

const HIT: &[u8] = b"TURNS 25 SLOT 01\nHIT M 00 0050 0000 0005\n";

/// A run that stops at a change, which is undone.
const CHANGE: [Exchange; 8] = [
    (b"SET M 0 100 1405 2400 3450\n", b"OK\n", 1),
    (b"SET P 0 100\n", b"OK\n", 2),
    (b"WATCH M 0 50\n", b"OK\n", 3),
    (b"STEP 1000\n", HIT, 24),
    (b"BACK W\n", b"BACK 1 SLOT 00\n", 23),
    (b"DUMP M 0 50 50\n", b"0050 0000\n", 23),
    (b"BACK W\n", b"ERR 10 NO CHANGE KEPT\n", 23),
    (b"DUMP M 0 50 50\n", b"0050 0000\n", 23),
];

/// Lines that are rejected, a note, and a last line without a line feed.
const REFUSED: [Exchange; 8] = [
    (
        b"XXXXXXXXXXXXXXXXXXXXXXXXXXXXXXXXXXXXXXXXXXXXXXXXXXXXXXXXXXXXXXXX\
XXXXXXXXXXXXXXXXXXXXXXXXXXXXXXXXXXXXXXXXXXXXXXXXXXXXXXXXXXXXXXXX\
XXXXXXXXXXXXXXXXXXXXXXXXXXXXXXXXXXXXXXXXXXXXXXXXXXXXXXXXXXXXXXXX\
XXXXXXXXXXXXXXXXXXXXXXXXXXXXXXXXXXXXXXXXXXXXXXXXXXXXXXXXXXXXXXXX\n",
        b"ERR 05 LINE TOO LONG\n",
        0,
    ),
    (b"STEP 0\n", b"ERR 04 RANGE\n", 0),
    (b"SET M 0 8 1\n", b"ERR 03 NUMBER\n", 0),
    (b"SET\n", b"ERR 02 WORDS\n", 0),
    (b"SET Z\n", b"ERR 01 NOT A COMMAND\n", 0),
    (b"GO\n", b"ERR 01 NOT A COMMAND\n", 0),
    (b"* note\n", b"", 0),
    (b"STEP", b"TURNS 1 SLOT 01\n", 1),
];

fn lines_of(alloc: Global, exchanges: &[Exchange]) -> Result<Vec<u8>, AllocError> {
    let mut script = Vec::new(alloc);
    for i in 0..exchanges.len() {
        script.extend_from_slice(exchanges[i].0)?;
    }
    Ok(script)
}

fn answers_of(alloc: Global, exchanges: &[Exchange]) -> Result<Vec<u8>, AllocError> {
    let mut text = Vec::new(alloc);
    for i in 0..exchanges.len() {
        text.extend_from_slice(exchanges[i].1)?;
    }
    Ok(text)
}

/// Returns the length of the undo history after the last exchange.
fn kept_after(exchanges: &[Exchange]) -> u32 {
    match exchanges.last() {
        Some((_, _, kept)) => *kept,
        None => 0,
    }
}

/// Returns the number of lines, and how many of them are rejected.
fn summary_of(exchanges: &[Exchange]) -> Summary {
    let (mut lines, mut refused) = (0u32, 0u32);
    for i in 0..exchanges.len() {
        lines = lines.saturating_add(1);
        if exchanges[i].1.starts_with(b"ERR") {
            refused = refused.saturating_add(1);
        }
    }
    Summary { lines, refused }
}

/// Returns the exchanges whose lines end within the first bytes.
fn finished_within(exchanges: &[Exchange], bytes: usize) -> &[Exchange] {
    let mut left = bytes;
    for i in 0..exchanges.len() {
        let line = exchanges[i].0;
        if line.len() > left || line.last() != Some(&b'\n') {
            return &exchanges[..i];
        }
        left -= line.len();
    }
    exchanges
}

/// Performs a run on a new machine, and returns whether it ends so.
fn run_ends_anew(alloc: Global, run: Run) -> bool {
    runs_end(alloc, With::LittleMemory, 100, &[run])
}

/// Makes the source of a script fail at one call, or at none. Returns whether this is the result, and the answers are those
/// of the exchanges.
fn source_stops(
    alloc: Global,
    script: &[u8],
    piece: usize,
    call: u64,
    exchanges: &[Exchange],
    expected: Result<Summary, IoFault>,
) -> bool {
    match answers_of(alloc, exchanges) {
        Ok(text) => {
            let run = Run {
                script,
                pieces: (piece, 4096),
                fails: Fails::Reading(call),
                expected,
                text: text.as_slice(),
                kept: Some(kept_after(exchanges)),
                a: None,
            };
            run_ends_anew(alloc, run)
        }
        Err(_) => false,
    }
}

/// Makes the source of a script fail at each of its calls in turn, and then at none.
fn script_fails_at_each_take(
    rt: &impl Abort,
    alloc: Global,
    exchanges: &[Exchange],
    script: &[u8],
    piece: usize,
)
    requires { 0 < piece }
{
    let calls = script.len().div_ceil(piece).saturating_add(1) as u64;
    let failed = Err(IoFault::ReadFailed);
    let mut taken = 0usize;
    for call in 1..calls.saturating_add(1) {
        let finished = finished_within(exchanges, taken);
        assert!(rt;
            source_stops(alloc, script, piece, call, finished, failed),
            "read {call}"
        );
        taken = taken.saturating_add(piece);
    }
    let later = calls.saturating_add(1);
    let summary = Ok(summary_of(exchanges));
    assert!(rt;
        source_stops(alloc, script, piece, later, exchanges, summary),
        "no failed read"
    );
}

/// The text that is written before a call of a sink, and the number of the call.
#[derive(Drop)]
struct Written {
    text: Vec<u8>,
    call: u64,
}

/// Makes the sink fail at one call, or at none, and returns whether this is the end, and the text is written before.
fn sink_stops(
    alloc: Global,
    script: &[u8],
    piece: usize,
    written: &Written,
    expected: Result<Summary, IoFault>,
    kept: u32,
) -> bool {
    let run = Run {
        script,
        pieces: (4096, piece),
        fails: Fails::Writing(written.call),
        expected,
        text: written.text.as_slice(),
        kept: Some(kept),
        a: None,
    };
    run_ends_anew(alloc, run)
}

/// Makes the sink fail at each call that writes a part of one answer.
fn fails_in_answer(
    rt: &impl Abort,
    alloc: Global,
    script: &[u8],
    piece: usize,
    written: &mut Written,
    exchange: &Exchange,
)
    requires { 0 < piece }
{
    let (_, answer, kept) = *exchange;
    let failed = Err(IoFault::WriteFailed);
    for part in answer.chunks(piece) {
        let call = written.call;
        assert!(rt;
            sink_stops(alloc, script, piece, written, failed, kept),
            "write {call}"
        );
        assert!(rt; written.text.extend_from_slice(part).is_ok());
        written.call = written.call.saturating_add(1);
    }
}

/// Makes the sink of a script fail at each of its calls in turn, and then at none.
fn script_fails_at_each_put(
    rt: &impl Abort,
    alloc: Global,
    exchanges: &[Exchange],
    script: &[u8],
    piece: usize,
)
    requires { 0 < piece }
{
    let mut written = Written {
        text: Vec::new(alloc),
        call: 1,
    };
    for i in 0..exchanges.len() {
        fails_in_answer(rt, alloc, script, piece, &mut written, &exchanges[i]);
    }
    let (summary, kept) = (Ok(summary_of(exchanges)), kept_after(exchanges));
    assert!(rt;
        sink_stops(alloc, script, piece, &written, summary, kept),
        "no failed write"
    );
}

const SCRIPTS: [&[Exchange]; 3] = [&LOAD, &CHANGE, &REFUSED];

/// Makes the source, and then the sink, fail at each of its calls in turn. Each call takes at most `piece` bytes.
fn fails_at_each_call(rt: &impl Abort, alloc: Global, exchanges: &[Exchange], piece: usize)
    requires { 0 < piece }
{
    match lines_of(alloc, exchanges) {
        Ok(lines) => {
            let script = lines.as_slice();
            script_fails_at_each_take(rt, alloc, exchanges, script, piece);
            script_fails_at_each_put(rt, alloc, exchanges, script, piece);
        }
        Err(_) => assert!(rt; false, "no memory"),
    }
}

#[test]
fn each_call_fails(rt: HostRuntime) {
    for i in 0..SCRIPTS.len() {
        fails_at_each_call(&rt, rt.alloc(), SCRIPTS[i], 1);
        fails_at_each_call(&rt, rt.alloc(), SCRIPTS[i], 4096);
    }
}

const ONE_LINE: Summary = Summary {
    lines: 1,
    refused: 0,
};

/// An unfinished line is performed at the end of the source, but not after a failure.
const UNFINISHED: [Run<'static>; 3] = [
    Run {
        script: b"SET A 0 5\nSTEP",
        pieces: (4096, 1),
        fails: Fails::Reading(2),
        expected: Err(IoFault::ReadFailed),
        text: b"OK\n",
        kept: Some(1),
        a: Some(5),
    },
    Run {
        script: b"BACK",
        pieces: (4096, 1),
        fails: Fails::Reading(2),
        expected: Err(IoFault::ReadFailed),
        text: b"",
        kept: Some(1),
        a: Some(5),
    },
    Run {
        script: b"BACK",
        pieces: (4096, 1),
        fails: Fails::Nothing,
        expected: Ok(ONE_LINE),
        text: b"BACK 1 SLOT 00\n",
        kept: Some(0),
        a: Some(0),
    },
];

/// A command is performed even if its answer can't be written.
const UNANSWERED: [Run<'static>; 2] = [
    Run {
        script: b"SET A 0 5\nSET A 0 6\nSET A 0 7\n",
        pieces: (4096, 1),
        fails: Fails::Writing(5),
        expected: Err(IoFault::WriteFailed),
        text: b"OK\nO",
        kept: Some(2),
        a: Some(6),
    },
    Run {
        script: b"SET A 0 7",
        pieces: (4096, 1),
        fails: Fails::Writing(1),
        expected: Err(IoFault::WriteFailed),
        text: b"",
        kept: Some(3),
        a: Some(7),
    },
];

/// Returns a run whose script is read at once, and whose answers are written byte by byte.
fn run_of<'a>(
    script: &'a [u8],
    fails: Fails,
    expected: Result<Summary, IoFault>,
    text: &'a [u8],
) -> Run<'a> {
    Run {
        script,
        pieces: (4096, 1),
        fails,
        expected,
        text,
        kept: Some(0),
        a: None,
    }
}

/// Returns a script of blank lines and an end.
fn blank_lines(alloc: Global, lines: usize, end: &[u8]) -> Result<Vec<u8>, AllocError> {
    let mut script = vec![in alloc; b'\n'; lines]?;
    script.extend_from_slice(end)?;
    Ok(script)
}

const MILLION: Summary = Summary {
    lines: 1_000_000,
    refused: 0,
};

/// Performs line feeds without end, a script without its last byte, and the whole script, which has one line too many.
fn lines_end(alloc: Global, script: &[u8]) -> bool {
    let Some((_, lines)) = script.split_last() else {
        return false;
    };
    let limit = Err(IoFault::LineLimit);
    let runs = [
        run_of(b"", Fails::End, limit, b""),
        run_of(lines, Fails::Nothing, Ok(MILLION), b""),
        run_of(script, Fails::Nothing, limit, b""),
    ];
    runs_end(alloc, With::LittleMemory, 1, &runs)
}

/// Performs a script whose last answer can't be written, and again with that answer.
fn last_line_ends(alloc: Global, script: &[u8]) -> bool {
    let failed = Err(IoFault::WriteFailed);
    let limit = Err(IoFault::LineLimit);
    let runs = [
        run_of(script, Fails::Writing(1), failed, b""),
        run_of(script, Fails::Nothing, limit, b"ERR 01 NOT A COMMAND\n"),
    ];
    runs_end(alloc, With::LittleMemory, 1, &runs)
}

/// A script has at most a million lines, and any further byte begins one more.
fn lines_are_limited(alloc: Global) -> bool {
    match blank_lines(alloc, 1_000_000, b"X") {
        Ok(script) => lines_end(alloc, script.as_slice()),
        Err(_) => false,
    }
}

/// Lines are performed in order: an answer that can't be written is reported before a limit in the same piece.
fn answers_come_before_limits(alloc: Global) -> bool {
    match blank_lines(alloc, 999_999, b"GO\nX") {
        Ok(script) => last_line_ends(alloc, script.as_slice()),
        Err(_) => false,
    }
}

/// The status of a run that ended without a fault shows whether a line was rejected.
fn status_is(lines: u32, refused: u32, status: u8) -> bool {
    Summary { lines, refused }.status() == status
}

#[test]
fn runs_that_end(rt: HostRuntime) {
    let alloc = rt.alloc();
    let rows = [
        runs_end(alloc, With::LittleMemory, 100, &UNFINISHED),
        runs_end(alloc, With::LittleMemory, 100, &UNANSWERED),
        lines_are_limited(alloc),
        answers_come_before_limits(alloc),
        status_is(6, 0, 0),
        status_is(7, 1, 1),
    ];
    check_rows(&rt, &rows);
}
