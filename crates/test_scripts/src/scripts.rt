//! Scripts and their answers.
ghost use Rattle.std.specs.Prelude.{◌≤◌, All, IfSome};
ghost use Rattle.pp_machine.specs.ReaderNumbers.{IsCard};

mod devices;
mod failing;
mod history;
mod lines;
mod steps;

use pp_console::{Summary, load_deck, serve};
use pp_history::{Reversible, Session};
use pp_lines::{Endless, Feed, IoFault, Log, Tray};
use pp_machine::{CentralSize, Place};
use pp_rig::{Rig, Setup};
use std::alloc::{AllocError, Global};
use std::process::Abort;

/// What a machine has besides its memories.
#[derive(Clone, Copy)]
pub(crate) enum With {
    Nothing,
    /// A deck of one card, `1 2 3`.
    Card,
    /// A dead start panel.
    Panel,
    /// Only central memory, of the smallest size.
    LittleMemory,
}

fn deck_of(alloc: Global, with: With) -> Option<Vec<[u16; 80]>>
    ensures { IfSome result (λ deck. All IsCard deck.items) }
{
    match with {
        With::Card => load_deck(alloc, &mut Feed::new(b"1 2 3\n", 4096)).ok(),
        _ => Some(Vec::new(alloc)),
    }
}

fn panel_of(with: With) -> Option<[u16; 12]>
    ensures { IfSome result (λ panel. All (λ word. word ≤ 0o7777) panel) }
{
    match with {
        With::Panel => Some([0o1405, 0o3420, 0o300, 0, 0, 0, 0, 0, 0, 0, 0, 0]),
        _ => None,
    }
}

fn central_of(with: With) -> CentralSize {
    match with {
        With::LittleMemory => CentralSize::K32,
        _ => CentralSize::K128,
    }
}

/// Returns a new machine with the reader on channel 12 and the printer on channel 13, if there is memory for it.
fn machine_of(alloc: Global, with: With) -> Option<Rig> {
    let setup = Setup {
        central: central_of(with),
        reader: 0o12,
        printer: 0o13,
        deck: deck_of(alloc, with)?,
        panel: panel_of(with),
    };
    Rig::new(alloc, setup).ok()
}

/// Checks that each row of a test is so.
fn check_rows(rt: &impl Abort, rows: &[bool]) {
    for i in 0..rows.len() {
        assert!(rt; rows[i], "row {i}");
    }
}

/// Returns a session of a new machine, if there is memory for it. Its undo history holds `capacity` actions, 1 to 10000
/// (decimal).
pub(crate) fn session_of(alloc: Global, with: With, capacity: u32) -> Option<Session<Rig>> {
    if capacity < 1 || capacity > 10000 {
        return None;
    }
    Session::new(alloc, machine_of(alloc, with)?, capacity).ok()
}

/// What fails in a run. Calls are counted from 1.
#[derive(Clone, Copy)]
enum Fails {
    Nothing,
    Reading(u64),
    Writing(u64),
    /// Nothing fails, and line feeds without end are read in place of the script.
    End,
}

/// A script, the longest pieces that are read and written, and what fails. Afterwards the result, what is written, and if
/// they are compared, the length of the undo history and A of processor 0.
#[derive(Clone, Copy)]
struct Run<'a> {
    script: &'a [u8],
    pieces: (usize, usize),
    fails: Fails,
    expected: Result<Summary, IoFault>,
    text: &'a [u8],
    kept: Option<u32>,
    a: Option<u64>,
}

fn source_of<'a>(run: &Run<'a>) -> Feed<'a> {
    let piece = run.pieces.0.max(1);
    match run.fails {
        Fails::Reading(call) => Feed::failing(run.script, piece, call),
        _ => Feed::new(run.script, piece),
    }
}

fn sink_of(run: &Run) -> Tray {
    let piece = run.pieces.1.max(1);
    match run.fails {
        Fails::Writing(call) => Tray::failing(piece, call),
        _ => Tray::new(piece),
    }
}

/// Performs the script of a run, or line feeds without end.
fn served(session: &mut Session<Rig>, run: &Run, out: &mut Tray) -> Result<Summary, IoFault> {
    if let Fails::End = run.fails {
        let mut endless = Endless {
            byte: b'\n',
            log: Log::new(),
        };
        return serve(session, &mut endless, out);
    }
    serve(session, &mut source_of(run), out)
}

/// Returns whether a session has an undo history of this length, and this number in A, if they are compared.
fn is_left(session: &Session<Rig>, run: &Run) -> bool {
    let a = session.machine().value(&Place::RegA { pp: 0 });
    run.kept.is_none_or(|kept| session.kept() == kept) && run.a.is_none_or(|number| a == number)
}

/// Performs a run, and returns whether it ends so.
fn run_ends(session: &mut Session<Rig>, run: &Run) -> bool {
    let mut out = sink_of(run);
    served(session, run, &mut out) == run.expected
        && out.text() == run.text
        && is_left(session, run)
}

/// Performs runs in one session of a new machine, and returns whether each ends so.
fn runs_end(alloc: Global, with: With, capacity: u32, runs: &[Run]) -> bool {
    let Some(mut session) = session_of(alloc, with, capacity) else {
        return false;
    };
    for i in 0..runs.len() {
        if !run_ends(&mut session, &runs[i]) {
            return false;
        }
    }
    true
}

/// A script, and its answers on a new machine.
#[derive(Drop)]
struct Case<'a> {
    with: With,
    capacity: u32,
    script: &'a [u8],
    answers: &'a [u8],
    summary: Summary,
}

/// Performs the script of a case, read and written in pieces of the given length, and compares its end.
fn compare_in_pieces(alloc: Global, case: &Case, piece: usize) -> bool {
    let run = Run {
        script: case.script,
        pieces: (piece, piece),
        fails: Fails::Nothing,
        expected: Ok(case.summary),
        text: case.answers,
        kept: None,
        a: None,
    };
    runs_end(alloc, case.with, case.capacity, &[run])
}

/// Performs the script of a case byte by byte, and at once.
fn compare(alloc: Global, case: &Case) -> bool {
    compare_in_pieces(alloc, case, 1) && compare_in_pieces(alloc, case, 4096)
}

/// The lines of a session: a line after `> ` is of the script, and the lines after it are its answer.
#[derive(Drop)]
struct Transcript {
    script: Vec<u8>,
    answers: Vec<u8>,
    summary: Summary,
}

fn add_line(text: &mut Vec<u8>, line: &str) -> Result<(), AllocError> {
    text.extend_from_slice(line.as_bytes())?;
    text.extend_from_slice(b"\n")?;
    Ok(())
}

/// Adds a line of a session.
fn sort_line(lines: &mut Transcript, line: &str) -> Result<(), AllocError> {
    if let Some(command) = line.strip_prefix("> ") {
        lines.summary.lines = lines.summary.lines.saturating_add(1);
        return add_line(&mut lines.script, command);
    }
    if line.starts_with("ERR") {
        lines.summary.refused = lines.summary.refused.saturating_add(1);
    }
    add_line(&mut lines.answers, line)
}

fn lines_of(alloc: Global, session: &str) -> Result<Transcript, AllocError> {
    let mut lines = Transcript {
        script: Vec::new(alloc),
        answers: Vec::new(alloc),
        summary: Summary {
            lines: 0,
            refused: 0,
        },
    };
    for line in session.lines() {
        sort_line(&mut lines, line)?;
    }
    Ok(lines)
}

/// Performs the lines of a session on a new machine, and compares their answers.
fn follows_lines(alloc: Global, with: With, capacity: u32, lines: &Transcript) -> bool {
    let case = Case {
        with,
        capacity,
        script: lines.script.as_slice(),
        answers: lines.answers.as_slice(),
        summary: lines.summary,
    };
    compare(alloc, &case)
}

/// Performs a session on a new machine, and compares it.
fn follows(alloc: Global, with: With, capacity: u32, session: &str) -> bool {
    match lines_of(alloc, session) {
        Ok(lines) => follows_lines(alloc, with, capacity, &lines),
        Err(_) => false,
    }
}

/// Performs each session on a new machine, and compares it.
fn follows_each(rt: &impl Abort, alloc: Global, sessions: &[(With, &str)]) {
    for i in 0..sessions.len() {
        let (with, session) = sessions[i];
        assert!(rt; follows(alloc, with, 10000, session), "session {i}");
    }
}

/// Performs each session on a new machine without a deck and a panel, and compares it.
fn follows_all(rt: &impl Abort, alloc: Global, sessions: &[&str]) {
    for i in 0..sessions.len() {
        assert!(rt;
            follows(alloc, With::Nothing, 10000, sessions[i]),
            "session {i}"
        );
    }
}
