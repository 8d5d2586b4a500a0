//! The whole program, over a host in memory.

use crate::words::words_of;
use pp_lines::{Feed, Terminal, Tray};
use pp_program::*;
use std::alloc::Global;

const FILES: [StoredFile<'static>; 5] = [
    StoredFile {
        path: "cards",
        bytes: b"1 2 3\n",
        failing: None,
    },
    StoredFile {
        path: "bad",
        bytes: b"* note\n1 2 8\n",
        failing: None,
    },
    StoredFile {
        path: "short",
        bytes: b"1 2 3",
        failing: None,
    },
    StoredFile {
        path: "lines",
        bytes: b"SET M 0 7777 1234\nDUMP M 0 7777 7777\nNO\n",
        failing: None,
    },
    StoredFile {
        path: "torn",
        bytes: b"SET M 0 7777 1234\nDUMP M 0 7777 7777\n",
        failing: Some(1),
    },
];

/// The standard streams of a run.
#[derive(Drop)]
struct Streams {
    input: Feed<'static>,
    output: Tray,
    errors: Tray,
}

/// The stream that fails, and its call that does, counted from 1.
#[derive(Clone, Copy)]
enum Fails {
    Never,
    Input(u64),
    Output(u64),
    OutputAndErrors(u64),
}

fn streams_of(typed: &'static str, fails: Fails) -> Streams {
    let typed = typed.as_bytes();
    match fails {
        Fails::Never => Streams {
            input: Feed::new(typed, 3),
            output: Tray::new(7),
            errors: Tray::new(7),
        },
        Fails::Input(call) => Streams {
            input: Feed::failing(typed, 7, call),
            output: Tray::new(100),
            errors: Tray::new(100),
        },
        Fails::Output(call) => Streams {
            input: Feed::new(typed, 3),
            output: Tray::failing(2, call),
            errors: Tray::new(100),
        },
        Fails::OutputAndErrors(call) => Streams {
            input: Feed::new(typed, 3),
            output: Tray::failing(2, call),
            errors: Tray::failing(2, call),
        },
    }
}

/// A run: its words in one line, or why they are not available, standard input, and the stream that fails. Afterwards
/// standard output, standard error, the exit status, and how many files were asked for.
#[derive(Clone, Copy)]
struct Run {
    words: Result<&'static str, WordsFault>,
    typed: &'static str,
    fails: Fails,
    output: &'static str,
    errors: &'static str,
    status: u8,
    asked: u32,
}

/// Runs the program over the files above. Returns the exit status, and how many files were asked for.
fn ended(
    alloc: Global,
    words: Result<Vec<String>, WordsFault>,
    input: &mut Feed<'static>,
    output: &mut Tray,
    errors: &mut Tray,
) -> (u8, u32) {
    let mut system = System::new(words, Memory::new(&FILES));
    let mut terminal = Terminal::new(input, output);
    let status = run(alloc, &mut system, &mut terminal, errors);
    (status, system.files.asked)
}

/// Returns whether a run with these words leaves what its row says.
fn is_right(alloc: Global, words: Result<Vec<String>, WordsFault>, run: &Run) -> bool {
    let Streams {
        mut input,
        mut output,
        mut errors,
    } = streams_of(run.typed, run.fails);
    let found = ended(alloc, words, &mut input, &mut output, &mut errors);
    found == (run.status, run.asked)
        && output.text() == run.output.as_bytes()
        && errors.text() == run.errors.as_bytes()
}

/// Returns the words of a run.
fn words_of_run(alloc: Global, run: &Run) -> Result<Vec<String>, WordsFault> {
    match words_of(alloc, run.words?) {
        Ok(words) => Ok(words),
        Err(_) => Err(WordsFault::NoMemory),
    }
}

fn run_is_right(alloc: Global, run: &Run) -> bool {
    is_right(alloc, words_of_run(alloc, run), run)
}

const USAGE: &str =
    "usage: pp6600 [--history N] [--central K] [--deck F] [--reader C] [--printer C] [--panel F] [SCRIPT]\n";

/// Runs of every kind but those that print only the line of a trouble.
const RUNS: [Run; 11] = [
    // Runs without lines.
    Run {
        words: Ok("pp6600 --help"),
        typed: "",
        fails: Fails::Never,
        output: USAGE,
        errors: "",
        status: 0,
        asked: 0,
    },
    Run {
        words: Ok("pp6600"),
        typed: "* nothing\n",
        fails: Fails::Never,
        output: "",
        errors: "",
        status: 0,
        asked: 0,
    },
    Run {
        words: Ok("pp6600 --reader 13 --printer 12"),
        typed: "",
        fails: Fails::Never,
        output: "",
        errors: "",
        status: 0,
        asked: 0,
    },
    // A script is performed from a file.
    Run {
        words: Ok("pp6600 --deck cards lines"),
        typed: "NO\n",
        fails: Fails::Never,
        output: "OK\n7777 1234\nERR 01 NOT A COMMAND\n",
        errors: "",
        status: 1,
        asked: 2,
    },
    // Words that are not available.
    Run {
        words: Err(WordsFault::NotText),
        typed: "STEP\n",
        fails: Fails::Never,
        output: "",
        errors: "pp6600: BAD ARGUMENTS\n",
        status: 2,
        asked: 0,
    },
    Run {
        words: Err(WordsFault::NoMemory),
        typed: "STEP\n",
        fails: Fails::Never,
        output: "",
        errors: "pp6600: NO MEMORY\n",
        status: 2,
        asked: 0,
    },
    // The first write takes two bytes, and the second fails.
    Run {
        words: Ok("pp6600 lines"),
        typed: "",
        fails: Fails::Output(2),
        output: "OK",
        errors: "pp6600: WRITE FAILED\n",
        status: 3,
        asked: 1,
    },
    // A read of standard input fails.
    Run {
        words: Ok("pp6600"),
        typed: "STEP\nSTEP\n",
        fails: Fails::Input(2),
        output: "TURNS 1 SLOT 01\n",
        errors: "pp6600: READ FAILED\n",
        status: 3,
        asked: 0,
    },
    // Help that can't be written is still help: nothing more is printed, and the status is 0.
    Run {
        words: Ok("pp6600 --help"),
        typed: "",
        fails: Fails::Output(3),
        output: "usag",
        errors: "",
        status: 0,
        asked: 0,
    },
    Run {
        words: Ok("pp6600 -h"),
        typed: "",
        fails: Fails::OutputAndErrors(1),
        output: "",
        errors: "",
        status: 0,
        asked: 0,
    },
    // A trouble that can't be written keeps its status.
    Run {
        words: Ok("pp6600 --deck none"),
        typed: "",
        fails: Fails::OutputAndErrors(1),
        output: "",
        errors: "",
        status: 2,
        asked: 1,
    },
];

#[test]
fn runs(rt: HostRuntime) {
    for i in 0..RUNS.len() {
        assert!(rt; run_is_right(rt.alloc(), &RUNS[i]), "row {i}");
    }
}

/// The words of a run that prints only the line of a trouble, that line, the exit status, and how many files were asked for.
type Rejected = (&'static str, &'static str, u8, u32);

fn is_rejected(alloc: Global, row: &Rejected) -> bool {
    let (line, errors, status, asked) = *row;
    let run = Run {
        words: Ok(line),
        typed: "",
        fails: Fails::Never,
        output: "",
        errors,
        status,
        asked,
    };
    run_is_right(alloc, &run)
}

const TROUBLES: [Rejected; 10] = [
    // Words that are rejected.
    ("pp6600 --history 0", "pp6600: BAD ARGUMENTS\n", 2, 0),
    ("pp6600 --reader 14", "pp6600: BAD CHANNEL\n", 2, 0),
    ("pp6600 --reader 13", "pp6600: SAME CHANNEL\n", 2, 0),
    // The first fault of a file.
    ("pp6600 --deck none", "pp6600: CANNOT OPEN DECK\n", 2, 1),
    (
        "pp6600 --panel bad --deck bad",
        "pp6600: DECK LINE 2 NOT OCTAL\n",
        2,
        1,
    ),
    (
        "pp6600 --panel short --deck cards",
        "pp6600: PANEL PANEL COUNT\n",
        2,
        2,
    ),
    (
        "pp6600 --deck cards none",
        "pp6600: CANNOT OPEN SCRIPT\n",
        2,
        2,
    ),
    (
        "pp6600 --deck bad none",
        "pp6600: DECK LINE 2 NOT OCTAL\n",
        2,
        1,
    ),
    ("pp6600 torn", "pp6600: READ FAILED\n", 3, 1),
    ("pp6600 --deck torn", "pp6600: READ FAILED\n", 3, 1),
];

#[test]
fn troubles_end_a_run(rt: HostRuntime) {
    for i in 0..TROUBLES.len() {
        assert!(rt; is_rejected(rt.alloc(), &TROUBLES[i]), "row {i}");
    }
}
