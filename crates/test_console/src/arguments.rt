//! Words of the command line, and the options that they ask for.

use crate::rows::check_rows;
use crate::words::words_of;
use pp_arguments::*;
use pp_machine::CentralSize;
use std::alloc::Global;

/// Reads the words of a line. No word contains a blank.
fn read(alloc: Global, line: &str) -> Result<Options, ArgFault> {
    match words_of(alloc, line) {
        Ok(words) => read_arguments(alloc, words),
        Err(_) => Err(ArgFault::NoMemory),
    }
}

/// The numbers that a line asks for: the actions of the undo history, the size of central memory, and the channels of the card
/// reader and of the printer.
#[derive(Clone, Copy, Drop)]
struct Numbers {
    history: u32,
    central: CentralSize,
    reader: u8,
    printer: u8,
}

/// The files that a line names.
#[derive(Clone, Copy, Drop)]
struct Names<'a> {
    deck: Option<&'a str>,
    panel: Option<&'a str>,
    script: Option<&'a str>,
}

const USUAL: Numbers = Numbers {
    history: 10_000,
    central: CentralSize::K128,
    reader: 0o12,
    printer: 0o13,
};

const NO_NAMES: Names<'static> = Names {
    deck: None,
    panel: None,
    script: None,
};

fn are_numbers(options: &Options, wanted: Numbers) -> bool {
    options.history == wanted.history
        && options.central == wanted.central
        && options.reader == wanted.reader
        && options.printer == wanted.printer
}

fn is_name(name: &Option<String>, wanted: Option<&str>) -> bool {
    match (name, wanted) {
        (Some(name), Some(wanted)) => name.as_str() == wanted,
        (None, None) => true,
        _ => false,
    }
}

fn are_names(options: &Options, wanted: Names) -> bool {
    is_name(&options.deck, wanted.deck)
        && is_name(&options.panel, wanted.panel)
        && is_name(&options.script, wanted.script)
}

/// Returns whether a line asks for these numbers and files.
fn asks(alloc: Global, line: &str, numbers: Numbers, names: Names) -> bool {
    match read(alloc, line) {
        Ok(options) => are_numbers(&options, numbers) && are_names(&options, names),
        Err(_) => false,
    }
}

/// Returns whether a line is rejected for this reason.
fn is_rejected(alloc: Global, line: &str, wanted: ArgFault) -> bool {
    match read(alloc, line) {
        Ok(_) => false,
        Err(fault) => fault == wanted,
    }
}

fn text(name: &Option<String>) -> Option<&str> {
    match name {
        Some(name) => Some(name.as_str()),
        None => None,
    }
}

/// Returns whether these are the options of the example of the crate's page.
fn are_the_example(options: &Options) -> bool {
    text(&options.deck) == Some("F") && options.history == 5 && options.reader == 0o12
}

fn reads_the_example(alloc: Global) -> bool {
    match read(alloc, "pp6600 --deck=F --history=00005 --reader=0012") {
        Ok(options) => are_the_example(&options),
        Err(_) => false,
    }
}

/// A line with each option.
const EACH: &str =
    "pp6600 --deck cards --printer 0 --history 7 lines --panel dead --reader 13 --central 64";

const EACH_NUMBER: Numbers = Numbers {
    history: 7,
    central: CentralSize::K64,
    reader: 0o13,
    printer: 0,
};

const EACH_NAME: Names<'static> = Names {
    deck: Some("cards"),
    panel: Some("dead"),
    script: Some("lines"),
};

const LEAST: Numbers = Numbers {
    history: 1,
    central: CentralSize::K32,
    reader: 0,
    printer: 0o13,
};

/// Returns whether a line asks for the usual options, and names a script.
fn names_script(alloc: Global, line: &str, name: &str) -> bool {
    let names = Names {
        deck: None,
        panel: None,
        script: Some(name),
    };
    asks(alloc, line, USUAL, names)
}

#[test]
fn words_that_are_accepted(rt: HostRuntime) {
    let alloc = rt.alloc();
    let rows = [
        asks(alloc, "pp6600", USUAL, NO_NAMES),
        asks(alloc, EACH, EACH_NUMBER, EACH_NAME),
        // A value may follow an equals sign.
        reads_the_example(alloc),
        // A script may be named as an option.
        names_script(alloc, "pp6600 -- --help", "--help"),
        names_script(alloc, "pp6600 help", "help"),
        // Both ends of each range.
        asks(
            alloc,
            "pp6600 --history 1 --central 32 --reader 0",
            LEAST,
            NO_NAMES,
        ),
        asks(
            alloc,
            "pp6600 --history 10000 --central 0128 --printer 013",
            USUAL,
            NO_NAMES,
        ),
    ];
    check_rows(&rt, &rows);
}

const REJECTED: [(&str, ArgFault); 21] = [
    ("pp6600 --help", ArgFault::Help),
    ("pp6600 -h", ArgFault::Help),
    ("pp6600 --history 0 --help", ArgFault::Help),
    ("pp6600 --history 0", ArgFault::BadArguments),
    ("pp6600 --history 10001", ArgFault::BadArguments),
    ("pp6600 --history 4294967297", ArgFault::BadArguments),
    ("pp6600 --history +5", ArgFault::BadArguments),
    ("pp6600 --history 0x5", ArgFault::BadArguments),
    ("pp6600 --history=", ArgFault::BadArguments),
    ("pp6600 --central 65", ArgFault::BadArguments),
    ("pp6600 --central 0", ArgFault::BadArguments),
    ("pp6600 --core 32", ArgFault::BadArguments),
    ("pp6600 --deck", ArgFault::BadArguments),
    ("pp6600 --deck a --deck a", ArgFault::BadArguments),
    ("pp6600 lines lines", ArgFault::BadArguments),
    ("pp6600 --reader 14 --history 0", ArgFault::BadArguments),
    ("pp6600 --reader 14 --central 65", ArgFault::BadArguments),
    ("pp6600 --reader 14", ArgFault::BadChannel),
    ("pp6600 --reader 9", ArgFault::BadChannel),
    ("pp6600 --printer 14", ArgFault::BadChannel),
    ("pp6600 --printer 8", ArgFault::BadChannel),
];

#[test]
fn words_that_are_refused(rt: HostRuntime) {
    for (line, fault) in REJECTED {
        assert!(rt; is_rejected(rt.alloc(), line, fault), "{line}");
    }
}
