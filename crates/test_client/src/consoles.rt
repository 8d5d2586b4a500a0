//! The calls of `pp_console` that the rest of the client has no use for.

use pp_console::{
    Counted, FileKind, IoFault, Sink, Source, Summary, Trouble, load_panel, parse, perform,
    read_arguments,
};
use pp_history::Session;
use pp_rig::{Rig, SetupFault};
use std::alloc::{AllocError, Global};

/// Performs one line, and writes its answer to standard output.
fn show_line(rt: &HostRuntime, session: &mut Session<Rig>) -> Option<()> {
    let command = parse(b"STEP").ok()??;
    let done = perform(session, &command, &mut Counted::new(rt.stdout())).ok()?;
    let _ = println!(rt; "done {done}");
    Some(())
}

/// Returns the words of a command line that asks for a history of this length.
fn words(alloc: Global, history: &str) -> Result<Vec<String>, AllocError> {
    let mut words = Vec::new(alloc);
    for word in ["pp6600", "--history", history] {
        words.push(String::from_str(alloc, word)?)?;
    }
    Ok(words)
}

/// Reads command lines and a panel, and shows what is wrong with them.
fn show_troubles(rt: &HostRuntime) -> Option<()> {
    let history = read_arguments(rt.alloc(), words(rt.alloc(), "5").ok()?)
        .ok()?
        .history;
    let arguments = read_arguments(rt.alloc(), words(rt.alloc(), "0").ok()?).err()?;
    let panel = load_panel(&mut Counted::new(b"1405\n".as_slice())).err()?;
    let _ = println!(rt; "history {history}");
    let troubles = [
        Trouble::from(arguments),
        Trouble::from(SetupFault::SameChannel),
        Trouble::from(IoFault::LineLimit),
        Trouble::load(FileKind::Panel, panel),
    ];
    for trouble in &troubles {
        let status = trouble.status();
        let _ = println!(rt; "{trouble}, status {status}");
    }
    Some(())
}

/// Reads from a source and writes to a sink.
fn show_bytes(rt: &HostRuntime) -> Option<()> {
    let mut source = Counted::new(b"ab".as_slice());
    let mut sink = Counted::new(Vec::new(rt.alloc()));
    let taken = source.take(&mut [0; 4]).ok()?;
    let put = sink.put(b"abc").ok()?;
    let (unread, unwritten) = (Source::failures(&source), Sink::failures(&sink));
    let _ = println!(rt; "taken {taken}, put {put}, failed {unread} and {unwritten}");
    Some(())
}

/// Makes each call, the first one in a session.
pub fn show(rt: &HostRuntime, session: &mut Session<Rig>, summary: &Summary) -> Option<()> {
    show_line(rt, session)?;
    show_troubles(rt)?;
    show_bytes(rt)?;
    let _ = println!(rt; "status {}", summary.status());
    Some(())
}
