//! A client of the crates, written as a user writes one from their pages. Only the checks compile, prove and run it.
#![tactic(auto)]

mod arithmetic;
mod consoles;
mod parts;
mod rigs;
mod steps;

ghost use Rattle.pp_console.specs.Commands.{Value};
ghost use Rattle.pp_console.specs.Script.{script};
ghost use Rattle.pp_history.specs.SessionValue.{IsAt};
ghost use Rattle.pp_lines.specs.Counted.{device_of};
ghost use Rattle.pp_rig.specs.Rules.{rules};
ghost use Rattle.std.specs.Prelude.{◌≡◌, ◌++◌, OnOk};

use arrayvec::ArrayVec;
use pp_console::{Counted, IoFault, Summary, load_deck, serve};
use pp_history::{Looks, Reversible, Session};
use pp_rig::{Action, CentralSize, Place, Rig, Setup, Values, Watched, run};
use std::alloc::Global;
use std::process::ExitCode;

/// Returns a machine with one card in its reader, and a dead start panel whose first word loads 5.
fn machine(alloc: Global) -> Option<Rig> {
    let deck = load_deck(alloc, &mut Counted::new(b"1 2 3\n".as_slice())).ok()?;
    let setup = Setup {
        central: CentralSize::K32,
        reader: 0o12,
        printer: 0o13,
        deck,
        panel: Some([0o1405, 0o3420, 0o0300, 0, 0, 0, 0, 0, 0, 0, 0, 0]),
    };
    let rig = Rig::new(alloc, setup).ok()?;
    Some(rig)
}

/// Returns a session of such a machine.
fn session(alloc: Global) -> Option<Session<Rig>> {
    let rig = machine(alloc)?;
    Session::new(alloc, rig, 100).ok()
}

/// Performs an action if the machine admits it, and returns whether it did.
fn act(session: &mut Session<Rig>, action: Action) -> bool {
    if !session.machine().admits(&action) {
        return false;
    }
    session.act(action);
    true
}

/// Loads a program of three instructions: load 5, store it in cell 0050, stop.
fn load(session: &mut Session<Rig>) -> bool {
    let mut words = ArrayVec::new();
    words.push(0o1405);
    words.push(0o3450);
    words.push(0o0300);
    let cells = Action::SetCells {
        pp: 0,
        a: 0o100,
        values: Values::new(words),
    };
    act(session, cells) && act(session, Action::SetP { pp: 0, v: 0o100 })
}

/// Performs a script, and adds its answers to the bytes that a vector holds. A caller that knows its writer learns from
/// `serve` what that writer holds afterwards.
///
/// # Errors
/// `WriteFailed` and `LineLimit`.
fn answer_into(
    session: &mut Session<Rig>,
    typed: &[u8],
    answers: &mut Counted<Vec<u8>>,
) -> Result<Summary, IoFault>
    ensures { (start : Value) → IsAt rules session.old start → OnOk result
        ((device_of answers.new).items ≡ (device_of answers.old).items ++ (script start typed.now).text) }
{
    serve(session, &mut Counted::new(typed), answers)
}

/// Loads and watches, runs up to the store, and prints what was refused and where the run stopped.
fn run_to_the_store(rt: &HostRuntime, session: &mut Session<Rig>) {
    let loaded = load(session) && act(session, Action::Watch(Watched::Cell { pp: 0, a: 0o50 }));
    let refused = !act(session, Action::SetP { pp: 0, v: 0o10000 });
    let _ = println!(rt; "loaded {loaded}, refused {refused}");
    let stopped = run(session, 25);
    let _ = println!(rt; "turns {}, hit {}", stopped.turns, stopped.hit.is_some());
}

/// Goes back to just before the store, and forward again.
fn go_back_and_forward(rt: &HostRuntime, session: &mut Session<Rig>) {
    let found = session.find_change(&[Place::Cell { pp: 0, a: 0o50 }], &mut Looks::new());
    let _ = println!(rt; "the latest change is {found:?} action back");
    let back = session.back(1).is_ok();
    let before = session.machine().value(&Place::Cell { pp: 0, a: 0o50 });
    let forward = session.forward(1).is_ok();
    let after = session.machine().value(&Place::Cell { pp: 0, a: 0o50 });
    let _ = println!(rt; "back {back} to {before}, forward {forward} to {after}");
}

/// Performs a script whose answers go to standard output.
fn serve_script(rt: &HostRuntime, session: &mut Session<Rig>) -> Option<Summary> {
    let script = b"BACK W\nDUMP PP 0\nDUMP CR\nGO\n".as_slice();
    let summary = serve(
        session,
        &mut Counted::new(script),
        &mut Counted::new(rt.stdout()),
    )
    .ok()?;
    let _ = println!(rt; "lines {}, refused {}", summary.lines, summary.refused);
    Some(summary)
}

/// Performs a script whose answers go into a vector.
fn keep_answers(rt: &HostRuntime, session: &mut Session<Rig>) -> Option<()> {
    let mut answers = Counted::new(Vec::new(rt.alloc()));
    answer_into(session, b"BACK\nSTEP\n", &mut answers).ok()?;
    let _ = println!(rt; "bytes {}", answers.device().len());
    Some(())
}

/// Runs one session forward and back, and performs scripts in it.
fn use_session(rt: &HostRuntime, session: &mut Session<Rig>) -> Option<Summary> {
    run_to_the_store(rt, session);
    go_back_and_forward(rt, session);
    let summary = serve_script(rt, session)?;
    keep_answers(rt, session)?;
    Some(summary)
}

/// Shows one session at work.
fn show_session(rt: &HostRuntime) -> Option<Summary> {
    let mut session = session(rt.alloc())?;
    use_session(rt, &mut session)
}

/// Shows a machine by itself.
fn show_machine(rt: &HostRuntime) -> Option<()> {
    let mut machine = machine(rt.alloc())?;
    rigs::show(rt, &mut machine);
    Some(())
}

/// Shows a change, and going back to it.
fn show_change(rt: &HostRuntime) -> Option<()> {
    let mut session = session(rt.alloc())?;
    rigs::show_change(rt, &mut session);
    Some(())
}

/// Shows settings.
fn show_settings(rt: &HostRuntime) -> Option<()> {
    let mut session = session(rt.alloc())?;
    rigs::show_settings(rt, &mut session);
    Some(())
}

/// Shows a console.
fn show_console(rt: &HostRuntime, summary: &Summary) -> Option<()> {
    let mut session = session(rt.alloc())?;
    consoles::show(rt, &mut session, summary)
}

/// Makes each call.
fn work(rt: &HostRuntime) -> Option<()> {
    let summary = show_session(rt)?;
    arithmetic::show(rt);
    parts::show(rt)?;
    steps::show(rt)?;
    show_machine(rt)?;
    show_change(rt)?;
    show_settings(rt)?;
    show_console(rt, &summary)
}

fn main(rt: HostRuntime) -> ExitCode {
    match work(&rt) {
        Some(()) => ExitCode::SUCCESS,
        None => ExitCode::FAILURE,
    }
}
