//! Performs one command, or one line, and writes the answer.
ghost use Rattle.std.specs.Prelude.{◌≡◌, ◌≤◌, ◌<◌, ◌++◌, IfErr, IfOk, IsTrue, false, length};
ghost use Rattle.pp_lines.specs.Puts.{Puts};
ghost use Rattle.pp_console.specs.Moves.{moved_text};
ghost use Rattle.pp_console.specs.Watches.{hit_text};
ghost use Rattle.pp_actions.specs.Admitting.{first_fault};
ghost use Rattle.pp_console.specs.Commands.{Performs, act_or, answer, back_answer, central_answer, change_answer, forward_answer};
ghost use Rattle.pp_console.specs.Commands.{present, step_answer};
ghost use Rattle.pp_console.specs.Script.{answer_line};

use crate::dumps::{put_cells, put_central, put_channels, put_frame, put_processor, put_reader};
use crate::paper::put_printer;
use crate::refusals::{action_fault_text, fault_text};
use crate::text::push_field;
use crate::watches::{push_hit, put_watches};
use arrayvec::ArrayVec;
use pp_arith::octal;
use pp_command::{Command, LineFault, Request, parse};
use pp_history::Session;
use pp_lines::{Failed, IoFault, Sink, push_text, put_all};
use pp_rig::{Action, Hit, Rig, run};

/// Writes the answer to a command that was rejected.
pub(crate) fn reject<W: Sink>(out: &mut W, text: &[u8]) -> Result<bool, Failed>
    ensures written { Puts ⟦<W as Sink>⟧ out.old out.new result text.now }
    ensures performed { IfOk result (λ performed. performed ≡ false) }
{
    put_all(out, text).and(Ok(false))
}

/// Performs an action, if the machine admits it.
fn act<W: Sink>(session: &mut Session<Rig>, action: Action, out: &mut W) -> Result<bool, Failed>
    ensures { Performs ⟦<W as Sink>⟧ session.old session.new out.old out.new result
        (λ v. act_or (first_fault (present v) action) action v) }
{
    match session.machine().check(&action) {
        Ok(()) => {
            session.act(action);
            put_all(out, b"OK\n").and(Ok(true))
        }
        Err(fault) => reject(out, action_fault_text(fault)),
    }
}

/// Writes the number of actions done and the processor whose turn is next, and the change that ended
/// them, if there is one.
#[tactic(auto, unfolding(crate::specs::Moves::moved_text))]
fn write_moved<W: Sink>(
    out: &mut W,
    name: &[u8],
    actions: u32,
    slot: u8,
    hit: Option<Hit>,
) -> Result<bool, Failed>
    requires { length name.now ≤ 8 }
    ensures written { Puts ⟦<W as Sink>⟧ out.old out.new result (moved_text name.now actions slot ++ hit_text hit) }
    ensures performed { IfOk result IsTrue }
{
    let mut lines = ArrayVec::new();
    push_text(&mut lines, name);
    push_text(&mut lines, octal(u64::from(actions), 1).as_slice());
    push_field(&mut lines, b" SLOT ", 2, u64::from(slot));
    lines.push(b'\n');
    push_hit(&mut lines, hit);
    put_all(out, lines.as_slice()).and(Ok(true))
}

/// Makes turns, up to the first change of a watched number.
#[tactic(auto, unfolding(crate::specs::Commands::step_answer))]
fn step<W: Sink>(session: &mut Session<Rig>, most: u32, out: &mut W) -> Result<bool, Failed>
    ensures { Performs ⟦<W as Sink>⟧ session.old session.new out.old out.new result (step_answer most) }
{
    let done = run(session, most);
    let slot = session.machine().slot();
    write_moved(out, b"TURNS ", done.turns, slot, done.hit)
}

/// Undoes actions, if the undo history has as many.
#[tactic(auto, unfolding(crate::specs::Commands::back_answer))]
fn back<W: Sink>(session: &mut Session<Rig>, actions: u32, out: &mut W) -> Result<bool, Failed>
    ensures { Performs ⟦<W as Sink>⟧ session.old session.new out.old out.new result (back_answer actions) }
{
    match session.back(actions) {
        Ok(()) => write_moved(out, b"BACK ", actions, session.machine().slot(), None),
        Err(_) => reject(out, b"ERR 07 TOO FEW KEPT\n"),
    }
}

/// Redoes actions, if the redo list has as many.
#[tactic(auto, unfolding(crate::specs::Commands::forward_answer))]
fn forward<W: Sink>(session: &mut Session<Rig>, actions: u32, out: &mut W) -> Result<bool, Failed>
    ensures { Performs ⟦<W as Sink>⟧ session.old session.new out.old out.new result (forward_answer actions) }
{
    match session.forward(actions) {
        Ok(()) => write_moved(out, b"FORWARD ", actions, session.machine().slot(), None),
        Err(_) => reject(out, b"ERR 16 TOO FEW AHEAD\n"),
    }
}

/// Undoes the latest change of a watched number, if there is one.
#[tactic(auto, unfolding(crate::specs::Commands::change_answer))]
#[inline(never)]
fn back_to_change<W: Sink>(session: &mut Session<Rig>, out: &mut W) -> Result<bool, Failed>
    ensures { Performs ⟦<W as Sink>⟧ session.old session.new out.old out.new result change_answer }
{
    let places = session.machine().watched_places();
    if places.is_empty() {
        return reject(out, b"ERR 15 NOTHING WATCHED\n");
    }
    match session.back_to_change(places.as_slice()) {
        Ok(actions) => write_moved(out, b"BACK ", actions, session.machine().slot(), None),
        Err(_) => reject(out, b"ERR 10 NO CHANGE KEPT\n"),
    }
}

/// Writes central words, if the machine has them.
#[tactic(auto, unfolding(crate::specs::Commands::central_answer))]
#[inline(never)]
fn dump_central<W: Sink>(
    session: &mut Session<Rig>,
    first: u32,
    last: u32,
    out: &mut W,
) -> Result<bool, Failed>
    requires in_order { first ≤ last }
    requires small { last < 0o400000 }
    ensures { Performs ⟦<W as Sink>⟧ session.old session.new out.old out.new result (central_answer first last) }
{
    if last >= session.machine().central_size().words() {
        return reject(out, fault_text(LineFault::OutOfRange));
    }
    put_central(session.machine(), first, last, out).and(Ok(true))
}

/// Performs a request completely, and then writes its answer. Returns `false` if it was rejected.
pub(crate) fn answer_request<W: Sink>(
    session: &mut Session<Rig>,
    command: &Command,
    out: &mut W,
) -> Result<bool, Failed>
    ensures { Performs ⟦<W as Sink>⟧ session.old session.new out.old out.new result (answer command.now) }
{
    match command.request() {
        Request::Act(action) => act(session, *action, out),
        Request::Step(most) => step(session, *most, out),
        Request::Back(actions) => back(session, *actions, out),
        Request::BackToChange => back_to_change(session, out),
        Request::Forward(actions) => forward(session, *actions, out),
        Request::DumpCells { pp, first, last } => {
            put_cells(session.machine(), *pp, *first, *last, out).and(Ok(true))
        }
        Request::DumpProcessor(pp) => put_processor(session.machine(), *pp, out).and(Ok(true)),
        Request::DumpChannels => put_channels(session.machine(), out).and(Ok(true)),
        Request::DumpCentral { first, last } => dump_central(session, *first, *last, out),
        Request::DumpFrame => put_frame(session.machine(), out).and(Ok(true)),
        Request::DumpReader => put_reader(session.machine(), out).and(Ok(true)),
        Request::DumpPrinter => put_printer(session.machine(), out).and(Ok(true)),
        Request::DumpWatches => put_watches(session.machine().watches(), out).and(Ok(true)),
    }
}

/// Performs a command completely, and then writes its answer. Returns `false` if the command was
/// rejected: its answer is its ERR line, and it changed nothing.
///
/// # Errors
/// `WriteFailed` if a call of the sink fails. The command is performed all the same, and a proper
/// prefix of its answer was written.
pub fn perform<W: Sink>(
    session: &mut Session<Rig>,
    command: &Command,
    out: &mut W,
) -> Result<bool, IoFault>
    ensures performs { Performs ⟦<W as Sink>⟧ session.old session.new out.old out.new result (answer command.now) }
    ensures fault { IfErr result (λ fault. fault ≡ IoFault.WriteFailed) }
{
    answer_request(session, command, out).or(Err(IoFault::WriteFailed))
}

/// Performs a line, and then writes its answer. Returns `false` if the line was rejected: it changed
/// nothing.
///
/// # Errors
/// `Failed` if a call of the sink fails. The line is performed all the same, and a proper prefix of
/// its answer was written.
#[tactic(auto, unfolding(crate::specs::Script::answer_line))]
pub fn answer_line<W: Sink>(
    session: &mut Session<Rig>,
    line: &[u8],
    out: &mut W,
) -> Result<bool, Failed>
    ensures { Performs ⟦<W as Sink>⟧ session.old session.new out.old out.new result (λ v. answer_line v line.now) }
{
    match parse(line) {
        Ok(None) => Ok(true),
        Ok(Some(command)) => answer_request(session, &command, out),
        Err(fault) => reject(out, fault_text(fault)),
    }
}
