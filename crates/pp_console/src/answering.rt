//! Answers to lines, as many as a slice has room for.
ghost use Rattle.pp_console.specs.AnswerRoom.{change_room, hit_size, line_room, longest_hit, request_room};
ghost use Rattle.pp_console.specs.Answering.{AnswersPart, Fits, HasMore, HasRoom, HasSame};
ghost use Rattle.pp_console.specs.Answering.{IsSameSlice, LacksRoom, Settles, left_in};
ghost use Rattle.pp_console.specs.Commands.{Value, answer};
ghost use Rattle.pp_console.specs.Refusals.{fault_text};
ghost use Rattle.pp_console.specs.Script.{answer_line};
ghost use Rattle.pp_history.specs.SessionValue.{IsAt};
ghost use Rattle.pp_lines.specs.Lines.{lines, unfinished};
ghost use Rattle.pp_rig.specs.Rules.{rules};
ghost use Rattle.std.specs.Prelude.{◌≡◌, ◌+◌, ◌-◌, ◌<◌, ◌≤◌, ◌∷◌, ◌⊎◌, [], MatchOption, drop, false, length, take, true};

use crate::commands::{answer_request, reject};
use crate::progress::{BYTE_LIMIT, LINE_LIMIT};
use crate::refusals::fault_text;
use crate::room::Room;
use pp_command::{Command, LineFault, Request, parse};
use pp_history::Session;
use pp_lines::{Failed, next_line};
use pp_rig::{Rig, Watched};

/// Why no further line was answered.
#[derive(Clone, Copy, Debug, PartialEq, Eq, Drop)]
pub enum End {
    /// There was no further line.
    All,
    /// The answer to the next line might not fit.
    Room,
    /// The next line is past the limit of lines or of bytes.
    Limit,
}

/// How far a script was answered.
#[derive(Clone, Copy, Debug, PartialEq, Eq, Drop)]
pub struct Answered {
    /// The bytes of the lines that were performed and answered, line feeds included.
    pub taken: usize,
    /// The bytes of the answers.
    pub count: usize,
    /// The lines that were performed, ignored ones included.
    pub lines: u32,
    /// How many of them were rejected.
    pub refused: u32,
    pub end: End,
}

/// Returns the most bytes of a HIT line at this place.
fn hit_size(watched: Watched) -> usize
    ensures value { result ≡ hit_size watched }
    ensures within { result ≤ 55 }
{
    match watched {
        Watched::Central { .. } => 55,
        _ => 24,
    }
}

/// Returns the most bytes of a HIT line at one of these places.
fn longest_hit(watches: &[Watched]) -> usize
    ensures longest { result ≡ longest_hit watches.now }
    ensures within { result ≤ 55 }
{
    let mut longest = 0;
    for i in 0..watches.len() {
        longest = hit_size(watches[watches.len() - 1 - i]).max(longest);
    }
    longest
}

/// Returns the most bytes of the answer to a request that may change the session, or `None` for a dump.
fn change_room(request: &Request, machine: &Rig) -> Option<usize>
    ensures { result ≡ change_room request.now machine.now }
{
    match request {
        Request::Step(_) => Some(39 + longest_hit(machine.watches())),
        Request::Act(_) | Request::Back(_) | Request::BackToChange | Request::Forward(_) => Some(
            39,
        ),
        _ => None,
    }
}

/// Returns whether there is room for the longest answer to a request that may change the session. For a dump it is true.
fn has_room(request: &Request, machine: &Rig, room: &Room) -> bool
    ensures room { result ≡ true → HasRoom (change_room request.now machine.now) (left_in room.now) }
    ensures lacks { result ≡ false → LacksRoom (change_room request.now machine.now) (left_in room.now) }
{
    match change_room(request, machine) {
        Some(most) => most <= room.left(),
        None => true,
    }
}

/// Keeps what was written, or if the room was too small forgets all but the first `before` bytes. Returns the result, or
/// `None` if the room was too small.
fn settle(room: &mut Room, before: usize, written: Result<bool, Failed>) -> Option<bool>
    requires { before ≤ length room.old.bytes.now }
    ensures { Settles room.old room.new before written result }
{
    match written {
        Ok(performed) => Some(performed),
        Err(Failed) => {
            room.rewind(before);
            None
        }
    }
}

/// Writes the answer to a line that is no command, if there is room.
fn answer_fault(fault: LineFault, room: &mut Room) -> Option<bool>
    requires { room.old.failures ≡ 0 }
    ensures same { IsSameSlice room.old room.new }
    ensures fits { MatchOption result
        (HasSame room.old room.new × (left_in room.old < length (fault_text fault)))
        (λ performed. (performed ≡ false) × HasMore room.old room.new (fault_text fault)) }
{
    let before = room.count();
    let written = reject(room, fault_text(fault));
    settle(room, before, written)
}

/// Performs a command and writes its answer, if there is room.
fn answer_command(session: &mut Session<Rig>, command: &Command, room: &mut Room) -> Option<bool>
    requires { room.old.failures ≡ 0 }
    ensures same { IsSameSlice room.old room.new }
    ensures fits { (v : Value) → IsAt rules session.old v →
        Fits session.new room.old room.new v (answer command.now v) (request_room v command.now) result }
{
    session.has_session_value();
    if !has_room(command.request(), session.machine(), room) {
        return None;
    }
    let before = room.count();
    let written = answer_request(session, command, room);
    settle(room, before, written)
}

/// Performs a line and writes its answer, if there is room. Returns whether it was performed, and not rejected. Or
/// returns `None`: the line may need more room, and nothing has changed.
#[tactic(auto, unfolding(crate::specs::Script::answer_line, crate::specs::AnswerRoom::line_room))]
fn answer_within(session: &mut Session<Rig>, line: &[u8], room: &mut Room) -> Option<bool>
    requires { room.old.failures ≡ 0 }
    ensures same { IsSameSlice room.old room.new }
    ensures fits { (v : Value) → IsAt rules session.old v →
        Fits session.new room.old room.new v (answer_line v line.now) (line_room v line.now) result }
{
    match parse(line) {
        Ok(None) => Some(true),
        Ok(Some(command)) => answer_command(session, &command, room),
        Err(fault) => answer_fault(fault, room),
    }
}

/// Returns the first line after these bytes, without its line feed, and how many bytes it has with it.
#[tactic(auto, using(crate::proofs::FirstLines::first_lines))]
fn first_line(typed: &[u8], taken: usize) -> (&[u8], usize)
    requires { taken < length typed.now }
    ensures bytes { (0 < result.1) × (result.1 ≤ length typed.now - taken) × (result.1 ≤ length result.0.now + 1) }
    ensures line { lines (take result.1 (drop taken typed.now)) ≡ result.0.now ∷ [] }
    ensures ends { (unfinished (take result.1 (drop taken typed.now)) ≡ []) ⊎ (result.1 ≡ length (drop taken typed.now)) }
{
    let text = &typed[taken..];
    match next_line(text) {
        Some((line, _)) => (line, line.len() + 1),
        None => (text, text.len()),
    }
}

/// Returns whether one more line, which ends at this byte, is past a limit.
fn is_past(lines: u32, end: usize) -> bool
    requires { lines ≤ LINE_LIMIT }
    ensures past { result ≡ true → (lines ≡ LINE_LIMIT) ⊎ (BYTE_LIMIT < end) }
    ensures within { result ≡ false → lines < LINE_LIMIT }
{
    lines == LINE_LIMIT || end > BYTE_LIMIT as usize
}

/// Performs lines, and writes their answers into a room that is empty, as `answer_into` does.
fn answer_lines(session: &mut Session<Rig>, typed: &[u8], room: &mut Room) -> Answered
    requires failures { room.old.failures ≡ 0 }
    requires empty { room.old.count ≡ 0 }
    ensures same { IsSameSlice room.old room.new }
    ensures answers { (start : Value) → IsAt rules session.old start →
        AnswersPart session.new typed.now room.new.bytes.now start result }
{
    let mut taken = 0;
    let mut lines = 0;
    let mut refused = 0;
    while taken < typed.len() {
        let (line, bytes) = first_line(typed, taken);
        if is_past(lines, taken + bytes) {
            return Answered {
                taken,
                count: room.count(),
                lines,
                refused,
                end: End::Limit,
            };
        }
        let Some(performed) = answer_within(session, line, room) else {
            return Answered {
                taken,
                count: room.count(),
                lines,
                refused,
                end: End::Room,
            };
        };
        taken += bytes;
        lines += 1;
        refused += u32::from(!performed);
    }
    Answered {
        taken,
        count: room.count(),
        lines,
        refused,
        end: End::All,
    }
}

/// Performs lines, and writes their answers into a slice, until there is no further line, or the answer to the next one
/// might not fit, or the next one is past a limit: 1,000,000 lines and 268,435,456 bytes (decimal). No line is lost: a
/// line whose answer does not fit is not performed. The bytes after the last line feed are a line too.
///
/// A dump is performed if its answer fits. Any other line is performed if there is room for the longest answer to its
/// command: 39 bytes (decimal), and for STEP the line of a HIT in addition, 55 if a central word is watched, and
/// otherwise 24 if anything is.
pub fn answer_into(session: &mut Session<Rig>, typed: &[u8], into: &mut [u8]) -> Answered
    ensures answers { (start : Value) → IsAt rules session.old start → AnswersPart session.new typed.now into.new start result }
{
    let mut room = Room::new(into);
    answer_lines(session, typed, &mut room)
}
