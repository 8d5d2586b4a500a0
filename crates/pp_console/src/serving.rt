//! Performs a whole script, from source to sink.
ghost use Rattle.std.specs.Prelude.{◌≡◌, ◌+◌, ◌<◌, ◌∷◌, ◌++◌, [], Option, Some, ℕ, List, IfErr, OnOk, MatchResult, length, true};
ghost use Rattle.std.specs.Io.KnownBytes.{Consumes, IsAtEnd};
ghost use Rattle.pp_lines.specs.Device.{Counts};
ghost use Rattle.pp_history.specs.SessionValue.{IsAt};
ghost use Rattle.pp_rig.specs.Rules.{rules};
ghost use Rattle.pp_lines.specs.Output.{Written};
ghost use Rattle.pp_lines.specs.LineCutter.{IsPrefixOf};
ghost use Rattle.pp_lines.specs.Lines.{finished, unfinished};
ghost use Rattle.pp_lines.specs.Terminal.{sink_of, source_of};
ghost use Rattle.pp_console.specs.Order.{ReadsOnTime, dialogue_at, reads_of};
ghost use Rattle.pp_console.specs.Commands.{State, Value};
ghost use Rattle.pp_console.specs.Serving.{Origin, Breaks, Serves, Stops, CountsReads, CountsWrites, origin_of};
ghost use Rattle.pp_console.specs.Inner.ServingSteps.{HasEnded, HasRead, Interrupts, IsNoReadFault};

use crate::commands::answer_line;
use crate::progress::{BYTE_LIMIT, KEPT, LINE_LIMIT, Progress, Summary};
use pp_history::Session;
use pp_lines::{Failed, IoFault, Sink, Source, Terminal, next_line};
use pp_rig::Rig;

/// The number of bytes that a read asks for.
pub const PIECE: usize = 4096;

/// Performs the unfinished line, which ends with this text, and begins the next. If nothing of it was
/// kept, the text is the whole line, and is not copied.
fn end_line<W: Sink>(
    progress: &mut Progress,
    text: &[u8],
    session: &mut Session<Rig>,
    out: &mut W,
) -> Result<(), Failed>
    requires text { finished text.now ≡ [] }
    requires lines { progress.old.summary.lines < LINE_LIMIT }
    ensures ended { (origin : Origin) (bytes : List ℕ) → IsPrefixOf KEPT progress.old.line bytes →
        HasEnded progress.old.summary session.old (W.text out.old) origin (finished bytes) →
        MatchResult result
        (λ _. HasEnded progress.new.summary session.new (W.text out.new) origin
        (finished bytes ++ unfinished (bytes ++ text.now) ∷ []))
        (λ _. Breaks session.new (W.text out.new) origin (finished bytes) (unfinished (bytes ++ text.now))) }
    ensures line { OnOk result ((bytes : List ℕ) → IsPrefixOf KEPT progress.new.line (bytes ++ 10 ∷ [])) }
    ensures bytes { progress.new.bytes ≡ progress.old.bytes }
    ensures counts { Counts (W.failure_count out.old) (W.failure_count out.new) result }
{
    let performed = if progress.line.line().is_empty() {
        answer_line(session, text, out)?
    } else {
        progress.line.take_text(text);
        answer_line(session, progress.line.line(), out)?
    };
    progress.line.end_line();
    progress.summary.lines += 1;
    progress.summary.refused += u32::from(!performed);
    Ok(())
}

/// Processes bytes of a line.
#[tactic(auto, using(crate::proofs::Reading::texts_read))]
fn feed_text(progress: &mut Progress, text: &[u8]) -> Result<(), IoFault>
    requires { finished text.now ≡ [] }
    ensures has_read { (session : State) (written : Written) (origin : Origin) (bytes : List ℕ) →
        HasRead progress.old session written origin bytes →
        MatchResult result
        (λ _. HasRead progress.new session written origin (bytes ++ text.now))
        (λ fault. Interrupts fault session written origin (bytes ++ text.now)) }
    ensures bytes { OnOk result (progress.new.bytes ≡ progress.old.bytes + length text.now) }
    ensures fault { IfErr result (λ fault. fault ≡ IoFault.LineLimit) }
{
    if text.is_empty() {
        return Ok(());
    }
    let room = (BYTE_LIMIT - progress.bytes) as usize;
    if progress.summary.lines == LINE_LIMIT || text.len() > room {
        return Err(IoFault::LineLimit);
    }
    progress.bytes += text.len() as u32;
    progress.line.take_text(text);
    Ok(())
}

/// Processes bytes of a line, and the line feed after them.
#[tactic(auto, using(crate::proofs::Reading::lines_read))]
fn feed_line<W: Sink>(
    progress: &mut Progress,
    text: &[u8],
    session: &mut Session<Rig>,
    out: &mut W,
) -> Result<(), IoFault>
    requires { finished text.now ≡ [] }
    ensures has_read { (origin : Origin) (bytes : List ℕ) →
        HasRead progress.old session.old (W.text out.old) origin bytes →
        MatchResult result
        (λ _. HasRead progress.new session.new (W.text out.new) origin ((bytes ++ text.now) ++ 10 ∷ []))
        (λ fault. Interrupts fault session.new (W.text out.new) origin ((bytes ++ text.now) ++ 10 ∷ [])) }
    ensures bytes { OnOk result (progress.new.bytes ≡ progress.old.bytes + (length text.now + 1)) }
    ensures counts { CountsWrites (W.failure_count out.old) (W.failure_count out.new) result }
    ensures faults { IfErr result IsNoReadFault }
{
    let room = (BYTE_LIMIT - progress.bytes) as usize;
    if progress.summary.lines == LINE_LIMIT || text.len() >= room {
        return Err(IoFault::LineLimit);
    }
    progress.bytes += text.len() as u32 + 1;
    match end_line(progress, text, session, out) {
        Ok(()) => Ok(()),
        Err(Failed) => Err(IoFault::WriteFailed),
    }
}

/// Processes one more piece of the script.
fn feed<W: Sink>(
    progress: &mut Progress,
    piece: &[u8],
    session: &mut Session<Rig>,
    out: &mut W,
) -> Result<(), IoFault>
    ensures has_read { (origin : Origin) (bytes : List ℕ) →
        HasRead progress.old session.old (W.text out.old) origin bytes →
        MatchResult result
        (λ _. HasRead progress.new session.new (W.text out.new) origin (bytes ++ piece.now))
        (λ fault. Interrupts fault session.new (W.text out.new) origin (bytes ++ piece.now)) }
    ensures bytes { OnOk result (progress.new.bytes ≡ progress.old.bytes + length piece.now) }
    ensures counts { CountsWrites (W.failure_count out.old) (W.failure_count out.new) result }
    ensures faults { IfErr result IsNoReadFault }
{
    let mut rest = piece;
    'lines: while let Some((line, later)) = next_line(rest) {
        feed_line(progress, line, session, out)?;
        rest = later;
    }
    feed_text(progress, rest)
}

/// Performs the last line, if no line feed ended it, and returns the summary.
fn finish<W: Sink>(
    progress: &mut Progress,
    session: &mut Session<Rig>,
    out: &mut W,
) -> Result<Summary, IoFault>
    ensures serves { (origin : Origin) (bytes : List ℕ) (left : Option (List ℕ)) → IsAtEnd left →
        HasRead progress.old session.old (W.text out.old) origin bytes →
        MatchResult result
        (λ summary. Serves summary session.new (W.text out.new) origin bytes)
        (λ fault. Stops fault session.new (W.text out.new) origin bytes left) }
    ensures counts { CountsWrites (W.failure_count out.old) (W.failure_count out.new) result }
    ensures faults { IfErr result IsNoReadFault }
{
    if progress.line.line().is_empty() {
        return Ok(progress.summary);
    }
    match end_line(progress, b"", session, out) {
        Ok(()) => Ok(progress.summary),
        Err(Failed) => Err(IoFault::WriteFailed),
    }
}

/// Performs every line that a terminal reads, as `serve` does. Before each read, each line that has ended is answered, and nothing
/// else is written. Each read is one call of the source, and asks for `PIECE` bytes.
///
/// # Errors
/// Those of `serve`.
pub fn serve_terminal<R: Source, W: Sink>(
    session: &mut Session<Rig>,
    terminal: &mut Terminal<'_, '_, R, W>,
) -> Result<Summary, IoFault>
    ensures same_source { terminal.new.source.ghost_name ≡ terminal.old.source.ghost_name }
    ensures same_output { terminal.new.output.ghost_name ≡ terminal.old.output.ghost_name }
    ensures script { (taken : List ℕ)
        × Consumes (R.rest (source_of terminal.old)) (R.rest (source_of terminal.new)) taken
        × (R.given (source_of terminal.new) ≡ R.given (source_of terminal.old) ++ taken)
        × ((start : Value) → IsAt rules session.old start → MatchResult result
        (λ summary. Serves summary session.new (W.text (sink_of terminal.new))
        (origin_of start (W.text (sink_of terminal.old))) taken)
        (λ fault. Stops fault session.new (W.text (sink_of terminal.new)) (origin_of start (W.text (sink_of terminal.old))) taken
        (R.rest (source_of terminal.new)))) }
    ensures all { OnOk result (IsAtEnd (R.rest (source_of terminal.new))) }
    ensures ended { OnOk result (R.ended (source_of terminal.new) ≡ true) }
    ensures reads { CountsReads (R.failure_count (source_of terminal.old)) (R.failure_count (source_of terminal.new)) result }
    ensures writes { CountsWrites (W.failure_count (sink_of terminal.old)) (W.failure_count (sink_of terminal.new)) result }
    ensures piece { PIECE ≡ 4096 }
    ensures order { (taken : List ℕ) → R.given (source_of terminal.new) ≡ R.given (source_of terminal.old) ++ taken →
        (start : Value) → IsAt rules session.old start →
        ReadsOnTime start (dialogue_at R.Source W.Sink terminal.old) taken
        (reads_of R.Source terminal.old) (reads_of R.Source terminal.new) }
{
    let mut progress = Progress::new();
    let mut piece = [0; PIECE];
    'pieces: loop {
        match terminal.take(&mut piece) {
            Err(Failed) => return Err(IoFault::ReadFailed),
            Ok(0) => return finish(&mut progress, session, terminal.output),
            Ok(count) => feed(&mut progress, &piece[..count], session, terminal.output)?,
        }
    }
}

/// Performs every line of the source in turn, and writes each answer before it reads more bytes. An
/// unfinished line is performed at the end of input, but not after a fault.
///
/// A script has at most 1,000,000 lines and 268,435,456 bytes.
///
/// # Errors
/// `ReadFailed` if a call of the source fails, and `WriteFailed` if a call of the sink fails.
/// `LineLimit` if a byte was read that begins a line past the limit, or that is itself past the limit
/// of bytes. The session is then as the commands performed so far left it. These include a command
/// whose answer could not be written.
pub fn serve<R: Source, W: Sink>(
    session: &mut Session<Rig>,
    source: &mut R,
    out: &mut W,
) -> Result<Summary, IoFault>
    // For every source: the bytes read are the script, and after a fault they determine what was performed.
    ensures script { (taken : List ℕ) × Consumes (R.rest source.old) (R.rest source.new) taken
        × (R.given source.new ≡ R.given source.old ++ taken)
        × ((start : Value) → IsAt rules session.old start → MatchResult result
        (λ summary. Serves summary session.new (W.text out.new) (origin_of start (W.text out.old)) taken)
        (λ fault. Stops fault session.new (W.text out.new) (origin_of start (W.text out.old)) taken (R.rest source.new))) }
    ensures all { OnOk result (IsAtEnd (R.rest source.new)) }
    ensures ended { OnOk result (R.ended source.new ≡ true) }

    // The limits that the clauses name.
    ensures limits { (LINE_LIMIT ≡ 1000000) × (BYTE_LIMIT ≡ 268435456) }

    // The fault that is returned, and no other, raised its count of failures by one.
    ensures reads { CountsReads (R.failure_count source.old) (R.failure_count source.new) result }
    ensures writes { CountsWrites (W.failure_count out.old) (W.failure_count out.new) result }
{
    serve_terminal(session, &mut Terminal::new(source, out))
}
