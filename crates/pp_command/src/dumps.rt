//! The lines that begin with DUMP.
ghost use Rattle.std.specs.Prelude.{◌≡◌, IfOk};
ghost use Rattle.pp_lines.specs.Words.{words};
ghost use Rattle.pp_command.specs.Numbers.{none};
ghost use Rattle.pp_command.specs.CommandLine as spec;
ghost use Rattle.pp_command.specs.Ranges.{IsInRange};

use crate::fault::LineFault;
use crate::numbers::{one, three, two};
use crate::request::Request;
use crate::words::{first_word, is_word, no_words};

/// Returns the request if the text has no words.
///
/// # Errors
/// `WordCount` if the text has a word.
#[tactic(auto, unfolding(crate::specs::Numbers::none))]
pub fn alone(request: Request, text: &[u8]) -> Result<Request, LineFault>
    requires { IsInRange request }
    ensures value { result ≡ none request (words text.now) }
    ensures in_range { IfOk result IsInRange }
{
    no_words(text)?;
    Ok(request)
}

/// Parses `DUMP M n a b`.
#[tactic(auto, unfolding(crate::specs::CommandLine::dump_cells))]
fn dump_cells(text: &[u8]) -> Result<Request, LineFault>
    ensures value { result ≡ spec.dump_cells (words text.now) }
    ensures in_range { IfOk result IsInRange }
{
    let (pp, first, last) = three(text, 0o11, 0o7777, 0o7777)?;
    if first > last {
        return Err(LineFault::OutOfRange);
    }
    Ok(Request::DumpCells {
        pp: pp as u8,
        first: first as u16,
        last: last as u16,
    })
}

/// Parses `DUMP C a b`.
#[tactic(auto, unfolding(crate::specs::CommandLine::dump_central))]
fn dump_central(text: &[u8]) -> Result<Request, LineFault>
    ensures value { result ≡ spec.dump_central (words text.now) }
    ensures in_range { IfOk result IsInRange }
{
    let (first, last) = two(text, 0o377777, 0o377777)?;
    if first > last {
        return Err(LineFault::OutOfRange);
    }
    Ok(Request::DumpCentral {
        first: first as u32,
        last: last as u32,
    })
}

/// Parses the words after DUMP.
///
/// # Errors
/// The first `LineFault` that applies.
#[tactic(auto, unfolding(crate::specs::CommandLine::dump))]
pub fn dump(text: &[u8]) -> Result<Request, LineFault>
    ensures value { result ≡ spec.dump (words text.now) }
    ensures in_range { IfOk result IsInRange }
{
    let (kind, rest) = first_word(text)?;
    if is_word(kind, b"M") {
        dump_cells(rest)
    } else if is_word(kind, b"PP") {
        let pp = one(rest, 0o11)? as u8;
        Ok(Request::DumpProcessor(pp))
    } else if is_word(kind, b"H") {
        alone(Request::DumpChannels, rest)
    } else if is_word(kind, b"C") {
        dump_central(rest)
    } else if is_word(kind, b"XP") {
        alone(Request::DumpFrame, rest)
    } else if is_word(kind, b"CR") {
        alone(Request::DumpReader, rest)
    } else if is_word(kind, b"LP") {
        alone(Request::DumpPrinter, rest)
    } else if is_word(kind, b"W") {
        alone(Request::DumpWatches, rest)
    } else {
        Err(LineFault::NotACommand)
    }
}
