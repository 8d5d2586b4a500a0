//! Parses the bytes of a line into a command.
ghost use Rattle.std.specs.Prelude.{◌≡◌, IfOk};
ghost use Rattle.std.specs.List.{list_all};
ghost use Rattle.pp_lines.specs.Words.{words};
ghost use Rattle.pp_command.specs.CommandLine as spec;
ghost use Rattle.pp_command.specs.Ranges.{IsInRange};

use crate::command::Command;
use crate::dumps::{alone, dump};
use crate::fault::LineFault;
use crate::numbers::count;
use crate::places::place;
use crate::request::Request;
use crate::settings::set;
use crate::words::is_word;
use pp_actions::Action;
use pp_lines::{next_word, without_return};

/// The largest number of bytes in a line, without a carriage return at its end.
const LONGEST: usize = 255;

/// Parses `BACK W` or `BACK [count]`.
#[tactic(auto, unfolding(crate::specs::CommandLine::back))]
fn back(text: &[u8]) -> Result<Request, LineFault>
    ensures value { result ≡ spec.back (words text.now) }
    ensures in_range { IfOk result IsInRange }
{
    match next_word(text) {
        Some((word, rest)) if is_word(word, b"W") && next_word(rest).is_none() => {
            Ok(Request::BackToChange)
        }
        _ => Ok(Request::Back(count(text)?)),
    }
}

/// Parses the command that a first word names, with the words after it.
#[tactic(auto, unfolding(crate::specs::CommandLine::request_of))]
fn request_of(name: &[u8], text: &[u8]) -> Result<Request, LineFault>
    ensures value { result ≡ spec.request_of name.now (words text.now) }
    ensures in_range { IfOk result IsInRange }
{
    if is_word(name, b"SET") {
        set(text)
    } else if is_word(name, b"STEP") {
        Ok(Request::Step(count(text)?))
    } else if is_word(name, b"BACK") {
        back(text)
    } else if is_word(name, b"FORWARD") {
        Ok(Request::Forward(count(text)?))
    } else if is_word(name, b"WATCH") {
        Ok(Request::Act(Action::Watch(place(text)?)))
    } else if is_word(name, b"UNWATCH") {
        Ok(Request::Act(Action::Unwatch(place(text)?)))
    } else if is_word(name, b"DEADSTART") {
        alone(Request::Act(Action::Deadstart), text)
    } else if is_word(name, b"DUMP") {
        dump(text)
    } else {
        Err(LineFault::NotACommand)
    }
}

/// Returns whether the byte is a tab or a printable ASCII character.
fn is_printable(byte: u8) -> bool
    ensures { result ≡ spec.is_printable byte }
{
    byte == b'\t' || byte >= b' ' && byte <= b'~'
}

/// Returns whether every byte is a tab or a printable ASCII character.
fn are_printable(text: &[u8]) -> bool
    ensures { result ≡ list_all spec.is_printable text.now }
{
    text.iter().all(|byte| is_printable(*byte))
}

/// Parses a line without its line feed. One carriage return at the end is dropped. Returns `None` for
/// a line that is ignored: it has no words, or its first word begins with `*`.
///
/// Words are separated by blanks and tabs, and letters of either case are equal. Numbers are octal.
/// The language is this project's own.
///
/// # Errors
/// The first `LineFault` that applies.
#[tactic(auto, unfolding(crate::specs::CommandLine::command))]
pub fn parse(line: &[u8]) -> Result<Option<Command>, LineFault>
    ensures { result ≡ spec.command line.now }
{
    let text = without_return(line);
    if text.len() > LONGEST {
        return Err(LineFault::TooLong);
    }
    if !are_printable(text) {
        return Err(LineFault::NotAscii);
    }
    let Some((first, rest)) = next_word(text) else {
        return Ok(None);
    };
    if first.first() == Some(&b'*') {
        return Ok(None);
    }
    // Not by `?`, which would copy the request once more.
    match request_of(first, rest) {
        Ok(request) => Ok(Some(Command::new(request))),
        Err(fault) => Err(fault),
    }
}
