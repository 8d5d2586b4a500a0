//! The lines that begin with SET.
ghost use Rattle.std.specs.Prelude.{◌≡◌, ◌≤◌, ◌<◌, ◌+◌, length, All, IfOk};
ghost use Rattle.pp_lines.specs.Words.{words};
ghost use Rattle.pp_machine.specs.ChannelNumbers.{state_number};
ghost use Rattle.pp_command.specs.Numbers.{numbers};
ghost use Rattle.pp_command.specs.CommandLine as spec;
ghost use Rattle.pp_command.specs.Ranges.{IsInRange};

use crate::fault::LineFault;
use crate::numbers::{number, pair, processor_and, two};
use crate::request::Request;
use crate::words::{first_word, is_word, no_words};
use arrayvec::ArrayVec;
use pp_actions::{Action, Values};
use pp_lines::{are_octal, next_word};
use pp_machine::ChannelState;

/// Returns the number of words in the text.
fn count_words(text: &[u8]) -> usize
    ensures { result ≡ length (words text.now) }
{
    let mut count = 0;
    let mut rest = text;
    'words: while let Some((_, others)) = next_word(rest) {
        count += 1;
        rest = others;
    }
    count
}

/// Reads the numbers in all words of the text, at most eight, each 0 to 7777 octal.
#[tactic(auto, using(crate::proofs::NumberLists::number_lists))]
fn cell_values(text: &[u8]) -> Result<Values, LineFault>
    requires { length (words text.now) ≤ 8 }
    ensures value { result ≡ numbers 0o7777 (words text.now) }
    ensures within { IfOk result (λ values. All (λ value. value ≤ 0o7777) values) }
    ensures all { IfOk result (λ values. length values ≡ length (words text.now)) }
{
    let mut values = ArrayVec::new();
    let mut rest = text;
    'words: while let Some((word, others)) = next_word(rest) {
        values.push(number(word, 0o7777)? as u16);
        rest = others;
    }
    Ok(Values::new(values))
}

/// Parses `SET M n a v ..`.
#[tactic(auto, unfolding(crate::specs::CommandLine::set_cells), using(crate::proofs::Agreeing::are_words))]
fn set_cells(text: &[u8]) -> Result<Request, LineFault>
    ensures value { result ≡ spec.set_cells (words text.now) }
    ensures in_range { IfOk result IsInRange }
{
    let count = count_words(text);
    if count < 3 || count > 10 {
        return Err(LineFault::WordCount);
    }
    if !are_octal(text) {
        return Err(LineFault::NotANumber);
    }
    let (pp, rest) = first_word(text)?;
    let (a, rest) = first_word(rest)?;
    Ok(Request::Act(Action::SetCells {
        pp: number(pp, 0o11)? as u8,
        a: number(a, 0o7777)? as u16,
        values: cell_values(rest)?,
    }))
}

/// Returns the state that a letter names.
#[tactic(auto, unfolding(crate::specs::CommandLine::state, crate::specs::Numbers::none))]
fn state(word: &[u8]) -> Result<ChannelState, LineFault>
    ensures value { result ≡ spec.state word.now }
    ensures in_range { IfOk result (λ state. state_number state < 3) }
{
    if is_word(word, b"I") {
        Ok(ChannelState::Inactive)
    } else if is_word(word, b"E") {
        Ok(ChannelState::Empty)
    } else if is_word(word, b"F") {
        Ok(ChannelState::Full)
    } else {
        Err(LineFault::NotACommand)
    }
}

/// Parses `SET H c s [v]`.
#[tactic(auto, unfolding(crate::specs::CommandLine::set_channel, crate::specs::Numbers::one, crate::specs::Numbers::two))]
fn set_channel(text: &[u8]) -> Result<Request, LineFault>
    ensures value { result ≡ spec.set_channel (words text.now) }
    ensures in_range { IfOk result IsInRange }
{
    let (c, rest) = first_word(text)?;
    let (s, rest) = first_word(rest)?;
    let state = state(s)?;
    let Some((v, rest)) = next_word(rest) else {
        return Ok(Request::Act(Action::SetChannel {
            c: number(c, 0o13)? as u8,
            state,
            word: None,
        }));
    };
    no_words(rest)?;
    let (c, word) = pair(c, v, 0o13, 0o7777)?;
    Ok(Request::Act(Action::SetChannel {
        c: c as u8,
        state,
        word: Some(word as u16),
    }))
}

/// Parses the words after SET.
///
/// # Errors
/// The first `LineFault` that applies.
#[tactic(auto, unfolding(crate::specs::CommandLine::setting))]
pub fn set(text: &[u8]) -> Result<Request, LineFault>
    ensures value { result ≡ spec.setting (words text.now) }
    ensures in_range { IfOk result IsInRange }
{
    let (kind, rest) = first_word(text)?;
    if is_word(kind, b"M") {
        set_cells(rest)
    } else if is_word(kind, b"A") {
        let (pp, v) = processor_and(rest, 0o777777)?;
        Ok(Request::Act(Action::SetA { pp, v: v as u32 }))
    } else if is_word(kind, b"P") {
        let (pp, v) = processor_and(rest, 0o7777)?;
        Ok(Request::Act(Action::SetP { pp, v: v as u16 }))
    } else if is_word(kind, b"Q") {
        let (pp, v) = processor_and(rest, 0o7777)?;
        Ok(Request::Act(Action::SetQ { pp, v: v as u16 }))
    } else if is_word(kind, b"C") {
        let (a, v) = two(rest, 0o377777, (1 << 60) - 1)?;
        Ok(Request::Act(Action::SetWord { a: a as u32, v }))
    } else if is_word(kind, b"H") {
        set_channel(rest)
    } else {
        Err(LineFault::NotACommand)
    }
}
