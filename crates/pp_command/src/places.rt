//! The places of WATCH and UNWATCH.
ghost use Rattle.std.specs.Prelude.{◌≡◌, IfOk};
ghost use Rattle.pp_lines.specs.Words.{words};
ghost use Rattle.pp_command.specs.CommandLine as spec;
ghost use Rattle.pp_command.specs.Ranges.{IsPlaceInRange};

use crate::fault::LineFault;
use crate::numbers::{one, processor_and};
use crate::words::{first_word, is_word};
use pp_actions::Watched;

/// Parses a place, by its kind.
///
/// # Errors
/// The first `LineFault` that applies.
#[tactic(auto, unfolding(crate::specs::CommandLine::place))]
pub fn place(text: &[u8]) -> Result<Watched, LineFault>
    ensures value { result ≡ spec.place (words text.now) }
    ensures in_range { IfOk result IsPlaceInRange }
{
    let (kind, rest) = first_word(text)?;
    if is_word(kind, b"M") {
        let (pp, a) = processor_and(rest, 0o7777)?;
        Ok(Watched::Cell { pp, a: a as u16 })
    } else if is_word(kind, b"A") {
        let pp = one(rest, 0o11)? as u8;
        Ok(Watched::RegA { pp })
    } else if is_word(kind, b"P") {
        let pp = one(rest, 0o11)? as u8;
        Ok(Watched::RegP { pp })
    } else if is_word(kind, b"Q") {
        let pp = one(rest, 0o11)? as u8;
        Ok(Watched::RegQ { pp })
    } else if is_word(kind, b"C") {
        let a = one(rest, 0o377777)? as u32;
        Ok(Watched::Central { a })
    } else if is_word(kind, b"H") {
        let c = one(rest, 0o14)? as u8;
        Ok(Watched::Register { c })
    } else {
        Err(LineFault::NotACommand)
    }
}
