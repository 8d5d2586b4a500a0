//! The printer's paper in lines of text.
ghost use Rattle.std.specs.Prelude.{◌≡◌, ◌<◌, ◌∷◌, ◌++◌, [], length, map, position, codes, IfSome, MatchOption};
ghost use Rattle.pp_lines.specs.Puts.{Puts};
ghost use Rattle.pp_console.specs.DisplayCode.{character};
ghost use Rattle.pp_console.specs.Dumps.{printer_text};
ghost use Rattle.pp_console.specs.Paper.{marked, paper_text};
ghost use Rattle.pp_console.specs.Inner.Gathering.{Gathers};
ghost use Rattle.pp_console.specs.Inner.PaperCuts.{is_line_end, rest_text};

use crate::dumps::printer_line;
use crate::gathering::{PIECE, gather};
use arrayvec::ArrayVec;
use pp_lines::{Failed, Sink, push_text, put_all};
use pp_rig::Rig;

/// The characters of display code 00 to 77 (octal).
static DISPLAY_CODE: [u8; 64] =
    *b":ABCDEFGHIJKLMNOPQRSTUVWXYZ0123456789+-*/()$= ,.#[]%\"_!&'?<>@\\^;";

/// Returns the character of a symbol. A line end is a line feed.
#[tactic(auto, unfolding(crate::specs::DisplayCode::character, crate::specs::DisplayCode::display_code))]
fn character(symbol: u8) -> u8
    ensures { result ≡ character symbol }
{
    if symbol < 0o100 {
        DISPLAY_CODE[usize::from(symbol)]
    } else {
        b'\n'
    }
}

/// Gathers the characters of the symbols.
fn gather_characters<W: Sink>(
    piece: &mut ArrayVec<u8, PIECE>,
    symbols: &[u8],
    out: &mut W,
) -> Result<(), Failed>
    ensures { Gathers ⟦<W as Sink>⟧ out.old out.new piece.old.items piece.new.items result (map character symbols.now) }
{
    for symbol in symbols {
        gather(piece, &[character(*symbol)], out)?;
    }
    Ok(())
}

/// Gathers a line of the paper after a mark.
fn gather_line<W: Sink>(
    piece: &mut ArrayVec<u8, PIECE>,
    mark: u8,
    symbols: &[u8],
    out: &mut W,
) -> Result<(), Failed>
    ensures { Gathers ⟦<W as Sink>⟧ out.old out.new piece.old.items piece.new.items result
        (marked (mark ∷ []) (map character symbols.now)) }
{
    gather(piece, &[mark], out)?;
    gather_characters(piece, symbols, out)?;
    gather(piece, b"\n", out)
}

/// Returns the position of the first line end.
fn line_end(symbols: &[u8]) -> Option<usize>
    ensures value { result ≡ position is_line_end symbols.now }
    ensures within { IfSome result (λ end. end < length symbols.now) }
{
    symbols
        .iter()
        .position(|symbol| character(*symbol) == b'\n')
}

/// Returns the first line of the paper without its line end, and the symbols after it.
#[tactic(auto, using(crate::proofs::PaperCuts::paper_cuts))]
fn next_line(symbols: &[u8]) -> Option<(&[u8], &[u8])>
    ensures cut { MatchOption result (paper_text symbols.now ≡ rest_text symbols.now)
        (λ cut. paper_text symbols.now
        ≡ marked (codes "|") (map character cut.0.now) ++ paper_text cut.1.now) }
    ensures shorter { IfSome result (λ cut. length cut.1.now < length symbols.now) }
{
    let (line, rest) = symbols.split_at(line_end(symbols)?);
    Some((line, &rest[1..]))
}

/// Gathers the paper: each line after a bar, and the symbols after the last line end after a slash.
fn gather_paper<W: Sink>(
    piece: &mut ArrayVec<u8, PIECE>,
    symbols: &[u8],
    out: &mut W,
) -> Result<(), Failed>
    ensures { Gathers ⟦<W as Sink>⟧ out.old out.new piece.old.items piece.new.items result (paper_text symbols.now) }
{
    let mut rest = symbols;
    'lines: while let Some((line, later)) = next_line(rest) {
        gather_line(piece, b'|', line, out)?;
        rest = later;
    }
    if rest.is_empty() {
        return Ok(());
    }
    gather_line(piece, b'/', rest, out)
}

/// Writes the state of the line printer, and its paper.
///
/// # Errors
/// `Failed` if a call of the sink fails.
#[inline(never)]
#[tactic(auto, unfolding(crate::specs::Dumps::printer_text))]
pub fn put_printer<W: Sink>(machine: &Rig, out: &mut W) -> Result<(), Failed>
    ensures { Puts ⟦<W as Sink>⟧ out.old out.new result (printer_text machine.now) }
{
    let mut piece = ArrayVec::new();
    push_text(&mut piece, printer_line(machine).as_slice());
    gather_paper(&mut piece, machine.paper(), out)?;
    put_all(out, piece.as_slice())
}
