//! What the dumps show: registers, channels, devices, central words and cells.
ghost use Rattle.std.specs.Prelude.{◌≡◌, ◌<◌, ◌≤◌, ◌+◌, ◌++◌, ◌*◌, ◌-◌, ◌/◌, length, min};
ghost use Rattle.arrayvec.specs.ArrayVec.{array_vec_len};
ghost use Rattle.pp_lines.specs.Puts.{Puts};
ghost use Rattle.pp_console.specs.Dumps.{each, cell_text, cell_row, cells_text, central_line, central_text, processor_text};
ghost use Rattle.pp_console.specs.Dumps.{state_text, channel_line, channels_text, frame_line, frame_text, mode_text, reader_text};
ghost use Rattle.pp_console.specs.Dumps.{printer_line};
ghost use Rattle.pp_machine.specs.Ranges.{cell_count, processor_count};

use crate::gathering::gather;
use crate::text::push_field;
use arrayvec::ArrayVec;
use pp_history::Reversible;
use pp_lines::{Failed, Sink, push_text, put_all};
use pp_machine::Place;
use pp_rig::Rig;

/// Returns a row: an address, and the cells from there to `last`, at most eight.
#[tactic(auto, unfolding(crate::specs::Dumps::cell_row, crate::specs::Dumps::cell_text), using(crate::proofs::Each::each_one))]
fn row_line(machine: &Rig, pp: u8, last: u16, from: u16) -> ArrayVec<u8, 45>
    requires pp { pp < processor_count }
    requires from { from ≤ last }
    requires last { last < cell_count }
    ensures { result.items ≡ cell_row machine.now pp last from }
{
    let mut line = ArrayVec::new();
    push_field(&mut line, b"", 4, u64::from(from));
    let count = (last + 1 - from).min(8);
    for i in 0..count {
        let a = from + i;
        push_field(&mut line, b" ", 4, machine.value(&Place::Cell { pp, a }));
    }
    line.push(b'\n');
    line
}

// A function clears the space of its locals when it is entered. The locals of a dump are large, so each
// dump is a function of its own, and none is inlined.

/// Writes the cells of processor `pp`, 0 to 9 (decimal), from address `first` to `last`, 0 to 7777, eight (decimal) in a row.
///
/// # Errors
/// `Failed` if a call of the sink fails.
#[tactic(auto, unfolding(crate::specs::Dumps::cells_text))]
#[inline(never)]
pub fn put_cells<W: Sink>(
    machine: &Rig,
    pp: u8,
    first: u16,
    last: u16,
    out: &mut W,
) -> Result<(), Failed>
    requires pp { pp < processor_count }
    requires last { last < cell_count }
    ensures { Puts ⟦<W as Sink>⟧ out.old out.new result (cells_text machine.now pp first last) }
{
    let count = (last + 8).saturating_sub(first) / 8;
    let mut piece = ArrayVec::new();
    for row in 0..count {
        let line = row_line(machine, pp, last, first + 8 * row);
        gather(&mut piece, line.as_slice(), out)?;
    }
    put_all(out, piece.as_slice())
}

/// Writes the line of a processor: its registers and phase, and the slot.
///
/// # Errors
/// `Failed` if a call of the sink fails.
#[tactic(auto, unfolding(crate::specs::Dumps::processor_text))]
#[inline(never)]
pub fn put_processor<W: Sink>(machine: &Rig, pp: u8, out: &mut W) -> Result<(), Failed>
    requires { pp < processor_count }
    ensures { Puts ⟦<W as Sink>⟧ out.old out.new result (processor_text machine.now pp) }
{
    let phase = machine.value(&Place::Phase { pp });
    let mut line: ArrayVec<u8, 48> = ArrayVec::new();
    push_field(&mut line, b"PP ", 2, u64::from(pp));
    push_field(&mut line, b" P ", 4, machine.value(&Place::RegP { pp }));
    push_field(&mut line, b" A ", 6, machine.value(&Place::RegA { pp }));
    push_field(&mut line, b" Q ", 4, machine.value(&Place::RegQ { pp }));
    push_field(&mut line, b" PHASE ", 4, phase);
    push_field(&mut line, b" SLOT ", 2, machine.value(&Place::Slot));
    line.push(b'\n');
    put_all(out, line.as_slice())
}

/// Returns the letter of a channel's state.
#[tactic(auto, unfolding(crate::specs::Dumps::state_text), using(std::proofs::lemmas::List::get_or_past))]
fn state_text(state: u64) -> &'static [u8]
    ensures value { result.now ≡ state_text state }
    ensures len { length result.now ≡ 3 }
{
    match state {
        0 => b" I ",
        1 => b" E ",
        2 => b" F ",
        _ => b" X ",
    }
}

/// Writes the lines of the twelve channels and the clock.
///
/// # Errors
/// `Failed` if a call of the sink fails.
#[tactic(auto, unfolding(crate::specs::Dumps::channels_text, crate::specs::Dumps::channel_line), using(crate::proofs::Each::each_one))]
#[inline(never)]
pub fn put_channels<W: Sink>(machine: &Rig, out: &mut W) -> Result<(), Failed>
    ensures { Puts ⟦<W as Sink>⟧ out.old out.new result (channels_text machine.now) }
{
    let mut lines: ArrayVec<u8, 160> = ArrayVec::new();
    for c in 0..12 {
        push_field(&mut lines, b"H ", 2, u64::from(c));
        push_text(
            &mut lines,
            state_text(machine.value(&Place::ChannelMode { c })),
        );
        push_field(&mut lines, b"", 4, machine.value(&Place::ChannelWord { c }));
        lines.push(b'\n');
    }
    push_field(&mut lines, b"H 14 F ", 4, machine.value(&Place::Clock));
    lines.push(b'\n');
    put_all(out, lines.as_slice())
}

/// Writes the lines of the sixteen words of the exchange package.
///
/// # Errors
/// `Failed` if a call of the sink fails.
#[tactic(auto, unfolding(crate::specs::Dumps::frame_text, crate::specs::Dumps::frame_line), using(crate::proofs::Each::each_one))]
#[inline(never)]
pub fn put_frame<W: Sink>(machine: &Rig, out: &mut W) -> Result<(), Failed>
    ensures { Puts ⟦<W as Sink>⟧ out.old out.new result (frame_text machine.now) }
{
    let mut lines: ArrayVec<u8, 432> = ArrayVec::new();
    for i in 0..16 {
        push_field(&mut lines, b"XP ", 2, u64::from(i));
        push_field(&mut lines, b" ", 20, machine.value(&Place::FrameWord { i }));
        lines.push(b'\n');
    }
    put_all(out, lines.as_slice())
}

/// Returns the line of a central word.
#[tactic(auto, unfolding(crate::specs::Dumps::central_line))]
fn word_line(machine: &Rig, a: u32) -> ArrayVec<u8, 30>
    requires { a < machine.now.setup.central_words }
    ensures { result.items ≡ central_line machine.now a }
{
    let mut line = ArrayVec::new();
    push_field(&mut line, b"C ", 6, u64::from(a));
    push_field(&mut line, b" ", 20, machine.value(&Place::Central { a }));
    line.push(b'\n');
    line
}

/// Writes the central words from `first` to `last`.
///
/// # Errors
/// `Failed` if a call of the sink fails.
#[tactic(auto, unfolding(crate::specs::Dumps::central_text))]
#[inline(never)]
pub fn put_central<W: Sink>(machine: &Rig, first: u32, last: u32, out: &mut W) -> Result<(), Failed>
    requires in_order { first ≤ last }
    requires within { last < machine.now.setup.central_words }
    requires small { last < 0o400000 }
    ensures { Puts ⟦<W as Sink>⟧ out.old out.new result (central_text machine.now first last) }
{
    let mut piece = ArrayVec::new();
    for a in first..last + 1 {
        gather(&mut piece, word_line(machine, a).as_slice(), out)?;
    }
    put_all(out, piece.as_slice())
}

/// Returns the name of a device's mode.
#[tactic(auto, unfolding(crate::specs::Dumps::mode_text), using(std::proofs::lemmas::List::get_or_past))]
fn mode_text(active: &'static [u8], mode: u64) -> &'static [u8]
    requires { length active.now ≤ 15 }
    ensures value { result.now ≡ mode_text active.now mode }
    ensures at_most { length result.now ≤ 15 }
{
    match mode {
        0 => b" MODE IDLE\n",
        1 => active,
        2 => b" MODE STATUS\n",
        _ => b" MODE SENT\n",
    }
}

/// Returns the line of the card reader.
#[tactic(auto, unfolding(crate::specs::Dumps::reader_text))]
fn reader_line(machine: &Rig) -> ArrayVec<u8, 64>
    ensures { result.items ≡ reader_text machine.now }
{
    let mut line = ArrayVec::new();
    push_field(&mut line, b"CR H ", 2, u64::from(machine.reader_channel()));
    push_field(&mut line, b" CARD ", 4, machine.value(&Place::Card));
    push_field(&mut line, b" OF ", 4, u64::from(machine.cards()));
    push_field(&mut line, b" COLUMN ", 3, machine.value(&Place::CardColumn));
    let mode = mode_text(b" MODE READING\n", machine.value(&Place::ReaderMode));
    push_text(&mut line, mode);
    line
}

/// Writes the line of the card reader.
///
/// # Errors
/// `Failed` if a call of the sink fails.
#[inline(never)]
pub fn put_reader<W: Sink>(machine: &Rig, out: &mut W) -> Result<(), Failed>
    ensures { Puts ⟦<W as Sink>⟧ out.old out.new result (reader_text machine.now) }
{
    put_all(out, reader_line(machine).as_slice())
}

/// Returns the line of the line printer.
#[tactic(auto, unfolding(crate::specs::Dumps::printer_line))]
pub fn printer_line(machine: &Rig) -> ArrayVec<u8, 64>
    ensures { result.items ≡ printer_line machine.now }
{
    let symbols = machine.value(&Place::PaperLength);
    let column = machine.value(&Place::PaperColumn);
    let mode = mode_text(b" MODE PRINTING\n", machine.value(&Place::PrinterMode));
    let mut line = ArrayVec::new();
    push_field(&mut line, b"LP H ", 2, u64::from(machine.printer_channel()));
    push_field(&mut line, b" SYMBOLS ", 6, symbols);
    push_field(&mut line, b" COLUMN ", 3, column);
    push_text(&mut line, mode);
    line
}
