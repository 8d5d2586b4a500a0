//! Undoing a step: the numbers of its undo record go back to their places.

ghost use Rattle.std.specs.Prelude.{◌≡◌, ◌<◌, ℕ, List, if◌then◌else◌, length, slice_set};
ghost use Rattle.pp_machine.specs.{ChannelNumbers.state_number, Ranges.channel_count};
ghost use Rattle.pp_step.specs.Inner.{HasRegisters};
ghost use Rattle.pp_step.specs.{Pairs.target_pairs, Pairs.Fits, Pairs.FitsTarget, Step.pp_pairs, Step.FitsPp, View.pp_view, View.over};

use crate::cells::put_five_cells;
use crate::channel_states::holding;
use crate::record::{PpRecord, StepRecord, Target};
use pp_arith::split60;
use pp_machine::{Central, ChannelState, Channels, Memory12, Pp};

/// Writes a channel's state, but no record.
fn put_state(c: u8, state: ChannelState, channels: &mut Channels)
    requires { c < channel_count }
    ensures { channels.new ≡ record channels.old { states = slice_set channels.old.states c (state_number state) } }
{
    channels.set(c, holding(state, channels.get(c).word));
}

/// Puts the numbers of a record's target at their places.
#[inline(always)]
fn put_target(
    back: &StepRecord,
    memory: &mut Memory12,
    channels: &mut Channels,
    central: &mut Central,
)
    requires { FitsTarget (length central.old) back.now }
    ensures { (pp : Pp) (frame : List ℕ) → pp_view pp memory.new channels.new central.new frame
        ≡ over (pp_view pp memory.old channels.old central.old frame) (target_pairs back.now) }
{
    // A comparison is faster than a table of jumps, and most steps end here.
    if matches!(back.target, Target::Wait | Target::Nothing) {
        return;
    }
    match back.target {
        Target::Wait | Target::Nothing => {}
        Target::Cell => memory.set(back.address.get() as u16, back.value),
        Target::Cells => put_five_cells(
            memory,
            back.address.get() as u16,
            split60(back.word.get()),
        ),
        Target::Word => central.set(back.address.get(), back.word.get()),
        Target::State => put_state(back.channel, back.state, channels),
        Target::Channel => channels.set(back.channel, holding(back.state, back.value)),
        Target::CellAndState => {
            put_state(back.channel, back.state, channels);
            memory.set(back.address.get() as u16, back.value);
        }
    }
}

/// Puts Q and the phase back. Most steps write neither, and as a function of its own this takes no instruction of theirs.
#[inline(never)]
fn put_transfer(back: &StepRecord, pp: &mut Pp)
    requires { (size : ℕ) × Fits size back.now }
    ensures { HasRegisters pp.new pp.old.p pp.old.a (if back.now.writes_q then back.now.q else pp.old.q)
        (if back.now.writes_phase then back.now.phase else pp.old.phase) }
{
    if back.writes_q {
        pp.q = back.q;
    }
    if back.writes_phase {
        pp.phase = back.phase;
    }
}

/// Undoes a step that was no exchange by its undo record, which must fit the machine, as it does right after that step.
#[inline(always)]
#[tactic(auto, unfolding(crate::specs::Step::pp_pairs, crate::specs::Step::FitsPp))]
pub fn undo_short(
    back: &StepRecord,
    pp: &mut Pp,
    memory: &mut Memory12,
    channels: &mut Channels,
    central: &mut Central,
)
    requires { FitsPp (length central.old) (PpRecord.Step back.now) }
    ensures { (frame : List ℕ) → pp_view pp.new memory.new channels.new central.new frame
        ≡ over (pp_view pp.old memory.old channels.old central.old frame) (pp_pairs (PpRecord.Step back.now)) }
{
    put_target(back, memory, channels, central);
    if back.target.writes_p() {
        pp.p = back.p;
    }
    if back.writes_a {
        pp.a = back.a.get();
    }
    if back.writes_q | back.writes_phase {
        put_transfer(back, pp);
    }
}
