//! The parts of which the rows of the instruction table and the moves of block transfers are made. Each writes to the machine, and
//! writes the old values into the undo record.

ghost use Rattle.std.specs.Prelude.{◌≡◌, ◌≤◌, ◌<◌, false, length, slice_index, slice_set};
ghost use Rattle.pp_machine.specs.ChannelNumbers.{state_number, with_channel};
ghost use Rattle.pp_machine.specs.Ranges.{channel_count, past_sixty_bits, twelve_bits};
ghost use Rattle.pp_step.specs.Inner.{five_from, five_over};
ghost use Rattle.pp_step.specs.Words as words;
ghost use Rattle.pp_arith.specs.Words60 as words60;

use crate::cells::{joined_cells, put_five_cells};
use crate::channel_states::holding;
use crate::record::{StepRecord, Target};
use pp_arith::split60;
use pp_machine::{Central, Channel, ChannelState, Channels, Memory12, Unaligned32, Unaligned64};

/// Begins the record of a step: it has the places of a target, and of the registers P alone, which a wait does not have. The step
/// adds each further register that it writes.
#[inline(always)]
pub fn start_record(target: Target, back: &mut StepRecord)
    ensures { back.new ≡ record back.old { writes_a = false; writes_q = false; writes_phase = false; target = target } }
{
    back.writes_a = false;
    back.writes_q = false;
    back.writes_phase = false;
    back.target = target;
}

/// Writes a cell.
#[inline(always)]
pub fn set_cell(address: u16, value: u16, memory: &mut Memory12, back: &mut StepRecord)
    requires address_in { address ≤ twelve_bits }
    requires value_in { value ≤ twelve_bits }
    ensures cells { memory.new ≡ slice_set memory.old address value }
    ensures record { back.new ≡ record back.old { address = address; value = slice_index memory.old address } }
    ensures value_in { back.new.value ≤ twelve_bits }
{
    back.address = Unaligned32::new(u32::from(address));
    back.value = memory.get(address);
    memory.set(address, value);
}

/// Writes the five cells from an address on.
#[inline(always)]
pub fn set_cells(address: u16, word: u64, memory: &mut Memory12, back: &mut StepRecord)
    requires address_in { address ≤ twelve_bits }
    requires word_in { word < past_sixty_bits }
    ensures cells { memory.new ≡ five_over address (words60.split60 word) memory.old }
    ensures record { back.new ≡ record back.old { address = address; word = words.joined_cells address memory.old } }
    ensures word_in { back.new.word < past_sixty_bits }
    ensures parts { words60.split60 back.new.word ≡ five_from address memory.old }
{
    back.address = Unaligned32::new(u32::from(address));
    back.word = Unaligned64::new(joined_cells(memory, address));
    put_five_cells(memory, address, split60(word));
}

/// Writes a central word.
#[inline(always)]
pub fn set_word(at: u32, word: u64, central: &mut Central, back: &mut StepRecord)
    requires { word < past_sixty_bits }
    ensures central { central.new ≡ slice_set central.old at word }
    ensures size { length central.new ≡ length central.old }
    ensures record { back.new ≡ record back.old { address = at; word = slice_index central.old at } }
    ensures word_in { back.new.word < past_sixty_bits }
{
    back.address = Unaligned32::new(at);
    back.word = Unaligned64::new(central.get(at));
    central.set(at, word);
}

/// Writes a channel's state and register.
#[inline(always)]
pub fn set_channel(c: u8, channel: Channel, channels: &mut Channels, back: &mut StepRecord)
    requires { c < channel_count }
    ensures channels { channels.new ≡ with_channel channels.old c (state_number channel.state) channel.word }
    ensures record { back.new
        ≡ record back.old { channel = c; state = back.new.state; value = slice_index channels.old.registers c } }
    ensures state { state_number back.new.state ≡ slice_index channels.old.states c }
    ensures value_in { back.new.value ≤ twelve_bits }
{
    let old = channels.get(c);
    back.channel = c;
    back.state = old.state;
    back.value = old.word;
    channels.set(c, channel);
}

/// Writes a channel's state.
#[inline(always)]
pub fn set_state(c: u8, state: ChannelState, channels: &mut Channels, back: &mut StepRecord)
    requires { c < channel_count }
    ensures channels { channels.new ≡ record channels.old { states = slice_set channels.old.states c (state_number state) } }
    ensures record { back.new ≡ record back.old { channel = c; state = back.new.state } }
    ensures state { state_number back.new.state ≡ slice_index channels.old.states c }
{
    let old = channels.get(c);
    back.channel = c;
    back.state = old.state;
    channels.set(c, holding(state, old.word));
}
