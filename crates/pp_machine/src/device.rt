//! What the machine asks of a device.
ghost use Rattle.std.specs.Prelude.{◌≡◌, ◌+◌, ◌≤◌, ◌++◌, length, take};
ghost use Rattle.pp_machine.specs.Inner.Device.{DeviceModel, device_place, device_view, device_old_values, over_device};
ghost use Rattle.pp_machine.specs.Prelude.{lookup, renamed, state_number};
ghost use Rattle.pp_machine.specs.Olds.{numbered};

use crate::channel::{Channel, ChannelState};
use crate::olds::Old;
use crate::place::{Place, Write};
use crate::unaligned::Unaligned16;

/// A device on a data channel. It sees its own numbers, and the state and the register of its channel.
pub trait Device: Drop {
    /// The undo record of one step.
    type Record: Copy + Default;

    /// The names of the device's own numbers.
    ghost Own: { Type 0 };

    /// What a step writes, what an undo record has, and where a machine has the device.
    ghost model: { DeviceModel Self Own Self.Record };

    /// Makes one step of the device with its channel, and returns the undo record. The record holds the old number of
    /// each place that was written, and of no other place.
    fn step(&mut self, channel: &mut Channel) -> Self::Record
        ensures step { let old = device_view self.old channel.old in
            device_view self.new channel.new ≡ over_device model old (model.writes old) }
        ensures old_values { let old = device_view self.old channel.old in
            model.pairs result ≡ device_old_values model old (model.writes old) }
        ensures fits { model.Fits result (device_view self.new channel.new) };

    /// Undoes a step: writes the numbers of its record into the device and its channel. The record must fit both, as
    /// it does right after the `step` that returned it.
    fn undo(&mut self, back: Self::Record, channel: &mut Channel)
        requires fits { model.Fits back (device_view self.old channel.old) }
        ensures undoes { device_view self.new channel.new
            ≡ over_device model (device_view self.old channel.old) (model.pairs back) };

    /// Returns the old number of a place, or `None` if the record, of a device on channel c, does not have that place.
    fn was(back: &Self::Record, c: u8, place: &Place) -> Option<u64>
        ensures { result ≡ lookup (renamed (device_place model c) (model.pairs back.now)) place.now };

    /// Writes each place that a record has, of a device on channel c, with its old number into a slice, behind the first
    /// `used` that are there. Returns how many are there then.
    fn put_old_values(back: &Self::Record, c: u8, olds: &mut [Old], used: usize) -> usize
        requires room { used + model.most ≤ length olds.old }
        ensures items { take result olds.new
            ≡ take used olds.old ++ numbered (renamed (device_place model c) (model.pairs back.now)) }
        ensures at_most { result ≤ used + model.most };
}

/// Returns the state of a channel as a write.
pub(crate) fn state_of(c: u8, state: ChannelState) -> Write
    ensures { result ≡ record { place = Place.ChannelMode c; number = state_number state } }
{
    Write::new(Place::ChannelMode { c }, state as u64)
}

/// Returns the register of a channel as a write.
pub(crate) fn word_of(c: u8, word: Unaligned16) -> Write
    ensures { result ≡ record { place = Place.ChannelWord c; number = word } }
{
    Write::new(Place::ChannelWord { c }, u64::from(word.get()))
}
