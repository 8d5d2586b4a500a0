//! The devices of a machine, one after another, each on a channel of its own.
ghost use Rattle.std.specs.Prelude.{◌≡◌, ◌+◌, ◌<◌, ◌≤◌, ◌++◌, false, length, take};
ghost use Rattle.pp_machine.specs.Inner.Devices.{AreJoined, AreStepped, DevicesModel, attached, no_devices, on};
ghost use Rattle.pp_machine.specs.Inner.PartWrites.{AreIdle};
ghost use Rattle.pp_machine.specs.Olds.{numbered};
ghost use Rattle.pp_machine.specs.Prelude.{Machine, lookup, over};
ghost use Rattle.pp_machine.specs.Ranges.{channel_count};

mod all;

use crate::channel_mask::mask_with;
use crate::channels::Channels;
use crate::device::Device;
use crate::olds::Old;
use crate::place::Place;
pub use all::{
    AllDevices, AllRecords, all_devices, device_records_restore, device_writes_are_distinct,
    devices_keep_ranges,
};
use std::marker::Model;

/// The devices of a machine.
pub trait Devices: Drop {
    /// The undo records of one step of each device.
    type Records: Copy + Default;

    /// What the steps write, what the undo records have, and where a machine has the devices.
    ghost model: { DevicesModel Self Self.Records };

    /// Returns the mask of the devices' channels.
    fn mask(&self) -> u16
        ensures { result ≡ model.mask self.now };

    /// Returns whether the channel of a device is active. If none is, the devices do nothing.
    fn are_called(&self, channels: &Channels) -> bool
        ensures { result ≡ false → (m : Machine) → AreIdle model.parts (attached model m self.now channels.now) };

    /// Makes one step of each device, one after another, and returns the undo records.
    fn step(&mut self, channels: &mut Channels) -> Self::Records
        ensures steps { (m : Machine) →
            AreStepped model (attached model m self.old channels.old) (attached model m self.new channels.new) result }
        ensures keeps_mask { model.mask self.new ≡ model.mask self.old };

    /// Undoes a step of each device, the last one first. The records must fit the devices, as they do right after the
    /// `step` that returned them.
    fn undo(&mut self, back: &Self::Records, channels: &mut Channels)
        requires fits { (m : Machine) × model.Fits back.now (attached model m self.old channels.old) }
        ensures undoes { (m : Machine) →
            attached model m self.new channels.new ≡ over (attached model m self.old channels.old) (model.pairs back.now) }
        ensures keeps_mask { model.mask self.new ≡ model.mask self.old };

    /// Returns the old number of a place, or `None` if no record has that place.
    fn was(back: &Self::Records, place: &Place) -> Option<u64>
        ensures { result ≡ lookup (model.pairs back.now) place.now };

    /// Writes each place that the records have, with its old number into a slice, behind the first `used` that are there,
    /// the first device first. Returns how many are there then.
    fn put_old_values(back: &Self::Records, olds: &mut [Old], used: usize) -> usize
        requires room { used + model.most ≤ length olds.old }
        ensures items { take result olds.new ≡ take used olds.old ++ numbered (model.pairs back.now) }
        ensures at_most { result ≤ used + model.most };
}

/// No device. It ends the list of devices.
#[derive(Clone, Copy, Default, Drop)]
pub struct NoDevices;

/// A device on its channel, and the devices after it.
#[derive(Drop)]
pub struct On<D: Device, R: Devices> {
    channel: u8,
    /// The mask of the channels of this device and of those after it.
    mask: u16,
    device: D,
    others: R,
}

/// The undo record of a device with the channel that it was on, and those of the devices after it.
#[derive(Clone, Copy, Default, Drop)]
pub struct OnRecords<D, R> {
    pub channel: u8,
    pub own: D,
    pub others: R,
}

impl<D: Device, R: Devices> Model for On<D, R> {
    ghost use Rattle.std.specs.Prelude.{◌≡◌, ◌<◌};
    ghost use Rattle.pp_machine.specs.Inner.ChannelMasks.{mask_with};
    ghost use Rattle.pp_machine.specs.Inner.Devices.{AreJoined, OnNumbers};
    ghost use Rattle.pp_machine.specs.Ranges.{channel_count};

    ghost Value = { OnNumbers D R };

    ghost view = { λ o. record { channel = o.channel; device = o.device; others = o.others } };

    ghost invariant = { λ o. (o.channel < channel_count) × AreJoined D.model R.model
        × (o.mask ≡ mask_with (R.model.mask o.others) o.channel) };
}

impl<D: Device, R: Devices> On<D, R> {
    /// Puts a device on a channel, 0 to 0o13, before other devices.
    pub fn new(channel: u8, device: D, others: R) -> On<D, R>
        requires channel { channel < channel_count }
        requires joined { AreJoined D.model R.model }
        ensures { result ≡ record { channel = channel; device = device; others = others } }
    {
        On {
            channel,
            mask: mask_with(others.mask(), channel),
            device,
            others,
        }
    }

    /// Returns the channel of the device, 0 to 0o13.
    #[inline(always)]
    pub fn channel(&self) -> u8
        ensures value { result ≡ self.now.channel }
        ensures in_range { result < channel_count }
    {
        self.channel
    }

    /// Returns the device.
    #[inline(always)]
    pub fn device(&self) -> &D
        ensures { result.now ≡ self.now.device }
    {
        &self.device
    }

    /// Returns the devices after it.
    #[inline(always)]
    pub fn others(&self) -> &R
        ensures { result.now ≡ self.now.others }
    {
        &self.others
    }
}

impl Devices for NoDevices {
    type Records = NoDevices;

    ghost model = { no_devices };

    #[inline(always)]
    fn mask(&self) -> u16 {
        0
    }

    #[inline(always)]
    fn are_called(&self, _channels: &Channels) -> bool {
        false
    }

    #[inline(always)]
    fn step(&mut self, _channels: &mut Channels) -> NoDevices {
        NoDevices
    }

    #[inline(always)]
    fn undo(&mut self, _back: &NoDevices, _channels: &mut Channels) {}

    #[inline(always)]
    fn was(_back: &NoDevices, _place: &Place) -> Option<u64> {
        None
    }

    #[inline(always)]
    fn put_old_values(_back: &NoDevices, _olds: &mut [Old], used: usize) -> usize {
        used
    }
}

impl<D: Device, R: Devices> Devices for On<D, R> {
    type Records = OnRecords<D::Record, R::Records>;

    ghost model = { on D.model R.model };

    #[inline(always)]
    fn mask(&self) -> u16 {
        self.mask
    }

    #[inline(always)]
    fn are_called(&self, channels: &Channels) -> bool {
        channels.is_one_active(self.mask)
    }

    #[inline(always)]
    fn step(&mut self, channels: &mut Channels) -> OnRecords<D::Record, R::Records> {
        let mut channel = channels.get(self.channel);
        let own = self.device.step(&mut channel);
        channels.set(self.channel, channel);
        let others = self.others.step(channels);
        OnRecords {
            channel: self.channel,
            own,
            others,
        }
    }

    #[inline(always)]
    fn undo(&mut self, back: &OnRecords<D::Record, R::Records>, channels: &mut Channels) {
        self.others.undo(&back.others, channels);
        let mut channel = channels.get(self.channel);
        self.device.undo(back.own, &mut channel);
        channels.set(self.channel, channel);
    }

    #[inline(always)]
    #[tactic(auto, using(crate::proofs::DevicesLaws::lookup_on))]
    fn was(back: &OnRecords<D::Record, R::Records>, place: &Place) -> Option<u64> {
        D::was(&back.own, back.channel, place).or(R::was(&back.others, place))
    }

    #[inline(always)]
    #[tactic(auto, using(crate::proofs::PushedLists::pushed_lists))]
    fn put_old_values(
        back: &OnRecords<D::Record, R::Records>,
        olds: &mut [Old],
        used: usize,
    ) -> usize {
        let used = D::put_old_values(&back.own, back.channel, olds, used);
        R::put_old_values(&back.others, olds, used)
    }
}
