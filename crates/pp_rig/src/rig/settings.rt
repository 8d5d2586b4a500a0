//! Numbers that an action sets at places.
#![tactic(auto, using(pp_actions::proofs::WriteLists::overwritten_lists))]

ghost use Rattle.std.specs.Prelude.{◌≡◌, ◌<◌, ◌≤◌, length};
ghost use Rattle.pp_machine.specs.Prelude.{over, old_values, put, write_list, IsShaped};
ghost use Rattle.pp_rig.specs.Inner.ActionRecords.{FitsRecord, record_pairs};
ghost use Rattle.pp_actions.specs.Settings.{AreSettings, IsSetting};
ghost use Rattle.pp_machine.specs.Ranges.{channel_count};

use super::{Rig, RigRecord};
use arrayvec::ArrayVec;
use pp_machine::{Channel, ChannelState, Place, Write};

impl Rig {
    /// Sets the number at a place that an action may set.
    fn set(&mut self, place: Place, value: u64)
        requires { IsSetting self.old.setup.central_words place value }
        ensures { self.new ≡ put self.old place value }
    {
        match place {
            Place::Cell { pp, a } => self.processors[pp as usize].memory.set(a, value as u16),
            Place::RegA { pp } => self.processors[pp as usize].pp.a = value as u32,
            Place::RegP { pp } => self.processors[pp as usize].pp.p = value as u16,
            Place::RegQ { pp } => self.processors[pp as usize].pp.q = value as u16,
            Place::Phase { pp } => self.processors[pp as usize].pp.phase = value as u16,
            Place::Central { a } => self.central.set(a, value),
            Place::Slot => self.slot = value as u8,
            Place::ChannelMode { c } => self.set_state(c, value),
            Place::ChannelWord { c } => {
                let state = self.channels.get(c).state;
                let word = value as u16;
                self.channels.set(c, Channel { state, word });
            }
            _ => unreachable!(),
        }
    }

    fn set_state(&mut self, c: u8, value: u64)
        requires place { c < channel_count }
        requires small { value < 4 }
        ensures { self.new ≡ put self.old (Place.ChannelMode c) value }
    {
        let word = self.channels.get(c).word;
        let state = match value {
            0 => ChannelState::Inactive,
            1 => ChannelState::Empty,
            2 => ChannelState::Full,
            _ => ChannelState::Function,
        };
        self.channels.set(c, Channel { state, word });
    }

    /// Returns the places of the list with their present numbers.
    fn old_values<const N: usize>(&self, list: &[Write]) -> ArrayVec<Write, N>
        requires room { length list.now ≤ N }
        requires settings { AreSettings self.now.setup.central_words (write_list list.now) }
        ensures old_values { write_list result.items ≡ old_values self.now (write_list list.now) }
        ensures settings { AreSettings self.now.setup.central_words (write_list result.items) }
        ensures len { length result.items ≡ length list.now }
    {
        let mut old_values = ArrayVec::new();
        for pair in list {
            old_values.push(Write::new(pair.place, self.number_at(&pair.place)));
        }
        old_values
    }

    /// Writes the numbers of the list to their places, the last pair first.
    pub(super) fn put_all(&mut self, list: &[Write])
        requires { AreSettings self.old.setup.central_words (write_list list.now) }
        ensures { self.new ≡ over self.old (write_list list.now) }
    {
        for i in (0..list.len()).rev() {
            let Write { place, number } = list[i];
            self.set(place, number);
        }
    }

    /// Writes the numbers of the list to their places, and returns the old values.
    pub(super) fn overwrite<const N: usize>(&mut self, list: &[Write]) -> ArrayVec<Write, N>
        requires room { length list.now ≤ N }
        requires settings { AreSettings self.old.setup.central_words (write_list list.now) }
        ensures step { self.new ≡ over self.old (write_list list.now) }
        ensures old_values { write_list result.items ≡ old_values self.old (write_list list.now) }
        ensures settings { AreSettings self.new.setup.central_words (write_list result.items) }
        ensures has_shape { IsShaped self.new.setup.central_words self.new }
        ensures len { length result.items ≡ length list.now }
    {
        let old_values = self.old_values(list);
        self.put_all(list);
        // Reading a field opens the invariant: the machine has the sizes of its setup.
        let _slot = self.slot;
        old_values
    }

    /// Writes the numbers of a short list to their places, and returns the undo record.
    pub(super) fn overwrite_all(&mut self, list: &[Write]) -> RigRecord
        requires room { length list.now ≤ 8 }
        requires settings { AreSettings self.old.setup.central_words (write_list list.now) }
        ensures step { self.new ≡ over self.old (write_list list.now) }
        ensures old_values { record_pairs result ≡ old_values self.old (write_list list.now) }
        ensures at_most { length (record_pairs result) ≤ 8 }
        ensures fits { FitsRecord result self.new }
    {
        RigRecord::Settings(self.overwrite(list))
    }
}
