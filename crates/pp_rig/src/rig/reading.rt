//! Calls that read the machine.
ghost use Rattle.std.specs.Prelude.{◌≡◌, ◌<◌, ◌↔◌, IsSome, IsTrue};
ghost use Rattle.pp_machine.specs.Prelude.{number, Has, words_of};
ghost use Rattle.pp_machine.specs.Ranges.{IsInRange, processor_count};

use super::Rig;
use pp_machine::{CentralSize, Place};

impl Rig {
    /// Returns the processor whose turn is next, 0 to 0o11.
    pub fn slot(&self) -> u8
        ensures value { result ≡ self.now.slot }
        ensures in_range { result < processor_count }
    {
        self.slot
    }

    /// Returns how many words central memory has.
    pub fn central_size(&self) -> CentralSize
        ensures { words_of result ≡ self.now.setup.central_words }
    {
        self.central_size
    }

    /// Returns whether the machine has a dead start panel.
    pub fn has_panel(&self) -> bool
        ensures { IsTrue result ↔ IsSome self.now.setup.panel }
    {
        self.panel.is_some()
    }

    /// Returns the number at a place.
    pub(super) fn number_at(&self, place: &Place) -> u64
        requires { Has self.now.setup.central_words place.now }
        ensures value { result ≡ number self.now place.now }
        ensures in_range { IsInRange place.now result }
    {
        match *place {
            Place::Cell { pp, a } => u64::from(self.processors[pp as usize].memory.get(a)),
            Place::RegA { pp } => u64::from(self.processors[pp as usize].pp.a),
            Place::RegP { pp } => u64::from(self.processors[pp as usize].pp.p),
            Place::RegQ { pp } => u64::from(self.processors[pp as usize].pp.q),
            Place::Phase { pp } => u64::from(self.processors[pp as usize].pp.phase),
            Place::Clock => u64::from(self.channels.clock()),
            Place::Central { a } => self.central.get(a),
            Place::FrameWord { i } => self.frame.pack(i),
            Place::Slot => u64::from(self.slot),
            Place::WatchEntry { i } => self.watches.entry(i),
            _ => self.device_number(place),
        }
    }
}
