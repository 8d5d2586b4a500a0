//! The undo records of a turn, and the old numbers in them.
ghost use Rattle.std.specs.Prelude.{◌≡◌};
ghost use Rattle.pp_machine.specs.Inner.AllDevices.{all_model};
ghost use Rattle.pp_machine.specs.Prelude.{lookup};
ghost use Rattle.pp_rig.specs.Inner.Short.{whole, whole_turn};
ghost use Rattle.pp_rig.specs.Inner.TurnRecords.{devices_old_values, rest_pairs, turn_pairs};

use super::{RigRecord, ShortTurn, TurnRecord, TurnRest};
use pp_machine::{AllDevices, AllRecords, Devices, Place};
use pp_step::{ExchangeRecord, PpRecord};

impl TurnRest {
    /// Returns the old number of a place, or `None` if no device overwrote it.
    #[inline(always)]
    fn device_was(&self, place: &Place) -> Option<u64>
        ensures { result ≡ lookup (devices_old_values self.now) place.now }
    {
        if self.are_devices_called {
            devices_was(&self.devices, place)
        } else {
            None
        }
    }

    /// Returns the old number of a place, or `None` if what follows the processor's step did not overwrite it.
    #[inline(always)]
    #[tactic(auto, using(crate::proofs::TurnNames::lookup_by_kind))]
    fn was(&self, place: &Place) -> Option<u64>
        ensures { result ≡ lookup (rest_pairs self.now) place.now }
    {
        match *place {
            Place::Cell { .. }
            | Place::RegA { .. }
            | Place::RegP { .. }
            | Place::RegQ { .. }
            | Place::Phase { .. }
            | Place::Central { .. }
            | Place::FrameWord { .. }
            | Place::WatchEntry { .. } => None,
            Place::Clock if self.slot == 9 => Some(u64::from(self.clock)),
            Place::Clock => None,
            Place::Slot => Some(u64::from(self.slot)),
            _ => self.device_was(place),
        }
    }
}

/// Returns the old number of a place, or `None` if no device overwrote it. This is a separate function, so other lookups
/// need not save the registers that it needs.
#[inline(never)]
fn devices_was(back: &AllRecords, place: &Place) -> Option<u64>
    ensures { result ≡ lookup (all_model.pairs back.now) place.now }
{
    AllDevices::was(back, place)
}

impl TurnRecord {
    /// Returns a record to overwrite: that of an exchange, so an exchange is written in place.
    pub(super) fn blank() -> TurnRecord {
        TurnRecord {
            pp: PpRecord::Exchange(ExchangeRecord::default()),
            rest: TurnRest::default(),
        }
    }

    /// Returns the old number of a place, or `None` if the record does not have that place.
    #[tactic(auto, using(crate::proofs::TurnNames::lookup_turn))]
    pub(super) fn was(&self, place: &Place) -> Option<u64>
        ensures { result ≡ lookup (turn_pairs self.now) place.now }
    {
        self.pp.was(self.rest.slot, place).or(self.rest.was(place))
    }
}

impl ShortTurn {
    /// Returns the processor whose turn it was, 0 to 9.
    #[inline(always)]
    pub fn slot(&self) -> u8
        ensures { result ≡ self.now.rest.slot }
    {
        self.rest.slot
    }

    /// Returns the whole undo record that this one represents.
    #[inline(always)]
    pub(super) fn lengthen(&self) -> RigRecord
        ensures { result ≡ whole self.now }
    {
        RigRecord::Turn(TurnRecord {
            pp: PpRecord::Step(self.pp),
            rest: self.rest,
        })
    }

    /// Returns the old number of a place, or `None` if the record does not have that place. The kinds that are looked up
    /// most have arms of their own, and name the place again: so the lookup is compiled for that kind alone.
    #[inline(always)]
    #[tactic(auto, using(crate::proofs::TurnNames::lookup_turn, crate::proofs::TurnNames::lookup_processor, crate::proofs::TurnNames::lookup_by_kind))]
    pub(crate) fn was(&self, place: &Place) -> Option<u64>
        ensures { result ≡ lookup (turn_pairs (whole_turn self.now)) place.now }
    {
        let slot = self.rest.slot;
        match *place {
            Place::Cell { pp, a } => self.pp.was(slot, &Place::Cell { pp, a }),
            Place::Central { a } => self.pp.was(slot, &Place::Central { a }),
            Place::ChannelWord { c } => {
                let pp = self.pp.was(slot, &Place::ChannelWord { c });
                pp.or(self.rest.device_was(place))
            }
            _ => self.pp.was(slot, place).or(self.rest.was(place)),
        }
    }
}
