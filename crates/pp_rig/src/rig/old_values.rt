//! Undo records as places by their numbers, each with its old number, in a slice.
#![tactic(auto, using(crate::proofs::OldValues::old_value_lists))]

ghost use Rattle.std.specs.Prelude.{◌≡◌, ◌+◌, ◌≤◌, ◌++◌, ◌↔◌, IfSome, IsNone, None, length, map, take};
ghost use Rattle.pp_history.specs.SessionValue.{AreNewest, AtEach};
ghost use Rattle.pp_machine.specs.Machine.{Machine};
ghost use Rattle.pp_machine.specs.Olds.{numbered};
ghost use Rattle.pp_machine.specs.Prelude.{Writes, list_room};
ghost use Rattle.pp_machine.specs.Ranges.{watch_count};
ghost use Rattle.pp_machine.specs.declared.place.Place.TheVariants.{WatchEntry};
ghost use Rattle.pp_actions.specs.{Deadstart.deadstart_places, RecordLists.with_new_numbers, WatchCodes.watch_code, WriteLists.writes_from};
ghost use Rattle.pp_rig.specs.Inner.ActionRecords.{FitsRecord, record_pairs};
ghost use Rattle.pp_rig.specs.Inner.Short.{whole};
ghost use Rattle.pp_rig.specs.Inner.TurnRecords.{FitsTurn, devices_old_values, most_rest_places, most_turn_places, rest_pairs, turn_pairs};
ghost use Rattle.pp_rig.specs.Rules.{rules};
ghost use Rattle.pp_machine.specs.Inner.AllDevices.{all_model};

use super::{Rig, RigRecord, ShortTurn, TurnRecord, TurnRest};
use pp_actions::{Watched, renumbered};
use pp_history::{Session, UndoRecord};
use pp_machine::{AllDevices, AllRecords, Devices, Old, Place, put_old, put_olds};

impl RigRecord {
    /// Writes each place that the record has, with its old number, into a slice, in the order of the record, behind the first
    /// `used` that are there. Returns how many are there then. The record must fit a machine, as it does right after its
    /// action. A turn has at most 44 (decimal) places.
    #[inline(always)]
    #[tactic(auto, using(crate::proofs::OldValues::old_value_lists), unfolding(crate::specs::Inner::TurnRecords::turn_pairs))]
    pub fn put_old_values(&self, olds: &mut [Old], used: usize) -> usize
        requires fits { (s : Machine) × FitsRecord self.now s }
        requires room { used + list_room ≤ length olds.old }
        ensures items { take result olds.new ≡ take used olds.old ++ numbered (record_pairs self.now) }
        ensures at_most { result ≤ used + list_room }
        ensures at_most_of_turn { (turn : TurnRecord) → self.now ≡ RigRecord.Turn turn → result ≤ used + most_turn_places }
    {
        match self {
            RigRecord::Turn(turn) => turn.put_old_values(olds, used),
            RigRecord::Settings(old) => put_olds(olds, used, old.as_slice()),
            RigRecord::Watched(i) => put_old(olds, used, Place::WatchEntry { i: *i }, 0),
            RigRecord::Unwatched { i, places } => put_entries(*i, places.as_slice(), olds, used),
            RigRecord::Restarted { numbers } => put_restarted(numbers.as_slice(), olds, used),
        }
    }
}

impl ShortTurn {
    /// Does what `RigRecord::put_old_values` does.
    #[inline(always)]
    #[tactic(auto, using(crate::proofs::OldValues::old_value_lists), unfolding(crate::specs::Inner::TurnRecords::turn_pairs))]
    pub fn put_old_values(&self, olds: &mut [Old], used: usize) -> usize
        requires fits { (s : Machine) × FitsRecord (whole self.now) s }
        requires room { used + list_room ≤ length olds.old }
        ensures items { take result olds.new ≡ take used olds.old ++ numbered (record_pairs (whole self.now)) }
        ensures at_most { result ≤ used + most_turn_places }
    {
        let slot = self.rest.slot;
        let used = self.pp.put_old_values(slot, olds, used);
        self.rest.put_old_values(slot, olds, used)
    }
}

impl TurnRecord {
    /// Writes each place that the record has, with its old number.
    #[inline(always)]
    #[tactic(auto, using(crate::proofs::OldValues::old_value_lists), unfolding(crate::specs::Inner::TurnRecords::turn_pairs))]
    fn put_old_values(&self, olds: &mut [Old], used: usize) -> usize
        requires fits { (s : Machine) × FitsTurn self.now s }
        requires room { used + most_turn_places ≤ length olds.old }
        ensures items { take result olds.new ≡ take used olds.old ++ numbered (turn_pairs self.now) }
        ensures at_most { result ≤ used + most_turn_places }
    {
        let slot = self.rest.slot;
        let used = self.pp.put_old_values(slot, olds, used);
        self.rest.put_old_values(slot, olds, used)
    }
}

impl TurnRest {
    /// Writes each place that the devices, the clock and the slot overwrote, with its old number. Takes the slot, so a turn
    /// reads it once.
    #[inline(always)]
    #[tactic(auto, using(crate::proofs::OldValues::old_value_lists), unfolding(crate::specs::Inner::TurnRecords::rest_pairs))]
    fn put_old_values(&self, slot: u8, olds: &mut [Old], used: usize) -> usize
        requires slot { slot ≡ self.now.slot }
        requires room { used + most_rest_places ≤ length olds.old }
        ensures items { take result olds.new ≡ take used olds.old ++ numbered (rest_pairs self.now) }
        ensures at_most { result ≤ used + most_rest_places }
    {
        let used = self.put_devices(olds, used);
        // The processor predicts this branch, which only each tenth turn takes.
        let used = if slot == 9 {
            put_old(olds, used, Place::Clock, u64::from(self.clock))
        } else {
            used
        };
        put_old(olds, used, Place::Slot, u64::from(slot))
    }

    /// Writes each place that the devices overwrote, with its old number.
    #[inline(always)]
    fn put_devices(&self, olds: &mut [Old], used: usize) -> usize
        requires { used + all_model.most ≤ length olds.old }
        ensures items { take result olds.new ≡ take used olds.old ++ numbered (devices_old_values self.now) }
        ensures at_most { result ≤ used + all_model.most }
    {
        if self.are_devices_called {
            put_called_devices(&self.devices, olds, used)
        } else {
            used
        }
    }
}

/// Writes each place that a device overwrote, with its old number. This is a separate function, so other turns need not
/// save the registers that it needs.
#[inline(never)]
fn put_called_devices(back: &AllRecords, olds: &mut [Old], used: usize) -> usize
    requires { used + all_model.most ≤ length olds.old }
    ensures items { take result olds.new ≡ take used olds.old ++ numbered (all_model.pairs back.now) }
    ensures at_most { result ≤ used + all_model.most }
{
    AllDevices::put_old_values(back, olds, used)
}

/// Writes the codes of watched places, at the watch entries from i on.
fn put_entries(i: u8, watches: &[Watched], olds: &mut [Old], used: usize) -> usize
    requires within { i + length watches.now ≤ watch_count }
    requires room { used + length watches.now ≤ length olds.old }
    ensures items { take result olds.new
        ≡ take used olds.old ++ numbered (writes_from WatchEntry i (map watch_code watches.now)) }
    ensures at_most { result ≤ used + length watches.now }
{
    let mut end = used;
    for (k, watched) in watches.iter().enumerate() {
        let entry = Place::WatchEntry { i: i + k as u8 };
        end = put_old(olds, end, entry, watched.code());
    }
    end
}

/// Writes the places of a dead start with these numbers. This is a separate function, so other actions need not clear the
/// memory of its lists.
#[inline(never)]
fn put_restarted(numbers: &[u32], olds: &mut [Old], used: usize) -> usize
    requires { used + list_room ≤ length olds.old }
    ensures items { take result olds.new
        ≡ take used olds.old ++ numbered (with_new_numbers deadstart_places numbers.now) }
    ensures at_most { result ≤ used + list_room }
{
    put_olds(olds, used, renumbered(numbers).as_slice())
}

/// Does what `RigRecord::put_old_values` does. This is a separate function, so turns with a head need not save the registers
/// that it needs.
#[inline(never)]
pub(super) fn put_tail(back: &RigRecord, olds: &mut [Old], used: usize) -> usize
    requires fits { (s : Machine) × FitsRecord back.now s }
    requires room { used + list_room ≤ length olds.old }
    ensures items { take result olds.new ≡ take used olds.old ++ numbered (record_pairs back.now) }
    ensures at_most { result ≤ used + list_room }
{
    back.put_old_values(olds, used)
}

/// Writes the old values of the newest action into a slice: each place that it wrote, by its number, with its number before,
/// in the order of its undo record, behind the first `used` that are there. Returns how many are there then, or `None` if no
/// action can be undone.
#[inline(always)]
pub fn put_newest_old_values(session: &Session<Rig>, olds: &mut [Old], used: usize) -> Option<usize>
    requires { used + list_room ≤ length olds.old }
    ensures none { IsNone result ↔ (length session.now.records ≡ 0) }
    ensures at_most { IfSome result (λ end. end ≤ used + list_room) }
    ensures old_values { IfSome result (λ end. AtEach rules session.now (λ v. (pairs : Writes Place)
        × AreNewest rules v.start v.standing pairs × (take end olds.new ≡ take used olds.old ++ numbered pairs))) }
    ensures unchanged { result ≡ None → olds.new ≡ olds.old }
{
    match session.newest()? {
        UndoRecord::Head(turn) => Some(turn.put_old_values(olds, used)),
        UndoRecord::Tail(back) => Some(back.put_old_values(olds, used)),
    }
}
