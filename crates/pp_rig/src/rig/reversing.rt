//! Undoing an action by its record, and the old numbers in the record.
ghost use Rattle.std.specs.Prelude.{◌≡◌, ◌≤◌, length, map};
ghost use Rattle.pp_machine.specs.Prelude.{over, lookup};
ghost use Rattle.pp_rig.specs.Inner.ActionRecords.{record_pairs};
ghost use Rattle.pp_actions.specs.WatchCodes.{watch_code};
ghost use Rattle.pp_actions.specs.Deadstart.{deadstart_places};
ghost use Rattle.pp_actions.specs.Settings.{AreSettings};
ghost use Rattle.pp_actions.specs.RecordLists.{with_new_numbers};
ghost use Rattle.pp_actions.specs.WriteLists.{writes_from};

use super::{Rig, RigRecord};
use pp_actions::{Watched, renumbered};
use pp_machine::{Place, Write, first_write};

/// Returns the code for a place, if it is one of the watch entries from i on, which have the codes of these places.
#[tactic(auto, using(pp_actions::proofs::WriteLists::lookup_entry))]
fn entry_was(i: u8, watches: &[Watched], place: &Place) -> Option<u64>
    requires { length watches.now ≤ 8 }
    ensures { result ≡ lookup (writes_from Place.WatchEntry i (map watch_code watches.now)) place.now }
{
    for (k, watched) in watches.iter().enumerate() {
        if matches!(*place, Place::WatchEntry { i: n } if usize::from(n) == usize::from(i) + k) {
            return Some(watched.code());
        }
    }
    None
}

/// Returns the old number of a place, if a dead start overwrote it. A dead start writes no central word; looking up one
/// needs no list. This is a separate function, so other lookups need not clear stack space for the list.
#[inline(never)]
#[tactic(auto, using(crate::proofs::Deadstart::no_word_restarted))]
fn restarted_was(numbers: &[u32], place: &Place) -> Option<u64>
    ensures { result ≡ lookup (with_new_numbers deadstart_places numbers.now) place.now }
{
    match place {
        Place::Central { .. } => None,
        _ => first_write(renumbered(numbers).as_slice(), place),
    }
}

impl RigRecord {
    /// Returns the old number of a place, or `None` if the record does not have that place. This is a separate function,
    /// so a search of short undo records need not save the registers that it needs.
    #[inline(never)]
    pub(super) fn was(&self, place: &Place) -> Option<u64>
        ensures { result ≡ lookup (record_pairs self.now) place.now }
    {
        match self {
            RigRecord::Turn(turn) => turn.was(place),
            RigRecord::Settings(old) => first_write(old.as_slice(), place),
            RigRecord::Watched(i) => first_write(
                &[Write::new(Place::WatchEntry { i: *i }, 0)],
                place,
            ),
            RigRecord::Unwatched { i, places } => entry_was(*i, places.as_slice(), place),
            RigRecord::Restarted { numbers } => restarted_was(numbers.as_slice(), place),
        }
    }
}

impl Rig {
    /// Puts the old values of a dead start back. This is a separate function for the same reason as `restarted_was`.
    #[inline(never)]
    pub(super) fn undo_restart(&mut self, numbers: &[u32])
        requires { AreSettings self.old.setup.central_words (with_new_numbers deadstart_places numbers.now) }
        ensures { self.new ≡ over self.old (with_new_numbers deadstart_places numbers.now) }
    {
        let list = renumbered(numbers);
        self.put_all(list.as_slice());
    }
}
