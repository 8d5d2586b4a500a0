//! Watched places that are removed and restored.
ghost use Rattle.std.specs.Prelude.{◌≡◌, ◌==◌, ◌+◌, ◌<◌, ◌≤◌, All, IfSome, drop, length, map, position};
ghost use Rattle.std.specs.List.{remove};
ghost use Rattle.pp_actions.specs.Unwatching.{moved_up};
ghost use Rattle.pp_actions.specs.Watches.{watched_at, watched_in};
ghost use Rattle.pp_actions.specs.WatchCodes.{first_zero, watch_code, watch_entries};
ghost use Rattle.pp_actions.specs.RecordLists.{entries_at, with_entries};

use super::{WatchList, Watched, position_among};
use crate::lists::list_of;
use arrayvec::ArrayVec;
use pp_machine::append;

#[tactic(auto, using(crate::proofs::Unwatching::removals))]
impl WatchList {
    /// Returns the entry of the place, or `None` if it is not watched.
    pub fn entry_of(&self, watched: Watched) -> Option<u8>
        ensures value { result ≡ position (λ code. code == watch_code watched) self.now }
        ensures below { IfSome result (λ i. i < first_zero self.now) }
    {
        position_among(self.places.as_slice(), watched).map(|i| i as u8)
    }

    /// Removes the place at entry i, and returns it with the places behind it. Those places move up.
    pub fn remove(&mut self, i: u8) -> ArrayVec<Watched, 8>
        requires { i < first_zero self.old }
        ensures removes { self.new ≡ with_entries self.old i (moved_up (drop (i + 1) self.old)) }
        ensures old_values { map watch_code result.items ≡ entries_at self.old i (moved_up (drop (i + 1) self.old)) }
        ensures leads_back { with_entries self.new i (map watch_code result.items) ≡ self.old }
        ensures places { self.new ≡ watch_entries (remove (watched_in self.old) i) }
        ensures count { first_zero self.new + 1 ≡ i + length result.items }
        ensures within { i ≤ first_zero self.new }
        ensures at_most { i + length result.items ≤ 8 }
        ensures has_code { All (λ watched. watched_at (watch_code watched) ≡ watched) result.items }
    {
        let old = list_of(&self.places[i as usize..]);
        self.places.remove(i as usize);
        old
    }

    /// Puts places back from entry i on. They replace the places there, of which there is one fewer.
    pub fn restore(&mut self, i: u8, places: &[Watched])
        requires count { first_zero self.old + 1 ≡ i + length places.now }
        requires at_most { i + length places.now ≤ 8 }
        requires within { i ≤ first_zero self.old }
        requires has_code { All (λ watched. watched_at (watch_code watched) ≡ watched) places.now }
        ensures { self.new ≡ with_entries self.old i (map watch_code places.now) }
    {
        self.places.truncate(i as usize);
        append(&mut self.places, places);
    }
}
