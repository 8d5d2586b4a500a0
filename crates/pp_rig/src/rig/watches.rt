//! The watched places of a machine: which they are, and how they change.
ghost use Rattle.std.specs.Prelude.{◌≡◌, ◌<◌, ◌≤◌, [], ◌∷◌, All, false, length, map};
ghost use Rattle.pp_machine.specs.Prelude.{over, old_values, number, Has};
ghost use Rattle.pp_rig.specs.Inner.ActionRecords.{FitsRecord, record_pairs};
ghost use Rattle.pp_actions.specs.Unwatching.{unwatch_writes};
ghost use Rattle.pp_actions.specs.WatchCodes.{first_zero, watch_code};
ghost use Rattle.pp_actions.specs.Watches.{is_watched, watched_place, watches_of};

use super::{Rig, RigRecord};
use arrayvec::ArrayVec;
use pp_actions::Watched;
use pp_machine::Place;

impl Rig {
    /// Returns the watched places in watch order, at most eight.
    pub fn watches(&self) -> &[Watched]
        ensures value { result.now ≡ watches_of self.now }
        ensures has_places { All (λ watched. Has self.now.setup.central_words (watched_place watched)) result.now }
        ensures at_most { length result.now ≤ 8 }
    {
        self.watches.places()
    }

    /// Returns the places of the machine that are watched, in watch order, in a list of their own.
    pub fn watched_places(&self) -> ArrayVec<Place, 8>
        ensures value { result.items ≡ map watched_place (watches_of self.now) }
        ensures has_places { All (λ place. Has self.now.setup.central_words place) result.items }
    {
        let mut places = ArrayVec::new();
        for watched in self.watches() {
            places.push(watched.place());
        }
        places
    }

    /// Watches one more place.
    #[tactic(auto, using(pp_actions::proofs::Unwatching::watch_changes))]
    pub(super) fn watch(&mut self, watched: Watched) -> RigRecord
        requires room { first_zero self.old.watches < 8 }
        requires has_places { Has self.old.setup.central_words (watched_place watched) }
        requires other { is_watched self.old watched ≡ false }
        ensures step { self.new ≡ over self.old ((Place.WatchEntry (first_zero self.old.watches), watch_code watched) ∷ []) }
        ensures old_values { record_pairs result ≡ (Place.WatchEntry (first_zero self.old.watches), 0) ∷ [] }
        ensures is_free { number self.old (Place.WatchEntry (first_zero self.old.watches)) ≡ 0 }
        ensures fits { FitsRecord result self.new }
    {
        let i = self.watches.count();
        self.watches.push(watched);
        RigRecord::Watched(i)
    }

    /// Stops watching a place.
    #[tactic(auto, using(pp_actions::proofs::Unwatching::watch_changes))]
    pub(super) fn unwatch(&mut self, watched: Watched) -> RigRecord
        ensures step { self.new ≡ over self.old (unwatch_writes self.old watched) }
        ensures old_values { record_pairs result ≡ old_values self.old (unwatch_writes self.old watched) }
        ensures at_most { length (record_pairs result) ≤ 8 }
        ensures fits { FitsRecord result self.new }
    {
        let Some(i) = self.watches.entry_of(watched) else {
            return self.overwrite_all(&[]);
        };
        let places = self.watches.remove(i);
        RigRecord::Unwatched { i, places }
    }
}
