//! Performing an action of any kind.
ghost use Rattle.std.specs.Prelude.{◌≡◌, ◌≤◌, None, IsPermutation, length};
ghost use Rattle.pp_history.specs.Tails.{IsKept};
ghost use Rattle.pp_machine.specs.Prelude.{places};
ghost use Rattle.pp_rig.specs.Inner.ActionRecords.{FitsRecord, before, most_places, old_values_of, record_pairs, writes};
ghost use Rattle.pp_rig.specs.Action.{next};
ghost use Rattle.pp_actions.specs.Admitting.{first_fault};
ghost use Rattle.pp_rig.specs.Inner.Short.{unpacked};

use super::{Rig, RigRecord, TurnRecord};
use pp_actions::{Action, settings_of};
use pp_history::{Reversible, Tails};

impl Rig {
    /// Performs an action that the rig admits, and keeps it with its undo record in a tail. This is a separate function,
    /// so a turn need not clear stack space for the record.
    #[inline(never)]
    pub(super) fn perform_with_tail(&mut self, action: Action, tails: &mut Tails<Action, RigRecord>)
        requires admitted { first_fault self.old action ≡ None }
        requires room { 1 ≤ tails.old.ring.capacity }
        ensures next { self.new ≡ next self.old action }
        ensures kept { (back : RigRecord) × FitsRecord back self.new × (before back self.new ≡ self.old)
            × IsKept unpacked None action back tails.old tails.new
            × IsPermutation (places (record_pairs back)) (places (writes self.old action))
            × (record_pairs back ≡ old_values_of self.old action)
            × (length (record_pairs back) ≤ most_places action) }
    {
        let back = self.act(&action);
        tails.push(action, back);
    }

    /// Performs an action that the rig admits, and returns its undo record.
    #[tactic(auto, using(crate::proofs::Admitting::admitted))]
    pub(super) fn act_by_kind(&mut self, action: &Action) -> RigRecord
        requires { first_fault self.old action.now ≡ None }
        ensures step { self.new ≡ next self.old action.now }
        ensures old_values { record_pairs result ≡ old_values_of self.old action.now }
        ensures at_most { length (record_pairs result) ≤ most_places action.now }
        ensures fits { FitsRecord result self.new }
    {
        match action {
            Action::Turn => {
                let mut turn = TurnRecord::blank();
                self.turn(&mut turn);
                RigRecord::Turn(turn)
            }
            Action::Watch(watched) => self.watch(*watched),
            Action::Unwatch(watched) => self.unwatch(*watched),
            Action::Deadstart => self.deadstart(),
            _ => self.overwrite_all(settings_of(action).as_slice()),
        }
    }
}
