//! The dead start.
#![tactic(auto, using(crate::proofs::Deadstart::deadstarts))]

ghost use Rattle.std.specs.Prelude.{◌≡◌, ◌≤◌, length};
ghost use Rattle.pp_machine.specs.Prelude.{over, old_values};
ghost use Rattle.pp_rig.specs.Inner.ActionRecords.{FitsRecord, record_pairs};
ghost use Rattle.pp_actions.specs.Deadstart.{deadstart_writes, deadstart_place_count};

use super::{Rig, RigRecord};
use arrayvec::ArrayVec;
use pp_actions::{deadstart_settings, numbers_of};
use pp_machine::Write;

impl Rig {
    /// Starts all processors anew, the first at the dead start panel.
    pub(super) fn deadstart(&mut self) -> RigRecord
        ensures step { self.new ≡ over self.old (deadstart_writes self.old.setup.panel) }
        ensures old_values { record_pairs result ≡ old_values self.old (deadstart_writes self.old.setup.panel) }
        ensures at_most { length (record_pairs result) ≤ deadstart_place_count }
        ensures fits { FitsRecord result self.new }
    {
        let Some(panel) = self.panel else {
            return self.overwrite_all(&[]);
        };
        let list = deadstart_settings(&panel);
        let old_values: ArrayVec<Write, 76> = self.overwrite(list.as_slice());
        RigRecord::Restarted {
            numbers: numbers_of(old_values.as_slice()),
        }
    }
}
