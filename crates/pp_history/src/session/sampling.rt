//! Repetitions with a sample of the machine before each.

ghost use Rattle.std.specs.Prelude.{◌≡◌, ◌+◌, ◌≤◌, ◌++◌, length, take};
ghost use Rattle.pp_history.specs.Repeating.{after_acts, machine_after};
ghost use Rattle.pp_history.specs.{Sampling.samples, SessionValue.Moves};

use super::Session;
use crate::sampled::{Sampled, sample_all};

impl<T: Sampled> Session<T> {
    /// Performs the repeatable action 1 to `most` times, keeps it each time as `act` does, and writes a sample of the machine
    /// before each time, behind the first `first`. Returns how often.
    pub fn repeat_sampled(&mut self, most: usize, taken: &mut [T::Sample], first: usize) -> usize
        requires some { 1 ≤ most }
        requires taken_room { first + most ≤ length taken.old }
        ensures some { (1 ≤ result) × (result ≤ most) }
        ensures machine { self.new.machine ≡ machine_after T.Reversible result T.repeated self.old.machine }
        ensures at { Moves T.Reversible self.old self.new (after_acts result T.repeated) }
        ensures samples { take (first + result) taken.new
            ≡ take first taken.old ++ samples (λ s. T.after_act s T.repeated) T.sample_of result self.old.machine }
    {
        let end = self.log.heads.slot_before(self.log.at) + 1;
        let count = end.min(most);
        let at = end - count;
        let heads = &mut self.log.heads.block.as_mut_slice()[at..end];
        sample_all(&mut self.machine, heads, &mut self.log.tails, taken, first);
        self.log.at = at;
        self.log.ahead = 0;
        self.log.kept = (self.log.kept + count).min(self.log.heads.capacity);
        count
    }
}
