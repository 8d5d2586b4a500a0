//! The trait of a machine of which a sample is taken before each repetition, and these repetitions.

ghost use Rattle.std.specs.Prelude.{◌≡◌, ◌≤◌, ◌+◌, ◌++◌, length, take};
ghost use Rattle.pp_history.specs.{Repeating.AreActed, Sampling.samples};

use crate::repeatable::Repeatable;
use crate::tails::Tails;

/// A machine of which some numbers, a sample, can be written down before each repetition.
pub trait Sampled: Repeatable {
    /// The numbers.
    type Sample: Drop;

    /// Those of a machine.
    ghost sample_of: { Self → Self.Sample };

    /// Returns those of the machine as it is.
    fn sample(&self) -> Self::Sample
        ensures { result ≡ sample_of self.now };
}

/// Performs the repeatable action once for each head, the last head first, keeps each action as `perform` does, and writes a
/// sample of the machine before it, behind the first `first`. As a function of its own it has registers for what its loop needs.
#[inline(never)]
pub(crate) fn sample_all<T: Sampled>(
    machine: &mut T,
    heads: &mut [Option<T::Head>],
    tails: &mut Tails<T::Action, T::Record>,
    taken: &mut [T::Sample],
    first: usize,
)
    requires room { 1 ≤ tails.old.ring.capacity }
    requires taken_room { first + length heads.old ≤ length taken.old }
    ensures same_length { length heads.new ≡ length heads.old }
    ensures acted { AreActed T.Reversible T.repeated heads.new machine.old machine.new tails.old tails.new }
    ensures samples { take (first + length heads.old) taken.new
        ≡ take first taken.old ++ samples (λ s. T.after_act s T.repeated) T.sample_of (length heads.old) machine.old }
{
    let mut left = heads.len();
    let mut next = first;
    while left > 0 {
        left -= 1;
        taken[next] = machine.sample();
        next += 1;
        machine.perform(T::repeated(), &mut heads[left], tails);
    }
}
