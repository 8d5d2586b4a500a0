//! The trait of a machine whose repetitions can be recorded, and their recording.

ghost use Rattle.std.specs.Prelude.{◌≡◌, ◌≤◌, ◌+◌, ◌*◌, ◌++◌, ℕ, length, map, take};
ghost use Rattle.pp_history.specs.Joining.{IsActed};
ghost use Rattle.pp_history.specs.Recording.{IsRecorded, moment_at, olds_at};
ghost use Rattle.pp_history.specs.{Repeating.AreActed, UndoRecord.whole_record};

use crate::repeatable::Repeatable;
use crate::reversible::UndoRecord;
use crate::step::undo_record;
use crate::tails::Tails;

/// A machine whose repetitions can be recorded: what each of them overwrites, as it is performed.
pub trait Recordable: Repeatable {
    /// What a recording has of each action, besides the places that it overwrites.
    type Moment: Drop;

    /// A place with its old number.
    type Old;

    /// The most places that one action overwrites.
    ghost most: { ℕ };

    /// A number of the machine before an action, by which a recording knows the action.
    ghost label_of: { Self → ℕ };

    /// The moment of an action with this label, which overwrites so many places.
    ghost moment_of: { ℕ → ℕ → Self.Moment };

    /// A place with its old number, as a recording has it.
    ghost old_of: { Self.Place × ℕ → Self.Old };

    /// Returns the label of the next action.
    fn label(&self) -> u8
        ensures { result ≡ label_of self.now };

    /// Returns the moment of an action with this label, which overwrote so many places.
    fn moment(label: u8, count: usize) -> Self::Moment
        requires { count ≤ most }
        ensures { result ≡ moment_of label count };

    /// Writes each place that an undo record has, with its old number, into a slice, behind the first `used` that are there.
    /// Returns how many are there then. The record must fit a machine, as it does right after its action.
    fn put_old_values(
        back: &UndoRecord<Self::Head, Self::Record>,
        olds: &mut [Self::Old],
        used: usize,
    ) -> usize
        requires fits { (machine : Self) × Self.fits (whole_record Self.unpacked back.now) machine }
        requires room { used + most ≤ length olds.old }
        ensures items { take result olds.new ≡ take used olds.old ++ map old_of (Self.record_pairs (whole_record Self.unpacked back.now)) }
        ensures at_most { result ≤ used + most };
}

/// How many repetitions a call of `Session::repeat_recorded` performed, and how much of the slice of places is then in use.
#[derive(Clone, Copy, Drop)]
pub struct Recorded {
    /// How many times the action was performed and recorded: the number of new moments.
    pub count: usize,
    /// How many places the slice has then, those that were there before the call included.
    pub used: usize,
}

/// Performs the repeatable action, keeps it as `perform` does, and writes what it overwrote behind the first `used` places.
/// Returns its moment, and how many places are there then.
#[inline(always)]
fn record_once<T: Recordable>(
    machine: &mut T,
    head: &mut Option<T::Head>,
    tails: &mut Tails<T::Action, T::Record>,
    olds: &mut [T::Old],
    used: usize,
) -> (T::Moment, usize)
    requires room { 1 ≤ tails.old.ring.capacity }
    requires olds_room { used + T.most ≤ length olds.old }
    ensures acted { IsActed T.Reversible machine.old machine.new T.repeated head.new tails.old tails.new }
    ensures moment { result.0 ≡ moment_at T.Reversible T.label_of T.moment_of T.repeated machine.old }
    ensures items { take result.1 olds.new ≡ take used olds.old ++ olds_at T.Reversible T.old_of T.repeated machine.old }
    ensures at_most { result.1 ≤ used + T.most }
{
    let label = machine.label();
    machine.perform(T::repeated(), head, tails);
    let back = undo_record(head, tails, 0).unwrap();
    let end = T::put_old_values(&back, olds, used);
    (T::moment(label, end - used), end)
}

/// Performs the repeatable action once for each head, the last head first, keeps each action as `perform` does, and records
/// it, behind the first `first` moments and the first `used` places. Returns how many places are there then. As a function of
/// its own it has registers for what its loop needs.
#[inline(never)]
pub(crate) fn record_all<T: Recordable>(
    machine: &mut T,
    heads: &mut [Option<T::Head>],
    tails: &mut Tails<T::Action, T::Record>,
    made: &mut [T::Moment],
    first: usize,
    olds: &mut [T::Old],
    used: usize,
) -> usize
    requires room { 1 ≤ tails.old.ring.capacity }
    requires made_room { first + length heads.old ≤ length made.old }
    requires olds_room { used + length heads.old * T.most ≤ length olds.old }
    ensures same_length { length heads.new ≡ length heads.old }
    ensures acted { AreActed T.Reversible T.repeated heads.new machine.old machine.new tails.old tails.new }
    ensures recorded { IsRecorded T.Reversible T.label_of T.moment_of T.old_of T.repeated (length heads.old) machine.old
        first made.old made.new used result olds.old olds.new }
    ensures at_most { result ≤ used + length heads.old * T.most }
{
    let mut left = heads.len();
    let mut turns = first;
    let mut end = used;
    while left > 0 {
        left -= 1;
        let (moment, more) = record_once(machine, &mut heads[left], tails, olds, end);
        made[turns] = moment;
        turns += 1;
        end = more;
    }
    end
}
