//! The trait of a machine with an action that can be repeated, and its repetitions.

ghost use Rattle.std.specs.Prelude.{◌≡◌, ◌≤◌, length};
ghost use Rattle.pp_history.specs.Repeating.{AreActed, IsStretch};

use crate::marks::{Marked, Marks};
use crate::step::may_be_marked;
use crate::tails::Tails;

/// A machine with an action that it admits in every state, as a turn of a barrel: one that can be performed again and
/// again.
pub trait Repeatable: Marked {
    /// The action.
    ghost repeated: { Self.Action };

    /// Returns the action.
    fn repeated() -> Self::Action
        ensures { result ≡ repeated };

    /// The machine admits the action in every state.
    ghost is_admitted: { (machine : Self) → Self.admitted machine repeated };
}

/// How far a stretch of repetitions came.
#[derive(Clone, Copy, Drop)]
pub(crate) struct Stretch {
    /// How many heads, the first ones, were left as they were.
    pub(crate) left: usize,
    /// Whether the undo record that was written last may have one of the places that the marks cover.
    pub(crate) may_be_marked: bool,
}

/// Performs the repeatable action once for each head, the last head first, up to the first undo record that may have one of
/// the places that the marks cover. Keeps each action as `perform` does. If the marks cover no place, the loop does not ask
/// them.
#[inline(always)]
pub(crate) fn repeat_into<T: Repeatable>(
    machine: &mut T,
    heads: &mut [Option<T::Head>],
    tails: &mut Tails<T::Action, T::Record>,
    marks: &Marks,
) -> Stretch
    requires some { 1 ≤ length heads.old }
    requires room { 1 ≤ tails.old.ring.capacity }
    ensures { IsStretch T.Reversible T.marks_of marks.now T.repeated machine.old machine.new heads.old heads.new tails.old tails.new result }
{
    if marks.has_places {
        return repeat_to_mark(machine, heads, tails, marks);
    }
    repeat_all(machine, heads, tails);
    Stretch {
        left: 0,
        may_be_marked: false,
    }
}

/// Performs the repeatable action once for each head, the last head first, and keeps each action as `perform` does. As a
/// function of its own it has registers for what its loop needs.
#[inline(never)]
fn repeat_all<T: Repeatable>(
    machine: &mut T,
    heads: &mut [Option<T::Head>],
    tails: &mut Tails<T::Action, T::Record>,
)
    requires { 1 ≤ tails.old.ring.capacity }
    ensures same_length { length heads.new ≡ length heads.old }
    ensures acted { AreActed T.Reversible T.repeated heads.new machine.old machine.new tails.old tails.new }
{
    let mut left = heads.len();
    while left > 0 {
        left -= 1;
        machine.perform(T::repeated(), &mut heads[left], tails);
    }
}

/// Does what `repeat_all` does, up to the first undo record that may have one of the places that the marks cover.
#[inline(never)]
fn repeat_to_mark<T: Repeatable>(
    machine: &mut T,
    heads: &mut [Option<T::Head>],
    tails: &mut Tails<T::Action, T::Record>,
    marks: &Marks,
) -> Stretch
    requires some { 1 ≤ length heads.old }
    requires room { 1 ≤ tails.old.ring.capacity }
    ensures { IsStretch T.Reversible T.marks_of marks.now T.repeated machine.old machine.new heads.old heads.new tails.old tails.new result }
{
    let mut left = heads.len();
    while left > 0 {
        left -= 1;
        let head = &mut heads[left];
        machine.perform(T::repeated(), head, tails);
        if may_be_marked::<T>(head, tails, marks) {
            return Stretch {
                left,
                may_be_marked: true,
            };
        }
    }
    Stretch {
        left: 0,
        may_be_marked: false,
    }
}
