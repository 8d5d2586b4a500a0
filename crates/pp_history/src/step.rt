//! One step of a session, back or forward.

ghost use Rattle.std.specs.Prelude.{◌≡◌, ◌≤◌, Some, None, IfSome, IsSomeAnd, drop, false, length};
ghost use Rattle.std.specs.Option.{option_map};
ghost use Rattle.circular_buffer.specs.Buffer.{buffer};
ghost use Rattle.pp_history.specs.Joining.{IsActed, IsNext, first_of, left_by};
ghost use Rattle.pp_history.specs.Redoing.{AreReady, AreRedone};
ghost use Rattle.pp_history.specs.Undoing.{AreFitting, AreUndone};
ghost use Rattle.pp_history.specs.{Marks.IsUnmarked, Tails.in_tail, Tails.pushed, UndoRecord.whole_action, UndoRecord.whole_record};

use crate::marks::{Marked, Marks};
use crate::reversible::{KeptAction, Reversible, UndoRecord};
use crate::tails::{Tails, push};
use circular_buffer::HeapCircularBuffer;

/// Returns `false` only if the undo record of a head, or else of the newest tail, has none of the places that the marks
/// cover. The marks say so: this is no look at the record.
#[inline(always)]
pub(crate) fn may_be_marked<T: Marked>(
    head: &Option<T::Head>,
    tails: &Tails<T::Action, T::Record>,
    marks: &Marks,
) -> bool
    ensures { result ≡ false → IfSome (first_of T.unpacked in_tail head.now tails.now.ring.items) (λ newest.
        IsUnmarked T.marks_of T.old_value marks.now newest.1) }
{
    match undo_record(head, tails, 0) {
        Some(back) => T::may_be_marked(&back, marks),
        None => true,
    }
}

/// Returns the undo record of a head, or else that of the tail behind `tail` others.
#[inline(always)]
pub(crate) fn undo_record<'a, A: Drop, R: Drop, H: Drop>(
    head: &'a Option<H>,
    tails: &'a Tails<A, R>,
    tail: usize,
) -> Option<UndoRecord<'a, H, R>>
    ensures { (unpacked : H → A × R) → IfSome (first_of unpacked in_tail head.now (drop tail tails.now.ring.items)) (λ entry.
        option_map (whole_record unpacked) result ≡ Some entry.1) }
{
    match head {
        Some(head) => Some(UndoRecord::Head(head)),
        None => match &tails.ring.get(tail)?.back {
            Some(back) => Some(UndoRecord::Tail(back)),
            None => None,
        },
    }
}

/// Returns the action of a head, or else that of the newest tail.
#[inline(always)]
pub(crate) fn kept_action<'a, A: Drop, R: Drop, H: Drop>(
    head: &'a Option<H>,
    tails: &'a Tails<A, R>,
) -> Option<KeptAction<'a, H, A>>
    ensures { (unpacked : H → A × R) → IfSome (first_of unpacked in_tail head.now tails.now.ring.items) (λ entry.
        option_map (whole_action unpacked) result ≡ Some entry.0) }
{
    match head {
        Some(head) => Some(KeptAction::Head(head)),
        None => match &tails.ring.get(0)?.action {
            Some(action) => Some(KeptAction::Tail(action)),
            None => None,
        },
    }
}

/// Performs the next action again: that of its head, or else the first of the undone ones, which is taken out.
#[inline(always)]
fn perform_next<T: Reversible>(
    machine: &mut T,
    head: &mut Option<T::Head>,
    tails: &mut Tails<T::Action, T::Record>,
    undone: &mut HeapCircularBuffer<T::Action>,
)
    requires admitted { IsSomeAnd (first_of (λ head. (T.unpacked head).0) Some head.old undone.old.items) (λ action. T.admitted machine.old action) }
    requires room { 1 ≤ tails.old.ring.capacity }
    ensures kept { IsSomeAnd (first_of (λ head. (T.unpacked head).0) Some head.old undone.old.items) (λ action.
        IsActed T.Reversible machine.old machine.new action head.new tails.old tails.new) }
    ensures undone { undone.new ≡ buffer (left_by head.old undone.old.items) undone.old.capacity }
{
    match head {
        Some(held) => {
            let action = T::unpack(held).0;
            machine.perform(action, head, tails);
        }
        None => perform_undone(machine, head, tails, undone),
    }
}

/// Performs the first undone action without a head again, and takes it out.
#[inline(never)]
fn perform_undone<T: Reversible>(
    machine: &mut T,
    head: &mut Option<T::Head>,
    tails: &mut Tails<T::Action, T::Record>,
    undone: &mut HeapCircularBuffer<T::Action>,
)
    requires admitted { IsSomeAnd (first_of (λ head. (T.unpacked head).0) Some None undone.old.items) (λ action. T.admitted machine.old action) }
    requires room { 1 ≤ tails.old.ring.capacity }
    ensures kept { IsSomeAnd (first_of (λ head. (T.unpacked head).0) Some None undone.old.items) (λ action.
        IsActed T.Reversible machine.old machine.new action head.new tails.old tails.new) }
    ensures undone { undone.new ≡ buffer (drop 1 undone.old.items) undone.old.capacity }
{
    let action = undone.pop_front().unwrap();
    machine.perform(action, head, tails);
}

/// Performs the next action again for each head, the last head first, and keeps each action as `perform` does. As a function of
/// its own it has registers for what its loop needs.
#[inline(never)]
pub(crate) fn perform_all<T: Reversible>(
    machine: &mut T,
    heads: &mut [Option<T::Head>],
    tails: &mut Tails<T::Action, T::Record>,
    undone: &mut HeapCircularBuffer<T::Action>,
)
    requires ready { AreReady T.Reversible heads.old machine.old tails.old undone.old }
    requires room { 1 ≤ tails.old.ring.capacity }
    ensures same_length { length heads.new ≡ length heads.old }
    ensures redone { AreRedone T.Reversible heads.old heads.new machine.old machine.new tails.old tails.new undone.old undone.new }
{
    let mut left = heads.len();
    while left > 0 {
        left -= 1;
        perform_next(machine, &mut heads[left], tails, undone);
    }
}

/// Undoes the actions of the heads, the first head first. As a function of its own it has registers for what its loop needs.
#[inline(never)]
pub(crate) fn undo_all<T: Reversible>(
    machine: &mut T,
    heads: &[Option<T::Head>],
    tails: &mut Tails<T::Action, T::Record>,
    undone: &mut HeapCircularBuffer<T::Action>,
)
    requires fit { AreFitting T.Reversible heads.now machine.old tails.old }
    requires room { 1 ≤ undone.old.capacity }
    ensures { AreUndone T.Reversible heads.now machine.old machine.new tails.old tails.new undone.old undone.new }
{
    for head in heads {
        undo(machine, head, tails, undone);
    }
}

/// Undoes the newest action, by its head or else by the newest tail, which is discarded. The action is then the next to
/// perform again.
#[inline(always)]
fn undo<T: Reversible>(
    machine: &mut T,
    head: &Option<T::Head>,
    tails: &mut Tails<T::Action, T::Record>,
    undone: &mut HeapCircularBuffer<T::Action>,
)
    requires fits { IsSomeAnd (first_of T.unpacked in_tail head.now tails.old.ring.items) (λ newest. T.fits newest.1 machine.old) }
    requires room { 1 ≤ undone.old.capacity }
    ensures undone { IsSomeAnd (first_of T.unpacked in_tail head.now tails.old.ring.items) (λ newest.
        (machine.new ≡ T.after_undo newest.1 machine.old) × IsNext T.unpacked head.now newest.0 undone.old undone.new) }
    ensures tails { tails.new.ring ≡ buffer (left_by head.now tails.old.ring.items) tails.old.ring.capacity }
{
    match head {
        Some(head) => machine.undo_head(head),
        None => undo_tail(machine, tails, undone),
    }
}

/// Undoes the action of the newest tail, which is discarded. The action is then the next to perform again.
#[inline(never)]
fn undo_tail<T: Reversible>(
    machine: &mut T,
    tails: &mut Tails<T::Action, T::Record>,
    undone: &mut HeapCircularBuffer<T::Action>,
)
    requires fits { IsSomeAnd (first_of T.unpacked in_tail None tails.old.ring.items) (λ newest. T.fits newest.1 machine.old) }
    requires room { 1 ≤ undone.old.capacity }
    ensures undone { IsSomeAnd (first_of T.unpacked in_tail None tails.old.ring.items) (λ newest.
        (machine.new ≡ T.after_undo newest.1 machine.old) × (undone.new ≡ pushed newest.0 undone.old)) }
    ensures tails { tails.new.ring ≡ buffer (drop 1 tails.old.ring.items) tails.old.ring.capacity }
{
    let count = tails.ring.len();
    let tail = tails.ring.get_mut(0).unwrap();
    match &tail.back {
        Some(back) => machine.undo(back),
        None => unreachable!(),
    }
    let action = tail.action.take().unwrap();
    tails.ring.truncate_front(count - 1);
    push(undone, action);
}
