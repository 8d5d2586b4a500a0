//! The search of undo records for a change.

ghost use Rattle.std.specs.Prelude.{◌≡◌, ◌+◌, ◌≤◌, ℕ, IfSome, Option, None, All, Bool, true, false, length};
ghost use Rattle.pp_history.specs.{Marks.AreCovered, Marks.IsUnmarked, Parts.IsSession, Parts.contents_of, Search.IsCounted};
ghost use Rattle.pp_history.specs.{Search.changes, Search.differs_from, Search.first_changing, UndoRecord.whole_record};

use crate::asked::Asked;
use crate::log::Log;
use crate::looks::Looks;
use crate::marks::{Marked, Marks};
use crate::reversible::{Reversible, UndoRecord};
use crate::step::undo_record;

/// A machine whose undo records a search looks into. Code that knows no more of a machine than this trait can look only by
/// `look`, which counts, and can't make a counter. So nothing that it does with a record stays uncounted.
pub(crate) trait Lookups {
    type Action: Drop;

    type Record: Drop;

    type Place;

    type Head: Drop;
    /// A counter of looks.
    type Looks;

    ghost use Rattle.pp_history.specs.declared.reversible.Reversible.{Ghosts};

    ghost rules: { Ghosts Self Self.Action Self.Record Self.Place Self.Head };

    ghost marks_of: { Self.Place → Option (ℕ × ℕ) };

    ghost count: { Self.Looks → ℕ };

    ghost is_started: { Self.Looks → Bool };

    /// Returns `false` only if the undo record has none of the places that the marks cover.
    fn may_be_marked(back: &UndoRecord<Self::Head, Self::Record>, marks: &Marks) -> bool
        ensures { result ≡ false → IsUnmarked marks_of rules.old_value marks.now (whole_record rules.unpacked back.now) };

    /// Raises the counter by one: for a look, or for a record that its marks skip.
    fn tick(looks: &mut Self::Looks)
        ensures { count looks.new ≡ count looks.old + 1 };

    /// Returns whether an undo record that its marks do not rule out has another number for a place than the machine. This
    /// is one look.
    fn look(
        &self,
        asked: &Asked<Self::Head, Self::Record>,
        place: &Self::Place,
        looks: &mut Self::Looks,
    ) -> bool
        requires has_place { rules.has_place self.now place.now }
        requires may_be_marked { asked.now.may_be_marked ≡ true }
        ensures value { result ≡ differs_from (rules.old_value (whole_record rules.unpacked asked.now.back) place.now) (rules.value_at self.now place.now) }
        ensures counted { count looks.new ≡ count looks.old + 1 };
}

impl<T: Marked> Lookups for T {
    type Action = T::Action;

    type Record = T::Record;

    type Place = T::Place;

    type Head = T::Head;

    type Looks = Looks;

    ghost rules = { T.Reversible };

    ghost marks_of = { T.marks_of };

    ghost count = { λ looks. looks.count };

    ghost is_started = { λ looks. looks.is_started };

    #[inline(always)]
    fn may_be_marked(back: &UndoRecord<T::Head, T::Record>, marks: &Marks) -> bool {
        <T as Marked>::may_be_marked(back, marks)
    }

    #[inline(always)]
    fn tick(looks: &mut Looks) {
        looks.tick();
    }

    #[inline(always)]
    fn look(&self, asked: &Asked<T::Head, T::Record>, place: &T::Place, looks: &mut Looks) -> bool {
        Self::tick(looks);
        match asked.was::<T>(place) {
            Some(old) => old != self.value(place),
            None => false,
        }
    }
}

/// Returns whether one of the places has another number in an undo record than in the machine. This is a separate
/// function, so records that are skipped need not save the registers that it needs.
#[inline(never)]
fn has_other<L: Lookups>(
    machine: &L,
    asked: &Asked<L::Head, L::Record>,
    places: &[L::Place],
    looks: &mut L::Looks,
) -> bool
    requires has_places { All (λ place. L.rules.has_place machine.now place) places.now }
    requires may_be_marked { asked.now.may_be_marked ≡ true }
    ensures value { result ≡ changes L.rules (L.rules.value_at machine.now) places.now (whole_record L.rules.unpacked asked.now.back) }
    ensures counted { IsCounted (length places.now) 1 None (L.count looks.old) (L.count looks.new) }
{
    for place in places {
        if machine.look(asked, place, looks) {
            return true;
        }
    }
    false
}

/// Does what `has_other` does. Here the marks are asked first, once, and a record that has none of the places is skipped
/// without a look.
#[inline(always)]
#[tactic(auto, using(std::proofs::lemmas::List::Folds::list_any_none))]
fn is_changed<L: Lookups>(
    machine: &L,
    back: UndoRecord<L::Head, L::Record>,
    places: &[L::Place],
    marks: &Marks,
    looks: &mut L::Looks,
) -> bool
    requires has_places { All (λ place. L.rules.has_place machine.now place) places.now }
    requires covers { AreCovered L.marks_of marks.now places.now }
    ensures value { result ≡ changes L.rules (L.rules.value_at machine.now) places.now (whole_record L.rules.unpacked back.entry) }
    ensures counted { IsCounted (length places.now) 1 None (L.count looks.old) (L.count looks.new) }
{
    let asked = Asked::of::<L>(back, marks);
    if !asked.may_be_marked() {
        if !places.is_empty() {
            L::tick(looks);
        }
        return false;
    }
    has_other(machine, &asked, places, looks)
}

/// Returns the position, counted from 1, of the first kept undo record that has another number for one of the places than
/// the machine has.
#[tactic(auto, using(crate::proofs::Runs::kept_is))]
pub(crate) fn search<L: Lookups>(
    machine: &L,
    log: &Log<L::Action, L::Record, L::Head>,
    places: &[L::Place],
    marks: &Marks,
    looks: &mut L::Looks,
) -> Option<u32>
    requires is { IsSession L.rules machine.now log.now }
    requires has_places { All (λ place. L.rules.has_place machine.now place) places.now }
    requires covers { AreCovered L.marks_of marks.now places.now }
    requires started { L.is_started looks.old ≡ true }
    ensures value { result ≡ first_changing L.rules (L.rules.value_at machine.now) places.now (contents_of L.rules.unpacked machine.now log.now).records }
    ensures counted { IsCounted (length places.now) (length (contents_of L.rules.unpacked machine.now log.now).records) result (L.count looks.old) (L.count looks.new) }
    ensures at_most_kept { IfSome result (λ k. k ≤ length (contents_of L.rules.unpacked machine.now log.now).records) }
{
    let mut tail = 0;
    for k in 0..log.kept as u32 {
        let head = log.heads.get(log.at, k as usize);
        let back = undo_record(head, &log.tails, tail).unwrap();
        if is_changed(machine, back, places, marks, looks) {
            return Some(k + 1);
        }
        match head {
            Some(_) => {}
            None => tail += 1,
        }
    }
    None
}
