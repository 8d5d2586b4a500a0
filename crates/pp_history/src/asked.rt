//! Undo records whose marks were asked.

ghost use Rattle.std.specs.Prelude.{◌≡◌, false};
ghost use Rattle.pp_history.specs.{Marks.IsUnmarked, UndoRecord.whole_record};

use crate::lookup::Lookups;
use crate::marks::{Marked, Marks};
use crate::reversible::UndoRecord;

/// An undo record, and whether it may have one of the places that marks cover. Only `Asked::of` makes one: a search may
/// look into a record only if its marks were asked, and did not rule it out.
#[derive(Drop)]
pub(crate) struct Asked<'a, H, R> {
    back: UndoRecord<'a, H, R>,
    may_be_marked: bool,
}

impl<'a, H: Drop, R: Drop> Asked<'a, H, R> {
    /// Asks the marks whether the undo record may have one of the places that they cover.
    #[inline(always)]
    pub(crate) fn of<L: Lookups<Head = H, Record = R>>(
        back: UndoRecord<'a, H, R>,
        marks: &Marks,
    ) -> Asked<'a, H, R>
        ensures back { result.back ≡ back.entry }
        ensures unmarked { result.may_be_marked ≡ false →
            IsUnmarked L.marks_of L.rules.old_value marks.now (whole_record L.rules.unpacked back.entry) }
    {
        let may_be_marked = L::may_be_marked(&back, marks);
        Asked {
            back,
            may_be_marked,
        }
    }

    /// Returns whether the undo record may have one of the places.
    #[inline(always)]
    pub(crate) fn may_be_marked(&self) -> bool
        ensures { result ≡ self.now.may_be_marked }
    {
        self.may_be_marked
    }

    /// Returns the old number of a place, or `None` if the undo record does not have that place.
    #[inline(always)]
    pub(crate) fn was<T: Marked<Head = H, Record = R>>(&self, place: &T::Place) -> Option<u64>
        ensures { result ≡ T.old_value (whole_record T.unpacked self.now.back) place.now }
    {
        match &self.back {
            UndoRecord::Head(head) => T::was(&T::unpack(head).1, place),
            UndoRecord::Tail(back) => T::was(back, place),
        }
    }
}
