//! Marks of places. They show of most undo records that none of these places is in them.

ghost use Rattle.std.specs.Prelude.{◌≡◌, ℕ, Option, Some, None, IfSome, true, false};
ghost use Rattle.pp_history.specs.Marks as spec;
ghost use Rattle.pp_history.specs.{Marks.AreCovered, Marks.IsUnmarked, Marks.is_covered, UndoRecord.whole_record};

use crate::reversible::{Reversible, UndoRecord};

/// A machine whose places have marks, so a search skips most undo records. In a machine without marks the `impl` is empty,
/// and a search looks at each record.
pub trait Marked: Reversible {
    /// The numbers of the two marks of a place, if the place has marks.
    ghost marks_of: { Self.Place → Option (ℕ × ℕ) } = { λ _. None };

    /// Returns the numbers of the two marks of a place, or `None` if the place has none. Several places may share a mark,
    /// and the two may be the same. A search skips a record if for each of its places one of the two is not set.
    fn marks(_place: &Self::Place) -> Option<(u16, u16)>
        ensures { IfSome result (λ marks. marks_of _place.now ≡ Some marks) }
    {
        None
    }

    /// Returns `false` only if the undo record has none of the places that the marks cover.
    fn may_be_marked(_back: &UndoRecord<Self::Head, Self::Record>, _marks: &Marks) -> bool
        ensures { result ≡ false → IsUnmarked marks_of Self.old_value _marks.now (whole_record Self.unpacked _back.now) }
    {
        true
    }
}

/// Marks of places: a Bloom filter with two hashes. The machine numbers the marks, `Marked::marks`. A place that was
/// not given may share its marks with places that were.
#[derive(Drop)]
pub struct Marks {
    /// A flag for each mark, modulo 1024 (decimal).
    marks: [bool; 1024],
    /// Whether a place was given.
    pub(crate) has_places: bool,
    /// Whether one of the places has no marks. Then every undo record is searched.
    has_unmarked: bool,
}

impl Marks {
    /// Returns the marks of these places.
    pub fn of<T: Marked>(places: &[T::Place]) -> Marks
        ensures { AreCovered T.marks_of result places.now }
    {
        let mut marks = Marks {
            marks: [false; 1024],
            has_places: false,
            has_unmarked: false,
        };
        for place in places {
            marks.add(T::marks(place));
        }
        marks
    }

    /// Sets the two marks of a place, or notes that it has none.
    fn add(&mut self, marks: Option<(u16, u16)>)
        ensures covers { is_covered self.new marks ≡ true }
        ensures keeps_covered { (m : Option (ℕ × ℕ)) → is_covered self.old m ≡ true → is_covered self.new m ≡ true }
    {
        self.has_places = true;
        match marks {
            Some((one, other)) => {
                self.set(one);
                self.set(other);
            }
            None => self.has_unmarked = true,
        }
    }

    /// Sets a mark.
    fn set(&mut self, i: u16)
        ensures sets { spec.is_set self.new i ≡ true }
        ensures keeps { (j : ℕ) → spec.is_set self.old j ≡ true → spec.is_set self.new j ≡ true }
        ensures keeps_places { self.new.has_places ≡ self.old.has_places }
        ensures keeps_unmarked { self.new.has_unmarked ≡ self.old.has_unmarked }
    {
        self.marks[usize::from(i % 1024)] = true;
    }

    /// Returns whether one of the places has no marks.
    #[inline(always)]
    pub fn has_unmarked(&self) -> bool
        ensures { result ≡ self.now.has_unmarked }
    {
        self.has_unmarked
    }

    /// Returns whether the mark is set.
    #[inline(always)]
    pub fn is_set(&self, mark: u16) -> bool
        ensures { result ≡ spec.is_set self.now mark }
    {
        self.marks[usize::from(mark % 1024)]
    }
}
