//! What a device has moved, as contracts see it.
ghost use Rattle.pp_lines.specs.{Calls.Call, Device.is_at_end};
ghost use Rattle.std.specs.Prelude.{◌≡◌, ◌∷◌, ◌++◌, Bool, false, List, [], None, Some, take, ℕ};
ghost use Rattle.std.specs.Borrow.{ftrue};

use std::marker::{Model, PhantomData};
use std::mem::size_of;

/// The calls of a device so far, the bytes that they moved, and whether the device is at its end. Only contracts see them. At run
/// time the log holds nothing and has size zero.
#[derive(Drop)]
pub struct Log {
    marker: PhantomData<u8>,
    pub ghost bytes: { List ℕ },
    pub ghost ended: { Bool },
    /// What each call returned, the latest first.
    pub ghost calls: { List Call },
}

const _: () = prove!(size_of::<Log>() == 0);

impl Model for Log {
    ghost also_owns = { λ _. ftrue };
}

impl Log {
    /// Returns an empty log.
    pub fn new() -> Log
        ensures { (result.bytes ≡ []) × (result.ended ≡ false) × (result.calls ≡ []) }
    {
        Log {
            marker: PhantomData,
        }
    }

    /// Logs a call that moved the first bytes of this slice, so many of them. A source that read nothing into a slice
    /// that is not empty is at its end.
    pub fn note(&mut self, _slice: &[u8], _count: usize)
        ensures { (self.new.bytes ≡ self.old.bytes ++ take _count _slice.now)
            × (self.new.ended ≡ is_at_end self.old.ended _count _slice.now)
            × (self.new.calls ≡ Some (take _count _slice.now) ∷ self.old.calls) }
    {}

    /// Logs a call that failed. It moved no byte.
    pub fn note_failure(&mut self)
        ensures { (self.new.bytes ≡ self.old.bytes) × (self.new.ended ≡ self.old.ended) × (self.new.calls ≡ None ∷ self.old.calls) }
    {}
}
