//! Conditions on the machine.

use arrayvec::ArrayVec;
use pp_machine::Place;

/// The most tests of an alternative, decimal.
pub const MOST_TESTS: usize = 8;

/// The most alternatives of a condition, decimal.
pub const MOST_ALTERNATIVES: usize = 64;

/// A test of an action, a turn or a setting. `Inside`, `Outside` and `Performs` are about the machine after it, and the
/// others about the action itself.
#[derive(Clone, Copy, Drop)]
pub enum Test {
    /// The number at the place is from `first` to `last`.
    Inside { place: Place, first: u64, last: u64 },
    /// The number at the place is below `first` or above `last`.
    Outside { place: Place, first: u64, last: u64 },
    /// One of `count` numbers changed: those of the place with number `first`, and of the places that follow it in the
    /// order of all places.
    Changes { first: u32, count: u32 },
    /// One of these places was written, with another number or with the same.
    WritesTo { first: u32, count: u32 },
    /// The processor, 0 to 9, is about to perform the instruction at the address, and is in no block transfer.
    Performs { pp: u8, address: u16 },
    /// It was a turn of the processor, 0 to 9, in which it waited.
    Waits { pp: u8 },
}

impl Default for Test {
    /// A test that never holds.
    fn default() -> Test {
        Test::Changes { first: 0, count: 0 }
    }
}

/// Tests that must hold of the same action. With no test it never comes to hold.
#[derive(Default, Drop)]
pub struct Alternative {
    pub tests: ArrayVec<Test, MOST_TESTS>,
}

/// Alternatives, one of which must come to hold.
#[derive(Default, Drop)]
pub struct Condition {
    pub alternatives: ArrayVec<Alternative, MOST_ALTERNATIVES>,
}
