//! Places by their numbers, each with its old number, one after another in a slice.
ghost use Rattle.std.specs.Prelude.{◌≡◌, ◌+◌, ◌<◌, ◌≤◌, ◌++◌, ◌∷◌, [], length, take};
ghost use Rattle.pp_machine.specs.Olds.{numbered};
ghost use Rattle.pp_machine.specs.Prelude.{write_list, written};

use crate::numbering::place_number;
use crate::place::{Place, Write};

/// A place by its number, and the number that was there before an action.
#[repr(C)]
#[derive(Clone, Copy, Default, Drop)]
pub struct Old {
    pub place: u64,
    pub number: u64,
}

/// Writes a place with its old number into a slice, behind the first `used` that are there. Returns how many are there
/// then.
#[inline(always)]
pub fn put_old(olds: &mut [Old], used: usize, place: Place, number: u64) -> usize
    requires { used < length olds.old }
    ensures items { take result olds.new ≡ take used olds.old ++ numbered ((place, number) ∷ []) }
    ensures front { take used olds.new ≡ take used olds.old }
    ensures count { result ≡ used + 1 }
{
    olds[used] = Old {
        place: place_number(&place),
        number,
    };
    used + 1
}

/// Does what `put_old` does, if the place was written. Else the first `used` stay as they are.
#[inline(always)]
pub fn put_old_if(
    olds: &mut [Old],
    used: usize,
    is_written: bool,
    place: Place,
    number: u64,
) -> usize
    requires { used < length olds.old }
    ensures items { take result olds.new ≡ take used olds.old ++ numbered (written is_written place number []) }
    ensures at_most { result ≤ used + 1 }
{
    // It is put there in either case, so there is no branch that the processor may predict wrongly.
    let end = put_old(olds, used, place, number);
    if is_written { end } else { used }
}

/// Writes places with their old numbers into a slice, as `put_old` does with one.
#[inline(always)]
#[tactic(auto, using(crate::proofs::PushedLists::old_more))]
pub fn put_olds(olds: &mut [Old], used: usize, pairs: &[Write]) -> usize
    requires { used + length pairs.now ≤ length olds.old }
    ensures items { take result olds.new ≡ take used olds.old ++ numbered (write_list pairs.now) }
    ensures count { result ≡ used + length pairs.now }
{
    for k in 0..pairs.len() {
        put_old(olds, used + k, pairs[k].place, pairs[k].number);
    }
    used + pairs.len()
}
