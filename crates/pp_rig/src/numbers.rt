//! The numbers of a machine, in the order in which its places are numbered.
ghost use Rattle.pp_machine.specs.Numbering.{fixed_places, place_at};
ghost use Rattle.pp_machine.specs.Prelude.{number};
ghost use Rattle.std.specs.Prelude.{◌≡◌, ◌+◌, ◌<◌, ◌≤◌, ◌^◌, ◌↔◌, IsTrue, false, length, slice_index, true, ℕ};

use crate::rig::Rig;
use pp_history::Reversible;
use pp_machine::{CentralSize, FIXED_PLACES, place_at};

/// Returns how many places the machine has: those of every machine, and its words of central memory.
#[tactic(auto, unfolding(pp_machine::specs::CentralSizes::words_of))]
pub fn place_count(machine: &Rig) -> u32
    ensures value { result ≡ fixed_places + machine.now.setup.central_words }
    ensures within { result ≤ 237664 }
{
    match machine.central_size() {
        CentralSize::K32 => FIXED_PLACES + 0o100000,
        CentralSize::K64 => FIXED_PLACES + 0o200000,
        CentralSize::K128 => FIXED_PLACES + 0o400000,
    }
}

/// Reads the numbers of the places from the one with number `first` on, which the machine has.
fn read_all(machine: &Rig, first: u32, into: &mut [u64])
    requires has { first + length into.old ≤ fixed_places + machine.now.setup.central_words }
    requires small { first + length into.old < 2 ^ 32 }
    ensures { (k : ℕ) → k < length into.new → slice_index into.new k ≡ number machine.now (place_at (first + k)) }
{
    for k in 0..into.len() {
        into[k] = machine.value(&place_at(first + k as u32));
    }
}

/// Reads the numbers of as many places as the slice has elements, from the one with number `first` on. Returns `false`,
/// and reads nothing, if the machine does not have all of them.
pub fn read_numbers(machine: &Rig, first: u32, into: &mut [u64]) -> bool
    ensures has { IsTrue result ↔ (first + length into.new ≤ fixed_places + machine.now.setup.central_words) }
    ensures unchanged { result ≡ false → into.new ≡ into.old }
    ensures numbers { result ≡ true → (k : ℕ) → k < length into.new →
        slice_index into.new k ≡ number machine.now (place_at (first + k)) }
{
    let count = place_count(machine);
    if first > count || into.len() > (count - first) as usize {
        return false;
    }
    read_all(machine, first, into);
    true
}
