//! Turns, and the numbers of chosen places after each of them.
ghost use Rattle.pp_history.specs.SessionValue.{Moves};
ghost use Rattle.pp_machine.specs.Numbering.{fixed_places, place_at};
ghost use Rattle.pp_machine.specs.Prelude.{Has, number};
ghost use Rattle.pp_rig.specs.Columns.{EndsAsStep, row, rows_of};
ghost use Rattle.pp_rig.specs.Rules.{rules};
ghost use Rattle.pp_rig.specs.Stopping.{after_turns};
ghost use Rattle.std.specs.Prelude.{◌≡◌, ◌+◌, ◌*◌, ◌<◌, ◌≤◌, ◌++◌, ◌⊎◌, All, IfSome, None, false, length, map, slice_index, take, ℕ};

use crate::numbers::place_count;
use crate::rig::Rig;
use crate::stopping::turn_once;
use arrayvec::ArrayVec;
use pp_history::{Reversible, Session};
use pp_machine::{Place, place_at};

/// How a run of turns ended.
#[derive(Clone, Copy, Debug, PartialEq, Eq, Drop)]
pub struct Ended {
    /// How many turns were performed.
    pub turns: usize,
    /// Whether the last turn changed the number of a watched place.
    pub hit: bool,
}

/// The most places that can be looked at in one call.
pub const MOST_COLUMNS: usize = 16;

/// Returns the places with these numbers, or `None` if there is none or too many, or if the machine does not have one.
pub fn places_from(machine: &Rig, numbers: &[u32]) -> Option<ArrayVec<Place, MOST_COLUMNS>>
    ensures places { IfSome result (λ places. places.items ≡ map place_at numbers.now) }
    ensures has { IfSome result (λ places. All (Has machine.now.setup.central_words) places.items) }
    ensures none { result ≡ None → (length numbers.now ≡ 0) ⊎ ((MOST_COLUMNS < length numbers.now)
        ⊎ ((k : ℕ) × (k < length numbers.now) × (fixed_places + machine.now.setup.central_words ≤ slice_index numbers.now k))) }
{
    if numbers.is_empty() || numbers.len() > MOST_COLUMNS {
        return None;
    }
    let count = place_count(machine);
    let mut places = ArrayVec::new();
    for k in 0..numbers.len() {
        if numbers[k] >= count {
            return None;
        }
        places.push(place_at(numbers[k]));
    }
    Some(places)
}

/// Writes the numbers at places into a slice, behind the first `used` that are there.
#[inline(always)]
fn write_row(machine: &Rig, places: &[Place], into: &mut [u64], used: usize)
    requires has { All (Has machine.now.setup.central_words) places.now }
    requires room { used + length places.now ≤ length into.old }
    ensures { take (used + length places.now) into.new ≡ take used into.old ++ row machine.now places.now }
{
    for k in 0..places.len() {
        into[used + k] = machine.value(&places[k]);
    }
}

/// Performs turns until there were `most`, or one changed the number of a watched place, or `into` has no room for
/// another row. After each turn the numbers at the places are appended to `into`.
pub fn look(session: &mut Session<Rig>, most: usize, places: &[Place], into: &mut [u64]) -> Ended
    requires has { All (Has session.old.machine.setup.central_words) places.now }
    ensures moves { Moves rules session.old session.new (after_turns result.turns) }
    ensures stops { EndsAsStep result.turns session.old.machine result.hit }
    ensures rows { take (result.turns * length places.now) into.new ≡ rows_of result.turns session.old.machine places.now }
    ensures within { (result.turns ≤ most) × (result.turns * length places.now ≤ length into.new) }
    ensures full { result.hit ≡ false → (most ≤ result.turns) ⊎ (length into.new < (result.turns + 1) * length places.now) }
{
    let mut turns = 0;
    let mut used = 0;
    while turns < most {
        if into.len() - used < places.len() {
            return Ended { turns, hit: false };
        }
        let hit = turn_once(session);
        write_row(session.machine(), places, into, used);
        used += places.len();
        turns += 1;
        if hit {
            return Ended { turns, hit };
        }
    }
    Ended { turns, hit: false }
}
