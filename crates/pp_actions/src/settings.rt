//! The numbers that an action sets.
ghost use Rattle.std.specs.Prelude.{◌≡◌, ◌+◌, ◌≤◌, ◌++◌, length};
ghost use Rattle.arrayvec.specs.ArrayVec.{array_vec_len};
ghost use Rattle.pp_machine.specs.Prelude.{write_list};
ghost use Rattle.pp_actions.specs.Settings.{set_list};
ghost use Rattle.pp_actions.specs.WriteLists.{cell_writes};
ghost use Rattle.pp_machine.specs.Ranges.{cell_count};

use crate::action::Action;
use crate::lists::list_of;
use arrayvec::ArrayVec;
use pp_machine::{Place, Write};

/// Appends the settings of values in cells from a on. The first cell of the memory follows the last.
#[tactic(auto, using(crate::proofs::WriteLists::pair_lists))]
pub(crate) fn push_cells<const N: usize>(
    list: &mut ArrayVec<Write, N>,
    pp: u8,
    a: u16,
    values: &[u16],
)
    requires at_most { length values.now ≤ cell_count }
    requires room { array_vec_len list.old + length values.now ≤ N }
    ensures items { write_list list.new.items ≡ write_list list.old.items ++ cell_writes pp a values.now }
    ensures len { array_vec_len list.new ≡ array_vec_len list.old + length values.now }
{
    for (i, value) in values.iter().enumerate() {
        let place = Place::Cell {
            pp,
            a: ((a as usize + i) % 4096) as u16,
        };
        list.push(Write::new(place, u64::from(*value)));
    }
}

/// Returns the numbers that an action sets, by place.
pub fn settings_of(action: &Action) -> ArrayVec<Write, 8>
    ensures { write_list result.items ≡ set_list action.now }
{
    match action {
        Action::SetCells { pp, a, values } => {
            let mut list = ArrayVec::new();
            push_cells(&mut list, *pp, *a, values.as_slice());
            list
        }
        Action::SetA { pp, v } => list_of(&[Write::new(Place::RegA { pp: *pp }, u64::from(*v))]),
        Action::SetP { pp, v } => list_of(&[
            Write::new(Place::RegP { pp: *pp }, u64::from(*v)),
            Write::new(Place::Phase { pp: *pp }, 0),
        ]),
        Action::SetQ { pp, v } => list_of(&[Write::new(Place::RegQ { pp: *pp }, u64::from(*v))]),
        Action::SetWord { a, v } => list_of(&[Write::new(Place::Central { a: *a }, *v)]),
        Action::SetChannel { c, state, word } => {
            let mut list = list_of(&[Write::new(Place::ChannelMode { c: *c }, *state as u64)]);
            if let Some(word) = word {
                list.push(Write::new(Place::ChannelWord { c: *c }, u64::from(*word)));
            }
            list
        }
        Action::Turn | Action::Watch(_) | Action::Unwatch(_) | Action::Deadstart => ArrayVec::new(),
    }
}
