//! The numbers that a dead start sets.
#![tactic(auto, using(crate::proofs::WriteLists::pair_lists))]

ghost use Rattle.std.specs.List.{flat_map, range_with_len};
ghost use Rattle.std.specs.Prelude.{◌≡◌, ◌+◌, ◌<◌, ◌≤◌, ◌^◌, ◌++◌, All, length, replicate};
ghost use Rattle.arrayvec.specs.ArrayVec.{array_vec_len};
ghost use Rattle.pp_machine.specs.Prelude.{write_list};
ghost use Rattle.pp_machine.specs.declared.place.Place.TheVariants.{ChannelMode};
ghost use Rattle.pp_actions.specs.Deadstart.{deadstart_write_list, deadstart_places, states, waiting};
ghost use Rattle.pp_actions.specs.RecordLists.{with_new_numbers, numbers};
ghost use Rattle.pp_actions.specs.WriteLists.{register_writes, writes_from};
ghost use Rattle.pp_machine.specs.Ranges.{channel_count};

use crate::settings::push_cells;
use arrayvec::ArrayVec;
use pp_machine::{Place, Write, append};

/// Returns the settings of the registers and the phase of a processor.
fn registers(pp: u8, a: u64, p: u64, q: u64, phase: u64) -> [Write; 4]
    ensures { write_list result ≡ register_writes pp a p q phase }
{
    [
        Write::new(Place::RegA { pp }, a),
        Write::new(Place::RegP { pp }, p),
        Write::new(Place::RegQ { pp }, q),
        Write::new(Place::Phase { pp }, phase),
    ]
}

/// Appends the settings that make all processors except the first wait for input on the channel of their number.
fn push_all_waiting(list: &mut ArrayVec<Write, 76>)
    requires { array_vec_len list.old + 45 ≤ 76 }
    ensures items { write_list list.new.items ≡ write_list list.old.items ++ flat_map waiting (range_with_len 1 9) }
    ensures len { array_vec_len list.new ≡ array_vec_len list.old + 45 }
{
    for n in 0..9u8 {
        let pp = n + 1;
        list.push(Write::new(Place::Cell { pp, a: 0 }, 0));
        append(list, &registers(pp, 0o10000, 0, 0, 0o7100 + u64::from(pp)));
    }
}

/// The states of the channels after a dead start.
const STATES: [u64; 12] = [0, 1, 1, 1, 1, 1, 1, 1, 1, 1, 0, 0];

/// Appends the states of the channels.
fn push_states(list: &mut ArrayVec<Write, 76>, states: &[u64])
    requires at_most { length states.now ≤ channel_count }
    requires room { array_vec_len list.old + length states.now ≤ 76 }
    ensures items { write_list list.new.items ≡ write_list list.old.items ++ writes_from ChannelMode 0 states.now }
    ensures len { array_vec_len list.new ≡ array_vec_len list.old + length states.now }
{
    for (c, state) in states.iter().enumerate() {
        list.push(Write::new(Place::ChannelMode { c: c as u8 }, *state));
    }
}

/// Returns all that a dead start by this panel writes.
#[tactic(auto, using(crate::proofs::WriteLists::pair_lists), unfolding(crate::specs::Deadstart::deadstart_write_list))]
pub fn deadstart_settings(panel: &[u16; 12]) -> ArrayVec<Write, 76>
    ensures list { write_list result.items ≡ deadstart_write_list panel.now }
    ensures words { length panel.now ≡ channel_count }
{
    let mut list = ArrayVec::new();
    push_cells(&mut list, 0, 0, &[0]);
    push_cells(&mut list, 0, 1, panel);
    push_cells(&mut list, 0, 0o15, &[0]);
    append(&mut list, &registers(0, 0, 1, 0, 0));
    push_all_waiting(&mut list);
    push_states(&mut list, &STATES);
    append(&mut list, &[Write::new(Place::Slot, 0)]);
    list
}

/// Returns the numbers of the pairs.
pub fn numbers_of(pairs: &[Write]) -> ArrayVec<u32, 76>
    requires at_most { length pairs.now ≤ 76 }
    requires small { All (λ pair. pair.number < 2 ^ 32) pairs.now }
    ensures { result.items ≡ numbers (write_list pairs.now) }
{
    let mut list = ArrayVec::new();
    for pair in pairs {
        list.push(pair.number as u32);
    }
    list
}

/// Returns the places of a dead start with these numbers.
pub fn renumbered(numbers: &[u32]) -> ArrayVec<Write, 76>
    ensures { write_list result.items ≡ with_new_numbers deadstart_places numbers.now }
{
    let settings = deadstart_settings(&[0; 12]);
    let pairs = settings.as_slice();
    let mut list = ArrayVec::new();
    for (i, pair) in pairs.iter().enumerate() {
        if i >= numbers.len() {
            return list;
        }
        list.push(Write::new(pair.place, u64::from(numbers[i])));
    }
    list
}
