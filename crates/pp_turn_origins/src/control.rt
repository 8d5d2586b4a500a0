//! The control places of the next turn: their numbers decide what its processor reads and writes.
#![tactic(auto, using(pp_machine::proofs::PushedLists::pushed_lists))]

ghost use Rattle.pp_machine.specs.Numbering.{place_number};
ghost use Rattle.pp_origins.specs.Blocks.{block_row};
ghost use Rattle.pp_origins.specs.Rows.{row_of};
ghost use Rattle.pp_origins.specs.Step.{address_places, place_if, row_places};
ghost use Rattle.pp_step.specs.Codes.{number_of};
ghost use Rattle.pp_step.specs.InstructionTable.{row_of as step_row_of};
ghost use Rattle.pp_turn_origins.specs.Turn.{turn_control};
ghost use Rattle.std.specs.Prelude.{◌≡◌, ◌+◌, ◌<◌, ◌≤◌, ◌++◌, ◌∷◌, ◌&&◌, [], length, map, nat_lt, take};

use crate::reading::{cell, phase_and_p};
use pp_machine::{CHANNELS, Place, place_number};
use pp_rig::Rig;
use pp_step::Code::{self, *};
use pp_step::decode;

/// The most control places (decimal).
pub const MOST_CONTROL: usize = 7;

/// Writes the number of a place into a slice, behind the first `used` that are there.
fn put(place: Place, places: &mut [u64], used: usize) -> usize
    requires { used < length places.old }
    ensures items { take result places.new ≡ take used places.old ++ place_number place ∷ [] }
    ensures count { result ≡ used + 1 }
{
    places[used] = place_number(&place);
    used + 1
}

/// Writes a place, if it decides.
fn put_if(is_deciding: bool, place: Place, places: &mut [u64], used: usize) -> usize
    requires { used < length places.old }
    ensures items { take result places.new ≡ take used places.old ++ map place_number (place_if is_deciding place) }
    ensures at_most { result ≤ used + 1 }
{
    if is_deciding {
        put(place, places, used)
    } else {
        used
    }
}

/// Writes the cells from which an operand's address comes.
fn put_address(code: Code, pp: u8, p: u16, d: u8, places: &mut [u64], used: usize) -> usize
    requires { used + 2 ≤ length places.old }
    ensures items { take result places.new
        ≡ take used places.old ++ map place_number (address_places (step_row_of (number_of code)).mode pp p d) }
    ensures at_most { result ≤ used + 2 }
{
    let index = Place::Cell {
        pp,
        a: u16::from(d),
    };
    match code {
        Ldi | Adi | Sbi | Lmi | Sti | Rai | Aoi | Soi => put(index, places, used),
        Ljm | Rjm | Ldm | Adm | Sbm | Lmm | Stm | Ram | Aom | Som => {
            let a = ((u32::from(p) + 1) & 0o7777) as u16;
            let used = put(Place::Cell { pp, a }, places, used);
            put_if(d != 0, index, places, used)
        }
        _ => used,
    }
}

/// Writes the places that the row of an instruction names as deciding.
fn put_row(code: Code, pp: u8, d: u8, places: &mut [u64], used: usize) -> usize
    requires { used < length places.old }
    ensures items { take result places.new ≡ take used places.old ++ map place_number (row_places (row_of (number_of code)) pp d) }
    ensures at_most { result ≤ used + 1 }
{
    match code {
        Zjn | Njn | Pjn | Mjn | Exn | Crd | Cwd => put(Place::RegA { pp }, places, used),
        Ajm | Ijm | Fjm | Ejm | Ian | Oan | Acn | Dcn | Fan | Fnc => {
            put_if(d < CHANNELS, Place::ChannelMode { c: d }, places, used)
        }
        _ => used,
    }
}

/// Writes the places that decide in a block transfer.
fn put_block(code: Code, pp: u8, d: u8, places: &mut [u64], used: usize) -> usize
    requires { used + 2 ≤ length places.old }
    ensures items { take result places.new
        ≡ take used places.old ++ map place_number (row_places (block_row (number_of code)) pp d) }
    ensures at_most { result ≤ used + 2 }
{
    match code {
        Crm | Cwm => {
            let used = put(Place::RegA { pp }, places, used);
            put(Place::RegQ { pp }, places, used)
        }
        Iam | Oam => {
            let used = put(Place::RegA { pp }, places, used);
            put_if(d < CHANNELS, Place::ChannelMode { c: d }, places, used)
        }
        _ => used,
    }
}

/// Writes the numbers of the control places of the next turn into a slice, behind the first `used` that are there. Returns
/// how many are there then.
#[tactic(auto, using(pp_machine::proofs::PushedLists::pushed_lists), unfolding(pp_origins::specs::Step::control_places, crate::specs::Turn::turn_control))]
pub fn next_control(machine: &Rig, places: &mut [u64], used: usize) -> usize
    requires { used + MOST_CONTROL ≤ length places.old }
    ensures items { take result places.new ≡ take used places.old ++ map place_number (turn_control machine.now) }
    ensures at_most { result ≤ used + MOST_CONTROL }
{
    let pp = machine.slot();
    let (phase, p) = phase_and_p(machine, pp);
    let used = put(Place::Slot, places, used);
    let used = put(Place::Phase { pp }, places, used);
    let used = put(Place::RegP { pp }, places, used);
    if phase != 0 {
        let op = decode(phase);
        return put_block(op.code, pp, op.d, places, used);
    }
    let op = decode(cell(machine, pp, p));
    let used = put(Place::Cell { pp, a: p }, places, used);
    let used = put_address(op.code, pp, p, op.d, places, used);
    put_row(op.code, pp, op.d, places, used)
}
