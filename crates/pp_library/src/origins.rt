//! Where numbers come from, for C.
ghost use Rattle.std.specs.Prelude.{◌≡◌, ◌≤◌, length, true};
ghost use Rattle.pp_library.specs.Origins.{FindsWrite, HasPlacesFrom, LastWrite, NextOrigins, TellsWrite, TurnsWithOrigins};

use crate::handle::Handle;
use crate::status::{CLOSED, DONE, NOT_FOUND, REFUSED, ROOM, run_status};
use pp_history::Session;
use pp_rig::{Rig, place_count};
use pp_search::last_write;
use pp_turn_origins::{
    Link, MOST_CONTROL, MOST_LINKS, MOST_TURN_LINKS, Made, Old, coming, kept_origins, next_control,
    record_origins,
};
use std::alloc::Global;

/// Performs turns as `pp6600_turns` does. Writes of each also what it was and where each number that it wrote comes from.
/// There is no more room (`ROOM`) if there is none in `made` for one turn, in `links` for 44 (decimal) links, or in `olds`
/// for 76 (decimal) places.
#[unsafe(no_mangle)]
pub extern "C" fn pp6600_origins(
    alloc: Global,
    session: &mut Handle,
    most: u32,
    made: &mut [Made],
    links: &mut [Link],
    olds: &mut [Old],
    turns: &mut usize,
    linked: &mut usize,
    used: &mut usize,
) -> u32
    ensures { TurnsWithOrigins most
        (record {
          session = session.old.value;
          made = made.old;
          links = links.old;
          olds = olds.old;
          turns = turns.old;
          linked = linked.old;
          used = used.old;
        })
        (record {
          session = session.new.value;
          made = made.new;
          links = links.new;
          olds = olds.new;
          turns = turns.new;
          linked = linked.new;
          used = used.new;
        }) result }
{
    let Some(mut console) = session.take(alloc) else {
        return CLOSED;
    };
    let recorded = record_origins(&mut console.session, most as usize, made, links, olds);
    *turns = recorded.turns;
    *linked = recorded.links;
    *used = recorded.olds;
    *session = Handle::of_box(console);
    run_status(recorded.hit, recorded.turns, most as usize)
}

/// Writes what the next turn is, where each number that its processor will write comes from, and its control places. No turn
/// is performed. Returns `ROOM` if `links` has room for fewer than 33 (decimal), or `control` for fewer than 7.
#[unsafe(no_mangle)]
pub extern "C" fn pp6600_next_origins(
    alloc: Global,
    session: &mut Handle,
    turn: &mut Made,
    links: &mut [Link],
    count: &mut usize,
    control: &mut [u64],
    control_count: &mut usize,
) -> u32
    ensures { NextOrigins
        (record {
          session = session.old.value;
          turn = turn.old;
          links = links.old;
          count = count.old;
          control = control.old;
          control_count = control_count.old;
        })
        (record {
          session = session.new.value;
          turn = turn.new;
          links = links.new;
          count = count.new;
          control = control.new;
          control_count = control_count.new;
        }) result }
{
    let Some(console) = session.take(alloc) else {
        return CLOSED;
    };
    let machine = console.session.machine();
    let has_room = links.len() >= MOST_LINKS && control.len() >= MOST_CONTROL;
    if has_room {
        *turn = coming(machine, links);
        *count = turn.links as usize;
        *control_count = next_control(machine, control, 0);
    }
    *session = Handle::of_box(console);
    if has_room { DONE } else { ROOM }
}

/// Writes the newest action that can be undone and wrote one of `count` places, from the place `first` on (`DONE`), with
/// where each number that it wrote comes from; `newer` is how many actions are newer. Returns `NOT_FOUND` if there is none,
/// `ROOM` if `links` has room for fewer than 44 (decimal), and `REFUSED` if the machine does not have the places. The
/// session is then as it was.
#[unsafe(no_mangle)]
pub extern "C" fn pp6600_last_write(
    alloc: Global,
    session: &mut Handle,
    first: u32,
    count: u32,
    newer: &mut u32,
    turn: &mut Made,
    links: &mut [Link],
) -> u32
    ensures { LastWrite first count
        (record { session = session.old.value; found = record { newer = newer.old; turn = turn.old; links = links.old } })
        (record { session = session.new.value; found = record { newer = newer.new; turn = turn.new; links = links.new } }) result }
{
    let Some(mut console) = session.take(alloc) else {
        return CLOSED;
    };
    let status = if !has_places(console.session.machine(), first, count) {
        REFUSED
    } else {
        find_last_write(&mut console.session, first, count, newer, turn, links)
    };
    *session = Handle::of_box(console);
    status
}

/// Whether a machine has so many places, from one on.
fn has_places(machine: &Rig, first: u32, count: u32) -> bool
    ensures has { result ≡ true → HasPlacesFrom first count machine.now }
    ensures is { HasPlacesFrom first count machine.now → result ≡ true }
{
    let places = place_count(machine);
    first <= places && count <= places - first
}

/// Writes the newest action that can be undone and wrote one of the places (`DONE`), or returns `NOT_FOUND`, or `ROOM` if
/// there is too little room.
#[tactic(auto, unfolding(crate::specs::Origins::FindsWrite))]
fn find_last_write(
    session: &mut Session<Rig>,
    first: u32,
    count: u32,
    newer: &mut u32,
    turn: &mut Made,
    links: &mut [Link],
) -> u32
    requires has { HasPlacesFrom first count session.old.machine }
    ensures { FindsWrite first count session.old session.new
        (record { newer = newer.old; turn = turn.old; links = links.old })
        (record { newer = newer.new; turn = turn.new; links = links.new }) result }
{
    if links.len() < MOST_TURN_LINKS {
        return ROOM;
    }
    tell_last_write(session, first, count, newer, turn, links)
}

/// Writes the newest action that can be undone and wrote one of the places (`DONE`), or returns `NOT_FOUND`.
fn tell_last_write(
    session: &mut Session<Rig>,
    first: u32,
    count: u32,
    newer: &mut u32,
    turn: &mut Made,
    links: &mut [Link],
) -> u32
    requires has { HasPlacesFrom first count session.old.machine }
    requires room { MOST_TURN_LINKS ≤ length links.old }
    ensures { TellsWrite first count session.old session.new
        (record { newer = newer.old; turn = turn.old; links = links.old })
        (record { newer = newer.new; turn = turn.new; links = links.new }) result }
{
    match last_write(session, first, count) {
        Some(k) => {
            *newer = k;
            *turn = kept_origins(session, k, links);
            DONE
        }
        None => NOT_FOUND,
    }
}
