//! The searches that C calls.
ghost use Rattle.pp_library.specs.Searches.{BackUntil, Until};

use crate::handle::Handle;
use crate::status::{CLOSED, DONE, NOT_FOUND, REFUSED};
use pp_search::{Condition, Form, back_until, condition_into, until};
use std::alloc::Global;

/// Performs turns until a condition comes to hold in one (`DONE`), or `most` were performed (`NOT_FOUND`). `turns` is how
/// many were. No turn stops at a watched place. Returns `REFUSED`, and performs none, if the forms are no condition.
#[unsafe(no_mangle)]
pub extern "C" fn pp6600_until(
    alloc: Global,
    session: &mut Handle,
    condition: &[Form],
    most: u32,
    turns: &mut u32,
) -> u32
    ensures { Until condition.now most
        (record { session = session.old.value; turns = turns.old })
        (record { session = session.new.value; turns = turns.new }) result }
{
    let Some(mut console) = session.take(alloc) else {
        return CLOSED;
    };
    let mut searched = Condition::default();
    let status = if !condition_into(console.session.machine(), condition, &mut searched) {
        REFUSED
    } else {
        match until(&mut console.session, &searched, most) {
            Some(k) => {
                *turns = k;
                DONE
            }
            None => {
                *turns = most;
                NOT_FOUND
            }
        }
    };
    *session = Handle::of_box(console);
    status
}

/// Goes back to the end of the last action before the newest one in which a condition came to hold (`DONE`). `undone` is
/// how many actions were undone. Returns `NOT_FOUND` if there is none among those that can be undone, and `REFUSED` if
/// the forms are no condition; none is undone then.
#[unsafe(no_mangle)]
pub extern "C" fn pp6600_back_until(
    alloc: Global,
    session: &mut Handle,
    condition: &[Form],
    undone: &mut u32,
) -> u32
    ensures { BackUntil condition.now
        (record { session = session.old.value; undone = undone.old })
        (record { session = session.new.value; undone = undone.new }) result }
{
    let Some(mut console) = session.take(alloc) else {
        return CLOSED;
    };
    let mut searched = Condition::default();
    let status = if !condition_into(console.session.machine(), condition, &mut searched) {
        REFUSED
    } else {
        match back_until(&mut console.session, &searched) {
            Some(k) => {
                *undone = k;
                DONE
            }
            None => NOT_FOUND,
        }
    };
    *session = Handle::of_box(console);
    status
}
