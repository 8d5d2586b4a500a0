//! What C calls. `pp6600.h` has the same calls, with what C owes them.
ghost use Rattle.pp_library.specs.Calls.{Again, AnswersLines, Closes, Counts, GoesBack, GoesForward, Looks, Opens, ReadsNumbers};
ghost use Rattle.pp_library.specs.Calls.{Turns, WritesText, wanted};
ghost use Rattle.std.specs.Prelude.{◌≡◌};

use crate::console::Console;
use crate::handle::Handle;
use crate::status::{CLOSED, DONE, NO_MEMORY, OPEN, REFUSED, end_status, run_status};
use pp_console::{Trouble, answer_into};
use pp_program::{OpenOptions, open};
use pp_rig::{Moment, Old, look, newest_changed, places_from, read_numbers, record, record_again};
use std::alloc::Global;

/// Writes the text of a trouble into a slice, as far as it has room. Returns how many bytes that are.
fn write_text(trouble: &Trouble, text: &mut [u8]) -> usize
    ensures { WritesText trouble.now text.old text.new result }
{
    let line = trouble.text();
    let count = line.len().min(text.len());
    text[..count].copy_from_slice(&line.as_slice()[..count]);
    count
}

/// Opens a session. Returns `DONE`; `OPEN` if the handle has one already; `NO_MEMORY`; or `REFUSED`: then `text` has the
/// program's line of the refusal, and `status` the program's exit status.
#[unsafe(no_mangle)]
pub extern "C" fn pp6600_open(
    alloc: Global,
    history: u32,
    central: u32,
    reader: u8,
    printer: u8,
    deck: &[u8],
    panel: &[u8],
    session: &mut Handle,
    text: &mut [u8],
    text_count: &mut usize,
    status: &mut u32,
) -> u32
    ensures { Opens (wanted history central reader printer deck.now panel.now)
        (record { session = session.old.value; text = text.old; text_count = text_count.old; status = status.old })
        (record { session = session.new.value; text = text.new; text_count = text_count.new; status = status.new }) result }
{
    if session.is_open(alloc) {
        return OPEN;
    }
    let options = OpenOptions {
        history,
        central,
        reader,
        printer,
        deck,
        panel,
    };
    let trouble = match open(alloc, &options) {
        Ok(opened) => match Handle::new(alloc, Console { session: opened }) {
            Ok(handle) => {
                *session = handle;
                return DONE;
            }
            Err(_) => Trouble::NoMemory,
        },
        Err(trouble) => trouble,
    };
    *text_count = write_text(&trouble, text);
    *status = u32::from(trouble.status());
    if trouble == Trouble::NoMemory {
        NO_MEMORY
    } else {
        REFUSED
    }
}

/// Performs lines and writes their answers into a slice, until there is no further line (`DONE`), or the answer to the
/// next one might not fit (`ROOM`), or the next one is past a limit (`LIMIT`).
#[unsafe(no_mangle)]
pub extern "C" fn pp6600_answer(
    alloc: Global,
    session: &mut Handle,
    typed: &[u8],
    into: &mut [u8],
    taken: &mut usize,
    count: &mut usize,
    lines: &mut u32,
    refused: &mut u32,
) -> u32
    ensures { AnswersLines typed.now
        (record { session = session.old.value; into = into.old; taken = taken.old; count = count.old; lines = lines.old; refused = refused.old })
        (record { session = session.new.value; into = into.new; taken = taken.new; count = count.new; lines = lines.new; refused = refused.new }) result }
{
    let Some(mut console) = session.take(alloc) else {
        return CLOSED;
    };
    let answered = answer_into(&mut console.session, typed, into);
    *taken = answered.taken;
    *count = answered.count;
    *lines = answered.lines;
    *refused = answered.refused;
    *session = Handle::of_box(console);
    end_status(answered.end)
}

/// Reads the numbers at the places from number `first` on, as many as the slice has elements. Returns `REFUSED` if the
/// machine does not have all of them.
#[unsafe(no_mangle)]
pub extern "C" fn pp6600_numbers(
    alloc: Global,
    session: &mut Handle,
    first: u32,
    into: &mut [u64],
) -> u32
    ensures { ReadsNumbers first
        (record { session = session.old.value; into = into.old })
        (record { session = session.new.value; into = into.new }) result }
{
    let Some(console) = session.take(alloc) else {
        return CLOSED;
    };
    let has_all = read_numbers(console.session.machine(), first, into);
    *session = Handle::of_box(console);
    if has_all { DONE } else { REFUSED }
}

/// Counts the actions that can be undone, those that can be performed again, and how many the session keeps. `changed` is
/// 1 if the newest action that can be undone changed the number of a watched place, and otherwise 0.
#[unsafe(no_mangle)]
pub extern "C" fn pp6600_counts(
    alloc: Global,
    session: &mut Handle,
    kept: &mut u32,
    ahead: &mut u32,
    capacity: &mut u32,
    changed: &mut u32,
) -> u32
    ensures { Counts
        (record {
          session = session.old.value;
          kept = kept.old;
          ahead = ahead.old;
          capacity = capacity.old;
          changed = changed.old;
        })
        (record {
          session = session.new.value;
          kept = kept.new;
          ahead = ahead.new;
          capacity = capacity.new;
          changed = changed.new;
        }) result }
{
    let Some(console) = session.take(alloc) else {
        return CLOSED;
    };
    *kept = console.session.kept();
    *ahead = console.session.ahead();
    *capacity = console.session.capacity();
    *changed = u32::from(newest_changed(&console.session));
    *session = Handle::of_box(console);
    DONE
}

/// Performs turns until there were `most` (`DONE`), or one changed the number of a watched place (`WATCHED`), or there is
/// no more room (`ROOM`): in `made` for one turn, or in `olds` for 76 (decimal) places.
#[unsafe(no_mangle)]
pub extern "C" fn pp6600_turns(
    alloc: Global,
    session: &mut Handle,
    most: u32,
    made: &mut [Moment],
    olds: &mut [Old],
    turns: &mut usize,
    used: &mut usize,
) -> u32
    ensures { Turns most
        (record { session = session.old.value; made = made.old; olds = olds.old; actions = turns.old; used = used.old })
        (record { session = session.new.value; made = made.new; olds = olds.new; actions = turns.new; used = used.new }) result }
{
    let Some(mut console) = session.take(alloc) else {
        return CLOSED;
    };
    let recorded = record(&mut console.session, most as usize, made, olds);
    *turns = recorded.turns;
    *used = recorded.olds;
    *session = Handle::of_box(console);
    run_status(recorded.hit, recorded.turns, most as usize)
}

/// Performs the next `most` actions ahead again, as `pp6600_forward` does (`DONE`), or fewer if there is no more room
/// (`ROOM`), and writes of each what `pp6600_turns` writes. Returns `REFUSED`, and performs none, if fewer are ahead.
#[unsafe(no_mangle)]
pub extern "C" fn pp6600_again(
    alloc: Global,
    session: &mut Handle,
    most: u32,
    made: &mut [Moment],
    olds: &mut [Old],
    actions: &mut usize,
    used: &mut usize,
) -> u32
    ensures { Again most
        (record { session = session.old.value; made = made.old; olds = olds.old; actions = actions.old; used = used.old })
        (record { session = session.new.value; made = made.new; olds = olds.new; actions = actions.new; used = used.new }) result }
{
    let Some(mut console) = session.take(alloc) else {
        return CLOSED;
    };
    let status = match record_again(&mut console.session, most as usize, made, olds) {
        Ok(redone) => {
            *actions = redone.actions;
            *used = redone.olds;
            run_status(false, redone.actions, most as usize)
        }
        Err(_) => REFUSED,
    };
    *session = Handle::of_box(console);
    status
}

/// Performs turns as `pp6600_turns` does, and after each appends the numbers at the places to `into`. Returns `REFUSED`
/// if there are not 1 to 16 (decimal) places, or if the machine does not have one.
#[unsafe(no_mangle)]
pub extern "C" fn pp6600_looks(
    alloc: Global,
    session: &mut Handle,
    most: u32,
    places: &[u32],
    into: &mut [u64],
    turns: &mut usize,
) -> u32
    ensures { Looks most places.now
        (record { session = session.old.value; into = into.old; turns = turns.old })
        (record { session = session.new.value; into = into.new; turns = turns.new }) result }
{
    let Some(mut console) = session.take(alloc) else {
        return CLOSED;
    };
    let status = match places_from(console.session.machine(), places) {
        Some(chosen) if !places.is_empty() => {
            let ended = look(&mut console.session, most as usize, chosen.as_slice(), into);
            *turns = ended.turns;
            run_status(ended.hit, ended.turns, most as usize)
        }
        _ => REFUSED,
    };
    *session = Handle::of_box(console);
    status
}

/// Undoes the newest actions. Returns `REFUSED`, and undoes none, if fewer can be undone.
#[unsafe(no_mangle)]
pub extern "C" fn pp6600_back(alloc: Global, session: &mut Handle, count: u32) -> u32
    ensures { GoesBack count session.old.value session.new.value result }
{
    let Some(mut console) = session.take(alloc) else {
        return CLOSED;
    };
    let status = console.back(count);
    *session = Handle::of_box(console);
    status
}

/// Performs actions ahead again, without a stop at a watch. Returns `REFUSED`, and performs none, if fewer are ahead.
#[unsafe(no_mangle)]
pub extern "C" fn pp6600_forward(alloc: Global, session: &mut Handle, count: u32) -> u32
    ensures { GoesForward count session.old.value session.new.value result }
{
    let Some(mut console) = session.take(alloc) else {
        return CLOSED;
    };
    let status = console.forward(count);
    *session = Handle::of_box(console);
    status
}

/// Closes a session, and gives its memory back (`DONE`). Returns `CLOSED` if the handle has none.
#[unsafe(no_mangle)]
pub extern "C" fn pp6600_close(alloc: Global, session: &mut Handle) -> u32
    ensures { Closes session.old.value session.new.value result }
{
    match session.take(alloc) {
        Some(console) => {
            drop(console);
            DONE
        }
        None => CLOSED,
    }
}
