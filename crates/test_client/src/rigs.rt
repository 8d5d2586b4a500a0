//! The calls of `pp_rig` and `pp_history` that the rest of the client has no use for.

use crate::act;
use pp_history::{BackFault, Reversible, Session};
use pp_rig::{
    Action, ActionFault, ChannelState, MOST_OLDS, Old, Place, Rig, Watched, put_newest_old_values,
};

/// Checks an action, performs another one and undoes it.
fn show_undo(rt: &HostRuntime, rig: &mut Rig) {
    let (place, action) = (Place::RegA { pp: 0 }, Action::SetA { pp: 0, v: 5 });
    let refused = rig.check(&Action::SetP { pp: 0, v: 0o10000 }) == Err(ActionFault::Range);
    if !rig.admits(&action) {
        return;
    }
    let back = rig.act(&action);
    let (was, now) = (Rig::was(&back, &place), rig.value(&place));
    rig.undo(&back);
    let before = rig.value(&place);
    let _ = println!(rt; "refused {refused}, A {now} was {was:?}, undone {before}");
}

/// Reads the machine.
fn show_getters(rt: &HostRuntime, rig: &Rig) {
    let (slot, watches, size) = (rig.slot(), rig.watches().len(), rig.central_size().words());
    let (cards, symbols, panel) = (rig.cards(), rig.paper().len(), rig.has_panel());
    let (reader, printer) = (rig.reader_channel(), rig.printer_channel());
    let cell = Place::Cell { pp: 0, a: 0o50 };
    let watched = Watched::Cell { pp: 0, a: 0o50 }.place() == cell;
    let _ = println!(rt;
        "slot {slot}, watches {watches}, central {size:o}, cards {cards}, symbols {symbols}"
    );
    let _ = println!(rt;
        "reader {reader:o}, printer {printer:o}, panel {panel}, watched {watched}"
    );
}

/// Uses a machine by itself.
pub fn show(rt: &HostRuntime, rig: &mut Rig) {
    show_undo(rt, rig);
    show_getters(rt, rig);
}

/// Performs an action in a session, and goes back to the change that it made.
pub fn show_change(rt: &HostRuntime, session: &mut Session<Rig>) {
    let action = Action::SetA { pp: 0, v: 5 };
    if session.machine().admits(&action) {
        session.act(action);
    }
    let mut olds = [Old::default(); MOST_OLDS];
    let listed = put_newest_old_values(session, &mut olds, 0);
    let _ = println!(rt; "listed {listed:?}");
    let (kept, capacity) = (session.kept(), session.capacity());
    let changed = session.back_to_change(&[Place::RegA { pp: 0 }]);
    let ahead = session.ahead();
    let _ = println!(rt; "kept {kept} of {capacity}, back {changed:?}, ahead {ahead}");
}

/// Asks a new session for more than it has kept or has ahead.
fn show_back_faults(rt: &HostRuntime, session: &mut Session<Rig>) {
    let back = session.back(1) == Err(BackFault::TooFew { kept: 0 });
    let places = [Place::RegA { pp: 0 }];
    let change = session.back_to_change(&places) == Err(BackFault::NoChange { kept: 0 });
    let forward = session.forward(1) == Err(BackFault::TooFewAhead { ahead: 0 });
    let _ = println!(rt; "too few kept {back}, no change {change}, too few ahead {forward}");
}

/// Sets a register, a central word and a channel.
fn show_sets(rt: &HostRuntime, session: &mut Session<Rig>) {
    let q = act(session, Action::SetQ { pp: 1, v: 5 });
    let word = act(session, Action::SetWord { a: 0o20, v: 7 });
    let channel = Action::SetChannel {
        c: 5,
        state: ChannelState::Full,
        word: Some(0o17),
    };
    let channel = act(session, channel);
    let function = Action::SetChannel {
        c: 5,
        state: ChannelState::Function,
        word: None,
    };
    let function = act(session, function);
    let _ = println!(rt; "set Q {q}, word {word}, channel {channel}, function {function}");
    let machine = session.machine();
    let (q, c) = (
        machine.value(&Place::RegQ { pp: 1 }),
        machine.value(&Place::ChannelWord { c: 5 }),
    );
    let _ = println!(rt; "Q {q}, channel {c:o}");
}

/// Watches a place, stops watching it, and starts all processors anew.
pub fn show_settings(rt: &HostRuntime, session: &mut Session<Rig>) {
    show_back_faults(rt, session);
    show_sets(rt, session);
    let place = Watched::RegQ { pp: 1 };
    let watched = act(session, Action::Watch(place));
    let unwatched = act(session, Action::Unwatch(place));
    let again = act(session, Action::Unwatch(place));
    let started = act(session, Action::Deadstart);
    let p = session.machine().value(&Place::RegP { pp: 0 });
    let _ = println!(rt;
        "watched {watched}, unwatched {unwatched} and {again}, started {started} at {p}"
    );
}
