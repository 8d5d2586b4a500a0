//! Actions that can be undone, with where each number that they wrote comes from.
ghost use Rattle.pp_history.specs.SessionValue.{AtEach, IsAt, Moves, SessionValue, after_forward};
ghost use Rattle.pp_machine.specs.Machine.{Machine};
ghost use Rattle.pp_rig.specs.Rules.{rules};
ghost use Rattle.pp_turn_origins.specs.Inner as spec;
ghost use Rattle.pp_turn_origins.specs.Recording.{IsKept, links_by, made_by};
ghost use Rattle.std.specs.Prelude.{◌≡◌, ◌<◌, ◌≤◌, ◌∷◌, List, length, take};

use crate::recording::{MOST_TURN_LINKS, Made, begin_turn, end_turn, put_overwritten};
use pp_history::{KeptAction, Session};
use pp_machine::Old;
use pp_origins::Link;
use pp_rig::{Action, MOST_OLDS, Rig};

/// Returns whether an action is a turn.
fn is_turn(action: &Action) -> bool
    ensures { result ≡ spec.is_turn action.now }
{
    match action {
        Action::Turn => true,
        _ => false,
    }
}

/// Returns whether the newest action is a turn.
fn is_newest_turn(session: &Session<Rig>) -> bool
    requires { 1 ≤ length session.now.records }
    ensures { (v : SessionValue Machine Action) (action : Action) (earlier : List Action) → IsAt rules session.now v →
        v.standing ≡ action ∷ earlier → result ≡ spec.is_turn action }
{
    match session.newest_action() {
        Some(KeptAction::Head(_)) => true,
        Some(KeptAction::Tail(action)) => is_turn(action),
        None => unreachable!(),
    }
}

/// Performs the next action ahead again, and writes the links of what it wrote into a slice, from its beginning. Returns the
/// action.
fn tell_next(session: &mut Session<Rig>, links: &mut [Link]) -> Made
    requires some { 1 ≤ length session.old.ahead }
    requires room { MOST_TURN_LINKS ≤ length links.old }
    ensures moves { Moves rules session.old session.new (λ v. after_forward v 1) }
    ensures at_most { result.links ≤ MOST_TURN_LINKS }
    ensures made { (action : Action) (later : List Action) → session.old.ahead ≡ action ∷ later →
        result ≡ made_by session.old.machine action }
    ensures links { (action : Action) (later : List Action) → session.old.ahead ≡ action ∷ later →
        take result.links links.new ≡ links_by session.old.machine action }
{
    session.has_session_value();
    let mut olds = [Old::default(); MOST_OLDS];
    let begun = begin_turn(session.machine(), links, 0);
    let Ok(()) = session.forward(1) else {
        unreachable!()
    };
    if is_newest_turn(session) {
        return end_turn(session, &begun, links, 0, &mut olds, 0);
    }
    let count = put_overwritten(session, &mut olds, 0);
    Made {
        processor: 10,
        address: 0,
        word: 0,
        kind: 0,
        links: 0,
        own: 0,
        olds: count as u32,
    }
}

/// Writes the links of what the newest action wrote into a slice, from its beginning. Returns the action. It is undone and
/// performed again.
fn tell_newest(session: &mut Session<Rig>, links: &mut [Link]) -> Made
    requires some { 1 ≤ length session.old.records }
    requires room { MOST_TURN_LINKS ≤ length links.old }
    ensures stays { Moves rules session.old session.new (λ v. v) }
    ensures at_most { result.links ≤ MOST_TURN_LINKS }
    ensures kept { AtEach rules session.old (λ v. IsKept 0 v result links.new) }
{
    session.has_session_value();
    let Ok(()) = session.back(1) else {
        unreachable!()
    };
    tell_next(session, links)
}

/// Writes the links of what the action wrote that has so many newer ones, of those that can be undone, into a slice, from
/// its beginning. Returns the action; if it is no turn, its processor is 10 (decimal), and there are no links. The session
/// is then as it was.
pub fn kept_origins(session: &mut Session<Rig>, newer: u32, links: &mut [Link]) -> Made
    requires some { newer < length session.old.records }
    requires room { MOST_TURN_LINKS ≤ length links.old }
    ensures stays { Moves rules session.old session.new (λ v. v) }
    ensures at_most { result.links ≤ MOST_TURN_LINKS }
    ensures kept { AtEach rules session.old (λ v. IsKept newer v result links.new) }
{
    session.has_session_value();
    let Ok(()) = session.back(newer) else {
        unreachable!()
    };
    let made = tell_newest(session, links);
    let Ok(()) = session.forward(newer) else {
        unreachable!()
    };
    made
}
