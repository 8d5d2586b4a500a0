//! Runs of turns that stop at the first change of a watched number.
ghost use Rattle.std.specs.Prelude.{◌≡◌, ◌≤◌, is_some, map, true};
ghost use Rattle.pp_history.specs.Marks.{AreCovered};
ghost use Rattle.pp_history.specs.SessionValue.{SessionValue, IsAt, Moves, after_act, replay};
ghost use Rattle.pp_history.specs.UndoRecord.{whole_record};
ghost use Rattle.pp_machine.specs.Machine.{Machine};
ghost use Rattle.pp_machine.specs.Prelude.{lookup};
ghost use Rattle.pp_rig.specs.Inner.ActionRecords.{FitsRecord, before, record_pairs};
ghost use Rattle.pp_rig.specs.Inner.Marks.{marks_of};
ghost use Rattle.pp_rig.specs.Rules.{rules};
ghost use Rattle.pp_rig.specs.Inner.Short.{unpacked};
ghost use Rattle.pp_rig.specs.Stopping.{after_turns, first_change, hit_of, newest_changed, stopped, turned};
ghost use Rattle.pp_rig.specs.Turn.{turn};
ghost use Rattle.pp_actions.specs.Watches.{watched_place, watches_of};

use crate::rig::{Rig, RigRecord, ShortTurn};
use pp_actions::{Action, Watched};
use pp_history::{Marks, Reversible, Session, UndoRecord};
use pp_machine::Place;

/// A change of a watched number in one turn.
#[derive(Clone, Copy, Debug, PartialEq, Eq, Drop)]
pub struct Hit {
    /// The first place, in watch order, whose number the turn changed.
    pub place: Watched,
    /// The number before the turn.
    pub was: u64,
    /// The number after the turn.
    pub now: u64,
}

/// How many turns a run performed, and the change that ended it, if there was one.
#[derive(Clone, Copy, Debug, PartialEq, Eq, Drop)]
pub struct Stopped {
    /// How many turns were performed, including the turn of the hit.
    pub turns: u32,
    /// The change that ended the run, or `None` if all turns were performed.
    pub hit: Option<Hit>,
}

/// Returns the old number of a place, or `None` if the undo record does not have that place.
#[inline(always)]
pub fn old_value(back: &UndoRecord<ShortTurn, RigRecord>, place: &Place) -> Option<u64>
    ensures { result ≡ lookup (record_pairs (whole_record unpacked back.now)) place.now }
{
    match back {
        UndoRecord::Head(turn) => turn.was(place),
        UndoRecord::Tail(record) => Rig::was(record, place),
    }
}

/// Returns the first watched place, in watch order, whose number an action with this undo record changed.
#[inline(always)]
#[tactic(auto, using(crate::proofs::Runs::changes))]
fn first_changed(machine: &Rig, back: &UndoRecord<ShortTurn, RigRecord>) -> Option<Hit>
    requires { FitsRecord (whole_record unpacked back.now) machine.now }
    ensures { result ≡ first_change (before (whole_record unpacked back.now) machine.now) machine.now (watches_of machine.now) }
{
    let watches = machine.watches();
    for i in 0..watches.len() {
        let place = watches[i].place();
        if let Some(was) = old_value(back, &place) {
            let now = machine.value(&place);
            if now != was {
                return Some(Hit {
                    place: watches[i],
                    was,
                    now,
                });
            }
        }
    }
    None
}

/// Returns the first watched place, in watch order, whose number the newest action, a turn, changed.
#[inline(always)]
fn newest_change(session: &Session<Rig>) -> Option<Hit>
    ensures { (v : SessionValue Machine Action) → IsAt rules session.now (after_act v Action.Turn) →
        result ≡ first_change (replay rules v.start v.standing) session.now.machine (watches_of session.now.machine) }
{
    let back = session.newest()?;
    first_changed(session.machine(), &back)
}

/// Returns whether the newest action changed the number of a place that is watched now. If no action can be undone, none
/// did. This is a separate function, so a loop of turns that watches nothing does not have it.
#[inline(never)]
#[tactic(auto, unfolding(crate::specs::Stopping::newest_changed))]
pub fn newest_changed(session: &Session<Rig>) -> bool
    ensures { (v : SessionValue Machine Action) → IsAt rules session.now v → result ≡ newest_changed v }
{
    match session.newest() {
        Some(back) => first_changed(session.machine(), &back).is_some(),
        None => false,
    }
}

/// Performs turns, 1 to n, and returns what a run of at most so many turns returns. The last turn is the first that may
/// have changed the number of a watched place, or the n-th.
#[tactic(auto, unfolding(pp_actions::specs::Admitting::first_fault), using(crate::proofs::Runs::runs))]
fn run_part(session: &mut Session<Rig>, n: u32, marks: &Marks) -> Stopped
    requires some { 1 ≤ n }
    requires covered { AreCovered marks_of marks.now (map watched_place (watches_of session.old.machine)) }
    ensures some { (1 ≤ result.turns) × (result.turns ≤ n) }
    ensures stops { result ≡ stopped result.turns session.old.machine }
    ensures machine { session.new.machine ≡ turned result.turns session.old.machine }
    ensures at { Moves rules session.old session.new (after_turns result.turns) }
{
    session.has_session_value();
    let turns = session.repeat(n, marks);
    Stopped {
        turns,
        hit: newest_change(session),
    }
}

/// Performs one turn, and returns whether it changed the number of a watched place. The turn is compiled into each loop that
/// calls this.
#[inline(always)]
#[tactic(auto, unfolding(pp_actions::specs::Admitting::first_fault), using(crate::proofs::Runs::one_turn_acts))]
pub(crate) fn turn_once(session: &mut Session<Rig>) -> bool
    ensures hit { result ≡ is_some (hit_of session.old.machine) }
    ensures machine { session.new.machine ≡ turn session.old.machine }
    ensures at { Moves rules session.old session.new (after_turns 1) }
{
    session.has_session_value();
    let _capacity = session.capacity();
    session.act(Action::Turn);
    if session.machine().watches().is_empty() {
        return false;
    }
    newest_changed(session)
}

/// Performs turns until n were performed, or until one changed the number of a watched place.
///
/// If a turn changed several watched numbers, the hit is the first in watch order. A turn in which a processor waits is
/// a turn like any other. If n is 0, no turn is performed.
#[tactic(auto, using(crate::proofs::Runs::runs))]
pub fn run(session: &mut Session<Rig>, n: u32) -> Stopped
    ensures stops { result ≡ stopped n session.old.machine }
    ensures is_replay { (v : SessionValue Machine Action) → IsAt rules session.old v →
        result ≡ stopped n (replay rules v.start v.standing) }
    ensures at { (v : SessionValue Machine Action) → IsAt rules session.old v →
        IsAt rules session.new (after_turns result.turns v) }
{
    let marks = Marks::of::<Rig>(session.machine().watched_places().as_slice());
    let mut turns = 0;
    while turns < n {
        let Stopped { turns: more, hit } = run_part(session, n - turns, &marks);
        turns += more;
        if hit.is_some() {
            return Stopped { turns, hit };
        }
    }
    Stopped { turns, hit: None }
}
