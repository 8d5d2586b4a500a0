//! Actions, and what each of them overwrote.
ghost use Rattle.pp_actions.specs.declared.action.Action.TheVariants.{Turn};
ghost use Rattle.pp_history.specs.SessionValue.{IsAt, Moves, SessionValue, after_forward, replay};
ghost use Rattle.pp_history.specs.declared.session.BackFault as BackFault;
ghost use Rattle.pp_machine.specs.Machine.{Machine};
ghost use Rattle.pp_machine.specs.Olds.{numbered};
ghost use Rattle.pp_machine.specs.Prelude.{list_room};
ghost use Rattle.pp_rig.specs.Action.{next};
ghost use Rattle.pp_rig.specs.Columns.{EndsAsStep};
ghost use Rattle.pp_rig.specs.Inner.ActionRecords.{old_values_of};
ghost use Rattle.pp_rig.specs.Recording.{IsRedone, moment_of, moments_of, olds_of, processor_of};
ghost use Rattle.pp_rig.specs.Rules.{rules};
ghost use Rattle.pp_rig.specs.Stopping.{after_turns, hit_of, turned};
ghost use Rattle.pp_rig.specs.Turn.{turn};
ghost use Rattle.std.specs.Prelude.{◌≡◌, ◌+◌, ◌*◌, ◌<◌, ◌≤◌, ◌++◌, ◌∷◌, ◌⊎◌, ◌↔◌, IfErr, IfOk, IsErr, OnErr, List, false, is_some, length, replicate, take};

use crate::rig::{Rig, put_newest_old_values};
use crate::stopping::turn_once;
use pp_actions::Action;
use pp_history::{BackFault, KeptAction, Session};
use pp_machine::Old;

/// The most places that one action overwrites (decimal).
pub const MOST_OLDS: usize = 76;

/// One action of a recording.
#[repr(C)]
#[derive(Clone, Copy, Default, Drop)]
pub struct Moment {
    /// The processor whose turn it was, 0 to 9, or 10 if the action is no turn.
    pub processor: u32,
    /// How many places it overwrote.
    pub count: u32,
}

/// How far a recording came.
#[derive(Clone, Copy, Drop)]
pub struct Recorded {
    /// How many actions were performed.
    pub turns: usize,
    /// How many places they overwrote.
    pub olds: usize,
    /// Whether the last one changed the number of a watched place.
    pub hit: bool,
}

/// How far a recording of actions that are performed again came.
#[derive(Clone, Copy, Drop)]
pub struct Redone {
    /// How many actions were performed again.
    pub actions: usize,
    /// How many places they overwrote.
    pub olds: usize,
}

/// Writes what the newest action overwrote into a slice, behind the first `used` that are there, and returns how many
/// places that are.
#[inline(always)]
fn record_newest(session: &Session<Rig>, olds: &mut [Old], used: usize) -> usize
    requires some { 1 ≤ length session.now.records }
    requires room { used + list_room ≤ length olds.old }
    ensures at_most { result ≤ list_room }
    ensures olds { (v : SessionValue Machine Action) (action : Action) (earlier : List Action) → IsAt rules session.now v →
        v.standing ≡ action ∷ earlier → (result ≡ length (old_values_of (replay rules v.start earlier) action))
        × (take (used + result) olds.new ≡ take used olds.old ++ numbered (old_values_of (replay rules v.start earlier) action)) }
{
    session.has_session_value();
    match put_newest_old_values(session, olds, used) {
        Some(end) => end - used,
        None => unreachable!(),
    }
}

/// Performs one turn, and writes what it overwrote into a slice, behind the first `used` that are there. Returns the turn,
/// and whether it changed the number of a watched place.
#[inline(always)]
fn record_turn(session: &mut Session<Rig>, olds: &mut [Old], used: usize) -> (Moment, bool)
    requires { used + list_room ≤ length olds.old }
    ensures hit { result.1 ≡ is_some (hit_of session.old.machine) }
    ensures machine { session.new.machine ≡ turn session.old.machine }
    ensures at { Moves rules session.old session.new (after_turns 1) }
    ensures at_most { result.0.count ≤ list_room }
    ensures moment { result.0 ≡ moment_of session.old.machine Turn }
    ensures olds { take (used + result.0.count) olds.new ≡ take used olds.old ++ numbered (old_values_of session.old.machine Turn) }
{
    session.has_session_value();
    let _capacity = session.capacity();
    let slot = session.machine().slot();
    let hit = turn_once(session);
    let moment = Moment {
        processor: u32::from(slot),
        count: record_newest(session, olds, used) as u32,
    };
    (moment, hit)
}

/// Performs turns, 1 to `most`, and writes what they overwrote, behind the first `turns` and the first `used` that are there.
/// Only the last of them may have changed the number of a watched place. If no place is watched, one loop performs all that a
/// block of the session has room for. Returns also whether the last turn changed one.
#[inline(always)]
fn record_part(
    session: &mut Session<Rig>,
    most: usize,
    made: &mut [Moment],
    turns: usize,
    olds: &mut [Old],
    used: usize,
) -> (pp_history::Recorded, bool)
    requires some { 1 ≤ most }
    requires made_room { turns + most ≤ length made.old }
    requires olds_room { used + most * list_room ≤ length olds.old }
    ensures some { (1 ≤ result.0.count) × (result.0.count ≤ most) }
    ensures moves { Moves rules session.old session.new (after_turns result.0.count) }
    ensures machine { session.new.machine ≡ turned result.0.count session.old.machine }
    ensures stops { EndsAsStep result.0.count session.old.machine result.1 }
    ensures moments { take (turns + result.0.count) made.new
        ≡ take turns made.old ++ moments_of session.old.machine (replicate result.0.count Turn) }
    ensures olds { take result.0.used olds.new
        ≡ take used olds.old ++ olds_of session.old.machine (replicate result.0.count Turn) }
    ensures at_most { result.0.used ≤ used + result.0.count * list_room }
{
    if session.machine().watches().is_empty() {
        return (
            session.repeat_recorded(most, made, turns, olds, used),
            false,
        );
    }
    let (moment, hit) = record_turn(session, olds, used);
    made[turns] = moment;
    let used = used + moment.count as usize;
    (pp_history::Recorded { count: 1, used }, hit)
}

/// Performs turns until there were `most`, or one changed the number of a watched place, or there is no more room: in
/// `made` for one turn, or in `olds` for `MOST_OLDS` places. Writes each turn into `made`, and into `olds`, turn after
/// turn, each place that it overwrote, with the number before the turn. If a place is there twice for one turn, the first
/// counts.
pub fn record(
    session: &mut Session<Rig>,
    most: usize,
    made: &mut [Moment],
    olds: &mut [Old],
) -> Recorded
    ensures moves { Moves rules session.old session.new (after_turns result.turns) }
    ensures stops { EndsAsStep result.turns session.old.machine result.hit }
    ensures moments { take result.turns made.new ≡ moments_of session.old.machine (replicate result.turns Turn) }
    ensures olds { take result.olds olds.new ≡ olds_of session.old.machine (replicate result.turns Turn) }
    ensures within { (result.turns ≤ most) × (result.turns ≤ length made.new) × (result.olds ≤ length olds.new) }
    ensures full { result.hit ≡ false → (most ≤ result.turns) ⊎ ((length made.new ≤ result.turns) ⊎ (length olds.new < result.olds + list_room)) }
{
    let mut turns = 0;
    let mut used = 0;
    while turns < most && turns < made.len() && olds.len() - used >= MOST_OLDS {
        let room = (made.len() - turns).min((olds.len() - used) / MOST_OLDS);
        let (part, hit) = record_part(session, room.min(most - turns), made, turns, olds, used);
        turns += part.count;
        used = part.used;
        if hit {
            return Recorded {
                turns,
                olds: used,
                hit,
            };
        }
    }
    Recorded {
        turns,
        olds: used,
        hit: false,
    }
}

/// Returns the processor whose turn an action is, or 10 (decimal) if it is no turn. The slot is that before the action.
#[inline(always)]
fn processor_of(action: &Action, slot: u8) -> u32
    ensures { (s : Machine) → s.slot ≡ slot → result ≡ processor_of s action.now }
{
    match action {
        Action::Turn => u32::from(slot),
        _ => 10,
    }
}

/// Returns the processor whose turn the newest action was, or 10 (decimal) if it was no turn. The slot is that before the
/// action.
#[inline(always)]
fn newest_processor(session: &Session<Rig>, slot: u8) -> u32
    requires { 1 ≤ length session.now.records }
    ensures { (v : SessionValue Machine Action) (action : Action) (earlier : List Action) (s : Machine) →
        IsAt rules session.now v → v.standing ≡ action ∷ earlier → s.slot ≡ slot → result ≡ processor_of s action }
{
    match session.newest_action() {
        Some(KeptAction::Head(_)) => u32::from(slot),
        Some(KeptAction::Tail(action)) => processor_of(action, slot),
        None => unreachable!(),
    }
}

/// Performs the next action ahead again, and writes what it overwrote into a slice, behind the first `used` that are
/// there. Returns the action.
#[inline(always)]
fn record_next(session: &mut Session<Rig>, olds: &mut [Old], used: usize) -> Moment
    requires some { 1 ≤ length session.old.ahead }
    requires room { used + list_room ≤ length olds.old }
    ensures moves { Moves rules session.old session.new (λ v. after_forward v 1) }
    ensures at_most { result.count ≤ list_room }
    ensures machine { (action : Action) (later : List Action) → session.old.ahead ≡ action ∷ later →
        session.new.machine ≡ next session.old.machine action }
    ensures moment { (action : Action) (later : List Action) → session.old.ahead ≡ action ∷ later →
        result ≡ moment_of session.old.machine action }
    ensures olds { (action : Action) (later : List Action) → session.old.ahead ≡ action ∷ later →
        take (used + result.count) olds.new ≡ take used olds.old ++ numbered (old_values_of session.old.machine action) }
{
    session.has_session_value();
    let slot = session.machine().slot();
    let Ok(()) = session.forward(1) else {
        unreachable!()
    };
    Moment {
        processor: newest_processor(session, slot),
        count: record_newest(session, olds, used) as u32,
    }
}

/// Performs the next `most` actions ahead again, as `Session::forward` does, without a stop at a watched place. It stops
/// earlier if there is no more room: in `made` for one action, or in `olds` for `MOST_OLDS` places. Writes what `record`
/// writes, for each action.
///
/// # Errors
/// `TooFewAhead` if fewer than `most` actions are ahead. Nothing is changed then.
pub fn record_again(
    session: &mut Session<Rig>,
    most: usize,
    made: &mut [Moment],
    olds: &mut [Old],
) -> Result<Redone, BackFault>
    ensures fails { IsErr result ↔ (length session.old.ahead < most) }
    ensures fault { IfErr result (λ fault. fault ≡ BackFault.TooFewAhead (length session.old.ahead)) }
    ensures unchanged { OnErr result ((session.new ≡ session.old) × (made.new ≡ made.old) × (olds.new ≡ olds.old)) }
    ensures redone { IfOk result (IsRedone most session.old session.new made.new olds.new) }
{
    session.has_session_value();
    let ahead = session.ahead();
    if most > ahead as usize {
        return Err(BackFault::TooFewAhead { ahead });
    }
    let mut actions = 0;
    let mut used = 0;
    while actions < most && actions < made.len() && olds.len() - used >= MOST_OLDS {
        let moment = record_next(session, olds, used);
        made[actions] = moment;
        actions += 1;
        used += moment.count as usize;
    }
    Ok(Redone {
        actions,
        olds: used,
    })
}
