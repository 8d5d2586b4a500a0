//! Searches, forward by new turns and back over the actions that can be undone.
ghost use Rattle.pp_actions.specs.declared.action.Action.TheVariants.{Turn};
ghost use Rattle.pp_history.specs.Repeating.{AreUnmarked};
ghost use Rattle.pp_history.specs.SessionValue.{AtEach, Moves, after_back, replay};
ghost use Rattle.pp_rig.specs.Inner.Marks.{marks_of};
ghost use Rattle.pp_rig.specs.Rules.{rules};
ghost use Rattle.pp_rig.specs.Stopping.{after_turns, turned};
ghost use Rattle.pp_search.specs.Condition.{HasAllPlaces};
ghost use Rattle.pp_search.specs.Plan.{IsPlan};
ghost use Rattle.pp_search.specs.Search.{came_in, came_in_newest, comes_in_turn, first_turn, last_before};
ghost use Rattle.std.specs.Prelude.{◌≡◌, ◌+◌, ◌-◌, ◌<◌, ◌≤◌, ℕ, false, true, MatchOption, length, unwrap_or};

use crate::condition::Condition;
use crate::judging::{candidate_comes, comes_to_hold};
use crate::plan::{Plan, plan_for};
use pp_history::{Marked, Session, UndoRecord};
use pp_rig::{Action, Rig};

/// Returns whether a condition came to hold in the newest action. Most turns are judged by the address where their processor
/// is, or by the marks, and the others by the candidates of their processor.
#[inline(always)]
fn comes_newest(session: &Session<Rig>, condition: &Condition, plan: &Plan) -> bool
    requires some { 1 ≤ length session.now.records }
    requires has { HasAllPlaces session.now.machine.setup.central_words condition.now }
    requires plan { IsPlan plan.now condition.now }
    ensures { AtEach rules session.now (λ v. result ≡ came_in_newest condition.now v.start v.standing) }
{
    match session.newest() {
        Some(back) => match &back {
            UndoRecord::Head(turn) => {
                let pp = turn.slot();
                let candidates = &plan.candidates.as_slice()[usize::from(pp)];
                if !candidates.can_hold(session.machine(), pp) {
                    return false;
                }
                if !plan.is_each && !Rig::may_be_marked(&back, &plan.marks) {
                    return false;
                }
                candidate_comes(condition, candidates, session.machine(), &back)
            }
            UndoRecord::Tail(_) => comes_to_hold(condition, session.machine(), &back),
        },
        None => unreachable!(),
    }
}

/// Performs turns, 1 to n: one alone, or up to the first whose undo record may have a marked place.
#[inline(always)]
#[tactic(auto, unfolding(pp_actions::specs::Admitting::first_fault, pp_rig::specs::Stopping::after_turns))]
fn perform_turns(session: &mut Session<Rig>, n: u32, plan: &Plan) -> u32
    requires some { 1 ≤ n }
    ensures some { (1 ≤ result) × (result ≤ n) }
    ensures each { plan.now.is_each ≡ true → result ≡ 1 }
    ensures machine { session.new.machine ≡ turned result session.old.machine }
    ensures at { Moves rules session.old session.new (after_turns result) }
    ensures unmarked { AreUnmarked rules marks_of plan.now.marks Turn (result - 1) session.old.machine }
{
    if plan.is_each || plan.is_stepped {
        session.act(Action::Turn);
        return 1;
    }
    session.repeat(n, &plan.marks)
}

/// Some turns of a search.
#[derive(Clone, Copy, Drop)]
struct Part {
    /// How many turns were performed.
    turns: u32,
    /// Whether the condition came to hold in the last one.
    is_found: bool,
}

/// Performs turns, 1 to n. The condition comes to hold in none of them but the last.
#[inline(always)]
fn turn_part(session: &mut Session<Rig>, n: u32, condition: &Condition, plan: &Plan) -> Part
    requires some { 1 ≤ n }
    requires has { HasAllPlaces session.old.machine.setup.central_words condition.now }
    requires plan { IsPlan plan.now condition.now }
    ensures some { (1 ≤ result.turns) × (result.turns ≤ n) }
    ensures machine { session.new.machine ≡ turned result.turns session.old.machine }
    ensures at { Moves rules session.old session.new (after_turns result.turns) }
    ensures earlier { (k : ℕ) → 1 ≤ k → k < result.turns → comes_in_turn condition.now session.old.machine k ≡ false }
    ensures last { result.is_found ≡ comes_in_turn condition.now session.old.machine result.turns }
{
    session.has_session_value();
    let _capacity = session.capacity();
    let turns = perform_turns(session, n, plan);
    Part {
        turns,
        is_found: comes_newest(session, condition, plan),
    }
}

/// Does what `until` does. As a function of its own it has registers for what its loop needs.
#[inline(never)]
fn find_turn(
    session: &mut Session<Rig>,
    condition: &Condition,
    plan: &Plan,
    most: u32,
) -> Option<u32>
    requires has { HasAllPlaces session.old.machine.setup.central_words condition.now }
    requires plan { IsPlan plan.now condition.now }
    ensures first { result ≡ first_turn condition.now most session.old.machine }
    ensures machine { session.new.machine ≡ turned (unwrap_or result most) session.old.machine }
    ensures moves { Moves rules session.old session.new (after_turns (unwrap_or result most)) }
{
    let mut turns = 0;
    while turns < most {
        let part = turn_part(session, most - turns, condition, plan);
        turns += part.turns;
        if part.is_found {
            return Some(turns);
        }
    }
    None
}

/// Performs turns until a condition comes to hold in one, or `most` were performed. Returns how many were performed if it
/// came to hold in the last one, and else `None`. A watched place does not stop it.
#[inline(never)]
pub fn until(session: &mut Session<Rig>, condition: &Condition, most: u32) -> Option<u32>
    requires has { HasAllPlaces session.old.machine.setup.central_words condition.now }
    ensures first { result ≡ first_turn condition.now most session.old.machine }
    ensures machine { session.new.machine ≡ turned (unwrap_or result most) session.old.machine }
    ensures moves { Moves rules session.old session.new (after_turns (unwrap_or result most)) }
{
    let plan = plan_for(session.machine(), condition);
    find_turn(session, condition, &plan, most)
}

/// Undoes the newest action, and returns whether the condition came to hold in the one before it.
#[inline(always)]
fn back_once(session: &mut Session<Rig>, condition: &Condition, plan: &Plan) -> bool
    requires some { 2 ≤ length session.old.records }
    requires has { HasAllPlaces session.old.machine.setup.central_words condition.now }
    requires plan { IsPlan plan.now condition.now }
    ensures kept { length session.new.records + 1 ≡ length session.old.records }
    ensures has { HasAllPlaces session.new.machine.setup.central_words condition.now }
    ensures at { Moves rules session.old session.new (λ v. after_back v 1) }
    ensures came { AtEach rules session.old (λ v. result ≡ came_in condition.now v 1) }
{
    session.has_session_value();
    let Ok(()) = session.back(1) else {
        unreachable!()
    };
    comes_newest(session, condition, plan)
}

/// Goes back to the end of the last action before the newest one in which a condition came to hold, and returns how many
/// actions were undone: at least 1. If there is none, returns `None`, and the session is as it was.
#[inline(never)]
pub fn back_until(session: &mut Session<Rig>, condition: &Condition) -> Option<u32>
    requires has { HasAllPlaces session.old.machine.setup.central_words condition.now }
    ensures last { AtEach rules session.old (λ v. result ≡ last_before condition.now v) }
    ensures moves { MatchOption result (Moves rules session.old session.new (λ v. v))
        (λ k. Moves rules session.old session.new (λ v. after_back v k)) }
{
    session.has_session_value();
    let plan = plan_for(session.machine(), condition);
    let last = session.kept().saturating_sub(1);
    let mut undone = 0;
    while undone < last {
        let is_found = back_once(session, condition, &plan);
        undone += 1;
        if is_found {
            return Some(undone);
        }
    }
    let Ok(()) = session.forward(undone) else {
        unreachable!()
    };
    None
}
