//! The ranges of a line and those of a machine.
ghost use Rattle.std.specs.Prelude.{◌≤◌, ℕ, IsTrue};
ghost use Rattle.pp_command.specs.Ranges.{CanBeAsked, IsActionInRange, IsWithin, most_central_words};
ghost use Rattle.pp_actions.specs.Admitting.{is_in_range};
ghost use Rattle.pp_actions.specs.declared.action.Action.{Action};

/// A line and a rig's machine have the same ranges, except for central memory. A line may name any of 400000 (octal)
/// words, and a machine has as many as its size says. So a machine admits every action in a line's ranges, if it has
/// the central word that the action names. A line can ask for every action that a machine admits, except a turn and
/// the setting of more than eight cells. A machine admits no action on a central word that it does not have.
#[tactic(auto, using(crate::proofs::Agreeing::admitted, crate::proofs::Agreeing::asked, crate::proofs::Agreeing::within))]
pub fn ranges_agree()
    ensures admitted { (size : ℕ) (action : Action) → IsActionInRange action → IsWithin size action →
        IsTrue (is_in_range size action) }
    ensures asked { (size : ℕ) (action : Action) → size ≤ most_central_words → CanBeAsked action →
        IsTrue (is_in_range size action) → IsActionInRange action }
    ensures within { (size : ℕ) (action : Action) → IsTrue (is_in_range size action) → IsWithin size action }
{}
