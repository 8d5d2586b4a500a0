//! Theorems about runs and write lists, each the contract of a function that does nothing.
ghost use Rattle.std.specs.Prelude.{◌≡◌, ◌≢◌, ◌≤◌, ℕ, ◌++◌, length, None, replicate};
ghost use Rattle.std.specs.List.{AllPairs};
ghost use Rattle.pp_history.specs.SessionValue.{SessionValue};
ghost use Rattle.pp_machine.specs.Prelude.{Machine, over, places, HasAll};
ghost use Rattle.pp_rig.specs.Inner.ActionRecords.{most_places, writes};
ghost use Rattle.pp_rig.specs.Action.{next};
ghost use Rattle.pp_actions.specs.Admitting.{first_fault};
ghost use Rattle.pp_machine.specs.Parts.{after_parts};
ghost use Rattle.pp_rig.specs.Stopping.{stopped, after_turns, IsShortest};
ghost use Rattle.pp_rig.specs.Turn.{turn_parts};
ghost use Rattle.pp_rig.specs.WellFormed.{IsWellFormed};
ghost use Rattle.pp_actions.specs.declared.action.Action.TheVariants.{Turn};

use pp_actions::Action;

/// A run ends with the first turn that changes a watched number, and its turns are the newest actions of the session.
#[tactic(auto, using(crate::proofs::Shortest::shortest, crate::proofs::Shortest::standing_turns))]
pub fn runs_are_shortest()
    ensures shortest { (most : ℕ) (m : Machine) → IsShortest most m (stopped most m) }
    ensures standing { (turns : ℕ) (v : SessionValue Machine Action) →
        (after_turns turns v).standing ≡ replicate turns Turn ++ v.standing }
{}

/// No action other than a turn writes a place twice, if it writes at most as many places as its kind may: 76 for a dead
/// start, 8 for any other (decimal). Every action that a rig performs stays within that limit (`Reversible::act`).
///
/// In a turn, each part's own list has no place twice (`pp_step::writes_are_distinct`,
/// `pp_machine::device_writes_are_distinct`), and the clock and the slot are one place each. The list of the whole turn
/// may have a place twice, because a processor and a device can both write the state of one channel. The machine then
/// has the number of the later part. In the record the first pair counts, which has the number before the turn.
#[tactic(auto, using(crate::proofs::WrittenOnce::written_once))]
pub fn actions_write_each_place_once()
    ensures { (s : Machine) (action : Action) → action ≢ Turn →
        length (writes s action) ≤ most_places action →
        AllPairs (λ one other. one ≢ other) (places (writes s action)) }
{}

/// An admitted action writes only places that the machine has, if the machine is well formed. This includes a turn.
#[tactic(auto, using(crate::proofs::WrittenPlaces::written_places))]
pub fn actions_write_places_of_the_machine()
    ensures { (s : Machine) (action : Action) → IsWellFormed s → first_fault s action ≡ None →
        HasAll s.setup.central_words (writes s action) }
{}

/// A turn performs its parts one after another, each on the machine that the parts before it left: the step of the
/// processor in the slot, the steps of the reader and of the printer, the clock and the slot [P4].
///
/// So every action, a turn too, leads to the machine after its write list.
#[tactic(auto, unfolding(crate::specs::Turn::turn), using(crate::proofs::Overwritten::next_by_writes))]
pub fn turns_perform_their_parts()
    ensures parts { (s : Machine) → next s Turn ≡ after_parts turn_parts s }
    ensures writes { (s : Machine) (action : Action) → next s action ≡ over s (writes s action) }
{}
