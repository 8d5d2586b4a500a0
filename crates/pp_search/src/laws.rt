//! Theorems about searches, each the contract of a function that does nothing at run time.
ghost use Rattle.pp_history.specs.SessionValue.{SessionValue};
ghost use Rattle.pp_actions.specs.declared.action.Action.{Action};
ghost use Rattle.pp_machine.specs.Machine.{Machine};
ghost use Rattle.pp_search.specs.Search.{IsFirst, comes_in_turn, first_turn};
ghost use Rattle.pp_search.specs.declared.condition.Condition.{Condition};
ghost use Rattle.std.specs.Prelude.{◌≡◌, ◌≤◌, ℕ, None, Some, false};

/// A search finds the first turn in which the condition comes to hold: none before it is one, and if it finds none there is
/// none.
#[tactic(auto, using(crate::proofs::Firsts::first_is, crate::proofs::Firsts::none_is))]
pub fn searches_find_the_first()
    ensures found { (condition : Condition) (most : ℕ) (s : Machine) (k : ℕ) → first_turn condition most s ≡ Some k →
        IsFirst condition most s k }
    ensures none { (condition : Condition) (most : ℕ) (s : Machine) → first_turn condition most s ≡ None →
        (k : ℕ) → 1 ≤ k → k ≤ most → comes_in_turn condition s k ≡ false }
{}
