//! Theorems about write lists and the machine value, each the contract of a function that does nothing.

ghost use Rattle.std.specs.Prelude.{◌≡◌, ℕ, unwrap_or};
ghost use Rattle.pp_machine.specs.Prelude.{Machine, over, number, Writes, Has, HasAll, IsShaped, lookup};

use crate::place::Place;

/// A machine is its numbers. Two machines with the same shape, setup and deck that have the same number at each
/// place are equal.
#[tactic(auto, using(crate::proofs::Same::same_machines))]
pub fn numbers_make_the_machine()
    ensures { (size : ℕ) (m other : Machine) → IsShaped size m → IsShaped size other → m.setup ≡ other.setup →
        m.reader.deck ≡ other.reader.deck →
        ((place : Place) → Has size place → number m place ≡ number other place) → m ≡ other }
{}

/// A write list sets the numbers at its places and changes no others, if the machine has these places. Afterwards a
/// place of the list has the number of its first pair, and every other place has the number that it had before.
pub fn writes_set_only_their_places()
    ensures { (size : ℕ) (s : Machine) (list : Writes Place) (place : Place) → IsShaped size s → HasAll size list →
        number (over s list) place ≡ unwrap_or (lookup list place) (number s place) }
{}
