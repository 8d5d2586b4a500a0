//! Theorems about the origins of a step, each the contract of a function that does nothing.
ghost use Rattle.pp_machine.specs.Machine.{IsShaped, Machine, lookup};
ghost use Rattle.pp_origins.specs.Origin.{IsMoved, Origin, read as number_at, result as number_of, results};
ghost use Rattle.pp_origins.specs.Step.{AreEnough, AreSame, control_places, origin_of, step_origins, step_writes};
ghost use Rattle.std.specs.Prelude.{◌≡◌, None, Some, ℕ, length};

use crate::origin::Read;
use pp_machine::Place;

/// A step writes the places of its list and no other, in the order of the list, and each new number is the one that its
/// origin makes.
#[tactic(auto, using(crate::proofs::Explained::step_explained))]
pub fn numbers_come_from_their_origins()
    ensures { (n : ℕ) (s : Machine) → length s.frame ≡ 16 → step_writes n s ≡ results s (step_origins n s) }
{}

/// A number that is moved is what is read: the number at a place, or the named field of it.
pub fn moved_numbers_are_read()
    ensures { (s : Machine) (origin : Origin) (from : Read) → IsMoved origin from → number_of s origin ≡ number_at s from }
{}

/// A machine that has the same numbers as s at the control places, and where the origin of a place reads, gets the same new
/// number there. A place that is not in the list of s is not written by such a machine either.
#[tactic(auto, using(crate::proofs::Agreement::others_stay))]
pub fn reads_are_enough()
    ensures enough { (n : ℕ) (s t : Machine) (place : Place) (origin : Origin) → IsShaped s.setup.central_words s →
        IsShaped t.setup.central_words t → t.setup ≡ s.setup → t.reader.deck ≡ s.reader.deck → AreSame s t (control_places n s) →
        origin_of (step_origins n s) place ≡ Some origin → AreEnough (step_writes n) s t place origin }
    ensures others { (n : ℕ) (s t : Machine) (place : Place) → IsShaped s.setup.central_words s →
        IsShaped t.setup.central_words t → t.setup ≡ s.setup → AreSame s t (control_places n s) →
        origin_of (step_origins n s) place ≡ None → lookup (step_writes n t) place ≡ None }
{}
