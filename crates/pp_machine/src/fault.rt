//! Why a part of the machine could not be made.
ghost use Rattle.std.specs.Prelude.{◌≡◌};
ghost use Rattle.pp_machine.specs.declared.fault.MakeFault.TheVariants.{NoMemory};

use std::alloc::{AllocError, AllocFailed};

/// Why a part of the machine could not be made. A constructor that fails drops its arguments.
#[derive(Clone, Copy, PartialEq, Eq, Debug, Drop)]
pub enum MakeFault {
    /// Memory ran out.
    NoMemory,
    /// The deck has more than 2000 (decimal) cards. Only the card reader has this error.
    DeckTooLong,
}

impl From<AllocError> for MakeFault {
    ghost from_gives = { λ _ fault. fault ≡ NoMemory };

    fn from(_refused: AllocError) -> MakeFault {
        MakeFault::NoMemory
    }
}

impl<T: Drop> From<AllocFailed<T>> for MakeFault {
    ghost from_gives = { λ _ fault. fault ≡ NoMemory };

    fn from(_refused: AllocFailed<T>) -> MakeFault {
        MakeFault::NoMemory
    }
}
