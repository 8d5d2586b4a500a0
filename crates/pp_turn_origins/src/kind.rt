//! What a turn is.
ghost use Rattle.pp_turn_origins.specs.Turn.{kind_of};
ghost use Rattle.std.specs.Prelude.{◌≡◌};

/// What a turn is.
#[derive(Clone, Copy, PartialEq, Eq, Default, Drop)]
pub enum TurnKind {
    /// It performs an instruction.
    #[default]
    Acted,
    /// It writes nothing but the clock and the slot.
    Waited,
    /// It performs a pass: 00, 24 or 25.
    Passed,
    /// It is a step of a block transfer.
    InBlock,
}

/// Returns the kind of a turn with this phase and this instruction word.
pub fn kind(is_wait: bool, phase: u16, word: u16) -> TurnKind
    ensures { result ≡ kind_of is_wait phase word }
{
    if is_wait {
        return TurnKind::Waited;
    }
    if phase != 0 {
        return TurnKind::InBlock;
    }
    match word >> 6 {
        0o00 | 0o24 | 0o25 => TurnKind::Passed,
        _ => TurnKind::Acted,
    }
}
