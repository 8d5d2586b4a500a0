//! Block transfers.
#![tactic(auto, unfolding(pp_step::specs::Step::pp_writes))]

ghost use Rattle.std.specs.Prelude.{[], ◌∷◌};
ghost use Rattle.pp_step.specs.View.{A, Cell, Register, State, P, Phase, Q, Central};
ghost use Rattle.pp_worked.specs.Processors.{Leads, Performs, Runs};

/// While a block moves, cell 0000 holds the address of `m`. A block that overwrites cell 0000 continues at the
/// number that it wrote there, plus one.
pub fn return_address_in_cell_0000()
    ensures issue { Performs 0o6110 ((A, 0o1000) ∷ (Cell 0o10, 2) ∷ (Cell 0o101, 0o7776) ∷ [])
        ((P, 0o7776) ∷ (Q, 2) ∷ (Phase, 0o6110) ∷ (Cell 0, 0o101) ∷ []) }
    ensures central_block_over_it { Runs 4 (0o6110 ∷ 0o7776 ∷ [])
        ((A, 0o1000) ∷ (Cell 0o10, 2) ∷ (Central 0o1000, 0o00010002000300040005) ∷ [])
        ((P, 4) ∷ (A, 0o1002) ∷ (Q, 0) ∷ (Phase, 0) ∷ (Cell 0o7776, 1) ∷
        (Cell 0o7777, 2) ∷ (Cell 0, 3) ∷ (Cell 1, 4) ∷ (Cell 2, 5) ∷ []) }
    ensures ended_input_over_it { Leads ((Phase, 0o7105) ∷ (A, 5) ∷ (Cell 0, 0o101) ∷ []) 1
        ((P, 1) ∷ (A, 5) ∷ (Phase, 0) ∷ (Cell 0, 0) ∷ []) }
{}

/// 61 and 63 move as many words as cell d says. Central address 777777 is followed by 0.
pub fn central_blocks()
    ensures to_cells { Runs 4 (0o6110 ∷ 0o1000 ∷ []) ((A, 0o777777) ∷ (Cell 0o10, 2) ∷ (Central 0, 0o00010002000300040005) ∷ [])
        ((P, 0o102) ∷ (A, 1) ∷ (Q, 0) ∷ (Phase, 0) ∷ (Cell 0o1000, 0) ∷ (Cell 0o1004, 0) ∷ (Cell 0o1005, 1) ∷ (Cell 0o1006, 2) ∷
        (Cell 0o1007, 3) ∷ (Cell 0o1010, 4) ∷ (Cell 0o1011, 5) ∷ []) }
    ensures to_central { Runs 3 (0o6310 ∷ 0o200 ∷ [])
        ((A, 0o1000) ∷ (Cell 0o10, 1) ∷ (Cell 0o200, 1) ∷ (Cell 0o201, 2) ∷
        (Cell 0o202, 3) ∷ (Cell 0o203, 4) ∷ (Cell 0o204, 5) ∷ [])
        ((P, 0o102) ∷ (A, 0o1001) ∷ (Q, 0) ∷ (Phase, 0) ∷ (Central 0o1000, 0o00010002000300040005) ∷ []) }
{}

/// 71 and 73 move as many words as A says. On an inactive channel 71 ends: it writes a cell of 0000, and its count
/// stays. On an empty channel it waits.
pub fn channel_blocks()
    ensures input { Runs 3 (0o7105 ∷ 0o300 ∷ []) ((A, 1) ∷ (State 5, 2) ∷ (Register 5, 0o1234) ∷ [])
        ((P, 0o102) ∷ (A, 0) ∷ (Phase, 0) ∷ (Cell 0o300, 0o1234) ∷ (State 5, 1) ∷ []) }
    ensures input_of_none { Runs 2 (0o7105 ∷ 0o300 ∷ []) ((State 5, 2) ∷ (Register 5, 0o1234) ∷ [])
        ((P, 0o102) ∷ (A, 0) ∷ (Phase, 0) ∷ (Cell 0o300, 0) ∷ (State 5, 2) ∷ (Register 5, 0o1234) ∷ []) }
    ensures input_waits { Runs 4 (0o7105 ∷ 0o300 ∷ []) ((A, 1) ∷ (State 5, 1) ∷ [])
        ((P, 0o300) ∷ (A, 1) ∷ (Phase, 0o7105) ∷ (State 5, 1) ∷ []) }
    ensures input_from_inactive { Runs 2 (0o7105 ∷ 0o300 ∷ []) ((A, 5) ∷ (Cell 0o300, 0o7777) ∷ [])
        ((P, 0o102) ∷ (A, 5) ∷ (Q, 0) ∷ (Phase, 0) ∷ (Cell 0o300, 0) ∷ (State 5, 0) ∷ []) }
    ensures output { Runs 3 (0o7305 ∷ 0o300 ∷ []) ((A, 1) ∷ (Cell 0o300, 0o1234) ∷ (State 5, 1) ∷ [])
        ((P, 0o102) ∷ (A, 0) ∷ (Phase, 0) ∷ (State 5, 2) ∷ (Register 5, 0o1234) ∷ []) }
    ensures output_to_inactive { Runs 2 (0o7305 ∷ 0o300 ∷ []) ((A, 5) ∷ []) ((P, 0o102) ∷ (A, 5) ∷ (Phase, 0) ∷ (State 5, 0) ∷ []) }
{}
