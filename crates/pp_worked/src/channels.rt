//! Channels: states 0 inactive, 1 empty, 2 full with data, 3 full with a function code.
#![tactic(auto, unfolding(pp_step::specs::Step::pp_writes))]

ghost use Rattle.std.specs.Prelude.{[], ◌∷◌};
ghost use Rattle.pp_step.specs.View.{A, Register, Cell, State, P};
ghost use Rattle.pp_worked.specs.Processors.{Performs};

/// 70 takes the data of a full channel, and 72 fills an empty one. Otherwise both wait, and nothing changes.
pub fn words_in_channels()
    ensures ian { Performs 0o7003 ((A, 0o777777) ∷ (State 3, 2) ∷ (Register 3, 0o1234) ∷ [])
        ((P, 0o101) ∷ (A, 0o1234) ∷ (State 3, 1) ∷ (Register 3, 0o1234) ∷ []) }
    ensures ian_waits_for_data { Performs 0o7003 ((A, 0o777777) ∷ (State 3, 3) ∷ (Register 3, 0o1234) ∷ [])
        ((P, 0o100) ∷ (A, 0o777777) ∷ (State 3, 3) ∷ (Register 3, 0o1234) ∷ []) }
    ensures oan { Performs 0o7203 ((A, 0o654321) ∷ (State 3, 1) ∷ [])
        ((P, 0o101) ∷ (A, 0o654321) ∷ (State 3, 2) ∷ (Register 3, 0o4321) ∷ []) }
    ensures oan_waits { Performs 0o7203 ((A, 0o654321) ∷ (State 3, 2) ∷ (Register 3, 0o1234) ∷ [])
        ((P, 0o100) ∷ (State 3, 2) ∷ (Register 3, 0o1234) ∷ []) }
{}

/// 74 activates an inactive channel and waits on an active one. 75 deactivates an active channel and waits on an
/// inactive one. Neither changes the register. 76 and 77 send a function code, from A and from `m`.
pub fn activity()
    ensures acn { Performs 0o7403 ((Register 3, 0o1234) ∷ []) ((P, 0o101) ∷ (State 3, 1) ∷ (Register 3, 0o1234) ∷ []) }
    ensures acn_waits { Performs 0o7403 ((State 3, 1) ∷ []) ((P, 0o100) ∷ (State 3, 1) ∷ []) }
    ensures dcn { Performs 0o7503 ((State 3, 2) ∷ (Register 3, 0o1234) ∷ [])
        ((P, 0o101) ∷ (State 3, 0) ∷ (Register 3, 0o1234) ∷ []) }
    ensures dcn_waits { Performs 0o7503 [] ((P, 0o100) ∷ (State 3, 0) ∷ []) }
    ensures fan { Performs 0o7603 ((A, 0o654321) ∷ []) ((P, 0o101) ∷ (State 3, 3) ∷ (Register 3, 0o4321) ∷ []) }
    ensures fnc { Performs 0o7703 ((A, 0o654321) ∷ (Cell 0o101, 1) ∷ []) ((P, 0o102) ∷ (State 3, 3) ∷ (Register 3, 1) ∷ []) }
{}

/// 15 to 77 name no channel: a test finds it inactive and not full, and every other instruction waits.
pub fn no_channel()
    ensures ajm { Performs 0o6415 ((Cell 0o101, 0o200) ∷ []) ((P, 0o102) ∷ []) }
    ensures ijm { Performs 0o6515 ((Cell 0o101, 0o200) ∷ []) ((P, 0o200) ∷ []) }
    ensures fjm { Performs 0o6615 ((Cell 0o101, 0o200) ∷ []) ((P, 0o102) ∷ []) }
    ensures ejm { Performs 0o6715 ((Cell 0o101, 0o200) ∷ []) ((P, 0o200) ∷ []) }
    ensures acn { Performs 0o7415 [] ((P, 0o100) ∷ []) }
    ensures dcn { Performs 0o7515 [] ((P, 0o100) ∷ []) }
{}

/// Channel 14, the clock, is always active and full. 75 passes and changes nothing.
pub fn clock_channel()
    ensures ajm { Performs 0o6414 ((Cell 0o101, 0o200) ∷ []) ((P, 0o200) ∷ []) }
    ensures ijm { Performs 0o6514 ((Cell 0o101, 0o200) ∷ []) ((P, 0o102) ∷ []) }
    ensures fjm { Performs 0o6614 ((Cell 0o101, 0o200) ∷ []) ((P, 0o200) ∷ []) }
    ensures ejm { Performs 0o6714 ((Cell 0o101, 0o200) ∷ []) ((P, 0o102) ∷ []) }
    ensures oan { Performs 0o7214 [] ((P, 0o100) ∷ []) }
    ensures acn { Performs 0o7414 [] ((P, 0o100) ∷ []) }
    ensures dcn { Performs 0o7514 [] ((P, 0o101) ∷ []) }
{}
