//! Central words and exchanges.
#![tactic(auto, unfolding(pp_step::specs::Step::pp_writes, pp_step::specs::Exchange::loaded))]

ghost use Rattle.std.specs.Prelude.{[], ◌∷◌};
ghost use Rattle.pp_step.specs.View.{A, Cell, FrameWord, P, Central};
ghost use Rattle.pp_worked.specs.Processors.{Performs, Runs};

/// 60 and 62 move one word, leftmost twelve bits first. Past the size a word reads as zero and is not written.
pub fn central_words()
    ensures crd_over_itself { Performs 0o6076 ((A, 0o1000) ∷ (Central 0o1000, 0o01234567012345670123) ∷ [])
        ((P, 0o101) ∷ (Cell 0o76, 0o123) ∷ (Cell 0o77, 0o4567) ∷
        (Cell 0o100, 0o123) ∷ (Cell 0o101, 0o4567) ∷ (Cell 0o102, 0o123) ∷ []) }
    ensures cwd { Performs 0o6210
        ((A, 0o1000) ∷ (Cell 0o10, 1) ∷ (Cell 0o11, 2) ∷ (Cell 0o12, 3) ∷ (Cell 0o13, 4) ∷ (Cell 0o14, 5) ∷ [])
        ((P, 0o101) ∷ (Central 0o1000, 0o00010002000300040005) ∷ []) }
    ensures crd_past_size { Performs 0o6010 ((A, 0o400000) ∷ (Cell 0o10, 0o7777) ∷ (Cell 0o14, 0o7777) ∷ [])
        ((P, 0o101) ∷ (A, 0o400000) ∷ (Cell 0o10, 0) ∷ (Cell 0o14, 0) ∷ []) }
    ensures cwd_past_size { Performs 0o6210 ((A, 0o2000) ∷ (Cell 0o10, 0o7777) ∷ [])
        ((P, 0o101) ∷ (A, 0o2000) ∷ (Central 0o1777, 0) ∷ (Central 0, 0) ∷ []) }
{}

/// An exchange swaps the frame with sixteen central words. It loses the field of B0, the lower 18 (decimal) bits of
/// the first word: in the frame the field is zero, and so it is written back as zero. Words past the size read as zero
/// and are not written.
pub fn exchanges()
    ensures loads { Performs 0o2600 ((A, 0o1000) ∷ (Central 0o1000, 0o01234000005123456) ∷ (Central 0o1017, 0o76543210) ∷ [])
        ((P, 0o101) ∷ (FrameWord 0, 0o01234000005000000) ∷
        (FrameWord 0o17, 0o76543210) ∷ (Central 0o1000, 0) ∷ (Central 0o1017, 0) ∷ []) }
    ensures b0_is_lost { Runs 2 (0o2600 ∷ 0o2600 ∷ [])
        ((A, 0o1000) ∷ (Central 0o1000, 0o01234000005123456) ∷ (Central 0o1001, 0o123456) ∷ [])
        ((P, 0o102) ∷ (FrameWord 0, 0) ∷ (Central 0o1000, 0o01234000005000000) ∷ (Central 0o1001, 0o123456) ∷ []) }
    ensures at_the_end { Performs 0o2600
        ((A, 0o1775) ∷ (Central 0o1775, 0o01234000005000000) ∷ (Central 0o1776, 0o100000006000007) ∷
        (Central 0o1777, 0o200000010000011) ∷ [])
        ((P, 0o101) ∷ (FrameWord 0, 0o01234000005000000) ∷ (FrameWord 1, 0o100000006000007) ∷ (FrameWord 2, 0o200000010000011) ∷
        (FrameWord 3, 0) ∷ (Central 0o1775, 0) ∷ (Central 0o1776, 0) ∷ (Central 0o1777, 0) ∷ []) }
    ensures rpn { Performs 0o2700 ((FrameWord 0, 0o01234000005000000) ∷ []) ((P, 0o101) ∷ (A, 0o1234) ∷ []) }
{}
