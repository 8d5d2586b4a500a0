//! Single instructions: numbers in A, stores and jumps.
#![tactic(auto, unfolding(pp_step::specs::Step::pp_writes, pp_arith::specs::Arith::rotate_left18))]

ghost use Rattle.std.specs.Prelude.{[], ◌∷◌};
ghost use Rattle.pp_step.specs.View.{A, Cell, P};
ghost use Rattle.pp_worked.specs.Processors.{Leads, Performs, Runs};

/// A gets d, its complement, or the 18-bit number of d and `m`. 12 and 13 keep and clear the bits of d.
pub fn constants()
    ensures ldn { Performs 0o1405 [] ((P, 0o101) ∷ (A, 5) ∷ []) }
    ensures lcn { Performs 0o1505 [] ((P, 0o101) ∷ (A, 0o777772) ∷ []) }
    ensures ldc { Performs 0o2012 ((Cell 0o101, 0o3456) ∷ []) ((P, 0o102) ∷ (A, 0o123456) ∷ []) }
    ensures lpn { Performs 0o1277 ((A, 0o777777) ∷ []) ((P, 0o101) ∷ (A, 0o77) ∷ []) }
    ensures scn { Performs 0o1307 ((A, 0o17) ∷ []) ((P, 0o101) ∷ (A, 0o10) ∷ []) }
    ensures shn_left { Performs 0o1006 ((A, 0o123456) ∷ []) ((P, 0o101) ∷ (A, 0o345612) ∷ []) }
    ensures shn_right { Performs 0o1076 ((A, 0o777777) ∷ []) ((P, 0o101) ∷ (A, 0o377777) ∷ []) }
{}

/// Sums in A have an end-around carry, and a result of zero is plus zero. Minus zero less plus zero is minus zero.
pub fn sums_in_a()
    ensures adn_to_zero { Performs 0o1601 ((A, 0o777776) ∷ []) ((P, 0o101) ∷ (A, 0) ∷ []) }
    ensures adn_from_minus_zero { Performs 0o1600 ((A, 0o777777) ∷ []) ((P, 0o101) ∷ (A, 0) ∷ []) }
    ensures sbn_below_zero { Performs 0o1701 [] ((P, 0o101) ∷ (A, 0o777776) ∷ []) }
    ensures sbn_to_zero { Performs 0o1705 ((A, 5) ∷ []) ((P, 0o101) ∷ (A, 0) ∷ []) }
    ensures sbn_from_minus_zero { Performs 0o1700 ((A, 0o777777) ∷ []) ((P, 0o101) ∷ (A, 0o777777) ∷ []) }
{}

/// A store takes the lower twelve bits of A. Replacing a cell leaves the 18-bit result in A.
pub fn stores()
    ensures load_and_store { Runs 2 (0o1405 ∷ 0o3420 ∷ []) [] ((P, 0o102) ∷ (A, 5) ∷ (Cell 0o20, 5) ∷ []) }
    ensures lower_twelve_bits { Performs 0o3420 ((A, 0o654321) ∷ []) ((P, 0o101) ∷ (A, 0o654321) ∷ (Cell 0o20, 0o4321) ∷ []) }
    ensures over_itself { Leads ((A, 0o1405) ∷ (Cell 0, 0o3400) ∷ []) 1 ((P, 1) ∷ (Cell 0, 0o1405) ∷ []) }
    ensures rad { Performs 0o3520 ((A, 0o777777) ∷ []) ((P, 0o101) ∷ (A, 0) ∷ (Cell 0o20, 0) ∷ []) }
    ensures aod { Performs 0o3620 ((Cell 0o20, 0o7777) ∷ []) ((P, 0o101) ∷ (A, 0o10000) ∷ (Cell 0o20, 0) ∷ []) }
    ensures sod { Performs 0o3720 [] ((P, 0o101) ∷ (A, 0o777776) ∷ (Cell 0o20, 0o7776) ∷ []) }
{}

/// An operand is cell d, the cell that cell d names, or the cell at `m`, indexed by cell d if d is not 00. An index of
/// 7777 is minus zero.
pub fn operands()
    ensures direct { Performs 0o3012 ((Cell 0o12, 0o300) ∷ []) ((P, 0o101) ∷ (A, 0o300) ∷ []) }
    ensures indirect { Performs 0o4012 ((Cell 0o12, 0o300) ∷ (Cell 0o300, 0o1234) ∷ []) ((P, 0o101) ∷ (A, 0o1234) ∷ []) }
    ensures indexed { Performs 0o5012 ((Cell 0o101, 0o300) ∷ (Cell 0o12, 5) ∷ (Cell 0o305, 0o1234) ∷ [])
        ((P, 0o102) ∷ (A, 0o1234) ∷ []) }
    ensures not_indexed { Performs 0o5000
        ((Cell 0o101, 0o300) ∷ (Cell 0, 5) ∷ (Cell 0o300, 0o1234) ∷ []) ((P, 0o102) ∷ (A, 0o1234) ∷ []) }
    ensures indexed_by_minus_zero { Performs 0o5001 ((Cell 0o101, 0o20) ∷ (Cell 1, 0o7777) ∷ (Cell 0o20, 0o1234) ∷ [])
        ((P, 0o102) ∷ (A, 0o1234) ∷ []) }
{}

/// Jumps count from their own address. A zero jump does not take 777777 in A as zero, and 777777 is negative.
pub fn jumps()
    ensures ujn { Performs 0o305 [] ((P, 0o105) ∷ []) }
    ensures ujn_back { Performs 0o372 [] ((P, 0o73) ∷ []) }
    ensures zjn { Performs 0o405 [] ((P, 0o105) ∷ []) }
    ensures zjn_at_minus_zero { Performs 0o405 ((A, 0o777777) ∷ []) ((P, 0o101) ∷ []) }
    ensures njn_at_minus_zero { Performs 0o505 ((A, 0o777777) ∷ []) ((P, 0o105) ∷ []) }
    ensures pjn { Performs 0o605 ((A, 0o377777) ∷ []) ((P, 0o105) ∷ []) }
    ensures mjn { Performs 0o705 ((A, 0o400000) ∷ []) ((P, 0o105) ∷ []) }
    ensures ljm { Performs 0o112 ((Cell 0o101, 0o300) ∷ (Cell 0o12, 5) ∷ []) ((P, 0o305) ∷ []) }
{}

/// A return jump writes the address of the next instruction to its target, and continues after the target. It reads
/// `m` before it overwrites it.
pub fn return_jumps()
    ensures to_last_cell { Performs 0o200 ((Cell 0o101, 0o7777) ∷ []) ((P, 0) ∷ (Cell 0o7777, 0o102) ∷ []) }
    ensures over_its_second_word { Performs 0o200 ((Cell 0o101, 0o101) ∷ []) ((P, 0o102) ∷ (Cell 0o101, 0o102) ∷ []) }
{}
