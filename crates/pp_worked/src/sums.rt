//! Sums, shifts and addresses.

ghost use Rattle.std.specs.Prelude.{◌≡◌};
ghost use Rattle.pp_arith.specs.Arith.{add18, index12, relative, shift18, sub18};

/// Numbers in A are one's complement, and a carry out of the leftmost bit comes in on the right. A sum is minus
/// zero, 777777, only if both terms are.
pub fn sums_of_18_bits()
    ensures minus_one_and_one { add18 0o777776 1 ≡ 0 }
    ensures minus_zero_and_plus_zero { add18 0o777777 0 ≡ 0 }
    ensures minus_zero_twice { add18 0o777777 0o777777 ≡ 0o777777 }
    ensures one_less_than_zero { sub18 0 1 ≡ 0o777776 }
    ensures minus_zero_from_plus_zero { sub18 0 0o777777 ≡ 0 }
    ensures minus_zero_from_itself { sub18 0o777777 0o777777 ≡ 0 }
    ensures plus_zero_from_minus_zero { sub18 0o777777 0 ≡ 0o777777 }
{}

/// A shift by 00 to 37 is left circular. A shift by d from 40 to 77 is right by 77 - d, end off and without sign
/// extension.
#[tactic(auto, unfolding(pp_arith::specs::Arith::rotate_left18))]
pub fn shifts()
    ensures leftmost_bit_comes_round { shift18 0o400000 0o01 ≡ 0o000001 }
    ensures two_digits_come_round { shift18 0o123456 0o06 ≡ 0o345612 }
    ensures whole_circle { shift18 0o123456 0o22 ≡ 0o123456 }
    ensures right_by_one { shift18 0o777777 0o76 ≡ 0o377777 }
    ensures right_by_none { shift18 0o123456 0o77 ≡ 0o123456 }
    ensures nothing_is_left { shift18 0o777777 0o40 ≡ 0 }
{}

/// An index of 7777, minus zero in twelve bits, does not change an address.
pub fn indexed_addresses()
    ensures of_nothing { index12 0o7777 0 ≡ 0o7777 }
    ensures carry_comes_round { index12 0o7777 1 ≡ 1 }
    ensures minus_zero { index12 0o0020 0o7777 ≡ 0o0020 }
{}

/// A relative jump goes forward by d from 01 to 37, or back by 77 - d from 40 to 76. 00 and 77 stay.
pub fn relative_addresses()
    ensures forward { relative 0o0100 0o05 ≡ 0o0105 }
    ensures back { relative 0o0100 0o72 ≡ 0o0073 }
    ensures stays { relative 0o0100 0o77 ≡ 0o0100 }
    ensures back_round_the_end { relative 0 0o76 ≡ 0o7777 }
    ensures forward_round_the_end { relative 0o7777 0o01 ≡ 0 }
{}
