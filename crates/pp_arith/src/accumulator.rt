//! Sums and shifts of the 18-bit A register.
ghost use Rattle.std.specs.Prelude.{◌≡◌, ◌<◌, ◌≤◌};
ghost use Rattle.pp_arith.specs.Arith as spec;

/// Returns the sum of two 18-bit one's complement numbers [M4]. Both terms and the sum are 0 to
/// 0o777777, and 0o777777 is minus zero. A sum is minus zero only if both terms are [P1].
pub fn add18(a: u32, b: u32) -> u32
    requires a_in { a ≤ 0o777777 }
    requires b_in { b ≤ 0o777777 }
    ensures value { result ≡ spec.add18 a b }
    ensures fits { result ≤ 0o777777 }
{
    let sum = a + b;
    if sum < 0o777777 { sum } else { sum - 0o777777 }
}

/// Returns the difference a - b of two 18-bit one's complement numbers [M4]. Both numbers and the
/// difference are 0 to 0o777777. Equal numbers differ by plus zero [P1].
pub fn sub18(a: u32, b: u32) -> u32
    requires a_in { a ≤ 0o777777 }
    requires b_in { b ≤ 0o777777 }
    ensures value { result ≡ spec.sub18 a b }
    ensures fits { result ≤ 0o777777 }
{
    if a < b { a + 0o777777 - b } else { a - b }
}

/// Returns `a` rotated left by `n` bits within 18 bits. `a` is 0 to 0o777777, and `n` is 0 to 17.
#[tactic(auto, using(crate::proofs::Turning::turned, crate::proofs::Turning::turned_fits))]
fn rotate_left18(a: u32, n: u8) -> u32
    requires a_in { a ≤ 0o777777 }
    requires n_in { n < 18 }
    ensures value { result ≡ spec.rotate_left18 a n }
    ensures fits { result ≤ 0o777777 }
{
    let wide = u64::from(a) << n;
    ((wide & 0o777777) | (wide >> 18)) as u32
}

/// Returns the 18-bit number `a` shifted by the six-bit field `d`. `a` and the result are 0 to
/// 0o777777. For `d` from 0 to 0o37 the shift is left by `d` bits, circular. For `d` from 0o40 to
/// 0o77 it is right by 0o77 - `d` bits, end off and without sign extension [M9].
#[tactic(auto, using(crate::proofs::Turning::turned_once))]
pub fn shift18(a: u32, d: u8) -> u32
    requires a_in { a ≤ 0o777777 }
    requires d_in { d ≤ 0o77 }
    ensures value { result ≡ spec.shift18 a d }
    ensures fits { result ≤ 0o777777 }
{
    if d < 0o40 {
        rotate_left18(a, d % 18)
    } else {
        a >> (0o77 - d)
    }
}
