//! 12-bit addresses.
ghost use Rattle.std.specs.Prelude.{◌≡◌, ◌≤◌};
ghost use Rattle.pp_arith.specs.Arith as spec;

/// Returns the address `m` indexed by `x`, the content of a cell. All three are 0 to 0o7777. A sum above
/// 0o7777 is reduced by 0o7777, so indexing by 0o7777 returns `m` unless `m` is 0 [P2].
pub fn index12(m: u16, x: u16) -> u16
    requires m_in { m ≤ 0o7777 }
    requires x_in { x ≤ 0o7777 }
    ensures value { result ≡ spec.index12 m x }
    ensures fits { result ≤ 0o7777 }
{
    let sum = m + x;
    if sum > 0o7777 { sum - 0o7777 } else { sum }
}

/// Returns the target of a relative jump with the six-bit field `d`, counted from the address `p` of the
/// instruction. Both addresses are 0 to 0o7777. The jump is forward by `d` for 0 to 0o37, and back by
/// 0o77 - `d` for 0o40 to 0o77 [M8]. Addresses wrap modulo 0o10000 [P3].
pub fn relative(p: u16, d: u8) -> u16
    requires p_in { p ≤ 0o7777 }
    requires d_in { d ≤ 0o77 }
    ensures value { result ≡ spec.relative p d }
    ensures fits { result ≤ 0o7777 }
{
    if d < 0o40 {
        (p + u16::from(d)) & 0o7777
    } else {
        (p + 0o10000 - (0o77 - u16::from(d))) & 0o7777
    }
}
