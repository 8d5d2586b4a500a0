//! 60-bit words and their five 12-bit parts.
ghost use Rattle.std.specs.List.{All};
ghost use Rattle.std.specs.Prelude.{◌≡◌, ◌<◌, ◌≤◌, ◌^◌};
ghost use Rattle.pp_arith.specs.Words60 as spec;

/// Returns the five 12-bit parts of a 60-bit word, leftmost first. This is the order in which
/// instructions move central words to and from cells [P8]. `w` is below 2^60, and each part is 0 to
/// 0o7777.
pub fn split60(w: u64) -> [u16; 5]
    requires w_in { w < 2 ^ 60 }
    ensures value { result ≡ spec.split60 w }
    ensures in_range { All (λ part. part ≤ 0o7777) result }
    ensures joins { spec.join60 result ≡ w }
{
    [
        (w >> 48) as u16,
        (w >> 36 & 0o7777) as u16,
        (w >> 24 & 0o7777) as u16,
        (w >> 12 & 0o7777) as u16,
        (w & 0o7777) as u16,
    ]
}

/// Returns the 60-bit word with these five 12-bit parts, leftmost first. It is the inverse of `split60`.
/// Each part is 0 to 0o7777, and the word is below 2^60.
pub fn join60(parts: &[u16; 5]) -> u64
    requires parts_in { All (λ part. part ≤ 0o7777) parts.now }
    ensures value { result ≡ spec.join60 parts.now }
    ensures fits { result < 2 ^ 60 }
    ensures splits { spec.split60 result ≡ parts.now }
{
    (u64::from(parts[0]) << 48)
        + (u64::from(parts[1]) << 36)
        + (u64::from(parts[2]) << 24)
        + (u64::from(parts[3]) << 12)
        + u64::from(parts[4])
}
