//! Numbers in pieces, so an undo record has no gaps between its fields. A compiled program reads and writes such a number
//! as one. One generic type would be longer: its halves need a trait and an impl for each, and `Clone` and `Default` by hand.
ghost use Rattle.std.proofs.Common.{arith, ap₂};
ghost use Rattle.std.specs.Prelude.{ℕ, ◌≡◌, ◌+◌, ◌*◌, ◌/◌, ◌%◌, ◌<◌};

use std::marker::Model;

/// A number of 16 bits, with the alignment of a byte.
#[derive(Clone, Copy, PartialEq, Eq, Drop)]
pub struct Unaligned16 {
    pub(crate) low: u8,
    pub(crate) high: u8,
}

impl Model for Unaligned16 {
    ghost Value = { ℕ };

    ghost view = { λ n. n.high * 0x100 + n.low };

    ghost invariant = { λ n. n.low < 0x100 };

    ghost inverse = { λ v. record { low = v % 0x100; high = v / 0x100 } };

    ghost inverse_ok = { λ n small.
        ap₂ (λ low high. record { low = low; high = high }) (omega (arith, small)) (omega (arith, small)) };
}

impl Unaligned16 {
    /// Returns the number n in pieces.
    #[inline(always)]
    pub fn new(n: u16) -> Unaligned16
        ensures { result ≡ n }
    {
        let (low, high) = ((n & 0xff) as u8, (n >> 8) as u8);
        Unaligned16 { low, high }
    }

    /// Returns the number.
    #[inline(always)]
    pub fn get(self) -> u16
        ensures { result ≡ self }
    {
        u16::from(self.high) * 0x100 + u16::from(self.low)
    }
}

/// A number of 32 bits, with the alignment of one of 16 bits.
#[derive(Clone, Copy, Default)]
pub struct Unaligned32 {
    low: u16,
    high: u16,
}

impl Model for Unaligned32 {
    ghost Value = { ℕ };

    ghost view = { λ n. n.high * 0x10000 + n.low };

    ghost invariant = { λ n. n.low < 0x10000 };

    ghost inverse = { λ v. record { low = v % 0x10000; high = v / 0x10000 } };

    ghost inverse_ok = { λ n small.
        ap₂ (λ low high. record { low = low; high = high }) (omega (arith, small)) (omega (arith, small)) };
}

impl Unaligned32 {
    /// Returns the number n in pieces.
    #[inline(always)]
    pub fn new(n: u32) -> Unaligned32
        ensures { result ≡ n }
    {
        let (low, high) = ((n & 0xffff) as u16, (n >> 16) as u16);
        Unaligned32 { low, high }
    }

    /// Returns the number.
    #[inline(always)]
    pub fn get(self) -> u32
        ensures { result ≡ self }
    {
        u32::from(self.high) * 0x10000 + u32::from(self.low)
    }
}

/// A number of 64 bits, with the alignment of one of 16 bits.
#[derive(Clone, Copy, Default)]
pub struct Unaligned64 {
    low: Unaligned32,
    high: Unaligned32,
}

impl Model for Unaligned64 {
    ghost Value = { ℕ };

    ghost view = { λ n. n.high * 0x100000000 + n.low };

    ghost invariant = { λ n. n.low < 0x100000000 };

    ghost inverse = { λ v. record { low = v % 0x100000000; high = v / 0x100000000 } };

    ghost inverse_ok = { λ n small.
        ap₂ (λ low high. record { low = low; high = high }) (omega (arith, small)) (omega (arith, small)) };
}

impl Unaligned64 {
    /// Returns the number n in pieces.
    #[inline(always)]
    pub fn new(n: u64) -> Unaligned64
        ensures { result ≡ n }
    {
        let low = Unaligned32::new((n & 0xffff_ffff) as u32);
        let high = Unaligned32::new((n >> 32) as u32);
        Unaligned64 { low, high }
    }

    /// Returns the number.
    #[inline(always)]
    pub fn get(self) -> u64
        ensures { result ≡ self }
    {
        u64::from(self.high.get()) * 0x100000000 + u64::from(self.low.get())
    }
}
