//! Sources and sinks of bytes, which count their failed calls.
ghost use Rattle.std.specs.Prelude.{◌≡◌, ◌∷◌, ℕ, Bool, List, Option};
ghost use Rattle.std.specs.Io.KnownBytes.{ReadConsumes, WriteAppends};
ghost use Rattle.pp_lines.specs.Device.{AnswersWithin, Counts, Ends, Logs, TakesSome};
ghost use Rattle.pp_lines.specs.Calls.{Call, call_of};
ghost use Rattle.pp_lines.specs.Output.{Written};

use crate::log::Log;

/// A failed call of a device. It moved no byte, and the device counted it.
#[derive(Clone, Copy, Debug, PartialEq, Eq, Drop)]
pub struct Failed;

/// A source of bytes. It chooses how many bytes each call reads.
///
/// Each `Failed` raises the count of failures by one, up to `u64::MAX`. Nothing else changes that count.
pub trait Source {
    // The remaining bytes, if they are known. An opaque source has none.
    ghost rest: { Self → Option (List ℕ) };

    // The bytes read so far. Every source has them, an opaque one too.
    ghost given: { Self → List ℕ };

    // Whether it is at its end: the last call into a slice that is not empty returned 0.
    ghost ended: { Self → Bool };

    // What each call so far returned, the latest first: the bytes that it read, or none if it failed.
    ghost calls: { Self → List Call };

    // The number of failed calls, up to the largest `u64`.
    ghost failure_count: { Self → ℕ };

    /// Reads the next bytes into the start of the slice, by one call of the device, and returns how many. The count is at
    /// most the slice's length. It is 0 only at the end of input or if the slice is empty.
    ///
    /// # Errors
    /// `Failed` if the device fails. No byte is then read, and the call is counted.
    fn take(&mut self, into: &mut [u8]) -> Result<usize, Failed>
        ensures within { AnswersWithin result into.new }
        ensures bytes { ReadConsumes (rest self.old) (rest self.new) result into.new }
        ensures given { Logs (given self.old) (given self.new) result into.new }
        ensures ended { Ends (ended self.old) (ended self.new) result into.new }
        ensures called { calls self.new ≡ call_of result into.new ∷ calls self.old }
        ensures counts { Counts (failure_count self.old) (failure_count self.new) result };

    /// Returns the number of failed calls.
    fn failures(&self) -> u64
        ensures { result ≡ failure_count self.now };

    /// Returns the log of the bytes read so far, and of whether the source is at its end.
    fn log(&self) -> &Log
        ensures bytes { result.now.bytes ≡ given self.now }
        ensures ended { result.now.ended ≡ ended self.now };
}

/// A sink of bytes. It chooses how many bytes each call takes.
///
/// Each `Failed` raises the count of failures by one, up to `u64::MAX`. Nothing else changes that count.
pub trait Sink {
    // The bytes that its calls took so far, which every sink has, and what its device holds, if that is known.
    ghost text: { Self → Written };

    // The number of failed calls, up to the largest `u64`.
    ghost failure_count: { Self → ℕ };

    /// Writes a prefix of the slice, and returns its length. The length is at most the slice's length,
    /// and at least 1 unless the slice is empty.
    ///
    /// # Errors
    /// `Failed` if the device fails. No byte is then written, and the call is counted.
    fn put(&mut self, from: &[u8]) -> Result<usize, Failed>
        ensures within { AnswersWithin result from.now }
        ensures some { TakesSome result from.now }
        ensures bytes { Logs (text self.old).bytes (text self.new).bytes result from.now }
        ensures held { WriteAppends (text self.old).held (text self.new).held result from.now }
        ensures counts { Counts (failure_count self.old) (failure_count self.new) result };

    /// Returns the number of failed calls.
    fn failures(&self) -> u64
        ensures { result ≡ failure_count self.now };

    /// Returns the log of the bytes written so far.
    fn log(&self) -> &Log
        ensures { result.now.bytes ≡ (text self.now).bytes };
}
