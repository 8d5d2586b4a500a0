//! A source or a sink over any reader or writer.
ghost use Rattle.std.specs.Io.KnownBytes.{WriteAppends};
ghost use Rattle.std.specs.Prelude.{◌≡◌, ◌∷◌, [], false};
ghost use Rattle.pp_lines.specs.Calls.{Call};
ghost use Rattle.pp_lines.specs.Device.{AnswersWithin, Counts, Logs, TakesSome, one_more};
ghost use Rattle.pp_lines.specs.Counted.{IsCalled, calls_of, device_of, ended_by, failures_of, moved_by};

use crate::device::{Failed, Sink, Source};
use crate::log::Log;
use crate::logged::Logged;
use std::io::{Read, Write};

/// A reader or writer that counts its failed calls.
///
/// Each call of `take` or `put` is one call of the device, and fails only if that one does. Every error of the device is
/// `Failed`, also that of a call that was interrupted. A write that takes no byte of a slice that is not empty is `Failed` too.
#[derive(Drop)]
pub struct Counted<D> {
    device: Logged<D>,
    failures: u64,
}

impl<D> Counted<D> {
    /// Returns a device with no failed calls so far.
    pub fn new(device: D) -> Self
        ensures device { device_of result ≡ device }
        ensures failures { failures_of result ≡ 0 }
        ensures moved { moved_by result ≡ [] }
        ensures ended { ended_by result ≡ false }
        ensures calls { calls_of result ≡ [] }
    {
        Counted {
            device: Logged::new(device),
            failures: 0,
        }
    }

    /// Returns the reader or writer.
    pub fn device(&self) -> &D
        ensures { result.now ≡ device_of self.now }
    {
        self.device.device()
    }

    /// Counts a failed call.
    fn count_failure(&mut self) -> Failed
        ensures device { device_of self.new ≡ device_of self.old }
        ensures failures { failures_of self.new ≡ one_more (failures_of self.old) }
        ensures moved { moved_by self.new ≡ moved_by self.old }
        ensures ended { ended_by self.new ≡ ended_by self.old }
        ensures calls { calls_of self.new ≡ calls_of self.old }
    {
        self.failures = self.failures.saturating_add(1);
        Failed
    }
}

impl<D: Read> Source for Counted<D> {
    ghost rest = { λ counted. D.remaining (device_of counted) };

    ghost given = { moved_by };

    ghost ended = { ended_by };

    ghost calls = { calls_of };

    ghost failure_count = { failures_of };

    fn take(&mut self, into: &mut [u8]) -> Result<usize, Failed> {
        match self.device.read(into) {
            Ok(count) => Ok(count),
            Err(Failed) => Err(self.count_failure()),
        }
    }

    fn failures(&self) -> u64 {
        self.failures
    }

    fn log(&self) -> &Log {
        self.device.log()
    }
}

impl<D: Write> Sink for Counted<D> {
    // An opaque writer has no known contents, but the bytes that its calls took are known.
    ghost text = { λ counted. record { bytes = moved_by counted; held = D.contents (device_of counted) } };

    ghost failure_count = { failures_of };

    fn put(&mut self, from: &[u8]) -> Result<usize, Failed>
        ensures within { AnswersWithin result from.now }
        ensures some { TakesSome result from.now }
        ensures bytes { Logs (moved_by self.old) (moved_by self.new) result from.now }
        ensures held { WriteAppends (D.contents (device_of self.old)) (D.contents (device_of self.new)) result from.now }
        ensures counts { Counts (failures_of self.old) (failures_of self.new) result }
        ensures called { (call : Call) × (calls_of self.new ≡ call ∷ calls_of self.old) × IsCalled call result from.now }
    {
        match self.device.write(from) {
            Ok(count) if count > 0 || from.is_empty() => Ok(count),
            _ => Err(self.count_failure()),
        }
    }

    fn failures(&self) -> u64 {
        self.failures
    }

    fn log(&self) -> &Log {
        self.device.log()
    }
}
