//! A reader or a writer whose calls are logged.
ghost use Rattle.pp_lines.specs.{Calls.call_of, Device.AnswersWithin, Device.Ends, Device.Logs};
ghost use Rattle.std.specs.Io.KnownBytes.{ReadConsumes, WriteAppends};
ghost use Rattle.std.specs.Prelude.{◌≡◌, ◌∷◌, [], false};

use crate::device::Failed;
use crate::log::Log;
use std::io::{Read, Write};

/// A reader or writer that logs each of its calls. Code outside of this file can't call it without an entry in the log.
///
/// No contract of `Read` and `Write` counts calls. That `read` and `write` below call the device once is seen by reading.
#[derive(Drop)]
pub struct Logged<D> {
    device: D,
    log: Log,
}

impl<D> Logged<D> {
    /// Returns a device with no calls so far.
    pub fn new(device: D) -> Self
        ensures device { result.device ≡ device }
        ensures bytes { result.log.bytes ≡ [] }
        ensures ended { result.log.ended ≡ false }
        ensures calls { result.log.calls ≡ [] }
    {
        Logged {
            device,
            log: Log::new(),
        }
    }

    /// Returns the reader or writer.
    pub fn device(&self) -> &D
        ensures { result.now ≡ self.now.device }
    {
        &self.device
    }

    /// Returns the log.
    pub fn log(&self) -> &Log
        ensures { result.now ≡ self.now.log }
    {
        &self.log
    }
}

impl<D: Read> Logged<D> {
    /// Reads once. Returns how many bytes were read.
    ///
    /// # Errors
    /// `Failed` if the call fails, whatever its error is.
    pub fn read(&mut self, into: &mut [u8]) -> Result<usize, Failed>
        ensures within { AnswersWithin result into.new }
        ensures bytes { ReadConsumes (D.remaining self.old.device) (D.remaining self.new.device) result into.new }
        ensures given { Logs self.old.log.bytes self.new.log.bytes result into.new }
        ensures ended { Ends self.old.log.ended self.new.log.ended result into.new }
        ensures called { self.new.log.calls ≡ call_of result into.new ∷ self.old.log.calls }
    {
        match self.device.read(into) {
            Ok(count) => {
                self.log.note(into, count);
                Ok(count)
            }
            Err(_) => {
                self.log.note_failure();
                Err(Failed)
            }
        }
    }
}

impl<D: Write> Logged<D> {
    /// Writes once. Returns how many bytes were written.
    ///
    /// # Errors
    /// `Failed` if the call fails, whatever its error is.
    pub fn write(&mut self, from: &[u8]) -> Result<usize, Failed>
        ensures within { AnswersWithin result from.now }
        ensures held { WriteAppends (D.contents self.old.device) (D.contents self.new.device) result from.now }
        ensures bytes { Logs self.old.log.bytes self.new.log.bytes result from.now }
        ensures called { self.new.log.calls ≡ call_of result from.now ∷ self.old.log.calls }
    {
        match self.device.write(from) {
            Ok(count) => {
                self.log.note(from, count);
                Ok(count)
            }
            Err(_) => {
                self.log.note_failure();
                Err(Failed)
            }
        }
    }
}
