//! Devices for tests: sources and sinks in memory. One call of each can be made to fail.
ghost use Rattle.std.specs.Io.KnownBytes.{ReadConsumes, WriteAppends};
ghost use Rattle.std.specs.Prelude.{◌≡◌, ◌<◌, ◌∷◌, ◌↔◌, ◌⊎◌, [], IsErr, Some, None};
ghost use Rattle.pp_lines.specs.Device.{AnswersWithin, Counts, Ends, Logs, TakesSome, one_more};
ghost use Rattle.pp_lines.specs.Calls.{call_of};
ghost use Rattle.pp_lines.specs.Testing.{IsFull};

use crate::device::{Failed, Sink, Source};
use crate::log::Log;
use crate::text::push_text;
use arrayvec::ArrayVec;

/// The number of bytes that a tray holds.
pub const ROOM: usize = 4096;

/// Counts the calls of a device. One call may fail.
#[derive(Drop)]
pub struct Calls {
    /// The number of calls so far.
    pub made: u64,
    /// The call that fails, counted from 1, or `None`.
    pub failing: Option<u64>,
    /// The number of failed calls so far.
    pub failures: u64,
}

impl Calls {
    /// Returns a count of no calls. The call `failing`, counted from 1, will fail, if there is one.
    pub fn new(failing: Option<u64>) -> Self
        ensures failures { result.failures ≡ 0 }
        ensures failing { result.failing ≡ failing }
        ensures made { result.made ≡ 0 }
    {
        Calls {
            made: 0,
            failing,
            failures: 0,
        }
    }

    /// Counts a failure.
    fn fail(&mut self) -> Failed
        ensures failures { self.new.failures ≡ one_more self.old.failures }
        ensures made { self.new.made ≡ self.old.made }
        ensures failing { self.new.failing ≡ self.old.failing }
    {
        self.failures = self.failures.saturating_add(1);
        Failed
    }

    /// Counts a call, and fails if it is the failing one.
    fn begin(&mut self) -> Result<(), Failed>
        ensures counts { Counts self.old.failures self.new.failures result }
        ensures made { self.new.made ≡ one_more self.old.made }
        ensures failing { self.new.failing ≡ self.old.failing }
        ensures fails { IsErr result ↔ (self.old.failing ≡ Some (one_more self.old.made)) }
    {
        self.made = self.made.saturating_add(1);
        if self.failing == Some(self.made) {
            return Err(self.fail());
        }
        Ok(())
    }
}

/// A source that reads the bytes of a slice in pieces. After a failed call the next one reads the
/// bytes that the failed call would have read.
#[derive(Drop)]
pub struct Feed<'a> {
    /// The remaining bytes.
    pub bytes: &'a [u8],
    /// The largest number of bytes that a call reads.
    pub piece: usize,
    pub calls: Calls,
    /// The bytes read so far.
    pub log: Log,
    ghost some_piece: { 0 < piece },
}

impl<'a> Feed<'a> {
    /// Returns a source that reads at most `piece` bytes a call and never fails.
    pub fn new(bytes: &'a [u8], piece: usize) -> Self
        requires { 0 < piece }
        ensures bytes { result.bytes.now ≡ bytes.now }
        ensures failures { result.calls.failures ≡ 0 }
        ensures failing { result.calls.failing ≡ None }
        ensures piece { result.piece ≡ piece }
    {
        Feed {
            bytes,
            piece,
            calls: Calls::new(None),
            log: Log::new(),
        }
    }

    /// Returns a source that reads at most `piece` bytes a call and fails at one call, counted from 1.
    pub fn failing(bytes: &'a [u8], piece: usize, call: u64) -> Self
        requires { 0 < piece }
        ensures bytes { result.bytes.now ≡ bytes.now }
        ensures failures { result.calls.failures ≡ 0 }
        ensures failing { result.calls.failing ≡ Some call }
        ensures piece { result.piece ≡ piece }
    {
        let calls = Calls::new(Some(call));
        Feed {
            bytes,
            piece,
            calls,
            log: Log::new(),
        }
    }
}

impl Source for Feed<'_> {
    ghost rest = { λ feed. Some feed.bytes.now };

    ghost given = { λ feed. feed.log.bytes };

    ghost ended = { λ feed. feed.log.ended };

    ghost calls = { λ feed. feed.log.calls };

    ghost failure_count = { λ feed. feed.calls.failures };

    fn take(&mut self, into: &mut [u8]) -> Result<usize, Failed>
        ensures within { AnswersWithin result into.new }
        ensures bytes { ReadConsumes (Some self.old.bytes.now) (Some self.new.bytes.now) result into.new }
        ensures given { Logs self.old.log.bytes self.new.log.bytes result into.new }
        ensures ended { Ends self.old.log.ended self.new.log.ended result into.new }
        ensures called { self.new.log.calls ≡ call_of result into.new ∷ self.old.log.calls }
        ensures counts { Counts self.old.calls.failures self.new.calls.failures result }
        ensures made { self.new.calls.made ≡ one_more self.old.calls.made }
        ensures failing { self.new.calls.failing ≡ self.old.calls.failing }
        ensures fails { IsErr result ↔ (self.old.calls.failing ≡ Some (one_more self.old.calls.made)) }
    {
        if self.calls.begin().is_err() {
            self.log.note_failure();
            return Err(Failed);
        }
        let bytes = self.bytes;
        let count = bytes.len().min(self.piece).min(into.len());
        into[..count].copy_from_slice(&bytes[..count]);
        self.log.note(into, count);
        self.bytes = &bytes[count..];
        Ok(count)
    }

    fn failures(&self) -> u64 {
        self.calls.failures
    }

    fn log(&self) -> &Log {
        &self.log
    }
}

/// A source that repeats one byte forever and never fails.
#[derive(Drop)]
pub struct Endless {
    pub byte: u8,
    /// The bytes read so far.
    pub log: Log,
}

impl Source for Endless {
    ghost rest = { λ _. None };

    ghost given = { λ endless. endless.log.bytes };

    ghost ended = { λ endless. endless.log.ended };

    ghost calls = { λ endless. endless.log.calls };

    ghost failure_count = { λ _. 0 };

    fn take(&mut self, into: &mut [u8]) -> Result<usize, Failed> {
        into.fill(self.byte);
        self.log.note(into, into.len());
        Ok(into.len())
    }

    fn failures(&self) -> u64 {
        0
    }

    fn log(&self) -> &Log {
        &self.log
    }
}

/// A sink that holds 4096 bytes. Once it is full, every call with a byte to write fails.
#[derive(Drop)]
pub struct Tray {
    /// The bytes written so far.
    pub text: ArrayVec<u8, ROOM>,
    /// The largest number of bytes that a call writes.
    pub piece: usize,
    pub calls: Calls,
    /// The bytes written so far, as contracts see them.
    pub log: Log,
    ghost some_piece: { 0 < piece },
}

impl Tray {
    /// Returns a sink that takes at most `piece` bytes a call and fails only when it is full.
    pub fn new(piece: usize) -> Self
        requires { 0 < piece }
        ensures text { result.text.items ≡ [] }
        ensures failures { result.calls.failures ≡ 0 }
        ensures failing { result.calls.failing ≡ None }
        ensures piece { result.piece ≡ piece }
    {
        Tray {
            text: ArrayVec::new(),
            piece,
            calls: Calls::new(None),
            log: Log::new(),
        }
    }

    /// Returns a sink that takes at most `piece` bytes a call, and fails at one call, counted from 1, and
    /// when it is full.
    pub fn failing(piece: usize, call: u64) -> Self
        requires { 0 < piece }
        ensures text { result.text.items ≡ [] }
        ensures failures { result.calls.failures ≡ 0 }
        ensures failing { result.calls.failing ≡ Some call }
        ensures piece { result.piece ≡ piece }
    {
        Tray {
            text: ArrayVec::new(),
            piece,
            calls: Calls::new(Some(call)),
            log: Log::new(),
        }
    }

    /// Returns the bytes written so far.
    pub fn text(&self) -> &[u8]
        ensures { result.now ≡ self.now.text.items }
    {
        self.text.as_slice()
    }
}

impl Sink for Tray {
    ghost text = { λ tray. record { bytes = tray.log.bytes; held = Some tray.text.items } };

    ghost failure_count = { λ tray. tray.calls.failures };

    fn put(&mut self, from: &[u8]) -> Result<usize, Failed>
        ensures within { AnswersWithin result from.now }
        ensures some { TakesSome result from.now }
        ensures bytes { Logs self.old.log.bytes self.new.log.bytes result from.now }
        ensures held { WriteAppends (Some self.old.text.items) (Some self.new.text.items) result from.now }
        ensures counts { Counts self.old.calls.failures self.new.calls.failures result }
        ensures made { self.new.calls.made ≡ one_more self.old.calls.made }
        ensures failing { self.new.calls.failing ≡ self.old.calls.failing }
        ensures fails { IsErr result
            ↔ ((self.old.calls.failing ≡ Some (one_more self.old.calls.made)) ⊎ IsFull self.old.text.items from.now) }
    {
        self.calls.begin()?;
        let count = from.len().min(self.piece).min(ROOM - self.text.len());
        if count == 0 && !from.is_empty() {
            return Err(self.calls.fail());
        }
        push_text(&mut self.text, &from[..count]);
        self.log.note(from, count);
        Ok(count)
    }

    fn failures(&self) -> u64 {
        self.calls.failures
    }

    fn log(&self) -> &Log {
        &self.log
    }
}
