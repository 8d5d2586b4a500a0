//! A source and a sink that know of each other's order.
ghost use Rattle.pp_lines.specs.Calls.{call_of};
ghost use Rattle.pp_lines.specs.Device.{AnswersWithin, Counts, Ends, Logs};
ghost use Rattle.pp_lines.specs.Terminal.{at_reads, sink_of, source_of};
ghost use Rattle.std.specs.Io.KnownBytes.{ReadConsumes};
ghost use Rattle.std.specs.Prelude.{◌≡◌, ◌∷◌, []};

use crate::device::{Failed, Sink, Source};
use crate::dialogue_log::DialogueLog;

/// A source and a sink in one. At each read the terminal logs what had been read and written before.
#[derive(Drop)]
pub struct Terminal<'r, 'w, R, W> {
    source: &'r mut R,
    /// What is written to.
    pub output: &'w mut W,
    log: DialogueLog,
}

impl<'r, 'w, R: Source, W: Sink> Terminal<'r, 'w, R, W> {
    /// Returns a terminal over a source and a sink. It has logged no read.
    pub fn new(source: &'r mut R, output: &'w mut W) -> Self
        ensures same_source { result.source.ghost_name ≡ source.entry.ghost_name }
        ensures same_output { result.output.ghost_name ≡ output.entry.ghost_name }
        ensures source { source_of result ≡ source.old }
        ensures sink { sink_of result ≡ output.old }
        ensures at_reads { at_reads result ≡ [] }
    {
        Terminal {
            source,
            output,
            log: DialogueLog::new(),
        }
    }

    /// Logs what was read and written so far, and then reads the next bytes, by one `Source::take`.
    ///
    /// # Errors
    /// `Failed` if the source fails.
    pub fn take(&mut self, into: &mut [u8]) -> Result<usize, Failed>
        ensures same_source { self.new.source.ghost_name ≡ self.old.source.ghost_name }
        ensures same_output { self.new.output.ghost_name ≡ self.old.output.ghost_name }
        ensures within { AnswersWithin result into.new }
        ensures bytes { ReadConsumes (R.rest (source_of self.old)) (R.rest (source_of self.new)) result into.new }
        ensures given { Logs (R.given (source_of self.old)) (R.given (source_of self.new)) result into.new }
        ensures ended { Ends (R.ended (source_of self.old)) (R.ended (source_of self.new)) result into.new }
        ensures called { R.calls (source_of self.new) ≡ call_of result into.new ∷ R.calls (source_of self.old) }
        ensures counts { Counts (R.failure_count (source_of self.old)) (R.failure_count (source_of self.new)) result }
        ensures sink { sink_of self.new ≡ sink_of self.old }
        ensures at_reads { at_reads self.new
            ≡ record { read = R.given (source_of self.old); written = (W.text (sink_of self.old)).bytes } ∷ at_reads self.old }
    {
        let read = self.source.log();
        let written = self.output.log();
        self.log = DialogueLog::with_read(&self.log, read, written);
        self.source.take(into)
    }
}
