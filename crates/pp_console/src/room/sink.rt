//! The room as a sink.
ghost use Rattle.pp_console.specs.AnswerRoom.{written_in};
ghost use Rattle.std.specs.Prelude.{◌≡◌, ◌+◌, ◌≤◌, ◌++◌, length, take};

use super::Room;
use pp_lines::{Failed, Log, Sink};

/// Writes bytes into a slice, behind the first `at` that are there.
fn write_at(bytes: &mut [u8], at: usize, from: &[u8])
    requires { at + length from.now ≤ length bytes.old }
    ensures { take (at + length from.now) bytes.new ≡ take at bytes.old ++ from.now }
{
    for k in 0..from.len() {
        bytes[at + k] = from[k];
    }
}

impl Sink for Room<'_> {
    ghost text = { written_in };

    ghost failure_count = { λ room. room.failures };

    fn put(&mut self, from: &[u8]) -> Result<usize, Failed> {
        let count = from.len().min(self.bytes.len() - self.count);
        if count == 0 && !from.is_empty() {
            self.failures = self.failures.saturating_add(1);
            return Err(Failed);
        }
        let at = self.count;
        let mut log = self.log_of(at);
        log.note(from, count);
        write_at(self.bytes, at, &from[..count]);
        self.count += count;
        self.log = log;
        Ok(count)
    }

    fn failures(&self) -> u64 {
        self.failures
    }

    fn log(&self) -> &Log {
        &self.log
    }
}
