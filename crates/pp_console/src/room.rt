//! A sink over a slice: it fails only when the slice is full.
ghost use Rattle.std.specs.Prelude.{◌≡◌, ◌-◌, ◌<◌, ◌≤◌, length, take};

mod sink;

use pp_lines::Log;

/// A sink over a slice.
#[derive(Drop)]
pub struct Room<'a> {
    bytes: &'a mut [u8],
    /// How many bytes were written.
    count: usize,
    failures: u64,
    /// The bytes that were written.
    log: Log,
    ghost within: { count ≤ length bytes.now },
    ghost full: { 0 < failures → count ≡ length bytes.now },
    ghost logged: { log.bytes ≡ take count bytes.now },
}

impl<'a> Room<'a> {
    /// Returns a sink that has written nothing.
    pub fn new(bytes: &'a mut [u8]) -> Room<'a>
        ensures same_slice { result.bytes.ghost_name ≡ bytes.entry.ghost_name }
        ensures bytes { result.bytes.now ≡ bytes.old }
        ensures count { result.count ≡ 0 }
        ensures failures { result.failures ≡ 0 }
    {
        Room {
            bytes,
            count: 0,
            failures: 0,
            log: Log::new(),
        }
    }

    /// Returns how many bytes were written.
    pub fn count(&self) -> usize
        ensures count { result ≡ self.now.count }
        ensures within { result ≤ length self.now.bytes.now }
    {
        self.count
    }

    /// Returns how many more bytes there is room for.
    pub fn left(&self) -> usize
        ensures { result ≡ length self.now.bytes.now - self.now.count }
    {
        self.bytes.len() - self.count
    }

    /// Returns a log of the first `count` bytes of the slice.
    fn log_of(&self, count: usize) -> Log
        requires { count ≤ length self.now.bytes.now }
        ensures { result.bytes ≡ take count self.now.bytes.now }
    {
        let mut log = Log::new();
        log.note(self.bytes, count);
        log
    }

    /// Forgets all but the first `count` bytes that were written, and all failures.
    pub fn rewind(&mut self, count: usize)
        requires { count ≤ length self.old.bytes.now }
        ensures same_slice { self.new.bytes ≡ self.old.bytes }
        ensures count { self.new.count ≡ count }
        ensures failures { self.new.failures ≡ 0 }
    {
        let log = self.log_of(count);
        self.failures = 0;
        self.count = count;
        self.log = log;
    }
}
