//! The files of a system in memory, for tests. Their content is known beforehand.
ghost use Rattle.pp_host.specs.Memory.{file_named};
ghost use Rattle.pp_host.specs.Known.{Content, Missing};
ghost use Rattle.std.specs.Prelude.{◌≡◌, [], MatchOption, Some};

use crate::file_log::FileLog;
use crate::system::FileSystem;
use pp_lines::{Calls, Feed, Log, Source};
use pp_trouble::FileKind;

/// The largest number of bytes that one read of a stored file returns.
const PIECE: usize = 512;

/// A file in memory. One of its reads can be made to fail.
#[derive(Drop)]
pub struct StoredFile<'a> {
    pub path: &'a str,
    pub bytes: &'a [u8],
    /// The read that fails, counted from 1, or `None`.
    pub failing: Option<u64>,
}

/// The files of a system in memory.
#[derive(Drop)]
pub struct Memory<'a> {
    pub files: &'a [StoredFile<'a>],
    /// The number of files that were asked for.
    pub asked: u32,
    pub log: FileLog,
}

impl<'a> Memory<'a> {
    /// Returns these files, of which none was asked for yet.
    pub fn new(files: &'a [StoredFile<'a>]) -> Self
        ensures files { result.files.now ≡ files.now }
        ensures asked { result.asked ≡ 0 }
        ensures log { result.log.events ≡ [] }
    {
        Memory {
            files,
            asked: 0,
            log: FileLog::new(),
        }
    }
}

/// Returns the first file with this path.
fn stored<'a>(files: &'a [StoredFile<'a>], path: &str) -> Option<&'a StoredFile<'a>>
    ensures { MatchOption result
        (file_named files.now path.now ≡ Missing)
        (λ file. file_named files.now path.now ≡ Content file.now.bytes.now) }
{
    let (first, others) = files.split_first()?;
    if first.path == path {
        Some(first)
    } else {
        stored(others, path)
    }
}

impl<'a> FileSystem for Memory<'a> {
    type File = Feed<'a>;

    ghost known_files = { λ memory path. Some (file_named memory.files.now path) };

    ghost asked = { λ memory. memory.log.events };

    fn open(&mut self, kind: FileKind, path: &str) -> Option<Feed<'a>> {
        self.asked = self.asked.saturating_add(1);
        let file = stored(self.files, path);
        self.log = FileLog::with_file(&self.log, kind, path, file.is_some());
        let file = file?;
        Some(Feed {
            bytes: file.bytes,
            piece: PIECE,
            calls: Calls::new(file.failing),
            log: Log::new(),
        })
    }

    fn close(&mut self, file: Feed<'a>) {
        self.log = FileLog::with_end(&self.log, file.log());
    }
}
