//! A host over the files of a system.
ghost use Rattle.pp_arguments.specs.CommandLine.{Text};
ghost use Rattle.pp_host.specs.Events.{Closed, Event, Opened};
ghost use Rattle.pp_host.specs.Host.{IsOpened, words_known};
ghost use Rattle.pp_host.specs.Known.{Agrees, Found, Known, Missing};
ghost use Rattle.std.specs.Prelude.{◌≡◌, ◌∷◌, ◌++◌, [], IfSome, false, MatchOption, ℕ, List};

use crate::host::{Host, WordsFault};
use pp_lines::Source;
use pp_trouble::FileKind;
use std::mem;

/// The files of a system, by their paths. It logs what happens to them.
pub trait FileSystem {
    /// An open file.
    type File: Source + Drop;

    // What a path names, if that is known.
    ghost known_files: { Self → Text → Known Found };

    // What happened to the files that were asked for so far.
    ghost asked: { Self → List Event };

    /// Opens a file, to be read from its start, and logs that. Returns `None` if the path names no file that can be opened.
    /// The kind is for the log.
    fn open(&mut self, kind: FileKind, path: &str) -> Option<Self::File>
        ensures files { known_files self.new ≡ known_files self.old }
        ensures asked { MatchOption result
            (asked self.new ≡ asked self.old ++ Event.Missing kind path.now ∷ [])
            (λ _. asked self.new ≡ asked self.old ++ Opened kind path.now ∷ []) }
        ensures content { MatchOption result
            (Agrees (known_files self.old path.now) Missing)
            (λ file. IsOpened (known_files self.old path.now) (Self.File.rest file)) }
        ensures unread { IfSome result
            (λ file. (Self.File.given file ≡ []) × (Self.File.ended file ≡ false) × (Self.File.failure_count file ≡ 0)) };

    /// Closes a file, and logs the bytes that were read from it, and whether to its end.
    fn close(&mut self, file: Self::File)
        ensures files { known_files self.new ≡ known_files self.old }
        ensures asked { asked self.new ≡ asked self.old ++ Closed (Self.File.given file) (Self.File.ended file) ∷ [] };
}

/// A host over the files of a system. Its log is theirs: it asks them for each file that the program asks for, and for no other.
/// It counts the files with a failed read.
#[derive(Drop)]
pub struct System<F> {
    /// The words of the command line, until the program asks for them.
    pub words: Result<Vec<String>, WordsFault>,
    pub files: F,
    /// The number of files with a failed read.
    pub failures: u64,
}

impl<F> System<F> {
    /// Returns a host over these files, of which no read has failed.
    pub fn new(words: Result<Vec<String>, WordsFault>, files: F) -> Self
        ensures words { result.words ≡ words }
        ensures files { result.files ≡ files }
        ensures failures { result.failures ≡ 0 }
    {
        System {
            words,
            files,
            failures: 0,
        }
    }
}

impl<F: FileSystem> Host for System<F> {
    type File = F::File;

    ghost known_words = { λ system. words_known system.words };

    ghost known_files = { λ system. F.known_files system.files };

    ghost log = { λ system. F.asked system.files };

    ghost failure_count = { λ system. system.failures };

    fn words(&mut self) -> Result<Vec<String>, WordsFault> {
        mem::replace(&mut self.words, Err(WordsFault::NoMemory))
    }

    fn open(&mut self, kind: FileKind, path: &str) -> Option<F::File> {
        self.files.open(kind, path)
    }

    fn close(&mut self, file: F::File) {
        if file.failures() != 0 {
            self.failures = self.failures.saturating_add(1);
        }
        self.files.close(file);
    }
}
