//! What the program needs of its host.
ghost use Rattle.pp_arguments.specs.CommandLine.{Text};
ghost use Rattle.pp_host.specs.Events.{Closed, Event, Missing, Opened};
ghost use Rattle.pp_host.specs.Host.{IsOpened, counted};
ghost use Rattle.pp_host.specs.Known.{Agrees, Found, Known, Texts, Words};
ghost use Rattle.std.specs.Prelude.{◌≡◌, ◌∷◌, ◌++◌, [], IfSome, false, List, MatchOption, None, Option, Some, MatchResult, map, ℕ};
ghost use Rattle.std.specs.String.{string_bytes};

use pp_lines::Source;
use pp_trouble::FileKind;

/// Why the words of the command line are not available.
#[derive(Clone, Copy, Debug, PartialEq, Eq, Drop)]
pub enum WordsFault {
    /// Memory ran out.
    NoMemory,
    /// A word is not text.
    NotText,
}

/// A host: the system that a program runs in, without its standard streams.
///
/// A host may know its words and its files beforehand, as one in memory does. The system does not, and its log says
/// what was read.
pub trait Host {
    /// An open file.
    type File: Source + Drop;

    // The words of the command line, if they are known.
    ghost known_words: { Self → Known Words };

    // What a path names, if that is known.
    ghost known_files: { Self → Text → Known Found };

    // What happened to the files that the program asked for so far.
    ghost log: { Self → List Event };

    // The number of files with a failed read, up to `u64::MAX`.
    ghost failure_count: { Self → ℕ };

    /// Returns the words of the command line. The first one is the program's name. A program asks for them once: they are
    /// used up then, and nothing is known of what a second call returns.
    ///
    /// # Errors
    /// `NotText` if a word is not text, and `NoMemory` if memory runs out.
    fn words(&mut self) -> Result<Vec<String>, WordsFault>
        ensures files { known_files self.new ≡ known_files self.old }
        ensures log { log self.new ≡ log self.old }
        ensures failures { failure_count self.new ≡ failure_count self.old }
        ensures words { MatchResult result
            (λ words. Agrees (known_words self.old) (Texts (map string_bytes words.items)))
            (λ fault. fault ≡ WordsFault.NotText → Agrees (known_words self.old) Words.NotText) }
        ensures used_up { known_words self.new ≡ None };

    /// Opens a file, to be read from its start, and logs that. Returns `None` if the path names no file that can be opened.
    fn open(&mut self, kind: FileKind, path: &str) -> Option<Self::File>
        ensures files { known_files self.new ≡ known_files self.old }
        ensures failures { failure_count self.new ≡ failure_count self.old }
        ensures log { MatchOption result
            (log self.new ≡ log self.old ++ Missing kind path.now ∷ [])
            (λ _. log self.new ≡ log self.old ++ Opened kind path.now ∷ []) }
        ensures content { MatchOption result
            (Agrees (known_files self.old path.now) Found.Missing)
            (λ file. IsOpened (known_files self.old path.now) (Self.File.rest file)) }
        ensures unread { IfSome result
            (λ file. (Self.File.given file ≡ []) × (Self.File.ended file ≡ false) × (Self.File.failure_count file ≡ 0)) };

    /// Closes a file, and logs the bytes that were read from it, and whether to its end.
    fn close(&mut self, file: Self::File)
        ensures files { known_files self.new ≡ known_files self.old }
        ensures log { log self.new ≡ log self.old ++ Closed (Self.File.given file) (Self.File.ended file) ∷ [] }
        ensures failures { failure_count self.new ≡ counted (failure_count self.old) (Self.File.failure_count file) };
}
