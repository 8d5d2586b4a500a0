//! What ends the program early.
ghost use Rattle.pp_trouble.specs.Trouble.{of_arguments, of_load, of_serving, of_setup, status_of};
ghost use Rattle.std.specs.Prelude.{◌≡◌, ◌≢◌};

use pp_actions::SetupFault;
use pp_arguments::ArgFault;
use pp_files::LoadFault;
use pp_lines::IoFault;
use thiserror::Error;

/// A file that the program opens.
#[derive(Clone, Copy, Debug, PartialEq, Eq, Drop, Error)]
pub enum FileKind {
    /// The cards of the reader.
    #[error("DECK")]
    Deck,
    /// The words of the dead start panel.
    #[error("PANEL")]
    Panel,
    /// The lines of the console.
    #[error("SCRIPT")]
    Script,
}

/// What ends the program early. Its text is the line that the program prints, without the line feed.
#[derive(Clone, Copy, Debug, PartialEq, Eq, Drop, Error)]
pub enum Trouble {
    /// The words of the command line ask for help.
    #[error("usage: pp6600 [--history N] [--central K] [--deck F] [--reader C] [--printer C] [--panel F] [SCRIPT]")]
    Help,
    /// The words are not those of this command line, or one of its numbers is out of range.
    #[error("pp6600: BAD ARGUMENTS")]
    BadArguments,
    /// A device's channel is not octal, or is above 13 octal.
    #[error("pp6600: BAD CHANNEL")]
    BadChannel,
    /// Reader and printer are on the same channel.
    #[error("pp6600: SAME CHANNEL")]
    SameChannel,
    /// The deck has more than 2000 (decimal) cards.
    #[error("pp6600: DECK TOO LONG")]
    DeckTooLong,
    /// Memory ran out.
    #[error("pp6600: NO MEMORY")]
    NoMemory,
    /// The file can't be opened.
    #[error("pp6600: CANNOT OPEN {0}")]
    CannotOpen(FileKind),
    /// The file is not a deck or a panel.
    #[error("pp6600: {0} {1}")]
    Load(FileKind, LoadFault),
    /// A file or standard input can't be read.
    #[error("pp6600: READ FAILED")]
    ReadFailed,
    /// Standard output can't be written.
    #[error("pp6600: WRITE FAILED")]
    WriteFailed,
    /// The script has more lines or bytes than the console accepts.
    #[error("pp6600: LINE LIMIT")]
    LineLimit,
}

// The three conversions look alike, but each names the variants of its own fault, and the gate rejects impls that a
// macro of the repository writes.
impl From<ArgFault> for Trouble {
    ghost from_gives = { λ fault trouble. trouble ≡ of_arguments fault };

    fn from(fault: ArgFault) -> Trouble {
        match fault {
            ArgFault::NoMemory => Trouble::NoMemory,
            ArgFault::Help => Trouble::Help,
            ArgFault::BadArguments => Trouble::BadArguments,
            ArgFault::BadChannel => Trouble::BadChannel,
        }
    }
}

impl From<SetupFault> for Trouble {
    ghost from_gives = { λ fault trouble. trouble ≡ of_setup fault };

    fn from(fault: SetupFault) -> Trouble {
        match fault {
            SetupFault::NoMemory => Trouble::NoMemory,
            SetupFault::SameChannel => Trouble::SameChannel,
            SetupFault::DeckTooLong => Trouble::DeckTooLong,
        }
    }
}

impl From<IoFault> for Trouble {
    ghost from_gives = { λ fault trouble. trouble ≡ of_serving fault };

    fn from(fault: IoFault) -> Trouble {
        match fault {
            IoFault::ReadFailed => Trouble::ReadFailed,
            IoFault::WriteFailed => Trouble::WriteFailed,
            IoFault::LineLimit => Trouble::LineLimit,
        }
    }
}

impl Trouble {
    /// Returns the trouble of a deck or a panel that can't be loaded.
    pub fn load(file: FileKind, fault: LoadFault) -> Trouble
        requires { file ≢ FileKind.Script }
        ensures { result ≡ of_load file fault }
    {
        match fault {
            LoadFault::NoMemory => Trouble::NoMemory,
            LoadFault::ReadFailed => Trouble::ReadFailed,
            _ => Trouble::Load(file, fault),
        }
    }

    /// Returns the exit status of the program: 0 for help, 3 if input or output failed or the script has too
    /// many lines or bytes, otherwise 2.
    pub fn status(&self) -> u8
        ensures { result ≡ status_of self.now }
    {
        match self {
            Trouble::Help => 0,
            Trouble::ReadFailed | Trouble::WriteFailed | Trouble::LineLimit => 3,
            _ => 2,
        }
    }
}
