//! The progress of a file.
ghost use Rattle.std.specs.Prelude.{◌≤◌};
ghost use Rattle.pp_files.specs.declared.progress.TheConstants.{FILE_LIMIT};

use pp_lines::LineCutter;

/// The largest number of bytes in a file.
pub const FILE_LIMIT: u32 = 1_048_576;

/// The largest number of bytes in a line, not counting one carriage return at its end.
pub const LONGEST: usize = 1023;

/// The number of bytes of a line that are kept. They are enough to show that it is too long: the
/// largest number, a carriage return, and one more.
pub const KEPT: usize = 1025;

/// The progress of a file: how far it was read.
#[derive(Drop)]
pub struct Progress {
    pub cutter: LineCutter<KEPT>,
    /// The bytes that were read.
    pub bytes: u32,
    /// The lines that a line feed ended.
    pub lines: u32,
    ghost bytes_within: { bytes ≤ FILE_LIMIT },
    ghost lines_within: { lines ≤ bytes },
}
