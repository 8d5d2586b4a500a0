//! The progress of a script.
ghost use Rattle.std.specs.Prelude.{◌≡◌, ◌<◌, ◌≤◌, ◌==◌, if◌then◌else◌, [], length};
ghost use Rattle.pp_console.specs.declared.progress.TheConstants.{LINE_LIMIT, BYTE_LIMIT};

use pp_lines::LineCutter;

/// The largest number of lines in a script.
pub const LINE_LIMIT: u32 = 1_000_000;

/// The largest number of bytes in a script.
pub const BYTE_LIMIT: u32 = 268_435_456;

/// The number of bytes of a line that are kept. They are enough to show that it is too long: 255, a
/// carriage return, and one more.
pub const KEPT: usize = 257;

/// The progress of a script: how far it was read.
#[derive(Drop)]
pub struct Progress {
    /// The line that no line feed has ended yet.
    pub line: LineCutter<KEPT>,
    /// How many bytes were read, at most `BYTE_LIMIT`.
    pub bytes: u32,
    /// The lines that have ended.
    pub summary: Summary,
    ghost bytes_within: { bytes ≤ BYTE_LIMIT },
    ghost lines_within: { summary.lines ≤ LINE_LIMIT },
    ghost line_within: { 0 < length line → summary.lines < LINE_LIMIT },
    ghost refused_within: { summary.refused ≤ summary.lines },
}

impl Progress {
    /// Returns the progress before the first byte.
    pub fn new() -> Self
        ensures line { result.line ≡ [] }
        ensures bytes { result.bytes ≡ 0 }
        ensures lines { result.summary.lines ≡ 0 }
        ensures refused { result.summary.refused ≡ 0 }
    {
        Progress {
            line: LineCutter::new(),
            bytes: 0,
            summary: Summary {
                lines: 0,
                refused: 0,
            },
        }
    }
}

/// The number of lines read, including ignored ones, and how many were rejected.
#[derive(Clone, Copy, Debug, PartialEq, Eq, Drop)]
pub struct Summary {
    pub lines: u32,
    pub refused: u32,
}

impl Summary {
    /// Returns the exit status of a run that ended without a fault: 0 if no line was rejected, otherwise
    /// 1.
    pub fn status(&self) -> u8
        ensures { result ≡ (if self.now.refused == 0 then 0 else 1) }
    {
        if self.refused == 0 { 0 } else { 1 }
    }
}
