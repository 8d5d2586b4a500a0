//! Why a line is not a command.

/// Why a line is not a command: the first cause that applies. `TooLong` and `NotAscii` are checked
/// first, and then the others in the order given here.
#[derive(Clone, Copy, Debug, PartialEq, Eq, Drop)]
pub enum LineFault {
    /// 01: the first word is not a command, or a kind or state letter is not one of those allowed.
    NotACommand,
    /// 02: there are too few or too many words.
    WordCount,
    /// 03: a word that must be a number is not octal.
    NotANumber,
    /// 04: a number is out of range, or the first address is above the last.
    OutOfRange,
    /// 05: the line has more than 255 bytes.
    TooLong,
    /// 06: a byte is not a tab or a printable ASCII character.
    NotAscii,
}
