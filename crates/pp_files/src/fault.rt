//! Why a deck or a panel was not loaded.
use thiserror::Error;

/// Why a deck or a panel file was not loaded. A line is reported by its decimal number, counted from 1.
///
/// The first line with a fault is reported. A fault in a line that ends with a line feed within the
/// first 1,048,576 bytes comes before `FileTooLong`. A fault in a line that a line feed ended before
/// the source failed comes before `ReadFailed`. Within a line the order is `LineTooLong`, `NotOctal`,
/// `TooLarge`, `TooManyWords` or `PanelCount`, `NoMemory`.
#[derive(Clone, Copy, Debug, PartialEq, Eq, Drop, Error)]
pub enum LoadFault {
    /// Memory ran out for a card.
    #[error("NO MEMORY")]
    NoMemory,
    /// A call of the source failed.
    #[error("READ FAILED")]
    ReadFailed,
    /// The file has more than 1,048,576 bytes.
    #[error("FILE TOO LONG")]
    FileTooLong,
    /// The line has more than 1023 bytes, not counting one carriage return at its end.
    #[error("LINE {0} TOO LONG")]
    LineTooLong(u32),
    /// A word of the line has a byte that is not an octal digit.
    #[error("LINE {0} NOT OCTAL")]
    NotOctal(u32),
    /// A word of the line is above octal 7777.
    #[error("LINE {0} TOO LARGE")]
    TooLarge(u32),
    /// The card has more than 80 words.
    #[error("LINE {0} TOO MANY WORDS")]
    TooManyWords(u32),
    /// The panel does not have exactly twelve words.
    #[error("PANEL COUNT")]
    PanelCount,
}
