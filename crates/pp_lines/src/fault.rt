//! What ends a run of the console early.
use thiserror::Error;

/// What ends a run of the console early.
#[derive(Clone, Copy, Debug, PartialEq, Eq, Drop, Error)]
pub enum IoFault {
    /// A call of the source failed.
    #[error("READ FAILED")]
    ReadFailed,
    /// A call of the sink failed.
    #[error("WRITE FAILED")]
    WriteFailed,
    /// The input has more lines or bytes than the console accepts.
    #[error("LINE LIMIT")]
    LineLimit,
}
