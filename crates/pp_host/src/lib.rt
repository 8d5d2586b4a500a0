//! The words, files and streams of a program, and the files that its options name.
#![tactic(auto)]

mod file_log;
mod host;
mod loading;
mod memory;
mod options;
mod system;
mod words;

pub use file_log::{FileEvent, FileLog};
pub use host::{Host, WordsFault};
pub use loading::{deck, open, panel};
pub use memory::{Memory, StoredFile};
pub use options::options_of;
pub use system::{FileSystem, System};
pub use words::{Named, words_of};
