//! Bytes, lines, words and rows of text, shared by the console and the file loaders.
#![tactic(auto)]

mod counted;
mod device;
mod dialogue_log;
mod fault;
mod lines;
mod log;
mod logged;
mod output;
mod terminal;
mod testing;
mod text;
mod words;

pub use counted::Counted;
pub use device::{Failed, Sink, Source};
pub use dialogue_log::DialogueLog;
pub use fault::IoFault;
pub use lines::{LINE_FEED, LineCutter, next_line, without_return};
pub use log::Log;
pub use logged::Logged;
pub use output::put_all;
pub use terminal::Terminal;
pub use text::push_text;
pub use words::{are_octal, is_ignored, next_word};

// For tests, but in no test module: the tests of the crates above use them, and no crate can use the test code of
// another.
pub use testing::{Calls, Endless, Feed, Tray};
