//! The console: performs commands and whole scripts in a session, and writes their answers.
#![tactic(auto)]

mod answering;
mod commands;
mod dumps;
mod gathering;
mod paper;
mod progress;
mod refusals;
mod room;
mod serving;
mod text;
mod watches;

pub use answering::{Answered, End, answer_into};
pub use commands::perform;
pub use pp_arguments::{ArgFault, Options, read_arguments};
pub use pp_command::{Command, LineFault, parse};
pub use pp_files::{LoadFault, load_deck, load_panel};
pub use pp_lines::{Counted, Failed, IoFault, Sink, Source, Terminal};
pub use pp_trouble::{FileKind, Trouble};
pub use progress::Summary;
pub use serving::{PIECE, serve, serve_terminal};
