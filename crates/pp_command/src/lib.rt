//! The console's command language: parses the bytes of a line into a command, or returns the reason
//! why it is not one. The language is this project's own.
#![tactic(auto)]

mod command;
mod command_line;
mod dumps;
mod fault;
mod numbers;
mod places;
mod ranges;
mod request;
mod settings;
mod words;

pub use command::Command;
pub use command_line::parse;
pub use fault::LineFault;
pub use ranges::ranges_agree;
pub use request::Request;
