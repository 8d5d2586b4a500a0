//! Parses the words of the command line into the options of the program.
#![tactic(auto)]

mod command_line;
mod decimal;
mod options;

pub use options::{ArgFault, Options, read_arguments};
