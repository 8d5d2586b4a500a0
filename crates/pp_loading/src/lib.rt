//! The lines of the console that load an assembled program.
#![tactic(auto)]

mod lines;

pub use lines::load_lines;
