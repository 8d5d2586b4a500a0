//! The words of the programs of a source, by the definition of `pp_meaning`.
#![tactic(auto)]

mod assembled;
mod encoder;
mod names;
mod program;
mod written;

pub use encoder::encode;
pub use program::program_of;
