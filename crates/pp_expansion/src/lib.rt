//! One pass over the lines of a source and those that they make: macros, repetitions, conditions, micros and common decks.
#![tactic(auto)]

mod blocks;
mod conditions;
mod macros;
mod micros;
mod pass;
mod reading;
mod remote;
mod running;

pub use pass::Pass;
pub use reading::Reading;
pub use running::Ending;
