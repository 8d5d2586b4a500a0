//! What is wrong with a source: the texts of messages.
#![tactic(auto)]

mod nearest;
mod texts;
mod wording;

pub use texts::complaints;
pub use wording::Known;
