//! Searches of a session: the first turn, or the last action, in which a condition comes to hold.
#![tactic(auto)]

mod condition;
mod forms;
mod judging;
mod laws;
mod plan;
mod search;
mod writes;

pub use condition::{Alternative, Condition, MOST_ALTERNATIVES, MOST_TESTS, Test};
pub use forms::{CHANGES, Form, INSIDE, OR, OUTSIDE, PERFORMS, WAITS, WRITES, condition_into};
pub use laws::searches_find_the_first;
pub use search::{back_until, until};
pub use writes::last_write;
