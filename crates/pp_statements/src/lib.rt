//! The statements of a source, each for itself: its words, the names that it defines, and the counters.
#![tactic(auto)]

mod directives;
mod encoding;
mod forms;
mod makers;
mod performing;
mod scope;
mod units;
mod values;

pub use directives::{base_of, the_only, wants_operand};
pub use makers::end_of_size;
pub use performing::is_known;
pub use scope::{
    CELLS, Counters, Cut, MOST_STATEMENTS, Named, Output, Programs, Row, Scope, SystemRows,
    count_one, too_many_statements,
};
pub use units::{Blocks, Layout, Unit};
pub use values::{Base, size_of_name};
