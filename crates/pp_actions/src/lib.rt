//! The actions of the machine: what each is, what it sets, and which the machine admits.
#![tactic(auto)]

mod action;
mod deadstart;
mod lists;
mod settings;
mod setup;
mod values;
mod watched;

pub use action::{Action, ActionFault};
pub use deadstart::{deadstart_settings, numbers_of, renumbered};
pub use lists::list_of;
pub use settings::settings_of;
pub use setup::{Setup, SetupFault};
pub use values::Values;
pub use watched::{WatchList, Watched};
