//! Deck and panel files: parses the bytes of a source into cards and panel words.
#![tactic(auto)]

mod fault;
mod files;
mod loading;
mod progress;
mod rows;
mod sheet;

pub use fault::LoadFault;
pub use files::{load_deck, load_panel};
