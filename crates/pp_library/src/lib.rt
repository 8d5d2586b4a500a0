//! The simulator for C: sessions behind handles.
#![tactic(auto)]

mod about;
mod assembling;
mod columns;
mod console;
mod exports;
mod handle;
mod origins;
mod raw_box;
mod searches;
mod status;
mod texts;
