//! Cells as a source, and the lines that load them. They are in a crate of their own, because a crate with tests is proved twice.
#![tactic(auto)]

#[cfg(test)]
mod disassembled;
#[cfg(test)]
mod loaded;
