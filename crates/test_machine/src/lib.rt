//! Worked examples of the parts of a machine and of a processor's step. They stand in a crate of their own, because a crate with tests is
//! proved twice.
#![tactic(auto)]

#[cfg(test)]
mod actions;
#[cfg(test)]
mod arith;
#[cfg(test)]
mod parts;
#[cfg(test)]
mod printer;
#[cfg(test)]
mod reader;
#[cfg(test)]
mod step;
