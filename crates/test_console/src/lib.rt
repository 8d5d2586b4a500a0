//! Worked examples of bytes, lines, files, options, troubles, sessions, hosts and the program. They are in a crate of their own,
//! because a crate with tests is proved twice.
#![tactic(auto)]

#[cfg(test)]
mod arguments;
#[cfg(test)]
mod commands;
#[cfg(test)]
mod files;
#[cfg(test)]
mod hosts;
#[cfg(test)]
mod lines;
#[cfg(test)]
mod programs;
#[cfg(test)]
mod rows;
#[cfg(test)]
mod sessions;
#[cfg(test)]
mod troubles;
#[cfg(test)]
mod words;
