//! Worked rows of the machine: the results of its definitions on numbers that can be followed by hand.
//!
//! Each function does nothing. Its contract is a theorem that the prover computes only from the definitions of the
//! crates below, `crates/*/specs`. So a reader can compare these rows with the manual without reading code.
//! A row names numbers before and after. Each number that it does not name before is 0. Numbers are octal. Rows look
//! alike on purpose: each is a case of its own.
#![tactic(auto)]

mod blocks;
mod central;
mod channels;
mod devices;
mod instructions;
mod sessions;
mod sums;
mod turns;

pub use blocks::{central_blocks, channel_blocks, return_address_in_cell_0000};
pub use central::{central_words, exchanges};
pub use channels::{activity, clock_channel, no_channel, words_in_channels};
pub use devices::{columns, printed_words, printer_functions, reader_functions, reader_status};
pub use instructions::{constants, jumps, operands, return_jumps, stores, sums_in_a};
pub use sessions::{first_change, latest_change, taken_back};
pub use sums::{indexed_addresses, relative_addresses, shifts, sums_of_18_bits};
pub use turns::{
    card_through_a_program, clock_ticks, dead_start, line_through_a_program, turns_of_the_barrel,
};
