//! What the assembler and the disassembler share: instructions, display code, the cells of a program, and texts in columns.
#![tactic(auto)]

mod cells;
mod columns;
mod digits;
mod display_code;
mod instructions;
mod program;
mod slots;

pub use cells::are_cells;
pub use columns::{put_field, put_line, put_number};
pub use digits::{put_decimal, put_digits, put_octal};
pub use display_code::{code_of_symbol, symbol_of};
pub use instructions::{Form, INSTRUCTIONS, code_of, form_of, name_of, size_of};
pub use program::{Cell, Program};
pub use slots::{Slot, program_of};
