//! The words of a program to the statements of a source, and these to its lines.
#![tactic(auto)]

mod disassembly;
mod flow;
mod source_text;
mod statement;

pub use disassembly::disassemble;
pub use source_text::write_source;
pub use statement::{Kind, Name, Operand, Operation, Statement};
