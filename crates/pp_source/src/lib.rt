//! The statements of a source: their fields, what they name, and what may be wrong with them.
#![tactic(auto)]

mod fields;
mod here;
mod index;
mod message;
mod names;
mod numbers;
mod openings;
mod operations;
mod orders;
mod replacing;
mod scan;
mod symbols;
mod texts;
mod vocabulary;
mod wordings;

pub use fields::{FirstParts, Origin, Parts, Statement, first_parts, statement_of};
pub use here::Here;
pub use index::{Index, number_of_name};
pub use message::{Argument, Fault, Field, Message, Outcome, Stop};
pub use names::{end_of_name, name_size};
pub use numbers::{Number, counter_of, decoded, number_of, product, shifted};
pub use openings::Opening;
pub use operations::{Elsewhere, OPERATIONS, Operation, is_operation, operation_of};
pub use orders::Order;
pub use replacing::{is_enclosed, split, split_nested};
pub use scan::{
    after_blanks, cut, digits_of, end_of_word, find, is_alphanumeric, is_blank, next_where,
};
pub use symbols::{Definition, Place, Symbol, Symbols};
pub use texts::{DisplayText, are_in_code, before_mark, code_of, no_code, text_at};
pub use vocabulary::{FIRST_OF_COMMENTS, Macro, Meaning, Vocabulary};
pub use wordings::Wording;
