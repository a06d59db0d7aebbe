//! Words of the WebAssembly text format: runs of identifier characters, and the numbers that they spell.
#![tactic(auto)]

mod numbers;
mod words;

pub use numbers::{digit_value, digits, i32_of, i64_of, u32_of};
pub use words::{is_identifier, is_word_byte};
