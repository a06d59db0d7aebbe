//! Fields of the WebAssembly text format: the groups into which parentheses part tokens.
#![tactic(auto)]

mod fault;
mod field_list;
mod laws;
mod parting;

pub use fault::FieldsFault;
pub use field_list::{Fields, Item, Met, Place};
pub use laws::items_are_written_so;
