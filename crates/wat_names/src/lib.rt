//! The names of instructions in the text format, each on one row with its opcode.
#![tactic(auto)]

mod accesses;
mod named;
mod numeric;
mod words;

pub use named::{Named, instruction_named, names_stand_beside_opcodes};
