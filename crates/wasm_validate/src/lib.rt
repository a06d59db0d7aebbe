//! Which modules are typed: WebAssembly Core 1.0, chapter 3, and the threads proposal.
#![tactic(auto)]

mod blocks;
mod body;
mod context;
mod elements;
mod imported;
mod instruction;
mod module;
mod rules;
mod valid;

pub use elements::offset_value;
pub use valid::{Valid, ValidateFault, validate};
