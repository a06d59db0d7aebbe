//! Modules from their text (WebAssembly Core 1.0, chapter 6).
#![tactic(auto)]

mod assembler;
mod fault;
mod module;
mod module_parts;
mod take;

pub use assembler::assemble;
pub use fault::{AsmFault, AsmKind};
