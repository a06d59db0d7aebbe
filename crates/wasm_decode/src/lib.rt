//! Modules of WebAssembly Core 1.0, read from their binary format (chapter 5 of the standard).
#![tactic(auto)]

mod bounds;
mod decoding;
mod fault;
mod floats;
mod search;

pub use decoding::decode;
pub use fault::{Bound, DecodeFault};
