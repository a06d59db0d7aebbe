//! The instructions of a function, plain and folded, from their text (WebAssembly Core 1.0, section 6.5).
#![tactic(auto)]

mod instructions;
mod nesting;

pub use instructions::body_at;
