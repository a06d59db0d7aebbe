//! What the instructions and the locals of a function mean once identifiers are bound (WebAssembly Core 1.0, sections 6.5 and 6.6.5).
#![tactic(auto)]

mod body_meaning;
mod function_parts;

pub use body_meaning::body_of;
pub use function_parts::{groups_of, local_names, with_distinct};
