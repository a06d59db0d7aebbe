//! Instructions with their immediates, from their text (WebAssembly Core 1.0, section 6.5).
#![tactic(auto)]

mod arguments;
mod immediates;
mod row_parts;

pub use immediates::is_immediate;
pub use row_parts::part_at;
