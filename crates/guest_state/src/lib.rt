//! A guest thread as data (WebAssembly Core 1.0, 4.2.12): frames, labels, operands, globals.
#![tactic(auto)]

mod entries;
mod functions;
mod stack;
mod thread;

pub use entries::{OpenFrame, OpenLabel};
pub use thread::{MOST_LABELS, MOST_VALUES, Thread};
