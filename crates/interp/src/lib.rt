//! The interpreter of guest code: one loop, no recursion, and no allocation a step (WebAssembly Core 1.0, chapter 4,
//! and the threads proposal). Each instruction equals its row of the definition of a step.
#![tactic(auto)]

mod atomic;
mod call;
mod control;
mod memory;
mod numeric;
mod plain;
mod run;
mod step;
mod stop;
mod stop_at;
mod thread;
mod variable;

pub use run::advance;
pub use stop::{Stop, Stopped};
