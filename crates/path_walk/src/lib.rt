//! Paths, split into their components (POSIX.1-2017, 4.13).
#![tactic(auto)]

mod parts;

pub use parts::{Parts, split};
