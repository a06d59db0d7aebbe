//! A pipe between processes (POSIX.1-2017, `pipe`).
#![tactic(auto)]

mod pipe;

pub use pipe::{CAPACITY, PIPE_BUF, Pipe, Pull, Push};
