//! The console's input. What is written to the console isn't kept here: the history has it.
#![tactic(auto)]

mod input;

pub use input::Console;
