//! Runs processes, and keeps the history of the calls that end their slices.
#![tactic(auto)]

pub mod journal;
pub mod one;
