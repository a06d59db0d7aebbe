//! A ticket lock round an object, with one history of turns.
//!
//! Threads that share a `Door` each hold a `Pass`. `enter` waits for the pass's turn and has the object serve one ask.
//! The turns stand in one order, each serves the object that the turn before it left, and a pass knows which are its own.
#![tactic(auto)]

mod door;
mod kept;
mod object;
mod plays;
mod steps;
mod turn;
mod view;

pub use door::{Door, Pass};
pub use object::Object;
pub use turn::Turn;
