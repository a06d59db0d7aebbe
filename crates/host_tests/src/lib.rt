//! Tests of the crates below the runner, of what none of their clauses says: that each call answers where there is memory, that
//! a trait's clauses serve a caller that is generic over it, and what a failing call in mid-stream leaves. They stand here
//! and not in those crates, since a crate with tests is proved twice.
#![tactic(auto)]

#[cfg(test)]
mod objects;
