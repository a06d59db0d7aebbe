//! The slice of a thread of a process, and what an answer does to the process.
#![tactic(auto)]

ghost use Rattle.process.specs.Laws.{SlicesEndOnce};

/// A slice of a thread ends in one way.
pub fn slices_end_once()
    ensures { SlicesEndOnce }
{}
