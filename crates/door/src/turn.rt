//! Turns, of which contracts speak.

/// One turn at a door. No value of it is made.
pub struct Turn<Q, A> {
    /// Its place in the history, counted from 0. It is the turn's ticket.
    pub place: u64,
    /// The number of the pass that made it.
    pub number: u64,
    /// What was asked.
    pub ask: Q,
    /// What was answered.
    pub answer: A,
}
