//! What a seat at a door's table knows. No value of these types is made.
use crate::turn::Turn;
use std::collections::LinkedList;

/// What a seat is doing.
pub enum Stage<O, Q, A> {
    /// Nothing.
    Idle,
    /// It holds a ticket.
    Waits,
    /// It has the turn, and the object is at home.
    Called,
    /// It has the turn, and took this object.
    Out(O),
    /// It has the turn, and put this object back, which served this ask and answered this.
    Back(O, Q, A),
    /// It takes over the numbers and turns of another seat.
    Joins(LinkedList<u64>, LinkedList<Turn<Q, A>>),
}

pub struct View<O, Q, A> {
    /// The object that the door opened with. A seat that was joined to another has none.
    pub opening: Option<O>,
    /// The numbers of the passes that it stands for, its own first. A pass that has no number yet has none.
    pub numbers: LinkedList<u64>,
    /// The turns of these passes, and those with which they began.
    pub turns: LinkedList<Turn<Q, A>>,
    pub ticket: u64,
    pub stage: Stage<O, Q, A>,
}
