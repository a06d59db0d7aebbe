//! What a call answers, as the suite prints it.

use std::fmt;
use wx_types::{Errno, Refusal};

/// What a call answers.
#[derive(Drop)]
pub enum Answer {
    /// It succeeded and tells nothing.
    Done,
    /// The number of a node, or a count.
    Number(u64),
    /// Nothing is there, and something could be made there.
    Free,
    /// An error number.
    Refused(Errno),
    /// Want of memory.
    Memory,
    /// A text.
    Text(String),
}

impl Answer {
    /// The answer of a call that gives a node's number.
    pub fn of_node(answered: Result<u32, Refusal>) -> Answer {
        match answered {
            Ok(node) => Answer::Number(u64::from(node)),
            Err(refusal) => Answer::of_refusal(refusal),
        }
    }

    /// The answer of a call that tells nothing.
    pub fn of_nothing(answered: Result<(), Refusal>) -> Answer {
        match answered {
            Ok(()) => Answer::Done,
            Err(refusal) => Answer::of_refusal(refusal),
        }
    }

    /// A refusal as an answer.
    pub fn of_refusal(refusal: Refusal) -> Answer {
        match refusal {
            Refusal::Errno(error) => Answer::Refused(error),
            Refusal::Memory => Answer::Memory,
        }
    }
}

impl fmt::Display for Answer {
    fn fmt<W: fmt::Write>(&self, f: &mut fmt::Formatter<W>) -> fmt::Result {
        match self {
            Answer::Done => write!(f, "done"),
            Answer::Number(number) => write!(f, "{number}"),
            Answer::Free => write!(f, "free"),
            Answer::Refused(error) => {
                let number = error.number();
                write!(f, "errno {number}")
            }
            Answer::Memory => write!(f, "out of memory"),
            Answer::Text(text) => {
                let text = text.as_str();
                write!(f, "{text}")
            }
        }
    }
}
