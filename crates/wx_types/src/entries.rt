// The history's entries, and the outcomes of the calls that end a slice.
ghost use Rattle.std.specs.Prelude.{◌≡◌, IfOk};

use super::byte_list::Bytes;
use std::alloc::{AllocError, Global};

/// Where the bytes of a reply to a read or a write went to or came from.
#[derive(Clone, Copy, Debug, PartialEq, Eq)]
pub enum Place {
    /// The reply is of no read or write that succeeded.
    Nowhere,
    /// Console input.
    Input,
    /// Console output.
    Output,
    /// Console errors.
    Error,
    /// The pipe of this number.
    Pipe(u32),
    /// The file of this node number.
    File(u32),
}

/// What the kernel answered to the request that ended a slice.
#[derive(Debug, Drop, PartialEq, Eq)]
pub enum Outcome {
    /// The call returns.
    Reply {
        /// The error number that the guest sees, 0 for success.
        errno: u16,
        /// The data that a read or a write moved; for other calls what is written to the caller's
        /// memory or, for the waiting instructions, its stack. Nothing where `errno` isn't 0.
        bytes: Bytes,
        /// Where the data came from or went to.
        place: Place,
    },
    /// The thread waits until the condition of its call holds, and then asks again.
    Wait,
    /// The process goes on as a new program.
    Image,
    /// The process was copied.
    Fork {
        /// The new process's number.
        child: u32,
    },
    /// A new process was made of another program.
    Spawn {
        /// The new process's number.
        child: u32,
    },
    /// The thread ended.
    Ended {
        /// Whether its process ended with it.
        process: bool,
    },
    /// The thread had been ended by another one.
    Gone,
}

impl Outcome {
    /// An equal outcome. `AllocError` is want of memory and nothing else.
    pub fn copy(&self, alloc: Global) -> Result<Outcome, AllocError>
        ensures { IfOk result (λ o. o ≡ self.now) }
    {
        Ok(match self {
            Outcome::Reply {
                errno,
                bytes,
                place,
            } => Outcome::Reply {
                errno: *errno,
                bytes: bytes.copy(alloc)?,
                place: *place,
            },
            Outcome::Wait => Outcome::Wait,
            Outcome::Image => Outcome::Image,
            Outcome::Fork { child } => Outcome::Fork { child: *child },
            Outcome::Spawn { child } => Outcome::Spawn { child: *child },
            Outcome::Ended { process } => Outcome::Ended { process: *process },
            Outcome::Gone => Outcome::Gone,
        })
    }
}

/// One entry of the history: a slice of one guest thread, and the call that ended it.
#[derive(Debug, Drop, PartialEq, Eq)]
pub struct Entry {
    /// The process's number, from 1.
    pub pid: u32,
    /// The thread's number in its process, from 1.
    pub tid: u32,
    /// How many steps ran in the slice.
    pub ran: u64,
    /// The number of the call that ended the slice.
    pub call: u16,
    /// What the kernel answered.
    pub outcome: Outcome,
    /// The number of the caught signal that this entry delivers, or 0.
    pub signal: u8,
}

impl Entry {
    ghost use Rattle.wx_types.specs.Entry.{entry_weight};

    /// What the entry weighs in the journal: 64, and one more for each byte of its reply.
    pub fn weight(&self) -> u64
        ensures { result ≡ entry_weight self.now }
    {
        match &self.outcome {
            Outcome::Reply { bytes, .. } => 64 + bytes.len() as u64,
            _ => 64,
        }
    }

    /// An equal entry. `AllocError` is want of memory and nothing else.
    pub fn copy(&self, alloc: Global) -> Result<Entry, AllocError>
        ensures { IfOk result (λ e. e ≡ self.now) }
    {
        Ok(Entry {
            pid: self.pid,
            tid: self.tid,
            ran: self.ran,
            call: self.call,
            outcome: self.outcome.copy(alloc)?,
            signal: self.signal,
        })
    }
}
