// The bytes of a pipe, and its two ends.
ghost use Rattle.std.specs.Prelude.{◌≡◌, ◌≤◌, ◌==◌, [], length, drop, ◌++◌, IfOk};
ghost use Rattle.pipes.specs.PipeRows.{room, push_of, after_push, pull_of, delivered, after_pull, given};
ghost use Rattle.pipes.specs.Transfers.{Conserves};

use circular_buffer::HeapCircularBuffer;
use std::alloc::{AllocError, Global};
use std::marker::Model;

/// How many bytes a pipe holds at most.
pub const CAPACITY: usize = 65_536;

/// A write of up to so many bytes goes into a pipe whole or not at all (POSIX.1-2017, `PIPE_BUF`).
pub const PIPE_BUF: usize = 4_096;

/// What a write to a pipe is answered.
#[derive(Clone, Copy, Debug, PartialEq, Eq)]
pub enum Push {
    /// So many of the bytes are in the pipe, the first ones.
    Took(usize),
    /// There is no room for the bytes. The pipe is unchanged.
    WouldWait,
    /// There is no reading end left. The pipe is unchanged.
    NoReader,
}

/// What a read of a pipe is answered.
#[derive(Clone, Copy, Debug, PartialEq, Eq)]
pub enum Pull {
    /// So many bytes came out of the pipe. 0 bytes for a read of more are the end of file.
    Gave(usize),
    /// The pipe is empty, and a writing end is left.
    WouldWait,
}

/// A pipe of at most 65,536 bytes. Contracts see it as the list of the bytes in it, the oldest first.
#[derive(Drop)]
pub struct Pipe {
    ring: HeapCircularBuffer<u8>,
}

impl Model for Pipe {
    ghost use Rattle.std.specs.Prelude.{◌≡◌, List, ℕ};

    ghost Value = { List ℕ };

    ghost view = { λ pipe. pipe.ring.items };

    ghost invariant = { λ pipe. pipe.ring.capacity ≡ 65536 };
}

impl Pipe {
    /// An empty pipe, with memory for all that it may hold. `AllocError` is want of memory.
    pub fn new(alloc: Global) -> Result<Pipe, AllocError>
        ensures empty { IfOk result (λ pipe. pipe ≡ []) }

        // Whatever is written to it and read from it, no byte is lost, doubled or moved.
        ensures conserves { IfOk result Conserves }
    {
        Ok(Pipe {
            ring: HeapCircularBuffer::with_capacity(alloc, CAPACITY)?,
        })
    }

    /// How many bytes there are.
    pub fn len(&self) -> usize
        ensures value { result ≡ length self.now }
        ensures most { result ≤ 65536 }
    {
        self.ring.len()
    }

    /// For how many more bytes there is room.
    pub fn free(&self) -> usize
        ensures { result ≡ room self.now }
    {
        CAPACITY - self.len()
    }

    /// Whether there is no byte.
    pub fn is_empty(&self) -> bool
        ensures { result ≡ (length self.now == 0) }
    {
        self.ring.is_empty()
    }

    /// Writes `bytes`, where `reader_left` is whether a reading end is open (POSIX.1-2017, `write`). Up
    /// to 4,096 bytes go in whole, or the write would wait; more go in as far as there is room, and the
    /// write would wait where there is none. `NoReader` comes for one byte or more where no reading end
    /// is left.
    pub fn write(&mut self, bytes: &[u8], reader_left: bool) -> Push
        ensures answer { result ≡ push_of self.old (length bytes.now) reader_left }
        ensures bytes { self.new ≡ after_push self.old bytes.now reader_left }
    {
        if bytes.is_empty() {
            return Push::Took(0);
        }
        if !reader_left {
            return Push::NoReader;
        }
        let free = self.free();
        let would_wait = if bytes.len() <= PIPE_BUF {
            free < bytes.len()
        } else {
            free == 0
        };
        if would_wait {
            return Push::WouldWait;
        }
        Push::Took(self.ring.fill_from_slice(bytes))
    }

    /// Reads as many bytes as `out` has room for, or all where there are fewer, where `writer_left` is
    /// whether a writing end is open (POSIX.1-2017, `read`). The rest of `out` is unchanged. A read of
    /// one byte or more of an empty pipe is the end of file, 0 bytes, where no writing end is left, and
    /// would wait where one is.
    pub fn read(&mut self, out: &mut [u8], writer_left: bool) -> Pull
        ensures answer { result ≡ pull_of self.old (length out.old) writer_left }
        ensures bytes { self.new ≡ after_pull self.old (length out.old) writer_left }
        ensures out { out.new ≡ delivered self.old (length out.old) writer_left ++ drop (given result) out.old }
    {
        if !out.is_empty() && self.ring.is_empty() && writer_left {
            return Pull::WouldWait;
        }
        Pull::Gave(self.ring.read_into(out))
    }
}
