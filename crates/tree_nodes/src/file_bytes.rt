// The bytes of a file.
ghost use Rattle.std.specs.Prelude.{◌≡◌, ◌≤◌, ◌<◌, ◌+◌, ◌^◌, [], length, OnOk, OnErr};
ghost use Rattle.tree_nodes.specs.Nodes.{resized, written};

use std::alloc::{AllocError, Global};
use std::marker::Model;

/// The bytes of a file. Contracts see it as the list of its bytes.
#[derive(Debug, Drop)]
pub struct FileBytes {
    bytes: Vec<u8>,
}

impl Model for FileBytes {
    ghost use Rattle.std.specs.Prelude.{List, ℕ};

    ghost Value = { List ℕ };

    ghost view = { λ a. a.bytes.items };
}

impl FileBytes {
    /// An empty file. No memory is taken.
    pub fn new(alloc: Global) -> FileBytes
        ensures { result ≡ [] }
    {
        FileBytes {
            bytes: Vec::new(alloc),
        }
    }

    /// All its bytes.
    pub fn as_slice(&self) -> &[u8]
        ensures { result.now ≡ self.now }
    {
        self.bytes.as_slice()
    }

    /// How many bytes there are.
    pub fn len(&self) -> usize
        ensures { result ≡ length self.now }
    {
        self.bytes.as_slice().len()
    }

    /// Cuts the file off at `size` bytes, or puts zeros behind its end up to there. `AllocError` is want
    /// of memory and nothing else; the file is unchanged then.
    pub fn resize(&mut self, size: usize) -> Result<(), AllocError>
        ensures ok { OnOk result (self.new ≡ resized self.old size) }
        ensures err { OnErr result (self.new ≡ self.old) }
    {
        self.bytes.resize(size, 0)
    }

    /// Puts `bytes` into the file from `offset` on, with zeros in a gap behind its end. `AllocError` is
    /// out of memory and nothing else; the file is unchanged then.
    pub fn write_at(&mut self, offset: usize, bytes: &[u8]) -> Result<(), AllocError>
        requires { offset + length bytes.now < 2 ^ 63 }
        ensures ok { OnOk result (self.new ≡ written self.old offset bytes.now) }
        ensures err { OnErr result (self.new ≡ self.old) }
    {
        let end = offset + bytes.len();
        if end <= self.bytes.len() {
            self.bytes.as_mut_slice()[offset..end].copy_from_slice(bytes);
            return Ok(());
        }
        self.bytes.reserve(end - self.bytes.len())?;
        // There is room now for all that follows.
        if self.bytes.resize(offset, 0).is_err() {
            unreachable!();
        }
        if self.bytes.extend_from_slice(bytes).is_err() {
            unreachable!();
        }
        Ok(())
    }
}
