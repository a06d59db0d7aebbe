// A node of the tree.
ghost use Rattle.std.specs.Prelude.{◌≡◌, ◌+◌, ◌<◌, ◌^◌, OnOk, OnErr, length};

use crate::file_bytes::FileBytes;
use crate::names::{Name, Names};
use std::alloc::AllocError;
use wx_types::NodeKind;

/// What a node is, and what it holds.
#[derive(Drop)]
pub enum Content {
    /// A regular file with its bytes.
    File(FileBytes),
    /// A directory with its names.
    Dir(Names),
}

/// A node of the tree.
#[derive(Drop)]
pub struct Node {
    /// The directory that names the node; the root names itself. `None` where it was removed.
    pub parent: Option<u32>,
    /// How many open descriptions and current directories hold the node.
    pub holds: u32,
    /// The file's bytes or the directory's names.
    pub content: Content,
}

impl Content {
    ghost use Rattle.tree_nodes.specs.Nodes.{kind_of, size_of, naming, forgetting, resizing, writing};

    /// Whether it is a file or a directory.
    pub fn kind(&self) -> NodeKind
        ensures { result ≡ kind_of self.now }
    {
        match self {
            Content::File(_) => NodeKind::File,
            Content::Dir(_) => NodeKind::Dir,
        }
    }

    /// How many bytes a file has; 0 for a directory.
    pub fn size(&self) -> usize
        ensures { result ≡ size_of self.now }
    {
        match self {
            Content::File(file) => file.len(),
            Content::Dir(_) => 0,
        }
    }

    /// Lets a directory's name lead to a node. A file stays as it is. `AllocError` is out of memory and
    /// nothing else; nothing is changed then.
    pub fn add_name(&mut self, name: Name, number: u32) -> Result<(), AllocError>
        ensures ok { OnOk result (self.new ≡ naming name number self.old) }
        ensures err { OnErr result (self.new ≡ self.old) }
    {
        match self {
            Content::File(_) => Ok(()),
            Content::Dir(names) => names.insert(name, number),
        }
    }

    /// Removes a directory's name. A file stays as it is. No memory is taken.
    pub fn forget_name(&mut self, name: &[u8])
        ensures { self.new ≡ forgetting name.now self.old }
    {
        match self {
            Content::File(_) => {}
            Content::Dir(names) => names.remove(name),
        }
    }

    /// Cuts a file off at `size` bytes, or puts zeros behind its end up to there. A directory stays as
    /// it is. `AllocError` means out of memory and nothing else; nothing is changed then.
    pub fn resize(&mut self, size: usize) -> Result<(), AllocError>
        ensures ok { OnOk result (self.new ≡ resizing size self.old) }
        ensures err { OnErr result (self.new ≡ self.old) }
    {
        match self {
            Content::File(file) => file.resize(size),
            Content::Dir(_) => Ok(()),
        }
    }

    /// Puts `bytes` into a file from `offset` on, with zeros in a gap behind its end. A directory stays
    /// as it is. `AllocError` means out of memory and nothing else; nothing is changed then.
    pub fn write_at(&mut self, offset: usize, bytes: &[u8]) -> Result<(), AllocError>
        requires { offset + length bytes.now < 2 ^ 63 }
        ensures ok { OnOk result (self.new ≡ writing offset bytes.now self.old) }
        ensures err { OnErr result (self.new ≡ self.old) }
    {
        match self {
            Content::File(file) => file.write_at(offset, bytes),
            Content::Dir(_) => Ok(()),
        }
    }
}
