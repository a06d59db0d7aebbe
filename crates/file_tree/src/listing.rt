// What the calls tell of nodes and of directories.
ghost use Rattle.std.specs.Prelude.{◌≡◌, length};

use std::marker::Model;
use wx_types::{Bytes, NodeKind};

/// What a node is.
#[derive(Clone, Copy, Debug, PartialEq, Eq)]
pub struct Stat {
    /// A file or a directory.
    pub kind: NodeKind,
    /// The file's size in bytes, at most 67,108,864; 0 for a directory.
    pub size: u64,
    /// Whether a directory names it, which always holds of the root.
    pub linked: bool,
}

/// A name in a directory.
#[derive(Debug, Drop)]
pub struct Listed {
    /// The name.
    pub name: Bytes,
    /// The number of the node that it names.
    pub node: u32,
    /// What that node is.
    pub kind: NodeKind,
}

/// The names of a directory, in the order of their bytes. Contracts see it as their list.
#[derive(Debug, Drop)]
pub struct Listing {
    items: Vec<Listed>,
}

impl Model for Listing {
    ghost use Rattle.std.specs.Prelude.{List};
    ghost use Rattle.file_tree.specs.declared.listing.Listed.{Listed};

    ghost Value = { List Listed };

    ghost view = { λ a. a.items.items };
}

impl Listing {
    /// The list of these names. No memory is taken.
    pub fn from_vec(items: Vec<Listed>) -> Listing
        ensures { result ≡ items.items }
    {
        Listing { items }
    }

    /// The names in their order.
    pub fn as_slice(&self) -> &[Listed]
        ensures { result.now ≡ self.now }
    {
        self.items.as_slice()
    }
}
