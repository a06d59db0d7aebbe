// The nodes of a tree by their numbers.
ghost use Rattle.std.specs.Prelude.{◌≡◌, ◌≤◌, ◌<◌, ◌+◌, ◌^◌, OnOk, OnErr, length, true};
ghost use Rattle.std.specs.FinMap.{empty, get, insert, remove, len};
ghost use Rattle.std.specs.Option.{option_copied};
ghost use Rattle.tree_nodes.specs.Nodes as spec;
ghost use Rattle.tree_nodes.specs.Nodes.{bytes_of_all, size_of, changed, with_links, with_change, named, forgotten, resizing, writing, Fits, is_free};

use crate::names::Name;
use crate::node::Node;
use std::alloc::{AllocError, Global};
use std::collections::BTreeMap;
use std::marker::Model;

/// The nodes of a tree by their numbers. Contracts see them as a finite map. All files have at most
/// 67,108,864 bytes together.
#[derive(Drop)]
pub struct Nodes {
    map: BTreeMap<u32, Node>,
    bytes: u64,
}

impl Model for Nodes {
    ghost use Rattle.std.specs.Prelude.{◌≡◌, ◌≤◌};
    ghost use Rattle.std.specs.FinMap.{from_entries};
    ghost use Rattle.tree_nodes.specs.Nodes.{NodeMap, coded_nodes, sizes};

    ghost Value = { NodeMap };

    ghost coded = { coded_nodes };

    ghost view = { λ a. from_entries a.map.entries };

    ghost invariant = { λ a. (a.bytes ≡ sizes a.map.entries) × (a.bytes ≤ 67108864) };
}

// The size of a node's file, if there is one.
fn size_found(node: &Option<Node>) -> u64
    ensures { result ≡ spec.size_found node.now }
{
    match node {
        Some(node) => node.content.size() as u64,
        None => 0,
    }
}

impl Nodes {
    /// No nodes. No memory is taken.
    pub fn new(alloc: Global) -> Nodes
        ensures { result ≡ empty }
    {
        Nodes {
            map: BTreeMap::new(alloc),
            bytes: 0,
        }
    }

    /// The node of this number.
    pub fn get(&self, number: u32) -> Option<&Node>
        ensures { option_copied result ≡ get self.now number }
    {
        self.map.get(&number)
    }

    /// How many nodes there are.
    pub fn len(&self) -> usize
        ensures { result ≡ len self.now }
    {
        self.map.len()
    }

    /// The bytes of all files, at most 67,108,864.
    pub fn total(&self) -> u64
        ensures total { result ≡ bytes_of_all self.now }
        ensures most { result ≤ 67108864 }
    {
        let _ = self.map.len();
        self.bytes
    }

    /// Puts a node without bytes under this number. `AllocError` means out of memory and nothing else; the
    /// nodes are unchanged then.
    pub fn insert(&mut self, number: u32, node: Node) -> Result<(), AllocError>
        requires { size_of node.content ≡ 0 }
        ensures ok { OnOk result (self.new ≡ insert self.old number node) }
        ensures err { OnErr result (self.new ≡ self.old) }
    {
        let old = self.map.insert(number, node)?;
        self.bytes -= size_found(&old);
        Ok(())
    }

    /// Takes the node of this number out, if it is there. No memory is taken.
    pub fn remove(&mut self, number: u32)
        ensures { self.new ≡ remove self.old number }
    {
        let old = self.map.remove(&number);
        self.bytes -= size_found(&old);
    }

    /// Changes which directory names a node, and how many hold it, where the node is there. No memory is
    /// taken.
    pub fn set_links(&mut self, number: u32, parent: Option<u32>, holds: u32)
        ensures { self.new ≡ changed self.old number (with_links parent holds) }
    {
        if let Some(node) = self.map.get_mut(&number) {
            node.parent = parent;
            node.holds = holds;
        }
    }

    /// Lets the directory's name lead to the node, where the directory is there. `AllocError` is want of
    /// memory and nothing else; the nodes are unchanged then.
    pub fn add_name(&mut self, dir: u32, name: Name, number: u32) -> Result<(), AllocError>
        ensures ok { OnOk result (self.new ≡ named self.old dir name number) }
        ensures err { OnErr result (self.new ≡ self.old) }
    {
        match self.map.get_mut(&dir) {
            Some(node) => node.content.add_name(name, number),
            None => Ok(()),
        }
    }

    /// Puts a new node without bytes under this number, and lets a new name of the directory lead to it.
    /// `AllocError` means out of memory and nothing else; the nodes are unchanged then.
    pub fn add(
        &mut self,
        alloc: Global,
        dir: u32,
        name: &[u8],
        number: u32,
        node: Node,
    ) -> Result<(), AllocError>
        requires bytes { size_of node.content ≡ 0 }
        requires free { is_free self.old dir name.now ≡ true }
        ensures ok { OnOk result (self.new ≡ insert (named self.old dir name.now number) number node) }
        ensures err { OnErr result (self.new ≡ self.old) }
    {
        self.add_name(dir, Name::new(alloc, name)?, number)?;
        if self.insert(number, node).is_err() {
            self.forget_name(dir, name);
            return Err(AllocError);
        }
        Ok(())
    }

    /// Removes the directory's name, where the directory is there. No memory is taken.
    pub fn forget_name(&mut self, dir: u32, name: &[u8])
        ensures { self.new ≡ forgotten self.old dir name.now }
    {
        if let Some(node) = self.map.get_mut(&dir) {
            node.content.forget_name(name);
        }
    }

    /// Gives the file `size` bytes, where it is there. `AllocError` means out of memory and nothing else;
    /// the nodes are unchanged then.
    pub fn resize(&mut self, number: u32, size: usize) -> Result<(), AllocError>
        requires { Fits self.old number (resizing size) }
        ensures ok { OnOk result (self.new ≡ changed self.old number (with_change (resizing size))) }
        ensures err { OnErr result (self.new ≡ self.old) }
    {
        match self.map.get_mut(&number) {
            Some(node) => {
                let before = node.content.size() as u64;
                let done = node.content.resize(size);
                let after = node.content.size() as u64;
                self.bytes = self.bytes - before + after;
                done
            }
            None => Ok(()),
        }
    }

    /// Puts `bytes` into the file from `offset` on, where it is there. `AllocError` is out of memory and
    /// nothing else; the nodes are unchanged then.
    pub fn write_at(&mut self, number: u32, offset: usize, bytes: &[u8]) -> Result<(), AllocError>
        requires within { offset + length bytes.now < 2 ^ 63 }
        requires fits { Fits self.old number (writing offset bytes.now) }
        ensures ok { OnOk result (self.new ≡ changed self.old number (with_change (writing offset bytes.now))) }
        ensures err { OnErr result (self.new ≡ self.old) }
    {
        match self.map.get_mut(&number) {
            Some(node) => {
                let before = node.content.size() as u64;
                let done = node.content.write_at(offset, bytes);
                let after = node.content.size() as u64;
                self.bytes = self.bytes - before + after;
                done
            }
            None => Ok(()),
        }
    }
}
