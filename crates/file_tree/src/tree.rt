// The tree, and its calls.
ghost use Rattle.std.specs.Prelude.{◌≡◌, ◌<◌, ◌≤◌, ◌^◌, ℕ, List, IsTrue, IfOk, Some, None, true, length};
ghost use Rattle.tree_nodes.specs.Nodes.{size_of, is_free, bytes_of_all};
ghost use Rattle.file_tree.specs.Answers.{Gives, Leaves, Changes, Tells};
ghost use Rattle.file_tree.specs.FileTree as spec;
ghost use Rattle.file_tree.specs.Walk.{lookup, find, last_name};
ghost use Rattle.file_tree.specs.Names.{create, mkdir, unlink, rmdir, rename, rename_node, made_at};
ghost use Rattle.file_tree.specs.Files.{read_at, count_read, filled, write_at, set_size};
ghost use Rattle.file_tree.specs.Listings.{stat, list, path_of};
ghost use Rattle.file_tree.specs.Trees.{IsTree, IsName, Leads, target, target_in};

use crate::edits::{
    has_no_names, is_dir, is_within, may_replace_at, move_node, release_node, take_name,
};
use crate::files::{bytes_at, check_room, file_or_inval, read_from};
use crate::list::listing_of;
use crate::listing::{Listing, Stat};
use crate::path::path_bytes;
use crate::place::Place;
use crate::walk::{ROOT, content_at, is_linked, last_name, names_at, names_no_entry, walk};
use path_walk::Parts;
use std::alloc::{AllocError, Global};
use std::marker::Model;
use tree_nodes::{Content, FileBytes, Name, Names, Node, Nodes};
use wx_types::{Bytes, Errno, Refusal};

/// The most nodes, the root and unlinked ones that are held among them.
const MOST_NODES: usize = 16_384;

/// A file tree in memory. Contracts see it as a finite map from the numbers of its nodes to a file's
/// bytes or a directory's names, and the number that the next new node is given.
///
/// The walk of a path comes before a call's own refusals: each component but the last must name a
/// directory (`Noent` where it names nothing, `Notdir` where it names a file). `..` leads to the
/// parent, at the root to the root, and is `Noent` in a removed directory. Where the path must name a
/// directory and names a file, the walk is `Notdir`. A node number that names no node is `Noent`.
///
/// After a refusal, and after out of memory, the tree is unchanged.
#[derive(Drop)]
pub struct Tree {
    nodes: Nodes,
    next: u64,
}

impl Model for Tree {
    ghost use Rattle.file_tree.specs.FileTree.{FileTree, tree_code};
    ghost use Rattle.file_tree.specs.Trees.{IsTree};

    ghost Value = { FileTree };

    ghost coded = { tree_code };

    ghost view = { λ a. record { nodes = a.nodes; next = a.next } };

    ghost invariant = { λ a. IsTree a.nodes a.next };
}

impl Tree {
    /// The root alone, an empty directory with the number 1. `AllocError` is out of memory and
    /// nothing else.
    pub fn new(alloc: Global) -> Result<Tree, AllocError>
        ensures { IfOk result (λ tree. tree ≡ spec.only_root) }
    {
        let mut nodes = Nodes::new(alloc);
        nodes.insert(
            ROOT,
            Node {
                parent: Some(ROOT),
                holds: 0,
                content: Content::Dir(Names::new(alloc)),
            },
        )?;
        Ok(Tree { nodes, next: 2 })
    }

    /// What holds of every tree: its links make one tree below the root, which is a directory; names are those that a
    /// directory can have; there are at most 16,384 nodes, and all files have at most 67,108,864 bytes. Nothing is done.
    pub fn is_tree(&self)
        ensures tree { IsTree self.now.nodes self.now.next }
        ensures bytes { bytes_of_all self.now.nodes ≤ spec.most_bytes }
    {
        let _ = self.nodes.total();
    }

    /// The node that a path from the directory `from` names. After the walk `Noent` comes where it
    /// names nothing. No memory is taken.
    pub fn lookup(&self, from: u32, path: &Parts<'_>) -> Result<u32, Errno>
        ensures { result ≡ lookup self.now from path.now }
    {
        let place = walk(&self.nodes, from, path)?;
        place.node.ok_or(Errno::Noent)
    }

    /// The node that a path names, or `None` where it names nothing and something could be made there.
    /// After the walk `Noent` comes where it names nothing and its directory was removed. No memory is
    /// taken.
    pub fn find(&self, from: u32, path: &Parts<'_>) -> Result<Option<u32>, Errno>
        ensures { result ≡ find self.now from path.now }
    {
        let place = walk(&self.nodes, from, path)?;
        if place.node.is_none() && !is_linked(&self.nodes, place.dir) {
            return Err(Errno::Noent);
        }
        Ok(place.node)
    }

    /// Makes an empty file, and gives its number. The refusals after the walk, in their order: `Exist`;
    /// `Noent` in a removed directory; `Isdir` where the path must name a directory; `Nospc` where there
    /// are 16,384 nodes or no number up to 4,294,967,295 is left. `Memory` is out of memory.
    pub fn create(&mut self, alloc: Global, from: u32, path: &Parts<'_>) -> Result<u32, Refusal>
        ensures { Gives (create self.old from path.now) self.old self.new result }
    {
        let place = walk(&self.nodes, from, path)?;
        let content = Content::File(FileBytes::new(alloc));
        self.make(alloc, path, place, content, path.must_dir())
    }

    /// Makes an empty directory, and gives its number. The refusals after the walk, in their order:
    /// `Exist`; `Noent` in a removed directory; `Nospc` as for `create`. `Memory` is out of memory.
    pub fn mkdir(&mut self, alloc: Global, from: u32, path: &Parts<'_>) -> Result<u32, Refusal>
        ensures { Gives (mkdir self.old from path.now) self.old self.new result }
    {
        let place = walk(&self.nodes, from, path)?;
        let content = Content::Dir(Names::new(alloc));
        self.make(alloc, path, place, content, false)
    }

    /// Removes a file's name. The refusals after the walk, in their order: `Noent`; `Isdir`. The node
    /// stays while it is held. No memory is taken.
    pub fn unlink(&mut self, from: u32, path: &Parts<'_>) -> Result<(), Errno>
        ensures { Changes (unlink self.old from path.now) self.old self.new result }
    {
        let place = walk(&self.nodes, from, path)?;
        let Some(number) = place.node else {
            return Err(Errno::Noent);
        };
        if is_dir(content_at(&self.nodes, number)?) {
            return Err(Errno::Isdir);
        }
        take_name(&mut self.nodes, place.dir, last_name(path), number);
        Ok(())
    }

    /// Removes an empty directory. The refusals after the walk, in their order: `Inval` where the path
    /// is the root or its last component is `.` or `..`; `Noent`; `Notdir`; `Notempty`. The node stays
    /// while it is held. No memory is taken.
    pub fn rmdir(&mut self, from: u32, path: &Parts<'_>) -> Result<(), Errno>
        ensures { Changes (rmdir self.old from path.now) self.old self.new result }
    {
        let place = walk(&self.nodes, from, path)?;
        if names_no_entry(path) {
            return Err(Errno::Inval);
        }
        let Some(number) = place.node else {
            return Err(Errno::Noent);
        };
        let content = content_at(&self.nodes, number)?;
        if !is_dir(content) {
            return Err(Errno::Notdir);
        }
        if !has_no_names(content) {
            return Err(Errno::Notempty);
        }
        take_name(&mut self.nodes, place.dir, last_name(path), number);
        Ok(())
    }

    /// Gives the node that `old` names, from the directory `from`, the name `new`, from the directory
    /// `to`. After the walk of the old path and then of the new one the first of these that applies is
    /// the answer: `Inval` where a path is the root or its last component is `.` or `..`; `Noent` where
    /// the old path names nothing or the directory of the new one was removed; success with nothing
    /// changed where both name one node; `Inval` where a directory would go into itself or below;
    /// `Notdir` where the new path names a file and the old one a directory; `Isdir` where it is the
    /// other way round; `Notempty` where the new path names a directory with entries; else the node
    /// moves, and what the new path named is removed. `Memory` is out of memory.
    pub fn rename(
        &mut self,
        alloc: Global,
        from: u32,
        old: &Parts<'_>,
        to: u32,
        new: &Parts<'_>,
    ) -> Result<(), Refusal>
        ensures { Leaves (rename self.old from old.now to new.now) self.old self.new result }
    {
        let old_place = walk(&self.nodes, from, old)?;
        let new_place = walk(&self.nodes, to, new)?;
        if names_no_entry(old) || names_no_entry(new) {
            return Err(Refusal::Errno(Errno::Inval));
        }
        let Some(number) = old_place.node else {
            return Err(Refusal::Errno(Errno::Noent));
        };
        self.rename_node(
            alloc,
            old_place,
            last_name(old),
            new_place,
            last_name(new),
            number,
        )
    }

    /// Puts the file's bytes from `offset` on at the front of `out`, as many as are there and fit, and
    /// gives their number. `Isdir` comes for a directory. No memory is taken.
    pub fn read_at(&self, node: u32, offset: u64, out: &mut [u8]) -> Result<usize, Errno>
        ensures count { result ≡ count_read (read_at self.now node offset (length out.old)) }
        ensures bytes { out.new ≡ filled out.old (read_at self.now node offset (length out.old)) }
    {
        let bytes = bytes_at(&self.nodes, node)?;
        Ok(read_from(bytes, offset, out))
    }

    /// Puts `bytes` into the file from `offset` on, with zeros in a gap behind its end. A write of no
    /// bytes changes nothing. The refusals, in their order: `Isdir` for a directory; `Fbig` where the
    /// file would have more than 67,108,864 bytes; `Nospc` where all files would. `Memory` is want of
    /// memory.
    pub fn write_at(&mut self, node: u32, offset: u64, bytes: &[u8]) -> Result<(), Refusal>
        ensures { Leaves (write_at self.old node offset bytes.now) self.old self.new result }
    {
        let before = bytes_at(&self.nodes, node)?.len() as u64;
        if bytes.is_empty() {
            return Ok(());
        }
        let Some(end) = offset.checked_add(bytes.len() as u64) else {
            return Err(Refusal::Errno(Errno::Fbig));
        };
        let _ = check_room(&self.nodes, before, end, before.max(end))?;
        self.nodes.write_at(node, offset as usize, bytes)?;
        Ok(())
    }

    /// Cuts the file off at `size` bytes, or puts zeros behind its end up to there. The refusals, in
    /// their order: `Inval` for a directory; `Fbig` where the size is more than 67,108,864; `Nospc`
    /// where all files would have more than that. `Memory` is out of memory.
    pub fn set_size(&mut self, node: u32, size: u64) -> Result<(), Refusal>
        ensures { Leaves (set_size self.old node size) self.old self.new result }
    {
        let before = file_or_inval(&self.nodes, node)?.len() as u64;
        let _ = check_room(&self.nodes, before, size, size)?;
        self.nodes.resize(node, size as usize)?;
        Ok(())
    }

    /// A directory's names in the order of their bytes, with their nodes. `Notdir` comes for a file.
    /// `Memory` is out of memory.
    pub fn list(&self, alloc: Global, node: u32) -> Result<Listing, Refusal>
        ensures { Tells (list self.now node) result }
    {
        let names = names_at(&self.nodes, node)?;
        Ok(listing_of(alloc, &self.nodes, names.to_vec(alloc)?)?)
    }

    /// The node's kind, its size, and whether a directory names it; `None` exactly where it isn't there.
    pub fn stat(&self, node: u32) -> Option<Stat>
        ensures { result ≡ stat self.now node }
    {
        match self.nodes.get(node) {
            Some(node) => Some(Stat {
                kind: node.content.kind(),
                size: node.content.size() as u64,
                linked: node.parent.is_some(),
            }),
            None => None,
        }
    }

    /// The absolute path of the node, which may have more than 1,024 bytes where directories were moved. `Noent` comes where it
    /// was removed. `Memory` is out of memory.
    pub fn path_of(&self, alloc: Global, node: u32) -> Result<Bytes, Refusal>
        ensures { Tells (path_of self.now node) result }
    {
        if !is_linked(&self.nodes, node) {
            return Err(Refusal::Errno(Errno::Noent));
        }
        Ok(Bytes::from_vec(path_bytes(alloc, &self.nodes, node)?))
    }

    /// How many open descriptions and current directories hold the node; 0 where it isn't there.
    pub fn holds(&self, node: u32) -> u32
        ensures { result ≡ spec.holds_of self.now node }
    {
        match self.nodes.get(node) {
            Some(node) => node.holds,
            None => 0,
        }
    }

    /// One more open description or current directory holds the node, which stays until it is let go.
    pub fn hold(&mut self, node: u32)
        requires there { IsTrue (spec.is_there self.old node) }
        requires room { spec.holds_of self.old node < 4294967295 }
        ensures { self.new ≡ spec.hold self.old node }
    {
        let Some(held) = self.nodes.get(node) else {
            unreachable!();
        };
        let (parent, holds) = (held.parent, held.holds);
        self.nodes.set_links(node, parent, holds + 1);
    }

    /// One fewer holds the node. An unlinked one goes with the last.
    pub fn release(&mut self, node: u32)
        requires { 0 < spec.holds_of self.old node }
        ensures { self.new ≡ spec.release self.old node }
    {
        release_node(&mut self.nodes, node);
    }

    // A new node where a walk ended, unless a rule refuses it.
    fn make(
        &mut self,
        alloc: Global,
        path: &Parts<'_>,
        place: Place,
        content: Content,
        refused: bool,
    ) -> Result<u32, Refusal>
        requires bytes { size_of content ≡ 0 }
        requires free { place.node ≡ None → is_free self.old.nodes place.dir (last_name path.now) ≡ true }
        requires name { place.node ≡ None → IsName (last_name path.now) }
        requires names { (name : List ℕ) → target_in content name ≡ None }
        ensures { Gives (made_at self.old path.now content refused place) self.old self.new result }
    {
        if place.node.is_some() {
            return Err(Refusal::Errno(Errno::Exist));
        }
        if !is_linked(&self.nodes, place.dir) {
            return Err(Refusal::Errno(Errno::Noent));
        }
        if refused {
            return Err(Refusal::Errno(Errno::Isdir));
        }
        if self.nodes.len() >= MOST_NODES || self.next > u32::MAX as u64 {
            return Err(Refusal::Errno(Errno::Nospc));
        }
        let number = self.next as u32;
        let node = Node {
            parent: Some(place.dir),
            holds: 0,
            content,
        };
        self.nodes
            .add(alloc, place.dir, last_name(path), number, node)?;
        self.next += 1;
        Ok(number)
    }

    // The node moves to the new place, unless a rule refuses it.
    fn rename_node(
        &mut self,
        alloc: Global,
        old: Place,
        name: &[u8],
        new: Place,
        new_name: &[u8],
        number: u32,
    ) -> Result<(), Refusal>
        requires old { target self.old.nodes old.dir name.now ≡ Some number }
        requires new { Leads self.old.nodes new.dir new_name.now new.node }
        requires name { IsName new_name.now }
        ensures { Leaves (rename_node self.old old name.now new new_name.now number) self.old self.new result }
    {
        if !is_linked(&self.nodes, new.dir) {
            return Err(Refusal::Errno(Errno::Noent));
        }
        if new.node == Some(number) {
            return Ok(());
        }
        if is_within(&self.nodes, new.dir, number) {
            return Err(Refusal::Errno(Errno::Inval));
        }
        let _ = may_replace_at(&self.nodes, number, new.node)?;
        let new_name = Name::new(alloc, new_name)?;
        move_node(
            &mut self.nodes,
            number,
            old.dir,
            name,
            new.dir,
            new_name,
            new.node,
        )?;
        Ok(())
    }
}
