// Names made, removed and moved over the nodes of a tree.
ghost use Rattle.std.specs.Prelude.{◌≡◌, ◌<◌, OnOk, OnErr};
ghost use Rattle.std.specs.FinMap.{get};
ghost use Rattle.file_tree.specs.FileTree as tree;
ghost use Rattle.file_tree.specs.Names as spec;
ghost use Rattle.tree_nodes.specs.Nodes.{settled, changed, unlinked, linked_in, let_go};

use crate::walk::{ROOT, content_at, parent_of};
use std::alloc::AllocError;
use tree_nodes::{Content, Name, Nodes};
use wx_types::Errno;

// No directory names the node any more, and it goes where nothing holds it.
fn unlink_node(nodes: &mut Nodes, number: u32)
    ensures { nodes.new ≡ settled nodes.old number unlinked }
{
    if let Some(node) = nodes.get(number) {
        let holds = node.holds;
        if holds == 0 {
            nodes.remove(number);
        } else {
            nodes.set_links(number, None, holds);
        }
    }
}

// The directory names the node.
fn link_node(nodes: &mut Nodes, number: u32, dir: u32)
    ensures { nodes.new ≡ changed nodes.old number (linked_in dir) }
{
    if let Some(node) = nodes.get(number) {
        let holds = node.holds;
        nodes.set_links(number, Some(dir), holds);
    }
}

/// One fewer holds the node, which goes where it is unlinked and that was the last.
pub fn release_node(nodes: &mut Nodes, number: u32)
    requires { 0 < tree.holds_of_node (get nodes.old number) }
    ensures { nodes.new ≡ settled nodes.old number let_go }
{
    if let Some(node) = nodes.get(number) {
        let (parent, holds) = (node.parent, node.holds);
        if parent.is_none() && holds == 1 {
            nodes.remove(number);
        } else {
            nodes.set_links(number, parent, holds - 1);
        }
    }
}

/// Removes a name from its directory, and the node that it names where nothing holds it.
pub fn take_name(nodes: &mut Nodes, dir: u32, name: &[u8], number: u32)
    ensures { nodes.new ≡ spec.removed nodes.old dir name.now number }
{
    nodes.forget_name(dir, name);
    unlink_node(nodes, number);
}

/// Gives the node the new name and takes its old one, and removes the node that the new name had. Where
/// memory runs out the nodes are unchanged.
pub fn move_node(
    nodes: &mut Nodes,
    number: u32,
    dir: u32,
    name: &[u8],
    new_dir: u32,
    new_name: Name,
    replaced: Option<u32>,
) -> Result<(), AllocError>
    ensures ok { OnOk result (nodes.new ≡ spec.replacing (spec.moved nodes.old number dir name.now new_dir new_name) replaced) }
    ensures err { OnErr result (nodes.new ≡ nodes.old) }
{
    nodes.add_name(new_dir, new_name, number)?;
    nodes.forget_name(dir, name);
    link_node(nodes, number, new_dir);
    if let Some(other) = replaced {
        unlink_node(nodes, other);
    }
    Ok(())
}

/// The directory above a node, none above the root.
pub fn above_of(nodes: &Nodes, dir: u32) -> Option<u32>
    ensures { result ≡ spec.above nodes.now dir }
{
    if dir == ROOT {
        None
    } else {
        parent_of(nodes, dir)
    }
}

/// Whether the directory is this node or lies below it.
pub fn is_within(nodes: &Nodes, dir: u32, number: u32) -> bool
    ensures { result ≡ spec.is_within nodes.now dir number }
{
    let mut left = nodes.len();
    let mut above = Some(dir);
    while left > 0 {
        let Some(here) = above else {
            return false;
        };
        if here == number {
            return true;
        }
        above = above_of(nodes, here);
        left -= 1;
    }
    false
}

/// Whether it is a directory.
pub fn is_dir(content: &Content) -> bool
    ensures { result ≡ spec.is_dir content.now }
{
    match content {
        Content::File(_) => false,
        Content::Dir(_) => true,
    }
}

/// Whether it is no directory with entries.
pub fn has_no_names(content: &Content) -> bool
    ensures { result ≡ spec.has_no_names content.now }
{
    match content {
        Content::File(_) => true,
        Content::Dir(names) => names.is_empty(),
    }
}

// Whether a node may take another's place, and why not.
fn may_replace(old: &Content, new: &Content) -> Result<bool, Errno>
    ensures { result ≡ spec.may_replace old.now new.now }
{
    if is_dir(old) && !is_dir(new) {
        return Err(Errno::Notdir);
    }
    if !is_dir(old) && is_dir(new) {
        return Err(Errno::Isdir);
    }
    if !has_no_names(new) {
        return Err(Errno::Notempty);
    }
    Ok(true)
}

/// Whether the node may take the place of the other one, if there is one, and why not.
pub fn may_replace_at(nodes: &Nodes, number: u32, other: Option<u32>) -> Result<bool, Errno>
    ensures { result ≡ spec.may_replace_at nodes.now number other }
{
    match other {
        None => Ok(true),
        Some(other) => {
            let old = content_at(nodes, number)?;
            let new = content_at(nodes, other)?;
            may_replace(old, new)
        }
    }
}
