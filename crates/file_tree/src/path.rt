// The absolute path of a node.
ghost use Rattle.std.specs.Prelude.{◌≡◌, ◌++◌, ◌∷◌, IfOk, OnOk, OnErr, reverse};
ghost use Rattle.std.specs.FinMap.{len};
ghost use Rattle.file_tree.specs.FileTree.{parent_of as parent_in};
ghost use Rattle.file_tree.specs.Listings as spec;
ghost use Rattle.file_tree.specs.Names.{above};

use crate::edits::above_of;
use crate::walk::names_at;
use std::alloc::{AllocError, Global};
use tree_nodes::Nodes;

// The name of a node in the directory above it.
fn name_in(nodes: &Nodes, dir: u32, number: u32) -> &[u8]
    ensures { result.now ≡ spec.name_for (spec.names_at nodes.now dir) number }
{
    match names_at(nodes, dir) {
        Ok(names) => names.name_of(number),
        Err(_) => b"".as_slice(),
    }
}

// Adds the bytes of a name and the slash before it, from the last one to the first.
fn push_reversed(out: &mut Vec<u8>, name: &[u8]) -> Result<(), AllocError>
    ensures { OnOk result (reverse out.new.items ≡ 47 ∷ name.now ++ reverse out.old.items) }
{
    let mut left = name.len();
    while left > 0 {
        left -= 1;
        out.push(name[left])?;
    }
    out.push(b'/')?;
    Ok(())
}

// The bytes from the last one to the first; a slash where there are none.
fn turned(mut out: Vec<u8>) -> Result<Vec<u8>, AllocError>
    ensures { IfOk result (λ path. path.items ≡ spec.or_slash (reverse out.items)) }
{
    if out.is_empty() {
        out.push(b'/')?;
    }
    out.as_mut_slice().reverse();
    Ok(out)
}

/// The absolute path of a node, a slash before each name. `AllocError` means out of memory and nothing else.
pub fn path_bytes(alloc: Global, nodes: &Nodes, number: u32) -> Result<Vec<u8>, AllocError>
    ensures { IfOk result (λ path. path.items ≡ spec.or_slash (spec.path_down (len nodes.now) nodes.now number)) }
{
    let mut out = Vec::new(alloc);
    let mut at = number;
    let mut left = nodes.len();
    while left > 0 {
        let Some(dir) = above_of(nodes, at) else {
            return turned(out);
        };
        push_reversed(&mut out, name_in(nodes, dir, at))?;
        at = dir;
        left -= 1;
    }
    turned(out)
}
