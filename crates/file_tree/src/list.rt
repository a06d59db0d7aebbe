// A directory's names with the kinds of their nodes.
ghost use Rattle.std.specs.Prelude.{◌≡◌, IfOk, map};
ghost use Rattle.std.specs.FinMap.{get};
ghost use Rattle.file_tree.specs.Listings as spec;

use crate::listing::{Listed, Listing};
use std::alloc::{AllocError, Global};
use tree_nodes::Nodes;
use wx_types::{Bytes, NodeKind};

// The kind of a node, a file where it isn't there.
fn kind_at(nodes: &Nodes, number: u32) -> NodeKind
    ensures { result ≡ spec.kind_of_node (get nodes.now number) }
{
    match nodes.get(number) {
        Some(node) => node.content.kind(),
        None => NodeKind::File,
    }
}

/// A directory's names with their nodes' kinds. `AllocError` means out of memory and nothing else.
pub fn listing_of(
    alloc: Global,
    nodes: &Nodes,
    names: Vec<(Bytes, u32)>,
) -> Result<Listing, AllocError>
    ensures { IfOk result (λ listing. listing ≡ map (spec.listed nodes.now) names.items) }
{
    let mut items = Vec::with_capacity(alloc, names.len())?;
    for (name, node) in names {
        let kind = kind_at(nodes, node);
        items.push(Listed { name, node, kind })?;
    }
    Ok(Listing::from_vec(items))
}
