// The walk of a path, which every call shares.
ghost use Rattle.std.specs.Prelude.{◌≡◌, true, None, Ok, Err, IfOk, MatchResult};
ghost use Rattle.tree_nodes.specs.Nodes.{is_free};
ghost use Rattle.file_tree.specs.FileTree as tree;
ghost use Rattle.file_tree.specs.Walk as spec;
ghost use Rattle.path_walk.specs.Paths.{AreParts};

use crate::place::Place;
use path_walk::Parts;
use tree_nodes::{Content, Names, Nodes};
use wx_types::Errno;

/// The number of the root.
pub const ROOT: u32 = 1;

/// The content of a node; `Noent` where it isn't there.
pub fn content_at(nodes: &Nodes, number: u32) -> Result<&Content, Errno>
    ensures { MatchResult result (λ content. spec.content_at nodes.now number ≡ Ok content.now) (λ error. spec.content_at nodes.now number ≡ Err error) }
{
    match nodes.get(number) {
        Some(node) => Ok(&node.content),
        None => Err(Errno::Noent),
    }
}

/// The names of a directory; `Noent` where it isn't there, `Notdir` where it is a file.
pub fn names_at(nodes: &Nodes, number: u32) -> Result<&Names, Errno>
    ensures { MatchResult result (λ names. spec.names_at nodes.now number ≡ Ok names.now) (λ error. spec.names_at nodes.now number ≡ Err error) }
{
    match content_at(nodes, number)? {
        Content::File(_) => Err(Errno::Notdir),
        Content::Dir(names) => Ok(names),
    }
}

/// The directory that names a node, `None` where it was removed or isn't there.
pub fn parent_of(nodes: &Nodes, number: u32) -> Option<u32>
    ensures { result ≡ tree.parent_of nodes.now number }
{
    match nodes.get(number) {
        Some(node) => node.parent,
        None => None,
    }
}

/// Whether a directory names the node, or it is the root.
pub fn is_linked(nodes: &Nodes, number: u32) -> bool
    ensures { result ≡ tree.is_linked nodes.now number }
{
    match nodes.get(number) {
        Some(node) => node.parent.is_some(),
        None => false,
    }
}

// One component, taken in a directory.
fn step(nodes: &Nodes, dir: u32, name: &[u8]) -> Result<Place, Errno>
    ensures place { result ≡ spec.step nodes.now dir name.now }
    ensures free { IfOk result (λ place. place.node ≡ None → is_free nodes.now place.dir name.now ≡ true) }
{
    let names = names_at(nodes, dir)?;
    if name == b"..".as_slice() {
        match parent_of(nodes, dir) {
            Some(parent) => Ok(Place {
                dir: parent,
                node: Some(parent),
            }),
            None => Err(Errno::Noent),
        }
    } else {
        Ok(Place {
            dir,
            node: names.get(name),
        })
    }
}

// The components of a path in turn, from a directory.
fn walk_names(nodes: &Nodes, from: u32, path: &Parts<'_>) -> Result<Place, Errno>
    ensures place { result ≡ spec.walk_on nodes.now (spec.place_itself from) path.now.names }
    ensures free { IfOk result (λ place. place.node ≡ None → is_free nodes.now place.dir (spec.last_name path.now) ≡ true) }
{
    let mut place = Place {
        dir: from,
        node: Some(from),
    };
    for index in 0..path.len() {
        let Some(dir) = place.node else {
            return Err(Errno::Noent);
        };
        place = step(nodes, dir, path.name(index))?;
    }
    Ok(place)
}

/// The walk of a path: from the root where it is absolute, else from the directory `from`.
pub fn walk(nodes: &Nodes, from: u32, path: &Parts<'_>) -> Result<Place, Errno>
    ensures place { result ≡ spec.walk nodes.now from path.now }
    ensures free { IfOk result (λ place. place.node ≡ None → is_free nodes.now place.dir (spec.last_name path.now) ≡ true) }
    ensures parts { AreParts path.now }
{
    path.are_parts();
    let start = if path.absolute() { ROOT } else { from };
    let place = walk_names(nodes, start, path)?;
    if path.must_dir()
        && let Some(number) = place.node
    {
        let _ = names_at(nodes, number)?;
    }
    Ok(place)
}

/// The last component of a path, none where it has no component.
pub fn last_name<'a>(path: &Parts<'a>) -> &'a [u8]
    ensures { result.now ≡ spec.last_name path.now }
{
    match path.len() {
        0 => b"".as_slice(),
        len => path.name(len - 1),
    }
}

/// Whether the path is the root, or its last component is `.` or `..`.
pub fn names_no_entry(path: &Parts<'_>) -> bool
    ensures { result ≡ spec.names_no_entry path.now }
{
    path.last_dot() || path.len() == 0
}
