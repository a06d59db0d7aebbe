// Images of trees.
ghost use Rattle.std.specs.Prelude.{◌≡◌, ◌↔◌, ◌<◌, ◌^◌, ◌++◌, ◌∷◌, [], ℕ, List, length, map, OnOk, IfOk, Some};
ghost use Rattle.std.specs.FinMap.{entries};
ghost use Rattle.std.specs.Int.{w16, w32, to_le_bytes};
ghost use Rattle.std.specs.List.{flat_map};
ghost use Rattle.boot_image.specs.Entries.{path_bytes, file_bytes, bytes_of, File, Directory};
ghost use Rattle.boot_image.specs.Same.{ShortPaths, ReadsBack};
ghost use Rattle.boot_image.specs.Written.{below, with_paths, paths_of, path_in, first_bytes, content_of, image_of};

use crate::found::FoundPaths;
use file_tree::Tree;
use std::alloc::{AllocError, Global};
use tree_nodes::Name;
use wx_types::{Bytes, NodeKind, Refusal};

/// The number of the root.
const ROOT: u32 = 1;

/// A path has at most so many names.
const LEVELS: u32 = 512;

// the path of a name in the directory of this path
fn path_in(alloc: Global, path: &[u8], name: &[u8]) -> Result<Name, AllocError>
    ensures { IfOk result (λ child. child ≡ path_in path.now name.now) }
{
    let mut child = Vec::from_slice(alloc, path)?;
    child.push(b'/')?;
    child.extend_from_slice(name)?;
    Name::new(alloc, child.as_slice())
}

// puts the paths below a directory, through at most so many directories, to those that were found
#[tactic(auto, using(crate::proofs::PathsOf::all_found), unfolding(crate::specs::Written::below, crate::specs::Written::with_paths))]
fn find_below(
    alloc: Global,
    tree: &Tree,
    levels: u32,
    path: &[u8],
    dir: u32,
    found: &mut FoundPaths,
) -> Result<(), AllocError>
    ensures { OnOk result (found.new ≡ with_paths found.old (below levels tree.now path.now dir)) }
{
    if levels == 0 {
        return Ok(());
    }
    let listing = match tree.list(alloc, dir) {
        Ok(listing) => listing,
        Err(Refusal::Errno(_)) => return Ok(()),
        Err(Refusal::Memory) => return Err(AllocError),
    };
    for listed in listing.as_slice() {
        let child = path_in(alloc, path, listed.name.as_slice())?;
        let inside = path_in(alloc, path, listed.name.as_slice())?;
        found.insert(child, listed.node)?;
        find_below(
            alloc,
            tree,
            levels - 1,
            inside.as_slice(),
            listed.node,
            found,
        )?;
    }
    Ok(())
}

// all paths of the tree
#[tactic(auto, unfolding(crate::specs::Written::paths_of))]
fn find_all(alloc: Global, tree: &Tree) -> Result<FoundPaths, AllocError>
    ensures { IfOk result (λ found. found ≡ paths_of tree.now) }
{
    let mut found = FoundPaths::new(alloc);
    find_below(alloc, tree, LEVELS, b"", ROOT, &mut found)?;
    Ok(found)
}

// a path behind its length
fn put_path(out: &mut Vec<u8>, path: &[u8]) -> Result<(), AllocError>
    ensures { OnOk result (out.new.items ≡ out.old.items ++ path_bytes path.now) }
{
    let [low, high, ..] = path.len().to_le_bytes();
    out.push(low)?;
    out.push(high)?;
    out.extend_from_slice(path)?;
    Ok(())
}

// a file's bytes behind their number
fn put_file(out: &mut Vec<u8>, bytes: &[u8]) -> Result<(), AllocError>
    ensures { OnOk result (out.new.items ≡ out.old.items ++ file_bytes bytes.now) }
{
    let [first, second, third, fourth, ..] = bytes.len().to_le_bytes();
    out.push(first)?;
    out.push(second)?;
    out.push(third)?;
    out.push(fourth)?;
    out.extend_from_slice(bytes)?;
    Ok(())
}

// a file's bytes, of which there are so many
fn bytes_of_file(alloc: Global, tree: &Tree, node: u32, size: u64) -> Result<Vec<u8>, AllocError>
    ensures { IfOk result (λ bytes. bytes.items ≡ first_bytes tree.now node size) }
{
    let mut bytes = vec![in alloc; 0u8; size as usize]?;
    match tree.read_at(node, 0, &mut bytes) {
        Ok(count) => bytes.truncate(count),
        Err(_) => bytes.clear(),
    }
    Ok(bytes)
}

// the entry of a file
fn put_file_entry(out: &mut Vec<u8>, path: &[u8], bytes: &[u8]) -> Result<(), AllocError>
    ensures { OnOk result (out.new.items ≡ out.old.items ++ bytes_of path.now (File bytes.now)) }
{
    out.push(2)?;
    put_path(out, path)?;
    put_file(out, bytes)?;
    Ok(())
}

// the entry of a directory
fn put_directory_entry(out: &mut Vec<u8>, path: &[u8]) -> Result<(), AllocError>
    ensures { OnOk result (out.new.items ≡ out.old.items ++ bytes_of path.now Directory) }
{
    out.push(1)?;
    put_path(out, path)?;
    Ok(())
}

// the entry of a node's path
#[tactic(auto, unfolding(crate::specs::Written::content_of))]
fn put_entry(
    alloc: Global,
    out: &mut Vec<u8>,
    tree: &Tree,
    path: &[u8],
    node: u32,
) -> Result<(), AllocError>
    ensures { OnOk result (out.new.items ≡ out.old.items ++ bytes_of path.now (content_of tree.now node)) }
{
    let Some(stat) = tree.stat(node) else {
        return put_directory_entry(out, path);
    };
    match stat.kind {
        NodeKind::File => {
            let bytes = bytes_of_file(alloc, tree, node, stat.size)?;
            put_file_entry(out, path, bytes.as_slice())
        }
        NodeKind::Dir => put_directory_entry(out, path),
    }
}

/// The image of a tree: an entry for each path but the root's, in the order of the bytes of the paths. Exactly where no path
/// has more than 1,024 bytes, the bytes are an image of a tree with the same paths, kinds and contents, which `read_image` gives
/// for them; a longer path, as moved directories may make, is none that an image can have. `AllocError` is out of memory and
/// nothing else.
pub fn write_image(alloc: Global, tree: &Tree) -> Result<Bytes, AllocError>
    ensures image { IfOk result (λ bytes. bytes ≡ image_of tree.now) }
    ensures read { IfOk result (λ bytes. ShortPaths tree.now ↔ ReadsBack bytes tree.now) }
{
    tree.is_tree();
    let mut found = find_all(alloc, tree)?;
    let mut out = Vec::from_slice(alloc, b"WXI1")?;
    while let Some((path, node)) = found.take_first() {
        put_entry(alloc, &mut out, tree, path.as_slice(), node)?;
    }
    out.push(0)?;
    Ok(Bytes::from_vec(out))
}
