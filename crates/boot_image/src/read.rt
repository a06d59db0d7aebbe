// Trees from images.
ghost use Rattle.boot_image.specs.Entries as format;
ghost use Rattle.boot_image.specs.Image.{Image, Remains, with_entry};
ghost use Rattle.boot_image.specs.Answers.{IsLeft, Means};
ghost use Rattle.boot_image.specs.NextItem.{seen};
ghost use Rattle.boot_image.specs.Progress.{IsBytes, Goes, Makes};

use crate::fault::ImageFault;
use crate::item::{Item, next};
use crate::paths::{plain_parts, without};
use byte_cursor::Cursor;
use file_tree::Tree;
use std::alloc::Global;

/// The number of the root.
const ROOT: u32 = 1;

/// Makes a directory of this path. `NotImage` comes exactly where the path isn't one that an image may have or the tree
/// refuses it.
#[tactic(auto, unfolding(crate::specs::Image::with_entry))]
pub fn make_directory(alloc: Global, tree: &mut Tree, path: &[u8]) -> Result<(), ImageFault>
    ensures { IsLeft (with_entry tree.old (record { path = path.now; content = format.Directory })) tree.new result }
{
    let Some(parts) = plain_parts(path) else {
        return Err(ImageFault::NotImage);
    };
    tree.mkdir(alloc, ROOT, &parts)?;
    Ok(())
}

/// Makes a file of this path with these bytes. `NotImage` comes exactly where the path isn't one that an image may have or
/// the tree refuses it or them.
#[tactic(auto, unfolding(crate::specs::Image::with_entry))]
pub fn make_file(
    alloc: Global,
    tree: &mut Tree,
    path: &[u8],
    bytes: &[u8],
) -> Result<(), ImageFault>
    ensures { IsLeft (with_entry tree.old (record { path = path.now; content = format.File bytes.now })) tree.new result }
{
    let Some(parts) = plain_parts(path) else {
        return Err(ImageFault::NotImage);
    };
    let node = tree.create(alloc, ROOT, &parts)?;
    tree.write_at(node, 0, bytes)?;
    Ok(())
}

/// What the reader took from an image.
#[derive(Clone, Copy, Debug)]
enum Progress {
    /// An entry was read, and the tree has what it gives.
    Entry,
    /// The end of the entries was read.
    Last,
}

// the tree with what an item gives
fn make(alloc: Global, tree: &mut Tree, item: Item<'_>) -> Result<Progress, ImageFault>
    ensures { Makes (seen item.entry) result tree.old tree.new }
{
    match item {
        Item::Last => return Ok(Progress::Last),
        Item::Directory(path) => make_directory(alloc, tree, path)?,
        Item::File(path, bytes) => make_file(alloc, tree, path, bytes)?,
        Item::Other => return Err(ImageFault::NotImage),
    }
    Ok(Progress::Entry)
}

// reads what stands next, and gives the tree what it says
#[tactic(auto, using(crate::proofs::Remaining::goes, crate::proofs::Remaining::none_where_fault))]
fn take_next(
    alloc: Global,
    tree: &mut Tree,
    cursor: &mut Cursor<'_>,
) -> Result<Progress, ImageFault>
    requires { IsBytes cursor.old }
    ensures { Goes result cursor.old tree.old cursor.new tree.new }
{
    let item = next(cursor)?;
    make(alloc, tree, item)
}

// the tree with what all entries give, from the bytes after the magic
#[tactic(auto, using(crate::proofs::Remaining::fault_means, crate::proofs::Remaining::last_means))]
fn fill(alloc: Global, tree: Tree, bytes: &[u8]) -> Result<Tree, ImageFault>
    ensures { Means (Remains bytes.now tree) result }
{
    let mut tree = tree;
    let mut cursor = Cursor::new(bytes);
    'entries: loop {
        match take_next(alloc, &mut tree, &mut cursor)? {
            Progress::Entry => {}
            Progress::Last => break 'entries,
        }
    }
    if cursor.is_empty() {
        Ok(tree)
    } else {
        Err(ImageFault::NotImage)
    }
}

/// The tree of an image. `NotImage` comes exactly where the bytes are no image, and `Memory` for out of memory. The bytes are
/// read once, and a file's bytes are copied once.
#[tactic(auto, using(crate::proofs::Remaining::image_means))]
pub fn read_image(alloc: Global, bytes: &[u8]) -> Result<Tree, ImageFault>
    ensures { Means (Image bytes.now) result }
{
    let Some(rest) = without(bytes, b"WXI1") else {
        return Err(ImageFault::NotImage);
    };
    fill(alloc, Tree::new(alloc)?, rest)
}
