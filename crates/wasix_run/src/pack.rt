// The image of a list's tree.
ghost use Rattle.std.specs.Prelude.{◌≡◌, ◌≤◌, ◌<◌, ℕ, List, map, length, slice_get, IfErr, OnOk, Some};
ghost use Rattle.wx_types.specs.Files.{Files};
ghost use Rattle.pack_list.specs.Answers.{seen};
ghost use Rattle.wasix_run.specs.Packing.{filled, pack_verdict, list_judged};
ghost use Rattle.pack_list.specs.Judging.{judge};
ghost use Rattle.wasix_run.specs.Loading.{Counts, PutAs, FilledAs, WritesAs, list_fault};

use crate::file_fault::{FileFault, read};
use boot_image::write_image;
use file_tree::Tree;
use pack_list::{ListFault, Named, judge};
use std::alloc::Global;
use wx_types::{Bytes, Refusal, Shelf};

/// A list has at most so many bytes.
pub const LIST_LIMIT: u64 = 1_048_576;

/// A file that a list names has at most so many bytes.
pub const FILE_LIMIT: u64 = 67_108_864;

// puts a file's bytes into its node
fn put<H: Shelf>(
    alloc: Global,
    shelf: &mut H,
    tree: &mut Tree,
    file: &Named<'_>,
) -> Result<(), FileFault>
    ensures told { (files : Files) → H.held shelf.old ≡ Some files → PutAs files (seen file.now) tree.old tree.new result }
    ensures kept { H.held shelf.new ≡ H.held shelf.old }
    ensures never_falls { H.faults shelf.old ≤ H.faults shelf.new }
    ensures no_fault { OnOk result (H.faults shelf.new ≡ H.faults shelf.old) }
    ensures fault { IfErr result (λ fault. Counts fault (H.faults shelf.old) (H.faults shelf.new)) }
{
    let bytes = match read(alloc, shelf, file.name, FILE_LIMIT) {
        Ok(bytes) => bytes,
        Err(fault) => return Err(fault),
    };
    match tree.write_at(file.node, 0, bytes.as_slice()) {
        Ok(()) => Ok(()),
        Err(Refusal::Errno(_)) => Err(FileFault::List { line: file.line }),
        Err(Refusal::Memory) => Err(FileFault::Memory),
    }
}

// the file at a place of the list
fn named_at<'a>(files: &[Named<'a>], index: usize) -> Named<'a>
    requires { index < length files.now }
    ensures { slice_get files.now index ≡ Some result }
{
    files[index]
}

// the tree with the bytes of all its files
fn fill<H: Shelf>(
    alloc: Global,
    shelf: &mut H,
    tree: Tree,
    files: &[Named<'_>],
) -> Result<Tree, FileFault>
    ensures told { (held : Files) (out : List ℕ) → H.held shelf.old ≡ Some held → FilledAs out (filled held out tree (map seen files.now)) result }
    ensures kept { H.held shelf.new ≡ H.held shelf.old }
    ensures never_falls { H.faults shelf.old ≤ H.faults shelf.new }
    ensures no_fault { OnOk result (H.faults shelf.new ≡ H.faults shelf.old) }
    ensures fault { IfErr result (λ fault. Counts fault (H.faults shelf.old) (H.faults shelf.new)) }
{
    let mut tree = tree;
    'files: for index in 0..files.len() {
        let file = named_at(files, index);
        match put(alloc, shelf, &mut tree, &file) {
            Ok(()) => {}
            Err(fault) => return Err(fault),
        }
    }
    Ok(tree)
}

// why a list was refused
fn list_fault(fault: ListFault) -> FileFault
    ensures { result ≡ list_fault fault }
{
    match fault {
        ListFault::Wrong(line) => FileFault::List { line },
        ListFault::Memory => FileFault::Memory,
    }
}

// the tree of a list, with the bytes of all its files
fn tree_of_list<H: Shelf>(alloc: Global, shelf: &mut H, text: &[u8]) -> Result<Tree, FileFault>
    requires { length text.now ≤ LIST_LIMIT }
    ensures told { (files : Files) (out : List ℕ) → H.held shelf.old ≡ Some files → FilledAs out (list_judged files out (judge text.now)) result }
    ensures kept { H.held shelf.new ≡ H.held shelf.old }
    ensures never_falls { H.faults shelf.old ≤ H.faults shelf.new }
    ensures no_fault { OnOk result (H.faults shelf.new ≡ H.faults shelf.old) }
    ensures fault { IfErr result (λ fault. Counts fault (H.faults shelf.old) (H.faults shelf.new)) }
{
    match judge(alloc, text) {
        Ok(judged) => fill(alloc, shelf, judged.tree, judged.files.as_slice()),
        Err(fault) => Err(list_fault(fault)),
    }
}

/// The bytes of the image of a list's tree. The refusals are tested in the order of the list's read and length, its first wrong line, and
/// then the files in the order of the lines: each one's read and length, and whether its bytes have room in the tree.
pub fn image_bytes<H: Shelf>(alloc: Global, shelf: &mut H, list: &str) -> Result<Bytes, FileFault>
    ensures told { (files : Files) (out : List ℕ) → H.held shelf.old ≡ Some files → WritesAs out (pack_verdict files list.now out) result }
    ensures kept { H.held shelf.new ≡ H.held shelf.old }
    ensures never_falls { H.faults shelf.old ≤ H.faults shelf.new }
    ensures no_fault { OnOk result (H.faults shelf.new ≡ H.faults shelf.old) }
    ensures fault { IfErr result (λ fault. Counts fault (H.faults shelf.old) (H.faults shelf.new)) }
{
    let text = match read(alloc, shelf, list, LIST_LIMIT) {
        Ok(text) => text,
        Err(fault) => return Err(fault),
    };
    let tree = match tree_of_list(alloc, shelf, text.as_slice()) {
        Ok(tree) => tree,
        Err(fault) => return Err(fault),
    };
    match write_image(alloc, &tree) {
        Ok(image) => Ok(image),
        Err(_) => Err(FileFault::Memory),
    }
}
