// The tree of a list.
ghost use Rattle.std.specs.Prelude.{◌≡◌, ◌≤◌, [], length, unwrap_or};
ghost use Rattle.std.specs.Option.{option_copied};
ghost use Rattle.pack_list.specs.Judging.{judge, judge_line, judge_lines, made_of};
ghost use Rattle.pack_list.specs.Lines.{lines};
ghost use Rattle.pack_list.specs.Cuts as cuts;
ghost use Rattle.pack_list.specs.Answers.{Judges, JudgesLine, TakesLine};
ghost use Rattle.pack_list.specs.Made.{Makes};

use crate::fault::ListFault;
use crate::lines::{Line, cut, line_of};
use boot_image::plain_parts;
use file_tree::Tree;
use std::alloc::Global;
use wx_types::Refusal;

/// The number of the root.
const ROOT: u32 = 1;

/// A file whose bytes are those of a named file.
#[derive(Clone, Copy, Debug)]
pub struct Named<'a> {
    /// The number of its line, from 1.
    pub line: u32,
    /// The number of its node in the tree.
    pub node: u32,
    /// The name of the file that has its bytes.
    pub name: &'a str,
}

/// The tree of a list.
#[derive(Drop)]
pub struct PackList<'a> {
    /// The tree, in which all files are empty.
    pub tree: Tree,
    /// Which bytes the files get, in the order of the lines.
    pub files: Vec<Named<'a>>,
}

/// Why a line gave nothing.
#[derive(Clone, Copy, Debug)]
enum LineFault {
    /// It is wrong.
    Wrong,
    /// Out of memory.
    Memory,
}

// makes what a line says, and gives its node
fn make(alloc: Global, tree: &mut Tree, line: Line<'_>) -> Result<u32, LineFault>
    ensures { Makes (made_of tree.old (cuts.seen line.entry)) result tree.new }
{
    let path = match line {
        Line::Directory(path) | Line::File(path, _) => path,
    };
    let Some(parts) = plain_parts(path) else {
        return Err(LineFault::Wrong);
    };
    let made = match line {
        Line::Directory(_) => tree.mkdir(alloc, ROOT, &parts),
        Line::File(_, _) => tree.create(alloc, ROOT, &parts),
    };
    match made {
        Ok(node) => Ok(node),
        Err(Refusal::Errno(_)) => Err(LineFault::Wrong),
        Err(Refusal::Memory) => Err(LineFault::Memory),
    }
}

// makes what a line says, and gives the file whose bytes it names, if any
#[tactic(auto, unfolding(crate::specs::Judging::judge_line))]
fn judge_line<'a>(
    alloc: Global,
    number: u32,
    tree: &mut Tree,
    line: &'a [u8],
) -> Result<Option<Named<'a>>, LineFault>
    ensures { JudgesLine (judge_line number tree.old line.now) result tree.new }
{
    let Some(said) = line_of(line) else {
        return Err(LineFault::Wrong);
    };
    let node = match make(alloc, tree, said) {
        Ok(node) => node,
        Err(fault) => return Err(fault),
    };
    match said {
        Line::Directory(_) => Ok(None),
        Line::File(_, name) => Ok(Some(Named {
            line: number,
            node,
            name,
        })),
    }
}

// makes what a line says, and puts the file whose bytes it names, if any, behind the others
#[tactic(auto, using(crate::proofs::JudgeLemmas::line_fault_taken))]
fn take_line<'a>(
    alloc: Global,
    number: u32,
    tree: &mut Tree,
    line: &'a [u8],
    files: &mut Vec<Named<'a>>,
) -> Result<(), LineFault>
    ensures { TakesLine (judge_line number tree.old line.now) result tree.new files.old.items files.new.items }
{
    match judge_line(alloc, number, tree, line) {
        Ok(None) => Ok(()),
        Ok(Some(named)) => match files.push(named) {
            Ok(()) => Ok(()),
            Err(_) => Err(LineFault::Memory),
        },
        Err(fault) => Err(fault),
    }
}

// what stands behind a line, nothing where it is the last
fn rest_of(more: Option<&[u8]>) -> &[u8]
    ensures { result.now ≡ unwrap_or (option_copied more.entry) [] }
{
    match more {
        Some(rest) => rest,
        None => &[],
    }
}

// the lines one after another, from the root alone
#[tactic(auto, using(crate::proofs::JudgeLemmas::wrong_line, crate::proofs::JudgeLemmas::no_more))]
fn judge_lines<'a>(alloc: Global, tree: Tree, text: &'a [u8]) -> Result<PackList<'a>, ListFault>
    requires { length text.now ≤ 1048576 }
    ensures { Judges (judge_lines 1 tree (lines text.now)) result }
{
    let mut tree = tree;
    let mut files = Vec::new(alloc);
    let mut rest = text;
    let mut number = 1u32;
    'lines: while !rest.is_empty() {
        let (line, more) = cut(rest, b'\n');
        match take_line(alloc, number, &mut tree, line, &mut files) {
            Ok(()) => {}
            Err(LineFault::Wrong) => return Err(ListFault::Wrong(number)),
            Err(LineFault::Memory) => return Err(ListFault::Memory),
        }
        rest = rest_of(more);
        number += 1;
    }
    Ok(PackList { tree, files })
}

/// The tree of a list, in which all files are empty, and the names of their bytes. A list has at most 1,048,576
/// bytes. `Wrong` comes exactly for the first line that is wrong: one that is neither `dir PATH` nor `file PATH
/// NAME`, whose path is none that an image may have, or that the tree refuses. `Memory` is out of memory.
#[tactic(auto, unfolding(crate::specs::Judging::judge))]
pub fn judge(alloc: Global, text: &[u8]) -> Result<PackList<'_>, ListFault>
    requires { length text.now ≤ 1048576 }
    ensures { Judges (judge text.now) result }
{
    match Tree::new(alloc) {
        Ok(tree) => judge_lines(alloc, tree, text),
        Err(_) => Err(ListFault::Memory),
    }
}
