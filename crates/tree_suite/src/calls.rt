//! The calls that the lines of the script make.

use super::answer::Answer;
use super::words::{bytes, number, wide};
use anyhow::Result;
use file_tree::{Listing, Tree};
use path_walk::{Parts, split};
use std::alloc::{AllocError, Global};
use std::fmt::Write;
use wx_types::{Errno, NodeKind, Refusal};

// A name as text.
fn text_of(name: &[u8]) -> &str {
    match std::str::from_utf8(name) {
        Ok(text) => text,
        Err(_) => "?",
    }
}

// `file` or `dir`.
fn kind_text(kind: NodeKind) -> &'static str {
    match kind {
        NodeKind::File => "file",
        NodeKind::Dir => "dir",
    }
}

// What a path says: `/` where it begins at the root, its components, `!` where it must be a directory, `.` where
// it ends with one of the dots.
fn parts_text(alloc: Global, parts: &Parts<'_>) -> Result<String, AllocError> {
    let mut out = String::new(alloc);
    if parts.absolute() {
        out.push_str("/ ")?;
    }
    for index in 0..parts.len() {
        out.push_str(text_of(parts.name(index)))?;
        out.push_str(" ")?;
    }
    if parts.must_dir() {
        out.push_str("! ")?;
    }
    if parts.last_dot() {
        out.push_str(". ")?;
    }
    out.push_str("end")?;
    Ok(out)
}

// The names of a directory with their nodes and kinds.
fn listing_text(alloc: Global, listing: &Listing) -> Result<String, AllocError> {
    let mut out = String::new(alloc);
    for listed in listing.as_slice() {
        out.push_str(text_of(listed.name.as_slice()))?;
        let (node, kind) = (listed.node, kind_text(listed.kind));
        let rest = format!(in alloc; " {node} {kind}, ")?;
        out.push_str(rest.as_str())?;
    }
    out.push_str("end")?;
    Ok(out)
}

// The call of that name on a path.
fn on_path(
    alloc: Global,
    tree: &mut Tree,
    name: &str,
    from: u32,
    path: &Parts<'_>,
) -> Option<Answer> {
    Some(match name {
        "lookup" => Answer::of_node(
            tree.lookup(from, path)
                .map_err(|error| Refusal::Errno(error)),
        ),
        "find" => match tree.find(from, path) {
            Ok(Some(node)) => Answer::Number(u64::from(node)),
            Ok(None) => Answer::Free,
            Err(error) => Answer::Refused(error),
        },
        "create" => Answer::of_node(tree.create(alloc, from, path)),
        "mkdir" => Answer::of_node(tree.mkdir(alloc, from, path)),
        "unlink" => Answer::of_nothing(
            tree.unlink(from, path)
                .map_err(|error| Refusal::Errno(error)),
        ),
        "rmdir" => Answer::of_nothing(
            tree.rmdir(from, path)
                .map_err(|error| Refusal::Errno(error)),
        ),
        _ => return None,
    })
}

// `NAME FROM PATH`.
fn path_call(alloc: Global, tree: &mut Tree, name: &str, words: &[&str]) -> Result<Option<Answer>> {
    let (Some(from), Some(word)) = (number(words.get(1)), words.get(2)) else {
        return Ok(None);
    };
    let path = bytes(alloc, *word)?;
    match split(path.as_slice()) {
        Ok(parts) => Ok(on_path(alloc, tree, name, from, &parts)),
        Err(error) => Ok(Some(Answer::Refused(error))),
    }
}

// `split PATH`.
fn split_call(alloc: Global, words: &[&str]) -> Result<Option<Answer>> {
    let Some(word) = words.get(1) else {
        return Ok(None);
    };
    let path = bytes(alloc, *word)?;
    match split(path.as_slice()) {
        Ok(parts) => Ok(Some(Answer::Text(parts_text(alloc, &parts)?))),
        Err(error) => Ok(Some(Answer::Refused(error))),
    }
}

// `rename FROM PATH TO PATH`.
fn rename_call(alloc: Global, tree: &mut Tree, words: &[&str]) -> Result<Option<Answer>> {
    let (Some(from), Some(to)) = (number(words.get(1)), number(words.get(3))) else {
        return Ok(None);
    };
    let (Some(old), Some(new)) = (words.get(2), words.get(4)) else {
        return Ok(None);
    };
    let old = bytes(alloc, *old)?;
    let new = bytes(alloc, *new)?;
    let old = match split(old.as_slice()) {
        Ok(parts) => parts,
        Err(error) => return Ok(Some(Answer::Refused(error))),
    };
    match split(new.as_slice()) {
        Ok(new) => Ok(Some(Answer::of_nothing(tree.rename(alloc, from, &old, to, &new)))),
        Err(error) => Ok(Some(Answer::Refused(error))),
    }
}

// `write NODE OFFSET BYTES`, `size NODE SIZE`, `read NODE OFFSET LENGTH`.
fn file_call(alloc: Global, tree: &mut Tree, name: &str, words: &[&str]) -> Result<Option<Answer>> {
    let (Some(node), Some(at)) = (number(words.get(1)), wide(words.get(2))) else {
        return Ok(None);
    };
    match name {
        "size" => Ok(Some(Answer::of_nothing(tree.set_size(node, at)))),
        "write" => match words.get(3) {
            Some(word) => {
                let data = bytes(alloc, *word)?;
                Ok(Some(Answer::of_nothing(tree.write_at(node, at, data.as_slice()))))
            }
            None => Ok(None),
        },
        "read" => match number(words.get(3)) {
            Some(length) => Ok(Some(read_call(alloc, tree, node, at, length as usize)?)),
            None => Ok(None),
        },
        _ => Ok(None),
    }
}

// The bytes of a file in hexadecimal.
fn read_call(
    alloc: Global,
    tree: &Tree,
    node: u32,
    at: u64,
    length: usize,
) -> Result<Answer, AllocError> {
    let mut buffer = vec![in alloc; 0u8; length]?;
    match tree.read_at(node, at, buffer.as_mut_slice()) {
        Ok(count) => {
            buffer.truncate(count);
            let mut out = String::new(alloc);
            for byte in &buffer {
                let digits = format!(in alloc; "{byte:02x} ")?;
                out.push_str(digits.as_str())?;
            }
            out.push_str("end")?;
            Ok(Answer::Text(out))
        }
        Err(error) => Ok(Answer::Refused(error)),
    }
}

// `list NODE`, `stat NODE`, `path NODE`, `hold NODE`, `release NODE`.
fn node_call(alloc: Global, tree: &mut Tree, name: &str, words: &[&str]) -> Result<Option<Answer>> {
    let Some(node) = number(words.get(1)) else {
        return Ok(None);
    };
    Ok(Some(match name {
        "list" => match tree.list(alloc, node) {
            Ok(listing) => Answer::Text(listing_text(alloc, &listing)?),
            Err(refusal) => Answer::of_refusal(refusal),
        },
        "stat" => match tree.stat(node) {
            Some(stat) => {
                let (kind, size, linked) = (kind_text(stat.kind), stat.size, stat.linked);
                Answer::Text(format!(in alloc; "{kind} {size} {linked}")?)
            }
            None => Answer::Text(format!(in alloc; "none")?),
        },
        "path" => match tree.path_of(alloc, node) {
            Ok(path) => Answer::Text(format!(in alloc; "{}", text_of(path.as_slice()))?),
            Err(refusal) => Answer::of_refusal(refusal),
        },
        "hold" => hold_call(tree, node),
        "release" => release_call(tree, node),
        _ => return Ok(None),
    }))
}

// One more holds the node: how many do then.
fn hold_call(tree: &mut Tree, node: u32) -> Answer {
    if tree.stat(node).is_none() || tree.holds(node) == u32::MAX {
        return Answer::Free;
    }
    tree.hold(node);
    Answer::Number(u64::from(tree.holds(node)))
}

// One fewer holds the node: how many do then.
fn release_call(tree: &mut Tree, node: u32) -> Answer {
    if tree.holds(node) == 0 {
        return Answer::Free;
    }
    tree.release(node);
    Answer::Number(u64::from(tree.holds(node)))
}

// `fill FROM COUNT`: so many new files; how many were made, and why no more.
fn fill_call(alloc: Global, tree: &mut Tree, words: &[&str]) -> Result<Option<Answer>> {
    let (Some(from), Some(count)) = (number(words.get(1)), number(words.get(2))) else {
        return Ok(None);
    };
    for index in 0..count {
        let name = format!(in alloc; "f{index}")?;
        let made = match split(name.as_bytes()) {
            Ok(parts) => tree.create(alloc, from, &parts),
            Err(error) => Err(Refusal::Errno(error)),
        };
        if let Err(refusal) = made {
            let why = Answer::of_refusal(refusal);
            return Ok(Some(Answer::Text(format!(in alloc; "{index}, then {why}")?)));
        }
    }
    Ok(Some(Answer::Number(u64::from(count))))
}

// `deep FROM COUNT`: so many directories, each in the one before; the number of the last.
fn deep_call(alloc: Global, tree: &mut Tree, words: &[&str]) -> Result<Option<Answer>> {
    let (Some(from), Some(count)) = (number(words.get(1)), number(words.get(2))) else {
        return Ok(None);
    };
    let mut dir = from;
    for _ in 0..count {
        match split(b"d".as_slice()) {
            Ok(parts) => match tree.mkdir(alloc, dir, &parts) {
                Ok(node) => dir = node,
                Err(refusal) => return Ok(Some(Answer::of_refusal(refusal))),
            },
            Err(error) => return Ok(Some(Answer::Refused(error))),
        }
    }
    Ok(Some(Answer::Number(u64::from(dir))))
}

// The call that a line names, if it is one.
fn call(alloc: Global, tree: &mut Tree, name: &str, words: &[&str]) -> Result<Option<Answer>> {
    match name {
        "split" => split_call(alloc, words),
        "lookup" | "find" | "create" | "mkdir" | "unlink" | "rmdir" => {
            path_call(alloc, tree, name, words)
        }
        "rename" => rename_call(alloc, tree, words),
        "write" | "size" | "read" => file_call(alloc, tree, name, words),
        "fill" => fill_call(alloc, tree, words),
        "deep" => deep_call(alloc, tree, words),
        _ => node_call(alloc, tree, name, words),
    }
}

/// What the call of a line answers.
pub fn answer(alloc: Global, tree: &mut Tree, line: &str) -> Result<Answer> {
    let words: Vec<&str> = line.split_whitespace().collect(alloc)?;
    let Some(name) = words.first() else {
        return Err(anyhow::anyhow!("an empty line"));
    };
    match call(alloc, tree, *name, words.as_slice())? {
        Some(answer) => Ok(answer),
        None => Err(anyhow::anyhow!("no such call")),
    }
}
