//! The suite of images and pack lists: for each case of the file that is named, a line that says what comes of it. The cases
//! in `data/cases.txt` and the lines that are expected of them come from `make_cases.py` beside this folder, which has the
//! rules of the two formats and nothing of this project's code.
#![tactic(auto)]

use anyhow::Result;
use boot_image::{ImageFault, read_image, write_image};
use file_tree::Tree;
use pack_list::{ListFault, judge};
use std::alloc::{AllocError, Global};
use std::rt::{Env, Files};
use std::{env, fs};

/// The most bytes of a list.
const LIST_LIMIT: usize = 1_048_576;

/// What comes of bytes.
#[derive(Debug, Drop)]
enum Found {
    /// The image of the tree, in hexadecimal digits, or the count of its bytes where they are many.
    Image(String),
    Count(usize),
    NotImage,
    /// A list's first wrong line.
    Wrong(u32),
    NoList,
    Memory,
}

// what is written of a tree
fn written(alloc: Global, tree: &Tree) -> Result<Found, AllocError> {
    let image = write_image(alloc, tree)?;
    if image.len() > 4096 {
        return Ok(Found::Count(image.len()));
    }
    Ok(Found::Image(hex::encode(alloc, image.as_slice())?))
}

fn image(alloc: Global, bytes: &[u8]) -> Result<Found, AllocError> {
    match read_image(alloc, bytes) {
        Ok(tree) => written(alloc, &tree),
        Err(ImageFault::NotImage) => Ok(Found::NotImage),
        Err(ImageFault::Memory) => Ok(Found::Memory),
    }
}

fn list(alloc: Global, text: &[u8]) -> Result<Found, AllocError> {
    if text.len() > LIST_LIMIT {
        return Ok(Found::NoList);
    }
    match judge(alloc, text) {
        Ok(judged) => written(alloc, &judged.tree),
        Err(ListFault::Wrong(line)) => Ok(Found::Wrong(line)),
        Err(ListFault::Memory) => Ok(Found::Memory),
    }
}

// so many directories, each in the one before
fn put_deep(bytes: &mut Vec<u8>, count: u32) -> Result<()> {
    let mut path = Vec::new(*bytes.allocator());
    for _ in 0..count {
        path.extend_from_slice(b"/a")?;
        bytes.push(1)?;
        bytes.extend_from_slice(&u16::try_from(path.len())?.to_le_bytes())?;
        bytes.extend_from_slice(path.as_slice())?;
    }
    Ok(())
}

// a front, five digits of a number and a rest, for so many numbers from 0 on
fn put_numbered(bytes: &mut Vec<u8>, front: &[u8], count: u32, rest: &[u8]) -> Result<()> {
    let alloc = *bytes.allocator();
    for number in 0..count {
        bytes.extend_from_slice(front)?;
        let digits = format!(in alloc; "{number:05}")?;
        bytes.extend_from_slice(digits.as_bytes())?;
        bytes.extend_from_slice(rest)?;
    }
    Ok(())
}

// hexadecimal digits, `DIGITS*COUNT`, `DIGITS%COUNT%DIGITS` or `^COUNT`
fn put_part(bytes: &mut Vec<u8>, part: &str) -> Result<()> {
    let alloc = *bytes.allocator();
    if let Some(count) = part.strip_prefix("^") {
        return put_deep(bytes, count.parse::<u32>()?);
    }
    if let Some((front, more)) = part.split_once('%') {
        let Some((count, rest)) = more.split_once('%') else {
            return Err(anyhow::anyhow!("no rest"));
        };
        let front = hex::decode(alloc, front)?;
        let rest = hex::decode(alloc, rest)?;
        return put_numbered(
            bytes,
            front.as_slice(),
            count.parse::<u32>()?,
            rest.as_slice(),
        );
    }
    let (digits, count) = match part.split_once('*') {
        Some((digits, count)) => (digits, count.parse::<u32>()?),
        None => (part, 1),
    };
    let piece = hex::decode(alloc, digits)?;
    for _ in 0..count {
        bytes.extend_from_slice(piece.as_slice())?;
    }
    Ok(())
}

// the bytes that the parts stand for
fn spelled(alloc: Global, parts: &str) -> Result<Vec<u8>> {
    let mut bytes = Vec::new(alloc);
    for part in parts.split(' ') {
        put_part(&mut bytes, part)?;
    }
    Ok(bytes)
}

fn come_of(alloc: Global, kind: &str, bytes: &[u8]) -> Result<Found, AllocError> {
    if kind == "list" {
        list(alloc, bytes)
    } else {
        image(alloc, bytes)
    }
}

fn print_case(rt: &(impl Print + AllocGlobal), line: &str) -> Result<()> {
    let Some((name, rest)) = line.split_once(": ") else {
        return Err(anyhow::anyhow!("no case"));
    };
    let Some((kind, parts)) = rest.split_once(' ') else {
        return Err(anyhow::anyhow!("no kind"));
    };
    let bytes = spelled(rt.alloc(), parts)?;
    match come_of(rt.alloc(), kind, bytes.as_slice())? {
        Found::Image(digits) => println!(rt; "{name}: image {digits}")?,
        Found::Count(count) => println!(rt; "{name}: image of {count} bytes")?,
        Found::NotImage => println!(rt; "{name}: no image")?,
        Found::Wrong(line) => println!(rt; "{name}: wrong line {line}")?,
        Found::NoList => println!(rt; "{name}: no list")?,
        Found::Memory => println!(rt; "{name}: out of memory")?,
    }
    Ok(())
}

fn run(rt: &(impl Env + Files + Print + AllocGlobal)) -> Result<()> {
    let Some(path) = env::args(rt)?.nth(1) else {
        return Err(anyhow::anyhow!("which file has the cases?"));
    };
    let text = fs::read_to_string(rt, path.as_str())?;
    for line in text.lines() {
        print_case(rt, line)?;
    }
    Ok(())
}

fn main(rt: HostRuntime) -> Result<()> {
    run(&rt)
}
