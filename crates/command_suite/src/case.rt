//! What a case has, from its settings, in any order:
//!
//! - `words WORD ..`: the words of the command; none where it is missing.
//! - `shelf ROOM CALL ..`: how much can be written to the shelf, and the calls, from 1, that fail.
//! - `out ROOM MOST CALL ..`, `err ROOM MOST CALL ..`: how many bytes the sink takes in all and in one call, and the calls that fail.
//! - `file NAME PART ..`: a file of the shelf. A part is hexadecimal digits, or `DIGITS*COUNT`, so many times these.
//! - `tell NAME`: a file that is told in the end.
//!
//! Where nothing is said an object takes 1,000 bytes, and no call fails.

use anyhow::Result;
use std::alloc::Global;
use wx_types::{MemShelf, MemSink};

/// What stands behind a key among the settings.
fn setting<'a>(settings: &'a str, key: &str) -> Option<&'a str> {
    for setting in settings.split("; ") {
        if let Some(value) = setting.strip_prefix(key) {
            return Some(value);
        }
    }
    None
}

/// The words of the command of a case.
pub fn words_of(alloc: Global, settings: &str) -> Result<Vec<String>> {
    let mut words = Vec::new(alloc);
    if let Some(text) = setting(settings, "words ") {
        for word in text.split(' ') {
            words.push(String::from_str(alloc, word)?)?;
        }
    }
    Ok(words)
}

/// A number, and those behind it.
fn numbers_of(alloc: Global, text: &str) -> Result<(usize, Vec<u64>)> {
    let mut words = text.split(' ');
    let Some(first) = words.next() else {
        return Err(anyhow::anyhow!("no number"));
    };
    let mut rest = Vec::new(alloc);
    for word in words {
        rest.push(word.parse::<u64>()?)?;
    }
    Ok((first.parse::<usize>()?, rest))
}

/// The sink of a case, `out ` or `err `.
pub fn sink_of(alloc: Global, settings: &str, key: &str) -> Result<MemSink> {
    let text = setting(settings, key).unwrap_or("1000 1000");
    let Some((room, rest)) = text.split_once(' ') else {
        return Err(anyhow::anyhow!("no sink"));
    };
    let room = room.parse::<usize>()?;
    let (most, fails) = numbers_of(alloc, rest)?;
    Ok(MemSink::new(alloc, room, most, fails)?)
}

fn put_part(bytes: &mut Vec<u8>, part: &str) -> Result<()> {
    let (digits, count) = part.split_once('*').unwrap_or((part, "1"));
    let count = count.parse::<u32>()?;
    let piece = hex::decode(*bytes.allocator(), digits)?;
    for _ in 0..count {
        bytes.extend_from_slice(piece.as_slice())?;
    }
    Ok(())
}

fn put_file(alloc: Global, shelf: &mut MemShelf, text: &str) -> Result<()> {
    let Some((name, parts)) = text.split_once(' ') else {
        return Err(anyhow::anyhow!("no file"));
    };
    let mut bytes = Vec::new(alloc);
    for part in parts.split(' ') {
        put_part(&mut bytes, part)?;
    }
    Ok(shelf.put(name, bytes.as_slice())?)
}

/// The shelf of a case with its files.
pub fn shelf_of(alloc: Global, settings: &str) -> Result<MemShelf> {
    let (room, fails) = numbers_of(alloc, setting(settings, "shelf ").unwrap_or("1000"))?;
    let mut shelf = MemShelf::new(alloc, room, fails)?;
    for setting in settings.split("; ") {
        if let Some(text) = setting.strip_prefix("file ") {
            put_file(alloc, &mut shelf, text)?;
        }
    }
    Ok(shelf)
}
