// Rows of one pipe: how many bytes it holds, a write or a read of so many, and whether an end of the other
// side is left.

use crate::bytes::{are_from, bytes_from};
use pipes::{CAPACITY, Pipe, Pull, Push};
use std::alloc::{AllocError, Global};
use std::str::SplitWhitespace;

/// Whether the pipe holds exactly the bytes from a place on. It is empty afterwards.
fn drains(alloc: Global, pipe: &mut Pipe, place: usize, count: usize) -> Result<bool, AllocError> {
    let mut out = vec![in alloc; 0u8; CAPACITY]?;
    let given = match pipe.read(out.as_mut_slice(), false) {
        Pull::Gave(given) => given,
        Pull::WouldWait => return Ok(false),
    };
    match out.as_slice().get(..given) {
        Some(bytes) => Ok(given == count && are_from(bytes, place)),
        None => Ok(false),
    }
}

fn write(
    alloc: Global,
    pipe: &mut Pipe,
    held: usize,
    count: usize,
    left: bool,
) -> Result<String, AllocError> {
    let bytes = bytes_from(alloc, held, count)?;
    let push = pipe.write(bytes.as_slice(), left);
    let taken = match push {
        Push::Took(taken) => taken,
        Push::WouldWait | Push::NoReader => 0,
    };
    let order = if drains(alloc, pipe, 0, held.wrapping_add(taken))? {
        "in order"
    } else {
        "out of order"
    };
    match push {
        Push::Took(taken) => format!(in alloc; "took {taken}, {order}"),
        Push::WouldWait => format!(in alloc; "waits, {order}"),
        Push::NoReader => format!(in alloc; "no reader, {order}"),
    }
}

fn read(
    alloc: Global,
    pipe: &mut Pipe,
    held: usize,
    count: usize,
    left: bool,
) -> Result<String, AllocError> {
    let mut out = vec![in alloc; 255u8; count]?;
    match pipe.read(out.as_mut_slice(), left) {
        Pull::Gave(given) => {
            let (front, rest) = match out.as_slice().split_at_checked(given) {
                Some(parts) => parts,
                None => return format!(in alloc; "gave more than asked"),
            };
            let in_order = are_from(front, 0)
                && rest.iter().all(|byte| *byte == 255)
                && drains(alloc, pipe, given, held.wrapping_sub(given))?;
            let order = if in_order { "in order" } else { "out of order" };
            format!(in alloc; "gave {given}, {order}")
        }
        Pull::WouldWait => format!(in alloc; "waits"),
    }
}

/// What a pipe answers: `HELD write|read COUNT left|gone`.
pub fn answer(alloc: Global, words: &mut SplitWhitespace) -> Result<Option<String>, AllocError> {
    let mut pipe = Pipe::new(alloc)?;
    let Some(held) = words.next().and_then(|word| word.parse::<usize>().ok()) else {
        return Ok(None);
    };
    let Some(verb) = words.next() else {
        return Ok(None);
    };
    let Some(count) = words.next().and_then(|word| word.parse::<usize>().ok()) else {
        return Ok(None);
    };
    let left = match words.next() {
        Some("left") => true,
        Some("gone") => false,
        _ => return Ok(None),
    };
    let bytes = bytes_from(alloc, 0, held)?;
    let _taken = pipe.write(bytes.as_slice(), true);
    match verb {
        "write" => Ok(Some(write(alloc, &mut pipe, held, count, left)?)),
        "read" => Ok(Some(read(alloc, &mut pipe, held, count, left)?)),
        _ => Ok(None),
    }
}
