//! How a case writes bytes: as themselves, but for `%`. Two hexadecimal digits behind it are a byte, and `%[COUNT TEXT%]` is the
//! text that often.

use anyhow::Result;
use std::alloc::Global;

// the bytes from a place on, so often in all
fn repeat(bytes: &mut Vec<u8>, start: usize, count: u32) -> Result<()> {
    let alloc = *bytes.allocator();
    let mut piece = Vec::new(alloc);
    for byte in bytes.iter().skip(start) {
        piece.push(*byte)?;
    }
    bytes.truncate(start);
    for _ in 0..count {
        bytes.extend_from_slice(piece.as_slice())?;
    }
    Ok(())
}

/// The bytes that a text stands for.
pub fn spelled(alloc: Global, text: &str) -> Result<Vec<u8>> {
    let mut bytes = Vec::new(alloc);
    let mut open: Option<(usize, u32)> = None;
    for (place, piece) in text.split('%').enumerate() {
        if place == 0 {
            bytes.extend_from_slice(piece.as_bytes())?;
        } else if let Some(rest) = piece.strip_prefix("[") {
            let Some((count, rest)) = rest.split_once(' ') else {
                return Err(anyhow::anyhow!("no count"));
            };
            open = Some((bytes.len(), count.parse::<u32>()?));
            bytes.extend_from_slice(rest.as_bytes())?;
        } else if let Some(rest) = piece.strip_prefix("]") {
            let Some((start, count)) = open else {
                return Err(anyhow::anyhow!("nothing to repeat"));
            };
            repeat(&mut bytes, start, count)?;
            bytes.extend_from_slice(rest.as_bytes())?;
        } else {
            put_byte(alloc, &mut bytes, piece)?;
        }
    }
    Ok(bytes)
}

// two digits of a byte, and what is behind them
fn put_byte(alloc: Global, bytes: &mut Vec<u8>, piece: &str) -> Result<()> {
    let (Some(digits), Some(rest)) = (piece.get(0..2), piece.get(2..)) else {
        return Err(anyhow::anyhow!("no byte"));
    };
    let byte = hex::decode(alloc, digits)?;
    bytes.extend_from_slice(byte.as_slice())?;
    bytes.extend_from_slice(rest.as_bytes())?;
    Ok(())
}
