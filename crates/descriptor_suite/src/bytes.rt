// Bytes that tell where they stand.

use std::alloc::{AllocError, Global};

/// The byte at a place.
fn byte_at(place: usize) -> u8 {
    (place % 251) as u8
}

/// The bytes from a place on.
pub fn bytes_from(alloc: Global, place: usize, count: usize) -> Result<Vec<u8>, AllocError> {
    let mut bytes = Vec::with_capacity(alloc, count)?;
    for i in 0..count {
        bytes.push(byte_at(place.wrapping_add(i)))?;
    }
    Ok(bytes)
}

/// Whether these are the bytes from a place on.
pub fn are_from(bytes: &[u8], place: usize) -> bool {
    for (i, byte) in bytes.iter().enumerate() {
        if *byte != byte_at(place.wrapping_add(i)) {
            return false;
        }
    }
    true
}
