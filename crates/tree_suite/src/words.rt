//! The words of the script. A word of bytes is made of parts between `|`: text, in which `%2f` is the byte of
//! that number, or `@255:TEXT`, so many times the text. `-` alone has no bytes.

use std::alloc::{AllocError, Global};

/// The number that a word spells.
pub fn number(word: Option<&&str>) -> Option<u32> {
    word?.parse::<u32>().ok()
}

/// The same of 64 bits.
pub fn wide(word: Option<&&str>) -> Option<u64> {
    word?.parse::<u64>().ok()
}

// The value of a hexadecimal digit; 0 for what is none.
fn digit(byte: u8) -> u8 {
    match byte {
        b'0'..=b'9' => byte - b'0',
        b'a'..=b'f' => byte - b'a' + 10,
        _ => 0,
    }
}

// Adds the bytes of a text.
fn push_text(out: &mut Vec<u8>, text: &str) -> Result<(), AllocError> {
    let mut escaped = false;
    let mut high = None;
    for byte in text.as_bytes() {
        if !escaped && *byte == b'%' {
            escaped = true;
            high = None;
        } else if escaped {
            match high {
                None => high = Some(digit(*byte)),
                Some(first) => {
                    out.push(u8::wrapping_mul(first, 16).wrapping_add(digit(*byte)))?;
                    escaped = false;
                }
            }
        } else {
            out.push(*byte)?;
        }
    }
    Ok(())
}

// Adds the bytes of a part of a word.
fn push_part(alloc: Global, out: &mut Vec<u8>, part: &str) -> Result<(), AllocError> {
    let Some(repeated) = part.strip_prefix("@") else {
        return push_text(out, part);
    };
    let Some((count, text)) = repeated.split_once(":") else {
        return push_text(out, part);
    };
    let mut bytes = Vec::new(alloc);
    push_text(&mut bytes, text)?;
    for _ in 0..count.parse::<usize>().unwrap_or(0) {
        out.extend_from_slice(bytes.as_slice())?;
    }
    Ok(())
}

/// The bytes of a word.
pub fn bytes(alloc: Global, word: &str) -> Result<Vec<u8>, AllocError> {
    let mut out = Vec::new(alloc);
    if word == "-" {
        return Ok(out);
    }
    for part in word.split("|") {
        push_part(alloc, &mut out, part)?;
    }
    Ok(out)
}
