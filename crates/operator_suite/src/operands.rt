//! Items from the front of bytes.

use byte_cursor::{Cursor, CursorFault};
use std::alloc::{AllocError, Global};
use std::fmt;

/// A number that was read.
#[derive(Clone, Copy)]
enum Number {
    Unsigned(u64),
    Signed(i64),
}

/// What a reading finds, and how many bytes it leaves.
#[derive(Clone, Copy)]
pub struct Found {
    number: Result<Number, CursorFault>,
    left: usize,
}

impl fmt::Display for Found {
    fn fmt<W: fmt::Write>(&self, f: &mut fmt::Formatter<W>) -> fmt::Result {
        match self.number {
            Ok(Number::Unsigned(number)) => write!(f, "{number}")?,
            Ok(Number::Signed(number)) => write!(f, "{number}")?,
            Err(CursorFault::End) => write!(f, "end")?,
            Err(CursorFault::TooLong) => write!(f, "too long")?,
        }
        let left = self.left;
        write!(f, ", {left} left")
    }
}

/// The bytes of words of two digits in hexadecimal.
pub fn bytes_of(alloc: Global, words: &str) -> anyhow::Result<Vec<u8>> {
    let mut bytes = Vec::new(alloc);
    for word in words.split_whitespace() {
        let byte = u8::from_str_radix(word, 16)?;
        bytes.push(byte).map_err(AllocError::from)?;
    }
    Ok(bytes)
}

/// What the reading of that name finds.
pub fn read(name: &str, bytes: &[u8]) -> Option<Found> {
    let mut cursor = Cursor::new(bytes);
    let number = match name {
        "u32" => cursor.u32_leb().map(|n| Number::Unsigned(u64::from(n))),
        "i32" => cursor.i32_leb().map(|n| Number::Signed(i64::from(n))),
        "i64" => cursor.i64_leb().map(|n| Number::Signed(n)),
        "byte" => cursor.byte().map(|n| Number::Unsigned(u64::from(n))),
        "two bytes" => cursor.le_u16().map(|n| Number::Unsigned(u64::from(n))),
        "four bytes" => cursor.le_u32().map(|n| Number::Unsigned(u64::from(n))),
        "eight bytes" => cursor.le_u64().map(|n| Number::Unsigned(n)),
        _ => return None,
    };
    Some(Found {
        number,
        left: cursor.rest().len(),
    })
}
