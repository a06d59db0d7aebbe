//! The accesses by their names. Addresses and numbers of pages are decimal, values are hexadecimal.
ghost use Rattle.std.specs.Prelude.{IfSome};
ghost use Rattle.int_ops.specs.Atomic.{IsAccessWidth};

use int_ops::{AtomicOp, Cause};
use linear_memory::{Memory, RangeFault};
use std::alloc::{AllocError, Global};
use std::fmt;
use std::fmt::{Display, Formatter, Write};
use wx_types::Bytes;

/// What a row gives.
#[derive(Drop)]
pub enum Answer {
    /// Nothing but that it was done.
    Done,
    /// A value.
    Value(u64),
    /// A number of pages.
    Pages(u32),
    /// Bytes.
    Range(Bytes),
    /// The range passes the memory.
    Outside,
    /// A trap.
    Trap(Cause),
}

impl Display for Answer {
    fn fmt<W: Write>(&self, f: &mut Formatter<W>) -> fmt::Result {
        match self {
            Answer::Done => f.write_str("done"),
            Answer::Value(value) => write!(f, "{value:x}"),
            Answer::Pages(pages) => write!(f, "{pages}"),
            Answer::Range(bytes) => {
                for byte in bytes.as_slice() {
                    write!(f, "{byte:02x}")?;
                }
                Ok(())
            }
            Answer::Outside => f.write_str("outside"),
            Answer::Trap(cause) => write!(f, "{cause:?}"),
        }
    }
}

/// The width of an access.
fn width_of(word: &str) -> Option<u8>
    ensures { IfSome result IsAccessWidth }
{
    match word {
        "1" => Some(1),
        "2" => Some(2),
        "4" => Some(4),
        "8" => Some(8),
        _ => None,
    }
}

/// The operator of a read-modify-write.
fn operator(name: &str) -> Option<AtomicOp> {
    Some(match name {
        "add" => AtomicOp::Add,
        "sub" => AtomicOp::Sub,
        "and" => AtomicOp::And,
        "or" => AtomicOp::Or,
        "xor" => AtomicOp::Xor,
        "exchange" => AtomicOp::Exchange,
        _ => return None,
    })
}

fn value(word: &str) -> Option<u64> {
    u64::from_str_radix(word, 16).ok()
}

fn of_value(outcome: Result<u64, Cause>) -> Answer {
    match outcome {
        Ok(value) => Answer::Value(value),
        Err(cause) => Answer::Trap(cause),
    }
}

fn of_done(outcome: Result<(), Cause>) -> Answer {
    match outcome {
        Ok(()) => Answer::Done,
        Err(cause) => Answer::Trap(cause),
    }
}

/// An access of a width: the name, the width, the address and the operands.
fn access(memory: &mut Memory, name: &str, words: &[&str]) -> Option<Answer> {
    let width = width_of(words.first()?)?;
    let at = words.get(1)?.parse::<u64>().ok()?;
    match name {
        "load" => Some(of_value(memory.load(at, width))),
        "store" => Some(of_done(memory.store(at, width, value(words.get(2)?)?))),
        "compare_exchange" => {
            let expected = value(words.get(2)?)?;
            let new = value(words.get(3)?)?;
            Some(of_value(memory.compare_exchange(at, width, expected, new)))
        }
        _ => {
            let op = operator(name)?;
            Some(of_value(memory.rmw(at, width, op, value(words.get(2)?)?)))
        }
    }
}

/// A range of bytes: `bytes` with the address and the length, `write` with the address and a byte that is
/// written four times.
fn range(
    alloc: Global,
    memory: &mut Memory,
    name: &str,
    words: &[&str],
) -> Result<Option<Answer>, AllocError> {
    let (Some(at), Some(number)) = (
        words.first().and_then(|word| word.parse::<u32>().ok()),
        words.get(1).and_then(|word| word.parse::<u32>().ok()),
    ) else {
        return Ok(None);
    };
    match name {
        "bytes" => match memory.bytes(alloc, at, number) {
            Ok(bytes) => Ok(Some(Answer::Range(bytes))),
            Err(RangeFault::Outside) => Ok(Some(Answer::Outside)),
            Err(RangeFault::Memory) => Err(AllocError),
        },
        "write" => {
            let byte = (number % 256) as u8;
            Ok(Some(of_done(memory.write_bytes(at, &[byte, byte, byte, byte]))))
        }
        _ => Ok(None),
    }
}

/// What a row gives, or `None` where it isn't one. A row `memory` makes a new memory of so many pages at first and at most,
/// `copy` goes on with a copy.
pub fn answer_of(
    alloc: Global,
    memory: &mut Memory,
    row: &str,
) -> Result<Option<Answer>, AllocError> {
    let words: Vec<&str> = row.split_whitespace().collect(alloc)?;
    let Some((name, operands)) = words.as_slice().split_first() else {
        return Ok(None);
    };
    let first = operands.first().and_then(|word| word.parse::<u32>().ok());
    match *name {
        "memory" => {
            let most = operands.get(1).and_then(|word| word.parse::<u32>().ok());
            let (Some(min), Some(max)) = (first, most) else {
                return Ok(None);
            };
            if min > 256 {
                return Ok(None);
            }
            *memory = Memory::new(alloc, min, max, false)?;
            Ok(Some(Answer::Done))
        }
        "size" => Ok(Some(Answer::Pages(memory.size()))),
        "grow" => match first {
            Some(pages) => Ok(Some(Answer::Pages(memory.grow(pages)?))),
            None => Ok(None),
        },
        "copy" => {
            *memory = memory.copy_whole(alloc)?;
            Ok(Some(Answer::Done))
        }
        "bytes" | "write" => range(alloc, memory, name, operands),
        _ => Ok(access(memory, name, operands)),
    }
}
