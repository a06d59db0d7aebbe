//! The operators of the atomic read-modify-write instructions (threads proposal, `atomicrmw`).

ghost use Rattle.std.specs.Prelude.{◌≡◌, ◌<◌, ◌*◌, ◌%◌, ◌^◌};
ghost use Rattle.int_ops.specs.Atomic.{IsAccessWidth, applied, combined};

use crate::arithmetic::{i64_add, i64_sub};
use crate::bitwise::{i64_and, i64_or, i64_xor};

/// What an atomic read-modify-write makes of the old value and its argument.
#[derive(Clone, Copy, Debug, PartialEq, Eq)]
pub enum AtomicOp {
    /// The sum.
    Add,
    /// The old value minus the argument.
    Sub,
    /// The bits that both have.
    And,
    /// The bits that one of them or both have.
    Or,
    /// The bits that exactly one of them has.
    Xor,
    /// The argument.
    Exchange,
}

/// The number that an atomic read-modify-write of `width` bytes stores: `op` on the low `width` bytes of `old` and of `arg`.
///
/// `width` is 1, 2, 4 or 8. Both operands are taken modulo 2^(8 * `width`), so their higher bytes have no part in the result,
/// which is below 2^(8 * `width`).
pub fn combine(op: AtomicOp, old: u64, arg: u64, width: u8) -> u64
    requires { IsAccessWidth width }
    ensures value { result ≡ combined op old arg width }
    ensures bound { result < 2 ^ (8 * width) }
{
    low_bytes(apply(op, old, arg), width)
}

// `op` on all 64 bits.
fn apply(op: AtomicOp, old: u64, arg: u64) -> u64
    ensures { result ≡ applied op 64 old arg }
{
    match op {
        AtomicOp::Add => i64_add(old, arg),
        AtomicOp::Sub => i64_sub(old, arg),
        AtomicOp::And => i64_and(old, arg),
        AtomicOp::Or => i64_or(old, arg),
        AtomicOp::Xor => i64_xor(old, arg),
        AtomicOp::Exchange => arg,
    }
}

// The low bytes of `n`.
fn low_bytes(n: u64, width: u8) -> u64
    requires { IsAccessWidth width }
    ensures { result ≡ n % 2 ^ (8 * width) }
{
    n & (u64::MAX >> (64 - 8 * width))
}
