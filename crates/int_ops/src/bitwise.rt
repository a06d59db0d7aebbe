//! The operators on bits (WebAssembly Core 1.0, 4.3.2): `iand` to `ixor`, shifts, rotations and counts.
//!
//! A shift or a rotation takes its distance modulo the number of bits.

#![tactic(auto, using(crate::proofs::Places::bit_rows), unfolding(crate::specs::Bitwise::ishl, crate::specs::Bitwise::ishr_u))]

ghost use Rattle.std.specs.Prelude.{◌≡◌};
ghost use Rattle.int_ops.specs.Bitwise.{iand, ior, ixor, ishl, ishr_s, ishr_u, irotl, irotr, iclz, ictz, ipopcnt};

/// How many of the 32 bits of `a` above its highest 1 are 0: 32 where `a` is 0.
pub fn i32_clz(a: u32) -> u32
    ensures { result ≡ iclz 32 a }
{
    a.leading_zeros()
}

/// How many of the 32 bits of `a` below its lowest 1 are 0: 32 where `a` is 0.
pub fn i32_ctz(a: u32) -> u32
    ensures { result ≡ ictz 32 a }
{
    a.trailing_zeros()
}

/// How many of the 32 bits of `a` are 1.
pub fn i32_popcnt(a: u32) -> u32
    ensures { result ≡ ipopcnt 32 a }
{
    a.count_ones()
}

/// The bits that both `a` and `b` have.
pub fn i32_and(a: u32, b: u32) -> u32
    ensures { result ≡ iand 32 a b }
{
    a & b
}

/// The bits that `a` or `b` or both have.
pub fn i32_or(a: u32, b: u32) -> u32
    ensures { result ≡ ior 32 a b }
{
    a | b
}

/// The bits that exactly one of `a` and `b` has.
pub fn i32_xor(a: u32, b: u32) -> u32
    ensures { result ≡ ixor 32 a b }
{
    a ^ b
}

/// `a` shifted left by `b` modulo 32 bits, with zeros from the right.
pub fn i32_shl(a: u32, b: u32) -> u32
    ensures { result ≡ ishl 32 a b }
{
    a.wrapping_shl(b)
}

/// `a` shifted right by `b` modulo 32 bits, with copies of its highest bit from the left.
pub fn i32_shr_s(a: u32, b: u32) -> u32
    ensures { result ≡ ishr_s 32 a b }
{
    a.cast_signed().wrapping_shr(b).cast_unsigned()
}

/// `a` shifted right by `b` modulo 32 bits, with zeros from the left.
pub fn i32_shr_u(a: u32, b: u32) -> u32
    ensures { result ≡ ishr_u 32 a b }
{
    a.wrapping_shr(b)
}

/// `a` rotated left by `b` modulo 32 bits.
pub fn i32_rotl(a: u32, b: u32) -> u32
    ensures { result ≡ irotl 32 a b }
{
    a.rotate_left(b)
}

/// `a` rotated right by `b` modulo 32 bits.
pub fn i32_rotr(a: u32, b: u32) -> u32
    ensures { result ≡ irotr 32 a b }
{
    a.rotate_right(b)
}

/// How many of the 64 bits of `a` above its highest 1 are 0: 64 where `a` is 0.
pub fn i64_clz(a: u64) -> u64
    ensures { result ≡ iclz 64 a }
{
    u64::from(a.leading_zeros())
}

/// How many of the 64 bits of `a` below its lowest 1 are 0: 64 where `a` is 0.
pub fn i64_ctz(a: u64) -> u64
    ensures { result ≡ ictz 64 a }
{
    u64::from(a.trailing_zeros())
}

/// How many of the 64 bits of `a` are 1.
pub fn i64_popcnt(a: u64) -> u64
    ensures { result ≡ ipopcnt 64 a }
{
    u64::from(a.count_ones())
}

/// The bits that both `a` and `b` have.
pub fn i64_and(a: u64, b: u64) -> u64
    ensures { result ≡ iand 64 a b }
{
    a & b
}

/// The bits that `a` or `b` or both have.
pub fn i64_or(a: u64, b: u64) -> u64
    ensures { result ≡ ior 64 a b }
{
    a | b
}

/// The bits that exactly one of `a` and `b` has.
pub fn i64_xor(a: u64, b: u64) -> u64
    ensures { result ≡ ixor 64 a b }
{
    a ^ b
}

/// `a` shifted left by `b` modulo 64 bits, with zeros from the right.
pub fn i64_shl(a: u64, b: u64) -> u64
    ensures { result ≡ ishl 64 a b }
{
    a.wrapping_shl((b % 64) as u32)
}

/// `a` shifted right by `b` modulo 64 bits, with copies of its highest bit from the left.
pub fn i64_shr_s(a: u64, b: u64) -> u64
    ensures { result ≡ ishr_s 64 a b }
{
    a.cast_signed()
        .wrapping_shr((b % 64) as u32)
        .cast_unsigned()
}

/// `a` shifted right by `b` modulo 64 bits, with zeros from the left.
pub fn i64_shr_u(a: u64, b: u64) -> u64
    ensures { result ≡ ishr_u 64 a b }
{
    a.wrapping_shr((b % 64) as u32)
}

/// `a` rotated left by `b` modulo 64 bits.
pub fn i64_rotl(a: u64, b: u64) -> u64
    ensures { result ≡ irotl 64 a b }
{
    a.rotate_left((b % 64) as u32)
}

/// `a` rotated right by `b` modulo 64 bits.
pub fn i64_rotr(a: u64, b: u64) -> u64
    ensures { result ≡ irotr 64 a b }
{
    a.rotate_right((b % 64) as u32)
}
