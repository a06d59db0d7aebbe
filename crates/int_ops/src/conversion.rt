//! The conversions between `i32` and `i64` (WebAssembly Core 1.0, 4.3.4), and the extension of their low bits by a sign.

#![tactic(auto, unfolding(crate::specs::Conversion::wrap, crate::specs::Conversion::extend_u))]

ghost use Rattle.std.specs.Prelude.{◌≡◌};
ghost use Rattle.int_ops.specs.Conversion.{wrap, extend_s, extend_u};

/// The low 32 bits of `a`: `a` modulo 2^32.
pub fn i32_wrap_i64(a: u64) -> u32
    ensures { result ≡ wrap 64 32 a }
{
    (a % 0x1_0000_0000) as u32
}

/// `a`, read as signed, in 64 bits.
pub fn i64_extend_i32_s(a: u32) -> u64
    ensures { result ≡ extend_s 32 64 a }
{
    i64::from(a.cast_signed()).cast_unsigned()
}

/// `a`, read as unsigned, in 64 bits.
pub fn i64_extend_i32_u(a: u32) -> u64
    ensures { result ≡ extend_u 32 64 a }
{
    u64::from(a)
}

/// The low 8 bits of `a`, read as signed, in 32 bits.
pub fn i32_extend8_s(a: u32) -> u32
    ensures { result ≡ extend_s 8 32 (wrap 32 8 a) }
{
    i32::from(((a % 0x100) as u8).cast_signed()).cast_unsigned()
}

/// The low 16 bits of `a`, read as signed, in 32 bits.
pub fn i32_extend16_s(a: u32) -> u32
    ensures { result ≡ extend_s 16 32 (wrap 32 16 a) }
{
    i32::from(((a % 0x1_0000) as u16).cast_signed()).cast_unsigned()
}

/// The low 8 bits of `a`, read as signed, in 64 bits.
pub fn i64_extend8_s(a: u64) -> u64
    ensures { result ≡ extend_s 8 64 (wrap 64 8 a) }
{
    i64::from(((a % 0x100) as u8).cast_signed()).cast_unsigned()
}

/// The low 16 bits of `a`, read as signed, in 64 bits.
pub fn i64_extend16_s(a: u64) -> u64
    ensures { result ≡ extend_s 16 64 (wrap 64 16 a) }
{
    i64::from(((a % 0x1_0000) as u16).cast_signed()).cast_unsigned()
}

/// The low 32 bits of `a`, read as signed, in 64 bits.
pub fn i64_extend32_s(a: u64) -> u64
    ensures { result ≡ extend_s 32 64 (wrap 64 32 a) }
{
    i64::from(((a % 0x1_0000_0000) as u32).cast_signed()).cast_unsigned()
}
