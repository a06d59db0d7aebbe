//! The tests and comparisons (WebAssembly Core 1.0, 4.3.2): `ieqz` to `ige_u`.
//!
//! Each gives an `i32`: 1 where it holds, and 0 elsewhere.

#![tactic(auto, unfolding(crate::specs::Comparison::ieqz, crate::specs::Comparison::ieq, crate::specs::Comparison::ine, crate::specs::Comparison::ilt_u, crate::specs::Comparison::igt_u, crate::specs::Comparison::ile_u, crate::specs::Comparison::ige_u))]

ghost use Rattle.std.specs.Prelude.{◌≡◌};
ghost use Rattle.int_ops.specs.Comparison.{ieqz, ieq, ine, ilt_s, ilt_u, igt_s, igt_u, ile_s, ile_u, ige_s, ige_u};

/// 1 where `a` is 0, and 0 elsewhere.
pub fn i32_eqz(a: u32) -> u32
    ensures { result ≡ ieqz 32 a }
{
    u32::from(a == 0)
}

/// 1 where `a` and `b` are equal, and 0 elsewhere.
pub fn i32_eq(a: u32, b: u32) -> u32
    ensures { result ≡ ieq 32 a b }
{
    u32::from(a == b)
}

/// 1 where `a` and `b` differ, and 0 elsewhere.
pub fn i32_ne(a: u32, b: u32) -> u32
    ensures { result ≡ ine 32 a b }
{
    u32::from(a != b)
}

/// 1 where `a` is below `b`, both read as signed, and 0 elsewhere.
pub fn i32_lt_s(a: u32, b: u32) -> u32
    ensures { result ≡ ilt_s 32 a b }
{
    u32::from(u32::cast_signed(a) < u32::cast_signed(b))
}

/// 1 where `a` is below `b`, and 0 elsewhere.
pub fn i32_lt_u(a: u32, b: u32) -> u32
    ensures { result ≡ ilt_u 32 a b }
{
    u32::from(a < b)
}

/// 1 where `a` is above `b`, both read as signed, and 0 elsewhere.
pub fn i32_gt_s(a: u32, b: u32) -> u32
    ensures { result ≡ igt_s 32 a b }
{
    u32::from(u32::cast_signed(a) > u32::cast_signed(b))
}

/// 1 where `a` is above `b`, and 0 elsewhere.
pub fn i32_gt_u(a: u32, b: u32) -> u32
    ensures { result ≡ igt_u 32 a b }
{
    u32::from(a > b)
}

/// 1 where `a` is at most `b`, both read as signed, and 0 elsewhere.
pub fn i32_le_s(a: u32, b: u32) -> u32
    ensures { result ≡ ile_s 32 a b }
{
    u32::from(u32::cast_signed(a) <= u32::cast_signed(b))
}

/// 1 where `a` is at most `b`, and 0 elsewhere.
pub fn i32_le_u(a: u32, b: u32) -> u32
    ensures { result ≡ ile_u 32 a b }
{
    u32::from(a <= b)
}

/// 1 where `a` is at least `b`, both read as signed, and 0 elsewhere.
pub fn i32_ge_s(a: u32, b: u32) -> u32
    ensures { result ≡ ige_s 32 a b }
{
    u32::from(u32::cast_signed(a) >= u32::cast_signed(b))
}

/// 1 where `a` is at least `b`, and 0 elsewhere.
pub fn i32_ge_u(a: u32, b: u32) -> u32
    ensures { result ≡ ige_u 32 a b }
{
    u32::from(a >= b)
}

/// 1 where `a` is 0, and 0 elsewhere.
pub fn i64_eqz(a: u64) -> u32
    ensures { result ≡ ieqz 64 a }
{
    u32::from(a == 0)
}

/// 1 where `a` and `b` are equal, and 0 elsewhere.
pub fn i64_eq(a: u64, b: u64) -> u32
    ensures { result ≡ ieq 64 a b }
{
    u32::from(a == b)
}

/// 1 where `a` and `b` differ, and 0 elsewhere.
pub fn i64_ne(a: u64, b: u64) -> u32
    ensures { result ≡ ine 64 a b }
{
    u32::from(a != b)
}

/// 1 where `a` is below `b`, both read as signed, and 0 elsewhere.
pub fn i64_lt_s(a: u64, b: u64) -> u32
    ensures { result ≡ ilt_s 64 a b }
{
    u32::from(u64::cast_signed(a) < u64::cast_signed(b))
}

/// 1 where `a` is below `b`, and 0 elsewhere.
pub fn i64_lt_u(a: u64, b: u64) -> u32
    ensures { result ≡ ilt_u 64 a b }
{
    u32::from(a < b)
}

/// 1 where `a` is above `b`, both read as signed, and 0 elsewhere.
pub fn i64_gt_s(a: u64, b: u64) -> u32
    ensures { result ≡ igt_s 64 a b }
{
    u32::from(u64::cast_signed(a) > u64::cast_signed(b))
}

/// 1 where `a` is above `b`, and 0 elsewhere.
pub fn i64_gt_u(a: u64, b: u64) -> u32
    ensures { result ≡ igt_u 64 a b }
{
    u32::from(a > b)
}

/// 1 where `a` is at most `b`, both read as signed, and 0 elsewhere.
pub fn i64_le_s(a: u64, b: u64) -> u32
    ensures { result ≡ ile_s 64 a b }
{
    u32::from(u64::cast_signed(a) <= u64::cast_signed(b))
}

/// 1 where `a` is at most `b`, and 0 elsewhere.
pub fn i64_le_u(a: u64, b: u64) -> u32
    ensures { result ≡ ile_u 64 a b }
{
    u32::from(a <= b)
}

/// 1 where `a` is at least `b`, both read as signed, and 0 elsewhere.
pub fn i64_ge_s(a: u64, b: u64) -> u32
    ensures { result ≡ ige_s 64 a b }
{
    u32::from(u64::cast_signed(a) >= u64::cast_signed(b))
}

/// 1 where `a` is at least `b`, and 0 elsewhere.
pub fn i64_ge_u(a: u64, b: u64) -> u32
    ensures { result ≡ ige_u 64 a b }
{
    u32::from(a >= b)
}
