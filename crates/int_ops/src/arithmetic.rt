//! Sums, products and divisions (WebAssembly Core 1.0, 4.3.2): `iadd` to `irem_s`.
//!
//! Sums, differences and products are taken modulo 2^32 or 2^64. A division traps where the standard leaves its result undefined.

#![tactic(auto, unfolding(crate::specs::Arithmetic::iadd, crate::specs::Arithmetic::imul, crate::specs::Arithmetic::isub, crate::specs::Arithmetic::idiv_u, crate::specs::Arithmetic::irem_u))]

ghost use Rattle.std.specs.Prelude.{◌≡◌, ◌-◌, ◌^◌, ◌↔◌};
ghost use Rattle.int_ops.specs.Arithmetic.{iadd, isub, imul, idiv_s, idiv_u, irem_s, irem_u};

use crate::trap::Cause;

/// The sum of `a` and `b`, modulo 2^32.
pub fn i32_add(a: u32, b: u32) -> u32
    ensures { result ≡ iadd 32 a b }
{
    a.wrapping_add(b)
}

/// The difference of `a` and `b`, modulo 2^32.
pub fn i32_sub(a: u32, b: u32) -> u32
    ensures { result ≡ isub 32 a b }
{
    a.wrapping_sub(b)
}

/// The product of `a` and `b`, modulo 2^32.
pub fn i32_mul(a: u32, b: u32) -> u32
    ensures { result ≡ imul 32 a b }
{
    a.wrapping_mul(b)
}

/// The quotient of `a` by `b`, both read as signed, rounded toward zero.
///
/// `DivideByZero` exactly where `b` is 0, and `Overflow` exactly where `a` is the least number, -2^31, and `b` is -1.
pub fn i32_div_s(a: u32, b: u32) -> Result<u32, Cause>
    ensures value { result ≡ idiv_s 32 a b }
    ensures by_zero { (result ≡ Err Cause.DivideByZero) ↔ (b ≡ 0) }
    ensures overflow { (result ≡ Err Cause.Overflow) ↔ ((a ≡ 2 ^ 31) × (b ≡ 2 ^ 32 - 1)) }
{
    if b == 0 {
        return Err(Cause::DivideByZero);
    }
    match i32::checked_div(a.cast_signed(), b.cast_signed()) {
        Some(quotient) => Ok(quotient.cast_unsigned()),
        None => Err(Cause::Overflow),
    }
}

/// The quotient of `a` by `b`, rounded down.
///
/// `DivideByZero` exactly where `b` is 0.
pub fn i32_div_u(a: u32, b: u32) -> Result<u32, Cause>
    ensures value { result ≡ idiv_u 32 a b }
    ensures by_zero { (result ≡ Err Cause.DivideByZero) ↔ (b ≡ 0) }
{
    a.checked_div(b).ok_or(Cause::DivideByZero)
}

/// The remainder of `a` by `b`, both read as signed: it has the sign of `a`, and is 0 where `b` is -1.
///
/// `DivideByZero` exactly where `b` is 0.
pub fn i32_rem_s(a: u32, b: u32) -> Result<u32, Cause>
    ensures value { result ≡ irem_s 32 a b }
    ensures by_zero { (result ≡ Err Cause.DivideByZero) ↔ (b ≡ 0) }
{
    if b == 0 {
        return Err(Cause::DivideByZero);
    }
    let remainder = i32::wrapping_rem(a.cast_signed(), b.cast_signed());
    Ok(remainder.cast_unsigned())
}

/// The remainder of `a` by `b`.
///
/// `DivideByZero` exactly where `b` is 0.
pub fn i32_rem_u(a: u32, b: u32) -> Result<u32, Cause>
    ensures value { result ≡ irem_u 32 a b }
    ensures by_zero { (result ≡ Err Cause.DivideByZero) ↔ (b ≡ 0) }
{
    a.checked_rem(b).ok_or(Cause::DivideByZero)
}

/// The sum of `a` and `b`, modulo 2^64.
pub fn i64_add(a: u64, b: u64) -> u64
    ensures { result ≡ iadd 64 a b }
{
    a.wrapping_add(b)
}

/// The difference of `a` and `b`, modulo 2^64.
pub fn i64_sub(a: u64, b: u64) -> u64
    ensures { result ≡ isub 64 a b }
{
    a.wrapping_sub(b)
}

/// The product of `a` and `b`, modulo 2^64.
pub fn i64_mul(a: u64, b: u64) -> u64
    ensures { result ≡ imul 64 a b }
{
    a.wrapping_mul(b)
}

/// The quotient of `a` by `b`, both read as signed, rounded toward zero.
///
/// `DivideByZero` exactly where `b` is 0, and `Overflow` exactly where `a` is the least number, -2^63, and `b` is -1.
pub fn i64_div_s(a: u64, b: u64) -> Result<u64, Cause>
    ensures value { result ≡ idiv_s 64 a b }
    ensures by_zero { (result ≡ Err Cause.DivideByZero) ↔ (b ≡ 0) }
    ensures overflow { (result ≡ Err Cause.Overflow) ↔ ((a ≡ 2 ^ 63) × (b ≡ 2 ^ 64 - 1)) }
{
    if b == 0 {
        return Err(Cause::DivideByZero);
    }
    match i64::checked_div(a.cast_signed(), b.cast_signed()) {
        Some(quotient) => Ok(quotient.cast_unsigned()),
        None => Err(Cause::Overflow),
    }
}

/// The quotient of `a` by `b`, rounded down.
///
/// `DivideByZero` exactly where `b` is 0.
pub fn i64_div_u(a: u64, b: u64) -> Result<u64, Cause>
    ensures value { result ≡ idiv_u 64 a b }
    ensures by_zero { (result ≡ Err Cause.DivideByZero) ↔ (b ≡ 0) }
{
    a.checked_div(b).ok_or(Cause::DivideByZero)
}

/// The remainder of `a` by `b`, both read as signed: it has the sign of `a`, and is 0 where `b` is -1.
///
/// `DivideByZero` exactly where `b` is 0.
pub fn i64_rem_s(a: u64, b: u64) -> Result<u64, Cause>
    ensures value { result ≡ irem_s 64 a b }
    ensures by_zero { (result ≡ Err Cause.DivideByZero) ↔ (b ≡ 0) }
{
    if b == 0 {
        return Err(Cause::DivideByZero);
    }
    let remainder = i64::wrapping_rem(a.cast_signed(), b.cast_signed());
    Ok(remainder.cast_unsigned())
}

/// The remainder of `a` by `b`.
///
/// `DivideByZero` exactly where `b` is 0.
pub fn i64_rem_u(a: u64, b: u64) -> Result<u64, Cause>
    ensures value { result ≡ irem_u 64 a b }
    ensures by_zero { (result ≡ Err Cause.DivideByZero) ↔ (b ≡ 0) }
{
    a.checked_rem(b).ok_or(Cause::DivideByZero)
}
