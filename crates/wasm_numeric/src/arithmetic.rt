//! Operators with a result of the type of their operands: `iunop` and `ibinop` of section 2.4.1.

ghost use Rattle.std.specs.Prelude.{◌≡◌, ◌<◌, ◌^◌, IfOk};
ghost use Rattle.wasm_numeric.specs.Numeric.{bits, unary_value, binary_value};

use int_ops::{
    Cause, i32_add, i32_and, i32_clz, i32_ctz, i32_div_s, i32_div_u, i32_mul, i32_or, i32_popcnt,
    i32_rem_s, i32_rem_u, i32_rotl, i32_rotr, i32_shl, i32_shr_s, i32_shr_u, i32_sub, i32_xor,
    i64_add, i64_and, i64_clz, i64_ctz, i64_div_s, i64_div_u, i64_mul, i64_or, i64_popcnt,
    i64_rem_s, i64_rem_u, i64_rotl, i64_rotr, i64_shl, i64_shr_s, i64_shr_u, i64_sub, i64_xor,
};
use wasm_ast::{BinaryOp, IntType, UnaryOp};

/// A count of bits of the operand.
#[inline(always)]
pub fn unary(of: IntType, op: UnaryOp, a: u64) -> u64
    requires { a < 2 ^ bits of }
    ensures value { result ≡ unary_value of op a }
    ensures bound { result < 2 ^ bits of }
{
    match of {
        IntType::I32 => u64::from(unary_i32(op, a as u32)),
        IntType::I64 => unary_i64(op, a),
    }
}

#[inline(always)]
fn unary_i32(op: UnaryOp, a: u32) -> u32
    ensures { result ≡ unary_value IntType.I32 op a }
{
    match op {
        UnaryOp::Clz => i32_clz(a),
        UnaryOp::Ctz => i32_ctz(a),
        UnaryOp::Popcnt => i32_popcnt(a),
    }
}

#[inline(always)]
fn unary_i64(op: UnaryOp, a: u64) -> u64
    ensures { result ≡ unary_value IntType.I64 op a }
{
    match op {
        UnaryOp::Clz => i64_clz(a),
        UnaryOp::Ctz => i64_ctz(a),
        UnaryOp::Popcnt => i64_popcnt(a),
    }
}

/// The operator on two operands, the first of them pushed first. `DivideByZero` and `Overflow` come
/// exactly where a division or a remainder traps.
#[inline(always)]
pub fn binary(of: IntType, op: BinaryOp, a: u64, b: u64) -> Result<u64, Cause>
    requires first { a < 2 ^ bits of }
    requires second { b < 2 ^ bits of }
    ensures value { result ≡ binary_value of op a b }
    ensures bound { IfOk result (λ n. n < 2 ^ bits of) }
{
    match of {
        IntType::I32 => match binary_i32(op, a as u32, b as u32) {
            Ok(n) => Ok(u64::from(n)),
            Err(cause) => Err(cause),
        },
        IntType::I64 => binary_i64(op, a, b),
    }
}

#[inline(always)]
fn binary_i32(op: BinaryOp, a: u32, b: u32) -> Result<u32, Cause>
    ensures { result ≡ binary_value IntType.I32 op a b }
{
    match op {
        BinaryOp::Add => Ok(i32_add(a, b)),
        BinaryOp::Sub => Ok(i32_sub(a, b)),
        BinaryOp::Mul => Ok(i32_mul(a, b)),
        BinaryOp::DivS => i32_div_s(a, b),
        BinaryOp::DivU => i32_div_u(a, b),
        BinaryOp::RemS => i32_rem_s(a, b),
        BinaryOp::RemU => i32_rem_u(a, b),
        BinaryOp::And => Ok(i32_and(a, b)),
        BinaryOp::Or => Ok(i32_or(a, b)),
        BinaryOp::Xor => Ok(i32_xor(a, b)),
        BinaryOp::Shl => Ok(i32_shl(a, b)),
        BinaryOp::ShrS => Ok(i32_shr_s(a, b)),
        BinaryOp::ShrU => Ok(i32_shr_u(a, b)),
        BinaryOp::Rotl => Ok(i32_rotl(a, b)),
        BinaryOp::Rotr => Ok(i32_rotr(a, b)),
    }
}

#[inline(always)]
fn binary_i64(op: BinaryOp, a: u64, b: u64) -> Result<u64, Cause>
    ensures { result ≡ binary_value IntType.I64 op a b }
{
    match op {
        BinaryOp::Add => Ok(i64_add(a, b)),
        BinaryOp::Sub => Ok(i64_sub(a, b)),
        BinaryOp::Mul => Ok(i64_mul(a, b)),
        BinaryOp::DivS => i64_div_s(a, b),
        BinaryOp::DivU => i64_div_u(a, b),
        BinaryOp::RemS => i64_rem_s(a, b),
        BinaryOp::RemU => i64_rem_u(a, b),
        BinaryOp::And => Ok(i64_and(a, b)),
        BinaryOp::Or => Ok(i64_or(a, b)),
        BinaryOp::Xor => Ok(i64_xor(a, b)),
        BinaryOp::Shl => Ok(i64_shl(a, b)),
        BinaryOp::ShrS => Ok(i64_shr_s(a, b)),
        BinaryOp::ShrU => Ok(i64_shr_u(a, b)),
        BinaryOp::Rotl => Ok(i64_rotl(a, b)),
        BinaryOp::Rotr => Ok(i64_rotr(a, b)),
    }
}
