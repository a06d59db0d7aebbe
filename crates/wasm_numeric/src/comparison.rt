//! Tests and comparisons: `itestop` and `irelop` of section 2.4.1.

ghost use Rattle.std.specs.Prelude.{◌≡◌, ◌<◌, ◌^◌};
ghost use Rattle.wasm_numeric.specs.Numeric.{bits, test_value, compare_value};

use int_ops::{
    i32_eq, i32_eqz, i32_ge_s, i32_ge_u, i32_gt_s, i32_gt_u, i32_le_s, i32_le_u, i32_lt_s,
    i32_lt_u, i32_ne, i64_eq, i64_eqz, i64_ge_s, i64_ge_u, i64_gt_s, i64_gt_u, i64_le_s, i64_le_u,
    i64_lt_s, i64_lt_u, i64_ne,
};
use wasm_ast::{CompareOp, IntType};

/// `eqz`: 1 where the operand is 0, and 0 elsewhere.
#[inline(always)]
pub fn test(of: IntType, a: u64) -> u64
    requires { a < 2 ^ bits of }
    ensures value { result ≡ test_value of a }
    ensures bound { result < 2 ^ 32 }
{
    match of {
        IntType::I32 => u64::from(i32_eqz(a as u32)),
        IntType::I64 => u64::from(i64_eqz(a)),
    }
}

/// The comparison of two operands, the first of them pushed first: 1 where it holds, and 0 elsewhere.
#[inline(always)]
pub fn compare(of: IntType, op: CompareOp, a: u64, b: u64) -> u64
    requires first { a < 2 ^ bits of }
    requires second { b < 2 ^ bits of }
    ensures value { result ≡ compare_value of op a b }
    ensures bound { result < 2 ^ 32 }
{
    match of {
        IntType::I32 => u64::from(compare_i32(op, a as u32, b as u32)),
        IntType::I64 => u64::from(compare_i64(op, a, b)),
    }
}

#[inline(always)]
fn compare_i32(op: CompareOp, a: u32, b: u32) -> u32
    ensures { result ≡ compare_value IntType.I32 op a b }
{
    match op {
        CompareOp::Eq => i32_eq(a, b),
        CompareOp::Ne => i32_ne(a, b),
        CompareOp::LtS => i32_lt_s(a, b),
        CompareOp::LtU => i32_lt_u(a, b),
        CompareOp::GtS => i32_gt_s(a, b),
        CompareOp::GtU => i32_gt_u(a, b),
        CompareOp::LeS => i32_le_s(a, b),
        CompareOp::LeU => i32_le_u(a, b),
        CompareOp::GeS => i32_ge_s(a, b),
        CompareOp::GeU => i32_ge_u(a, b),
    }
}

#[inline(always)]
fn compare_i64(op: CompareOp, a: u64, b: u64) -> u32
    ensures { result ≡ compare_value IntType.I64 op a b }
{
    match op {
        CompareOp::Eq => i64_eq(a, b),
        CompareOp::Ne => i64_ne(a, b),
        CompareOp::LtS => i64_lt_s(a, b),
        CompareOp::LtU => i64_lt_u(a, b),
        CompareOp::GtS => i64_gt_s(a, b),
        CompareOp::GtU => i64_gt_u(a, b),
        CompareOp::LeS => i64_le_s(a, b),
        CompareOp::LeU => i64_le_u(a, b),
        CompareOp::GeS => i64_ge_s(a, b),
        CompareOp::GeU => i64_ge_u(a, b),
    }
}
