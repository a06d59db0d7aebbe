//! The operators by the names of their instructions (WebAssembly Core 1.0, 4.3.2 and 4.3.4).

use super::value::Value;
use int_ops::*;

/// What the operator of that name gives on one number of 32 bits.
fn unary_32(name: &str, a: u32) -> Option<Value> {
    Some(match name {
        "i32.eqz" => Value::I32(i32_eqz(a)),
        "i32.clz" => Value::I32(i32_clz(a)),
        "i32.ctz" => Value::I32(i32_ctz(a)),
        "i32.popcnt" => Value::I32(i32_popcnt(a)),
        "i64.extend_i32_s" => Value::I64(i64_extend_i32_s(a)),
        "i64.extend_i32_u" => Value::I64(i64_extend_i32_u(a)),
        _ => return None,
    })
}

/// What the operator of that name gives on one number of 64 bits.
fn unary_64(name: &str, a: u64) -> Option<Value> {
    Some(match name {
        "i64.eqz" => Value::I32(i64_eqz(a)),
        "i64.clz" => Value::I64(i64_clz(a)),
        "i64.ctz" => Value::I64(i64_ctz(a)),
        "i64.popcnt" => Value::I64(i64_popcnt(a)),
        "i32.wrap_i64" => Value::I32(i32_wrap_i64(a)),
        _ => return None,
    })
}

/// What the operator of that name gives on two numbers of 32 bits.
fn binary_32(name: &str, a: u32, b: u32) -> Option<Value> {
    Some(match name {
        "i32.add" => Value::I32(i32_add(a, b)),
        "i32.sub" => Value::I32(i32_sub(a, b)),
        "i32.mul" => Value::I32(i32_mul(a, b)),
        "i32.and" => Value::I32(i32_and(a, b)),
        "i32.or" => Value::I32(i32_or(a, b)),
        "i32.xor" => Value::I32(i32_xor(a, b)),
        "i32.shl" => Value::I32(i32_shl(a, b)),
        "i32.shr_s" => Value::I32(i32_shr_s(a, b)),
        "i32.shr_u" => Value::I32(i32_shr_u(a, b)),
        "i32.rotl" => Value::I32(i32_rotl(a, b)),
        "i32.rotr" => Value::I32(i32_rotr(a, b)),
        "i32.div_s" => Value::of_32(i32_div_s(a, b)),
        "i32.div_u" => Value::of_32(i32_div_u(a, b)),
        "i32.rem_s" => Value::of_32(i32_rem_s(a, b)),
        "i32.rem_u" => Value::of_32(i32_rem_u(a, b)),
        _ => return None,
    })
}

/// What the comparison of that name gives on two numbers of 32 bits.
fn comparison_32(name: &str, a: u32, b: u32) -> Option<Value> {
    Some(Value::I32(match name {
        "i32.eq" => i32_eq(a, b),
        "i32.ne" => i32_ne(a, b),
        "i32.lt_s" => i32_lt_s(a, b),
        "i32.lt_u" => i32_lt_u(a, b),
        "i32.gt_s" => i32_gt_s(a, b),
        "i32.gt_u" => i32_gt_u(a, b),
        "i32.le_s" => i32_le_s(a, b),
        "i32.le_u" => i32_le_u(a, b),
        "i32.ge_s" => i32_ge_s(a, b),
        "i32.ge_u" => i32_ge_u(a, b),
        _ => return None,
    }))
}

/// What the operator of that name gives on two numbers of 64 bits.
fn binary_64(name: &str, a: u64, b: u64) -> Option<Value> {
    Some(match name {
        "i64.add" => Value::I64(i64_add(a, b)),
        "i64.sub" => Value::I64(i64_sub(a, b)),
        "i64.mul" => Value::I64(i64_mul(a, b)),
        "i64.and" => Value::I64(i64_and(a, b)),
        "i64.or" => Value::I64(i64_or(a, b)),
        "i64.xor" => Value::I64(i64_xor(a, b)),
        "i64.shl" => Value::I64(i64_shl(a, b)),
        "i64.shr_s" => Value::I64(i64_shr_s(a, b)),
        "i64.shr_u" => Value::I64(i64_shr_u(a, b)),
        "i64.rotl" => Value::I64(i64_rotl(a, b)),
        "i64.rotr" => Value::I64(i64_rotr(a, b)),
        "i64.div_s" => Value::of_64(i64_div_s(a, b)),
        "i64.div_u" => Value::of_64(i64_div_u(a, b)),
        "i64.rem_s" => Value::of_64(i64_rem_s(a, b)),
        "i64.rem_u" => Value::of_64(i64_rem_u(a, b)),
        _ => return None,
    })
}

/// What the comparison of that name gives on two numbers of 64 bits.
fn comparison_64(name: &str, a: u64, b: u64) -> Option<Value> {
    Some(Value::I32(match name {
        "i64.eq" => i64_eq(a, b),
        "i64.ne" => i64_ne(a, b),
        "i64.lt_s" => i64_lt_s(a, b),
        "i64.lt_u" => i64_lt_u(a, b),
        "i64.gt_s" => i64_gt_s(a, b),
        "i64.gt_u" => i64_gt_u(a, b),
        "i64.le_s" => i64_le_s(a, b),
        "i64.le_u" => i64_le_u(a, b),
        "i64.ge_s" => i64_ge_s(a, b),
        "i64.ge_u" => i64_ge_u(a, b),
        _ => return None,
    }))
}

/// The operator of an atomic instruction that reads, changes and writes.
fn atomic_op(name: &str) -> Option<AtomicOp> {
    Some(match name {
        "add" => AtomicOp::Add,
        "sub" => AtomicOp::Sub,
        "and" => AtomicOp::And,
        "or" => AtomicOp::Or,
        "xor" => AtomicOp::Xor,
        "xchg" => AtomicOp::Exchange,
        _ => return None,
    })
}

/// What such an instruction writes, by the name of the instruction without its type: of 64 bits there are those on all
/// bytes and those on fewer.
fn atomic(name: &str, old: u64, argument: u64) -> Option<Value> {
    let (width, operator) = name.split_once(".")?;
    let op = atomic_op(operator)?;
    Some(Value::I64(match width {
        "rmw8" => combine(op, old, argument, 1),
        "rmw16" => combine(op, old, argument, 2),
        "rmw32" => combine(op, old, argument, 4),
        "rmw" => combine(op, old, argument, 8),
        _ => return None,
    }))
}

/// What the operator of that name gives on one number.
pub fn unary(name: &str, a: u64) -> Option<Value> {
    match u32::try_from(a) {
        Ok(narrow) => unary_32(name, narrow).or(unary_64(name, a)),
        Err(_) => unary_64(name, a),
    }
}

/// What the operator of that name gives on two numbers of 32 bits.
fn pair_32(name: &str, a: u64, b: u64) -> Option<Value> {
    let a = u32::try_from(a).ok()?;
    let b = u32::try_from(b).ok()?;
    binary_32(name, a, b).or(comparison_32(name, a, b))
}

/// What the operator of that name gives on two numbers.
pub fn binary(name: &str, a: u64, b: u64) -> Option<Value> {
    pair_32(name, a, b)
        .or(binary_64(name, a, b))
        .or(comparison_64(name, a, b))
        .or(atomic(name, a, b))
}
