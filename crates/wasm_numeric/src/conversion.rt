//! Conversions between the types of whole numbers: `cvtop` of section 2.4.1, and what a load makes
//! of the bytes that it read.

ghost use Rattle.std.specs.Prelude.{◌≡◌, ◌<◌, ◌^◌, ◌*◌};
ghost use Rattle.wasm_ast.specs.Operators.{load_type, load_exponent};
ghost use Rattle.wasm_numeric.specs.Numeric.{bits, source, target, convert_value, load_value};

use int_ops::{
    i32_extend8_s, i32_extend16_s, i32_wrap_i64, i64_extend_i32_s, i64_extend_i32_u, i64_extend8_s,
    i64_extend16_s, i64_extend32_s,
};
use wasm_ast::{ConvertOp, LoadOp};

/// The operand in the other type.
#[inline(always)]
pub fn convert(op: ConvertOp, a: u64) -> u64
    requires { a < 2 ^ bits (source op) }
    ensures value { result ≡ convert_value op a }
    ensures bound { result < 2 ^ bits (target op) }
{
    match op {
        ConvertOp::Wrap => u64::from(i32_wrap_i64(a)),
        ConvertOp::ExtendS => i64_extend_i32_s(a as u32),
        ConvertOp::ExtendU => i64_extend_i32_u(a as u32),
    }
}

/// The value that a load gives for the number that its bytes stand for.
#[inline(always)]
pub fn extend_loaded(op: LoadOp, n: u64) -> u64
    requires { n < 2 ^ (8 * 2 ^ load_exponent op) }
    ensures value { result ≡ load_value op n }
    ensures bound { result < 2 ^ bits (load_type op) }
{
    match op {
        LoadOp::I32From8S => u64::from(i32_extend8_s(n as u32)),
        LoadOp::I32From16S => u64::from(i32_extend16_s(n as u32)),
        LoadOp::I64From8S => i64_extend8_s(n),
        LoadOp::I64From16S => i64_extend16_s(n),
        LoadOp::I64From32S => i64_extend32_s(n),
        LoadOp::I32 | LoadOp::I32From8U | LoadOp::I32From16U => n,
        LoadOp::I64 | LoadOp::I64From8U | LoadOp::I64From16U | LoadOp::I64From32U => n,
    }
}
