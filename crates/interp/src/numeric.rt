// Numeric instructions (WebAssembly Core 1.0, 4.4.1). The last operand of two was pushed last.
ghost use Rattle.std.specs.Prelude.{◌≡◌, ◌<◌, ◌≤◌, length};
ghost use Rattle.linear_memory.specs.LinearMemory.{LinearMemory};
ghost use Rattle.wasm_ast.specs.Operators.{numeric_operands};
ghost use Rattle.guest_state.specs.Snapshot.{operands_of};
ghost use Rattle.interp.specs.Operands.{HaveLast};
ghost use Rattle.interp.specs.Rows.{Runs};

use crate::thread::give;
use guest_state::Thread;
use int_ops::Cause;
use wasm_ast::{Instr, NumericOp};
use wasm_numeric::{binary, compare, convert, test, unary};

/// A numeric instruction other than a constant. `DivideByZero` and `Overflow` come exactly where a division or a
/// remainder traps.
#[inline(always)]
pub fn numeric(thread: &mut Thread, op: NumericOp) -> Result<(), Cause>
    requires frames { 0 < length thread.old.frames }
    requires operands { HaveLast (numeric_operands op) (operands_of thread.old) }
    ensures { (memory : LinearMemory) → Runs (Instr.Numeric op) result memory memory thread.old thread.new }
{
    match op {
        NumericOp::Eqz(of) => give(thread, 1, Ok(test(of, thread.operand(0)))),
        NumericOp::Compare(of, op) => {
            let (a, b) = (thread.operand(1), thread.operand(0));
            give(thread, 2, Ok(compare(of, op, a, b)))
        }
        NumericOp::Unary(of, op) => give(thread, 1, Ok(unary(of, op, thread.operand(0)))),
        NumericOp::Binary(of, op) => {
            let (a, b) = (thread.operand(1), thread.operand(0));
            give(thread, 2, binary(of, op, a, b))
        }
        NumericOp::Convert(op) => give(thread, 1, Ok(convert(op, thread.operand(0)))),
    }
}
