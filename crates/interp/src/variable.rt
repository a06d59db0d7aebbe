// Parametric and variable instructions (WebAssembly Core 1.0, 4.4.2 and 4.4.3), and constants (4.4.1).
ghost use Rattle.std.specs.Prelude.{◌≡◌, ◌<◌, ◌≤◌, length};
ghost use Rattle.linear_memory.specs.LinearMemory.{LinearMemory};
ghost use Rattle.guest_state.specs.Snapshot.{locals_of, operands_of};
ghost use Rattle.interp.specs.Operands.{HasVariable};
ghost use Rattle.interp.specs.Rows.{Runs};

use crate::thread::{give, push, remove};
use guest_state::Thread;
use int_ops::Cause;
use wasm_ast::{Instr, VariableOp};

/// `drop`.
#[inline(always)]
pub fn drop_operand(thread: &mut Thread) -> Result<(), Cause>
    requires frames { 0 < length thread.old.frames }
    requires operands { 1 ≤ length (operands_of thread.old) }
    ensures { (memory : LinearMemory) → Runs Instr.Drop result memory memory thread.old thread.new }
{
    remove(thread, 1);
    Ok(())
}

/// `select`: the first of two operands where the last one isn't 0, else the second.
#[inline(always)]
pub fn select(thread: &mut Thread) -> Result<(), Cause>
    requires frames { 0 < length thread.old.frames }
    requires operands { 3 ≤ length (operands_of thread.old) }
    ensures { (memory : LinearMemory) → Runs Instr.Select result memory memory thread.old thread.new }
{
    let (first, second, condition) = (thread.operand(2), thread.operand(1), thread.operand(0));
    give(thread, 3, Ok(if condition == 0 { second } else { first }))
}

/// `i32.const`. `StackFull` comes exactly where there are 65,536 values.
#[inline(always)]
pub fn i32_const(thread: &mut Thread, value: &i32) -> Result<(), Cause>
    requires { 0 < length thread.old.frames }
    ensures { (memory : LinearMemory) → Runs (Instr.I32Const value.now) result memory memory thread.old thread.new }
{
    let value = *value;
    push(thread, u64::from(value.cast_unsigned()))
}

/// `i64.const`. `StackFull` comes exactly where there are 65,536 values.
#[inline(always)]
pub fn i64_const(thread: &mut Thread, value: &i64) -> Result<(), Cause>
    requires { 0 < length thread.old.frames }
    ensures { (memory : LinearMemory) → Runs (Instr.I64Const value.now) result memory memory thread.old thread.new }
{
    let value = *value;
    push(thread, value.cast_unsigned())
}

/// `local.get`. `StackFull` comes exactly where there are 65,536 values.
#[inline(always)]
fn local_get(thread: &mut Thread, index: u32) -> Result<(), Cause>
    requires frames { 0 < length thread.old.frames }
    requires found { index < length (locals_of thread.old) }
    ensures { (memory : LinearMemory) → Runs (Instr.Variable VariableOp.LocalGet index) result memory memory thread.old thread.new }
{
    let value = thread.local(index as usize);
    push(thread, value)
}

/// `local.set`.
#[inline(always)]
fn local_set(thread: &mut Thread, index: u32) -> Result<(), Cause>
    requires frames { 0 < length thread.old.frames }
    requires found { index < length (locals_of thread.old) }
    requires operands { 1 ≤ length (operands_of thread.old) }
    ensures { (memory : LinearMemory) → Runs (Instr.Variable VariableOp.LocalSet index) result memory memory thread.old thread.new }
{
    let value = thread.operand(0);
    thread.set_local(index as usize, value);
    thread.drop_operands(1);
    Ok(())
}

/// `local.tee`: the operand stays.
#[inline(always)]
fn local_tee(thread: &mut Thread, index: u32) -> Result<(), Cause>
    requires frames { 0 < length thread.old.frames }
    requires found { index < length (locals_of thread.old) }
    requires operands { 1 ≤ length (operands_of thread.old) }
    ensures { (memory : LinearMemory) → Runs (Instr.Variable VariableOp.LocalTee index) result memory memory thread.old thread.new }
{
    let value = thread.operand(0);
    thread.set_local(index as usize, value);
    Ok(())
}

/// `global.get`. `StackFull` comes exactly where there are 65,536 values.
#[inline(always)]
fn global_get(thread: &mut Thread, index: u32) -> Result<(), Cause>
    requires frames { 0 < length thread.old.frames }
    requires found { index < length thread.old.globals }
    ensures { (memory : LinearMemory) → Runs (Instr.Variable VariableOp.GlobalGet index) result memory memory thread.old thread.new }
{
    let value = thread.global(index as usize);
    push(thread, value)
}

/// `global.set`. The globals are the thread's own.
#[inline(always)]
fn global_set(thread: &mut Thread, index: u32) -> Result<(), Cause>
    requires frames { 0 < length thread.old.frames }
    requires found { index < length thread.old.globals }
    requires operands { 1 ≤ length (operands_of thread.old) }
    ensures { (memory : LinearMemory) → Runs (Instr.Variable VariableOp.GlobalSet index) result memory memory thread.old thread.new }
{
    let value = thread.operand(0);
    thread.set_global(index as usize, value);
    thread.drop_operands(1);
    Ok(())
}

/// A variable instruction.
#[inline(always)]
pub fn variable(thread: &mut Thread, op: VariableOp, index: u32) -> Result<(), Cause>
    requires frames { 0 < length thread.old.frames }
    requires found { HasVariable op index thread.old }
    ensures { (memory : LinearMemory) → Runs (Instr.Variable op index) result memory memory thread.old thread.new }
{
    match op {
        VariableOp::LocalGet => local_get(thread, index),
        VariableOp::LocalSet => local_set(thread, index),
        VariableOp::LocalTee => local_tee(thread, index),
        VariableOp::GlobalGet => global_get(thread, index),
        VariableOp::GlobalSet => global_set(thread, index),
    }
}
