// Memory instructions (WebAssembly Core 1.0, 4.4.4). An address has its offset added, and doesn't wrap.
ghost use Rattle.std.specs.Prelude.{◌≡◌, ◌<◌, ◌≤◌, ◌∷◌, [], length, IfOk, OnErr};
ghost use Rattle.int_ops.specs.Atomic.{IsAccessWidth};
ghost use Rattle.linear_memory.specs.LinearMemory.{LinearMemory};
ghost use Rattle.wasm_ast.specs.Operators.{access_operands};
ghost use Rattle.guest_state.specs.Snapshot.{operands_of};
ghost use Rattle.wasm_steps.specs.Memory.{form_width, load_width};
ghost use Rattle.interp.specs.Operands.{HaveLast};
ghost use Rattle.interp.specs.Rows.{Runs};

use crate::thread::{give, push, put, remove};
use guest_state::Thread;
use int_ops::Cause;
use linear_memory::Memory;
use std::alloc::AllocError;
use wasm_ast::{Access, Form, Instr, LoadOp, MemArg, ValType};
use wasm_numeric::extend_loaded;

/// The bytes that a load reads.
#[inline(always)]
pub fn load_width(op: LoadOp) -> u8
    ensures value { result ≡ load_width op }
    ensures access { IsAccessWidth result }
{
    match op {
        LoadOp::I32From8S | LoadOp::I32From8U | LoadOp::I64From8S | LoadOp::I64From8U => 1,
        LoadOp::I32From16S | LoadOp::I32From16U | LoadOp::I64From16S | LoadOp::I64From16U => 2,
        LoadOp::I32 | LoadOp::I64From32S | LoadOp::I64From32U => 4,
        LoadOp::I64 => 8,
    }
}

/// The bytes that a store or an atomic access moves.
#[inline(always)]
pub fn form_width(of: Form) -> u8
    ensures value { result ≡ form_width of }
    ensures access { IsAccessWidth result }
{
    match of {
        Form::I32Low8 | Form::I64Low8 => 1,
        Form::I32Low16 | Form::I64Low16 => 2,
        Form::I32 | Form::I64Low32 => 4,
        Form::I64 => 8,
    }
}

// A load of a form that the caller knows when it is compiled. `OutOfBounds` comes exactly where its bytes pass the end of the memory.
#[inline(always)]
fn load_as(memory: &Memory, thread: &mut Thread, op: LoadOp, arg: MemArg) -> Result<(), Cause>
    requires frames { 0 < length thread.old.frames }
    requires operands { HaveLast (access_operands (Access.Load op)) (operands_of thread.old) }
    ensures { Runs (Instr.Access (Access.Load op) arg) result memory.now memory.now thread.old thread.new }
{
    let at = thread.operand(0) + u64::from(arg.offset);
    let number = memory.load(at, load_width(op))?;
    give(thread, 1, Ok(extend_loaded(op, number)))
}

/// A load. `OutOfBounds` comes exactly where its bytes pass the end of the memory.
#[inline(always)]
pub fn load(memory: &Memory, thread: &mut Thread, op: LoadOp, arg: MemArg) -> Result<(), Cause>
    requires frames { 0 < length thread.old.frames }
    requires operands { HaveLast (access_operands (Access.Load op)) (operands_of thread.old) }
    ensures { Runs (Instr.Access (Access.Load op) arg) result memory.now memory.now thread.old thread.new }
{
    match op {
        LoadOp::I32 => load_as(memory, thread, LoadOp::I32, arg),
        LoadOp::I64 => load_as(memory, thread, LoadOp::I64, arg),
        LoadOp::I32From8S => load_as(memory, thread, LoadOp::I32From8S, arg),
        LoadOp::I32From8U => load_as(memory, thread, LoadOp::I32From8U, arg),
        LoadOp::I32From16S => load_as(memory, thread, LoadOp::I32From16S, arg),
        LoadOp::I32From16U => load_as(memory, thread, LoadOp::I32From16U, arg),
        LoadOp::I64From8S => load_as(memory, thread, LoadOp::I64From8S, arg),
        LoadOp::I64From8U => load_as(memory, thread, LoadOp::I64From8U, arg),
        LoadOp::I64From16S => load_as(memory, thread, LoadOp::I64From16S, arg),
        LoadOp::I64From16U => load_as(memory, thread, LoadOp::I64From16U, arg),
        LoadOp::I64From32S => load_as(memory, thread, LoadOp::I64From32S, arg),
        LoadOp::I64From32U => load_as(memory, thread, LoadOp::I64From32U, arg),
    }
}

// A store of a form that the caller knows when it is compiled. `OutOfBounds` comes exactly where its bytes pass the end of the memory.
#[inline(always)]
fn store_as(memory: &mut Memory, thread: &mut Thread, of: Form, arg: MemArg) -> Result<(), Cause>
    requires frames { 0 < length thread.old.frames }
    requires operands { HaveLast (access_operands (Access.Store of)) (operands_of thread.old) }
    ensures { Runs (Instr.Access (Access.Store of) arg) result memory.old memory.new thread.old thread.new }
{
    let at = thread.operand(1) + u64::from(arg.offset);
    let value = thread.operand(0);
    memory.store(at, form_width(of), value)?;
    remove(thread, 2);
    Ok(())
}

/// A store. `OutOfBounds` comes exactly where its bytes pass the end of the memory.
#[inline(always)]
pub fn store(memory: &mut Memory, thread: &mut Thread, of: Form, arg: MemArg) -> Result<(), Cause>
    requires frames { 0 < length thread.old.frames }
    requires operands { HaveLast (access_operands (Access.Store of)) (operands_of thread.old) }
    ensures { Runs (Instr.Access (Access.Store of) arg) result memory.old memory.new thread.old thread.new }
{
    match of {
        Form::I32 => store_as(memory, thread, Form::I32, arg),
        Form::I64 => store_as(memory, thread, Form::I64, arg),
        Form::I32Low8 => store_as(memory, thread, Form::I32Low8, arg),
        Form::I32Low16 => store_as(memory, thread, Form::I32Low16, arg),
        Form::I64Low8 => store_as(memory, thread, Form::I64Low8, arg),
        Form::I64Low16 => store_as(memory, thread, Form::I64Low16, arg),
        Form::I64Low32 => store_as(memory, thread, Form::I64Low32, arg),
    }
}

/// `memory.size`. `StackFull` comes exactly where there are 65,536 values.
#[inline(always)]
pub fn size(memory: &Memory, thread: &mut Thread) -> Result<(), Cause>
    requires frames { 0 < length thread.old.frames }
    ensures { Runs Instr.MemorySize result memory.now memory.now thread.old thread.new }
{
    push(thread, u64::from(memory.size()))
}

/// `memory.grow`, which never traps. `AllocError` is want of memory and nothing else; nothing is said of the thread then.
#[inline(always)]
pub fn grow(memory: &mut Memory, thread: &mut Thread) -> Result<(), AllocError>
    requires frames { 0 < length thread.old.frames }
    requires operands { HaveLast (ValType.I32 ∷ []) (operands_of thread.old) }
    ensures { IfOk result (λ done. Runs {X = Unit {0}} Instr.MemoryGrow (Ok done) memory.old memory.new thread.old thread.new) }
{
    let pages = thread.operand(0) as u32;
    let old = memory.grow(pages)?;
    put(thread, 1, u64::from(old));
    Ok(())
}
