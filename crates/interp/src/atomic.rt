// Atomic instructions (threads proposal). What they give is extended by zeros.
ghost use Rattle.std.specs.Prelude.{◌≡◌, ◌<◌, length, Some};
ghost use Rattle.wasm_ast.specs.Operators.{access_operands};
ghost use Rattle.guest_state.specs.Snapshot.{operands_of};
ghost use Rattle.linear_memory.specs.Accesses.{accessed_atomically};
ghost use Rattle.wasm_ast.specs.declared.module.Module.{Module};
ghost use Rattle.wasm_ast.specs.declared.position.Position.{Position};
ghost use Rattle.wasm_steps.specs.Atomic.{operator_of, wait_width};
ghost use Rattle.interp.specs.Stops.{stop_of};
ghost use Rattle.interp.specs.Operands.{HaveLast};
ghost use Rattle.interp.specs.Rows.{row_of, Runs};

use crate::memory::form_width;
use crate::stop::Stop;
use crate::thread::{give, put, remove};
use guest_state::Thread;
use int_ops::{AtomicOp, Cause};
use linear_memory::Memory;
use wasm_ast::{Access, Form, Instr, IntType, MemArg, RmwOp};

/// The operator of a read-modify-write.
#[inline(always)]
fn operator_of(op: RmwOp) -> AtomicOp
    ensures { result ≡ operator_of op }
{
    match op {
        RmwOp::Add => AtomicOp::Add,
        RmwOp::Sub => AtomicOp::Sub,
        RmwOp::And => AtomicOp::And,
        RmwOp::Or => AtomicOp::Or,
        RmwOp::Xor => AtomicOp::Xor,
        RmwOp::Exchange => AtomicOp::Exchange,
    }
}

/// An atomic load. `Misaligned` comes exactly where its address is no multiple of its width, and else `OutOfBounds` exactly
/// where its bytes pass the end of the memory.
#[inline(always)]
pub fn atomic_load(memory: &Memory, thread: &mut Thread, of: Form, arg: MemArg) -> Result<(), Cause>
    requires frames { 0 < length thread.old.frames }
    requires operands { HaveLast (access_operands (Access.AtomicLoad of)) (operands_of thread.old) }
    ensures { Runs (Instr.Access (Access.AtomicLoad of) arg) result memory.now memory.now thread.old thread.new }
{
    let at = thread.operand(0) + u64::from(arg.offset);
    let width = form_width(of);
    if at % u64::from(width) != 0 {
        return Err(Cause::Misaligned);
    }
    let number = memory.load(at, width)?;
    give(thread, 1, Ok(number))
}

/// An atomic store. `Misaligned` comes exactly where its address is no multiple of its width, and else `OutOfBounds` exactly
/// where its bytes pass the end of the memory.
#[inline(always)]
pub fn atomic_store(
    memory: &mut Memory,
    thread: &mut Thread,
    of: Form,
    arg: MemArg,
) -> Result<(), Cause>
    requires frames { 0 < length thread.old.frames }
    requires operands { HaveLast (access_operands (Access.AtomicStore of)) (operands_of thread.old) }
    ensures { Runs (Instr.Access (Access.AtomicStore of) arg) result memory.old memory.new thread.old thread.new }
{
    let at = thread.operand(1) + u64::from(arg.offset);
    let value = thread.operand(0);
    let width = form_width(of);
    if at % u64::from(width) != 0 {
        return Err(Cause::Misaligned);
    }
    memory.store(at, width, value)?;
    remove(thread, 2);
    Ok(())
}

/// An atomic read-modify-write, which traps like an atomic store.
#[inline(always)]
pub fn rmw(
    memory: &mut Memory,
    thread: &mut Thread,
    op: RmwOp,
    of: Form,
    arg: MemArg,
) -> Result<(), Cause>
    requires frames { 0 < length thread.old.frames }
    requires operands { HaveLast (access_operands (Access.AtomicRmw op of)) (operands_of thread.old) }
    ensures { Runs (Instr.Access (Access.AtomicRmw op of) arg) result memory.old memory.new thread.old thread.new }
{
    let at = thread.operand(1) + u64::from(arg.offset);
    let argument = thread.operand(0);
    match memory.rmw(at, form_width(of), operator_of(op), argument) {
        Ok(old) => {
            put(thread, 2, old);
            Ok(())
        }
        Err(cause) => Err(cause),
    }
}

/// An atomic compare and exchange, which traps like an atomic store.
#[inline(always)]
pub fn compare_exchange(
    memory: &mut Memory,
    thread: &mut Thread,
    of: Form,
    arg: MemArg,
) -> Result<(), Cause>
    requires frames { 0 < length thread.old.frames }
    requires operands { HaveLast (access_operands (Access.AtomicCompareExchange of)) (operands_of thread.old) }
    ensures { Runs (Instr.Access (Access.AtomicCompareExchange of) arg) result memory.old memory.new thread.old thread.new }
{
    let at = thread.operand(2) + u64::from(arg.offset);
    let (expected, new) = (thread.operand(1), thread.operand(0));
    match memory.compare_exchange(at, form_width(of), expected, new) {
        Ok(old) => {
            put(thread, 3, old);
            Ok(())
        }
        Err(cause) => Err(cause),
    }
}

/// The bytes that a wait compares.
#[inline(always)]
fn wait_width(of: IntType) -> u8
    ensures { result ≡ wait_width of }
{
    match of {
        IntType::I32 => 4,
        IntType::I64 => 8,
    }
}

/// An address at which so many bytes lie within the memory. `Misaligned` comes exactly where it is no multiple of the width,
/// and else `OutOfBounds` exactly where the bytes pass the end.
fn reached(memory: &Memory, at: u64, width: u8) -> Result<u32, Cause>
    requires { 0 < width }
    ensures { result ≡ accessed_atomically memory.now at width at }
{
    let _pages = memory.size();
    if at % u64::from(width) != 0 {
        return Err(Cause::Misaligned);
    }
    if !memory.holds(at, u64::from(width)) {
        return Err(Cause::OutOfBounds);
    }
    Ok(at as u32)
}

/// What a thread stands at before a wait: the wait, or a trap, first where no threads share the memory, then as at an atomic
/// access.
#[inline(always)]
pub fn wait(memory: &Memory, thread: &Thread, of: IntType, arg: MemArg) -> Stop
    requires frames { 0 < length thread.now.frames }
    requires operands { HaveLast (access_operands (Access.Wait of)) (operands_of thread.now) }
    ensures { (m : Module) (place next : Position) → stop_of (row_of m memory.now place next (Instr.Access (Access.Wait of) arg) thread.now) ≡ Some result }
{
    if !memory.shared() {
        return Stop::Trap(Cause::NotShared);
    }
    let at = thread.operand(2) + u64::from(arg.offset);
    let width = wait_width(of);
    match reached(memory, at, width) {
        Ok(at) => Stop::Wait { width, at },
        Err(cause) => Stop::Trap(cause),
    }
}

/// What a thread stands at before a notify: the notify, or a trap as at an atomic access of four bytes.
#[inline(always)]
pub fn notify(memory: &Memory, thread: &Thread, arg: MemArg) -> Stop
    requires frames { 0 < length thread.now.frames }
    requires operands { HaveLast (access_operands Access.Notify) (operands_of thread.now) }
    ensures { (m : Module) (place next : Position) → stop_of (row_of m memory.now place next (Instr.Access Access.Notify arg) thread.now) ≡ Some result }
{
    let at = thread.operand(1) + u64::from(arg.offset);
    match reached(memory, at, 4) {
        Ok(at) => Stop::Notify { at },
        Err(cause) => Stop::Trap(cause),
    }
}
