// What a thread stands at, without a step of it.
ghost use Rattle.std.specs.Prelude.{◌≡◌, ℕ, ◌+◌, ◌<◌, ◌≤◌, false, length};
ghost use Rattle.linear_memory.specs.LinearMemory.{LinearMemory};
ghost use Rattle.wasm_ast.specs.Operators.{access_operands, numeric_operands};
ghost use Rattle.wasm_ast.specs.Position.{IsList};
ghost use Rattle.wasm_ast.specs.declared.module.Module.{Module};
ghost use Rattle.wasm_ast.specs.declared.position.Position.{Position};
ghost use Rattle.guest_state.specs.Fits.{Fits};
ghost use Rattle.guest_state.specs.GuestThread.{Frame};
ghost use Rattle.guest_state.specs.Snapshot.{innermost_body, operands_of, thread_at};
ghost use Rattle.wasm_steps.specs.Control.{enters};
ghost use Rattle.wasm_steps.specs.Kept.{IsMemory};
ghost use Rattle.wasm_steps.specs.Step.{step};
ghost use Rattle.wasm_steps.specs.Stepped.{pushes};
ghost use Rattle.interp.specs.Operands.{HasVariable, HaveLast, IsPlain, IsReady};
ghost use Rattle.interp.specs.Rows.{left_at, of_first, row_of};
ghost use Rattle.interp.specs.Stops.{stop_of, trap_of};
ghost use Rattle.linear_memory.specs.Accesses.{accessed, accessed_atomically};

use crate::atomic::{notify, wait};
use crate::call::{call_indirect_stop, call_stop};
use crate::memory::{form_width, load_width};
use crate::step::instruction;
use crate::stop::Stop;
use guest_state::{MOST_LABELS, MOST_VALUES, Thread};
use int_ops::Cause;
use linear_memory::Memory;
use wasm_ast::{Access, Instr, MemArg, NumericOp, Position, VariableOp};
use wasm_numeric::binary;
use wasm_validate::Valid;

/// A trap of an instruction that pushes a value, where there is no room.
fn push_stop(thread: &Thread) -> Option<Stop>
    requires { 0 < length thread.now.frames }
    ensures { (m : Module) (memory : LinearMemory) (place next : Position) (value : ℕ) → result ≡ stop_of (of_first (λ f. pushes memory (thread_at m place thread.now) f (left_at m next thread.now) value) (thread_at m place thread.now).frames) }
{
    if thread.value_count() < MOST_VALUES {
        return None;
    }
    Some(Stop::Trap(Cause::StackFull))
}

/// A trap of an instruction that opens a label, where there is no room.
fn enter_stop(thread: &Thread) -> Option<Stop>
    ensures { (m : Module) (memory : LinearMemory) (place : Position) (change : Frame → Frame) → result ≡ stop_of (enters memory (thread_at m place thread.now) change) }
{
    if thread.label_count() < MOST_LABELS {
        return None;
    }
    Some(Stop::Trap(Cause::StackFull))
}

/// A trap of a variable instruction, if any.
fn variable_stop(thread: &Thread, op: VariableOp, index: u32) -> Option<Stop>
    requires frames { 0 < length thread.now.frames }
    requires found { HasVariable op index thread.now }
    ensures { (m : Module) (memory : LinearMemory) (place next : Position) → result ≡ stop_of (row_of m memory place next (Instr.Variable op index) thread.now) }
{
    match op {
        VariableOp::LocalGet => push_stop(thread),
        VariableOp::GlobalGet => push_stop(thread),
        VariableOp::LocalSet | VariableOp::LocalTee | VariableOp::GlobalSet => None,
    }
}

/// A trap of a numeric instruction, if any.
fn numeric_stop(thread: &Thread, op: NumericOp) -> Option<Stop>
    requires frames { 0 < length thread.now.frames }
    requires operands { HaveLast (numeric_operands op) (operands_of thread.now) }
    ensures { (m : Module) (memory : LinearMemory) (place next : Position) → result ≡ stop_of (row_of m memory place next (Instr.Numeric op) thread.now) }
{
    match op {
        NumericOp::Binary(of, op) => {
            let (a, b) = (thread.operand(1), thread.operand(0));
            match binary(of, op, a, b) {
                Ok(_) => None,
                Err(cause) => Some(Stop::Trap(cause)),
            }
        }
        NumericOp::Eqz(_) | NumericOp::Compare(_, _) | NumericOp::Unary(_, _) => None,
        NumericOp::Convert(_) => None,
    }
}

/// A trap of an access of so many bytes that passes the end of the memory.
fn access_stop(memory: &Memory, at: u64, width: u8) -> Option<Stop>
    ensures { result ≡ trap_of (accessed memory.now at width at) }
{
    if memory.holds(at, u64::from(width)) {
        return None;
    }
    Some(Stop::Trap(Cause::OutOfBounds))
}

/// A trap of an atomic access of so many bytes: first where it isn't aligned, then where it passes the end of the memory.
fn atomic_stop(memory: &Memory, at: u64, width: u8) -> Option<Stop>
    requires { 0 < width }
    ensures { result ≡ trap_of (accessed_atomically memory.now at width at) }
{
    if at % u64::from(width) != 0 {
        return Some(Stop::Trap(Cause::Misaligned));
    }
    access_stop(memory, at, width)
}

/// What a thread stands at before a plain load or store, or an atomic access, if not a step: a trap, a wait or a notify.
fn memory_stop(memory: &Memory, thread: &Thread, op: Access, arg: MemArg) -> Option<Stop>
    requires frames { 0 < length thread.now.frames }
    requires operands { HaveLast (access_operands op) (operands_of thread.now) }
    ensures { (m : Module) (place next : Position) → result ≡ stop_of (row_of m memory.now place next (Instr.Access op arg) thread.now) }
{
    let offset = u64::from(arg.offset);
    match op {
        Access::Load(op) => access_stop(memory, thread.operand(0) + offset, load_width(op)),
        Access::Store(of) => access_stop(memory, thread.operand(1) + offset, form_width(of)),
        Access::Notify => Some(notify(memory, thread, arg)),
        Access::Wait(of) => Some(wait(memory, thread, of, arg)),
        Access::AtomicLoad(of) => atomic_stop(memory, thread.operand(0) + offset, form_width(of)),
        Access::AtomicStore(of) => atomic_stop(memory, thread.operand(1) + offset, form_width(of)),
        Access::AtomicRmw(_, of) => atomic_stop(memory, thread.operand(1) + offset, form_width(of)),
        Access::AtomicCompareExchange(of) => {
            atomic_stop(memory, thread.operand(2) + offset, form_width(of))
        }
    }
}

/// What a thread stands at before an instruction that has no inner list and is no branch, call or return, if not a step.
fn plain_stop(memory: &Memory, thread: &Thread, instr: &Instr) -> Option<Stop>
    requires frames { 0 < length thread.now.frames }
    requires plain { IsPlain instr.now }
    requires ready { IsReady instr.now thread.now }
    ensures { (m : Module) (place next : Position) → result ≡ stop_of (row_of m memory.now place next instr.now thread.now) }
{
    match instr {
        Instr::Nop | Instr::Fence => None,
        Instr::Drop | Instr::Select | Instr::MemoryGrow => None,
        Instr::Variable(op, index) => variable_stop(thread, *op, *index),
        Instr::Access(op, arg) => memory_stop(memory, thread, *op, *arg),
        Instr::MemorySize => push_stop(thread),
        Instr::I32Const(_) => push_stop(thread),
        Instr::I64Const(_) => push_stop(thread),
        Instr::Numeric(op) => numeric_stop(thread, *op),
        _ => Some(Stop::Trap(Cause::Unreachable)),
    }
}

/// What a thread stands at that stands at a place of a list, if not a step.
pub fn stop_at(
    valid: &Valid,
    memory: &Memory,
    thread: &Thread,
    list: &[Instr],
    place: Position,
) -> Option<Stop>
    requires frames { 0 < length thread.now.frames }
    requires free { thread.now.full ≡ false }
    requires fits { Fits valid.now (thread_at valid.now place thread.now) }
    requires bytes { IsMemory memory.now }
    requires list { IsList (innermost_body valid.now thread.now) place.list list.now }
    ensures { result ≡ stop_of (step valid.now memory.now (thread_at valid.now place thread.now)) }
{
    let _module = valid.module();
    let Some(instr) = instruction(list, place) else {
        return None;
    };
    match instr {
        Instr::Block { .. } => enter_stop(thread),
        Instr::Loop { .. } => enter_stop(thread),
        Instr::If { .. } => enter_stop(thread),
        Instr::Br(_) => None,
        Instr::BrIf(_) => None,
        Instr::BrTable(_) => None,
        Instr::Return => None,
        Instr::Call(function) => call_stop(valid, thread, *function, 0),
        Instr::CallIndirect(of) => call_indirect_stop(valid, thread, *of),
        _ => plain_stop(memory, thread, instr),
    }
}
