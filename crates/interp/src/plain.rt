// Instructions without an inner list that don't leave the order of their list.
ghost use Rattle.std.specs.Prelude.{◌≡◌, ◌<◌, IfOk, IfErr, IfSome, None, OnOk, Ok, Err, length};
ghost use Rattle.wasm_ast.specs.Operators.{access_operands};
ghost use Rattle.guest_state.specs.Snapshot.{operands_of};
ghost use Rattle.interp.specs.Operands.{HaveLast, IsPlain, IsReady};
ghost use Rattle.interp.specs.Rows.{Comes};

use crate::atomic::{atomic_load, atomic_store, compare_exchange, notify, rmw, wait};
use crate::memory::{grow, load, size, store};
use crate::numeric::numeric;
use crate::stop::Stop;
use crate::variable::{drop_operand, i32_const, i64_const, select, variable};
use guest_state::Thread;
use int_ops::Cause;
use linear_memory::Memory;
use std::alloc::AllocError;
use wasm_ast::{Access, Instr, MemArg};

// A trap as a stop.
#[inline(always)]
fn stops(done: Result<(), Cause>) -> Result<(), Stop>
    ensures goes { OnOk done (result ≡ Ok tt) }
    ensures traps { IfErr done (λ cause. result ≡ Err (Stop.Trap cause)) }
{
    match done {
        Ok(()) => Ok(()),
        Err(cause) => Err(Stop::Trap(cause)),
    }
}

/// An access of memory, or what the thread stands at: a trap, a wait or a notify.
#[inline(always)]
fn access(memory: &mut Memory, thread: &mut Thread, op: Access, arg: MemArg) -> Result<(), Stop>
    requires frames { 0 < length thread.old.frames }
    requires operands { HaveLast (access_operands op) (operands_of thread.old) }
    ensures { Comes (Instr.Access op arg) result memory.old memory.new thread.old thread.new }
{
    match op {
        Access::Load(op) => stops(load(memory, thread, op, arg)),
        Access::Store(of) => stops(store(memory, thread, of, arg)),
        Access::Notify => Err(notify(memory, thread, arg)),
        Access::Wait(of) => Err(wait(memory, thread, of, arg)),
        Access::AtomicLoad(of) => stops(atomic_load(memory, thread, of, arg)),
        Access::AtomicStore(of) => stops(atomic_store(memory, thread, of, arg)),
        Access::AtomicRmw(op, of) => stops(rmw(memory, thread, op, of, arg)),
        Access::AtomicCompareExchange(of) => stops(compare_exchange(memory, thread, of, arg)),
    }
}

/// An instruction that has no inner list and is no branch, call or return: it goes on, or the thread stands before it.
/// Any other gives none, and nothing changes. `AllocError` is want of memory for `memory.grow` and nothing else; nothing
/// is said of the thread then.
#[inline(always)]
pub fn plain(
    memory: &mut Memory,
    thread: &mut Thread,
    instr: &Instr,
) -> Result<Option<Result<(), Stop>>, AllocError>
    requires frames { 0 < length thread.old.frames }
    requires ready { IsReady instr.now thread.old }
    ensures comes { IfOk result (λ came. IfSome came (λ done. Comes instr.now done memory.old memory.new thread.old thread.new)) }
    ensures plain { IfOk result (λ came. IfSome came (λ done. IsPlain instr.now)) }
    ensures other { IfOk result (λ came. came ≡ None → IsPlain instr.now → ⊥) }
    ensures unchanged { IfOk result (λ came. came ≡ None → (thread.new ≡ thread.old) × (memory.new ≡ memory.old)) }
{
    Ok(match instr {
        Instr::Nop | Instr::Fence => Some(Ok(())),
        Instr::Drop => Some(stops(drop_operand(thread))),
        Instr::Select => Some(stops(select(thread))),
        Instr::Variable(op, index) => Some(stops(variable(thread, *op, *index))),
        Instr::Access(op, arg) => Some(access(memory, thread, *op, *arg)),
        Instr::MemorySize => Some(stops(size(memory, thread))),
        Instr::MemoryGrow => Some(Ok(grow(memory, thread)?)),
        Instr::I32Const(value) => Some(stops(i32_const(thread, value))),
        Instr::I64Const(value) => Some(stops(i64_const(thread, value))),
        Instr::Numeric(op) => Some(stops(numeric(thread, *op))),
        Instr::Unreachable | Instr::Float => Some(Err(Stop::Trap(Cause::Unreachable))),
        _ => None,
    })
}
