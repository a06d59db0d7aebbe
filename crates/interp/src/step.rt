// One step: it picks the group of the next instruction.
ghost use Rattle.std.specs.Prelude.{◌≡◌, ◌+◌, ◌<◌, ◌^◌, false, if◌then◌else◌, IfOk, IsSome, Some, length, option_copied};
ghost use Rattle.linear_memory.specs.LinearMemory.{LinearMemory};
ghost use Rattle.wasm_ast.specs.Position.{IsInstrAt, IsList, next};
ghost use Rattle.wasm_ast.specs.Sequence.{Sequence};
ghost use Rattle.guest_state.specs.Fits.{Fits};
ghost use Rattle.guest_state.specs.Snapshot.{innermost_body, thread_at};
ghost use Rattle.wasm_steps.specs.Control.{arity_of};
ghost use Rattle.wasm_steps.specs.Kept.{IsMemory};
ghost use Rattle.wasm_steps.specs.Step.{step};
ghost use Rattle.interp.specs.Operands.{IsPlain};
ghost use Rattle.interp.specs.Reached.{Reaches};

use crate::call::{call, call_indirect};
use crate::control::{br, br_if, br_table, choose, end, enter, return_};
use crate::plain::plain;
use crate::stop::Reached;
use guest_state::Thread;
use linear_memory::Memory;
use std::alloc::AllocError;
use wasm_ast::{Instr, Position, ValType};
use wasm_validate::Valid;

/// The instruction at a place of a list, if it isn't at its end.
#[inline(always)]
pub fn instruction(list: &[Instr], place: Position) -> Option<&Instr>
    ensures begins { (body : Sequence) → IsList body place.list list.now → IsInstrAt body place (option_copied result) }
    ensures room { IsSome result → place.index + 1 < 2 ^ 64 }
{
    list.get(place.index)
}

// Whether a block of that type leaves a value.
#[inline(always)]
fn carries(of: Option<ValType>) -> bool
    ensures { (if result then 1 else 0) ≡ arity_of of }
{
    of.is_some()
}

/// A step at an instruction that has an inner list or is a branch, call or return.
#[inline(always)]
fn control(
    valid: &Valid,
    memory: &Memory,
    thread: &mut Thread,
    list: &[Instr],
    place: Position,
    instr: &Instr,
) -> Reached
    requires frames { 0 < length thread.old.frames }
    requires free { thread.old.full ≡ false }
    requires fits { Fits valid.now (thread_at valid.now place thread.old) }
    requires bytes { IsMemory memory.now }
    requires list { IsList (innermost_body valid.now thread.old) place.list list.now }
    requires room { place.index + 1 < 2 ^ 64 }
    requires instr { IsInstrAt (innermost_body valid.now thread.old) place (Some instr.now) }
    requires control { IsPlain instr.now → ⊥ }
    ensures { Reaches valid.now (next place) (step valid.now memory.now (thread_at valid.now place thread.old)) result memory.now memory.now thread.old thread.new }
{
    let _module = valid.module();
    let behind = place.next();
    let last = Position {
        list: place.list,
        index: list.len(),
    };
    match instr {
        Instr::Block { of, body } => enter(thread, behind, behind, carries(*of), *body),
        Instr::Loop { of: _, body } => enter(thread, place, behind, false, *body),
        Instr::If {
            of,
            then,
            otherwise,
        } => choose(thread, behind, carries(*of), *then, *otherwise),
        Instr::Br(depth) => br(thread, *depth, last),
        Instr::BrIf(depth) => br_if(thread, *depth, last),
        Instr::BrTable(targets) => br_table(thread, targets, last),
        Instr::Return => return_(thread),
        Instr::Call(function) => call(valid, thread, *function, 0, behind),
        Instr::CallIndirect(of) => call_indirect(valid, thread, *of, behind),
        _ => unreachable!(),
    }
}

/// Runs the next step of a thread that stands at a place of a list, or says what it stands at. `AllocError` is want of memory
/// for `memory.grow` and nothing else; nothing is said of the thread then.
#[inline(always)]
pub fn step(
    valid: &Valid,
    memory: &mut Memory,
    thread: &mut Thread,
    list: &[Instr],
    place: Position,
) -> Result<Reached, AllocError>
    requires frames { 0 < length thread.old.frames }
    requires free { thread.old.full ≡ false }
    requires fits { Fits valid.now (thread_at valid.now place thread.old) }
    requires bytes { IsMemory memory.old }
    requires list { IsList (innermost_body valid.now thread.old) place.list list.now }
    ensures room { IfOk result (λ reached. reached ≡ Reached.Behind → place.index + 1 < 2 ^ 64) }
    ensures reaches { IfOk result (λ reached. Reaches valid.now (next place) (step valid.now memory.old (thread_at valid.now place thread.old)) reached memory.old memory.new thread.old thread.new) }
{
    let _module = valid.module();
    let Some(instr) = instruction(list, place) else {
        return Ok(end(thread));
    };
    // The instructions that most steps run come first, so that each has one jump.
    match plain(memory, thread, instr)? {
        Some(Ok(())) => Ok(Reached::Behind),
        Some(Err(stop)) => Ok(Reached::Stands(stop)),
        None => Ok(control(valid, memory, thread, list, place, instr)),
    }
}
