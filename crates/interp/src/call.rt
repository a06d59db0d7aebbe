// Calls (WebAssembly Core 1.0, 4.4.5 and 4.4.7).
ghost use Rattle.std.specs.Prelude.{◌≡◌, ◌+◌, ◌-◌, ◌<◌, ◌≤◌, ◌∷◌, ℕ, List, IfOk, IfErr, Some, length};
ghost use Rattle.linear_memory.specs.LinearMemory.{LinearMemory};
ghost use Rattle.wasm_ast.specs.Sequence.{Sequence};
ghost use Rattle.wasm_ast.specs.TypingModule.{functions_of};
ghost use Rattle.wasm_ast.specs.Table.{function_type, same_function_type, table_size};
ghost use Rattle.wasm_ast.specs.declared.module.Module.{Module};
ghost use Rattle.wasm_ast.specs.declared.position.Position.{Position};
ghost use Rattle.guest_state.specs.GuestThread.{Frame, GuestThread, value_count};
ghost use Rattle.guest_state.specs.Snapshot.{operands_of, thread_at};
ghost use Rattle.wasm_steps.specs.Control.{step_call, step_call_indirect};
ghost use Rattle.wasm_steps.specs.Stepped.{Stuck, Trapped};
ghost use Rattle.interp.specs.Reached.{Reaches};
ghost use Rattle.interp.specs.Rows.{Moves, call_row, row_of};
ghost use Rattle.interp.specs.Stops.{stop_of};

use crate::stop::{Reached, Stop};
use guest_state::{MOST_VALUES, Thread};
use int_ops::Cause;
use wasm_ast::{FuncType, Instr, Module, Position, same_types};
use wasm_validate::Valid;

/// Whether two types of functions are equal.
fn same_function_type(one: &FuncType, other: &FuncType) -> bool
    ensures { result ≡ same_function_type one.now other.now }
{
    same_types(one.params.as_slice(), other.params.as_slice())
        && same_types(one.results.as_slice(), other.results.as_slice())
}

/// How many elements the table has.
fn table_size(module: &Module) -> u32
    ensures { result ≡ table_size «module».now }
{
    match module.tables.as_slice().first() {
        Some(limits) => limits.min,
        None => 0,
    }
}

/// The function that an indirect call names by a place of the table, or why it traps, in this order: past the end of the
/// table, at an empty place, at a function of another type than that of the index `of`.
pub fn found(valid: &Valid, of: u32, place: u64) -> Result<u32, Cause>
    ensures ok { IfOk result (λ x. (memory : LinearMemory) (t : GuestThread) (f : Frame) (rest : Sequence) (operands : List ℕ) → step_call_indirect valid.now memory t f of rest (place ∷ operands) ≡ step_call valid.now memory t f x rest operands) }
    ensures err { IfErr result (λ cause. (other : LinearMemory) (u : GuestThread) (g : Frame) (after : Sequence) (below : List ℕ) → (step_call_indirect valid.now other u g of after (place ∷ below) ≡ Stuck → ⊥) → (memory : LinearMemory) (t : GuestThread) (f : Frame) (rest : Sequence) (operands : List ℕ) → step_call_indirect valid.now memory t f of rest (place ∷ operands) ≡ Trapped cause) }
{
    let module = valid.module();
    if place >= u64::from(table_size(module)) {
        return Err(Cause::UndefinedElement);
    }
    let Some(function) = valid.element(place as u32) else {
        return Err(Cause::UninitializedElement);
    };
    let Some(wanted) = module.types.as_slice().get(of as usize) else {
        return Err(Cause::TypeMismatch);
    };
    let Some(found) = valid.function_type(function) else {
        return Err(Cause::TypeMismatch);
    };
    if same_function_type(wanted, found) {
        return Ok(function);
    }
    Err(Cause::TypeMismatch)
}

/// What the thread stands at before a call of the imported function of that index, where so many operands stand over its
/// arguments: the call, or a trap where its answer would find no room.
#[inline(always)]
fn stand(valid: &Valid, thread: &Thread, function: u32, over: usize) -> Stop
    requires frames { 0 < length thread.now.frames }
    requires one { over ≤ 1 }
    requires over { over ≤ length (operands_of thread.now) }
    requires imported { function < length (functions_of valid.now.imports) }
    requires moves { Moves (λ memory place next. call_row valid.now memory place next function over thread.now) }
    ensures { (memory : LinearMemory) (place next : Position) → stop_of (call_row valid.now memory place next function over thread.now) ≡ Some result }
{
    let Some(of) = valid.function_type(function) else {
        return Stop::Trap(Cause::StackFull);
    };
    let values = thread.value_count() + of.results.as_slice().len();
    let answered = values.saturating_sub(of.params.as_slice().len() + over);
    if answered <= MOST_VALUES {
        Stop::Call { import: function }
    } else {
        Stop::Trap(Cause::StackFull)
    }
}

/// What the thread stands at before a call of the function of that index, where so many operands stand over its arguments, if
/// not a step.
pub fn call_stop(valid: &Valid, thread: &Thread, function: u32, over: usize) -> Option<Stop>
    requires frames { 0 < length thread.now.frames }
    requires one { over ≤ 1 }
    requires over { over ≤ length (operands_of thread.now) }
    requires moves { Moves (λ memory place next. call_row valid.now memory place next function over thread.now) }
    ensures { (memory : LinearMemory) (place next : Position) → result ≡ stop_of (call_row valid.now memory place next function over thread.now) }
{
    let imported = valid.imported_functions();
    if (function as usize) < imported {
        return Some(stand(valid, thread, function, over));
    }
    let own = function - imported as u32;
    if thread.call_fits(valid.module(), own, over) {
        return None;
    }
    Some(Stop::Trap(Cause::StackFull))
}

/// A call of the function of that index, where so many operands stand over its arguments.
#[inline(always)]
pub fn call(
    valid: &Valid,
    thread: &mut Thread,
    function: u32,
    over: usize,
    behind: Position,
) -> Reached
    requires frames { 0 < length thread.old.frames }
    requires one { over ≤ 1 }
    requires over { over ≤ length (operands_of thread.old) }
    requires moves { Moves (λ memory place next. call_row valid.now memory place next function over thread.old) }
    ensures { (memory : LinearMemory) (place : Position) → Reaches valid.now behind (call_row valid.now memory place behind function over thread.old) result memory memory thread.old thread.new }
{
    let imported = valid.imported_functions();
    if (function as usize) < imported {
        return Reached::Stands(stand(valid, thread, function, over));
    }
    let module = valid.module();
    let own = function - imported as u32;
    if !thread.call_fits(module, own, over) {
        return Reached::Stands(Stop::Trap(Cause::StackFull));
    }
    thread.drop_operands(over);
    match thread.call(module, own, behind) {
        Ok(()) => Reached::Called,
        Err(cause) => Reached::Stands(Stop::Trap(cause)),
    }
}

/// An indirect call of a function of the type of that index.
#[inline(always)]
pub fn call_indirect(valid: &Valid, thread: &mut Thread, of: u32, behind: Position) -> Reached
    requires frames { 0 < length thread.old.frames }
    requires operands { 1 ≤ length (operands_of thread.old) }
    requires moves { Moves (λ memory place next. row_of valid.now memory place next (Instr.CallIndirect of) thread.old) }
    ensures { (memory : LinearMemory) (place : Position) → Reaches valid.now behind (row_of valid.now memory place behind (Instr.CallIndirect of) thread.old) result memory memory thread.old thread.new }
{
    let place = thread.operand(0);
    match found(valid, of, place) {
        Ok(function) => call(valid, thread, function, 1, behind),
        Err(cause) => Reached::Stands(Stop::Trap(cause)),
    }
}

/// What the thread stands at before an indirect call of a function of the type of that index, if not a step.
pub fn call_indirect_stop(valid: &Valid, thread: &Thread, of: u32) -> Option<Stop>
    requires frames { 0 < length thread.now.frames }
    requires operands { 1 ≤ length (operands_of thread.now) }
    requires moves { Moves (λ memory place next. row_of valid.now memory place next (Instr.CallIndirect of) thread.now) }
    ensures { (memory : LinearMemory) (place next : Position) → result ≡ stop_of (row_of valid.now memory place next (Instr.CallIndirect of) thread.now) }
{
    let place = thread.operand(0);
    match found(valid, of, place) {
        Ok(function) => call_stop(valid, thread, function, 1),
        Err(cause) => Some(Stop::Trap(cause)),
    }
}
