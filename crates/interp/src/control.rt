// Control instructions (WebAssembly Core 1.0, 4.4.5 to 4.4.7). Where a list of instructions ends, `end` is its end.
ghost use Rattle.std.specs.Prelude.{◌≡◌, ℕ, ◌==◌, ◌+◌, ◌<◌, ◌≤◌, length, Some, slice_get, slice_index_or, if◌then◌else◌};
ghost use Rattle.linear_memory.specs.LinearMemory.{LinearMemory};
ghost use Rattle.wasm_ast.specs.Position.{remaining};
ghost use Rattle.wasm_ast.specs.Sequence.{Empty};
ghost use Rattle.wasm_ast.specs.declared.module.Module.{Module};
ghost use Rattle.wasm_ast.specs.declared.position.Position.{Position};
ghost use Rattle.guest_state.specs.GuestThread.{in_frame};
ghost use Rattle.guest_state.specs.Snapshot.{innermost_body, open_count, operands_of, result_arity, thread_at};
ghost use Rattle.guest_state.specs.Steps.{opened};
ghost use Rattle.wasm_steps.specs.Control.{enters, step_end};
ghost use Rattle.interp.specs.Operands.{CanBranch};
ghost use Rattle.interp.specs.Reached.{Reaches, branches};
ghost use Rattle.interp.specs.Rows.{Keeps, left_at, of_first, row_of, chosen_row};

use crate::stop::{Reached, Stop};
use guest_state::{MOST_LABELS, Thread};
use int_ops::Cause;
use wasm_ast::{Instr, Position, Targets};

/// Into a block or a loop, the list of that number. `StackFull` comes exactly where 16,384 labels are open.
#[inline(always)]
pub fn enter(
    thread: &mut Thread,
    branch: Position,
    behind: Position,
    carries: bool,
    inner: u32,
) -> Reached
    requires { 0 < length thread.old.frames }
    ensures { (m : Module) (memory : LinearMemory) (place next : Position) → Reaches m next (enters memory (thread_at m place thread.old) (opened (if carries then 1 else 0) (left_at m branch thread.old) (left_at m behind thread.old) (left_at m (record { list = inner; index = 0 }) thread.old))) result memory memory thread.old thread.new }
{
    match thread.open(branch, behind, carries) {
        Ok(()) => Reached::At(Position::start(inner)),
        Err(cause) => Reached::Stands(Stop::Trap(cause)),
    }
}

// The list of the first arm where the operand isn't 0, else of the second.
#[inline(always)]
fn arm(condition: u64, first: u32, second: u32) -> u32
    ensures { result ≡ (if condition == 0 then second else first) }
{
    if condition == 0 { second } else { first }
}

/// `if`: into the list of the first arm where the operand isn't 0, else into that of the second. `StackFull` comes exactly
/// where 16,384 labels are open.
#[inline(always)]
pub fn choose(
    thread: &mut Thread,
    behind: Position,
    carries: bool,
    first: u32,
    second: u32,
) -> Reached
    requires frames { 0 < length thread.old.frames }
    requires operands { 1 ≤ length (operands_of thread.old) }
    ensures { (m : Module) (memory : LinearMemory) (place next : Position) → Reaches m next (chosen_row m memory place behind carries first second thread.old) result memory memory thread.old thread.new }
{
    if thread.label_count() >= MOST_LABELS {
        return Reached::Stands(Stop::Trap(Cause::StackFull));
    }
    let condition = thread.operand(0);
    thread.drop_operands(1);
    match thread.open(behind, behind, carries) {
        Ok(()) => Reached::At(Position::start(arm(condition, first, second))),
        Err(cause) => Reached::Stands(Stop::Trap(cause)),
    }
}

/// The end of a block or, where none is open, of the function.
#[inline(always)]
pub fn end(thread: &mut Thread) -> Reached
    requires frames { 0 < length thread.old.frames }
    requires result { open_count thread.old ≡ 0 → result_arity thread.old ≤ length (operands_of thread.old) }
    ensures elsewhere { result ≡ Reached.Behind → ⊥ }
    ensures reaches { (m : Module) (memory : LinearMemory) (place next : Position) → Reaches m next (of_first (λ f. step_end memory (thread_at m place thread.old) f.labels) (thread_at m place thread.old).frames) result memory memory thread.old thread.new }
{
    if thread.open_blocks() > 0 {
        return Reached::At(thread.close());
    }
    thread.return_();
    Reached::Returned
}

/// A branch to a label, or out of all blocks to an end of the function.
#[inline(always)]
fn branch(thread: &mut Thread, depth: u32, end: Position) -> Position
    requires frames { 0 < length thread.old.frames }
    requires can { CanBranch depth 0 thread.old }
    ensures to { (m : Module) (place : Position) → remaining (innermost_body m thread.old) end ≡ Empty → thread_at m result thread.new ≡ in_frame (λ g. branches depth g.operands g) (thread_at m place thread.old) }
    ensures frames { length thread.new.frames ≡ length thread.old.frames }
{
    let depth = depth as usize;
    if depth == thread.open_blocks() {
        thread.leave();
        return end;
    }
    thread.branch(depth)
}

/// `br`.
#[inline(always)]
pub fn br(thread: &mut Thread, depth: u32, end: Position) -> Reached
    requires frames { 0 < length thread.old.frames }
    requires can { CanBranch depth 0 thread.old }
    ensures { (m : Module) (memory : LinearMemory) (place next : Position) → remaining (innermost_body m thread.old) end ≡ Empty → Reaches m next (row_of m memory place next (Instr.Br depth) thread.old) result memory memory thread.old thread.new }
{
    Reached::At(branch(thread, depth, end))
}

/// `br_if`: a branch where the operand isn't 0.
#[inline(always)]
pub fn br_if(thread: &mut Thread, depth: u32, end: Position) -> Reached
    requires frames { 0 < length thread.old.frames }
    requires operands { 1 ≤ length (operands_of thread.old) }
    requires can { (c : ℕ) → slice_get (operands_of thread.old) 0 ≡ Some c → (c ≡ 0 → ⊥) → CanBranch depth 1 thread.old }
    ensures { (m : Module) (memory : LinearMemory) (place next : Position) → remaining (innermost_body m thread.old) end ≡ Empty → Reaches m next (row_of m memory place next (Instr.BrIf depth) thread.old) result memory memory thread.old thread.new }
{
    let condition = thread.operand(0);
    thread.drop_operands(1);
    if condition == 0 {
        return Reached::Behind;
    }
    Reached::At(branch(thread, depth, end))
}

// The label that the operand chooses: the default from the length of the list on.
#[inline(always)]
fn target(targets: &Targets, chosen: u64) -> u32
    ensures { result ≡ slice_index_or targets.now.0 chosen targets.now.1 }
{
    match targets.labels().get(chosen as usize) {
        Some(depth) => *depth,
        None => targets.default(),
    }
}

/// `br_table`: a branch to the label that the operand chooses.
#[inline(always)]
pub fn br_table(thread: &mut Thread, targets: &Targets, end: Position) -> Reached
    requires frames { 0 < length thread.old.frames }
    requires operands { 1 ≤ length (operands_of thread.old) }
    requires can { (i : ℕ) → slice_get (operands_of thread.old) 0 ≡ Some i → CanBranch (slice_index_or targets.now.0 i targets.now.1) 1 thread.old }
    ensures { (m : Module) (memory : LinearMemory) (place next : Position) → remaining (innermost_body m thread.old) end ≡ Empty → Reaches m next (row_of m memory place next (Instr.BrTable targets.now) thread.old) result memory memory thread.old thread.new }
{
    let chosen = thread.operand(0);
    thread.drop_operands(1);
    Reached::At(branch(thread, target(targets, chosen), end))
}

/// `return`.
#[inline(always)]
pub fn return_(thread: &mut Thread) -> Reached
    requires frames { 0 < length thread.old.frames }
    requires result { result_arity thread.old ≤ length (operands_of thread.old) }
    ensures { (m : Module) (memory : LinearMemory) (place next : Position) → Reaches m next (row_of m memory place next Instr.Return thread.old) result memory memory thread.old thread.new }
{
    thread.return_();
    Reached::Returned
}
