// How an instruction leaves its operands: what the rows of several groups share.
ghost use Rattle.std.specs.Prelude.{◌≡◌, ◌+◌, ◌-◌, ◌<◌, ◌≤◌, ◌^◌, [], ◌∷◌, length, drop, slice_get, OnErr, Ok, Some};
ghost use Rattle.linear_memory.specs.LinearMemory.{LinearMemory};
ghost use Rattle.wasm_ast.specs.declared.module.Module.{Module};
ghost use Rattle.wasm_ast.specs.declared.position.Position.{Position};
ghost use Rattle.wasm_ast.specs.Operators.{value_type};
ghost use Rattle.wasm_numeric.specs.Numeric.{bits};
ghost use Rattle.guest_state.specs.Snapshot.{operands_of, thread_at};
ghost use Rattle.wasm_steps.specs.Stepped.{Next, gives, leaves, pushes};
ghost use Rattle.interp.specs.Operands.{HaveLast};
ghost use Rattle.interp.specs.Rows.{Keeps, left_at, of_first, outcome};

use guest_state::Thread;
use int_ops::Cause;

/// Puts a value in the place of so many operands.
#[inline(always)]
pub fn put(thread: &mut Thread, count: usize, value: u64)
    requires some { 0 < count }
    requires enough { count ≤ length (operands_of thread.old) }
    ensures leaves { (m : Module) (memory : LinearMemory) (place next : Position) → leaves memory (thread_at m place thread.old) (left_at m next thread.old) (value ∷ drop count (operands_of thread.old)) ≡ Next memory (thread_at m next thread.new) }
    ensures keeps { Keeps thread.old thread.new }
{
    thread.replace_operands(count, value);
}

/// Puts the value that an instruction gives in the place of so many operands; or nothing changes where it traps.
#[inline(always)]
pub fn give(thread: &mut Thread, count: usize, value: Result<u64, Cause>) -> Result<(), Cause>
    requires some { 0 < count }
    requires enough { count ≤ length (operands_of thread.old) }
    ensures gives { (m : Module) (memory : LinearMemory) (place next : Position) → gives memory (thread_at m place thread.old) (left_at m next thread.old) (drop count (operands_of thread.old)) value ≡ outcome result memory (thread_at m next thread.new) }
    ensures keeps { Keeps thread.old thread.new }
    ensures unchanged { OnErr result (thread.new ≡ thread.old) }
{
    put(thread, count, value?);
    Ok(())
}

/// Takes so many operands away.
#[inline(always)]
pub fn remove(thread: &mut Thread, count: usize)
    requires some { 0 < length thread.old.frames }
    requires enough { count ≤ length (operands_of thread.old) }
    ensures leaves { (m : Module) (memory : LinearMemory) (place next : Position) → leaves memory (thread_at m place thread.old) (left_at m next thread.old) (drop count (operands_of thread.old)) ≡ Next memory (thread_at m next thread.new) }
    ensures keeps { Keeps thread.old thread.new }
{
    thread.drop_operands(count);
}

/// Puts a value on top of the operands. `StackFull` comes exactly where there are 65,536 values.
#[inline(always)]
pub fn push(thread: &mut Thread, value: u64) -> Result<(), Cause>
    requires { 0 < length thread.old.frames }
    ensures pushes { (m : Module) (memory : LinearMemory) (place next : Position) → of_first (λ f. pushes memory (thread_at m place thread.old) f (left_at m next thread.old) value) (thread_at m place thread.old).frames ≡ outcome result memory (thread_at m next thread.new) }
    ensures keeps { Keeps thread.old thread.new }
    ensures unchanged { OnErr result (thread.new ≡ thread.old) }
{
    thread.push(value)
}
