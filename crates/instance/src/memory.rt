// The memory that a process begins with (WebAssembly Core 1.0, 4.5.4).
ghost use Rattle.std.specs.Prelude.{◌≡◌, ◌+◌, ◌≤◌, [], true, fold, length, IfOk, IfSome};
ghost use Rattle.std.specs.List.{list_all};
ghost use Rattle.linear_memory.specs.LinearMemory.{with_bytes};
ghost use Rattle.wasm_ast.specs.TypingModule.{globals_of};
ghost use Rattle.instance.specs.Links.{segment_fits};
ghost use Rattle.instance.specs.Program.{empty_memory, memory_limits, with_segment};

use linear_memory::Memory;
use std::alloc::{AllocError, Global};
use wasm_ast::{Limits, Module};
use wasm_validate::offset_value;

/// The most pages of a memory that has no bound of its own.
const MOST_PAGES: u32 = 65_536;

/// A memory of these limits, all bytes 0, or of no page. `AllocError` is want of memory and nothing else.
pub fn empty_memory(alloc: Global, limits: Option<Limits>) -> Result<Memory, AllocError>
    requires { IfSome limits (λ limits. limits.min ≤ 256) }
    ensures { IfOk result (λ memory. memory ≡ empty_memory limits) }
{
    match limits {
        Some(limits) => Memory::new(
            alloc,
            limits.min,
            limits.max.unwrap_or(MOST_PAGES),
            limits.shared,
        ),
        None => Memory::new(alloc, 0, 0, false),
    }
}

/// Puts these bytes at an address, where the memory has room.
fn write(memory: &mut Memory, at: u64, bytes: &[u8])
    requires { at + length bytes.now ≤ length memory.old.bytes }
    ensures value { memory.new ≡ record memory.old { bytes = with_bytes memory.old.bytes at bytes.now } }
    ensures len { length memory.new.bytes ≡ length memory.old.bytes }
{
    let pages = memory.size();
    prove!(pages <= 256);
    if memory.write_bytes(at as u32, bytes).is_err() {
        unreachable!();
    }
}

/// Writes the data segments of a module in their order, where each fits.
pub fn write_segments(module: &Module, memory: &mut Memory)
    requires none_imported { globals_of «module».now.imports ≡ [] }
    requires fit { list_all (segment_fits «module».now) «module».now.segments ≡ true }
    requires size { length memory.old.bytes ≡ length (empty_memory (memory_limits «module».now)).bytes }
    ensures { memory.new ≡ record memory.old { bytes = fold (with_segment «module».now) memory.old.bytes «module».now.segments } }
{
    for segment in module.segments.as_slice() {
        let at = offset_value(module, 0, &segment.offset);
        write(memory, at, segment.bytes.as_slice());
    }
}
