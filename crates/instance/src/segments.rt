// Where segments begin, and whether they fit (WebAssembly Core 1.0, 4.5.4).
ghost use Rattle.std.specs.Prelude.{◌≡◌, ◌+◌, ◌*◌, [], filter_map, length, nat_le, slice_get};
ghost use Rattle.std.specs.List.{list_all};
ghost use Rattle.wasm_ast.specs.Table.{table_size};
ghost use Rattle.wasm_ast.specs.TypingModule.{globals_of};
ghost use Rattle.instance.specs.Links.{element_fits, segment_fits, segments_fit};
ghost use Rattle.instance.specs.Program.{empty_memory, imported_memory, memory_limits};

use wasm_ast::{Import, ImportKind, Limits, Module};
use wasm_validate::offset_value;

/// Whether so many places from an offset on lie within a size.
fn is_within(offset: u64, count: usize, size: u64) -> bool
    ensures { result ≡ nat_le (offset + count) size }
{
    match offset.checked_add(count as u64) {
        Some(end) => end <= size,
        None => false,
    }
}

/// How many elements the table has at first.
fn table_size(module: &Module) -> u32
    ensures { result ≡ table_size «module».now }
{
    match module.tables.as_slice().first() {
        Some(limits) => limits.min,
        None => 0,
    }
}

/// The limits of the first memory that is imported.
fn first_memory(imports: &[Import]) -> Option<Limits>
    ensures { result ≡ slice_get (filter_map imported_memory imports.now) 0 }
{
    for import in imports {
        if let ImportKind::Memory(limits) = import.kind {
            return Some(limits);
        }
    }
    None
}

/// The limits of the memory, imported or the module's own, if it has one.
pub fn memory_limits(module: &Module) -> Option<Limits>
    ensures { result ≡ memory_limits «module».now }
{
    match first_memory(module.imports.as_slice()) {
        Some(limits) => Some(limits),
        None => module.memories.as_slice().first().copied(),
    }
}

/// Whether each element segment lies within the table.
fn elements_fit(module: &Module) -> bool
    requires { globals_of «module».now.imports ≡ [] }
    ensures { result ≡ list_all (element_fits «module».now) «module».now.elements }
{
    let size = u64::from(table_size(module));
    for element in module.elements.as_slice() {
        let offset = offset_value(module, 0, &element.offset);
        if !is_within(offset, element.functions.len(), size) {
            return false;
        }
    }
    true
}

/// How many bytes the memory has at first.
fn memory_size(module: &Module) -> u64
    ensures { result ≡ length (empty_memory (memory_limits «module».now)).bytes }
{
    match memory_limits(module) {
        Some(limits) => u64::from(limits.min) * 65_536,
        None => 0,
    }
}

/// Whether each data segment lies within the memory.
fn data_fits(module: &Module) -> bool
    requires { globals_of «module».now.imports ≡ [] }
    ensures { result ≡ list_all (segment_fits «module».now) «module».now.segments }
{
    let size = memory_size(module);
    for segment in module.segments.as_slice() {
        let offset = offset_value(module, 0, &segment.offset);
        if !is_within(offset, segment.bytes.len(), size) {
            return false;
        }
    }
    true
}

/// Whether each segment lies within the table or the memory as it is at first.
pub fn segments_fit(module: &Module) -> bool
    requires { globals_of «module».now.imports ≡ [] }
    ensures { result ≡ segments_fit «module».now }
{
    elements_fit(module) && data_fits(module)
}
