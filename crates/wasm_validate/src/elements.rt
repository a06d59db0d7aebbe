// What the element segments put into the table: WebAssembly Core 1.0, 2.5.7 and 4.5.4.
ghost use Rattle.std.specs.Prelude.{◌≡◌, ◌≤◌, ◌<◌, length, IfOk};
ghost use Rattle.wasm_ast.specs.Table.{global_value, instruction_offset, last_put, offset_value, put_at};
ghost use Rattle.wasm_ast.specs.TypingModule.{globals_of};
ghost use Rattle.wasm_validate.specs.Elements.{AreFirst, IsPutFrom, from_place};

use super::imported::global_count;
use std::alloc::{AllocError, Global};
use wasm_ast::{Body, Element, Instr, Module, Position, VariableOp};

/// The most places of a table whose functions are kept.
const MOST_PLACES: u64 = 65_536;

/// The first value of a global, by its index, where so many globals are imported: 0 of these.
fn global_value(module: &Module, imported: usize, index: u32) -> u64
    requires { imported ≡ length (globals_of «module».now.imports) }
    ensures { result ≡ global_value «module».now index }
{
    let index = index as usize;
    if index < imported {
        return 0;
    }
    match module.globals.as_slice().get(index - imported) {
        Some(global) => global.init.constant_value(),
        None => 0,
    }
}

/// The offset that an instruction gives.
fn instruction_offset(module: &Module, imported: usize, instr: &Instr) -> u64
    requires { imported ≡ length (globals_of «module».now.imports) }
    ensures { result ≡ instruction_offset «module».now instr.now }
{
    match instr {
        Instr::Variable(VariableOp::GlobalGet, index) => global_value(module, imported, *index),
        other => other.constant(),
    }
}

/// The offset of a segment: a constant, or the value of a global, where so many globals are imported.
pub fn offset_value(module: &Module, imported: usize, offset: &Body) -> u64
    requires { imported ≡ length (globals_of «module».now.imports) }
    ensures { result ≡ offset_value «module».now offset.now }
{
    match offset.at(Position::start(0)) {
        Some(instr) => instruction_offset(module, imported, instr),
        None => 0,
    }
}

/// The function at a place where these functions begin at another.
fn from_place(first: u64, functions: &[u32], place: u32) -> Option<u32>
    ensures { result ≡ from_place first functions.now place }
{
    if first > place as u64 {
        return None;
    }
    let index = place as u64 - first;
    functions.get(index as usize).copied()
}

/// The function that a segment puts at a place, if any.
fn put_at(module: &Module, imported: usize, element: &Element, place: u32) -> Option<u32>
    requires { imported ≡ length (globals_of «module».now.imports) }
    ensures { result ≡ put_at «module».now element.now place }
{
    let first = offset_value(module, imported, &element.offset);
    from_place(first, element.functions.as_slice(), place)
}

/// The function that segments put at a place, if any: that of the last one counts.
pub fn last_put(module: &Module, place: u32) -> Option<u32>
    ensures { result ≡ last_put «module».now «module».now.elements place }
{
    let imported = global_count(module.imports.as_slice());
    let mut last = None;
    for element in module.elements.as_slice() {
        last = put_at(module, imported, element, place).or(last);
    }
    last
}

/// Puts functions at the places from one on, as far as there are places.
fn put_from(places: &mut [Option<u32>], first: usize, functions: &[u32])
    requires { first ≤ length places.old }
    ensures { IsPutFrom places.old first functions.now places.new }
{
    let count = functions.len().min(places.len() - first);
    for i in 0..count {
        places[first + i] = Some(functions[i]);
    }
}

/// Puts the functions of a segment at their places, as far as there are places.
fn put(places: &mut [Option<u32>], module: &Module, imported: usize, element: &Element)
    requires { imported ≡ length (globals_of «module».now.imports) }
    ensures { IsPutFrom places.old (offset_value «module».now element.now.offset) element.now.functions places.new }
{
    let first = offset_value(module, imported, &element.offset);
    if first < places.len() as u64 {
        put_from(places, first as usize, element.functions.as_slice());
    }
}

/// How many places of the table are kept: no more than the table has or than segments reach.
fn kept_places(module: &Module, imported: usize) -> usize
    requires { imported ≡ length (globals_of «module».now.imports) }
    ensures { result ≤ 65536 }
{
    let mut end: u64 = 0;
    for element in module.elements.as_slice() {
        let first = offset_value(module, imported, &element.offset);
        end = end.max(first.saturating_add(element.functions.len() as u64));
    }
    let size = match module.tables.as_slice().first() {
        Some(table) => table.min as u64,
        None => 0,
    };
    end.min(size).min(MOST_PLACES) as usize
}

/// The functions at the first places of the table. `AllocError` is want of memory and nothing else.
pub fn first_places(alloc: Global, module: &Module) -> Result<Vec<Option<u32>>, AllocError>
    ensures { IfOk result (λ places. AreFirst «module».now places.items «module».now.elements) }
{
    let imported = global_count(module.imports.as_slice());
    let mut places = vec![in alloc; None; kept_places(module, imported)]?;
    for element in module.elements.as_slice() {
        put(places.as_mut_slice(), module, imported, element);
    }
    Ok(places)
}
