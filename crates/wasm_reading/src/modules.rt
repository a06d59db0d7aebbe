// Modules: WebAssembly Core 1.0, section 5.5.
ghost use Rattle.std.specs.Prelude.{◌≡◌, ℕ, List, [], ◌∷◌, length, Option, IfOk};
ghost use Rattle.std.specs.Option.{option_copied};
ghost use Rattle.wasm_ast.specs.SpelledModule.{content_of, SpellsModule};
ghost use Rattle.wasm_ast.specs.declared.module.Module.{Module as SpelledModule};
ghost use Rattle.wasm_reading.specs.ReadAnswers.{Gives, Answers};
ghost use Rattle.wasm_reading.specs.ReadValues.{each_at, vec_at};
ghost use Rattle.wasm_reading.specs.ReadTypes.{table_at, memory_at};
ghost use Rattle.wasm_reading.specs.ReadModule.{all_held, start_held, preamble_at, next_from, section_at, sections_at, module_of, body_at, module_at};
ghost use Rattle.wasm_reading.specs.Sections.{view, views};

use crate::fault::ReadFault;
use crate::types::{memory, table};
use crate::values::{Read, bytes, name, next, number, vector};
use byte_cursor::Cursor;
use std::alloc::Global;
use wasm_ast::{Items, Limits, Module};

/// The magic number and the version (5.5.15).
const PREAMBLE: [u8; 8] = [0x00, 0x61, 0x73, 0x6D, 0x01, 0x00, 0x00, 0x00];

/// A section: its number and its content (5.5.2).
#[derive(Clone, Copy)]
pub(crate) struct Part<'a> {
    pub(crate) id: u8,
    pub(crate) content: &'a [u8],
}

impl Read for Limits {
    ghost read_at = { memory_at };

    fn read(_alloc: Global, cursor: &mut Cursor<'_>) -> Result<Limits, ReadFault> {
        memory(cursor)
    }
}

/// So many tables. Memory is taken only for those that were read.
fn tables(alloc: Global, cursor: &mut Cursor<'_>, n: u32) -> Result<Vec<Limits>, ReadFault>
    ensures { Gives (λ x. x.items) result cursor.new (each_at table_at n cursor.old) }
{
    let mut items = Vec::new(alloc);
    for _ in 0..n {
        items.push(table(cursor)?)?;
    }
    Ok(items)
}

/// All the items of a section's content, none where there is no such section.
fn held<T: Read>(alloc: Global, content: Option<&[u8]>) -> Result<Items<T>, ReadFault>
    ensures { Answers (λ x. x) result (all_held T.read_at (option_copied content.entry)) }
{
    match content {
        None => Ok(Items::new(alloc)),
        Some(content) => {
            let mut cursor = Cursor::new(content);
            let items = vector(alloc, &mut cursor)?;
            if !cursor.is_empty() {
                return Err(ReadFault::Malformed);
            }
            Ok(items)
        }
    }
}

/// The tables of a section's content, none where there is no such section (5.5.7).
fn held_tables(alloc: Global, content: Option<&[u8]>) -> Result<Items<Limits>, ReadFault>
    ensures { Answers (λ x. x) result (all_held table_at (option_copied content.entry)) }
{
    match content {
        None => Ok(Items::new(alloc)),
        Some(content) => {
            let mut cursor = Cursor::new(content);
            let n = number(&mut cursor)?;
            let items = tables(alloc, &mut cursor, n)?;
            if !cursor.is_empty() {
                return Err(ReadFault::Malformed);
            }
            Ok(Items::from_vec(items))
        }
    }
}

/// The start function of a section's content, none where there is no such section (5.5.11).
fn held_start(content: Option<&[u8]>) -> Result<Option<u32>, ReadFault>
    ensures { Answers (λ x. x) result (start_held (option_copied content.entry)) }
{
    match content {
        None => Ok(None),
        Some(content) => {
            let mut cursor = Cursor::new(content);
            let function = number(&mut cursor)?;
            if !cursor.is_empty() {
                return Err(ReadFault::Malformed);
            }
            Ok(Some(function))
        }
    }
}

/// The content of the section of that number.
fn content<'a>(parts: &[Part<'a>], id: u8) -> Option<&'a [u8]>
    ensures { option_copied result ≡ content_of id (views parts.now) }
{
    for part in parts {
        if part.id == id {
            return Some(part.content);
        }
    }
    None
}

/// Bytes that are known.
fn skip(cursor: &mut Cursor<'_>, known: &[u8]) -> Result<(), ReadFault>
    ensures { Answers (λ _. cursor.new) result (preamble_at known.now cursor.old) }
{
    for byte in known {
        if next(cursor)? != *byte {
            return Err(ReadFault::Malformed);
        }
    }
    Ok(())
}

/// The number from which on the section behind one may be: custom sections have a name, and the others
/// come in the order of their numbers.
fn next_from(next: u8, id: u8, content: &[u8]) -> Result<u8, ReadFault>
    ensures { Answers (λ x. x) result (next_from next id content.now) }
{
    if id == 0 {
        let mut custom = Cursor::new(content);
        let _name = name(&mut custom)?;
        return Ok(next);
    }
    if id < next || 11 < id {
        return Err(ReadFault::Malformed);
    }
    Ok(id + 1)
}

/// A section (5.5.2), and the number from which on the next may be.
fn section<'a>(cursor: &mut Cursor<'a>, least: u8) -> Result<(Part<'a>, u8), ReadFault>
    ensures { Gives (λ x. (view x.0, x.1)) result cursor.new (section_at least cursor.old) }
{
    let id = next(cursor)?;
    let content = bytes(cursor)?;
    let behind = next_from(least, id, content)?;
    Ok((Part { id, content }, behind))
}

/// All sections (5.5.2).
fn sections<'a>(alloc: Global, body: &'a [u8]) -> Result<Vec<Part<'a>>, ReadFault>
    ensures { Answers (λ x. views x.items) result (sections_at (length body.now) 1 body.now) }
{
    let mut cursor = Cursor::new(body);
    let mut parts = Vec::new(alloc);
    let mut least: u8 = 1;
    while !cursor.is_empty() {
        let found = section(&mut cursor, least)?;
        parts.push(found.0)?;
        least = found.1;
    }
    Ok(parts)
}

/// The module of these sections.
#[tactic(auto, unfolding(crate::specs::ReadModule::module_of, crate::specs::ReadModule::both))]
fn module(alloc: Global, parts: &[Part<'_>]) -> Result<Module, ReadFault>
    ensures { Answers (λ x. x) result (module_of (views parts.now)) }
{
    let found = Module {
        types: held(alloc, content(parts, 1))?,
        imports: held(alloc, content(parts, 2))?,
        functions: held(alloc, content(parts, 3))?,
        tables: held_tables(alloc, content(parts, 4))?,
        memories: held(alloc, content(parts, 5))?,
        globals: held(alloc, content(parts, 6))?,
        exports: held(alloc, content(parts, 7))?,
        start: held_start(content(parts, 8))?,
        elements: held(alloc, content(parts, 9))?,
        codes: held(alloc, content(parts, 10))?,
        segments: held(alloc, content(parts, 11))?,
    };
    if found.functions.len() == found.codes.len() {
        Ok(found)
    } else {
        Err(ReadFault::Malformed)
    }
}

/// The module that all the bytes spell.
#[tactic(auto, unfolding(crate::specs::ReadModule::module_at, crate::specs::ReadModule::body_at))]
fn read_all(alloc: Global, bytes: &[u8]) -> Result<Module, ReadFault>
    ensures { Answers (λ x. x) result (module_at bytes.now) }
{
    let mut cursor = Cursor::new(bytes);
    skip(&mut cursor, &PREAMBLE)?;
    let parts = sections(alloc, cursor.rest())?;
    module(alloc, &parts)
}

/// The module that all the bytes spell (5.5). `Malformed` comes exactly where they spell none, and
/// `Memory` for want of memory.
pub fn read(alloc: Global, bytes: &[u8]) -> Result<Module, ReadFault>
    ensures found { IfOk result (λ m. SpellsModule bytes.now m) }
    ensures malformed { result ≡ Err ReadFault.Malformed → (m : SpelledModule) → SpellsModule bytes.now m → ⊥ }
{
    read_all(alloc, bytes)
}
