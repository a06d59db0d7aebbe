// Modules: WebAssembly Core 1.0, section 5.5.
ghost use Rattle.std.specs.Prelude.{◌≡◌, ◌++◌, IfOk, OnOk};
ghost use Rattle.wasm_ast.specs.Shortest.{canon_vec};
ghost use Rattle.wasm_ast.specs.Canon.{canon_table, canon_section, canon_list, canon_start, canon};

use crate::numbers::write_unsigned;
use crate::types::write_table;
use crate::vectors::{Write, write_byte, write_bytes, write_u32, write_vector};
use std::alloc::{AllocError, Global};
use wasm_ast::{Limits, Module};
use wx_types::Bytes;

/// What each module begins with: the four bytes of the name, and the version (5.5.15).
const PREAMBLE: [u8; 8] = [0x00, 0x61, 0x73, 0x6D, 0x01, 0x00, 0x00, 0x00];

/// Appends a section: its number, the size of its content, and the content (5.5.2).
fn write_section(out: &mut Vec<u8>, id: u8, content: &[u8]) -> Result<(), AllocError>
    ensures { OnOk result (out.new.items ≡ out.old.items ++ canon_section id content.now) }
{
    write_byte(out, id)?;
    write_bytes(out, content)
}

/// Appends the section of a list of entries, none for an empty list.
fn write_list<T: Write>(
    alloc: Global,
    out: &mut Vec<u8>,
    id: u8,
    entries: &[T],
) -> Result<(), AllocError>
    ensures { OnOk result (out.new.items ≡ out.old.items ++ canon_list T.written id entries.now) }
{
    if entries.is_empty() {
        return Ok(());
    }
    let mut content = Vec::new(alloc);
    write_vector(alloc, &mut content, entries)?;
    write_section(out, id, content.as_slice())
}

/// Appends how many tables there are, and each (5.5.7).
fn write_table_vector(out: &mut Vec<u8>, tables: &[Limits]) -> Result<(), AllocError>
    ensures { OnOk result (out.new.items ≡ out.old.items ++ canon_vec canon_table tables.now) }
{
    write_unsigned(out, tables.len() as u64)?;
    for limits in tables {
        write_table(out, *limits)?;
    }
    Ok(())
}

/// Appends the section of the tables, none for an empty list (5.5.7).
fn write_tables(alloc: Global, out: &mut Vec<u8>, tables: &[Limits]) -> Result<(), AllocError>
    ensures { OnOk result (out.new.items ≡ out.old.items ++ canon_list canon_table 4 tables.now) }
{
    if tables.is_empty() {
        return Ok(());
    }
    let mut content = Vec::new(alloc);
    write_table_vector(&mut content, tables)?;
    write_section(out, 4, content.as_slice())
}

/// Appends the section of the start function, none where there is no such function (5.5.11).
fn write_start(alloc: Global, out: &mut Vec<u8>, start: Option<u32>) -> Result<(), AllocError>
    ensures { OnOk result (out.new.items ≡ out.old.items ++ canon_start start) }
{
    match start {
        None => Ok(()),
        Some(function) => {
            let mut content = Vec::new(alloc);
            write_u32(&mut content, function)?;
            write_section(out, 8, content.as_slice())
        }
    }
}

/// The module in the binary format: with the shortest numbers, each run of equal local types as one
/// group, no `else` before an empty list, and no empty and no custom section (5.5.15). For each
/// instruction on floating-point numbers, of which a module doesn't keep which one it is, the byte
/// of `f32.eq` is written. Time and memory grow with the length of what is written. `AllocError` is
/// want of memory and nothing else.
pub fn encode(alloc: Global, source: &Module) -> Result<Bytes, AllocError>
    ensures { IfOk result (λ bytes. bytes ≡ canon source.now) }
{
    let mut out = Vec::from_slice(alloc, &PREAMBLE)?;
    write_list(alloc, &mut out, 1, source.types.as_slice())?;
    write_list(alloc, &mut out, 2, source.imports.as_slice())?;
    write_list(alloc, &mut out, 3, source.functions.as_slice())?;
    write_tables(alloc, &mut out, source.tables.as_slice())?;
    write_list(alloc, &mut out, 5, source.memories.as_slice())?;
    write_list(alloc, &mut out, 6, source.globals.as_slice())?;
    write_list(alloc, &mut out, 7, source.exports.as_slice())?;
    write_start(alloc, &mut out, source.start)?;
    write_list(alloc, &mut out, 9, source.elements.as_slice())?;
    write_list(alloc, &mut out, 10, source.codes.as_slice())?;
    write_list(alloc, &mut out, 11, source.segments.as_slice())?;
    Ok(Bytes::from_vec(out))
}
