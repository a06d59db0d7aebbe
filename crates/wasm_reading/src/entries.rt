// The items of sections: WebAssembly Core 1.0, section 5.5.
ghost use Rattle.std.specs.Prelude.{◌≡◌, ℕ, ◌+◌, ◌<◌, ◌^◌, Option, List, []};
ghost use Rattle.wasm_ast.specs.Locals.{total};
ghost use Rattle.wasm_reading.specs.ReadAnswers.{Gives};
ghost use Rattle.wasm_reading.specs.ReadValues.{bytes_at};
ghost use Rattle.wasm_reading.specs.ReadModule.{import_kind_at, import_at, global_at, export_kind_at, export_at, element_at, segment_at, group_at, groups_at, locals_at, code_at};

use crate::exprs::expr;
use crate::fault::ReadFault;
use crate::types::{globaltype, memory, table, valtype};
use crate::values::{Read, bytes, name, next, number, vector};
use byte_cursor::Cursor;
use std::alloc::Global;
use wasm_ast::{
    Code, Element, Export, ExportKind, GlobalVar, Import, ImportKind, LocalGroup, Locals, Segment,
};
use wx_types::Bytes;

/// What an import is (5.5.5).
fn import_kind(cursor: &mut Cursor<'_>) -> Result<ImportKind, ReadFault>
    ensures { Gives (λ x. x) result cursor.new (import_kind_at cursor.old) }
{
    match next(cursor)? {
        0x00 => Ok(ImportKind::Func(number(cursor)?)),
        0x01 => Ok(ImportKind::Table(table(cursor)?)),
        0x02 => Ok(ImportKind::Memory(memory(cursor)?)),
        0x03 => {
            let (of, mutable) = globaltype(cursor)?;
            Ok(ImportKind::Global { of, mutable })
        }
        _ => Err(ReadFault::Malformed),
    }
}

impl Read for Import {
    ghost read_at = { import_at };

    fn read(alloc: Global, cursor: &mut Cursor<'_>) -> Result<Import, ReadFault> {
        let module = name(cursor)?;
        let own = name(cursor)?;
        let kind = import_kind(cursor)?;
        let module = Bytes::new(alloc, module)?;
        let name = Bytes::new(alloc, own)?;
        Ok(Import { module, name, kind })
    }
}

impl Read for GlobalVar {
    ghost read_at = { global_at };

    fn read(alloc: Global, cursor: &mut Cursor<'_>) -> Result<GlobalVar, ReadFault> {
        let (of, mutable) = globaltype(cursor)?;
        let init = expr(alloc, cursor)?;
        Ok(GlobalVar { of, mutable, init })
    }
}

/// What an export names (5.5.10).
fn export_kind(cursor: &mut Cursor<'_>) -> Result<ExportKind, ReadFault>
    ensures { Gives (λ x. x) result cursor.new (export_kind_at cursor.old) }
{
    match next(cursor)? {
        0x00 => Ok(ExportKind::Func(number(cursor)?)),
        0x01 => Ok(ExportKind::Table(number(cursor)?)),
        0x02 => Ok(ExportKind::Memory(number(cursor)?)),
        0x03 => Ok(ExportKind::Global(number(cursor)?)),
        _ => Err(ReadFault::Malformed),
    }
}

impl Read for Export {
    ghost read_at = { export_at };

    fn read(alloc: Global, cursor: &mut Cursor<'_>) -> Result<Export, ReadFault> {
        let own = name(cursor)?;
        let kind = export_kind(cursor)?;
        let name = Bytes::new(alloc, own)?;
        Ok(Export { name, kind })
    }
}

impl Read for Element {
    ghost read_at = { element_at };

    fn read(alloc: Global, cursor: &mut Cursor<'_>) -> Result<Element, ReadFault> {
        let table = number(cursor)?;
        let offset = expr(alloc, cursor)?;
        let functions = vector(alloc, cursor)?;
        Ok(Element {
            table,
            offset,
            functions,
        })
    }
}

impl Read for Segment {
    ghost read_at = { segment_at };

    fn read(alloc: Global, cursor: &mut Cursor<'_>) -> Result<Segment, ReadFault> {
        let memory = number(cursor)?;
        let offset = expr(alloc, cursor)?;
        let content = bytes(cursor)?;
        let bytes = Bytes::new(alloc, content)?;
        Ok(Segment {
            memory,
            offset,
            bytes,
        })
    }
}

/// Some locals of one type (5.5.13).
fn group(cursor: &mut Cursor<'_>) -> Result<LocalGroup, ReadFault>
    ensures { Gives (λ x. x) result cursor.new (group_at cursor.old) }
{
    let count = number(cursor)?;
    let of = valtype(cursor)?;
    Ok(LocalGroup { count, of })
}

/// So many groups of locals.
fn groups(alloc: Global, cursor: &mut Cursor<'_>, n: u32) -> Result<Locals, ReadFault>
    ensures { Gives (λ x. x) result cursor.new (groups_at n cursor.old) }
{
    let mut locals = Locals::new(alloc);
    let mut count: u32 = 0;
    for _ in 0..n {
        let group = group(cursor)?;
        if u32::MAX - count < group.count {
            return Err(ReadFault::Malformed);
        }
        locals.add(group.count, group.of)?;
        count += group.count;
    }
    Ok(locals)
}

/// The locals of a function (5.5.13).
fn locals(alloc: Global, cursor: &mut Cursor<'_>) -> Result<Locals, ReadFault>
    ensures { Gives (λ x. x) result cursor.new (locals_at cursor.old) }
{
    let n = number(cursor)?;
    groups(alloc, cursor, n)
}

impl Read for Code {
    ghost read_at = { code_at };

    fn read(alloc: Global, cursor: &mut Cursor<'_>) -> Result<Code, ReadFault> {
        let content = bytes(cursor)?;
        let mut inner = Cursor::new(content);
        let locals = locals(alloc, &mut inner)?;
        let body = expr(alloc, &mut inner)?;
        if !inner.is_empty() {
            return Err(ReadFault::Malformed);
        }
        Ok(Code { locals, body })
    }
}
