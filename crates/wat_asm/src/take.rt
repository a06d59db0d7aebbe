// The parts of fields added to a module: WebAssembly Core 1.0, section 6.6.
ghost use Rattle.std.specs.Prelude.{◌≡◌, length, Some, IfOk, OnOk};
ghost use Rattle.std.specs.Option.{option_or, option_and_then};
ghost use Rattle.wat_syntax.specs.Flat.{seen_steps};
ghost use Rattle.wat_syntax.specs.Seen.{seen_use, seen_variables, seen_exported, seen_reference};
ghost use Rattle.wat_meaning.specs.Steps.{type_for};
ghost use Rattle.wat_spaces.specs.Means.{Means, Becomes};
ghost use Rattle.wat_asm.specs.Taken.{import_function_taken, import_taken, code_for, function_with, function_taken, taken};

use super::module_parts::{add_exports, export_kind, expression, function_indices};
use std::alloc::{AllocError, Global};
use wasm_ast::{
    Code, Element, Export, ExportKind, FuncType, GlobalVar, Import, ImportKind, Items, Module,
    Segment,
};
use wat_meaning::{body_of, groups_of, local_names, with_distinct};
use wat_spaces::{Bindings, Names, Spaces, Unmeant, bound, type_found, type_index};
use wat_syntax::{Field, FunctionField, ImportField, ImportOf, TypeUse};
use wx_types::Bytes;

/// Adds an import of a function.
fn take_imported_function(
    alloc: Global,
    bindings: &Bindings<'_>,
    from: &Bytes,
    field: &Bytes,
    of: &TypeUse<'_>,
    made: &mut Module,
) -> Result<(), Unmeant>
    ensures { Becomes made.new result (import_function_taken bindings.now from.now field.now (seen_use of.now) made.old) }
{
    with_distinct(alloc, Names::new(alloc), of.params.as_slice())?;
    let of = type_index(alloc, &bindings.names.types, &bindings.of, of)?;
    made.imports.push(Import {
        module: from.copy(alloc)?,
        name: field.copy(alloc)?,
        kind: ImportKind::Func(of),
    })?;
    Ok(())
}

/// Adds an import.
fn take_import(
    alloc: Global,
    bindings: &Bindings<'_>,
    field: &ImportField<'_>,
    made: &mut Module,
) -> Result<(), Unmeant>
    ensures { Becomes made.new result (import_taken bindings.now field.now.from field.now.field field.now.of made.old) }
{
    match &field.of {
        ImportOf::Function(_, of) => {
            take_imported_function(alloc, bindings, &field.from, &field.field, of, made)
        }
        ImportOf::Memory(_, of) => {
            made.imports.push(Import {
                module: field.from.copy(alloc)?,
                name: field.field.copy(alloc)?,
                kind: ImportKind::Memory(*of),
            })?;
            Ok(())
        }
    }
}

/// The locals and the instructions of a function of a type.
fn code_of(
    alloc: Global,
    bindings: &Bindings<'_>,
    field: &FunctionField<'_>,
    of: &FuncType,
) -> Result<Code, Unmeant>
    ensures { Means (λ c. c) result (code_for bindings.now of.now (seen_variables field.now.of.params.items) (seen_variables field.now.locals.items) (seen_steps field.now.body.items)) }
{
    let params = field.of.params.as_slice();
    let names = local_names(alloc, of, params, field.locals.as_slice())?;
    let body = body_of(alloc, bindings, &names, field.body.as_slice())?;
    let locals = groups_of(alloc, field.locals.as_slice())?;
    Ok(Code { locals, body })
}

/// Adds a function of an index and a type.
fn push_function(
    alloc: Global,
    index: u32,
    exports: &[Bytes],
    of: u32,
    code: Code,
    made: &mut Module,
) -> Result<(), AllocError>
    ensures { OnOk result (made.new ≡ function_with made.old index exports.now of code) }
{
    made.functions.push(of)?;
    add_exports(alloc, &mut made.exports, exports, ExportKind::Func(index))?;
    made.codes.push(code)?;
    Ok(())
}

/// Adds a function of an index.
fn take_function(
    alloc: Global,
    bindings: &Bindings<'_>,
    index: u32,
    field: &FunctionField<'_>,
    made: &mut Module,
) -> Result<(), Unmeant>
    ensures { Becomes made.new result (option_and_then (function_taken bindings.now index field.now made.old) (type_for bindings.now (seen_use field.now.of))) }
{
    let (of, found) = type_found(alloc, &bindings.names.types, &bindings.of, &field.of)?;
    let code = code_of(alloc, bindings, field, found)?;
    push_function(alloc, index, field.exports.as_slice(), of, code, made)?;
    Ok(())
}

/// The next index of a space. One beyond all numbers is want of memory.
fn next_index(names: &Names<'_>) -> Result<u32, AllocError>
    ensures { IfOk result (λ n. n ≡ length names.now) }
{
    let next = names.len();
    if next > u32::MAX as usize {
        return Err(AllocError);
    }
    Ok(next as u32)
}

/// The start that comes first.
fn first_start(start: Option<u32>, next: u32) -> Option<u32>
    ensures { result ≡ option_or start (Some next) }
{
    match start {
        Some(first) => Some(first),
        None => Some(next),
    }
}

/// Adds the parts of a field, behind fields that bind these identifiers.
pub(crate) fn take(
    alloc: Global,
    bindings: &Bindings<'_>,
    before: &Spaces<'_>,
    field: &Field<'_>,
    made: &mut Module,
) -> Result<(), Unmeant>
    ensures { Becomes made.new result (taken bindings.now before.now field.now made.old) }
{
    match field {
        Field::Type(_) => Ok(()),
        Field::Import(field) => take_import(alloc, bindings, field, made),
        Field::Function(field) => {
            let index = next_index(&before.functions)?;
            take_function(alloc, bindings, index, field, made)
        }
        Field::Table(field) => {
            made.tables.push(field.of)?;
            Ok(())
        }
        Field::Memory(field) => {
            let index = next_index(&before.memories)?;
            made.memories.push(field.of)?;
            let kind = ExportKind::Memory(index);
            add_exports(alloc, &mut made.exports, field.exports.as_slice(), kind)?;
            Ok(())
        }
        Field::Global(field) => {
            let init = expression(alloc, &field.value)?;
            made.globals.push(GlobalVar {
                of: field.of,
                mutable: field.mutable,
                init,
            })?;
            Ok(())
        }
        Field::Export(field) => {
            let kind = export_kind(&bindings.names, field.of)?;
            let name = field.name.copy(alloc)?;
            made.exports.push(Export { name, kind })?;
            Ok(())
        }
        Field::Start(index) => {
            let next = bound(bindings.names.functions.index_of(*index))?;
            made.start = first_start(made.start, next);
            Ok(())
        }
        Field::Element(field) => {
            let names = &bindings.names.functions;
            let functions = function_indices(alloc, names, field.functions.as_slice())?;
            let offset = expression(alloc, &field.offset)?;
            made.elements.push(Element {
                table: 0,
                offset,
                functions: Items::from_vec(functions),
            })?;
            Ok(())
        }
        Field::Data(field) => {
            let offset = expression(alloc, &field.offset)?;
            let bytes = field.bytes.copy(alloc)?;
            made.segments.push(Segment {
                memory: 0,
                offset,
                bytes,
            })?;
            Ok(())
        }
    }
}
