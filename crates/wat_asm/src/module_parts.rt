// The parts that fields give to a module: WebAssembly Core 1.0, section 6.6.
ghost use Rattle.std.specs.Prelude.{◌≡◌, [], ◌∷◌, ◌++◌, map, Some, IfOk, OnOk};
ghost use Rattle.std.specs.Option.{option_map, option_or};
ghost use Rattle.wat_meaning.specs.Meaning.{all_some, expression};
ghost use Rattle.wat_spaces.specs.Spaces.{index_in};
ghost use Rattle.wat_syntax.specs.Seen.{seen_reference, seen_exported};
ghost use Rattle.wat_asm.specs.Taken.{exports_named, exported_for};
ghost use Rattle.wat_spaces.specs.Means.{Means};

use std::alloc::{AllocError, Global};
use wasm_ast::{Body, BodyBuilder, Export, ExportKind, Items};
use wat_spaces::{Names, Spaces, Unmeant, bound};
use wat_syntax::{Exported, Reference, Simple};
use wx_types::Bytes;

/// An initial value or an offset.
pub(crate) fn expression(alloc: Global, constant: &Simple) -> Result<Body, AllocError>
    ensures { IfOk result (λ body. body ≡ expression constant.now) }
{
    let mut built = BodyBuilder::new(alloc)?;
    built.plain(constant.instr(alloc)?)?;
    Ok(built.finish())
}

/// Adds exports of one thing.
pub(crate) fn add_exports(
    alloc: Global,
    exports: &mut Items<Export>,
    names: &[Bytes],
    kind: ExportKind,
) -> Result<(), AllocError>
    ensures { OnOk result (exports.new ≡ exports.old ++ exports_named kind names.now) }
{
    for name in names {
        exports.push(Export {
            name: name.copy(alloc)?,
            kind,
        })?;
    }
    Ok(())
}

/// What an export names.
pub(crate) fn export_kind(names: &Spaces<'_>, of: Exported<'_>) -> Result<ExportKind, Unmeant>
    ensures { Means (λ k. k) result (exported_for names.now (seen_exported of.entry)) }
{
    match of {
        Exported::Function(index) => match names.functions.index_of(index) {
            Some(index) => Ok(ExportKind::Func(index)),
            None => Err(Unmeant::Name),
        },
        Exported::Table(index) => match names.tables.index_of(index) {
            Some(index) => Ok(ExportKind::Table(index)),
            None => Err(Unmeant::Name),
        },
        Exported::Memory(index) => match names.memories.index_of(index) {
            Some(index) => Ok(ExportKind::Memory(index)),
            None => Err(Unmeant::Name),
        },
        Exported::Global(index) => match names.globals.index_of(index) {
            Some(index) => Ok(ExportKind::Global(index)),
            None => Err(Unmeant::Name),
        },
    }
}

/// The functions that references mean.
pub(crate) fn function_indices(
    alloc: Global,
    functions: &Names<'_>,
    references: &[Reference<'_>],
) -> Result<Vec<u32>, Unmeant>
    ensures { Means (λ indices. indices.items) result (all_some (map (index_in functions.now) (map seen_reference references.now))) }
{
    let mut indices = Vec::new(alloc);
    for reference in references {
        match functions.index_of(*reference) {
            None => return Err(Unmeant::Name),
            Some(index) => indices.push(index)?,
        }
    }
    Ok(indices)
}
