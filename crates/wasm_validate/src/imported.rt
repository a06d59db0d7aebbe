// What a module imports and has of its own, by kind, in the order of the indices: WebAssembly Core 1.0,
// section 3.1.1.
ghost use Rattle.std.specs.Prelude.{◌≡◌, ◌+◌, ◌<◌, ◌^◌, ◌++◌, map, length, IfOk};
ghost use Rattle.wasm_ast.specs.declared.module.GlobalVar.{GlobalVar};
ghost use Rattle.wasm_ast.specs.TypingModule.{functions_of, tables_of, memories_of, globals_of};

use std::alloc::{AllocError, Global};
use wasm_ast::{GlobalVar, Import, ImportKind, ValType};

/// The index of the type of each function, imported ones first.
pub fn functions(alloc: Global, imports: &[Import], own: &[u32]) -> Result<Vec<u32>, AllocError>
    ensures { IfOk result (λ all. all.items ≡ functions_of imports.now ++ own.now) }
{
    let mut all = Vec::new(alloc);
    for import in imports {
        if let ImportKind::Func(of) = import.kind {
            all.push(of)?;
        }
    }
    all.extend_from_slice(own)?;
    Ok(all)
}

/// How many tables are imported.
pub fn tables(imports: &[Import]) -> usize
    ensures value { result ≡ tables_of imports.now }
    ensures small { result < 2 ^ 63 }
{
    let mut count = 0;
    for import in imports {
        if let ImportKind::Table(_) = import.kind {
            count += 1;
        }
    }
    count
}

/// How many memories are imported.
pub fn memories(imports: &[Import]) -> usize
    ensures value { result ≡ memories_of imports.now }
    ensures small { result < 2 ^ 63 }
{
    let mut count = 0;
    for import in imports {
        if let ImportKind::Memory(_) = import.kind {
            count += 1;
        }
    }
    count
}

/// How many globals are imported.
pub fn global_count(imports: &[Import]) -> usize
    ensures { result ≡ length (globals_of imports.now) }
{
    let mut count = 0;
    for import in imports {
        if let ImportKind::Global { .. } = import.kind {
            count += 1;
        }
    }
    count
}

/// The type of each imported global, and whether it can be set.
pub fn globals(alloc: Global, imports: &[Import]) -> Result<Vec<(ValType, bool)>, AllocError>
    ensures { IfOk result (λ all. all.items ≡ globals_of imports.now) }
{
    let mut all = Vec::new(alloc);
    for import in imports {
        if let ImportKind::Global { of, mutable } = import.kind {
            all.push((of, mutable))?;
        }
    }
    Ok(all)
}

/// The type of each global, imported ones first, and whether it can be set.
pub fn all_globals(
    alloc: Global,
    imported: &[(ValType, bool)],
    own: &[GlobalVar],
) -> Result<Vec<(ValType, bool)>, AllocError>
    ensures { IfOk result (λ all. all.items ≡ imported.now ++ map (λ (g : GlobalVar). (g.of, g.mutable)) own.now) }
{
    let mut all = Vec::from_slice(alloc, imported)?;
    for global in own {
        all.push((global.of, global.mutable))?;
    }
    Ok(all)
}
