//! Types of floating-point numbers in a module: WebAssembly Core 1.0, section 2.3.1.

ghost use Rattle.std.specs.Prelude.{◌≡◌};
ghost use Rattle.std.specs.List.{list_any};
ghost use Rattle.wasm_ast.specs.declared.locals.LocalGroup.{LocalGroup};
ghost use Rattle.wasm_ast.specs.declared.module.{Import.Import, GlobalVar.GlobalVar, Code.Code};
ghost use Rattle.wasm_decode.specs.Floats.{is_float, block_is_float, type_has_float, import_is_float, types_have_float};

use wasm_ast::{Code, FuncType, GlobalVar, Import, ImportKind, LocalGroup, Module, ValType};

fn is_float(of: ValType) -> bool
    ensures { result ≡ is_float of }
{
    matches!(of, ValType::F32 | ValType::F64)
}

/// Whether the type of a block is one of floating-point numbers.
pub(crate) fn block_is_float(of: Option<ValType>) -> bool
    ensures { result ≡ block_is_float of }
{
    match of {
        None => false,
        Some(of) => is_float(of),
    }
}

fn any_is_float(types: &[ValType]) -> bool
    ensures { result ≡ list_any is_float types.now }
{
    types.iter().any(|of| is_float(*of))
}

/// Whether a function of one of the types takes or gives a float.
fn any_type_has_float(types: &[FuncType]) -> bool
    ensures { result ≡ list_any type_has_float types.now }
{
    types.iter().any(|of| any_is_float(of.params.as_slice()) || any_is_float(of.results.as_slice()))
}

fn import_is_float(kind: ImportKind) -> bool
    ensures { result ≡ import_is_float kind }
{
    match kind {
        ImportKind::Global { of, .. } => is_float(of),
        _ => false,
    }
}

/// Whether one of the imports is a global that holds a float.
fn any_import_is_float(imports: &[Import]) -> bool
    ensures { result ≡ list_any (λ (i : Import). import_is_float i.kind) imports.now }
{
    imports.iter().any(|import| import_is_float(import.kind))
}

fn any_global_is_float(globals: &[GlobalVar]) -> bool
    ensures { result ≡ list_any (λ (g : GlobalVar). is_float g.of) globals.now }
{
    globals.iter().any(|global| is_float(global.of))
}

fn any_local_is_float(groups: &[LocalGroup]) -> bool
    ensures { result ≡ list_any (λ (g : LocalGroup). is_float g.of) groups.now }
{
    groups.iter().any(|group| is_float(group.of))
}

/// Whether a local of one of the functions holds a float.
fn any_code_has_float(codes: &[Code]) -> bool
    ensures { result ≡ list_any (λ (c : Code). list_any (λ (g : LocalGroup). is_float g.of) c.locals) codes.now }
{
    codes
        .iter()
        .any(|code| any_local_is_float(code.locals.groups()))
}

/// Whether a type that the module has, apart from those of its blocks, is one of floating-point numbers.
pub(crate) fn types_have_float(module: &Module) -> bool
    ensures { result ≡ types_have_float module.now }
{
    any_type_has_float(module.types.as_slice())
        || any_import_is_float(module.imports.as_slice())
        || any_global_is_float(module.globals.as_slice())
        || any_code_has_float(module.codes.as_slice())
}
