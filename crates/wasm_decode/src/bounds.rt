//! The limits of a module that this project sets.

ghost use Rattle.std.specs.Prelude.{◌≡◌, ◌+◌, ◌<◌, ◌^◌, nat_lt, length, slice_get};
ghost use Rattle.std.specs.List.{list_any};
ghost use Rattle.wasm_ast.specs.declared.types.Limits.{Limits};
ghost use Rattle.wasm_ast.specs.declared.module.Import.{Import};
ghost use Rattle.wasm_ast.specs.Locals.{total};
ghost use Rattle.wasm_ast.specs.TypingModule.{functions_of};
ghost use Rattle.wasm_decode.specs.Bodies.{any_body};
ghost use Rattle.wasm_decode.specs.Bounds.{functions_in, parameters, any_has_many, is_deep, import_is_large, import_has_many_pages, first_passed};

use crate::fault::Bound;
use wasm_ast::{Code, FuncType, Import, ImportKind, Limits, LocalGroup, Module};

const MOST_TYPES: usize = 10_000;

const MOST_FUNCTIONS: usize = 20_000;

const MOST_LOCALS: u64 = 8_192;

const MOST_ELEMENTS: u32 = 65_536;

const MOST_PAGES: u32 = 256;

/// How many functions are imported.
fn imported_functions(imports: &[Import]) -> usize
    ensures value { result ≡ length (functions_of imports.now) }
    ensures small { result < 2 ^ 63 }
{
    let mut count = 0;
    for import in imports {
        if let ImportKind::Func(_) = import.kind {
            count += 1;
        }
    }
    count
}

/// How many functions a module has, imported ones among them.
fn functions_in(module: &Module) -> usize
    ensures { result ≡ functions_in module.now }
{
    imported_functions(module.imports.as_slice()) + module.functions.as_slice().len()
}

/// How many locals there are.
fn total(groups: &[LocalGroup]) -> u64
    requires { total groups.now < 2 ^ 32 }
    ensures { result ≡ total groups.now }
{
    let mut count: u64 = 0;
    for group in groups {
        count += u64::from(group.count);
    }
    count
}

/// How many parameters a function of the type of that index has, none where there is no such type.
fn parameters(types: &[FuncType], of: u32) -> u64
    ensures value { result ≡ parameters (slice_get types.now of) }
    ensures small { result < 2 ^ 63 }
{
    match types.get(of as usize) {
        None => 0,
        Some(of) => of.params.as_slice().len() as u64,
    }
}

/// Whether a function of the type of that index has more locals than it may, its parameters among them.
fn has_many(types: &[FuncType], of: u32, code: &Code) -> bool
    ensures { result ≡ nat_lt 8192 (parameters (slice_get types.now of) + total code.now.locals) }
{
    parameters(types, of) + total(code.locals.groups()) > MOST_LOCALS
}

/// Whether a function of the module's own has more locals than it may.
fn any_has_many(types: &[FuncType], functions: &[u32], codes: &[Code]) -> bool
    ensures { result ≡ any_has_many types.now functions.now codes.now }
{
    for i in 0..functions.len() {
        let Some(code) = codes.get(i) else {
            return false;
        };
        if has_many(types, functions[i], code) {
            return true;
        }
    }
    false
}

/// Whether one of the tables or memories is larger at first.
fn any_is_larger(limits: &[Limits], most: u32) -> bool
    ensures { result ≡ list_any (λ (l : Limits). nat_lt most l.min) limits.now }
{
    limits.iter().any(|l| l.min > most)
}

fn import_is_large(kind: ImportKind) -> bool
    ensures { result ≡ import_is_large kind }
{
    match kind {
        ImportKind::Table(limits) => limits.min > MOST_ELEMENTS,
        _ => false,
    }
}

/// Whether one of the imports is a table of more elements than it may have at first.
fn any_import_is_large(imports: &[Import]) -> bool
    ensures { result ≡ list_any (λ (i : Import). import_is_large i.kind) imports.now }
{
    imports.iter().any(|import| import_is_large(import.kind))
}

fn import_has_many_pages(kind: ImportKind) -> bool
    ensures { result ≡ import_has_many_pages kind }
{
    match kind {
        ImportKind::Memory(limits) => limits.min > MOST_PAGES,
        _ => false,
    }
}

/// Whether one of the imports is a memory of more pages than it may have at first.
fn any_import_has_many_pages(imports: &[Import]) -> bool
    ensures { result ≡ list_any (λ (i : Import). import_has_many_pages i.kind) imports.now }
{
    imports
        .iter()
        .any(|import| import_has_many_pages(import.kind))
}

/// The first limit that a module passes, where it is known whether its blocks are nested too deep.
pub(crate) fn first_passed(module: &Module, deep: bool) -> Option<Bound>
    requires { deep ≡ any_body is_deep module.now }
    ensures { result ≡ first_passed module.now }
{
    let types = module.types.as_slice();
    let imports = module.imports.as_slice();
    if types.len() > MOST_TYPES {
        return Some(Bound::Types);
    }
    if functions_in(module) > MOST_FUNCTIONS {
        return Some(Bound::Functions);
    }
    if any_has_many(types, module.functions.as_slice(), module.codes.as_slice()) {
        return Some(Bound::Locals);
    }
    if deep {
        return Some(Bound::Nesting);
    }
    if any_import_is_large(imports) || any_is_larger(module.tables.as_slice(), MOST_ELEMENTS) {
        return Some(Bound::Table);
    }
    if any_import_has_many_pages(imports) || any_is_larger(module.memories.as_slice(), MOST_PAGES) {
        return Some(Bound::Pages);
    }
    None
}
