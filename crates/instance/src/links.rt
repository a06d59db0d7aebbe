// Whether the imports of a module link, and the calls that they are.
ghost use Rattle.std.specs.Prelude.{◌≡◌, filter_map, is_some, option_copied, slice_get, IfOk, IfSome};
ghost use Rattle.std.specs.List.{list_all};
ghost use Rattle.instance.specs.Links.{import_call, import_links, is_built, is_host_memory};

use crate::calls::call_number;
use std::alloc::{AllocError, Global};
use wasm_ast::{FuncType, Import, ImportKind, Module};

/// The type of that index.
fn type_at(module: &Module, of: u32) -> Option<&FuncType>
    ensures { option_copied result ≡ slice_get «module».now.types of }
{
    module.types.as_slice().get(of as usize)
}

/// The call that an import is, where it is a function that is one.
fn import_call(module: &Module, import: &Import) -> Option<u16>
    ensures { result ≡ import_call «module».now import.now }
{
    let ImportKind::Func(of) = import.kind else {
        return None;
    };
    match type_at(module, of) {
        Some(of) => call_number(import.module.as_slice(), import.name.as_slice(), of),
        None => None,
    }
}

/// Whether an import is the memory `memory` of `env`.
fn is_host_memory(import: &Import) -> bool
    ensures { result ≡ is_host_memory import.now }
{
    match import.kind {
        ImportKind::Memory(_) => {
            import.module.as_slice() == b"env".as_slice()
                && import.name.as_slice() == b"memory".as_slice()
        }
        _ => false,
    }
}

/// The numbers of the calls that the imported functions are, in their order; none where an import doesn't link.
/// `AllocError` is want of memory and nothing else.
pub fn call_numbers(alloc: Global, module: &Module) -> Result<Option<Vec<u16>>, AllocError>
    ensures numbers { IfOk result (λ found. IfSome found (λ numbers. numbers.items ≡ filter_map (import_call «module».now) «module».now.imports)) }
    ensures links { IfOk result (λ found. is_some found ≡ list_all (import_links «module».now) «module».now.imports) }
{
    let mut numbers = Vec::new(alloc);
    for import in module.imports.as_slice() {
        match import_call(module, import) {
            Some(number) => numbers.push(number)?,
            None => {
                if !is_host_memory(import) {
                    return Ok(None);
                }
            }
        }
    }
    Ok(Some(numbers))
}

/// Whether the host answers a call.
fn is_built(call: u16) -> bool
    ensures { result ≡ is_built call }
{
    call == 17 || call == 37
}

/// Whether the host answers all of some calls.
pub fn are_built(calls: &[u16]) -> bool
    ensures { result ≡ list_all is_built calls.now }
{
    for call in calls {
        if !is_built(*call) {
            return false;
        }
    }
    true
}
