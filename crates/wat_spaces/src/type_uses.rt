// What uses of types mean: WebAssembly Core 1.0, section 6.6.3.
ghost use Rattle.std.specs.Prelude.{◌≡◌, ◌||◌, map, IfOk};
ghost use Rattle.std.specs.Option.{option_map, option_and_then, option_to_list};
ghost use Rattle.wat_syntax.specs.declared.parsed.Variable.{Variable};
ghost use Rattle.wat_syntax.specs.Parsed.{function_type};
ghost use Rattle.wat_spaces.specs.Types.{Found, same_function_type, has_no_parts, if_agrees, found_at, meaning_of};
ghost use Rattle.wat_syntax.specs.Seen.{seen_use};
ghost use Rattle.wat_spaces.specs.Means.{Means};
ghost use Rattle.wat_spaces.specs.TypeKeys.{seen_found};

use super::function_types::{FunctionTypes, type_key};
use super::names::Names;
use super::unmeant::{Unmeant, bound};
use std::alloc::{AllocError, Global};
use wasm_ast::{FuncType, Items, ValType};
use wat_syntax::{TypeUse, Variable};

/// Whether two types are the same.
#[tactic(auto, using(crate::proofs::TypeLemmas::keys_same))]
fn same_function_type(alloc: Global, a: &FuncType, b: &FuncType) -> Result<bool, AllocError>
    ensures { IfOk result (λ same. same ≡ same_function_type a.now b.now) }
{
    let key = type_key(alloc, a)?;
    let other = type_key(alloc, b)?;
    Ok(key.as_slice() == other.as_slice())
}

/// The types of variables.
fn types_of(alloc: Global, variables: &[Variable<'_>]) -> Result<Vec<ValType>, AllocError>
    ensures { IfOk result (λ types. types.items ≡ map (λ (v : Variable). v.of) variables.now) }
{
    let mut types = Vec::new(alloc);
    for variable in variables {
        types.push(variable.of)?;
    }
    Ok(types)
}

/// The list of a result, if there is one.
fn result_of(alloc: Global, of: Option<ValType>) -> Result<Vec<ValType>, AllocError>
    ensures { IfOk result (λ results. results.items ≡ option_to_list of) }
{
    let mut results = Vec::new(alloc);
    match of {
        None => Ok(results),
        Some(of) => {
            results.push(of)?;
            Ok(results)
        }
    }
}

/// The type that the inline parts of a use say.
pub(crate) fn function_type(alloc: Global, of: &TypeUse<'_>) -> Result<FuncType, AllocError>
    ensures { IfOk result (λ made. made ≡ function_type (seen_use of.now)) }
{
    let params = types_of(alloc, of.params.as_slice())?;
    let results = result_of(alloc, of.of)?;
    Ok(FuncType {
        params: Items::from_vec(params),
        results: Items::from_vec(results),
    })
}

/// Whether a type has neither parameters nor results.
#[tactic(auto, using(crate::proofs::TypeLemmas::none_empty))]
fn has_no_parts(of: &FuncType) -> bool
    ensures { result ≡ has_no_parts of.now }
{
    of.params.is_empty() && of.results.is_empty()
}

/// Whether inline parts are those of a type, or none.
fn agree(alloc: Global, of: &FuncType, found: &FuncType) -> Result<bool, AllocError>
    ensures { IfOk result (λ agree. agree ≡ (has_no_parts of.now || same_function_type of.now found.now)) }
{
    if has_no_parts(of) {
        return Ok(true);
    }
    same_function_type(alloc, of, found)
}

/// The index of a type, where inline parts are those of that type or are none.
fn agreeing(alloc: Global, types: &FunctionTypes, of: &FuncType, index: u32) -> Result<u32, Unmeant>
    ensures { Means (λ n. n) result (option_map (λ (f : Found). f.index) (option_and_then (if_agrees of.now) (found_at types.now index))) }
{
    match types.get(index) {
        None => Err(Unmeant::Name),
        Some(found) => {
            if agree(alloc, of, found)? {
                Ok(index)
            } else {
                Err(Unmeant::Name)
            }
        }
    }
}

/// The index of the type that a use means.
pub fn type_index(
    alloc: Global,
    names: &Names<'_>,
    types: &FunctionTypes,
    of: &TypeUse<'_>,
) -> Result<u32, Unmeant>
    ensures { Means (λ n. n) result (option_map (λ (f : Found). f.index) (meaning_of names.now types.now (seen_use of.now))) }
{
    let inline = function_type(alloc, of)?;
    match of.named {
        None => {
            let first = types.first_of(alloc, &inline)?;
            bound(first)
        }
        Some(reference) => {
            let index = bound(names.index_of(reference))?;
            agreeing(alloc, types, &inline, index)
        }
    }
}

/// The type that a use means, with its index.
pub fn type_found<'t>(
    alloc: Global,
    names: &Names<'_>,
    types: &'t FunctionTypes,
    of: &TypeUse<'_>,
) -> Result<(u32, &'t FuncType), Unmeant>
    ensures { Means seen_found result (meaning_of names.now types.now (seen_use of.now)) }
{
    let index = type_index(alloc, names, types, of)?;
    match types.get(index) {
        Some(found) => Ok((index, found)),
        None => Err(Unmeant::Name),
    }
}
