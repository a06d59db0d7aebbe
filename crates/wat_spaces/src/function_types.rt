// The types of a module, with the first index of each: WebAssembly Core 1.0, section 6.6.3.
ghost use Rattle.std.specs.Prelude.{◌≡◌, [], ◌∷◌, ◌++◌, IfOk, OnOk, map, option_copied};
ghost use Rattle.std.specs.List.{position, slice_get};
ghost use Rattle.wat_spaces.specs.Types.{same_function_type, with_type};
ghost use Rattle.wat_spaces.specs.TypeKeys.{type_code, type_key};

use super::names::add_first;
use std::alloc::{AllocError, Global};
use std::collections::BTreeMap;
use std::marker::Model;
use wasm_ast::{FuncType, Items, ValType};

/// Types in their order, with the first index of each. Contracts see their list.
#[derive(Drop)]
pub struct FunctionTypes {
    types: Items<FuncType>,
    first: BTreeMap<Vec<u8>, u32>,
}

impl Model for FunctionTypes {
    ghost use Rattle.std.specs.Prelude.{List};
    ghost use Rattle.wasm_ast.specs.declared.types.FuncType.{FuncType};
    ghost use Rattle.wat_spaces.specs.TypeKeys.{HasTypes};

    ghost Value = { List FuncType };

    ghost view = { λ t. t.types };

    ghost invariant = { λ t. HasTypes t.types t.first };
}

/// A number of a value type, below 4.
fn type_code(of: ValType) -> u8
    ensures { result ≡ type_code of }
{
    match of {
        ValType::I32 => 0,
        ValType::I64 => 1,
        ValType::F32 => 2,
        ValType::F64 => 3,
    }
}

/// Puts the numbers of value types behind others.
fn add_codes(codes: &mut Vec<u8>, types: &[ValType]) -> Result<(), AllocError>
    ensures { OnOk result (codes.new.items ≡ codes.old.items ++ map type_code types.now) }
{
    for of in types {
        codes.push(type_code(*of))?;
    }
    Ok(())
}

/// The key of a type.
pub(crate) fn type_key(alloc: Global, of: &FuncType) -> Result<Vec<u8>, AllocError>
    ensures { IfOk result (λ key. key.items ≡ type_key of.now) }
{
    let mut key = Vec::new(alloc);
    add_codes(&mut key, of.params.as_slice())?;
    key.push(4)?;
    add_codes(&mut key, of.results.as_slice())?;
    Ok(key)
}

impl FunctionTypes {
    /// None yet. No memory is taken.
    pub fn new(alloc: Global) -> FunctionTypes
        ensures { result ≡ [] }
    {
        FunctionTypes {
            types: Items::new(alloc),
            first: BTreeMap::new(alloc),
        }
    }

    /// The type of an index.
    pub fn get(&self, index: u32) -> Option<&FuncType>
        ensures { option_copied result ≡ slice_get self.now index }
    {
        self.types.as_slice().get(index as usize)
    }

    /// The first index of a type that equals this one.
    pub fn first_of(&self, alloc: Global, of: &FuncType) -> Result<Option<u32>, AllocError>
        ensures { IfOk result (λ found. found ≡ position (same_function_type of.now) self.now) }
    {
        let key = type_key(alloc, of)?;
        Ok(self.first.get(key.as_slice()).copied())
    }

    /// One more behind them. `AllocError` is want of memory, also where there are more than numbers.
    pub fn with(self, alloc: Global, of: FuncType) -> Result<FunctionTypes, AllocError>
        ensures { IfOk result (λ types. types ≡ self ++ of ∷ []) }
    {
        let FunctionTypes {
            mut types,
            mut first,
        } = self;
        let index = types.len();
        if index > u32::MAX as usize {
            return Err(AllocError);
        }
        let key = type_key(alloc, &of)?;
        add_first(alloc, &mut first, key.as_slice(), index as u32)?;
        types.push(of)?;
        Ok(FunctionTypes { types, first })
    }

    /// One more behind them, where none of them equals it. `AllocError` is want of memory.
    pub fn with_new(self, alloc: Global, of: FuncType) -> Result<FunctionTypes, AllocError>
        ensures { IfOk result (λ types. types ≡ with_type self of) }
    {
        match self.first_of(alloc, &of)? {
            Some(_) => Ok(self),
            None => self.with(alloc, of),
        }
    }

    /// The list of the types. No memory is taken.
    pub fn into_types(self) -> Items<FuncType>
        ensures { result ≡ self }
    {
        let FunctionTypes { types, .. } = self;
        types
    }
}
