// A module that is known to be typed.
ghost use Rattle.std.specs.Prelude.{◌≡◌, false, IsTrue, IfOk, OnOk, IfErr, length, option_copied};
ghost use Rattle.wasm_ast.specs.Table.{function_type, last_put};
ghost use Rattle.wasm_ast.specs.TypingModule.{functions_of, is_typed};
ghost use Rattle.wasm_validate.specs.declared.valid.ValidateFault.TheVariants.{Memory};
ghost use Rattle.wasm_validate.specs.Elements.{IsValid};

use super::elements::{first_places, last_put};
use super::imported::functions;
use super::module::is_module;
use std::alloc::{AllocError, Global};
use std::marker::Model;
use thiserror::Error;
use wasm_ast::{FuncType, Module};

/// Why a module was refused.
#[derive(Debug, Drop, Error)]
pub enum ValidateFault {
    /// The module isn't typed (chapter 3).
    #[error("the module isn't valid")]
    Invalid,
    /// There is not enough memory.
    #[error("out of memory")]
    Memory,
}

impl From<AllocError> for ValidateFault {
    ghost from_gives = { λ _ e. e ≡ Memory };

    fn from(_e: AllocError) -> ValidateFault {
        ValidateFault::Memory
    }
}

/// A module that is typed (chapter 3). Contracts see it as the module.
#[derive(Drop)]
pub struct Valid {
    module: Module,
    functions: Vec<u32>,
    places: Vec<Option<u32>>,
}

impl Model for Valid {
    ghost use Rattle.wasm_ast.specs.declared.module.Module.{Module};

    ghost Value = { Module };

    ghost use Rattle.wasm_ast.specs.contracts.module.Module as the_module;

    ghost coded = { the_module.the_row.coded };

    ghost use Rattle.wasm_validate.specs.Elements.{IsValid};

    ghost view = { λ v. v.module };

    ghost invariant = { λ v. IsValid v.module v.functions.items v.places.items };
}

impl Valid {
    /// The module.
    pub fn module(&self) -> &Module
        ensures value { result.now ≡ self.now }
        ensures typed { IsTrue (is_typed result.now) }
    {
        &self.module
    }

    /// How many functions it imports: these have the indices below that of the first of its own.
    #[inline(always)]
    pub fn imported_functions(&self) -> usize
        ensures { result ≡ length (functions_of self.now.imports) }
    {
        self.functions.len() - self.module.functions.len()
    }

    /// The type of the function of that index, imported functions first, if there is one (3.1.1).
    #[inline(always)]
    pub fn function_type(&self, index: u32) -> Option<&FuncType>
        ensures { option_copied result ≡ function_type self.now index }
    {
        let of = self.functions.as_slice().get(index as usize)?;
        self.module.types.as_slice().get(*of as usize)
    }

    /// The index of the function that the element segments put at a place of the table, if any: that of the last
    /// one counts (4.5.4). The first 65,536 places of the table are looked up; for one behind them the segments are
    /// gone through.
    #[inline(always)]
    pub fn element(&self, place: u32) -> Option<u32>
        ensures { result ≡ last_put self.now self.now.elements place }
    {
        match self.places.as_slice().get(place as usize) {
            Some(function) => *function,
            None => last_put(&self.module, place),
        }
    }
}

/// What is kept beside a module, if it is typed: the index of the type of each of its functions, and the functions
/// at the first places of its table.
fn tables(alloc: Global, module: &Module) -> Result<(Vec<u32>, Vec<Option<u32>>), ValidateFault>
    ensures valid { IfOk result (λ t. IsValid module.now t.0.items t.1.items) }
    ensures invalid_only { IfErr result (λ e. e ≡ ValidateFault.Invalid → is_typed module.now ≡ false) }
{
    let functions = functions(
        alloc,
        module.imports.as_slice(),
        module.functions.as_slice(),
    )?;
    if !is_module(alloc, module, functions.as_slice())? {
        return Err(ValidateFault::Invalid);
    }
    let places = first_places(alloc, module)?;
    Ok((functions, places))
}

/// The module, if it is typed (chapter 3, and the threads proposal). `Invalid` comes exactly where it
/// isn't, `Memory` only for want of memory; both drop the module. An instruction on floating-point
/// numbers is never typed, since it isn't kept which one it is.
pub fn validate(alloc: Global, checked: Module) -> Result<Valid, ValidateFault>
    ensures valid { IfOk result (λ v. v ≡ checked) }
    ensures valid_only { OnOk result (IsTrue (is_typed checked)) }
    ensures invalid_only { IfErr result (λ e. e ≡ ValidateFault.Invalid → is_typed checked ≡ false) }
{
    match tables(alloc, &checked) {
        Ok((functions, places)) => Ok(Valid {
            module: checked,
            functions,
            places,
        }),
        Err(fault) => {
            drop(checked);
            Err(fault)
        }
    }
}
