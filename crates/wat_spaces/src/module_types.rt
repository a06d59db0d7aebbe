// The types of a module: WebAssembly Core 1.0, sections 6.6.2 and 6.6.3.
ghost use Rattle.std.specs.Prelude.{◌≡◌, ◌++◌, IfOk};
ghost use Rattle.std.specs.List.{flat_map, fold};
ghost use Rattle.wat_syntax.specs.declared.field.FieldInLine.{FieldInLine};
ghost use Rattle.wat_spaces.specs.Types.{with_use};
ghost use Rattle.wat_syntax.specs.Seen.{seen_use};
ghost use Rattle.wat_syntax.specs.Flat.{seen_step, seen_steps};
ghost use Rattle.wat_spaces.specs.Collected.{step_uses, import_uses, kept_types, kept_uses, own_types_of, types_of_kept};

use super::function_types::FunctionTypes;
use super::type_uses::function_type;
use std::alloc::{AllocError, Global};
use wat_syntax::{Field, FieldInLine, ImportOf, Plain, Step, TypeUse};

impl FunctionTypes {
    /// With the type of a field for a type behind them.
    fn with_own(self, alloc: Global, field: &Field<'_>) -> Result<FunctionTypes, AllocError>
        ensures { IfOk result (λ types. types ≡ self ++ kept_types field.now) }
    {
        match field {
            Field::Type(field) => {
                let of = function_type(alloc, &field.of)?;
                self.with(alloc, of)
            }
            _ => Ok(self),
        }
    }

    /// With the type that a use makes.
    fn with_use(self, alloc: Global, of: &TypeUse<'_>) -> Result<FunctionTypes, AllocError>
        ensures { IfOk result (λ types. types ≡ with_use self (seen_use of.now)) }
    {
        match of.named {
            None => {
                let made = function_type(alloc, of)?;
                self.with_new(alloc, made)
            }
            Some(_) => Ok(self),
        }
    }

    /// With the type that a step makes.
    fn with_step(self, alloc: Global, step: &Step<'_>) -> Result<FunctionTypes, AllocError>
        ensures { IfOk result (λ types. types ≡ fold with_use self (step_uses (seen_step step.now))) }
    {
        match step {
            Step::Plain(Plain::CallIndirect(of)) => self.with_use(alloc, of),
            _ => Ok(self),
        }
    }

    /// With the types that an import makes.
    fn with_import(self, alloc: Global, of: &ImportOf<'_>) -> Result<FunctionTypes, AllocError>
        ensures { IfOk result (λ types. types ≡ fold with_use self (import_uses of.now)) }
    {
        match of {
            ImportOf::Function(_, of) => self.with_use(alloc, of),
            ImportOf::Memory(_, _) => Ok(self),
        }
    }

    /// With the types that a field makes.
    fn with_field(self, alloc: Global, field: &Field<'_>) -> Result<FunctionTypes, AllocError>
        ensures { IfOk result (λ types. types ≡ fold with_use self (kept_uses field.now)) }
    {
        match field {
            Field::Import(field) => self.with_import(alloc, &field.of),
            Field::Function(field) => {
                let types = self.with_use(alloc, &field.of)?;
                with_steps(alloc, types, field.body.as_slice())
            }
            _ => Ok(self),
        }
    }
}

/// With the types that steps make.
fn with_steps(
    alloc: Global,
    types: FunctionTypes,
    steps: &[Step<'_>],
) -> Result<FunctionTypes, AllocError>
    ensures { IfOk result (λ made. made ≡ fold with_use types (flat_map step_uses (seen_steps steps.now))) }
{
    let mut types = types;
    for step in steps {
        types = types.with_step(alloc, step)?;
    }
    Ok(types)
}

/// The types of the fields for types.
fn own_types(alloc: Global, fields: &[FieldInLine<'_>]) -> Result<FunctionTypes, AllocError>
    ensures { IfOk result (λ types. types ≡ own_types_of fields.now) }
{
    let mut types = FunctionTypes::new(alloc);
    for field in fields {
        types = types.with_own(alloc, &field.field)?;
    }
    Ok(types)
}

/// The types of a module.
pub fn types_of(alloc: Global, fields: &[FieldInLine<'_>]) -> Result<FunctionTypes, AllocError>
    ensures { IfOk result (λ types. types ≡ types_of_kept fields.now) }
{
    let mut types = own_types(alloc, fields)?;
    for field in fields {
        types = types.with_field(alloc, &field.field)?;
    }
    Ok(types)
}
