// The form of a function: WebAssembly Core 1.0, section 6.6.5.
ghost use Rattle.wat_forms.specs.ReadFields.{ReadsFunction};
ghost use Rattle.wat_syntax.specs.Seen.{at_place};

use std::alloc::Global;
use wat_bodies::body_at;
use wat_fields::{Fields, Place};
use wat_syntax::{FunctionField, Refusal, exports_at, identifier_at, use_at, variables_at};

/// A field for a function, behind `func` (6.6.5).
pub(crate) fn function_field<'a>(
    fields: &Fields<'a>,
    alloc: Global,
    at: Place,
) -> Result<FunctionField<'a>, Refusal>
    ensures { ReadsFunction (at_place fields.now at) result }
{
    let (name, at) = identifier_at(fields, at);
    let (exports, at) = exports_at(fields, alloc, at)?;
    let (of, at) = use_at(fields, alloc, at)?;
    let (locals, at) = variables_at(fields, alloc, b"local".as_slice(), at)?;
    let body = body_at(fields, alloc, at)?;
    Ok(FunctionField {
        name,
        exports,
        of,
        locals,
        body,
    })
}
