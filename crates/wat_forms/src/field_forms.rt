// The form of a field, by its keyword: WebAssembly Core 1.0, section 6.6.
ghost use Rattle.wat_forms.specs.FieldForms.{function_field, form_of, field_of};
ghost use Rattle.wat_syntax.specs.Seen.{at_place};
ghost use Rattle.wat_syntax.specs.SeenFields.{ReadsField};

use super::function_fields::function_field;
use super::small_fields::{
    data_field, element_field, export_field, global_field, import_field, memory_field, table_field,
    type_field,
};
use std::alloc::Global;
use wat_fields::{Fields, Item, Place};
use wat_syntax::{Field, Refusal, one_reference};

/// A field for a function, behind `func`.
fn function_form<'a>(fields: &Fields<'a>, alloc: Global, at: Place) -> Result<Field<'a>, Refusal>
    ensures { ReadsField result (function_field (at_place fields.now at)) }
{
    match function_field(fields, alloc, at) {
        Ok(field) => Ok(Field::Function(field)),
        Err(refusal) => Err(refusal),
    }
}

/// What a field says, by its keyword and what stands behind that.
fn form_of<'a>(
    fields: &Fields<'a>,
    alloc: Global,
    keyword: &[u8],
    at: Place,
) -> Result<Field<'a>, Refusal>
    ensures { ReadsField result (form_of keyword.now (at_place fields.now at)) }
{
    if keyword == b"type".as_slice() {
        return Ok(Field::Type(type_field(fields, alloc, at)?));
    }
    if keyword == b"import".as_slice() {
        return Ok(Field::Import(import_field(fields, alloc, at)?));
    }
    if keyword == b"func".as_slice() {
        return function_form(fields, alloc, at);
    }
    if keyword == b"table".as_slice() {
        return match table_field(fields, at) {
            Some(field) => Ok(Field::Table(field)),
            None => Err(Refusal::Form),
        };
    }
    if keyword == b"memory".as_slice() {
        return Ok(Field::Memory(memory_field(fields, alloc, at)?));
    }
    if keyword == b"global".as_slice() {
        return match global_field(fields, at) {
            Some(field) => Ok(Field::Global(field)),
            None => Err(Refusal::Form),
        };
    }
    if keyword == b"export".as_slice() {
        return Ok(Field::Export(export_field(fields, alloc, at)?));
    }
    if keyword == b"start".as_slice() {
        return match one_reference(fields, at) {
            Some(function) => Ok(Field::Start(function)),
            None => Err(Refusal::Form),
        };
    }
    if keyword == b"elem".as_slice() {
        return Ok(Field::Element(element_field(fields, alloc, at)?));
    }
    if keyword == b"data".as_slice() {
        return Ok(Field::Data(data_field(fields, alloc, at)?));
    }
    Err(Refusal::Form)
}

/// What a field says, by what stands inside its parentheses.
pub(crate) fn field_of<'a>(
    fields: &Fields<'a>,
    alloc: Global,
    inside: Place,
) -> Result<Field<'a>, Refusal>
    ensures { ReadsField result (field_of (at_place fields.now inside)) }
{
    match fields.item(inside) {
        Some(met) => match met.item {
            Item::Word(keyword) => form_of(fields, alloc, keyword, met.behind),
            Item::Text(_) => Err(Refusal::Form),
            Item::Group(_, _) => Err(Refusal::Form),
        },
        None => Err(Refusal::Form),
    }
}
