// The forms of the fields that have no instructions but constants: WebAssembly Core 1.0, section 6.6.
ghost use Rattle.std.specs.Prelude.{◌≡◌, List, ℕ, map};
ghost use Rattle.std.specs.Option.{option_map};
ghost use Rattle.wat_tokens.specs.Quoted.{quoted_bytes};
ghost use Rattle.wat_syntax.specs.Immediates.{identifier_front};
ghost use Rattle.wat_forms.specs.FieldForms.{type_of_group, type_field, import_of, imported, import_field, table_field, memory_field, constant_of, constant, mutable_type, global_of, global_behind, global_field, exported, export_of, export_field, offset_of, offset, texts_of, element_field, data_field};
ghost use Rattle.wat_immediates.specs.PlainForms.{references_of};
ghost use Rattle.wat_syntax.specs.Seen.{at_place, seen_reference, seen_name, seen_keyed, seen_type, seen_type_field, seen_import, seen_import_field, seen_table_field, seen_memory_field, seen_global_field, seen_exported, seen_export_field, seen_element_field, seen_data_field, Reads};

use super::limits::{memory_limits, table_limits};
use std::alloc::Global;
use wasm_ast::{Instr, ValType};
use wat_fields::{Fields, Item, Place};
use wat_syntax::{
    DataField, ElementField, ExportField, Exported, GlobalField, ImportField, ImportOf, KeyedGroup,
    MemoryField, Reference, Refusal, Simple, TableField, TypeField, TypeUse, exports_at, group_at,
    identifier_at, is_end, keyed_at, name_of, one_reference, one_type, one_word, reference_of,
    text_at, type_of, use_at, word_at,
};
use wat_tokens::Quoted;
use wat_words::{i32_of, i64_of};
use wx_types::Bytes;

/// `(func param* result?)` alone (6.4.3).
fn type_of_group<'a>(fields: &Fields<'a>, alloc: Global, at: Place) -> Result<TypeUse<'a>, Refusal>
    ensures { Reads seen_type result (type_of_group (at_place fields.now at)) }
{
    match keyed_at(fields, at) {
        Some(group) => {
            if group.keyword != b"func".as_slice() || !is_end(fields, group.behind) {
                return Err(Refusal::Form);
            }
            let (of, behind) = use_at(fields, alloc, group.inside)?;
            if is_end(fields, behind) && of.named.is_none() {
                Ok(of)
            } else {
                Err(Refusal::Form)
            }
        }
        None => Err(Refusal::Form),
    }
}

/// A field for a type, behind `type` (6.6.2).
pub(crate) fn type_field<'a>(
    fields: &Fields<'a>,
    alloc: Global,
    at: Place,
) -> Result<TypeField<'a>, Refusal>
    ensures { Reads seen_type_field result (type_field (at_place fields.now at)) }
{
    let (name, at) = identifier_at(fields, at);
    let of = type_of_group(fields, alloc, at)?;
    Ok(TypeField { name, of })
}

/// A field for a table, behind `table` (6.6.6).
pub(crate) fn table_field<'a>(fields: &Fields<'a>, at: Place) -> Option<TableField<'a>>
    ensures { option_map seen_table_field result ≡ table_field (at_place fields.now at) }
{
    let (name, at) = identifier_at(fields, at);
    match table_limits(fields, at) {
        Some(of) => Some(TableField { name, of }),
        None => None,
    }
}

/// A field for a memory, behind `memory` (6.6.7).
pub(crate) fn memory_field<'a>(
    fields: &Fields<'a>,
    alloc: Global,
    at: Place,
) -> Result<MemoryField<'a>, Refusal>
    ensures { Reads seen_memory_field result (memory_field (at_place fields.now at)) }
{
    let (name, at) = identifier_at(fields, at);
    let (exports, at) = exports_at(fields, alloc, at)?;
    match memory_limits(fields, at) {
        Some(of) => Ok(MemoryField { name, exports, of }),
        None => Err(Refusal::Form),
    }
}

/// The constant instruction of a name and a number.
fn constant_of(name: &[u8], word: &[u8]) -> Option<Simple>
    ensures { result ≡ constant_of name.now word.now }
{
    if name == b"i32.const".as_slice() {
        return match i32_of(word) {
            Some(value) => Some(Simple::new(Instr::I32Const(value))),
            None => None,
        };
    }
    if name == b"i64.const".as_slice() {
        return match i64_of(word) {
            Some(value) => Some(Simple::new(Instr::I64Const(value))),
            None => None,
        };
    }
    None
}

/// `t.const n`, and nothing more.
pub(crate) fn constant(fields: &Fields<'_>, at: Place) -> Option<Simple>
    ensures { result ≡ constant (at_place fields.now at) }
{
    match word_at(fields, at) {
        Some((name, behind)) => match one_word(fields, behind) {
            Some(word) => constant_of(name, word),
            None => None,
        },
        None => None,
    }
}

/// The constant instruction of an offset.
fn offset_of(name: &[u8], word: &[u8]) -> Option<Simple>
    ensures { result ≡ offset_of name.now word.now }
{
    if name == b"i32.const".as_slice() {
        return match i32_of(word) {
            Some(value) => Some(Simple::new(Instr::I32Const(value))),
            None => None,
        };
    }
    None
}

/// `i32.const n`, and nothing more.
pub(crate) fn offset(fields: &Fields<'_>, at: Place) -> Option<Simple>
    ensures { result ≡ offset (at_place fields.now at) }
{
    match word_at(fields, at) {
        Some((name, behind)) => match one_word(fields, behind) {
            Some(word) => offset_of(name, word),
            None => None,
        },
        None => None,
    }
}

/// What an export names, by its kind.
fn exported<'a>(keyword: &[u8], x: Reference<'a>) -> Option<Exported<'a>>
    ensures { option_map seen_exported result ≡ exported keyword.now (seen_reference x.entry) }
{
    if keyword == b"func".as_slice() {
        return Some(Exported::Function(x));
    }
    if keyword == b"table".as_slice() {
        return Some(Exported::Table(x));
    }
    if keyword == b"memory".as_slice() {
        return Some(Exported::Memory(x));
    }
    if keyword == b"global".as_slice() {
        return Some(Exported::Global(x));
    }
    None
}

/// A field for a global, by its name and its type, behind the type: a constant alone.
fn global_of<'a>(
    fields: &Fields<'a>,
    at: Place,
    name: Option<&'a [u8]>,
    mutable: bool,
    of: ValType,
) -> Option<GlobalField<'a>>
    ensures { option_map seen_global_field result ≡ global_of (seen_name name.entry) mutable of (at_place fields.now at) }
{
    match group_at(fields, at) {
        Some((inside, behind)) => {
            if !is_end(fields, behind) {
                return None;
            }
            match constant(fields, inside) {
                Some(value) => Some(GlobalField {
                    name,
                    of,
                    mutable,
                    value,
                }),
                None => None,
            }
        }
        None => None,
    }
}

/// The type of a global that can be set, by the keyword of its group.
fn mutable_type(fields: &Fields<'_>, keyword: &[u8], inside: Place) -> Option<ValType>
    ensures { result ≡ mutable_type keyword.now (at_place fields.now inside) }
{
    if keyword == b"mut".as_slice() {
        one_type(fields, inside)
    } else {
        None
    }
}

/// A field for a global, behind its name.
fn global_behind<'a>(
    fields: &Fields<'a>,
    at: Place,
    name: Option<&'a [u8]>,
) -> Option<GlobalField<'a>>
    ensures { option_map seen_global_field result ≡ global_behind (seen_name name.entry) (at_place fields.now at) }
{
    match fields.item(at) {
        Some(met) => match met.item {
            Item::Word(word) => match type_of(word) {
                Some(of) => global_of(fields, met.behind, name, false, of),
                None => None,
            },
            Item::Text(_) => None,
            Item::Group(_, start) => match fields.item(start) {
                Some(head) => match head.item {
                    Item::Word(keyword) => match mutable_type(fields, keyword, head.behind) {
                        Some(of) => global_of(fields, met.behind, name, true, of),
                        None => None,
                    },
                    Item::Text(_) => None,
                    Item::Group(_, _) => None,
                },
                None => None,
            },
        },
        None => None,
    }
}

/// A field for a global, behind `global` (6.6.8).
pub(crate) fn global_field<'a>(fields: &Fields<'a>, at: Place) -> Option<GlobalField<'a>>
    ensures { option_map seen_global_field result ≡ global_field (at_place fields.now at) }
{
    let (name, at) = identifier_at(fields, at);
    global_behind(fields, at, name)
}

/// An export of a name, by its group.
fn export_of<'a>(
    fields: &Fields<'a>,
    alloc: Global,
    name: Quoted<'_>,
    group: KeyedGroup<'a>,
) -> Result<ExportField<'a>, Refusal>
    ensures { Reads seen_export_field result (export_of (quoted_bytes name.entry) (seen_keyed fields.now group.entry)) }
{
    if !is_end(fields, group.behind) {
        return Err(Refusal::Form);
    }
    let name = name_of(alloc, name)?;
    match one_reference(fields, group.inside) {
        Some(x) => match exported(group.keyword, x) {
            Some(of) => Ok(ExportField { name, of }),
            None => Err(Refusal::Form),
        },
        None => Err(Refusal::Form),
    }
}

/// A field for an export, behind `export` (6.6.9).
pub(crate) fn export_field<'a>(
    fields: &Fields<'a>,
    alloc: Global,
    at: Place,
) -> Result<ExportField<'a>, Refusal>
    ensures { Reads seen_export_field result (export_field (at_place fields.now at)) }
{
    match text_at(fields, at) {
        Some((name, behind)) => match keyed_at(fields, behind) {
            Some(group) => export_of(fields, alloc, name, group),
            None => Err(Refusal::Form),
        },
        None => Err(Refusal::Form),
    }
}

/// What is imported, by its keyword and what is behind that.
fn import_of<'a>(
    fields: &Fields<'a>,
    alloc: Global,
    keyword: &[u8],
    inside: Place,
) -> Result<ImportOf<'a>, Refusal>
    ensures { (from field : List ℕ) → Reads (seen_import from field) result (import_of keyword.now (identifier_front (at_place fields.now inside)) from field) }
{
    let (name, at) = identifier_at(fields, inside);
    if keyword == b"func".as_slice() {
        let (of, behind) = use_at(fields, alloc, at)?;
        if is_end(fields, behind) {
            return Ok(ImportOf::Function(name, of));
        }
        return Err(Refusal::Form);
    }
    if keyword == b"memory".as_slice() {
        return match memory_limits(fields, at) {
            Some(of) => Ok(ImportOf::Memory(name, of)),
            None => Err(Refusal::Form),
        };
    }
    Err(Refusal::Form)
}

/// An import of two names, by its group.
fn imported<'a>(
    fields: &Fields<'a>,
    alloc: Global,
    from: Quoted<'_>,
    field: Quoted<'_>,
    group: KeyedGroup<'a>,
) -> Result<ImportField<'a>, Refusal>
    ensures { Reads seen_import_field result (imported (quoted_bytes from.entry) (quoted_bytes field.entry) (seen_keyed fields.now group.entry)) }
{
    if !is_end(fields, group.behind) {
        return Err(Refusal::Form);
    }
    let from = name_of(alloc, from)?;
    let field = name_of(alloc, field)?;
    let of = import_of(fields, alloc, group.keyword, group.inside)?;
    Ok(ImportField { from, field, of })
}

/// A field for an import, behind `import` (6.6.4).
pub(crate) fn import_field<'a>(
    fields: &Fields<'a>,
    alloc: Global,
    at: Place,
) -> Result<ImportField<'a>, Refusal>
    ensures { Reads seen_import_field result (import_field (at_place fields.now at)) }
{
    match text_at(fields, at) {
        Some((from, behind)) => match text_at(fields, behind) {
            Some((field, behind)) => match keyed_at(fields, behind) {
                Some(group) => imported(fields, alloc, from, field, group),
                None => Err(Refusal::Form),
            },
            None => Err(Refusal::Form),
        },
        None => Err(Refusal::Form),
    }
}

/// Indices and identifiers alone.
fn references_at<'a>(
    fields: &Fields<'a>,
    alloc: Global,
    at: Place,
) -> Result<Vec<Reference<'a>>, Refusal>
    ensures { Reads (λ xs. map seen_reference xs.items) result (references_of (at_place fields.now at)) }
{
    let mut references = Vec::new(alloc);
    let mut at = at;
    while let Some(met) = fields.item(at) {
        match met.item {
            Item::Word(word) => match reference_of(word) {
                Some(x) => references.push(x)?,
                None => return Err(Refusal::Form),
            },
            Item::Text(_) => return Err(Refusal::Form),
            Item::Group(_, _) => return Err(Refusal::Form),
        }
        at = met.behind;
    }
    Ok(references)
}

/// A field for an element segment, behind `elem` (6.6.11).
pub(crate) fn element_field<'a>(
    fields: &Fields<'a>,
    alloc: Global,
    at: Place,
) -> Result<ElementField<'a>, Refusal>
    ensures { Reads seen_element_field result (element_field (at_place fields.now at)) }
{
    match group_at(fields, at) {
        Some((inside, behind)) => match offset(fields, inside) {
            Some(offset) => {
                let functions = references_at(fields, alloc, behind)?;
                Ok(ElementField { offset, functions })
            }
            None => Err(Refusal::Form),
        },
        None => Err(Refusal::Form),
    }
}

/// The bytes of strings alone, one behind another.
fn texts_at(fields: &Fields<'_>, alloc: Global, at: Place) -> Result<Bytes, Refusal>
    ensures { Reads (λ bytes. bytes) result (texts_of (at_place fields.now at)) }
{
    let mut bytes = Vec::new(alloc);
    let mut at = at;
    while let Some(met) = fields.item(at) {
        match met.item {
            Item::Word(_) => return Err(Refusal::Form),
            Item::Text(text) => text.append_to(&mut bytes)?,
            Item::Group(_, _) => return Err(Refusal::Form),
        }
        at = met.behind;
    }
    Ok(Bytes::from_vec(bytes))
}

/// A field for a data segment, behind `data` (6.6.12).
pub(crate) fn data_field(
    fields: &Fields<'_>,
    alloc: Global,
    at: Place,
) -> Result<DataField, Refusal>
    ensures { Reads seen_data_field result (data_field (at_place fields.now at)) }
{
    match group_at(fields, at) {
        Some((inside, behind)) => match offset(fields, inside) {
            Some(offset) => {
                let bytes = texts_at(fields, alloc, behind)?;
                Ok(DataField { offset, bytes })
            }
            None => Err(Refusal::Form),
        },
        None => Err(Refusal::Form),
    }
}
