// Limits: WebAssembly Core 1.0, section 6.4.4.
ghost use Rattle.std.specs.Prelude.{◌≡◌};
ghost use Rattle.wat_forms.specs.FieldForms.{limits, memory_shared, memory_max, memory_limits, of_functions, table_max, table_limits};
ghost use Rattle.wat_syntax.specs.Seen.{at_place};

use wasm_ast::Limits;
use wat_fields::{Fields, Item, Place};
use wat_words::u32_of;

/// Limits of these parts.
fn limits(min: u32, max: Option<u32>, shared: bool) -> Limits
    ensures { result ≡ limits min max shared }
{
    Limits { min, max, shared }
}

/// Behind `n m`: `shared` or nothing.
fn memory_shared(fields: &Fields<'_>, at: Place, min: u32, max: u32) -> Option<Limits>
    ensures { result ≡ memory_shared min max (at_place fields.now at) }
{
    match fields.item(at) {
        Some(met) => match met.item {
            Item::Word(word) => match fields.item(met.behind) {
                Some(_) => None,
                None => {
                    if word == b"shared".as_slice() {
                        Some(limits(min, Some(max), true))
                    } else {
                        None
                    }
                }
            },
            Item::Text(_) => None,
            Item::Group(_, _) => None,
        },
        None => Some(limits(min, Some(max), false)),
    }
}

/// Behind `n`: `m shared?` or nothing.
fn memory_max(fields: &Fields<'_>, at: Place, min: u32) -> Option<Limits>
    ensures { result ≡ memory_max min (at_place fields.now at) }
{
    match fields.item(at) {
        Some(met) => match met.item {
            Item::Word(word) => match u32_of(word) {
                Some(max) => memory_shared(fields, met.behind, min, max),
                None => None,
            },
            Item::Text(_) => None,
            Item::Group(_, _) => None,
        },
        None => Some(limits(min, None, false)),
    }
}

/// `n m? shared?`, and nothing more; `shared` stands only behind an `m`.
pub(crate) fn memory_limits(fields: &Fields<'_>, at: Place) -> Option<Limits>
    ensures { result ≡ memory_limits (at_place fields.now at) }
{
    match fields.item(at) {
        Some(met) => match met.item {
            Item::Word(word) => match u32_of(word) {
                Some(min) => memory_max(fields, met.behind, min),
                None => None,
            },
            Item::Text(_) => None,
            Item::Group(_, _) => None,
        },
        None => None,
    }
}

/// `funcref` alone behind limits.
fn of_functions(fields: &Fields<'_>, at: Place, of: Limits) -> Option<Limits>
    ensures { result ≡ of_functions of (at_place fields.now at) }
{
    match fields.item(at) {
        Some(met) => match met.item {
            Item::Word(word) => match fields.item(met.behind) {
                Some(_) => None,
                None => {
                    if word == b"funcref".as_slice() {
                        Some(of)
                    } else {
                        None
                    }
                }
            },
            Item::Text(_) => None,
            Item::Group(_, _) => None,
        },
        None => None,
    }
}

/// Behind `n`: `m funcref` or `funcref`.
fn table_max(fields: &Fields<'_>, at: Place, min: u32) -> Option<Limits>
    ensures { result ≡ table_max min (at_place fields.now at) }
{
    match fields.item(at) {
        Some(met) => match met.item {
            Item::Word(word) => match fields.item(met.behind) {
                Some(_) => match u32_of(word) {
                    Some(max) => of_functions(fields, met.behind, limits(min, Some(max), false)),
                    None => None,
                },
                None => of_functions(fields, at, limits(min, None, false)),
            },
            Item::Text(_) => None,
            Item::Group(_, _) => None,
        },
        None => None,
    }
}

/// `n m? funcref`, and nothing more.
pub(crate) fn table_limits(fields: &Fields<'_>, at: Place) -> Option<Limits>
    ensures { result ≡ table_limits (at_place fields.now at) }
{
    match fields.item(at) {
        Some(met) => match met.item {
            Item::Word(word) => match u32_of(word) {
                Some(min) => table_max(fields, met.behind, min),
                None => None,
            },
            Item::Text(_) => None,
            Item::Group(_, _) => None,
        },
        None => None,
    }
}
