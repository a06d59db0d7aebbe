// What stands in front of other items: WebAssembly Core 1.0, sections 6.3 to 6.6.
ghost use Rattle.std.specs.Prelude.{◌≡◌, ◌<◌, ◌≤◌, length, IfSome};
ghost use Rattle.std.specs.Option.{option_map};
ghost use Rattle.std.specs.Str.{is_utf8};
ghost use Rattle.wat_tokens.specs.Quoted.{quoted_bytes};
ghost use Rattle.wat_syntax.specs.Immediates.{group_of, identifier_front, result_front, named_front, name_of, one_name};
ghost use Rattle.wat_syntax.specs.Seen.{at_place, seen_reference, seen_name, seen_group, seen_front, Reads};

use super::groups::{is_end, one_reference, one_type};
use super::parsed::{Reference, Refusal};
use std::alloc::Global;
use std::str;
use wasm_ast::ValType;
use wat_fields::{Fields, Item, Place};
use wat_tokens::Quoted;
use wat_words::is_identifier;
use wx_types::Bytes;

/// The group at a place, if it begins with this keyword: the place behind the keyword, and that behind the group.
pub(crate) fn group_of(fields: &Fields<'_>, at: Place, of: &[u8]) -> Option<(Place, Place)>
    ensures group { option_map (seen_group fields.now) result ≡ group_of of.now (at_place fields.now at) }
    ensures forward { IfSome result (λ p. (at.index < p.1.index) × (p.1.index ≤ length fields.now)) }
{
    match fields.item(at) {
        Some(met) => match met.item {
            Item::Word(_) => None,
            Item::Text(_) => None,
            Item::Group(_, start) => match fields.item(start) {
                Some(head) => match head.item {
                    Item::Word(keyword) => {
                        if keyword == of {
                            Some((head.behind, met.behind))
                        } else {
                            None
                        }
                    }
                    Item::Text(_) => None,
                    Item::Group(_, _) => None,
                },
                None => None,
            },
        },
        None => None,
    }
}

/// `$id?`, and the place behind it.
pub fn identifier_at<'a>(fields: &Fields<'a>, at: Place) -> (Option<&'a [u8]>, Place)
    ensures { seen_front seen_name fields.now result ≡ identifier_front (at_place fields.now at) }
{
    match fields.item(at) {
        Some(met) => match met.item {
            Item::Word(word) => {
                if is_identifier(word) {
                    (Some(word), met.behind)
                } else {
                    (None, at)
                }
            }
            Item::Text(_) => (None, at),
            Item::Group(_, _) => (None, at),
        },
        None => (None, at),
    }
}

/// `(result t)?`, and the place behind it.
pub fn result_at(fields: &Fields<'_>, at: Place) -> Result<(Option<ValType>, Place), Refusal>
    ensures { Reads (seen_front (λ of. of) fields.now) result (result_front (at_place fields.now at)) }
{
    match group_of(fields, at, b"result".as_slice()) {
        Some((inside, behind)) => match one_type(fields, inside) {
            Some(of) => Ok((Some(of), behind)),
            None => Err(Refusal::Form),
        },
        None => Ok((None, at)),
    }
}

/// `(type x)?`, and the place behind it.
pub(crate) fn named_at<'a>(
    fields: &Fields<'a>,
    at: Place,
) -> Result<(Option<Reference<'a>>, Place), Refusal>
    ensures { Reads (seen_front (option_map seen_reference) fields.now) result (named_front (at_place fields.now at)) }
{
    match group_of(fields, at, b"type".as_slice()) {
        Some((inside, behind)) => match one_reference(fields, inside) {
            Some(x) => Ok((Some(x), behind)),
            None => Err(Refusal::Form),
        },
        None => Ok((None, at)),
    }
}

/// Whether bytes are UTF-8.
fn is_utf8(bytes: &[u8]) -> bool
    ensures { result ≡ is_utf8 bytes.now }
{
    match str::from_utf8(bytes) {
        Ok(_) => true,
        Err(_) => false,
    }
}

/// A name of an import or an export (6.3.4).
pub fn name_of(alloc: Global, text: Quoted<'_>) -> Result<Bytes, Refusal>
    ensures { Reads (λ name. name) result (name_of (quoted_bytes text.entry)) }
{
    let mut bytes = Vec::new(alloc);
    text.append_to(&mut bytes)?;
    if is_utf8(bytes.as_slice()) {
        Ok(Bytes::from_vec(bytes))
    } else {
        Err(Refusal::Form)
    }
}

/// A name, and nothing more.
pub(crate) fn one_name(fields: &Fields<'_>, alloc: Global, at: Place) -> Result<Bytes, Refusal>
    ensures { Reads (λ name. name) result (one_name (at_place fields.now at)) }
{
    match fields.item(at) {
        Some(met) => match met.item {
            Item::Word(_) => Err(Refusal::Form),
            Item::Text(text) => {
                if is_end(fields, met.behind) {
                    name_of(alloc, text)
                } else {
                    Err(Refusal::Form)
                }
            }
            Item::Group(_, _) => Err(Refusal::Form),
        },
        None => Err(Refusal::Form),
    }
}
