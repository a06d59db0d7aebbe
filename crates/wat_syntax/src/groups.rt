// What stands at a place: WebAssembly Core 1.0, sections 6.3 to 6.6.
ghost use Rattle.std.specs.Prelude.{◌≡◌};
ghost use Rattle.std.specs.Option.{option_map};
ghost use Rattle.wat_syntax.specs.Immediates.{is_empty, one_word, one_type, one_reference, word_front, text_front, group_front, keyed};
ghost use Rattle.wat_syntax.specs.Seen.{at_place, seen_reference, seen_word, seen_text, seen_group, seen_keyed};

use super::parsed::Reference;
use super::words::{reference_of, type_of};
use wasm_ast::ValType;
use wat_fields::{Fields, Item, Place};
use wat_tokens::Quoted;

/// A group that begins with a word: that word, the place behind it, and the place behind the group.
#[derive(Clone, Copy)]
pub struct KeyedGroup<'a> {
    pub keyword: &'a [u8],
    pub inside: Place,
    pub behind: Place,
}

/// The word at a place, and the place behind it.
pub fn word_at<'a>(fields: &Fields<'a>, at: Place) -> Option<(&'a [u8], Place)>
    ensures { option_map (seen_word fields.now) result ≡ word_front (at_place fields.now at) }
{
    match fields.item(at) {
        Some(met) => match met.item {
            Item::Word(word) => Some((word, met.behind)),
            Item::Text(_) => None,
            Item::Group(_, _) => None,
        },
        None => None,
    }
}

/// The string at a place, and the place behind it.
pub fn text_at<'a>(fields: &Fields<'a>, at: Place) -> Option<(Quoted<'a>, Place)>
    ensures { option_map (seen_text fields.now) result ≡ text_front (at_place fields.now at) }
{
    match fields.item(at) {
        Some(met) => match met.item {
            Item::Word(_) => None,
            Item::Text(text) => Some((text, met.behind)),
            Item::Group(_, _) => None,
        },
        None => None,
    }
}

/// The start of the group at a place, and the place behind it.
pub fn group_at(fields: &Fields<'_>, at: Place) -> Option<(Place, Place)>
    ensures { option_map (seen_group fields.now) result ≡ group_front (at_place fields.now at) }
{
    match fields.item(at) {
        Some(met) => match met.item {
            Item::Word(_) => None,
            Item::Text(_) => None,
            Item::Group(_, inside) => Some((inside, met.behind)),
        },
        None => None,
    }
}

/// The group at a place, if it begins with a word.
pub fn keyed_at<'a>(fields: &Fields<'a>, at: Place) -> Option<KeyedGroup<'a>>
    ensures { option_map (seen_keyed fields.now) result ≡ keyed (at_place fields.now at) }
{
    match fields.item(at) {
        Some(met) => match met.item {
            Item::Word(_) => None,
            Item::Text(_) => None,
            Item::Group(_, start) => match fields.item(start) {
                Some(head) => match head.item {
                    Item::Word(keyword) => Some(KeyedGroup {
                        keyword,
                        inside: head.behind,
                        behind: met.behind,
                    }),
                    Item::Text(_) => None,
                    Item::Group(_, _) => None,
                },
                None => None,
            },
        },
        None => None,
    }
}

/// Whether nothing is left at a place.
pub fn is_end(fields: &Fields<'_>, at: Place) -> bool
    ensures { result ≡ is_empty (at_place fields.now at) }
{
    match fields.item(at) {
        Some(met) => match met.item {
            Item::Word(_) => false,
            Item::Text(_) => false,
            Item::Group(_, _) => false,
        },
        None => true,
    }
}

/// The only item at a place, if it is a word.
pub fn one_word<'a>(fields: &Fields<'a>, at: Place) -> Option<&'a [u8]>
    ensures { option_map (λ w. w.now) result ≡ one_word (at_place fields.now at) }
{
    match fields.item(at) {
        Some(met) => match met.item {
            Item::Word(word) => match fields.item(met.behind) {
                Some(_) => None,
                None => Some(word),
            },
            Item::Text(_) => None,
            Item::Group(_, _) => None,
        },
        None => None,
    }
}

/// `t`, and nothing more.
pub fn one_type(fields: &Fields<'_>, at: Place) -> Option<ValType>
    ensures { result ≡ one_type (at_place fields.now at) }
{
    match one_word(fields, at) {
        Some(word) => type_of(word),
        None => None,
    }
}

/// An index or an identifier, and nothing more.
pub fn one_reference<'a>(fields: &Fields<'a>, at: Place) -> Option<Reference<'a>>
    ensures { option_map seen_reference result ≡ one_reference (at_place fields.now at) }
{
    match one_word(fields, at) {
        Some(word) => reference_of(word),
        None => None,
    }
}
