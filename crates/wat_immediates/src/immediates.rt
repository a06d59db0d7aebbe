// The immediates of instructions: WebAssembly Core 1.0, section 6.5.
ghost use Rattle.std.specs.Prelude.{◌≡◌, ◌<◌, ◌≤◌, length, map, IfSome};
ghost use Rattle.std.specs.Option.{option_map, option_and_then};
ghost use Rattle.wat_syntax.specs.Immediates.{one_word, one_reference, identifier_front, result_front, use_front, whole, front};
ghost use Rattle.wat_immediates.specs.InstructionForms.{is_immediate};
ghost use Rattle.wat_immediates.specs.Rows.{immediates, past, MeetsImmediate, ReadsFront};
ghost use Rattle.wat_syntax.specs.Seen.{at_place, seen_name, seen_reference, seen_use};

use std::alloc::Global;
use wasm_ast::ValType;
use wat_fields::{Fields, Item, Met, Place};
use wat_names::instruction_named;
use wat_syntax::{Reference, Refusal, TypeUse, reference_of, result_at, use_at};
use wat_words::is_identifier;

/// Whether groups that begin with this keyword are immediates.
pub fn is_immediate(keyword: &[u8]) -> bool
    ensures { result ≡ is_immediate keyword.now }
{
    keyword == b"type".as_slice()
        || keyword == b"param".as_slice()
        || keyword == b"result".as_slice()
}

/// The item at a place if it begins no instruction, with the place behind it.
pub(crate) fn immediate_at<'a>(fields: &Fields<'a>, at: Place) -> Option<Met<'a>>
    ensures meets { MeetsImmediate fields.now (at_place fields.now at) result }
    ensures forward { IfSome result (λ met. (at.index < met.behind.index) × (met.behind.index ≤ length fields.now)) }
{
    match fields.item(at) {
        Some(met) => match met.item {
            Item::Word(word) => match instruction_named(word) {
                Some(_) => None,
                None => Some(met),
            },
            Item::Text(_) => None,
            Item::Group(_, start) => match fields.item(start) {
                Some(head) => match head.item {
                    Item::Word(keyword) => {
                        if is_immediate(keyword) {
                            Some(met)
                        } else {
                            None
                        }
                    }
                    Item::Text(_) => None,
                    Item::Group(_, _) => None,
                },
                None => None,
            },
        },
        None => None,
    }
}

/// The only immediate at a place, if it is a word, and the place behind it.
pub(crate) fn one_immediate<'a>(fields: &Fields<'a>, at: Place) -> Option<(&'a [u8], Place)>
    ensures word { option_map (λ p. p.0.now) result ≡ one_word (immediates (at_place fields.now at)) }
    ensures behind { IfSome result (λ p. at_place fields.now p.1 ≡ past (at_place fields.now at)) }
{
    match immediate_at(fields, at) {
        Some(met) => match met.item {
            Item::Word(word) => match immediate_at(fields, met.behind) {
                Some(_) => None,
                None => Some((word, met.behind)),
            },
            Item::Text(_) => None,
            Item::Group(_, _) => None,
        },
        None => None,
    }
}

/// The only immediate at a place, if it is an index or an identifier, and the place behind it.
pub(crate) fn one_index<'a>(fields: &Fields<'a>, at: Place) -> Option<(Reference<'a>, Place)>
    ensures index { option_map (λ p. seen_reference p.0) result ≡ one_reference (immediates (at_place fields.now at)) }
    ensures behind { IfSome result (λ p. at_place fields.now p.1 ≡ past (at_place fields.now at)) }
{
    match one_immediate(fields, at) {
        Some((word, behind)) => match reference_of(word) {
            Some(x) => Some((x, behind)),
            None => None,
        },
        None => None,
    }
}

/// `$id?` in front of immediates, and the place behind it.
pub(crate) fn label_at<'a>(fields: &Fields<'a>, at: Place) -> (Option<&'a [u8]>, Place)
    ensures label { front (seen_name result.0) (immediates (at_place fields.now result.1)) ≡ identifier_front (immediates (at_place fields.now at)) }
    ensures behind { past (at_place fields.now result.1) ≡ past (at_place fields.now at) }
{
    match immediate_at(fields, at) {
        Some(met) => match met.item {
            Item::Word(word) => {
                if is_identifier(word) {
                    (Some(word), met.behind)
                } else {
                    (None, at)
                }
            }
            Item::Text(_) => (None, at),
            Item::Group(_, _) => (None, at),
        },
        None => (None, at),
    }
}

/// `(result t)?`, and no immediate behind it.
pub(crate) fn whole_result(
    fields: &Fields<'_>,
    at: Place,
) -> Result<(Option<ValType>, Place), Refusal>
    ensures { ReadsFront (λ of. of) fields.now (at_place fields.now at) result (option_and_then whole (result_front (immediates (at_place fields.now at)))) }
{
    match result_at(fields, at) {
        Ok((of, behind)) => match immediate_at(fields, behind) {
            Some(_) => Err(Refusal::Form),
            None => Ok((of, behind)),
        },
        Err(why) => Err(why),
    }
}

/// The use of a type, and no immediate behind it.
pub(crate) fn whole_use<'a>(
    fields: &Fields<'a>,
    alloc: Global,
    at: Place,
) -> Result<(TypeUse<'a>, Place), Refusal>
    ensures { ReadsFront seen_use fields.now (at_place fields.now at) result (option_and_then whole (use_front (immediates (at_place fields.now at)))) }
{
    match use_at(fields, alloc, at) {
        Ok((of, behind)) => match immediate_at(fields, behind) {
            Some(_) => Err(Refusal::Form),
            None => Ok((of, behind)),
        },
        Err(why) => Err(why),
    }
}
