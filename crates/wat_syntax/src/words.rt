// What words behind a keyword say: WebAssembly Core 1.0, sections 6.3 to 6.5.
ghost use Rattle.std.specs.Prelude.{◌≡◌};
ghost use Rattle.std.specs.Option.{option_map};
ghost use Rattle.wat_syntax.specs.Immediates.{reference_of, type_of};
ghost use Rattle.wat_syntax.specs.Seen.{seen_reference};

use super::parsed::Reference;
use wasm_ast::ValType;
use wat_words::{is_identifier, u32_of};

/// A value type (6.4.1). Those of floating-point numbers are unknown.
pub fn type_of(word: &[u8]) -> Option<ValType>
    ensures { result ≡ type_of word.now }
{
    if word == b"i32".as_slice() {
        return Some(ValType::I32);
    }
    if word == b"i64".as_slice() {
        return Some(ValType::I64);
    }
    None
}

/// An index or an identifier (6.3.5).
pub fn reference_of(word: &[u8]) -> Option<Reference<'_>>
    ensures { option_map seen_reference result ≡ reference_of word.now }
{
    if is_identifier(word) {
        return Some(Reference::Named(word));
    }
    match u32_of(word) {
        Some(index) => Some(Reference::Number(index)),
        None => None,
    }
}
