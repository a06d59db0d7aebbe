// Strings: WebAssembly Core 1.0, section 6.3.3.
ghost use Rattle.std.specs.Prelude.{◌≡◌, ◌≤◌, ◌<◌, ◌+◌, ◌^◌, length, drop, slice_index, IfSome};
ghost use Rattle.std.specs.Option.{option_map};
ghost use Rattle.wat_tokens.specs.Strings.{element, string};
ghost use Rattle.wat_tokens.specs.Elements.{spelled};

use crate::elements::Element;
use crate::escapes::element;

/// The element of a string at a place of a text. `None` where there is none.
pub(crate) fn element_at(text: &[u8], at: usize) -> Option<Element>
    requires low { at < length text.now }
    requires high { length text.now < 2 ^ 31 }
    ensures value { option_map spelled result ≡ element (slice_index text.now at) (drop (at + 1) text.now) }
    ensures bound { IfSome result (λ found. (1 ≤ found.length) × (at + found.length ≤ length text.now)) }
{
    element(text[at], &text[at + 1..])
}

/// How many bytes a text has up to the end of a string whose opening quote is in front of it, with the quote that closes it.
/// `None` where there is no such quote, or something that is no element of a string stands in front of it.
pub(crate) fn string_length(text: &[u8]) -> Option<usize>
    requires { length text.now < 2 ^ 31 }
    ensures value { result ≡ option_map (λ s. s.length) (string text.now) }
    ensures bound { IfSome result (λ count. count ≤ length text.now) }
{
    let mut at = 0usize;
    while at < text.len() {
        if text[at] == b'"' {
            return Some(at + 1);
        }
        match element_at(text, at) {
            Some(found) => at += found.length,
            None => return None,
        }
    }
    None
}
