// Elements of strings: WebAssembly Core 1.0, section 6.3.3.
ghost use Rattle.std.specs.Prelude.{◌≡◌, ◌+◌, ◌<◌, ◌≤◌, ◌^◌, length, IfSome};
ghost use Rattle.std.specs.Option.{option_map};
ghost use Rattle.wat_tokens.specs.Strings.{character, element, escape, hexadecimal, letter, two_digits, unicode};
ghost use Rattle.wat_tokens.specs.Elements.{HasLength, spelled};

use crate::comments::length_before;
use crate::elements::{Element, Value};
use wat_words::{digit_value, digits};

/// An escape of one letter.
fn letter(byte: u8) -> Option<Element>
    ensures { option_map spelled result ≡ letter byte }
{
    Some(Element {
        length: 2,
        value: Value::Byte(byte),
    })
}

/// The element of so many bytes that stands for the scalar value of this number, if there is one.
fn character(length: usize, number: u64) -> Option<Element>
    ensures { option_map spelled result ≡ character length number }
{
    if number >= 0x11_0000 {
        return None;
    }
    match char::from_u32(number as u32) {
        Some(character) => Some(Element {
            length,
            value: Value::Character(character),
        }),
        None => None,
    }
}

/// `\u{..}`, from the byte behind `\u{` on.
fn unicode(text: &[u8]) -> Option<Element>
    requires { length text.now < 2 ^ 32 }
    ensures value { option_map spelled result ≡ unicode text.now }
    ensures bound { HasLength (length text.now + 3) result }
{
    let count = length_before(text, b'}');
    if count == text.len() {
        return None;
    }
    match digits(16, &text[..count]) {
        Some(number) => character(count + 4, number),
        None => None,
    }
}

/// Two hexadecimal digits behind a backslash.
fn hexadecimal(high: u8, low: u8) -> Option<Element>
    ensures { option_map spelled result ≡ hexadecimal high low }
{
    let first = digit_value(high);
    let second = digit_value(low);
    if first < 16 && second < 16 {
        Some(Element {
            length: 3,
            value: Value::Byte((16 * first + second) as u8),
        })
    } else {
        None
    }
}

fn two_digits(high: u8, rest: &[u8]) -> Option<Element>
    ensures value { option_map spelled result ≡ two_digits high rest.now }
    ensures bound { HasLength (length rest.now + 2) result }
{
    match rest {
        [low, ..] => hexadecimal(high, *low),
        [] => None,
    }
}

/// An escape, from the byte behind its backslash on.
fn escape(text: &[u8]) -> Option<Element>
    requires { length text.now < 2 ^ 32 }
    ensures value { option_map spelled result ≡ escape text.now }
    ensures bound { HasLength (length text.now + 1) result }
{
    match text {
        [] => None,
        [b't', ..] => letter(b'\t'),
        [b'n', ..] => letter(b'\n'),
        [b'r', ..] => letter(b'\r'),
        [b'"', ..] => letter(b'"'),
        [b'\'', ..] => letter(b'\''),
        [b'\\', ..] => letter(b'\\'),
        [b'u', b'{', rest @ ..] => unicode(rest),
        [b'u', ..] => None,
        [high, rest @ ..] => two_digits(*high, rest),
    }
}

/// The element of a string that begins with this byte, with the rest of the text behind it. `None` where there is none.
pub(crate) fn element(byte: u8, rest: &[u8]) -> Option<Element>
    requires { length rest.now < 2 ^ 32 }
    ensures value { option_map spelled result ≡ element byte rest.now }
    ensures bound { HasLength (length rest.now + 1) result }
{
    match byte {
        b'\\' => escape(rest),
        127 | b'"' => None,
        0..32 => None,
        _ => Some(Element {
            length: 1,
            value: Value::Byte(byte),
        }),
    }
}
