// Strings in a text and the bytes that they stand for: WebAssembly Core 1.0, section 6.3.3.
ghost use Rattle.std.specs.Prelude.{◌≡◌, ◌<◌, ◌^◌, ◌++◌, encode_utf8, length, true, OnOk};
ghost use Rattle.std.specs.Option.{is_some};
ghost use Rattle.wat_tokens.specs.Elements.{bytes_of};
ghost use Rattle.wat_tokens.specs.Strings.{string};

use crate::elements::Value;
use crate::strings::element_at;
use std::alloc::AllocError;

/// Puts what an element stands for behind other bytes. `AllocError` is want of memory and nothing else.
fn append_value(value: Value, out: &mut Vec<u8>) -> Result<(), AllocError>
    ensures { OnOk result (out.new.items ≡ out.old.items ++ bytes_of value) }
{
    match value {
        Value::Byte(byte) => {
            out.push(byte)?;
            Ok(())
        }
        Value::Character(character) => {
            let mut buffer = [0u8; 4];
            let text = character.encode_utf8(&mut buffer);
            out.extend_from_slice(text.as_bytes())
        }
    }
}

/// A string in a text.
#[derive(Clone, Copy)]
pub struct Quoted<'a> {
    /// The text behind the opening quote.
    rest: &'a [u8],
    ghost closed: { is_some (string rest.now) ≡ true },
    ghost short: { length rest.now < 2 ^ 31 },
}

impl<'a> Quoted<'a> {
    ghost use Rattle.wat_tokens.specs.Quoted.{quoted_bytes};

    /// The string whose opening quote is in front of this text.
    pub(crate) fn new(rest: &'a [u8]) -> Quoted<'a>
        requires closed { is_some (string rest.now) ≡ true }
        requires short { length rest.now < 2 ^ 31 }
        ensures { result.rest.now ≡ rest.now }
    {
        Quoted { rest }
    }

    /// Puts the bytes that the string stands for behind other bytes. They may be any bytes. `AllocError` is want of memory and nothing
    /// else; what is behind the other bytes isn't said then.
    pub fn append_to(&self, out: &mut Vec<u8>) -> Result<(), AllocError>
        ensures { OnOk result (out.new.items ≡ out.old.items ++ quoted_bytes self.now) }
    {
        let text = self.rest;
        let mut at = 0usize;
        while at < text.len() && text[at] != b'"' {
            let Some(element) = element_at(text, at) else {
                return Ok(());
            };
            append_value(element.value, out)?;
            at += element.length;
        }
        Ok(())
    }
}
