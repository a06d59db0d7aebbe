// Pieces of a text, which are tokens, spaces and comments: WebAssembly Core 1.0, sections 6.2 and 6.3.
ghost use Rattle.std.specs.Prelude.{◌≡◌, ◌≤◌, ◌<◌, ◌+◌, ◌==◌, ◌^◌, if◌then◌else◌, IsTrue, count_by, length, take, drop, slice_index, Some, None};
ghost use Rattle.std.specs.List.{prefix_len};
ghost use Rattle.std.specs.Option.{option_map};
ghost use Rattle.wat_words.specs.Words.{is_word_byte};
ghost use Rattle.wat_tokens.specs.Strings.{begins_with, string};
ghost use Rattle.wat_tokens.specs.Tokens as token;
ghost use Rattle.wat_tokens.specs.Pieces.{IsClosed, Stands, seen, token_of};

use crate::comments::{comment_length, length_before};
use crate::strings::string_length;
use wat_words::is_word_byte;

/// What a piece of a text is.
#[derive(Clone, Copy)]
pub(crate) enum Kind {
    /// A space or a comment.
    Blank,
    /// A parenthesis that opens, in the line of this number.
    Open(u32),
    /// A parenthesis that closes.
    Close,
    /// A word.
    Word,
    /// A string.
    Text,
}

/// A piece at the front of a text.
#[derive(Clone, Copy)]
pub(crate) struct Piece {
    /// How many bytes it has.
    pub(crate) length: usize,
    pub(crate) kind: Kind,
}

/// A piece of so many bytes, where these are UTF-8.
fn of_utf8(text: &[u8], count: usize, kind: Kind) -> Option<Piece>
    requires low { 1 ≤ count }
    requires high { count ≤ length text.now }
    requires closed { IsClosed text.now kind }
    ensures value { option_map (seen text.now) result ≡ token.of_utf8 text.now (token_of text.now count kind) count }
    ensures bound { Stands text.now result }
{
    match str::from_utf8(&text[..count]) {
        Ok(_) => Some(Piece {
            length: count,
            kind,
        }),
        Err(_) => None,
    }
}

/// A block comment, which begins with `(;`.
fn block_comment(text: &[u8]) -> Option<Piece>
    requires low { 2 ≤ length text.now }
    requires high { length text.now < 2 ^ 31 }
    ensures value { option_map (seen text.now) result ≡ token.block_comment text.now }
    ensures bound { Stands text.now result }
{
    match comment_length(&text[2..]) {
        Some(count) => of_utf8(text, count + 2, Kind::Blank),
        None => None,
    }
}

/// A line comment, which begins with `;;`.
fn line_comment(text: &[u8]) -> Option<Piece>
    requires low { 2 ≤ length text.now }
    requires high { length text.now < 2 ^ 31 }
    ensures value { option_map (seen text.now) result ≡ token.line_comment text.now }
    ensures bound { Stands text.now result }
{
    let count = length_before(&text[2..], b'\n');
    of_utf8(text, count + 2, Kind::Blank)
}

/// A string, which begins with a quote.
fn string(text: &[u8]) -> Option<Piece>
    requires low { 1 ≤ length text.now }
    requires high { length text.now < 2 ^ 31 }
    ensures value { option_map (seen text.now) result ≡ token.quoted text.now (string (drop 1 text.now)) }
    ensures bound { Stands text.now result }
{
    match string_length(&text[1..]) {
        Some(count) => of_utf8(text, count + 1, Kind::Text),
        None => None,
    }
}

/// How many identifier characters a text begins with.
fn word_length(text: &[u8]) -> usize
    ensures value { result ≡ prefix_len is_word_byte text.now }
    ensures bound { result ≤ length text.now }
{
    for (i, byte) in text.iter().enumerate() {
        if !is_word_byte(*byte) {
            return i;
        }
    }
    text.len()
}

/// A word, where the text, which isn't empty, begins with an identifier character.
fn word(text: &[u8]) -> Option<Piece>
    requires { 1 ≤ length text.now }
    ensures value { option_map (seen text.now) result ≡ (if is_word_byte (slice_index text.now 0) then token.word (slice_index text.now 0) (drop 1 text.now) else None) }
    ensures bound { Stands text.now result }
{
    if is_word_byte(text[0]) {
        Some(Piece {
            length: word_length(&text[1..]) + 1,
            kind: Kind::Word,
        })
    } else {
        None
    }
}

/// Whether a text begins with this byte.
fn begins_with(byte: u8, text: &[u8]) -> bool
    ensures value { result ≡ begins_with byte text.now }
    ensures some { IsTrue result → 1 ≤ length text.now }
{
    match text {
        [first, ..] => *first == byte,
        [] => false,
    }
}

/// A piece of one byte.
fn single(kind: Kind) -> Option<Piece>
    ensures { result ≡ Some (record { length = 1; kind = kind }) }
{
    Some(Piece { length: 1, kind })
}

/// The piece at the front of a text that lies in the line of this number, as long as it can be. `None` where there is none, also
/// where the text is empty.
fn first(line: u32, text: &[u8]) -> Option<Piece>
    requires { length text.now < 2 ^ 31 }
    ensures value { option_map (seen text.now) result ≡ token.first line text.now }
    ensures bound { Stands text.now result }
{
    match text {
        [] => None,
        [byte, rest @ ..] => match *byte {
            b' ' | b'\t' | b'\n' | b'\r' => single(Kind::Blank),
            b'(' => {
                if begins_with(b';', rest) {
                    block_comment(text)
                } else {
                    single(Kind::Open(line))
                }
            }
            b')' => single(Kind::Close),
            b';' => {
                if begins_with(b';', rest) {
                    line_comment(text)
                } else {
                    None
                }
            }
            b'"' => string(text),
            _ => word(text),
        },
    }
}

/// The piece at a place of a text, which lies in the line of this number.
pub(crate) fn piece_at(line: u32, text: &[u8], start: usize) -> Option<Piece>
    requires low { start ≤ length text.now }
    requires high { length text.now < 2 ^ 31 }
    ensures value { option_map (seen (drop start text.now)) result ≡ token.first line (drop start text.now) }
    ensures bound { Stands (drop start text.now) result }
{
    first(line, &text[start..])
}

/// How many lines end in these bytes.
fn lines_in(bytes: &[u8]) -> usize
    ensures value { result ≡ count_by (λ byte. byte == 10) bytes.now }
    ensures bound { result ≤ length bytes.now }
{
    bytes.iter().filter(|byte| **byte == b'\n').count()
}

/// How many lines end in so many bytes at a place of a text.
pub(crate) fn lines_at(text: &[u8], start: usize, count: usize) -> usize
    requires { start + count ≤ length text.now }
    ensures value { result ≡ count_by (λ byte. byte == 10) (take count (drop start text.now)) }
    ensures bound { result ≤ count }
{
    lines_in(&text[start..start + count])
}
