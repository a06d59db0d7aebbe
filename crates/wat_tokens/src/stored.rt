// Tokens as they are stored, by the places of their bytes in the text.
ghost use Rattle.std.specs.Prelude.{◌≡◌, ◌≤◌, ◌<◌, ◌+◌, ◌++◌, ◌^◌, ℕ, List, length, drop, map, IfSome, OnOk};
ghost use Rattle.std.specs.List.{AllByRecursion};
ghost use Rattle.std.specs.Option.{option_map, option_to_list};
ghost use Rattle.wat_tokens.specs.Pieces.{IsClosed, token_of};
ghost use Rattle.wat_tokens.specs.Stored.{Lies, token_at};

use crate::pieces::{Kind, Piece};
use std::alloc::AllocError;

/// A token.
#[derive(Clone, Copy)]
pub(crate) enum Stored {
    /// A parenthesis that opens, in the line of this number.
    Open(u32),
    /// A parenthesis that closes.
    Close,
    /// A word: its place, and how many bytes it has.
    Word(u32, u32),
    /// A string: the place behind its opening quote.
    Text(u32),
}

/// The token of a piece at a place, if it is one.
fn stored_at(start: usize, piece: Piece) -> Option<Stored>
    requires { start + piece.length < 2 ^ 31 }
    ensures value { (text : List ℕ) → option_map (token_at text) result ≡ token_of (drop start text) piece.length piece.kind }
    ensures lies { (text : List ℕ) → IsClosed (drop start text) piece.kind → 1 ≤ piece.length → start + piece.length ≤ length text → IfSome result (Lies text) }
{
    match piece.kind {
        Kind::Blank => None,
        Kind::Open(line) => Some(Stored::Open(line)),
        Kind::Close => Some(Stored::Close),
        Kind::Word => Some(Stored::Word(start as u32, piece.length as u32)),
        Kind::Text => Some(Stored::Text((start + 1) as u32)),
    }
}

/// Puts the token of a piece at a place, if it is one, behind the others. `AllocError` is want of memory and nothing else.
pub(crate) fn store(items: &mut Vec<Stored>, start: usize, piece: Piece) -> Result<(), AllocError>
    requires { start + piece.length < 2 ^ 31 }
    ensures value { OnOk result ((text : List ℕ) → map (token_at text) items.new.items ≡ map (token_at text) items.old.items ++ option_to_list (token_of (drop start text) piece.length piece.kind)) }
    ensures lie { OnOk result ((text : List ℕ) → AllByRecursion (Lies text) items.old.items → IsClosed (drop start text) piece.kind → 1 ≤ piece.length → start + piece.length ≤ length text → AllByRecursion (Lies text) items.new.items) }
    ensures few { length items.new.items ≤ length items.old.items + 1 }
{
    match stored_at(start, piece) {
        Some(token) => {
            items.push(token)?;
            Ok(())
        }
        None => Ok(()),
    }
}
