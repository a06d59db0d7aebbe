// The tokens of a text: WebAssembly Core 1.0, sections 6.2 and 6.3.
ghost use Rattle.std.specs.Prelude.{◌≡◌, ◌≤◌, ◌<◌, ◌^◌, length};
ghost use Rattle.std.specs.List.{slice_get};
ghost use Rattle.std.specs.Option.{option_map};

use crate::pieces::{lines_at, piece_at};
use crate::quoted::Quoted;
use crate::stored::{Stored, store};
use std::alloc::Global;
use std::marker::Model;

/// A token of a text.
#[derive(Clone, Copy)]
pub enum Token<'a> {
    /// A parenthesis that opens, in the line of this number.
    Open(u32),
    /// A parenthesis that closes.
    Close,
    /// A word, which is a run of identifier characters.
    Word(&'a [u8]),
    /// A string.
    Text(Quoted<'a>),
}

/// Why a text has no tokens.
#[derive(Clone, Copy, Debug)]
pub enum TokenFault {
    /// The number, from 1, of the line of the first place at which no token, space or comment can be read.
    Wrong(u32),
    /// Want of memory.
    Memory,
}

/// The tokens of a text. Contracts see the list of them, in which a word is its bytes and a string the bytes that it stands for.
#[derive(Drop)]
pub struct Tokens<'a> {
    text: &'a [u8],
    items: Vec<Stored>,
}

impl<'a> Model for Tokens<'a> {
    ghost use Rattle.std.specs.Prelude.{List, map};
    ghost use Rattle.wat_tokens.specs.Tokens.{Token};

    ghost Value = { List Token };

    ghost use Rattle.wat_tokens.specs.Stored.{LieIn, token_at};

    ghost view = { λ t. map (token_at t.text.now) t.items.items };

    ghost invariant = { λ t. LieIn t.text.now t.items.items };
}

impl<'a> Tokens<'a> {
    ghost use Rattle.wat_tokens.specs.Tokens.{tokens};
    ghost use Rattle.wat_tokens.specs.Reads.{Reads, seen_token};

    /// The tokens of a text of at most 4,194,304 bytes. `Wrong` comes exactly where at some place no token, space or comment can be
    /// read, each read as long as it can be: an unclosed string or comment and one that isn't UTF-8 are such a place at their beginning.
    /// Its number is that of the line of the first such place; lines end with the byte 0A and count from 1. `Memory` is want of memory.
    pub fn read(alloc: Global, text: &'a [u8]) -> Result<Tokens<'a>, TokenFault>
        requires { length text.now ≤ 4194304 }
        ensures { Reads (tokens text.now) result }
    {
        let mut items = Vec::new(alloc);
        let mut start = 0usize;
        let mut line = 1u32;
        while start < text.len() {
            let Some(piece) = piece_at(line, text, start) else {
                return Err(TokenFault::Wrong(line));
            };
            match store(&mut items, start, piece) {
                Ok(()) => {}
                Err(_) => return Err(TokenFault::Memory),
            }
            line += lines_at(text, start, piece.length) as u32;
            start += piece.length;
        }
        Ok(Tokens { text, items })
    }

    /// How many tokens there are.
    pub fn len(&self) -> usize
        ensures value { result ≡ length self.now }
        ensures bound { result < 2 ^ 31 }
    {
        self.items.len()
    }

    /// The token of this number, from 0. `None` where there are no more than that.
    pub fn get(&self, index: usize) -> Option<Token<'a>>
        ensures { option_map seen_token result ≡ slice_get self.now index }
    {
        let text = self.text;
        let stored = self.items.get(index)?;
        match *stored {
            Stored::Open(line) => Some(Token::Open(line)),
            Stored::Close => Some(Token::Close),
            Stored::Word(start, count) => Some(Token::Word(
                &text[start as usize..(start + count) as usize],
            )),
            Stored::Text(start) => Some(Token::Text(Quoted::new(&text[start as usize..]))),
        }
    }
}
