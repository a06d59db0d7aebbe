// The fields into which parentheses part the tokens of a text: WebAssembly Core 1.0, section 6.1.
ghost use Rattle.std.specs.Prelude.{◌≡◌, ◌<◌, ◌^◌, length};

use crate::fault::FieldsFault;
use crate::parting::closings_of;
use std::alloc::Global;
use std::marker::Model;
use wat_tokens::{Quoted, Token, Tokens};

/// A place among tokens: in front of an item, or at the end of a group.
#[derive(Clone, Copy)]
pub struct Place {
    /// How many tokens are in front of it.
    pub index: u32,
}

impl Place {
    /// In front of all tokens.
    pub fn start() -> Place
        ensures { result ≡ record { index = 0 } }
    {
        Place { index: 0 }
    }
}

/// What stands at a place.
#[derive(Clone, Copy)]
pub enum Item<'a> {
    /// A word.
    Word(&'a [u8]),
    /// A string.
    Text(Quoted<'a>),
    /// A group, with the number of the line of the parenthesis that opens it, and the place of what is inside.
    Group(u32, Place),
}

/// An item at a place.
#[derive(Clone, Copy)]
pub struct Met<'a> {
    pub item: Item<'a>,
    /// The place behind the item.
    pub behind: Place,
}

/// Tokens of which the parentheses are balanced, with the place of the parenthesis that closes each group. Contracts see the tokens.
#[derive(Drop)]
pub struct Fields<'a> {
    tokens: Tokens<'a>,
    closings: Vec<u32>,
}

impl<'a> Model for Fields<'a> {
    ghost use Rattle.std.specs.Prelude.{List};
    ghost use Rattle.wat_tokens.specs.Tokens.{Token};

    ghost Value = { List Token };

    ghost use Rattle.wat_fields.specs.Closings.{IsParted};

    ghost view = { λ f. f.tokens };

    ghost invariant = { λ f. IsParted f.tokens f.closings.items };
}

impl<'a> Fields<'a> {
    ghost use Rattle.wat_fields.specs.Places.{LeadsOn, Meets, PartsInto};
    ghost use Rattle.wat_fields.specs.Remaining.{remaining};

    /// The fields of tokens. `Unbalanced` comes exactly where their parentheses aren't balanced. `Memory` is want of memory.
    pub fn part(alloc: Global, tokens: Tokens<'a>) -> Result<Fields<'a>, FieldsFault>
        ensures { PartsInto tokens.entry result }
    {
        match closings_of(alloc, &tokens) {
            Ok(closings) => Ok(Fields { tokens, closings }),
            Err(fault) => Err(fault),
        }
    }

    /// How many tokens there are, parentheses among them.
    pub fn len(&self) -> usize
        ensures value { result ≡ length self.now }
        ensures bound { result < 2 ^ 31 }
    {
        self.tokens.len()
    }

    /// The item at a place, with the place behind it. `None` at the end of a group and behind all tokens. No memory is taken, and a group
    /// is stepped over at once.
    pub fn item(&self, at: Place) -> Option<Met<'a>>
        ensures meets { Meets self.now (remaining self.now at.index) result }
        ensures forward { LeadsOn at.index (length self.now) result }
    {
        let index = at.index as usize;
        match self.tokens.get(index) {
            Some(Token::Open(line)) => {
                let inside = Place {
                    index: at.index + 1,
                };
                Some(Met {
                    item: Item::Group(line, inside),
                    behind: Place {
                        index: self.closings[index] + 1,
                    },
                })
            }
            Some(Token::Word(word)) => Some(Met {
                item: Item::Word(word),
                behind: Place {
                    index: at.index + 1,
                },
            }),
            Some(Token::Text(text)) => Some(Met {
                item: Item::Text(text),
                behind: Place {
                    index: at.index + 1,
                },
            }),
            Some(Token::Close) => None,
            None => None,
        }
    }
}
