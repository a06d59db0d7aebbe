// Where the groups of a text close: WebAssembly Core 1.0, section 6.1.
ghost use Rattle.std.specs.Prelude.{◌≡◌, ◌<◌, ◌≤◌, ◌+◌, ◌^◌, length, reverse, Some, MatchResult};
ghost use Rattle.wat_fields.specs.Items.{items_of};
ghost use Rattle.wat_fields.specs.Remaining.{remaining};
ghost use Rattle.wat_fields.specs.Closings.{IsParted, IsPartedFrom};
ghost use Rattle.wat_fields.specs.Parting.{IsRefused, PartsFrom};

use crate::fault::FieldsFault;
use std::alloc::Global;
use wat_tokens::{Token, Tokens};

/// A token more, from the end of the tokens to their start. `outer` has the places of the parentheses that close groups which open
/// in front of the token, the innermost last.
fn part_token(
    tokens: &Tokens<'_>,
    place: usize,
    closings: &mut Vec<u32>,
    outer: &mut Vec<u32>,
) -> Result<(), FieldsFault>
    requires low { place < length tokens.now }
    requires high { length tokens.now < 2 ^ 31 }
    requires parted { IsPartedFrom tokens.now (place + 1) closings.old.items (reverse outer.old.items) }
    ensures { PartsFrom tokens.now place result closings.new.items (reverse outer.new.items) }
{
    match tokens.get(place) {
        Some(Token::Open(_)) => match outer.pop() {
            Some(closing) => {
                closings[place] = closing;
                Ok(())
            }
            None => Err(FieldsFault::Unbalanced),
        },
        Some(Token::Close) => match outer.push(place as u32) {
            Ok(()) => Ok(()),
            Err(_) => Err(FieldsFault::Memory),
        },
        Some(Token::Word(_)) => Ok(()),
        Some(Token::Text(_)) => Ok(()),
        None => Ok(()),
    }
}

/// The place at which each group closes, by the place at which it opens. `Unbalanced` comes exactly where the parentheses aren't
/// balanced. `Memory` is want of memory.
pub(crate) fn closings_of(alloc: Global, tokens: &Tokens<'_>) -> Result<Vec<u32>, FieldsFault>
    ensures { MatchResult result (λ closings. IsParted tokens.now closings.items × (items_of tokens.now ≡ Some (remaining tokens.now 0))) (IsRefused tokens.now) }
{
    let count = tokens.len();
    let mut closings = match Vec::from_elem(alloc, 0u32, count) {
        Ok(closings) => closings,
        Err(_) => return Err(FieldsFault::Memory),
    };
    let mut outer = Vec::new(alloc);
    let mut place = count;
    while place > 0 {
        place -= 1;
        match part_token(tokens, place, &mut closings, &mut outer) {
            Ok(()) => {}
            Err(fault) => return Err(fault),
        }
    }
    if outer.is_empty() {
        Ok(closings)
    } else {
        Err(FieldsFault::Unbalanced)
    }
}
