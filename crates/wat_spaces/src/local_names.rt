// The names of a function's parameters and locals: WebAssembly Core 1.0, section 6.6.5.
ghost use Rattle.std.specs.Prelude.{◌≡◌};
ghost use Rattle.wat_spaces.specs.Spaces.{index_in};
ghost use Rattle.wat_syntax.specs.Seen.{seen_reference};
ghost use Rattle.wat_spaces.specs.Means.{Means};

use super::names::Names;
use super::unmeant::Unmeant;
use std::marker::Model;
use wat_syntax::Reference;

/// Parameters without names, and behind them names. Contracts see the list of all.
#[derive(Drop)]
pub struct LocalNames<'a> {
    /// How many parameters without names come first.
    pub unnamed: usize,
    pub names: Names<'a>,
}

impl<'a> Model for LocalNames<'a> {
    ghost use Rattle.std.specs.Prelude.{ℕ, List, Option, None, replicate, ◌++◌};

    ghost Value = { List (Option (List ℕ)) };

    ghost view = { λ l. replicate l.unnamed None ++ l.names };
}

impl<'a> LocalNames<'a> {
    /// The index that a reference means. An index beyond all numbers is want of memory.
    pub fn index_of(&self, reference: Reference<'_>) -> Result<u32, Unmeant>
        ensures { Means (λ n. n) result (index_in self.now (seen_reference reference.entry)) }
    {
        match reference {
            Reference::Number(index) => Ok(index),
            Reference::Named(name) => match self.names.first_of(name) {
                None => Err(Unmeant::Name),
                Some(behind) => {
                    if self.unnamed > u32::MAX as usize - behind as usize {
                        return Err(Unmeant::Memory);
                    }
                    Ok((self.unnamed + behind as usize) as u32)
                }
            },
        }
    }
}
