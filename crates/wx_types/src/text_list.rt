// A list of byte lists, as the arguments of a program.
ghost use Rattle.std.specs.Prelude.{◌≡◌, ◌++◌, ◌∷◌, [], length, IfOk, OnOk, OnErr, slice_get};
ghost use Rattle.std.specs.Option.{option_copied};

use super::byte_list::Bytes;
use std::alloc::{AllocError, Global};
use std::marker::Model;

/// A list of byte lists, as the arguments of a program. Contracts see it as that list.
#[derive(Debug, Drop)]
pub struct Texts {
    items: Vec<Bytes>,
}

impl Model for Texts {
    ghost use Rattle.std.specs.Prelude.{List, ℕ};

    ghost Value = { List (List ℕ) };

    ghost view = { λ a. a.items.items };
}

impl Texts {
    /// The empty list. No memory is taken.
    pub fn new(alloc: Global) -> Texts
        ensures { result ≡ [] }
    {
        Texts {
            items: Vec::new(alloc),
        }
    }

    /// Adds a copy of `text` at the end. `AllocError` is want of memory and nothing else; the list
    /// is unchanged then.
    pub fn push(&mut self, text: &[u8]) -> Result<(), AllocError>
        ensures ok { OnOk result (self.new ≡ self.old ++ text.now ∷ []) }
        ensures err { OnErr result (self.new ≡ self.old) }
    {
        let alloc = *self.items.allocator();
        let text = Bytes::new(alloc, text)?;
        self.items.push(text)?;
        Ok(())
    }

    /// The text at `index`, counted from 0, or `None` exactly where there are no more than `index`.
    pub fn get(&self, index: usize) -> Option<&[u8]>
        ensures { option_copied result ≡ slice_get self.now index }
    {
        match self.items.get(index) {
            Some(text) => Some(text.as_slice()),
            None => None,
        }
    }

    /// How many texts there are.
    pub fn len(&self) -> usize
        ensures { result ≡ length self.now }
    {
        self.items.as_slice().len()
    }

    /// An equal list. `AllocError` is want of memory and nothing else.
    pub fn copy(&self, alloc: Global) -> Result<Texts, AllocError>
        ensures { IfOk result (λ t. t ≡ self.now) }
    {
        let mut items = Vec::new(alloc);
        for text in &self.items {
            items.push(text.copy(alloc)?)?;
        }
        Ok(Texts { items })
    }
}
