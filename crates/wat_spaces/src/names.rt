// Identifiers by their names: WebAssembly Core 1.0, section 6.3.5.
ghost use Rattle.std.specs.Prelude.{◌≡◌, [], ◌∷◌, ◌++◌, length, IfOk, OnOk};
ghost use Rattle.wat_spaces.specs.Spaces.{is_named, is_taken, index_in};
ghost use Rattle.std.specs.List.{position};
ghost use Rattle.wat_spaces.specs.Names.{GivesFirst};
ghost use Rattle.wat_syntax.specs.Seen.{seen_name, seen_reference};

use std::alloc::{AllocError, Global};
use std::collections::BTreeMap;
use std::marker::Model;
use wat_syntax::Reference;

/// Identifiers in their order, with the first index of each name. Contracts see their list.
#[derive(Drop)]
pub struct Names<'a> {
    identifiers: Vec<Option<&'a [u8]>>,
    first: BTreeMap<Vec<u8>, u32>,
}

impl<'a> Model for Names<'a> {
    ghost use Rattle.std.specs.Prelude.{ℕ, List, Option, map};
    ghost use Rattle.wat_syntax.specs.Seen.{seen_name};
    ghost use Rattle.wat_spaces.specs.Names.{HasFirst};

    ghost Value = { List (Option (List ℕ)) };

    ghost view = { λ n. map seen_name n.identifiers.items };

    ghost invariant = { λ n. HasFirst (map seen_name n.identifiers.items) n.first };
}

impl<'a> Names<'a> {
    /// None yet. No memory is taken.
    pub fn new(alloc: Global) -> Names<'a>
        ensures { result ≡ [] }
    {
        Names {
            identifiers: Vec::new(alloc),
            first: BTreeMap::new(alloc),
        }
    }

    /// How many there are.
    pub fn len(&self) -> usize
        ensures { result ≡ length self.now }
    {
        self.identifiers.len()
    }

    /// The first index of a name.
    pub fn first_of(&self, name: &[u8]) -> Option<u32>
        ensures { result ≡ position (is_named name.now) self.now }
    {
        self.first.get(name).copied()
    }

    /// Whether an identifier is among them.
    #[tactic(auto, using(crate::proofs::PositionLemmas::some_position))]
    pub fn is_taken(&self, name: Option<&[u8]>) -> bool
        ensures { result ≡ is_taken self.now (seen_name name.entry) }
    {
        match name {
            Some(name) => self.first_of(name).is_some(),
            None => false,
        }
    }

    /// The index that a reference means.
    pub fn index_of(&self, reference: Reference<'_>) -> Option<u32>
        ensures { result ≡ index_in self.now (seen_reference reference.entry) }
    {
        match reference {
            Reference::Number(index) => Some(index),
            Reference::Named(name) => self.first_of(name),
        }
    }

    /// One more behind them. `AllocError` is want of memory, also where there are more than numbers.
    pub fn with(self, alloc: Global, name: Option<&'a [u8]>) -> Result<Names<'a>, AllocError>
        ensures { IfOk result (λ names. names ≡ self.entry ++ seen_name name.entry ∷ []) }
    {
        let Names {
            mut identifiers,
            mut first,
        } = self;
        let index = identifiers.len();
        if index > u32::MAX as usize {
            return Err(AllocError);
        }
        identifiers.push(name)?;
        match name {
            None => Ok(Names { identifiers, first }),
            Some(name) => {
                add_first(alloc, &mut first, name, index as u32)?;
                Ok(Names { identifiers, first })
            }
        }
    }
}

/// Gives a name an index, unless it has one.
pub(crate) fn add_first(
    alloc: Global,
    first: &mut BTreeMap<Vec<u8>, u32>,
    name: &[u8],
    index: u32,
) -> Result<(), AllocError>
    ensures { OnOk result (GivesFirst name.now index first.old first.new) }
{
    if first.get(name).is_none() {
        let name = Vec::from_slice(alloc, name)?;
        first.insert(name, index)?;
    }
    Ok(())
}
