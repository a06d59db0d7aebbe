// The labels of the blocks that are open: WebAssembly Core 1.0, section 6.5.1.
ghost use Rattle.std.specs.Prelude.{◌≡◌, ℕ, if◌then◌else◌, List, [], ◌∷◌, Some, None, IfOk, OnOk};
ghost use Rattle.std.specs.Str.{bytes_eq};
ghost use Rattle.wat_spaces.specs.Spaces.{index_in};
ghost use Rattle.wat_syntax.specs.Seen.{seen_name, seen_reference};
ghost use Rattle.wat_spaces.specs.Names.{at_name};
ghost use Rattle.wat_spaces.specs.Labels.{is_repeated, outside, revealed, Hides};

use std::alloc::{AllocError, Global};
use std::collections::BTreeMap;
use std::marker::Model;
use wat_syntax::Reference;

/// The label of an open block.
#[derive(Clone, Copy)]
pub(crate) struct Label<'a> {
    /// Its identifier, if it has one.
    name: Option<&'a [u8]>,
    /// The place of the label of that name that it hides, counted from the outermost.
    hidden: Option<u32>,
}

/// The labels of the blocks that are open, with the place of the innermost of each name, counted from the outermost. Contracts
/// see the list of their identifiers, the innermost first.
#[derive(Drop)]
pub struct Labels<'a> {
    open: Vec<Label<'a>>,
    places: BTreeMap<Vec<u8>, u32>,
}

impl<'a> Model for Labels<'a> {
    ghost use Rattle.std.specs.Prelude.{ℕ, List, Option, map, reverse};
    ghost use Rattle.wat_spaces.specs.Labels.{identifier, ArePlaced};
    ghost use Rattle.wat_spaces.specs.Names.{at_name};

    ghost Value = { List (Option (List ℕ)) };

    ghost view = { λ l. map identifier (reverse l.open.items) };

    ghost invariant = { λ l. ArePlaced l.open.items (at_name l.places) };
}

impl<'a> Labels<'a> {
    /// No block is open. No memory is taken.
    pub fn new(alloc: Global) -> Labels<'a>
        ensures { result ≡ [] }
    {
        Labels {
            open: Vec::new(alloc),
            places: BTreeMap::new(alloc),
        }
    }

    /// The label that a reference means, counted from the innermost.
    pub fn index_of(&self, reference: Reference<'_>) -> Option<u32>
        ensures { result ≡ index_in self.now (seen_reference reference.entry) }
    {
        match reference {
            Reference::Number(index) => Some(index),
            Reference::Named(name) => match self.places.get(name) {
                Some(place) => Some((self.open.len() - 1 - *place as usize) as u32),
                None => None,
            },
        }
    }

    /// Whether a label at an `else` or an `end` is that of the innermost block.
    pub fn is_repeated(&self, label: Option<&[u8]>) -> bool
        ensures { result ≡ is_repeated self.now (seen_name label.entry) }
    {
        match self.open.last() {
            None => false,
            Some(innermost) => match label {
                None => true,
                Some(name) => match innermost.name {
                    None => false,
                    Some(other) => name == other,
                },
            },
        }
    }

    /// Inside one more block. `AllocError` is want of memory, also where there are more than numbers.
    pub fn with(self, alloc: Global, name: Option<&'a [u8]>) -> Result<Labels<'a>, AllocError>
        ensures { IfOk result (λ labels. labels ≡ seen_name name.entry ∷ self.entry) }
    {
        let Labels {
            mut open,
            mut places,
        } = self;
        let place = open.len();
        if place > u32::MAX as usize {
            return Err(AllocError);
        }
        let hidden = hide(alloc, &mut places, name, place as u32)?;
        open.push(Label { name, hidden })?;
        Ok(Labels { open, places })
    }

    /// Outside the innermost block, if there is one. `AllocError` is want of memory.
    pub fn outside(self, alloc: Global) -> Result<Labels<'a>, AllocError>
        ensures { IfOk result (λ labels. labels ≡ outside self.entry) }
    {
        let Labels {
            mut open,
            mut places,
        } = self;
        match open.pop() {
            None => Ok(Labels { open, places }),
            Some(label) => {
                restore(alloc, &mut places, label.name, label.hidden)?;
                Ok(Labels { open, places })
            }
        }
    }
}

/// Puts a name, if there is one, at a place, and answers the place that it had.
fn hide(
    alloc: Global,
    places: &mut BTreeMap<Vec<u8>, u32>,
    name: Option<&[u8]>,
    place: u32,
) -> Result<Option<u32>, AllocError>
    ensures { IfOk result (λ hidden. Hides (seen_name name.entry) place (at_name places.old) hidden (at_name places.new)) }
{
    match name {
        None => Ok(None),
        Some(name) => {
            let hidden = places.get(name).copied();
            put(alloc, places, name, place)?;
            Ok(hidden)
        }
    }
}

/// Puts a name, if there is one, at a place, or at none.
fn restore(
    alloc: Global,
    places: &mut BTreeMap<Vec<u8>, u32>,
    name: Option<&[u8]>,
    place: Option<u32>,
) -> Result<(), AllocError>
    ensures { OnOk result ((other : List ℕ) → at_name places.new other ≡ revealed (seen_name name.entry) place (at_name places.old) other) }
{
    match name {
        None => Ok(()),
        Some(name) => match place {
            Some(place) => put(alloc, places, name, place),
            None => {
                remove(places, name);
                Ok(())
            }
        },
    }
}

/// Puts a name at a place.
fn put(
    alloc: Global,
    places: &mut BTreeMap<Vec<u8>, u32>,
    name: &[u8],
    place: u32,
) -> Result<(), AllocError>
    ensures { OnOk result ((other : List ℕ) → at_name places.new other ≡ (if bytes_eq name.now other then Some place else at_name places.old other)) }
{
    let name = Vec::from_slice(alloc, name)?;
    places.insert(name, place)?;
    Ok(())
}

/// Puts a name at no place.
fn remove(places: &mut BTreeMap<Vec<u8>, u32>, name: &[u8])
    ensures { (other : List ℕ) → at_name places.new other ≡ (if bytes_eq name.now other then None else at_name places.old other) }
{
    places.remove(name);
}
