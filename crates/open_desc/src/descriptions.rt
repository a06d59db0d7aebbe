// Descriptions in a slab, with counts of the open ends of pipes.
ghost use Rattle.std.specs.Prelude.{◌≡◌, ◌<◌, ◌≤◌, ◌+◌, ◌^◌, ◌↔◌, ◌⊎◌, ◌==◌, None, IsSome, IfSome, IsSomeAnd, IsTrue, IfOk, IfErr, OnErr, option_copied};
ghost use Rattle.std.specs.FinMap.{empty, get as opened_at, remove, len};
ghost use Rattle.open_desc.specs.Processes.{CountsStay};
ghost use Rattle.open_desc.specs.Descriptions.{description_of, references_of, with_opened, after_open, after_share, released_kind, after_release, changed, with_flags, end_left};

use crate::description::{Description, Kind, Opened};
use crate::ends::{EndCounts, end_closed, end_opened, has_end};
use slab::Slab;
use std::alloc::{AllocError, Global};
use std::collections::BTreeMap;
use std::marker::Model;
use wx_types::{Errno, Refusal};

/// How many descriptions may be open.
pub const OPEN_DESCRIPTIONS: usize = 1_024;

/// The open descriptions of all processes. Contracts see it as the finite map from their ids to the
/// descriptions, each with its number and its count of references, and the number that the next one is
/// given. Ids are used again, numbers are not.
#[derive(Drop)]
pub struct Descs {
    slab: Slab<Opened>,
    next: u64,
    readers: EndCounts,
    writers: EndCounts,
}

impl Model for Descs {
    ghost use Rattle.open_desc.specs.Descriptions.{Descriptions, descriptions_code};

    ghost Value = { Descriptions };

    ghost coded = { descriptions_code };

    ghost use Rattle.fd_table.specs.Places.{by_place};
    ghost use Rattle.open_desc.specs.Ends.{AreCounted};

    ghost view = { λ descs. record { opens = by_place descs.slab.slots; next = descs.next } };

    ghost invariant = { λ descs. AreCounted (by_place descs.slab.slots) descs.readers descs.writers };
}

impl Descs {
    /// No descriptions, with room for none. `AllocError` is out of memory.
    pub fn new(alloc: Global) -> Result<Descs, AllocError>
        ensures empty { IfOk result (λ descs. descs ≡ record { opens = empty; next = 0 }) }

        // Whatever processes do with them, a description has as many references as descriptors name it.
        ensures counts { IfOk result CountsStay }
    {
        Ok(Descs {
            slab: Slab::new(alloc),
            next: 0,
            readers: BTreeMap::new(alloc),
            writers: BTreeMap::new(alloc),
        })
    }

    /// How many descriptions are open.
    pub fn len(&self) -> usize
        ensures value { result ≡ len self.now.opens }
        ensures most { result ≤ 1024 }
    {
        self.slab.len()
    }

    /// Whether no description is open.
    pub fn is_empty(&self) -> bool
        ensures { result ≡ (len self.now.opens == 0) }
    {
        self.len() == 0
    }

    /// The description of an id, `None` where it is not open.
    pub fn get(&self, id: usize) -> Option<&Description>
        ensures { option_copied result ≡ description_of self.now id }
    {
        match self.slab.get(id) {
            Some(opened) => Some(&opened.description),
            None => None,
        }
    }

    /// The entry of an id.
    fn opened(&self, id: usize) -> Option<Opened>
        ensures { result ≡ opened_at self.now.opens id }
    {
        self.slab.get(id).copied()
    }

    /// Whether a description of that end of the pipe is open, the writing one or the reading one.
    pub fn end_left(&self, pipe: u32, writing: bool) -> bool
        ensures { result ≡ end_left self.now pipe writing }
    {
        if writing {
            has_end(&self.writers, pipe)
        } else {
            has_end(&self.readers, pipe)
        }
    }

    /// Puts another entry of the same kind in the place of an id's.
    fn put_back(&mut self, id: usize, opened: Opened)
        requires { IsSomeAnd (opened_at self.old.opens id) (λ o. o.description.kind ≡ opened.description.kind) }
        ensures { self.new ≡ with_opened self.old id opened }
    {
        let Some(place) = self.slab.get_mut(id) else {
            unreachable!();
        };
        *place = opened;
    }

    /// Takes an entry out.
    fn take_out(&mut self, id: usize)
        requires { IsSome (opened_at self.old.opens id) }
        ensures { self.new ≡ record { opens = remove self.old.opens id; next = self.old.next } }
    {
        let Some(opened) = self.slab.try_remove(id) else {
            unreachable!();
        };
        end_closed(
            &mut self.readers,
            &mut self.writers,
            opened.description.kind,
        );
    }

    /// Whether a number is left for one more description.
    pub fn has_number(&self) -> bool
        ensures { IsTrue result ↔ (self.now.next + 1 < 2 ^ 64) }
    {
        self.next < u64::MAX
    }

    /// Whether one more reference to a description can be counted.
    pub fn can_share(&self, id: usize) -> bool
        ensures { IsTrue result ↔ (references_of self.now id + 1 < 2 ^ 64) }
    {
        match self.opened(id) {
            Some(opened) => opened.references < usize::MAX,
            None => true,
        }
    }

    /// Opens a description with one reference and the next number, and gives its id. `Nfile` comes
    /// exactly where 1,024 are open. `Memory` is out of memory, and all is as before then.
    pub fn open(&mut self, description: Description) -> Result<usize, Refusal>
        requires { self.old.next + 1 < 2 ^ 64 }
        ensures full { len self.old.opens ≡ 1024 → result ≡ Err (Refusal.Errno Errno.Nfile) }
        ensures nfile { result ≡ Err (Refusal.Errno Errno.Nfile) → len self.old.opens ≡ 1024 }
        ensures free { IfOk result (λ id. opened_at self.old.opens id ≡ None) }
        ensures opened { IfOk result (λ id. self.new ≡ after_open self.old id description) }
        ensures only { IfErr result (λ e. (e ≡ Refusal.Errno Errno.Nfile) ⊎ (e ≡ Refusal.Memory)) }
        ensures err { OnErr result (self.new ≡ self.old) }
    {
        if self.slab.len() >= OPEN_DESCRIPTIONS {
            return Err(Refusal::Errno(Errno::Nfile));
        }
        if self.slab.reserve(1).is_err() {
            return Err(Refusal::Memory);
        }
        if end_opened(&mut self.readers, &mut self.writers, description.kind).is_err() {
            return Err(Refusal::Memory);
        }
        let id = self.slab.insert_reserved(Opened {
            number: self.next,
            description,
            references: 1,
        });
        self.next += 1;
        Ok(id)
    }

    /// Counts one more reference to a description. An id that is not open changes nothing.
    pub fn share(&mut self, id: usize)
        requires { references_of self.old id + 1 < 2 ^ 64 }
        ensures { self.new ≡ after_share self.old id }
    {
        if let Some(opened) = self.opened(id) {
            self.put_back(
                id,
                Opened {
                    references: opened.references + 1,
                    ..opened
                },
            );
        }
    }

    /// Counts one reference fewer. At the last one the description is closed, and its kind handed back:
    /// `Some` comes exactly then. An id that is not open changes nothing.
    pub fn release(&mut self, id: usize) -> Option<Kind>
        ensures kind { result ≡ released_kind self.old id }
        ensures descriptions { self.new ≡ after_release self.old id }
    {
        let Some(opened) = self.opened(id) else {
            return None;
        };
        if opened.references <= 1 {
            self.take_out(id);
            return Some(opened.description.kind);
        }
        self.put_back(
            id,
            Opened {
                references: opened.references - 1,
                ..opened
            },
        );
        None
    }

    /// Puts another description of the same kind in the place of an id's.
    pub(crate) fn change(&mut self, id: usize, description: Description)
        requires { IfSome (description_of self.old id) (λ d. d.kind ≡ description.kind) }
        ensures { self.new ≡ changed self.old id (λ _. description) }
    {
        if let Some(opened) = self.opened(id) {
            self.put_back(
                id,
                Opened {
                    description,
                    ..opened
                },
            );
        }
    }

    /// Sets the flags of a description. An id that is not open changes nothing.
    pub fn set_flags(&mut self, id: usize, flags: u16)
        ensures { self.new ≡ changed self.old id (with_flags flags) }
    {
        if let Some(&description) = self.get(id) {
            self.change(
                id,
                Description {
                    flags,
                    ..description
                },
            );
        }
    }
}
