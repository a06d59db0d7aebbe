ghost use Rattle.std.specs.Prelude.{◌≡◌, ◌+◌, ◌≤◌, [], ◌∷◌, ◌++◌, IfOk, OnOk, OnErr, IsTrue, ◌↔◌, length, slice_get};
ghost use Rattle.std.specs.Option.{option_copied};
ghost use Rattle.world_step.specs.Weight.{weight, weight_limit};
ghost use Rattle.wx_types.specs.Entry.{entry_weight};

use std::alloc::{AllocError, Global};
use std::marker::Model;
use wx_types::Entry;

/// The history of a run: its entries in the order in which they were made. Contracts see the list of the entries.
#[derive(Drop)]
pub struct Journal {
    entries: Vec<Entry>,
    total: u64,
}

impl Model for Journal {
    ghost use Rattle.std.specs.Prelude.{List, ◌≡◌, ◌≤◌};
    ghost use Rattle.wx_types.specs.declared.entries.Entry.{Entry};
    ghost use Rattle.world_step.specs.Weight.{weight, weight_limit};

    ghost Value = { List Entry };

    ghost view = { λ j. j.entries.items };

    ghost invariant = { λ j. (j.total ≡ weight j.entries.items) × (j.total ≤ weight_limit) };
}

impl Journal {
    /// A journal without entries. It takes no memory.
    pub fn new(alloc: Global) -> Journal
        ensures { result ≡ [] }
    {
        Journal {
            entries: Vec::new(alloc),
            total: 0,
        }
    }

    /// Adds an entry at the end. After an error the journal is as before.
    pub fn push(&mut self, entry: Entry) -> Result<(), AllocError>
        requires { weight self.old + entry_weight entry ≤ weight_limit }
        ensures ok { OnOk result (self.new ≡ self.old ++ entry ∷ []) }
        ensures err { OnErr result (self.new ≡ self.old) }
    {
        let more = entry.weight();
        self.entries.push(entry)?;
        self.total += more;
        Ok(())
    }

    /// What the history weighs: 64 for each entry, and one for each byte of its replies. It is at most 268,435,456.
    pub fn weight(&self) -> u64
        ensures value { result ≡ weight self.now }
        ensures bound { result ≤ weight_limit }
    {
        self.total
    }

    /// How many entries there are.
    pub fn len(&self) -> usize
        ensures { result ≡ length self.now }
    {
        self.entries.len()
    }

    /// Whether there are none.
    pub fn is_empty(&self) -> bool
        ensures { IsTrue result ↔ (self.now ≡ []) }
    {
        self.entries.is_empty()
    }

    /// The entry at an index from 0; `None` where there is none.
    pub fn get(&self, index: usize) -> Option<&Entry>
        ensures { option_copied result ≡ slice_get self.now index }
    {
        self.entries.get(index)
    }
}
