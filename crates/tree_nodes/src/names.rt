// A directory's names, in the order of their bytes.
ghost use Rattle.std.specs.Prelude.{◌≡◌, ◌==◌, Some, OnOk, OnErr, IfOk, refl};
ghost use Rattle.std.specs.Ordering.{nat_cmp};
ghost use Rattle.std.specs.Cmp.{partial_equiv_from_equiv};
ghost use Rattle.std.specs.Cmp.Lexicographic.{slice_cmp, nat_list_eq_equiv, nat_list_cmp_total, texts_ties, texts_po};
ghost use Rattle.std.specs.FinMap.{empty, get, insert, remove, len, entries};
ghost use Rattle.tree_nodes.specs.Names.{name_among};
ghost use Rattle.std.specs.BTreeMap.Comparable.{le_lt_trans};
ghost use Rattle.std.specs.Str.{bytes_eq};

use std::alloc::{AllocError, Global};
use std::cmp::Ordering;
use std::collections::BTreeMap;
use std::collections::btree_map::Comparable;
use std::marker::Model;
use wx_types::Bytes;

/// A name of a directory. Contracts see it as the list of its bytes. Names are ordered by their bytes.
#[derive(Debug, Drop)]
pub struct Name {
    bytes: Vec<u8>,
}

impl Model for Name {
    ghost use Rattle.std.specs.Prelude.{List, ℕ};

    ghost Value = { List ℕ };

    ghost view = { λ a. a.bytes.items };
}

impl Name {
    /// A copy of `bytes`. `AllocError` means out of memory and nothing else.
    pub fn new(alloc: Global, bytes: &[u8]) -> Result<Name, AllocError>
        ensures { IfOk result (λ name. name ≡ bytes.now) }
    {
        Ok(Name {
            bytes: Vec::from_slice(alloc, bytes)?,
        })
    }

    /// All bytes of the name.
    pub fn as_slice(&self) -> &[u8]
        ensures { result.now ≡ self.now }
    {
        self.bytes.as_slice()
    }
}

impl PartialEq for Name {
    ghost eq = { bytes_eq };

    ghost laws = { partial_equiv_from_equiv nat_list_eq_equiv };

    fn eq(&self, other: &Name) -> bool {
        self.as_slice() == other.as_slice()
    }
}

impl Eq for Name {
    ghost laws = { nat_list_eq_equiv };
}

impl PartialOrd for Name {
    ghost partial_cmp = { λ a b. Some (slice_cmp nat_cmp a b) };

    ghost laws = { texts_po };

    fn partial_cmp(&self, other: &Name) -> Option<Ordering> {
        Some(self.cmp(other))
    }
}

impl Ord for Name {
    ghost cmp = { slice_cmp nat_cmp };

    ghost total = { nat_list_cmp_total };

    ghost matches_partial_cmp = { λ a b. refl };

    ghost matches_eq = { texts_ties };

    fn cmp(&self, other: &Name) -> Ordering {
        self.as_slice().cmp(other.as_slice())
    }
}

/// The names of a directory with the numbers of the nodes that they name. Contracts see it as a finite
/// map.
#[derive(Drop)]
pub struct Names {
    map: BTreeMap<Name, u32>,
}

impl Model for Names {
    ghost use Rattle.tree_nodes.specs.Names.{NameMap, coded_names};
    ghost use Rattle.std.specs.FinMap.{from_entries};

    ghost Value = { NameMap };

    ghost coded = { coded_names };

    ghost view = { λ a. from_entries a.map.entries };
}

impl Comparable<Name> for &[u8] {
    ghost compare = { λ q name. slice_cmp nat_cmp q.now name };

    ghost respects_cmp = { λ q x y. nat_list_cmp_total.congr q.now x y };

    ghost below_greater = { λ q x y. le_lt_trans nat_list_cmp_total q.now x y };

    fn compare(&self, key: &Name) -> Ordering {
        Ord::cmp(self, &key.as_slice())
    }
}

impl Names {
    /// No names. No memory is taken.
    pub fn new(alloc: Global) -> Names
        ensures { result ≡ empty }
    {
        Names {
            map: BTreeMap::new(alloc),
        }
    }

    /// The node that a name leads to.
    pub fn get(&self, name: &[u8]) -> Option<u32>
        ensures { result ≡ get self.now name.now }
    {
        self.map.get(name).copied()
    }

    /// Whether there are no names.
    pub fn is_empty(&self) -> bool
        ensures { result ≡ (len self.now == 0) }
    {
        self.map.len() == 0
    }

    /// Lets the name lead to the node. `AllocError` means out of memory and nothing else; the names are
    /// unchanged then. It doesn't come where the name was there.
    pub fn insert(&mut self, name: Name, node: u32) -> Result<(), AllocError>
        ensures ok { OnOk result (self.new ≡ insert self.old name node) }
        ensures err { OnErr result (self.new ≡ self.old) }
    {
        self.map.insert(name, node)?;
        Ok(())
    }

    /// Removes the name. No memory is taken.
    pub fn remove(&mut self, name: &[u8])
        ensures { self.new ≡ remove self.old name.now }
    {
        let _ = self.map.remove(name);
    }

    /// A copy of the names in the order of their bytes, with the numbers of their nodes. `AllocError` is
    /// out of memory and nothing else.
    pub fn to_vec(&self, alloc: Global) -> Result<Vec<(Bytes, u32)>, AllocError>
        ensures { IfOk result (λ all. all.items ≡ entries self.now) }
    {
        let mut all = Vec::with_capacity(alloc, self.map.len())?;
        for (name, node) in &self.map {
            all.push((Bytes::new(alloc, name.as_slice())?, *node))?;
        }
        Ok(all)
    }

    /// The first name that leads to a node, empty where none does.
    pub fn name_of(&self, node: u32) -> &[u8]
        ensures { result.now ≡ name_among (entries self.now) node }
    {
        let _ = self.map.len();
        for (name, number) in &self.map {
            if *number == node {
                return name.as_slice();
            }
        }
        b"".as_slice()
    }
}
