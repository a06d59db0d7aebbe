// The paths of a tree, in the order of their bytes.
ghost use Rattle.std.specs.Prelude.{◌≡◌, ◌∷◌, [], OnOk, MatchOption, ℕ, ◌<◌, length};
ghost use Rattle.std.specs.FinMap.{empty, insert, entries};

use std::alloc::{AllocError, Global};
use std::collections::BTreeMap;
use std::marker::Model;
use tree_nodes::Name;

/// Paths with the numbers of the nodes that they name. Contracts see it as a finite map.
#[derive(Drop)]
pub struct FoundPaths {
    map: BTreeMap<Name, u32>,
}

impl Model for FoundPaths {
    ghost use Rattle.tree_nodes.specs.Names.{NameMap, coded_names};
    ghost use Rattle.std.specs.FinMap.{from_entries};

    ghost Value = { NameMap };

    ghost coded = { coded_names };

    ghost view = { λ a. from_entries a.map.entries };
}

impl FoundPaths {
    /// No paths. No memory is taken.
    pub fn new(alloc: Global) -> FoundPaths
        ensures { result ≡ empty }
    {
        FoundPaths {
            map: BTreeMap::new(alloc),
        }
    }

    /// Lets the path name the node. `AllocError` means out of memory and nothing else.
    #[tactic(auto, using(crate::proofs::PathsOf::path_put))]
    pub fn insert(&mut self, path: Name, node: u32) -> Result<(), AllocError>
        ensures { OnOk result (self.new ≡ insert self.old path node) }
    {
        self.map.insert(path, node)?;
        Ok(())
    }

    /// Takes the first path out. No memory is taken.
    #[tactic(auto, using(crate::proofs::PathsOf::paths_sorted, crate::proofs::PathsOf::no_paths))]
    pub fn take_first(&mut self) -> Option<(Name, u32)>
        ensures { MatchOption result (entries self.old ≡ []) (λ first. entries self.old ≡ first ∷ entries self.new) }
    {
        if self.map.len() == 0 {
            return None;
        }
        let Some(first) = self.map.pop_first() else {
            return None;
        };
        Some(first)
    }
}
