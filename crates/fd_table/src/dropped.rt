// A list of up to 128 open descriptions, which takes no memory.
ghost use Rattle.std.specs.Prelude.{◌≡◌, ◌<◌, ◌≤◌, [], ◌∷◌, ◌++◌, length};

use std::marker::Model;

/// The open descriptions that an exec closed, at most 128. Contracts see it as the list of their ids.
#[derive(Debug, Drop)]
pub struct Dropped {
    ids: [usize; 128],
    count: usize,
}

impl Model for Dropped {
    ghost use Rattle.std.specs.Prelude.{List, ℕ, ◌≤◌, take};

    ghost Value = { List ℕ };

    ghost view = { λ a. take a.count a.ids };

    ghost invariant = { λ a. a.count ≤ 128 };
}

impl Dropped {
    /// An empty list.
    pub(crate) fn new() -> Dropped
        ensures { result ≡ [] }
    {
        Dropped {
            ids: [0; 128],
            count: 0,
        }
    }

    /// Puts an id at the end.
    pub(crate) fn push(&mut self, id: usize)
        requires { length self.old < 128 }
        ensures { self.new ≡ self.old ++ id ∷ [] }
    {
        self.ids[self.count] = id;
        self.count += 1;
    }

    /// The ids, by rising descriptor.
    pub fn as_slice(&self) -> &[usize]
        ensures value { result.now ≡ self.now }
        ensures most { length result.now ≤ 128 }
    {
        &self.ids[..self.count]
    }
}
