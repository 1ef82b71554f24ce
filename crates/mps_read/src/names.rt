ghost use Rattle.std.specs.Prelude.{◌≡◌, ◌<◌, [], true, false, length, OnOk, MatchOption};
ghost use Rattle.mps_read.specs.Names.{is_among, place_among, with_name};

use indexmap::IndexSet;
use ip_core::OutOfMemory;
use std::alloc::Global;
use std::marker::Model;

/// Names numbered in the order in which they were added, each once.
#[derive(Drop)]
pub struct Names {
    index: IndexSet<Vec<u8>>,
}

impl Model for Names {
    ghost use Rattle.std.specs.Prelude.{ℕ, List, map};

    ghost Value = { List (List ℕ) };

    ghost view = { λ n. map (λ k. k.items) n.index.keys };
}

impl Names {
    /// No names.
    pub fn new(alloc: Global) -> Names
        ensures { result ≡ [] }
    {
        Names {
            index: IndexSet::new(alloc),
        }
    }

    /// How many names there are.
    pub fn len(&self) -> usize
        ensures { result ≡ length self.now }
    {
        self.index.len()
    }

    /// The number of a name, or None where it isn't known.
    pub fn find(&self, name: &[u8]) -> Option<usize>
        ensures { MatchOption result (is_among name.now self.now ≡ false)
            (λ k. (is_among name.now self.now ≡ true) × (k ≡ place_among name.now self.now)
            × (k < length self.now)) }
    {
        self.index.get_index_of(name)
    }

    /// Adds a name at the end, where it isn't known yet.
    pub fn add(&mut self, alloc: Global, name: &[u8]) -> Result<(), OutOfMemory>
        ensures { OnOk result (self.new ≡ with_name name.now self.old) }
    {
        let owned = Vec::from_slice(alloc, name)?;
        self.index.insert(owned)?;
        Ok(())
    }
}
