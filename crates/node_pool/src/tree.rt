ghost use Rattle.std.specs.Prelude.{◌≡◌, ◌++◌, [], ◌∷◌, IfOk, OnOk, OnErr, MatchOption};
ghost use Rattle.node_pool.specs.Branchings.{IsPath};
ghost use Rattle.node_pool.specs.Trees.{AreApart, HasNoFirst, IsFirstAt, IsMadeAt, IsNewBranch, IsOriginBefore, IsRootBefore, IsUnmade, node_of};

use crate::bound_change::BoundChange;
use crate::branching::Branching;
use crate::node::OpenNode;
use crate::origin::Origin;
use ip_core::OutOfMemory;
use std::alloc::Global;
use std::collections::BTreeMap;

/// The tree of a search: the bound of the root, and each node that is split, in order. A branching
/// is found by the name of its first child.
#[derive(Debug, Drop)]
pub struct SearchTree {
    root_bound: i64,
    branchings: Vec<Branching>,
    places: BTreeMap<u64, usize>,
}

impl std::marker::Model for SearchTree {
    ghost use Rattle.node_pool.specs.Trees.{IsIndexed, Tree};

    ghost Value = { Tree };

    ghost view = { λ t. record { root_bound = t.root_bound; branches = t.branchings.items } };

    ghost invariant = { λ t. IsIndexed t.branchings.items t.places };
}

impl SearchTree {
    /// The tree of a root that isn't split.
    #[tactic(auto, using(crate::proofs::Origins::index_at_first))]
    pub fn of(alloc: Global, root_bound: i64) -> SearchTree
        ensures { result ≡ record { root_bound = root_bound; branches = [] } }
    {
        SearchTree {
            root_bound,
            branchings: Vec::new(alloc),
            places: BTreeMap::new(alloc),
        }
    }

    /// Adds a branching whose children are new.
    pub fn push(&mut self, branching: Branching) -> Result<(), OutOfMemory>
        requires { IsNewBranch self.old.branches branching }
        ensures ok { OnOk result (self.new ≡
            record self.old { branches = self.old.branches ++ branching ∷ [] }) }
        ensures err { OnErr result (self.new ≡ self.old) }
    {
        let first = branching.first();
        let place = self.branchings.len();
        self.branchings.push(branching)?;
        match self.places.insert(first, place) {
            Ok(_) => Ok(()),
            Err(_) => {
                self.branchings.pop();
                Err(OutOfMemory)
            }
        }
    }

    /// A node as it stands among open ones, or None where there is no node of the name.
    #[tactic(auto, using(crate::proofs::Paths::node_read, crate::proofs::Origins::node_unmade))]
    pub fn node_of(&self, name: u64) -> Option<OpenNode>
        ensures { result ≡ node_of self.now name }
    {
        if name == 0 {
            return Some(OpenNode {
                bound: self.root_bound,
                name,
            });
        }
        let place = self.place_of(name)?;
        let branching = &self.branchings[place];
        Some(OpenNode {
            bound: branching.bound(),
            name,
        })
    }

    /// The changes, the last first, that make the box of a node from the root box: those on the way
    /// from the node to the root.
    pub fn path_of(&self, alloc: Global, node: u64) -> Result<Vec<BoundChange>, OutOfMemory>
        ensures { IfOk result (λ path. IsPath self.now.branches node path.items) }
    {
        let mut path = Vec::new(alloc);
        let mut name = node;
        let mut left = self.branchings.len();
        while let Some(origin) = self.origin_before(name, left) {
            path.push(origin.change)?;
            name = origin.parent;
            left = origin.place;
        }
        Ok(path)
    }

    /// How a node came to be by the first `left` branchings, or None where they don't make it.
    #[tactic(auto, using(crate::proofs::Paths::root_boxes))]
    fn origin_before(&self, name: u64, left: usize) -> Option<Origin>
        ensures { MatchOption result (IsRootBefore self.now.branches name left)
            (IsOriginBefore self.now.branches name left) }
    {
        let place = self.place_of(name)?;
        if left <= place {
            return None;
        }
        let branching = &self.branchings[place];
        let change = branching.change_for(name)?;
        Some(Origin {
            place,
            change,
            parent: branching.node(),
        })
    }

    /// The place of the branching that makes a node.
    #[tactic(auto, using(crate::proofs::Origins::origins))]
    fn place_of(&self, name: u64) -> Option<usize>
        ensures { MatchOption result (IsUnmade self.now.branches name)
            (IsMadeAt self.now.branches name) }
    {
        if let Some(place) = self.place_of_first(name) {
            return Some(place);
        }
        let first = name.checked_sub(1)?;
        self.place_of_first(first)
    }

    /// The place of the branching whose first child has this name.
    fn place_of_first(&self, first: u64) -> Option<usize>
        ensures place { MatchOption result (HasNoFirst self.now.branches first)
            (IsFirstAt self.now.branches first) }
        ensures apart { AreApart self.now.branches }
    {
        self.places.get(&first).copied()
    }
}
