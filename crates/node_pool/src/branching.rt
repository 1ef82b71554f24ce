ghost use Rattle.std.specs.Prelude.{◌≡◌};
ghost use Rattle.node_pool.specs.Branchings.{HasSuccessors, change_for};

use crate::bound_change::BoundChange;
use std::marker::Model;

/// A node that is split in two: `first` with the column at most `at`, and the next name with it at
/// least `at + 1`. Both have the same bound.
#[derive(Debug, Drop)]
pub struct Branching {
    node: u64,
    first: u64,
    at: i64,
    bound: i64,
    col: u32,
}

impl Model for Branching {
    ghost use Rattle.node_pool.specs.Branchings.{Branch, HasSuccessors};

    ghost Value = { Branch };

    ghost view = { λ b. record {
      node = b.node;
      col = b.col;
      at = b.at;
      first = b.first;
      bound = b.bound;
    } };

    ghost invariant = { λ b. HasSuccessors b.at b.first };
}

impl Branching {
    /// A node split at a column.
    pub fn of(node: u64, col: u32, at: i64, first: u64, bound: i64) -> Branching
        requires { HasSuccessors at first }
        ensures { result ≡
            record { node = node; col = col; at = at; first = first; bound = bound } }
    {
        Branching {
            node,
            first,
            at,
            bound,
            col,
        }
    }

    /// The name of the node that is split.
    pub fn node(&self) -> u64
        ensures { result ≡ self.now.node }
    {
        self.node
    }

    /// The name of the first child.
    pub fn first(&self) -> u64
        ensures { result ≡ self.now.first }
    {
        self.first
    }

    /// The bound of both children.
    pub fn bound(&self) -> i64
        ensures { result ≡ self.now.bound }
    {
        self.bound
    }

    /// The change that makes the box of the child of this name, or None where no child has it.
    pub fn change_for(&self, name: u64) -> Option<BoundChange>
        ensures { result ≡ change_for self.now name }
    {
        if self.first == name {
            Some(BoundChange::High {
                col: self.col,
                high: self.at,
            })
        } else if self.first + 1 == name {
            Some(BoundChange::Low {
                col: self.col,
                low: self.at + 1,
            })
        } else {
            None
        }
    }
}
