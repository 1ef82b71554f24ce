ghost use Rattle.std.specs.Prelude.{◌≡◌, ◌<◌, ◌≤◌, ◌^◌, ◌+◌, ◌∷◌, [], length, IfOk, OnOk, OnErr};
ghost use Rattle.ip_core.specs.Sides.{with_high, with_low};
ghost use Rattle.cert_check.specs.Walks.{boxes_if};

use crate::branch::Branch;
use ip_core::{Bounds, List, OutOfMemory};
use std::alloc::Global;
use std::marker::Model;

/// A way through the tree of a certificate: the box of the next node, and the splits that lead to it. One box is kept,
/// in which the ends of the splits' columns are changed and put back. Contracts see the boxes that are due.
#[derive(Debug, Drop)]
pub struct Walk {
    lows: List<i64>,
    highs: List<i64>,
    path: Vec<Branch>,
}

impl Model for Walk {
    ghost use Rattle.cert_check.specs.Walks.{Due, IsPath, due_at};

    ghost Value = { Due };

    ghost view = { λ w. due_at (record { lows = w.lows; highs = w.highs }) w.path.items };

    ghost invariant = { λ w. IsPath (record { lows = w.lows; highs = w.highs }) w.path.items };
}

impl Walk {
    /// The walk at its beginning: the root of the tree has this box, and no other tree is due.
    pub fn new(alloc: Global, root: &Bounds) -> Result<Walk, OutOfMemory>
        ensures { IfOk result (λ walk. walk ≡ record { here = root.now; later = []; depth = 0 }) }
    {
        Ok(Walk {
            lows: List::of(Vec::from_slice(alloc, root.lows())?),
            highs: List::of(Vec::from_slice(alloc, root.highs())?),
            path: Vec::new(alloc),
        })
    }

    /// A copy of the box of the next node.
    pub fn bounds(&self, alloc: Global) -> Result<Bounds, OutOfMemory>
        ensures { IfOk result (λ bounds. bounds ≡ self.now.here) }
    {
        let lows = List::of(Vec::from_slice(alloc, self.lows.as_slice())?);
        let highs = List::of(Vec::from_slice(alloc, self.highs.as_slice())?);
        match Bounds::of(lows, highs) {
            Some(bounds) => Ok(bounds),
            None => unreachable!(),
        }
    }

    /// Goes on to the low child of a split at a column, where the column is at most `at`. The high child, where it is
    /// at least `next`, is due later. After a refusal the walk is as before.
    pub fn split(&mut self, col: u32, at: i64, next: i64) -> Result<(), OutOfMemory>
        requires { col < length self.old.here.lows }
        ensures ok { OnOk result (self.new ≡ record {
          here = with_high self.old.here col at;
          later = with_low self.old.here col next ∷ self.old.later;
          depth = self.old.depth + 1;
        }) }
        ensures err { OnErr result (self.new ≡ self.old) }
    {
        let place = col as usize;
        let high = self.highs.as_slice()[place];
        self.path.push(Branch::Low { col, high, next })?;
        self.highs.set(place, high.min(at));
        Ok(())
    }

    /// Goes on to the next tree that is due, and tells whether there is one.
    pub fn advance(&mut self) -> Result<bool, OutOfMemory>
        ensures { IfOk result (λ left. self.old.later ≡ boxes_if left self.new) }
    {
        while let Some(branch) = self.path.pop() {
            match branch {
                Branch::High { col, low } => self.lows.set(col as usize, low),
                Branch::Low { col, high, next } => {
                    self.highs.set(col as usize, high);
                    self.enter_high(col, next)?;
                    return Ok(true);
                }
            }
        }
        Ok(false)
    }

    /// Goes on from a split to its high child, where the column is at least `next`.
    fn enter_high(&mut self, col: u32, next: i64) -> Result<(), OutOfMemory>
        requires { col < length self.old.here.lows }
        ensures { OnOk result (self.new ≡ record {
          here = with_low self.old.here col next;
          later = self.old.later;
          depth = self.old.depth + 1;
        }) }
    {
        let place = col as usize;
        let low = self.lows.as_slice()[place];
        self.path.push(Branch::High { col, low })?;
        self.lows.set(place, low.max(next));
        Ok(())
    }
}
