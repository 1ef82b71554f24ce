ghost use Rattle.std.specs.Prelude.{◌≡◌};
ghost use Rattle.node_pool.specs.BoundChanges.{with_change, with_changes};

use ip_core::Bounds;

/// A change of one end of one column.
#[derive(Clone, Copy, Debug, PartialEq, Eq)]
pub enum BoundChange {
    /// The column's high is lowered to this number, where that is narrower.
    High { col: u32, high: i64 },
    /// The column's low is raised to this number, where that is narrower.
    Low { col: u32, low: i64 },
}

impl BoundChange {
    /// Makes the change. A box without the column stays.
    pub fn apply(self, bounds: &mut Bounds)
        ensures { bounds.new ≡ with_change self bounds.old }
    {
        match self {
            BoundChange::High { col, high } => {
                if (col as usize) < bounds.highs().len() {
                    bounds.cut_high(col, high);
                }
            }
            BoundChange::Low { col, low } => {
                if (col as usize) < bounds.lows().len() {
                    bounds.cut_low(col, low);
                }
            }
        }
    }
}

/// Makes all changes, the last first.
pub fn apply_all(changes: &[BoundChange], bounds: &mut Bounds)
    ensures { bounds.new ≡ with_changes changes.now bounds.old }
{
    let mut left = changes.len();
    while 0 < left {
        left -= 1;
        changes[left].apply(bounds);
    }
}
