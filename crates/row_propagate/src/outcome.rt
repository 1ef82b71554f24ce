ghost use Rattle.std.specs.Prelude.{◌≡◌};
ghost use Rattle.row_propagate.specs.Passes.{is_open};

use ip_core::RowRef;

/// What passes have shown of a box.
#[derive(Clone, Copy, Debug, PartialEq, Eq)]
pub enum Outcome {
    /// Nothing has closed the box.
    Open,
    /// The row's greatest activity over the box is below its `least`.
    Conflict(RowRef),
    /// The column's low is above its high.
    Empty(u32),
}

impl Outcome {
    /// Whether nothing has closed the box.
    pub fn is_open(self) -> bool
        ensures { result ≡ is_open self }
    {
        matches!(self, Outcome::Open)
    }
}

/// How passes ended, how many were begun, and what they count: each the number of terms of all rows plus 1.
#[derive(Clone, Copy, Debug, PartialEq, Eq)]
pub struct PassRun {
    pub outcome: Outcome,
    pub passes: u32,
    pub work: u64,
}
