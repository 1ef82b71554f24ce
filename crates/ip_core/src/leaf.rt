use crate::{List, RowRef};

/// A real tightening: the column's low was raised by the row, or else its high was lowered by it.
#[derive(Clone, Copy, Debug, PartialEq, Eq)]
pub struct Tighten {
    pub row: RowRef,
    pub col: u32,
    pub low: bool,
}

/// A row with its weight in a weighted sum of rows.
#[derive(Clone, Copy, Debug, PartialEq, Eq)]
pub struct Pair {
    pub row: RowRef,
    pub weight: u64,
}

/// What closes a box.
#[derive(Debug, Drop)]
pub enum Closing {
    /// The row's greatest activity over the box is below what it asks.
    Conflict(RowRef),
    /// The column's low is above its high.
    Empty(u32),
    /// The weighted sum of these rows bounds the value of every feasible point of the box.
    Bound(List<Pair>),
}

/// Why a box is done with: the tightenings of the box in order, and what then closes it.
#[derive(Debug, Drop)]
pub struct Leaf {
    pub steps: List<Tighten>,
    pub closing: Closing,
}

/// A closed node by its name, with the reason.
#[derive(Debug, Drop)]
pub struct Record {
    pub node: u64,
    pub leaf: Leaf,
}
