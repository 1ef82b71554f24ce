use crate::CertNode;
use ip_core::{Derivation, List, Point};

/// What shows that a point is best, or that no point is feasible.
#[derive(Debug, Drop)]
pub struct Certificate {
    /// The number of the model's columns.
    pub cols: u32,
    /// The number of the model's rows.
    pub rows: u32,
    /// The value of the point, without the model's constant; and without a point one more than the greatest value on
    /// the root box.
    pub value: i64,
    /// The best point, or None where no point is feasible.
    pub point: Option<Point>,
    /// How each cut follows from the rows and cuts before it.
    pub cuts: List<Derivation>,
    /// The nodes of the tree in preorder, the low child first.
    pub nodes: List<CertNode>,
}
