use crate::{List, Pair, RowRef};

/// How a cut follows from the rows before it.
#[derive(Debug, Drop)]
pub enum Derivation {
    /// The weighted sum of the parts, divided by the divisor and rounded up.
    Gomory { parts: List<Pair>, divisor: u64 },
    /// Columns of the row, each from 0 to 1, that can't all stand at the end that adds less to its activity.
    Cover { row: RowRef, cols: List<u32> },
}
