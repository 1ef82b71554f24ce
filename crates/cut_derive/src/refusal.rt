/// The reason why a derivation gives no row. Where several apply, the first in this order decides.
#[derive(Clone, Copy, Debug, PartialEq, Eq)]
pub enum Refusal {
    /// A row is neither one of the model nor one of the cuts.
    UnknownRow,
    /// The divisor is 0 or above 2^62, a weight is 0 or above 2^40, there is no part or no column, there are more than
    /// 256 of them, or they don't rise.
    BadNumbers,
    /// The column, the first such one of those chosen, isn't in the row or isn't one from 0 to 1.
    NotBinary { col: u32 },
    /// The chosen coefficients together aren't above what the row leaves.
    NotCover,
    /// The row would have a width above 2^50.
    TooWide,
    /// The row would have more than 256 terms.
    TooLong,
}
