ghost use Rattle.std.specs.Prelude.{◌≡◌};
ghost use Rattle.width_admit.specs.KindNumbers.{index_of, kind_of};

/// The reason why a model of a file isn't admitted. Where several apply, the first in this order decides, and of one
/// reason the first column or row. Columns and rows are numbered from 0 as in the file.
#[derive(Clone, Copy, Debug, PartialEq, Eq)]
pub enum Refusal {
    /// The column isn't integer.
    Continuous { col: u32 },
    /// The column has no low, and its high is negative.
    NegativeUpper { col: u32 },
    /// The column's low is free, or it has no high and none is given for such columns.
    Unbounded { col: u32 },
    /// A bound of the column, once rounded, lies outside -2^31 to 2^31.
    BoundTooLarge { col: u32 },
    /// There are more than 4,096 columns.
    TooManyColumns,
    /// There would be more than 4,096 rows of at least.
    TooManyRows,
    /// The rows of at least would have more than 65,536 terms.
    TooManyTerms,
    /// The row has more than 9 decimals.
    RowTooFine { row: u32 },
    /// The row in whole numbers has a width above 2^50.
    RowTooWide { row: u32 },
    /// The objective has more than 9 decimals, or in whole numbers a width above 2^50.
    ObjectiveTooWide,
}

impl Refusal {
    /// The number of the reason, from 1 to 10 in the order in which they decide.
    pub fn kind(self) -> u8
        ensures { result ≡ kind_of self }
    {
        match self {
            Refusal::Continuous { .. } => 1,
            Refusal::NegativeUpper { .. } => 2,
            Refusal::Unbounded { .. } => 3,
            Refusal::BoundTooLarge { .. } => 4,
            Refusal::TooManyColumns => 5,
            Refusal::TooManyRows => 6,
            Refusal::TooManyTerms => 7,
            Refusal::RowTooFine { .. } => 8,
            Refusal::RowTooWide { .. } => 9,
            Refusal::ObjectiveTooWide => 10,
        }
    }

    /// The column or the row of the reason, numbered from 0, and 0 where the reason has none.
    pub fn index(self) -> u32
        ensures { result ≡ index_of self }
    {
        match self {
            Refusal::Continuous { col }
            | Refusal::NegativeUpper { col }
            | Refusal::Unbounded { col }
            | Refusal::BoundTooLarge { col } => col,
            Refusal::RowTooFine { row } | Refusal::RowTooWide { row } => row,
            Refusal::TooManyColumns
            | Refusal::TooManyRows
            | Refusal::TooManyTerms
            | Refusal::ObjectiveTooWide => 0,
        }
    }
}
