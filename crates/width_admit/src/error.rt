ghost use Rattle.std.specs.Prelude.{◌≡◌};
ghost use Rattle.width_admit.specs.Refusals.{refusal_of};

use crate::Refusal;
use ip_core::OutOfMemory;
use thiserror::Error;

/// Why a call gave no model: a reason why the model of a file isn't admitted, or want of memory.
#[derive(Clone, Copy, Debug, PartialEq, Eq, Error)]
pub enum AdmitError {
    /// The column isn't integer.
    #[error("column {col} isn't integer")]
    Continuous { col: u32 },
    /// The column has no low, and its high is negative.
    #[error("column {col} has a negative high and no low")]
    NegativeUpper { col: u32 },
    /// The column's low is free, or it has no high and none is given for such columns.
    #[error("column {col} is unbounded")]
    Unbounded { col: u32 },
    /// A bound of the column, once rounded, lies outside -2^31 to 2^31.
    #[error("column {col} has a bound that is too large")]
    BoundTooLarge { col: u32 },
    /// There are more than 4,096 columns.
    #[error("too many columns")]
    TooManyColumns,
    /// There would be more than 4,096 rows of at least.
    #[error("too many rows")]
    TooManyRows,
    /// The rows of at least would have more than 65,536 terms.
    #[error("too many terms")]
    TooManyTerms,
    /// The row has more than 9 decimals.
    #[error("row {row} has too many decimals")]
    RowTooFine { row: u32 },
    /// The row in whole numbers has a width above 2^50.
    #[error("row {row} is too wide")]
    RowTooWide { row: u32 },
    /// The objective has more than 9 decimals, or in whole numbers a width above 2^50.
    #[error("the objective is too wide")]
    ObjectiveTooWide,
    /// Memory could not be had.
    #[error("out of memory")]
    Memory,
}

impl AdmitError {
    /// The reason why the model isn't admitted, or None for want of memory.
    pub fn refusal(self) -> Option<Refusal>
        ensures { result ≡ refusal_of self }
    {
        match self {
            AdmitError::Continuous { col } => Some(Refusal::Continuous { col }),
            AdmitError::NegativeUpper { col } => Some(Refusal::NegativeUpper { col }),
            AdmitError::Unbounded { col } => Some(Refusal::Unbounded { col }),
            AdmitError::BoundTooLarge { col } => Some(Refusal::BoundTooLarge { col }),
            AdmitError::TooManyColumns => Some(Refusal::TooManyColumns),
            AdmitError::TooManyRows => Some(Refusal::TooManyRows),
            AdmitError::TooManyTerms => Some(Refusal::TooManyTerms),
            AdmitError::RowTooFine { row } => Some(Refusal::RowTooFine { row }),
            AdmitError::RowTooWide { row } => Some(Refusal::RowTooWide { row }),
            AdmitError::ObjectiveTooWide => Some(Refusal::ObjectiveTooWide),
            AdmitError::Memory => None,
        }
    }
}

impl From<Refusal> for AdmitError {
    ghost use Rattle.std.specs.Prelude.{Some};

    ghost from_gives = { λ refusal error. refusal_of error ≡ Some refusal };

    fn from(refusal: Refusal) -> AdmitError {
        match refusal {
            Refusal::Continuous { col } => AdmitError::Continuous { col },
            Refusal::NegativeUpper { col } => AdmitError::NegativeUpper { col },
            Refusal::Unbounded { col } => AdmitError::Unbounded { col },
            Refusal::BoundTooLarge { col } => AdmitError::BoundTooLarge { col },
            Refusal::TooManyColumns => AdmitError::TooManyColumns,
            Refusal::TooManyRows => AdmitError::TooManyRows,
            Refusal::TooManyTerms => AdmitError::TooManyTerms,
            Refusal::RowTooFine { row } => AdmitError::RowTooFine { row },
            Refusal::RowTooWide { row } => AdmitError::RowTooWide { row },
            Refusal::ObjectiveTooWide => AdmitError::ObjectiveTooWide,
        }
    }
}

impl From<OutOfMemory> for AdmitError {
    ghost use Rattle.width_admit.specs.declared.error.AdmitError.TheVariants.{Memory};

    ghost from_gives = { λ _ e. e ≡ Memory };

    fn from(_error: OutOfMemory) -> AdmitError {
        AdmitError::Memory
    }
}
