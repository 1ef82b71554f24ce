ghost use Rattle.std.specs.Prelude.{◌≡◌};
ghost use Rattle.cut_derive.specs.Refusals.{refusal_of};

use crate::Refusal;
use ip_core::OutOfMemory;
use thiserror::Error;

/// Why a call gave no row: a reason that refuses the derivation, or want of memory.
#[derive(Clone, Copy, Debug, PartialEq, Eq, Error)]
pub enum CutError {
    /// A row is neither one of the model nor one of the cuts.
    #[error("a row is neither one of the model nor one of the cuts")]
    UnknownRow,
    /// The divisor is 0 or above 2^62, a weight is 0 or above 2^40, there is no part or no column, there are more than
    /// 256 of them, or they don't rise.
    #[error("a divisor, a weight or the list of rows or columns is out of its range")]
    BadNumbers,
    /// The column, the first such one of those chosen, isn't in the row or isn't one from 0 to 1.
    #[error("column {col} isn't in the row or isn't one from 0 to 1")]
    NotBinary { col: u32 },
    /// The chosen coefficients together aren't above what the row leaves.
    #[error("the columns are no cover of the row")]
    NotCover,
    /// The row would have a width above 2^50.
    #[error("the row is too wide")]
    TooWide,
    /// The row would have more than 256 terms.
    #[error("the row has too many terms")]
    TooLong,
    /// Memory could not be had.
    #[error("out of memory")]
    Memory,
}

impl CutError {
    /// The reason that refuses the derivation, or None for want of memory.
    pub fn refusal(self) -> Option<Refusal>
        ensures { result ≡ refusal_of self }
    {
        match self {
            CutError::UnknownRow => Some(Refusal::UnknownRow),
            CutError::BadNumbers => Some(Refusal::BadNumbers),
            CutError::NotBinary { col } => Some(Refusal::NotBinary { col }),
            CutError::NotCover => Some(Refusal::NotCover),
            CutError::TooWide => Some(Refusal::TooWide),
            CutError::TooLong => Some(Refusal::TooLong),
            CutError::Memory => None,
        }
    }
}

impl From<Refusal> for CutError {
    ghost use Rattle.std.specs.Prelude.{Some};

    ghost from_gives = { λ refusal error. refusal_of error ≡ Some refusal };

    fn from(refusal: Refusal) -> CutError {
        match refusal {
            Refusal::UnknownRow => CutError::UnknownRow,
            Refusal::BadNumbers => CutError::BadNumbers,
            Refusal::NotBinary { col } => CutError::NotBinary { col },
            Refusal::NotCover => CutError::NotCover,
            Refusal::TooWide => CutError::TooWide,
            Refusal::TooLong => CutError::TooLong,
        }
    }
}

impl From<OutOfMemory> for CutError {
    ghost use Rattle.cut_derive.specs.declared.error.CutError.TheVariants.{Memory};

    ghost from_gives = { λ _ e. e ≡ Memory };

    fn from(_error: OutOfMemory) -> CutError {
        CutError::Memory
    }
}
