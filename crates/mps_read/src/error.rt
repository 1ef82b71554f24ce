ghost use Rattle.std.specs.Prelude.{◌≡◌};
ghost use Rattle.mps_read.specs.KindNumbers.{kind_number};

use ip_core::OutOfMemory;
use thiserror::Error;

/// Why a line isn't allowed. Where several kinds apply to one line, the first of them in this order is its kind.
#[derive(Clone, Copy, Debug, PartialEq, Eq)]
pub enum MpsKind {
    /// A byte that no line but a comment may hold.
    BadByte,
    /// A section out of order or twice, or a data line where none may stand.
    SectionOrder,
    /// A section line whose first field is no section's name.
    UnknownSection,
    /// Another number of fields than the line's form allows.
    FieldCount,
    /// A numeral of a used line that isn't a decimal.
    Numeral,
    /// A row's type that isn't N, L, G or E.
    RowType,
    /// A bound's type that isn't one of the nine.
    BoundType,
    /// A row's name for the second time.
    RepeatedName,
    /// A row or a column of a used line that isn't known.
    UnknownName,
    /// A second entry of a row in one column, or in the used set of right-hand sides or ranges.
    RepeatedEntry,
    /// A column that returns after another one began.
    SplitColumn,
    /// A marker of neither kind, or a row with the name of markers.
    Marker,
    /// The columns begin without an objective before them.
    NoObjective,
    /// The file ends before its last line.
    NoEndata,
    /// A name of more than 255 bytes.
    LongName,
    /// A sense that is another word, or stands at both places, or at neither.
    Sense,
}

impl MpsKind {
    /// The number of the kind, from 1 to 16 in their order.
    pub fn number(self) -> u32
        ensures { result ≡ kind_number self }
    {
        match self {
            MpsKind::BadByte => 1,
            MpsKind::SectionOrder => 2,
            MpsKind::UnknownSection => 3,
            MpsKind::FieldCount => 4,
            MpsKind::Numeral => 5,
            MpsKind::RowType => 6,
            MpsKind::BoundType => 7,
            MpsKind::RepeatedName => 8,
            MpsKind::UnknownName => 9,
            MpsKind::RepeatedEntry => 10,
            MpsKind::SplitColumn => 11,
            MpsKind::Marker => 12,
            MpsKind::NoObjective => 13,
            MpsKind::NoEndata => 14,
            MpsKind::LongName => 15,
            MpsKind::Sense => 16,
        }
    }
}

/// The first line that isn't allowed, numbered from 1, and why.
#[derive(Clone, Copy, Debug, PartialEq, Eq)]
pub struct MpsRefusal {
    pub line: u32,
    pub kind: MpsKind,
}

/// Why a call gave no model: a line of the file refuses it, or want of memory.
#[derive(Clone, Copy, Debug, PartialEq, Eq, Error)]
pub enum MpsError {
    /// The first line that isn't allowed, numbered from 1, and why.
    #[error("refused mps line {line}: {kind:?}")]
    Refused { line: u32, kind: MpsKind },
    /// Memory could not be had.
    #[error("out of memory")]
    Memory,
}

impl From<OutOfMemory> for MpsError {
    ghost use Rattle.mps_read.specs.declared.error.MpsError.TheVariants.{Memory};

    ghost from_gives = { λ _ e. e ≡ Memory };

    fn from(_error: OutOfMemory) -> MpsError {
        MpsError::Memory
    }
}
