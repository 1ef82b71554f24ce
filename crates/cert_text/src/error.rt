ghost use Rattle.std.specs.Prelude.{◌≡◌};
ghost use Rattle.cert_text.specs.Refusals.{kind_number};

use ip_core::OutOfMemory;
use thiserror::Error;

/// Why a line isn't allowed. Where several kinds apply to one line, the first of them in this order is its kind.
#[derive(Clone, Copy, Debug, PartialEq, Eq)]
pub enum CertKind {
    /// The line has none of the forms of a certificate's lines.
    Form,
    /// A numeral with a needless zero or sign, or outside its range.
    Number,
    /// A line of a form that can't stand here, or a tree that doesn't end at the last node that was announced.
    Order,
    /// The text ends before the line feed of `end`.
    Short,
    /// A byte follows the line `end`.
    Trailing,
}

impl CertKind {
    /// The number of the kind, from 1 to 5 in their order.
    pub fn number(self) -> u32
        ensures { result ≡ kind_number self }
    {
        match self {
            CertKind::Form => 1,
            CertKind::Number => 2,
            CertKind::Order => 3,
            CertKind::Short => 4,
            CertKind::Trailing => 5,
        }
    }
}

/// Why a call gave no certificate: a line of the text refuses it, or want of memory.
#[derive(Clone, Copy, Debug, PartialEq, Eq, Error)]
pub enum CertError {
    /// The first line that isn't allowed, numbered from 1, and why.
    #[error("refused certificate line {line}: {kind:?}")]
    Refused { line: u32, kind: CertKind },
    /// Memory could not be had.
    #[error("out of memory")]
    Memory,
}

impl From<OutOfMemory> for CertError {
    ghost use Rattle.cert_text.specs.declared.error.CertError.TheVariants.{Memory};

    ghost from_gives = { λ _ e. e ≡ Memory };

    fn from(_error: OutOfMemory) -> CertError {
        CertError::Memory
    }
}
