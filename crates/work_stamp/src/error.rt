use ip_core::OutOfMemory;
use thiserror::Error;

/// Why words don't begin with an entry.
#[derive(Clone, Copy, Debug, PartialEq, Eq, Error)]
pub enum WordsError {
    /// There are fewer words than the first one counts, or none at all.
    #[error("the words end within an entry")]
    Short,
    /// There is no such kind of entry.
    #[error("no entry has this kind")]
    Kind,
    /// An entry of this kind doesn't have this number of words.
    #[error("the number of words does not fit the kind of entry")]
    Length,
    /// A number is out of its range.
    #[error("a number is out of its range")]
    Value,
    /// Memory could not be had.
    #[error("out of memory")]
    Memory,
}

impl From<OutOfMemory> for WordsError {
    ghost use Rattle.std.specs.Prelude.{◌≡◌};
    ghost use Rattle.work_stamp.specs.declared.error.WordsError.TheVariants.{Memory};

    ghost from_gives = { λ _ e. e ≡ Memory };

    fn from(_error: OutOfMemory) -> WordsError {
        WordsError::Memory
    }
}
