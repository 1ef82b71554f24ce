ghost use Rattle.std.specs.Prelude.{◌^◌};

/// The clock of a slot that will put no more words: above every stamp of a word.
pub const END_STAMP: u64 = 1 << 62;

/// A word of a slot, with the clock at which it is put.
#[derive(Clone, Copy, Debug)]
pub struct StampedWord {
    pub stamp: u64,
    pub word: u64,
}

/// What the slots of a board put, known to contracts alone: for each slot one finite list of words
/// with stamps that don't fall. The words of a slot that are due below a stamp are those in front
/// with a smaller one.
pub trait Story {
    ghost use Rattle.clock_words.specs.Stories.{AreRising, Lists};

    /// The words of each slot.
    ghost lists: { Self → Lists };

    /// The stamps of no slot fall.
    ghost rising: { (story : Self) → AreRising (lists story) };
}
