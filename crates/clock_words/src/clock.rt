//! The clock word of a slot: its stamp in the upper 41 bits, and below the count of its words that
//! are due.
ghost use Rattle.std.specs.Prelude.{◌≡◌, ◌<◌, ◌^◌};
ghost use Rattle.clock_words.specs.Clocks.{clock_word as word_of, due_count as count_of, raised_word as word_after, stamp_of as clock_of};

use crate::END_STAMP;

/// The lower 23 bits of a clock word have the count.
const COUNTS: u64 = 1 << 23;

/// The greatest stamp of the upper 41 bits, which stands for `END_STAMP`.
const LAST: u64 = (1 << 41) - 1;

/// The stamp of a clock word.
pub(crate) fn stamp_of(word: u64) -> u64
    ensures { result ≡ clock_of word }
{
    let stamp = word / COUNTS;
    if stamp < LAST { stamp } else { END_STAMP }
}

/// How many words are due by a clock word.
pub(crate) fn due_count(word: u64) -> u32
    ensures { result ≡ count_of word }
{
    (word % COUNTS) as u32
}

/// The clock word of a stamp and a count.
pub(crate) fn clock_word(stamp: u64, count: u32) -> u64
    requires { count < 2 ^ 23 }
    ensures { result ≡ word_of stamp count }
{
    stamp.min(LAST) * COUNTS + count as u64
}

/// The clock word of a seat with this own one and so many words put, raised to a stamp.
pub(crate) fn raised_word(own: u64, written: u32, stamp: u64) -> u64
    requires { written < 2 ^ 23 }
    ensures { result ≡ word_after own written stamp }
{
    if stamp == stamp_of(own) {
        own
    } else {
        clock_word(stamp, written)
    }
}
