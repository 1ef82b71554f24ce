ghost use Rattle.std.specs.Prelude.{◌≡◌};
ghost use Rattle.work_stamp.specs.Reads.{kind_of as kind_of_word};

use crate::WordsError;

/// The kinds of entries, numbered from 1 in this order.
#[derive(Clone, Copy, Debug, PartialEq, Eq)]
pub enum Kind {
    Start,
    CutStart,
    HeurStart,
    Done,
    Found,
    Cut,
    Split,
    Closed,
    Halt,
}

/// The kind of a number.
pub fn kind_of(word: u64) -> Result<Kind, WordsError>
    ensures { result ≡ kind_of_word word }
{
    match word {
        1 => Ok(Kind::Start),
        2 => Ok(Kind::CutStart),
        3 => Ok(Kind::HeurStart),
        4 => Ok(Kind::Done),
        5 => Ok(Kind::Found),
        6 => Ok(Kind::Cut),
        7 => Ok(Kind::Split),
        8 => Ok(Kind::Closed),
        9 => Ok(Kind::Halt),
        _ => Err(WordsError::Kind),
    }
}
