ghost use Rattle.std.specs.Prelude.{IsErrOf, MatchResult};
ghost use Rattle.xsearch.specs.Shelves.{IsBytesFailure, IsFile, IsOneRead};
ghost use Rattle.xsearch_words.specs.Shelf.{HasNoFault};

use crate::output::Failure;
use ip_core::{List, Text};
use std::alloc::Global;
use xsearch_words::{Shelf, ShelfError};

/// The bytes of the file of this name, which may have so many, or why there are none.
pub fn read_bytes<S: Shelf>(
    alloc: Global,
    name: &Text,
    most: u64,
    shelf: &mut S,
) -> Result<List<u8>, Failure>
    ensures cause { MatchResult result
        (IsFile most (S.state shelf.old) name.now)
        (IsBytesFailure most (S.state shelf.old) (S.state shelf.new) name.now) }
    ensures read { IsOneRead (S.state shelf.old) (S.state shelf.new) }
    ensures quiet { ¬ IsErrOf result Failure.ReadFailed →
        HasNoFault (S.state shelf.old) (S.state shelf.new) }
{
    match shelf.read(alloc, name, most) {
        Ok(bytes) => Ok(bytes),
        Err(ShelfError::Failed) => Err(Failure::ReadFailed),
        Err(ShelfError::TooLong) => Err(Failure::Length),
        Err(ShelfError::Memory) => Err(Failure::Memory),
    }
}
