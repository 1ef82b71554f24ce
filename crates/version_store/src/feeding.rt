ghost use Rattle.std.specs.Prelude.{◌≡◌, ◌≤◌, ◌^◌, ◌++◌, length, IfOk, OnOk};
ghost use Rattle.ip_core.specs.Seq.{Seq};
ghost use Rattle.version_store.specs.Hearing.{BeginsWith, CanFeed, after_feeds};
ghost use Rattle.work_stamp.specs.Words.{words as words_of};
ghost use Rattle.work_stamp.specs.declared.error.WordsError.TheVariants.{Memory};
ghost use Rattle.work_stamp.specs.declared.stamped.Stamped.{Stamped};

use commit_order::Merge;
use ip_core::OutOfMemory;
use std::alloc::Global;
use work_stamp::{WordRead, WordsError, read_words};

/// Feeds a merge with the entries of a slot that words hold.
pub(crate) fn feed_words(
    alloc: Global,
    merge: &mut Merge,
    slot: u32,
    words: &[u64],
) -> Result<(), OutOfMemory>
    requires can { (items : Seq Stamped) × CanFeed merge.old slot words.now items }
    requires short { length words.now ≤ 2 ^ 30 }
    ensures { (items : Seq Stamped) → CanFeed merge.old slot words.now items →
        OnOk result (merge.new ≡ after_feeds merge.old slot items) }
{
    let mut left = words;
    while !left.is_empty() {
        let read = first_entry(alloc, left)?;
        let (_, rest) = left.split_at(read.used as usize);
        merge.feed(slot, read.item)?;
        left = rest;
    }
    Ok(())
}

/// Reads the entry that begins words.
fn first_entry(alloc: Global, words: &[u64]) -> Result<WordRead, OutOfMemory>
    requires begins { (item : Stamped) × BeginsWith item words.now }
    requires short { length words.now ≤ 2 ^ 30 }
    ensures { (item : Stamped) → BeginsWith item words.now →
        IfOk result (λ read. read ≡ record { item = item; used = length (words_of item) }) }
{
    match read_words(alloc, words) {
        Ok(read) => Ok(read),
        Err(error) => Err(want_of_memory(error)),
    }
}

/// Words of an entry are refused for want of memory alone.
fn want_of_memory(_error: WordsError) -> OutOfMemory
    requires { _error ≡ Memory }
{
    OutOfMemory
}
