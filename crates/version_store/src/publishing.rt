ghost use Rattle.std.specs.Prelude.{◌≡◌, ◌≤◌, ◌<◌, ◌+◌, length, OnOk};
ghost use Rattle.clock_words.specs.Seats.{IsSeat};
ghost use Rattle.commit_order.specs.Queues.{queue_of};
ghost use Rattle.version_store.specs.Publishing.{CanPublish, CanPut, HasPublished, IsPutting};
ghost use Rattle.work_stamp.specs.Words.{words as words_of};

use clock_words::{Board, BoardSeat, Story};
use commit_order::Merge;
use ip_core::{List, OutOfMemory};
use std::alloc::Global;
use work_stamp::{Entry, Key, Stamped, to_words};

/// Puts entries of the own slot under a key, whose stamp is the own clock, and lets them wait in the
/// own queue.
pub(crate) fn publish<S: Story>(
    alloc: Global,
    board: &Board<S>,
    seat: &mut BoardSeat,
    merge: &mut Merge,
    key: Key,
    entries: List<Entry>,
) -> Result<(), OutOfMemory>
    requires seat { IsSeat board.now seat.old }
    requires can { CanPublish key seat.old entries }
    requires within { key.slot < length merge.old }
    requires last { (queue_of merge.old key.slot).last_stamp ≤ key.stamp }
    ensures putting { IsPutting board.now seat.old seat.new }
    ensures ok { OnOk result (HasPublished key seat.old seat.new merge.old merge.new entries) }
{
    for entry in entries.into_vec() {
        let item = Stamped {
            stamp: key.stamp,
            entry,
        };
        put_entry(alloc, board, seat, &item)?;
        merge.feed(key.slot, item)?;
    }
    Ok(())
}

/// Puts the words of an entry, whose stamp is the own clock.
pub(crate) fn put_entry<S: Story>(
    alloc: Global,
    board: &Board<S>,
    seat: &mut BoardSeat,
    item: &Stamped,
) -> Result<(), OutOfMemory>
    requires seat { IsSeat board.now seat.old }
    requires can { CanPut seat.old item.now }
    ensures putting { IsPutting board.now seat.old seat.new }
    ensures ok { OnOk result (seat.new.written ≡ seat.old.written + length (words_of item.now)) }
{
    let mut words = List::new(alloc);
    to_words(item, &mut words)?;
    board.put(seat, words.as_slice());
    Ok(())
}
