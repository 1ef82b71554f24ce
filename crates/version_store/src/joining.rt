ghost use Rattle.std.specs.Prelude.{IfOk};
ghost use Rattle.clock_words.specs.Seats.{IsSeat};
ghost use Rattle.version_store.specs.Publishing.{CanJoinAll, CanPublish, HasJoined, IsPutting};

use crate::Playing;
use crate::publishing::put_entry;
use clock_words::{Board, BoardSeat, Story};
use ip_core::{List, OutOfMemory};
use std::alloc::Global;
use work_stamp::{Entry, Key, KeyedEntry, Stamped, Tasker};

/// Puts entries of the own slot under a key, whose stamp is the own clock, and absorbs them. All that
/// lies below the key was absorbed.
pub(crate) fn join<T: Tasker, S: Story>(
    alloc: Global,
    board: &Board<S>,
    tasker: &T,
    seat: &mut BoardSeat,
    playing: Playing<T::View, T::Local>,
    key: Key,
    entries: List<Entry>,
) -> Result<Playing<T::View, T::Local>, OutOfMemory>
    requires seat { IsSeat board.now seat.old }
    requires can { CanPublish key seat.old entries }
    requires grow { CanJoinAll (T.rules tasker.now) (T.fits_view tasker.now)
        (T.may_follow tasker.now) playing.view key entries }
    ensures putting { IsPutting board.now seat.old seat.new }
    ensures ok { IfOk result (λ after. HasJoined (T.rules tasker.now) key seat.old seat.new playing
        after entries) }
{
    let mut playing = playing;
    for entry in entries.into_vec() {
        let item = Stamped {
            stamp: key.stamp,
            entry,
        };
        put_entry(alloc, board, seat, &item)?;
        tasker.absorb(alloc, &mut playing.view, key, &item.entry)?;
        playing.mine.push(KeyedEntry {
            key,
            entry: item.entry,
        })?;
    }
    Ok(playing)
}
