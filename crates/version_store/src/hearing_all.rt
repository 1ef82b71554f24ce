ghost use Rattle.std.specs.Prelude.{◌≡◌, ◌≤◌, ◌<◌, length};
ghost use Rattle.stamp_machine.specs.Limits.{AreLimits};
ghost use Rattle.stamp_machine.specs.Machine.{final};
ghost use Rattle.version_store.specs.Hearing.{CanHearAll, HasHeardAll, is_enough as is_enough_of};
ghost use Rattle.version_store.specs.Stories.{run_lists};
ghost use Rattle.clock_words.specs.Seats.{IsSeat};

use crate::hearing::hear;
use crate::{Heard, RunStory};
use clock_words::{Board, BoardSeat};
use commit_order::Merge;
use ip_core::{List, OutOfMemory};
use stamp_machine::Limits;
use std::alloc::Global;
use work_stamp::{Key, Tasker};

/// A slot of which too little was heard, and the clock found.
#[derive(Clone, Copy, Debug)]
pub(crate) struct Short {
    pub slot: u32,
    pub clock: u64,
}

/// Hears the other slots up to a key, each of which the clock heard is not enough yet. None where
/// enough was heard of each.
pub(crate) fn hear_all<T: Tasker>(
    alloc: Global,
    board: &Board<RunStory<'_, T>>,
    tasker: &T,
    limits: &Limits,
    seat: &mut BoardSeat,
    merge: &mut Merge,
    heard: &mut List<Heard>,
    key: Key,
) -> Result<Option<Short>, OutOfMemory>
    requires ranges { AreLimits limits.now }
    requires story { board.now.story ≡ run_lists (T.rules tasker.now) limits.now }
    requires slots { board.now.shape.slots ≡ limits.now.slots }
    requires seat { IsSeat board.now seat.old }
    requires can { CanHearAll (final (T.rules tasker.now) limits.now).entries limits.now.slots
        key.slot seat.old merge.old heard.old }
    ensures heard { HasHeardAll (final (T.rules tasker.now) limits.now).entries limits.now.slots key
        seat.old seat.new merge.old merge.new heard.old heard.new result }
{
    for slot in 0..limits.slots {
        if slot != key.slot && !is_enough(key, slot, heard.as_slice()[slot as usize].clock) {
            let clock = hear(alloc, board, tasker, limits, seat, merge, heard, slot)?;
            if !is_enough(key, slot, clock) {
                return Ok(Some(Short { slot, clock }));
            }
        }
    }
    Ok(None)
}

/// Whether a clock of another slot is enough for a move of this key: it is above the stamp for a
/// smaller slot, and at least the stamp for a larger one.
fn is_enough(key: Key, other: u32, clock: u64) -> bool
    ensures { result ≡ is_enough_of key other clock }
{
    if other < key.slot {
        key.stamp < clock
    } else {
        key.stamp <= clock
    }
}
