ghost use Rattle.std.specs.Prelude.{◌≡◌, ◌≤◌, ◌<◌, ◌+◌, length, replicate, take, drop, IfOk};
ghost use Rattle.clock_words.specs.Seats.{IsSeat, clock_seen, due_seen, with_fetch};
ghost use Rattle.clock_words.specs.Stories.{list_of, words_of};
ghost use Rattle.stamp_machine.specs.Limits.{AreLimits};
ghost use Rattle.stamp_machine.specs.Machine.{final};
ghost use Rattle.version_store.specs.Carriers.{clock_heard};
ghost use Rattle.version_store.specs.Hearing.{CanHear, HasFetchedAt, HasHeard, HasHeardMore};
ghost use Rattle.version_store.specs.Stories.{run_lists};

use crate::feeding::feed_words;
use crate::{Heard, RunStory};
use clock_words::{Board, BoardSeat, Story};
use commit_order::Merge;
use ip_core::{List, OutOfMemory};
use stamp_machine::Limits;
use std::alloc::Global;
use work_stamp::Tasker;

/// Looks at a slot, and fetches its words that are due below the clock found. The answer is that
/// clock.
pub(crate) fn hear<T: Tasker>(
    alloc: Global,
    board: &Board<RunStory<'_, T>>,
    tasker: &T,
    limits: &Limits,
    seat: &mut BoardSeat,
    merge: &mut Merge,
    heard: &mut List<Heard>,
    slot: u32,
) -> Result<u64, OutOfMemory>
    requires ranges { AreLimits limits.now }
    requires story { board.now.story ≡ run_lists (T.rules tasker.now) limits.now }
    requires slots { board.now.shape.slots ≡ limits.now.slots }
    requires slot { slot < limits.now.slots }
    requires seat { IsSeat board.now seat.old }
    requires can { CanHear (final (T.rules tasker.now) limits.now).entries limits.now.slots slot
        seat.old merge.old heard.old }
    ensures heard { HasHeard slot seat.old seat.new }
    ensures more { IfOk result (λ clock. HasHeardMore
        (final (T.rules tasker.now) limits.now).entries slot seat.old seat.new merge.old merge.new
        heard.old heard.new clock) }
{
    let clock = board.look(seat, slot);
    let count = seat.due(slot);
    let from = heard.as_slice()[slot as usize].count;
    let words = fetched_words(alloc, board, seat, slot, from, count - from)?;
    feed_words(alloc, merge, slot, words.as_slice())?;
    heard.set(slot as usize, Heard { clock, count });
    Ok(clock)
}

/// Words of a slot from a place on, which are due below the clock seen.
fn fetched_words<S: Story>(
    alloc: Global,
    board: &Board<S>,
    seat: &mut BoardSeat,
    slot: u32,
    from: u32,
    count: u32,
) -> Result<Vec<u64>, OutOfMemory>
    requires seat { IsSeat board.now seat.old }
    requires slot { slot < board.now.shape.slots }
    requires are_due { from + count ≤ due_seen seat.old slot }
    ensures seat { HasFetchedAt board.now slot count seat.old seat.new result }
    ensures words { IfOk result (λ words. words.items ≡
        take count (drop from (words_of (list_of board.now.story slot)))) }
{
    let mut words = zero_words(alloc, count)?;
    board.fetch(seat, slot, from, words.as_mut_slice());
    Ok(words)
}

/// So many zeros.
fn zero_words(alloc: Global, count: u32) -> Result<Vec<u64>, OutOfMemory>
    ensures { IfOk result (λ words. words.items ≡ replicate count 0) }
{
    let mut words = Vec::with_capacity(alloc, count as usize)?;
    for _ in 0..count {
        words.push(0)?;
    }
    Ok(words)
}
