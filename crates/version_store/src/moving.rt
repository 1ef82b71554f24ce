ghost use Rattle.std.specs.Prelude.{◌≡◌, false, true};
ghost use Rattle.stamp_machine.specs.Merges.{reads};
ghost use Rattle.stamp_machine.specs.Slots.{key_of};
ghost use Rattle.version_store.specs.Advances.{IsSameSeat, has_live};
ghost use Rattle.version_store.specs.Carriers.{IsStanding};
ghost use Rattle.version_store.specs.Closing.{HasClosed, opening_of, slot_before};
ghost use Rattle.version_store.specs.Hearing.{IsAllEnough};
ghost use Rattle.version_store.specs.Moving.{CanBegin, HasMoved};

use crate::absorbing::absorb_below;
use crate::closing::close_opening;
use crate::joining::join;
use crate::{Playing, RunStory, Start};
use clock_words::{Board, BoardSeat};
use ip_core::OutOfMemory;
use stamp_machine::{Limits, Opening, Turn, pending_opening, task_opening};
use std::alloc::Global;
use work_stamp::{Key, Tasker};

/// The next move of a slot that lives, up to its chunk, where the move doesn't read the history.
/// What is pending joins, and the slot goes on with its task. Or a limit ends the slot.
pub(crate) fn unread_move<T: Tasker>(
    alloc: Global,
    board: &Board<RunStory<'_, T>>,
    tasker: &T,
    limits: &Limits,
    seat: &mut BoardSeat,
    playing: Playing<T::View, T::Local>,
    key: Key,
) -> Result<Start<T::View, T::Local>, OutOfMemory>
    requires board { seat.old.board ≡ board.now }
    requires stands { IsStanding (T.rules tasker.now) (T.fits_view tasker.now) limits.now seat.old
        playing }
    requires lives { has_live playing.slot.live ≡ true }
    requires unread { reads (T.rules tasker.now) limits.now playing.slot ≡ false }
    requires key { key ≡ key_of seat.old.slot playing.slot }
    ensures same { IsSameSeat seat.old seat.new }
    ensures looks { seat.new.looks ≡ seat.old.looks }
    ensures moved { HasMoved (T.rules tasker.now) (T.fits_view tasker.now) (T.fits_local tasker.now)
        limits.now seat.new seat.old.slot playing result }
{
    let mut playing = playing;
    let opening = pending_opening(alloc, limits, playing.slot)?;
    let (Turn { entries, slot }, local) = opening_parts(opening);
    playing.slot = slot;
    close_opening(
        alloc, board, tasker, limits, seat, playing, key, entries, local,
    )
}

/// The next move of a slot that lives, up to its chunk, where the move reads the history and enough
/// was heard of each other slot. What lies below the key is absorbed, then what is pending joins,
/// and then the slot, which is between tasks, begins by what it sees.
pub(crate) fn read_move<T: Tasker>(
    alloc: Global,
    board: &Board<RunStory<'_, T>>,
    tasker: &T,
    limits: &Limits,
    seat: &mut BoardSeat,
    playing: Playing<T::View, T::Local>,
    key: Key,
) -> Result<Start<T::View, T::Local>, OutOfMemory>
    requires board { seat.old.board ≡ board.now }
    requires stands { IsStanding (T.rules tasker.now) (T.fits_view tasker.now) limits.now seat.old
        playing }
    requires lives { has_live playing.slot.live ≡ true }
    requires reading { reads (T.rules tasker.now) limits.now playing.slot ≡ true }
    requires key { key ≡ key_of seat.old.slot playing.slot }
    requires enough { IsAllEnough limits.now.slots key playing.heard }
    ensures same { IsSameSeat seat.old seat.new }
    ensures looks { seat.new.looks ≡ seat.old.looks }
    ensures moved { HasMoved (T.rules tasker.now) (T.fits_view tasker.now) (T.fits_local tasker.now)
        limits.now seat.new seat.old.slot playing result }
{
    let mut playing = absorb_below(alloc, tasker, limits, playing, key)?;
    let opening = pending_opening(alloc, limits, playing.slot)?;
    let (Turn { entries, slot }, local) = opening_parts(opening);
    // No limit ends a move that reads the history.
    let local = local.unwrap();
    playing.slot = slot;
    let playing = join(alloc, board, tasker, seat, playing, key, entries)?;
    begin_task(alloc, board, tasker, limits, seat, playing, key, local)
}

/// What a slot between tasks does on the view, up to the chunk of a task that it takes.
fn begin_task<T: Tasker>(
    alloc: Global,
    board: &Board<RunStory<'_, T>>,
    tasker: &T,
    limits: &Limits,
    seat: &mut BoardSeat,
    playing: Playing<T::View, T::Local>,
    key: Key,
    local: T::Local,
) -> Result<Start<T::View, T::Local>, OutOfMemory>
    requires board { seat.old.board ≡ board.now }
    requires key { key ≡ key_of seat.old.slot (slot_before (T.rules tasker.now) limits.now
        seat.old.slot playing) }
    requires can { CanBegin (T.rules tasker.now) (T.fits_view tasker.now) (T.fits_local tasker.now)
        limits.now seat.old playing local }
    ensures same { IsSameSeat seat.old seat.new }
    ensures looks { seat.new.looks ≡ seat.old.looks }
    ensures closed { HasClosed (T.rules tasker.now) (T.fits_view tasker.now)
        (T.fits_local tasker.now) limits.now seat.new seat.old.slot playing result }
{
    let mut playing = playing;
    let slot = playing.slot;
    let opening = task_opening(alloc, tasker, limits, &playing.view, slot, local)?;
    let (Turn { entries, slot }, local) = opening_parts(opening);
    playing.slot = slot;
    close_opening(
        alloc, board, tasker, limits, seat, playing, key, entries, local,
    )
}

/// What joins, with the slot, and the local with which it goes on.
fn opening_parts<L: Drop>(opening: Opening<L>) -> (Turn<L>, Option<L>)
    ensures { opening_of result.0.entries result.0.slot result.1 ≡ opening }
{
    match opening {
        Opening::Done(turn) => (turn, None),
        Opening::Goes { turn, local } => (turn, Some(local)),
    }
}
