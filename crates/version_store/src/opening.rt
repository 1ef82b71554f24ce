ghost use Rattle.std.specs.Prelude.{◌≡◌, true};
ghost use Rattle.version_store.specs.Advances.{HasOpened, HasSparedLooks, IsSameSeat, has_live};
ghost use Rattle.version_store.specs.Carriers.{IsStanding};

use crate::awaiting::hear_for_move;
use crate::moving::{read_move, unread_move};
use crate::{Playing, RunStory, Start};
use clock_words::{Board, BoardSeat};
use ip_core::OutOfMemory;
use stamp_machine::{Limits, reads_history};
use std::alloc::Global;
use work_stamp::{Key, Tasker};

/// All of a move before its chunk.
pub(crate) fn open_move<T: Tasker>(
    alloc: Global,
    board: &Board<RunStory<'_, T>>,
    tasker: &T,
    limits: &Limits,
    seat: &mut BoardSeat,
    playing: Playing<T::View, T::Local>,
) -> Result<Start<T::View, T::Local>, OutOfMemory>
    requires board { seat.old.board ≡ board.now }
    requires slots { board.now.shape.slots ≡ limits.now.slots }
    requires stands { IsStanding (T.rules tasker.now) (T.fits_view tasker.now) limits.now seat.old
        playing }
    requires lives { has_live playing.slot.live ≡ true }
    ensures same { IsSameSeat seat.old seat.new }
    ensures looks { HasSparedLooks (T.rules tasker.now) limits.now seat.old seat.new playing }
    ensures open { HasOpened (T.rules tasker.now) (T.fits_view tasker.now) (T.fits_local tasker.now)
        limits.now seat.old seat.new playing result }
{
    let key = Key {
        stamp: playing.slot.clock,
        slot: seat.slot(),
    };
    if !reads_history(tasker, limits, &playing.slot) {
        return unread_move(alloc, board, tasker, limits, seat, playing, key);
    }
    let (playing, short) = hear_for_move(alloc, board, tasker, limits, seat, playing, key)?;
    match short {
        Some(short) => Ok(Start::Blocked {
            playing,
            slot: short.slot,
            clock: short.clock,
        }),
        None => read_move(alloc, board, tasker, limits, seat, playing, key),
    }
}
