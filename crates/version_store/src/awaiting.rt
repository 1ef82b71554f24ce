ghost use Rattle.std.specs.Prelude.{◌≡◌, true, IfOk};
ghost use Rattle.stamp_machine.specs.Merges.{reads};
ghost use Rattle.stamp_machine.specs.Slots.{key_of};
ghost use Rattle.version_store.specs.Advances.{HasSparedLooks, IsSameSeat};
ghost use Rattle.version_store.specs.Awaiting.{HasAwaited};
ghost use Rattle.version_store.specs.Carriers.{IsStanding};

use crate::hearing_all::{Short, hear_all};
use crate::{Playing, RunStory};
use clock_words::{Board, BoardSeat};
use ip_core::OutOfMemory;
use stamp_machine::Limits;
use std::alloc::Global;
use work_stamp::{Key, Tasker};

/// Hears the other slots as far as the slot's next move asks, which reads the history and has this
/// key. A slot of which too little was heard is told.
pub(crate) fn hear_for_move<T: Tasker>(
    alloc: Global,
    board: &Board<RunStory<'_, T>>,
    tasker: &T,
    limits: &Limits,
    seat: &mut BoardSeat,
    playing: Playing<T::View, T::Local>,
    key: Key,
) -> Result<(Playing<T::View, T::Local>, Option<Short>), OutOfMemory>
    requires board { seat.old.board ≡ board.now }
    requires slots { board.now.shape.slots ≡ limits.now.slots }
    requires stands { IsStanding (T.rules tasker.now) (T.fits_view tasker.now) limits.now seat.old
        playing }
    requires reading { reads (T.rules tasker.now) limits.now playing.slot ≡ true }
    requires key { key ≡ key_of seat.old.slot playing.slot }
    ensures same { IsSameSeat seat.old seat.new }
    ensures looks { HasSparedLooks (T.rules tasker.now) limits.now seat.old seat.new playing }
    ensures heard { IfOk result (λ after. HasAwaited (T.rules tasker.now) (T.fits_view tasker.now)
        limits.now seat.old seat.new playing after.0 after.1) }
{
    let mut playing = playing;
    let found = hear_all(
        alloc,
        board,
        tasker,
        limits,
        seat,
        &mut playing.merge,
        &mut playing.heard,
        key,
    )?;
    Ok((playing, found))
}
