ghost use Rattle.std.specs.Prelude.{◌≡◌};
ghost use Rattle.stamp_machine.specs.Slots.{key_of};
ghost use Rattle.version_store.specs.Advances.{IsSameSeat};
ghost use Rattle.version_store.specs.Carriers.{seat_clock as seat_clock_of};
ghost use Rattle.version_store.specs.Closing.{HasClosed, IsOpening, opening_of, slot_before};

use crate::publishing::publish;
use crate::{Playing, RunStory, Start};
use clock_words::{Board, BoardSeat, END_STAMP};
use ip_core::{List, OutOfMemory};
use stamp_machine::{Limits, Slot};
use std::alloc::Global;
use work_stamp::{Entry, Key, Tasker};

/// The last part of a move up to its chunk: these entries are published under the move's key, and the
/// move is counted. Where the slot goes on with a local, its chunk comes next. Else the own clock
/// rises to that of the slot, which waits, or to the last stamp, where the slot is over.
pub(crate) fn close_opening<T: Tasker>(
    alloc: Global,
    board: &Board<RunStory<'_, T>>,
    tasker: &T,
    limits: &Limits,
    seat: &mut BoardSeat,
    playing: Playing<T::View, T::Local>,
    key: Key,
    entries: List<Entry>,
    local: Option<T::Local>,
) -> Result<Start<T::View, T::Local>, OutOfMemory>
    requires board { seat.old.board ≡ board.now }
    requires key { key ≡ key_of seat.old.slot (slot_before (T.rules tasker.now) limits.now
        seat.old.slot playing) }
    requires opening { IsOpening (T.rules tasker.now) (T.fits_view tasker.now)
        (T.fits_local tasker.now) limits.now seat.old playing
        (opening_of entries playing.slot local) }
    ensures same { IsSameSeat seat.old seat.new }
    ensures looks { seat.new.looks ≡ seat.old.looks }
    ensures closed { HasClosed (T.rules tasker.now) (T.fits_view tasker.now)
        (T.fits_local tasker.now) limits.now seat.new seat.old.slot playing result }
{
    let mut playing = playing;
    publish(alloc, board, seat, &mut playing.merge, key, entries)?;
    playing.moves += 1;
    match local {
        Some(local) => Ok(Start::Goes { playing, local }),
        None => {
            board.raise(seat, seat_clock(&playing.slot));
            Ok(Start::Done(playing))
        }
    }
}

/// The own clock of a seat whose slot has made a move: the slot's, and the last stamp when the slot
/// is over.
fn seat_clock<L>(slot: &Slot<L>) -> u64
    ensures { result ≡ seat_clock_of slot.now }
{
    match slot.live {
        Some(_) => slot.clock,
        None => END_STAMP,
    }
}
