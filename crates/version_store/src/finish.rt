ghost use Rattle.std.specs.Prelude.{◌≡◌, IfOk};
ghost use Rattle.stamp_machine.specs.Machine.{slot_after_chunk as slot_after_chunk_of};
ghost use Rattle.version_store.specs.Carriers.{HasBegun};

use crate::{BoardPulse, Playing, RunStory};
use clock_words::{Board, BoardSeat};
use ip_core::OutOfMemory;
use stamp_machine::{Limits, slot_after_chunk};
use std::alloc::Global;
use work_stamp::Tasker;

/// The chunk of a move, whose pulse raises the own clock while it runs, and then one raise to its
/// end. The seat comes back in any case.
pub(crate) fn finish<T: Tasker>(
    alloc: Global,
    board: &Board<RunStory<'_, T>>,
    tasker: &T,
    limits: &Limits,
    seat: BoardSeat,
    begun: Playing<T::View, T::Local>,
    local: T::Local,
) -> (BoardSeat, Result<Playing<T::View, T::Local>, OutOfMemory>)
    requires board { seat.board ≡ board.now }
    requires begun { HasBegun (T.rules tasker.now) (T.fits_view tasker.now) (T.fits_local tasker.now)
        limits.now seat begun local }
    ensures same { record result.0 { own = 0 } ≡ record seat { own = 0 } }
    ensures after { IfOk result.1 (λ after. after ≡
        record begun { slot = slot_after_chunk_of (T.rules tasker.now) begun.slot local }) }
    ensures clock { IfOk result.1 (λ after. result.0.own ≡ after.slot.clock) }
{
    let Playing {
        view,
        merge,
        heard,
        mine,
        slot,
        moves,
    } = begun;
    let mut pulse = BoardPulse::new(board, seat, slot.clock, tasker, &local);
    let outcome = slot_after_chunk(alloc, tasker, slot, local, &mut pulse);
    let mut seat = pulse.into_seat();
    match outcome {
        Ok(slot) => {
            board.raise(&mut seat, slot.clock);
            let playing = Playing {
                view,
                merge,
                heard,
                mine,
                slot,
                moves,
            };
            (seat, Ok(playing))
        }
        Err(error) => (seat, Err(error)),
    }
}
