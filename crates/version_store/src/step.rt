ghost use Rattle.std.specs.Prelude.{◌≡◌, true};
ghost use Rattle.version_store.specs.Advances.{HasSparedLooks, HasStepped, IsSameSeat, advance_of, has_live, moved_outcome, playing_of, stepped};
ghost use Rattle.version_store.specs.Carriers.{IsStanding};

use crate::finish::finish;
use crate::opening::open_move;
use crate::{Advance, Parts, Playing, RunStory, Start, Stepped};
use clock_words::{Board, BoardSeat};
use ip_core::OutOfMemory;
use stamp_machine::Limits;
use std::alloc::Global;
use work_stamp::Tasker;

/// The next move of a slot that lives. The seat comes back in any case.
pub(crate) fn step<T: Tasker>(
    alloc: Global,
    board: &Board<RunStory<'_, T>>,
    tasker: &T,
    limits: &Limits,
    seat: BoardSeat,
    playing: Playing<T::View, T::Local>,
) -> (BoardSeat, Result<Stepped<T::View, T::Local>, OutOfMemory>)
    requires board { seat.board ≡ board.now }
    requires slots { board.now.shape.slots ≡ limits.now.slots }
    requires stands { IsStanding (T.rules tasker.now) (T.fits_view tasker.now) limits.now seat playing }
    requires lives { has_live playing.slot.live ≡ true }
    ensures same { IsSameSeat seat result.0 }
    ensures looks { HasSparedLooks (T.rules tasker.now) limits.now seat result.0 playing }
    ensures step { HasStepped (T.rules tasker.now) (T.fits_view tasker.now) limits.now seat result.0
        playing result.1 }
{
    let mut seat = seat;
    match open_move(alloc, board, tasker, limits, &mut seat, playing) {
        Ok(Start::Done(playing)) => (seat, Ok(after_move(playing))),
        Ok(
            Start::Blocked {
                playing,
                slot,
                clock,
            },
        ) => {
            let advance = Advance::Blocked { slot, clock };
            (seat, Ok(Stepped { playing, advance }))
        }
        Ok(Start::Goes { playing, local }) => {
            let (seat, outcome) = finish(alloc, board, tasker, limits, seat, playing, local);
            (seat, moved(outcome))
        }
        Err(error) => (seat, Err(error)),
    }
}

/// A move that is done without a chunk: the slot waits, or it is over.
fn after_move<V: Drop, L: Drop>(playing: Playing<V, L>) -> Stepped<V, L>
    ensures { result ≡ stepped playing }
{
    let advance = if playing.slot.live.is_some() {
        Advance::Moved
    } else {
        Advance::Ended
    };
    Stepped { playing, advance }
}

/// A move whose chunk is done.
fn moved<V: Drop, L: Drop>(
    outcome: Result<Playing<V, L>, OutOfMemory>,
) -> Result<Stepped<V, L>, OutOfMemory>
    ensures { result ≡ moved_outcome outcome }
{
    Ok(Stepped {
        playing: outcome?,
        advance: Advance::Moved,
    })
}

/// What a carrier is made of after a step, and what the step came to. After want of memory it is
/// broken.
pub(crate) fn settle<V: Drop, L: Drop>(
    seat: BoardSeat,
    outcome: Result<Stepped<V, L>, OutOfMemory>,
) -> (Parts<V, L>, Result<Advance, OutOfMemory>)
    ensures parts { result.0 ≡ record { seat = seat; playing = playing_of outcome } }
    ensures advance { result.1 ≡ advance_of outcome }
{
    match outcome {
        Ok(Stepped { playing, advance }) => {
            let playing = Some(playing);
            (Parts { seat, playing }, Ok(advance))
        }
        Err(error) => {
            let playing = None;
            (Parts { seat, playing }, Err(error))
        }
    }
}
