ghost use Rattle.std.specs.Prelude.{◌≡◌, ◌≤◌, ◌+◌};
ghost use Rattle.clock_words.specs.Seats.{IsSeat};
ghost use Rattle.version_store.specs.Pulses.{IsReadyPulse, PulseView, allowance_of, pulse_view, rest_of};

use clock_words::{Board, BoardSeat, Story};
use std::marker::Model;
use std::snapshot::Snapshot;
use work_stamp::{Pulse, Tasker};

/// The pulse of a carrier's chunk, which holds the carrier's seat while the chunk runs. Work that it
/// is told of raises the seat's own clock. Contracts see the seat, and the clock after the move. No
/// call takes memory or waits.
#[derive(Drop)]
pub struct BoardPulse<'a, S: Story, T: Tasker> {
    board: &'a Board<S>,
    seat: BoardSeat,
    /// The seat's own clock.
    clock: u64,
    /// The clock at which the chunk begins.
    start: Snapshot<u64>,
    tasker: Snapshot<T>,
    /// The local at which the chunk begins.
    local: Snapshot<T::Local>,
}

impl<'a, S: Story, T: Tasker> Model for BoardPulse<'a, S, T> {
    ghost use Rattle.version_store.specs.Pulses.{IsAtClock, PulseView, pulse_view};

    ghost Value = { PulseView };

    ghost view = { λ p. pulse_view (T.rules p.tasker.value) p.start.value p.local.value p.seat };

    ghost invariant = { λ p. IsAtClock p.board.now p.clock p.seat };
}

impl<'a, S: Story, T: Tasker> BoardPulse<'a, S, T> {
    /// The pulse of a chunk at this local, which begins at the own clock of a seat of this board.
    /// Its allowance is the work of the chunk.
    pub fn new(
        board: &'a Board<S>,
        seat: BoardSeat,
        clock: u64,
        tasker: &T,
        local: &T::Local,
    ) -> BoardPulse<'a, S, T>
        requires seat { IsSeat board.now seat }
        requires clock { seat.own ≡ clock }
        ensures { result ≡ pulse_view (T.rules tasker.now) clock local.now seat }
    {
        BoardPulse {
            board,
            seat,
            clock,
            start: Snapshot::of(&clock),
            tasker: Snapshot::of(tasker),
            local: Snapshot::of(local),
        }
    }

    /// The seat.
    pub fn into_seat(self) -> BoardSeat
        ensures { result ≡ self.entry.seat }
    {
        let BoardPulse { seat, .. } = self;
        seat
    }
}

impl<'a, S: Story, T: Tasker> Pulse for BoardPulse<'a, S, T> {
    ghost Rest = { PulseView };

    ghost allowance = { allowance_of };

    ghost IsReady = { IsReadyPulse };

    ghost rest = { rest_of };

    /// Raises the own clock by the work.
    #[tactic(auto, using(crate::proofs::Pulses::put_within_allowance))]
    fn tick(&mut self, work: u64)
        requires ready { IsReadyPulse self.old }
        requires allowed { work ≤ allowance_of self.old }
        ensures clock { self.new.seat.own ≡ self.old.seat.own + work }
        ensures allowance { allowance_of self.new + work ≡ allowance_of self.old }
        ensures rest { rest_of self.new ≡ rest_of self.old }
        ensures ready { IsReadyPulse self.new }
    {
        self.clock += work;
        self.board.raise(&mut self.seat, self.clock);
    }
}
