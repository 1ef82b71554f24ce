ghost use Rattle.std.specs.Prelude.{◌≡◌, ◌<◌, false, true, IfOk, None, Some};
ghost use Rattle.clock_words.specs.Seats.{IsSeat};
ghost use Rattle.stamp_machine.specs.Limits.{AreLimits};
ghost use Rattle.stamp_machine.specs.Slots.{fresh_slot};
ghost use Rattle.version_store.specs.Advances.{HasAdvanced, IsSameRun, clock_of, has_ended, lives};
ghost use Rattle.version_store.specs.Carriers.{IsStandingWhileWhole};
ghost use Rattle.version_store.specs.Stories.{run_lists};

use crate::fresh::fresh_playing;
use crate::step::{settle, step};
use crate::{Advance, Parts, Playing, RunStory};
use clock_words::{Board, BoardSeat};
use ip_core::OutOfMemory;
use stamp_machine::Limits;
use std::alloc::Global;
use std::marker::Model;
use std::snapshot::Snapshot;
use work_stamp::Tasker;

/// A slot that plays its moves beside others. Contracts see its run, which is its tasker and limits,
/// its seat, and what it works with; nothing of that where it is broken, which it is exactly after an
/// advance that found no memory. Its type keeps that a carrier which isn't broken stands at some move
/// of its run, or at its slot's end.
#[derive(Drop)]
pub struct Carrier<T: Tasker> {
    tasker: Snapshot<T>,
    limits: Limits,
    /// They are there between two calls.
    parts: Option<Parts<T::View, T::Local>>,
}

impl<T: Tasker> Model for Carrier<T> {
    ghost use Rattle.version_store.specs.Carriers.{CarrierView, IsCarrier, carrier_view};

    ghost Value = { CarrierView T T.View T.Local };

    ghost view = { λ c. carrier_view c.tasker.value c.limits c.parts };

    ghost invariant = { λ c. IsCarrier (T.rules c.tasker.value) (T.fits_view c.tasker.value)
        c.limits c.parts };
}

impl<T: Tasker> Carrier<T> {
    /// The slot that the carrier's seat owns. It takes no memory.
    pub fn slot(&self) -> u32
        ensures { result ≡ self.now.seat.slot }
    {
        match &self.parts {
            Some(parts) => parts.seat.slot(),
            None => 0,
        }
    }

    /// The slot's count of work, 0 where the carrier is broken. It takes no memory.
    pub fn clock(&self) -> u64
        ensures { result ≡ clock_of self.now }
    {
        match &self.parts {
            Some(parts) => parts.clock(),
            None => 0,
        }
    }

    /// Whether the carrier stands at its slot's end. It takes no memory.
    pub fn is_ended(&self) -> bool
        ensures { result ≡ has_ended self.now }
    {
        match &self.parts {
            Some(parts) => parts.is_ended(),
            None => false,
        }
    }

    /// Whether the carrier has a move to make: it isn't broken, and its slot isn't over. It takes no
    /// memory.
    pub fn lives(&self) -> bool
        ensures { result ≡ lives self.now }
    {
        match &self.parts {
            Some(parts) => parts.lives(),
            None => false,
        }
    }

    /// Calls the stop with the carrier's seat, which is one of this board's. A broken carrier may
    /// call it too. Nothing else changes, and it takes no memory.
    pub fn call_stop(&mut self, board: &Board<RunStory<'_, T>>)
        requires { self.old.seat.board ≡ board.now }
        ensures { self.new ≡
            record self.old { seat = record self.old.seat { stop = true } } }
    {
        if let Some(parts) = &mut self.parts {
            board.call_stop(&mut parts.seat);
        }
    }

    /// Whether a stop was called, by the carrier's seat, which is one of this board's. Nothing but
    /// its stop mark changes, and it takes no memory.
    pub fn stop_seen(&mut self, board: &Board<RunStory<'_, T>>) -> bool
        requires { self.old.seat.board ≡ board.now }
        ensures view { self.new ≡
            record self.old { seat = record self.old.seat { stop = result } } }
        ensures stays { self.old.seat.stop ≡ true → result ≡ true }
    {
        match &mut self.parts {
            Some(parts) => board.stop_seen(&mut parts.seat),
            None => false,
        }
    }

    /// A carrier before its slot's first move. The seat is one of a board with the words of this run,
    /// its own clock is 0, it has put no word, and its slot is one of the limits' slots.
    pub fn new(
        alloc: Global,
        tasker: &T,
        limits: &Limits,
        seat: BoardSeat,
    ) -> Result<Carrier<T>, OutOfMemory>
        requires ranges { AreLimits limits.now }
        requires seat { IsSeat seat.board seat }
        requires lists { seat.board.story ≡ run_lists (T.rules tasker.now) limits.now }
        requires slot { seat.slot < limits.now.slots }
        requires clock { seat.own ≡ 0 }
        requires none_put { seat.written ≡ 0 }
        ensures tasker { IfOk result (λ carrier. carrier.tasker ≡ tasker.now) }
        ensures limits { IfOk result (λ carrier. carrier.limits ≡ limits.now) }
        ensures seat { IfOk result (λ carrier. carrier.seat ≡ seat) }
        ensures lives { IfOk result (λ carrier. lives carrier ≡ true) }
        ensures clock { IfOk result (λ carrier. clock_of carrier ≡ 0) }
    {
        let playing = fresh_playing(alloc, tasker, limits, seat.slot())?;
        Ok(Carrier {
            tasker: Snapshot::of(tasker),
            limits: *limits,
            parts: Some(Parts {
                seat,
                playing: Some(playing),
            }),
        })
    }

    /// Makes the next move of the slot, which lives, on the board of the carrier's seat. Moved: the
    /// slot made its move, and its clock rose. Ended: it made its move and is over. Blocked: the move
    /// has to see more of a slot, whose clock a look of this call found at this value, which is at
    /// most the own clock for a smaller slot, and below it for a larger one; nothing was put. A move
    /// that reads no history is never blocked. After want of memory the carrier is broken.
    pub fn advance(
        &mut self,
        alloc: Global,
        board: &Board<RunStory<'_, T>>,
        tasker: &T,
        limits: &Limits,
    ) -> Result<Advance, OutOfMemory>
        requires lives { lives self.old ≡ true }
        requires tasker { self.old.tasker ≡ tasker.now }
        requires limits { self.old.limits ≡ limits.now }
        requires board { self.old.seat.board ≡ board.now }
        requires story { board.now.story ≡ run_lists (T.rules tasker.now) limits.now }
        requires slots { board.now.shape.slots ≡ limits.now.slots }
        ensures run { IsSameRun self.old self.new }
        ensures advance { HasAdvanced (T.rules tasker.now) self.old self.new result }
    {
        // The parts are there, and the carrier isn't broken.
        let Parts { seat, playing } = self.parts.take().unwrap();
        let playing = playing.unwrap();
        let (seat, outcome) = step(alloc, board, tasker, limits, seat, playing);
        let (parts, advance) = settle(seat, outcome);
        self.parts = Some(parts);
        advance
    }

    /// What the carrier works with, none where it is broken. Its seat is dropped.
    pub(crate) fn into_playing(self) -> Option<Playing<T::View, T::Local>>
        ensures playing { result ≡ self.playing }
        ensures stands { IsStandingWhileWhole (T.rules self.tasker) (T.fits_view self.tasker)
            self.limits self.seat result }
    {
        let Parts { playing, .. } = self.parts?;
        playing
    }
}
