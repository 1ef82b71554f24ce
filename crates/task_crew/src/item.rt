//! What the queue holds.
ghost use Rattle.std.specs.Prelude.{◌≡◌, IfSome, Some};
ghost use Rattle.task_crew.specs.Crews.{IsCrew, clock_awaited};
ghost use Rattle.version_store.specs.Advances.{clock_of};
ghost use Rattle.crossbeam_queue.specs.Passes.{ruled_capacity};

use crate::worker::Crew;
use std::marker::Model;
use version_store::Carrier;
use work_stamp::Tasker;

/// What a blocked carrier waits for: that the clock of a slot is at least this one.
#[derive(Clone, Copy)]
pub struct Awaited {
    pub slot: u32,
    pub clock: u64,
}

/// A carrier in the queue, and what it waits for, as far as that is known. Contracts see the carrier
/// alone, so that nothing rests on what it waits for.
#[derive(Drop)]
pub(crate) struct QueueItem<T: Tasker> {
    carrier: Carrier<T>,
    awaited: Option<Awaited>,
}

impl<T: Tasker> Model for QueueItem<T> {
    ghost use Rattle.version_store.specs.Carriers.{CarrierView};

    ghost Value = { CarrierView T T.View T.Local };

    ghost view = { λ i. i.carrier };
}

impl<T: Tasker> QueueItem<T> {
    /// A carrier that waits for this, or for nothing.
    pub(crate) fn new(carrier: Carrier<T>, awaited: Option<Awaited>) -> QueueItem<T>
        ensures { result ≡ carrier }
    {
        QueueItem { carrier, awaited }
    }

    /// The carrier, and what it waits for.
    pub(crate) fn into_parts(self) -> (Carrier<T>, Option<Awaited>)
        ensures { result.0 ≡ self }
    {
        let QueueItem { carrier, awaited } = self;
        (carrier, awaited)
    }

    /// What it waits for.
    pub(crate) fn awaited(&self) -> Option<Awaited> {
        self.awaited
    }
}

/// What a carrier waits for when its next move has to see more of a slot: a smaller slot moves first
/// at the same clock, a larger one later.
pub(crate) fn awaited_of<T: Tasker>(carrier: &Carrier<T>, slot: u32) -> Awaited
    ensures { result ≡ record {
      slot = slot;
      clock = clock_awaited carrier.now.seat.slot (clock_of carrier.now) slot;
    } }
{
    let clock = carrier.clock();
    let clock = if slot < carrier.slot() {
        clock.saturating_add(1)
    } else {
        clock
    };
    Awaited { slot, clock }
}

/// What a carrier still waits for. A plain look at the clock tells, on which nothing rests: the next
/// move finds out by itself whether it may be made.
pub(crate) fn awaited_still<T: Tasker, G>(
    crew: &Crew<'_, '_, T, G>,
    awaited: Option<Awaited>,
) -> Option<Awaited>
    requires crew { IsCrew (T.rules crew.now.tasker.now) crew.now.limits.now crew.now.board.now
        (ruled_capacity crew.now.queue.now) }
    ensures { IfSome result (λ still. awaited ≡ Some still) }
{
    let still = awaited?;
    if still.slot < crew.limits.slots && crew.board.hint(still.slot) < still.clock {
        Some(still)
    } else {
        None
    }
}
