ghost use Rattle.std.specs.Prelude.{◌≡◌, ◌<◌, [], IfOk, replicate};
ghost use Rattle.commit_order.specs.Queues.{empty_queue};
ghost use Rattle.stamp_machine.specs.Limits.{AreLimits};
ghost use Rattle.stamp_machine.specs.Slots.{fresh_slot as fresh_slot_of};
ghost use Rattle.version_store.specs.Carriers.{fresh_playing as fresh_playing_of};

use crate::{Heard, Playing};
use commit_order::Merge;
use ip_core::{List, OutOfMemory};
use stamp_machine::{Limits, Live, Slot};
use std::alloc::Global;
use work_stamp::Tasker;

/// What a carrier works with before its slot's first move.
pub(crate) fn fresh_playing<T: Tasker>(
    alloc: Global,
    tasker: &T,
    limits: &Limits,
    number: u32,
) -> Result<Playing<T::View, T::Local>, OutOfMemory>
    requires ranges { AreLimits limits.now }
    requires number { number < limits.now.slots }
    ensures { IfOk result (λ p. p ≡ fresh_playing_of (T.rules tasker.now) limits.now number) }
{
    Ok(Playing {
        view: tasker.fresh_view(alloc)?,
        merge: Merge::new(alloc, limits.slots)?,
        heard: none_heard(alloc, limits.slots)?,
        mine: List::new(alloc),
        slot: fresh_slot(alloc, tasker, number)?,
        moves: 0,
    })
}

/// A slot before its first move.
fn fresh_slot<T: Tasker>(
    alloc: Global,
    tasker: &T,
    number: u32,
) -> Result<Slot<T::Local>, OutOfMemory>
    requires { number < 64 }
    ensures { IfOk result (λ slot. slot ≡ fresh_slot_of (T.rules tasker.now) number) }
{
    Ok(Slot {
        clock: 0,
        words: 0,
        records: List::new(alloc),
        live: Some(Live {
            local: tasker.fresh_local(alloc, number)?,
            pending: List::new(alloc),
            leaves: List::new(alloc),
        }),
    })
}

/// Of so many slots nothing was fetched.
fn none_heard(alloc: Global, slots: u32) -> Result<List<Heard>, OutOfMemory>
    ensures { IfOk result (λ heard. heard ≡ replicate slots (record { clock = 0; count = 0 })) }
{
    let mut heard = List::new(alloc);
    for _ in 0..slots {
        heard.push(Heard { clock: 0, count: 0 })?;
    }
    Ok(heard)
}
