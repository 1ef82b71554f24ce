ghost use Rattle.std.specs.Prelude.{◌≡◌, ◌≤◌, ◌+◌, IfOk};
ghost use Rattle.stamp_machine.specs.Machine.{slot_after_chunk as slot_after_chunk_of};
ghost use Rattle.stamp_machine.specs.Openings.{CanRun};

use crate::{Live, Slot};
use ip_core::OutOfMemory;
use std::alloc::Global;
use work_stamp::{Pulse, Tasker};

/// The slot after a chunk of its task, whose entries and records are pending. The pulse is told of the work as it goes
/// on, of no more in all than the chunk counts.
pub fn slot_after_chunk<T: Tasker, P: Pulse>(
    alloc: Global,
    tasker: &T,
    slot: Slot<T::Local>,
    local: T::Local,
    pulse: &mut P,
) -> Result<Slot<T::Local>, OutOfMemory>
    requires can { CanRun (T.rules tasker.now) (T.fits_local tasker.now) slot local }
    requires ready { P.IsReady pulse.old }
    requires allowed { ((T.rules tasker.now).chunk local).gives.work ≤ P.allowance pulse.old }
    ensures slot { IfOk result (λ after. after ≡ slot_after_chunk_of (T.rules tasker.now) slot local) }
    ensures ready { P.IsReady pulse.new }
    ensures rest { P.rest pulse.new ≡ P.rest pulse.old }
    ensures spent { P.allowance pulse.old ≤ P.allowance pulse.new +
        ((T.rules tasker.now).chunk local).gives.work }
{
    let mut local = local;
    let chunk = tasker.chunk(alloc, &mut local, pulse)?;
    Ok(Slot {
        clock: slot.clock + chunk.work,
        words: slot.words,
        records: slot.records,
        live: Some(Live {
            local,
            pending: chunk.entries,
            leaves: chunk.records,
        }),
    })
}
