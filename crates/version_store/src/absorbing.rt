ghost use Rattle.std.specs.Prelude.{◌≡◌, ◌∷◌, ◌++◌, [], IfOk, OnOk};
ghost use Rattle.stamp_machine.specs.Limits.{AreLimits};
ghost use Rattle.stamp_machine.specs.Runs.{of_slot};
ghost use Rattle.version_store.specs.Absorbing.{CanAbsorb, HasAbsorbed};

use crate::Playing;
use ip_core::{List, OutOfMemory};
use stamp_machine::Limits;
use std::alloc::Global;
use work_stamp::{Key, KeyedEntry, Tasker};

/// Absorbs all that waits below the slot's key, in the order of the keys. Enough was heard of each
/// other slot.
pub(crate) fn absorb_below<T: Tasker>(
    alloc: Global,
    tasker: &T,
    limits: &Limits,
    playing: Playing<T::View, T::Local>,
    key: Key,
) -> Result<Playing<T::View, T::Local>, OutOfMemory>
    requires ranges { AreLimits limits.now }
    requires can { CanAbsorb (T.rules tasker.now) (T.fits_view tasker.now) limits.now key playing }
    ensures { IfOk result (λ after. HasAbsorbed (T.rules tasker.now) (T.fits_view tasker.now)
        limits.now key playing after) }
{
    let mut playing = playing;
    while let Some(taken) = playing.merge.take_below(key) {
        tasker.absorb(alloc, &mut playing.view, taken.key, &taken.entry)?;
        keep_own(&mut playing.mine, key.slot, taken)?;
    }
    Ok(playing)
}

/// Keeps an entry if it is one of this slot.
fn keep_own(mine: &mut List<KeyedEntry>, slot: u32, taken: KeyedEntry) -> Result<(), OutOfMemory>
    ensures { OnOk result (mine.new ≡ mine.old ++ of_slot slot (taken ∷ [])) }
{
    if taken.key.slot == slot {
        mine.push(taken)?;
    }
    Ok(())
}
