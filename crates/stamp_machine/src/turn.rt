ghost use Rattle.std.specs.Prelude.{◌≡◌, IfOk};
ghost use Rattle.stamp_machine.specs.Limits.{AreLimits};
ghost use Rattle.stamp_machine.specs.Machine.{slot_after_chunk as slot_after_chunk_of, turn as turn_of};
ghost use Rattle.stamp_machine.specs.Openings.{CanRun, CanRunAfter, turn_from, turn_of_opening};
ghost use Rattle.stamp_machine.specs.Plays.{CanGrow, CanTurn, CanWork, after_move, with_entries};
ghost use Rattle.stamp_machine.specs.Slots.{key_of};
ghost use Rattle.stamp_machine.specs.declared.opening.Opening.TheVariants.{Goes};

use crate::chunk::slot_after_chunk;
use crate::opening::{Opening, Turn, pending_opening, task_opening};
use crate::play::{AfterMove, HistoryView};
use crate::{Limits, Slot};
use ip_core::{List, OutOfMemory};
use std::alloc::Global;
use work_stamp::{Entry, Key, KeyedEntry, NoPulse, Tasker};

/// A move of a slot that sees the history so far.
pub fn turn<T: Tasker>(
    alloc: Global,
    tasker: &T,
    limits: &Limits,
    number: u32,
    so_far: HistoryView<T::View>,
    slot: Slot<T::Local>,
) -> Result<AfterMove<T::View, T::Local>, OutOfMemory>
    requires ranges { AreLimits limits.now }
    requires can { CanTurn (T.rules tasker.now) (T.fits_view tasker.now) (T.fits_local tasker.now)
        (T.may_follow tasker.now) limits.now so_far number slot }
    ensures { IfOk result (λ after. after ≡
        after_move (T.rules tasker.now) so_far (key_of number slot)
        (turn_of (T.rules tasker.now) limits.now number so_far.view slot)) }
{
    let key = Key {
        stamp: slot.clock,
        slot: number,
    };
    match pending_opening(alloc, limits, slot)? {
        Opening::Done(turn) => after_entries(alloc, tasker, so_far, key, turn),
        Opening::Goes { turn, local } => after_pending(
            alloc, tasker, limits, so_far, key, turn, local,
        ),
    }
}

/// What was pending joins, and the slot begins a task or goes on with one.
fn after_pending<T: Tasker>(
    alloc: Global,
    tasker: &T,
    limits: &Limits,
    so_far: HistoryView<T::View>,
    key: Key,
    turn: Turn<T::Local>,
    local: T::Local,
) -> Result<AfterMove<T::View, T::Local>, OutOfMemory>
    requires ranges { AreLimits limits.now }
    requires can { CanWork (T.fits_local tasker.now) limits.now turn.slot local }
    requires grow { CanGrow (T.rules tasker.now) (T.fits_view tasker.now)
        (T.may_follow tasker.now) so_far key
        (turn_from (T.rules tasker.now) limits.now key so_far.view (Goes turn local)).entries }
    ensures { IfOk result (λ after. after ≡
        after_move (T.rules tasker.now) so_far key
        (turn_from (T.rules tasker.now) limits.now key so_far.view (Goes turn local))) }
{
    let Turn {
        entries: pending,
        slot,
    } = turn;
    let so_far = join(alloc, tasker, so_far, key, pending)?;
    if tasker.at_start(&local) {
        let opening = task_opening(alloc, tasker, limits, &so_far.view, slot, local)?;
        return after_opening(alloc, tasker, so_far, key, opening);
    }
    let slot = slot_after_work(alloc, tasker, slot, local)?;
    Ok(AfterMove { so_far, slot })
}

/// What a slot begins with joins, and the first chunk of a task that it takes runs.
fn after_opening<T: Tasker>(
    alloc: Global,
    tasker: &T,
    so_far: HistoryView<T::View>,
    key: Key,
    opening: Opening<T::Local>,
) -> Result<AfterMove<T::View, T::Local>, OutOfMemory>
    requires can { CanRunAfter (T.rules tasker.now) (T.fits_local tasker.now) opening }
    requires grow { CanGrow (T.rules tasker.now) (T.fits_view tasker.now)
        (T.may_follow tasker.now) so_far key (turn_of_opening (T.rules tasker.now) opening).entries }
    ensures { IfOk result (λ after. after ≡
        after_move (T.rules tasker.now) so_far key (turn_of_opening (T.rules tasker.now) opening)) }
{
    match opening {
        Opening::Done(turn) => after_entries(alloc, tasker, so_far, key, turn),
        Opening::Goes { turn, local } => {
            let Turn { entries, slot } = turn;
            let so_far = join(alloc, tasker, so_far, key, entries)?;
            let slot = slot_after_work(alloc, tasker, slot, local)?;
            Ok(AfterMove { so_far, slot })
        }
    }
}

/// A move that is done but for its entries, which join.
fn after_entries<T: Tasker>(
    alloc: Global,
    tasker: &T,
    so_far: HistoryView<T::View>,
    key: Key,
    turn: Turn<T::Local>,
) -> Result<AfterMove<T::View, T::Local>, OutOfMemory>
    requires { CanGrow (T.rules tasker.now) (T.fits_view tasker.now)
        (T.may_follow tasker.now) so_far key turn.entries }
    ensures { IfOk result (λ after. after ≡ after_move (T.rules tasker.now) so_far key turn) }
{
    let Turn {
        entries: last,
        slot,
    } = turn;
    let so_far = join(alloc, tasker, so_far, key, last)?;
    Ok(AfterMove { so_far, slot })
}

/// The slot after a chunk, of whose work nobody hears.
fn slot_after_work<T: Tasker>(
    alloc: Global,
    tasker: &T,
    slot: Slot<T::Local>,
    local: T::Local,
) -> Result<Slot<T::Local>, OutOfMemory>
    requires { CanRun (T.rules tasker.now) (T.fits_local tasker.now) slot local }
    ensures { IfOk result (λ after. after ≡ slot_after_chunk_of (T.rules tasker.now) slot local) }
{
    let mut pulse = NoPulse::new();
    slot_after_chunk(alloc, tasker, slot, local, &mut pulse)
}

/// The history after entries joined it under a key.
fn join<T: Tasker>(
    alloc: Global,
    tasker: &T,
    so_far: HistoryView<T::View>,
    key: Key,
    batch: List<Entry>,
) -> Result<HistoryView<T::View>, OutOfMemory>
    requires { CanGrow (T.rules tasker.now) (T.fits_view tasker.now)
        (T.may_follow tasker.now) so_far key batch }
    ensures { IfOk result (λ after. after ≡ with_entries (T.rules tasker.now) so_far key batch) }
{
    let HistoryView {
        mut entries,
        mut view,
    } = so_far;
    for entry in batch.into_vec() {
        tasker.absorb(alloc, &mut view, key, &entry)?;
        entries.push(KeyedEntry { key, entry })?;
    }
    Ok(HistoryView { entries, view })
}
