ghost use Rattle.std.specs.Prelude.{◌≡◌, ◌≤◌, ◌<◌, ◌++◌, true, length, map, IfOk, OnOk, Some};
ghost use Rattle.commit_order.specs.Queues.{empty_queue, queue_of};
ghost use Rattle.stamp_machine.specs.Machine.{final, history as history_of};
ghost use Rattle.stamp_machine.specs.Runs.{of_slot};
ghost use Rattle.stamp_machine.specs.Slots.{at};
ghost use Rattle.stamp_machine.specs.declared.limits.Limits.{Limits as RunLimits};
ghost use Rattle.version_store.specs.Advances.{has_ended};
ghost use Rattle.version_store.specs.Gathers.{AreEnded, AreLow, AreOfEndedRun, CanFeed, HasFed, HasSlot, HasTakenCarrier, IsMerged, IsPlaceOf, after_feeds};
ghost use Rattle.version_store.specs.Stories.{stamped};

use crate::{Carrier, Playing, RunStory};
use clock_words::Board;
use commit_order::Merge;
use ip_core::{List, OutOfMemory};
use stamp_machine::{History, Slot};
use std::alloc::Global;
use std::collections::VecDeque;
use work_stamp::{Key, KeyedEntry, Stamped, Tasker};

/// The history of a run, from its carriers on this board, one for each slot, all at their slots'
/// ends: the one that the machine on one thread gives.
pub fn gather<T: Tasker>(
    alloc: Global,
    board: &Board<RunStory<'_, T>>,
    carriers: List<Carrier<T>>,
) -> Result<History, OutOfMemory>
    requires { AreOfEndedRun board.now carriers }
    ensures { (tasker : T) (limits : RunLimits) → AreEnded board.now tasker limits carriers →
        IfOk result (λ history. history ≡ history_of (T.rules tasker) limits) }
{
    let _ = board;
    let slots = carriers.len() as u32;
    let mut left = carriers;
    let mut merge = Merge::new(alloc, slots)?;
    let mut records = List::new(alloc);
    let mut ends = List::new(alloc);
    for number in 0..slots {
        let slot = feed_carrier(&mut merge, take_carrier(&mut left, number))?;
        records.push(slot.records)?;
        ends.push(slot.clock)?;
    }
    Ok(History {
        entries: take_all(alloc, merge)?,
        records,
        ends,
    })
}

/// Takes the carrier of a slot out of a list that has one.
fn take_carrier<T: Tasker>(carriers: &mut List<Carrier<T>>, number: u32) -> Carrier<T>
    requires { HasSlot number carriers.old }
    ensures { HasTakenCarrier carriers.old number result carriers.new }
{
    let place = place_of(carriers.as_slice(), number);
    carriers.remove(place)
}

/// The place of the carrier of a slot, which is there.
fn place_of<T: Tasker>(carriers: &[Carrier<T>], number: u32) -> usize
    requires { HasSlot number carriers.now }
    ensures { IsPlaceOf number carriers.now result }
{
    for place in 0..carriers.len() {
        if carriers[place].slot() == number {
            return place;
        }
    }
    // The loop has found it.
    carriers.len()
}

/// Feeds all entries that a slot has published, by its carrier at the slot's end, and gives the slot.
fn feed_carrier<T: Tasker>(
    merge: &mut Merge,
    carrier: Carrier<T>,
) -> Result<Slot<T::Local>, OutOfMemory>
    requires ended { has_ended carrier ≡ true }
    requires within { carrier.seat.slot < length merge.old }
    requires fresh { queue_of merge.old carrier.seat.slot ≡ empty_queue }
    ensures slot { IfOk result (λ slot.
        at (final (T.rules carrier.tasker) carrier.limits).slots carrier.seat.slot ≡ Some slot) }
    ensures fed { OnOk result (HasFed merge.old carrier.seat.slot
        (of_slot carrier.seat.slot (final (T.rules carrier.tasker) carrier.limits).entries)
        merge.new) }
{
    let number = carrier.slot();
    // The slot is over, so the carrier isn't broken.
    let playing = carrier.into_playing().unwrap();
    let Playing {
        merge: own,
        mine,
        slot,
        ..
    } = playing;
    feed_entries(merge, number, mine)?;
    feed_queue(merge, number, own.into_queue(number))?;
    Ok(slot)
}

/// Feeds entries of a slot, in their order.
fn feed_entries(merge: &mut Merge, slot: u32, entries: List<KeyedEntry>) -> Result<(), OutOfMemory>
    requires { CanFeed merge.old slot (map stamped entries) }
    ensures { OnOk result (merge.new ≡ after_feeds merge.old slot (map stamped entries)) }
{
    for KeyedEntry { key, entry } in entries.into_vec() {
        let stamp = key.stamp;
        merge.feed(slot, Stamped { stamp, entry })?;
    }
    Ok(())
}

/// Feeds what waits in a queue of a slot, in its order.
fn feed_queue(merge: &mut Merge, slot: u32, mut items: VecDeque<Stamped>) -> Result<(), OutOfMemory>
    requires { CanFeed merge.old slot items.items }
    ensures { OnOk result (merge.new ≡ after_feeds merge.old slot items.items) }
{
    while let Some(item) = items.pop_front() {
        merge.feed(slot, item)?;
    }
    Ok(())
}

/// All entries that wait in a merge, in the order of their keys.
fn take_all(alloc: Global, mut merge: Merge) -> Result<List<KeyedEntry>, OutOfMemory>
    requires { AreLow merge }
    ensures { IfOk result (λ entries. IsMerged merge entries) }
{
    let end = Key {
        stamp: u64::MAX,
        slot: u32::MAX,
    };
    let mut entries = List::new(alloc);
    while let Some(entry) = merge.take_below(end) {
        entries.push(entry)?;
    }
    Ok(entries)
}
