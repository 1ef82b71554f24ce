ghost use Rattle.std.specs.Prelude.{◌≡◌};

use crate::{Merge, fed_entry_waits_last, taken_entry_is_least, taken_entry_waited_first};
use ip_core::OutOfMemory;
use std::alloc::Global;
use std::test::Fail;
use work_stamp::{Entry, Key, KeyedEntry, Stamped};

/// An entry that is known again by its node.
fn closed_entry(stamp: u64, node: u64) -> Stamped
    ensures { result.stamp ≡ stamp }
{
    Stamped {
        stamp,
        entry: Entry::Closed { node },
    }
}

/// The stamp, the slot and the node of an entry that was taken.
fn parts_of(taken: Option<KeyedEntry>) -> Option<(u64, u32, u64)> {
    let KeyedEntry { key, entry } = taken?;
    match entry {
        Entry::Closed { node } => Some((key.stamp, key.slot, node)),
        _ => None,
    }
}

/// The node of an entry that waits.
fn node(waiting: Option<Stamped>) -> Option<u64> {
    match waiting?.entry {
        Entry::Closed { node } => Some(node),
        _ => None,
    }
}

/// Of two slots for each of which one entry of stamp 4 was fed: what is taken below keys, one after the
/// other.
const TIES: [(u64, u32, Option<(u64, u32, u64)>); 3] = [
    (4, 1, Some((4, 0, 20))),
    (4, 1, None),
    (5, 0, Some((4, 1, 10))),
];

/// The same of four slots: three entries were fed for slot 2, of which the first two have one stamp, and
/// one each for the slots 0 and 3, of the stamp of the last.
const MANY: [(u64, u32, Option<(u64, u32, u64)>); 9] = [
    (3, 2, None),
    (3, 3, Some((3, 2, 20))),
    (4, 0, Some((3, 2, 21))),
    (4, 0, None),
    (7, 0, None),
    (9, 0, Some((7, 0, 1))),
    (9, 0, Some((7, 2, 22))),
    (u64::MAX, u32::MAX, Some((7, 3, 30))),
    (u64::MAX, u32::MAX, None),
];

/// The first case in which something else is taken.
fn first_wrong(merge: &mut Merge, cases: &[(u64, u32, Option<(u64, u32, u64)>)]) -> Option<usize> {
    for place in 0..cases.len() {
        let (stamp, slot, wanted) = cases[place];
        if parts_of(merge.take_below(Key { stamp, slot })) != wanted {
            return Some(place);
        }
    }
    None
}

/// One entry of stamp 4 for each of two slots, first that of slot 1.
fn two_fed(alloc: Global) -> Result<Merge, OutOfMemory> {
    let mut merge = Merge::new(alloc, 2)?;
    merge.feed(1, closed_entry(4, 10))?;
    merge.feed(0, closed_entry(4, 20))?;
    Ok(merge)
}

/// The entries of `MANY`.
fn many_fed(alloc: Global) -> Result<Merge, OutOfMemory> {
    let mut merge = Merge::new(alloc, 4)?;
    merge.feed(2, closed_entry(3, 20))?;
    merge.feed(3, closed_entry(7, 30))?;
    merge.feed(2, closed_entry(3, 21))?;
    merge.feed(2, closed_entry(7, 22))?;
    merge.feed(0, closed_entry(7, 1))?;
    Ok(merge)
}

/// The nodes that wait for slot 1 when two were fed for it, the first was taken and one more was fed.
fn nodes_left(alloc: Global) -> Result<[Option<u64>; 3], OutOfMemory> {
    let mut merge = Merge::new(alloc, 2)?;
    merge.feed(1, closed_entry(3, 10))?;
    merge.feed(0, closed_entry(4, 20))?;
    merge.feed(1, closed_entry(3, 11))?;
    merge.take_below(Key { stamp: 4, slot: 0 });
    merge.feed(1, closed_entry(8, 12))?;
    let mut queue = merge.into_queue(1);
    Ok([
        node(queue.pop_front()),
        node(queue.pop_front()),
        node(queue.pop_front()),
    ])
}

#[test]
fn equal_stamps_come_by_slot(rt: HostRuntime) -> Result<(), Fail> {
    let mut merge = two_fed(rt.alloc())?;
    assert_eq!(rt; first_wrong(&mut merge, &TIES), None);
    Ok(())
}

#[test]
fn entries_come_by_key_and_as_fed(rt: HostRuntime) -> Result<(), Fail> {
    let mut merge = many_fed(rt.alloc())?;
    assert_eq!(rt; first_wrong(&mut merge, &MANY), None);
    Ok(())
}

/// Asks that a value may go to another thread.
fn may_go_elsewhere<T: Send>(_value: &T) {}

#[test]
fn a_merge_may_go_to_another_thread(rt: HostRuntime) -> Result<(), Fail> {
    may_go_elsewhere(&two_fed(rt.alloc())?);
    Ok(())
}

// The laws have nothing to run.
#[test]
fn laws_of_merges_ask_nothing(_rt: HostRuntime) -> Result<(), Fail> {
    taken_entry_is_least();
    fed_entry_waits_last();
    taken_entry_waited_first();
    Ok(())
}

#[test]
fn a_queue_keeps_what_was_not_taken(rt: HostRuntime) -> Result<(), Fail> {
    assert_eq!(rt; nodes_left(rt.alloc())?, [Some(11), Some(12), None]);
    Ok(())
}
