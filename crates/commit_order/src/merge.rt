ghost use Rattle.std.specs.Prelude.{◌≡◌, ◌≤◌, ◌<◌, ◌==◌, length, replicate, IfOk, OnErr, OnOk};
ghost use Rattle.commit_order.specs.Queues.{empty_queue, queue_of};
ghost use Rattle.commit_order.specs.Merges.{IsLeastBelow, after_feed, after_take, least_below};
ghost use Rattle.commit_order.specs.Steps.{HasEntry, HasFirstPushed, HasTaken};

use crate::key_heap::KeyHeap;
use crate::queue::SlotQueue;
use ip_core::OutOfMemory;
use std::alloc::Global;
use std::collections::VecDeque;
use std::marker::Model;
use work_stamp::{Key, KeyedEntry, Stamped};

/// Entries that wait, slot by slot, until they are taken in the order of their keys. Contracts see
/// the queue of each slot: what waits, in the order in which it was fed, and the last stamp fed.
#[derive(Debug, Drop)]
pub struct Merge {
    queues: Vec<SlotQueue>,
    first_keys: KeyHeap,
}

impl Model for Merge {
    ghost use Rattle.std.specs.Prelude.{List};
    ghost use Rattle.commit_order.specs.Steps.{IsMerge};
    ghost use Rattle.commit_order.specs.Queues.{Queue};

    ghost Value = { List Queue };

    ghost view = { λ m. m.queues.items };

    ghost invariant = { λ m. IsMerge m.queues.items m.first_keys };
}

impl Merge {
    /// A merge of so many slots, numbered from 0, for which nothing was fed.
    pub fn new(alloc: Global, slots: u32) -> Result<Merge, OutOfMemory>
        ensures { IfOk result (λ merge. merge ≡ replicate slots empty_queue) }
    {
        Ok(Merge {
            queues: empty_queues(alloc, slots as usize)?,
            first_keys: KeyHeap::with_room(alloc, slots as usize)?,
        })
    }

    /// Takes in the next entry of a slot. The slot is one of the merge, and the stamp is at least
    /// that of the last entry fed for it. A refusal leaves the merge as before, and drops the entry.
    /// The time is logarithmic in the number of slots.
    #[tactic(auto, using(crate::proofs::Feeding::room_is, crate::proofs::Feeding::fed_within))]
    pub fn feed(&mut self, slot: u32, item: Stamped) -> Result<(), OutOfMemory>
        requires slot { slot < length self.old }
        requires stamp { (queue_of self.old slot).last_stamp ≤ item.stamp }
        ensures ok { OnOk result (self.new ≡ after_feed self.old slot item) }
        ensures err { OnErr result (self.new ≡ self.old) }
    {
        if push_entry(&mut self.queues, slot, item)? {
            push_first(&mut self.first_keys, self.queues.as_slice(), slot);
        }
        Ok(())
    }

    /// Takes out the entry of the least key, if that lies below a given one; of equal keys the first
    /// fed. None exactly where no entry that waits lies below the given key. It takes no memory, and
    /// its time is logarithmic in the number of slots.
    #[tactic(auto, using(crate::proofs::Taking::taken_within, crate::proofs::Taking::taken_left))]
    pub fn take_below(&mut self, key: Key) -> Option<KeyedEntry>
        ensures taken { result ≡ least_below self.old key }
        ensures least { IsLeastBelow self.old key result }
        ensures left { self.new ≡ after_take self.old result }
    {
        let first = self.first_keys.pop_below(key)?;
        let taken = take_entry(&mut self.queues, first);
        push_first(&mut self.first_keys, self.queues.as_slice(), first.slot);
        Some(taken)
    }

    /// The entries that wait for a slot of the merge, in the order in which they were fed. It takes
    /// no memory.
    pub fn into_queue(mut self, slot: u32) -> VecDeque<Stamped>
        requires { slot < length self }
        ensures { result.items ≡ (queue_of self slot).entries }
    {
        self.queues.swap_remove(slot as usize).into_entries()
    }
}

/// So many empty queues.
fn empty_queues(alloc: Global, slots: usize) -> Result<Vec<SlotQueue>, OutOfMemory>
    ensures { IfOk result (λ queues. queues.items ≡ replicate slots empty_queue) }
{
    let mut queues = Vec::with_capacity(alloc, slots)?;
    for _ in 0..slots {
        queues.push(SlotQueue::new(alloc))?;
    }
    Ok(queues)
}

/// Appends an entry to the queue of a slot, and answers whether it is the only one that waits there.
#[tactic(auto, using(crate::proofs::Queues::only_is, crate::proofs::Queues::entry_pushed))]
fn push_entry(queues: &mut Vec<SlotQueue>, slot: u32, item: Stamped) -> Result<bool, OutOfMemory>
    requires { slot < length queues.old.items }
    ensures only { IfOk result (λ only.
        only ≡ (length (queue_of queues.old.items slot).entries == 0)) }
    ensures ok { OnOk result (queues.new.items ≡ after_feed queues.old.items slot item) }
    ensures err { OnErr result (queues.new.items ≡ queues.old.items) }
{
    let is_only = queues[slot as usize].is_empty();
    queues[slot as usize].push(item)?;
    Ok(is_only)
}

/// Takes out the first entry that waits for the slot of a key, where there is one, and gives it under
/// that key.
#[tactic(auto, using(crate::proofs::Queues::entry_waits, crate::proofs::Queues::entry_taken))]
fn take_entry(queues: &mut Vec<SlotQueue>, key: Key) -> KeyedEntry
    requires { HasEntry queues.old.items key }
    ensures { HasTaken queues.old.items key result queues.new.items }
{
    let item = queues[key.slot as usize].take_first();
    KeyedEntry {
        key,
        entry: item.entry,
    }
}

/// Puts in the key of the first entry that waits for a slot, if there is one. There is room for it.
#[tactic(auto, using(crate::proofs::Queues::first_pushed, crate::proofs::Queues::none_pushed))]
fn push_first(first_keys: &mut KeyHeap, queues: &[SlotQueue], slot: u32)
    requires slot { slot < length queues.now }
    requires room { length first_keys.old.keys < first_keys.old.room }
    ensures { HasFirstPushed first_keys.old queues.now slot first_keys.new }
{
    if let Some(stamp) = queues[slot as usize].first_stamp() {
        first_keys.push(Key { stamp, slot });
    }
}
