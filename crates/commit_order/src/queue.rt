ghost use Rattle.std.specs.Prelude.{◌≡◌, ◌<◌, ◌==◌, length, OnErr, OnOk, slice_get, Some};
ghost use Rattle.commit_order.specs.Queues.{empty_queue, first_stamp as first_stamp_of, with_entry, without_first};

use ip_core::OutOfMemory;
use std::alloc::Global;
use std::collections::VecDeque;
use std::marker::Model;
use work_stamp::Stamped;

/// The entries that wait for a slot, in the order in which they were fed, and the stamp of the last
/// one that was fed.
#[derive(Debug, Drop)]
pub struct SlotQueue {
    entries: VecDeque<Stamped>,
    last_stamp: u64,
}

impl Model for SlotQueue {
    ghost use Rattle.commit_order.specs.Queues.{Queue};

    ghost Value = { Queue };

    ghost view = { λ q. record { entries = q.entries.items; last_stamp = q.last_stamp } };
}

impl SlotQueue {
    /// A queue for which nothing was fed.
    pub fn new(alloc: Global) -> SlotQueue
        ensures { result ≡ empty_queue }
    {
        SlotQueue {
            entries: VecDeque::new(alloc),
            last_stamp: 0,
        }
    }

    /// Whether no entry waits.
    pub fn is_empty(&self) -> bool
        ensures { result ≡ (length self.now.entries == 0) }
    {
        self.entries.is_empty()
    }

    /// Appends an entry. A refusal leaves the queue as before, and drops the entry.
    pub fn push(&mut self, item: Stamped) -> Result<(), OutOfMemory>
        ensures ok { OnOk result (self.new ≡ with_entry item self.old) }
        ensures err { OnErr result (self.new ≡ self.old) }
    {
        let stamp = item.stamp;
        self.entries.push_back(item)?;
        self.last_stamp = stamp;
        Ok(())
    }

    /// Takes out the first entry that waits, where there is one.
    pub fn take_first(&mut self) -> Stamped
        requires { 0 < length self.old.entries }
        ensures item { slice_get self.old.entries 0 ≡ Some result }
        ensures left { self.new ≡ without_first self.old }
    {
        // An entry waits, so there is a first one.
        self.entries.pop_front().unwrap()
    }

    /// The stamp of the first entry that waits.
    pub fn first_stamp(&self) -> Option<u64>
        ensures { result ≡ first_stamp_of self.now.entries }
    {
        Some(self.entries.front()?.stamp)
    }

    /// The entries that wait, in the order in which they were fed. It takes no memory.
    pub fn into_entries(self) -> VecDeque<Stamped>
        ensures { result.items ≡ self.entries }
    {
        self.entries
    }
}
