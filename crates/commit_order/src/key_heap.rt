ghost use Rattle.std.specs.Prelude.{◌≡◌, ◌≤◌, ◌<◌, length, IfOk};
ghost use Rattle.commit_order.specs.KeyHeaps.{HasPushed, HasRoom, IsPopBelow};

use ip_core::OutOfMemory;
use std::alloc::Global;
use std::cmp::Reverse;
use std::collections::BinaryHeap;
use std::marker::Model;
use work_stamp::Key;

/// Keys of which the least comes out first, with room for a number of them.
#[derive(Debug, Drop)]
pub struct KeyHeap {
    keys: BinaryHeap<Reverse<Key>>,
}

impl Model for KeyHeap {
    ghost use Rattle.std.specs.BinaryHeap.{IsHeap, heap_capacity, heap_items};
    ghost use Rattle.commit_order.specs.KeyHeaps.{Keys, keys_in, reverse_cmp};

    ghost Value = { Keys };

    ghost view = { λ h. record { keys = keys_in (heap_items h.keys); room = heap_capacity h.keys } };

    ghost invariant = { λ h. IsHeap reverse_cmp (heap_items h.keys) };
}

impl KeyHeap {
    /// No key, and room for so many.
    pub fn with_room(alloc: Global, room: usize) -> Result<KeyHeap, OutOfMemory>
        ensures { IfOk result (λ heap. HasRoom heap room) }
    {
        Ok(KeyHeap {
            keys: BinaryHeap::with_capacity(alloc, room)?,
        })
    }

    /// Puts in a key, for which there is room. It takes no memory.
    pub fn push(&mut self, key: Key)
        requires { length self.old.keys < self.old.room }
        ensures key { HasPushed self.old.keys key self.new.keys }
        ensures room { self.old.room ≤ self.new.room }
    {
        // There is room for the key, so it is not refused.
        self.keys.push(Reverse(key)).unwrap();
    }

    /// Takes out the least key if it lies below a given one. It takes no memory.
    #[tactic(auto, using(crate::proofs::Heaps::kept_nothing))]
    pub fn pop_below(&mut self, key: Key) -> Option<Key>
        ensures keys { IsPopBelow self.old.keys key result self.new.keys }
        ensures room { self.new.room ≡ self.old.room }
    {
        let Reverse(first) = *self.keys.peek()?;
        if !first.is_below(key) {
            return None;
        }
        self.keys.pop();
        Some(first)
    }
}
