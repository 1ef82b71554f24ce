ghost use Rattle.std.specs.Prelude.{ℕ, ◌<◌, List, length};
ghost use Rattle.work_stamp.specs.declared.key.Key.{Key};
ghost use Rattle.work_stamp.specs.declared.stamped.KeyedEntry.{KeyedEntry};
ghost use Rattle.work_stamp.specs.declared.stamped.Stamped.{Stamped};
ghost use Rattle.commit_order.specs.Laws.{IsFirstOfSlot, IsLastOfSlot};
ghost use Rattle.commit_order.specs.Merges.{IsLeast, IsLeastBelow, least_below};
ghost use Rattle.commit_order.specs.Queues.{AreInOrder, Queue};

/// A law of merges, with nothing to run: where no slot's stamps fall, the definition of what is
/// taken gives the first entry of its slot, before which no entry of any slot comes; and none
/// exactly where no entry that waits lies below the given key.
pub fn taken_entry_is_least()
    ensures { (queues : List Queue) (key : Key) → AreInOrder queues →
        IsLeastBelow queues key (least_below queues key) }
{}

/// A law of merges, with nothing to run: an entry that is fed waits behind all others of its slot,
/// and the other slots' queues stay.
pub fn fed_entry_waits_last()
    ensures { (queues : List Queue) (slot : ℕ) (item : Stamped) → slot < length queues →
        IsLastOfSlot queues slot item }
{}

/// A law of merges, with nothing to run: an entry that is taken waited before all others of its
/// slot, and the other slots' queues stay.
pub fn taken_entry_waited_first()
    ensures { (queues : List Queue) (key : Key) (e : KeyedEntry) → IsLeast queues key e →
        IsFirstOfSlot queues e }
{}
