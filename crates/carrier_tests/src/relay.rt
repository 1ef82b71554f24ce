ghost use Rattle.std.specs.Prelude.{◌≡◌, IfOk};
ghost use Rattle.stamp_machine.specs.Relay.{found_entry as found_of, leaf as leaf_of, one_more as one_more_of};

use ip_core::{Closing, Leaf, List, OutOfMemory, Point, Record};
use std::alloc::Global;
use work_stamp::{Begin, Chunk, Entry, Key, Pulse, Tasker};

/// A small system of tasks. Three are taken in all, each by a slot that finds fewer than three begun. A task finds a
/// point in its first chunk and ends in its second. A slot that finds three begun waits until three have ended.
pub(crate) struct Relay;

impl Tasker for Relay {
    ghost use Rattle.stamp_machine.specs.RelayLaw.{relay_law};
    ghost use Rattle.stamp_machine.specs.Relay.{Agrees, AreCounts, IsLocal, MayFollow, relay};

    type View = (u64, u64);

    type Local = u64;

    ghost rules = { λ _. relay };

    ghost fits_view = { λ _ counts. AreCounts counts };

    ghost fits_local = { λ _ left. IsLocal left };

    ghost may_follow = { λ _ history entry. MayFollow history entry };

    ghost agrees = { λ _ history slots. Agrees history slots };

    ghost lawful = { λ _. relay_law };

    fn fresh_view(&self, _alloc: Global) -> Result<(u64, u64), OutOfMemory> {
        Ok((0, 0))
    }

    fn fresh_local(&self, _alloc: Global, _slot: u32) -> Result<u64, OutOfMemory> {
        Ok(0)
    }

    fn absorb(
        &self,
        _alloc: Global,
        view: &mut (u64, u64),
        _key: Key,
        entry: &Entry,
    ) -> Result<(), OutOfMemory> {
        let (starts, ends) = *view;
        match entry {
            Entry::Start { .. } => *view = (one_more(starts), ends),
            Entry::Done => *view = (starts, one_more(ends)),
            _ => {}
        }
        Ok(())
    }

    fn at_start(&self, local: &u64) -> bool {
        *local == 0
    }

    fn begin(
        &self,
        alloc: Global,
        view: &(u64, u64),
        local: &mut u64,
    ) -> Result<Begin, OutOfMemory> {
        let (starts, ends) = *view;
        if starts < 3 {
            let mut entries = List::new(alloc);
            entries.push(Entry::Start { node: starts })?;
            *local = 2;
            return Ok(Begin::Take(entries));
        }
        Ok(if ends < 3 { Begin::Idle } else { Begin::End })
    }

    fn chunk<P: Pulse>(
        &self,
        alloc: Global,
        local: &mut u64,
        pulse: &mut P,
    ) -> Result<Chunk, OutOfMemory> {
        let mut entries = List::new(alloc);
        let mut records = List::new(alloc);
        if *local == 2 {
            pulse.tick(399);
            entries.push(found(alloc)?)?;
            *local = 1;
            return Ok(Chunk {
                entries,
                records,
                work: 400,
            });
        }
        entries.push(Entry::Done)?;
        records.push(leaf(alloc))?;
        *local = 0;
        Ok(Chunk {
            entries,
            records,
            work: 300,
        })
    }
}

fn one_more(count: u64) -> u64
    ensures { result ≡ one_more_of count }
{
    if count < 3 { count + 1 } else { count }
}

/// A point of twenty columns.
fn found(alloc: Global) -> Result<Entry, OutOfMemory>
    ensures { IfOk result (λ entry. entry ≡ found_of) }
{
    let values = vec![in alloc; 0i64; 20]?;
    Ok(Entry::Found {
        value: 0,
        point: Point::of(List::of(values)),
    })
}

fn leaf(alloc: Global) -> Record
    ensures { result ≡ leaf_of }
{
    Record {
        node: 7,
        leaf: Leaf {
            steps: List::new(alloc),
            closing: Closing::Empty(0),
        },
    }
}
