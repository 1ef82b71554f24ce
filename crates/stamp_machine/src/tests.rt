ghost use Rattle.std.specs.Prelude.{◌≡◌, IfOk};
ghost use Rattle.stamp_machine.specs.Limits.{AreLimits};
ghost use Rattle.stamp_machine.specs.Relay.{found_entry as found_of, leaf as leaf_of, one_more as one_more_of};

use crate::{
    History, Limits, Live, Opening, Slot, clocks_are_low, clocks_rise, ends_are_known,
    entries_fit_stores, entries_have_origins, entries_have_words, history_is_sorted,
    keys_part_by_slots, keys_rise, least_key_is_first, lesser_keys_are_before, live_locals_fit,
    live_slots_are_chosen, logs_are_known, machine_stops, machine_turns_are_by_the_history,
    moves_are_in_front, moves_keep_the_laws, over_slots_are_last, own_moves_keep_the_laws,
    pending_opening, reads_history, records_have_chunks, run_alone, running_tasks_read_nothing,
    slot_after_chunk, slots_play_by_the_history, sorted_histories_are_same, task_opening,
    turns_have_parts,
};
use ip_core::{Closing, Leaf, List, OutOfMemory, Point, Record};
use std::alloc::Global;
use std::test::Fail;
use work_stamp::{Begin, Chunk, Entry, Key, NoPulse, Pulse, Tasker};

/// A small system of tasks. Three are taken in all, each by a slot that finds fewer than three begun. A task finds a
/// point in its first chunk and ends in its second. A slot that finds three begun waits until three have ended.
struct Relay;

impl Tasker for Relay {
    ghost use Rattle.stamp_machine.specs.RelayLaw.{relay_law};
    ghost use Rattle.stamp_machine.specs.Relay.{Agrees, AreCounts, IsLocal, MayFollow, relay};

    type View = (u64, u64);

    type Local = u64;

    ghost rules = { λ _. relay };

    ghost fits_view = { λ _ counts. AreCounts counts };

    ghost fits_local = { λ _ left. IsLocal left };

    ghost may_follow = { λ _ history entry. MayFollow history entry };

    ghost agrees = { λ _ history slots. Agrees history slots };

    ghost lawful = { λ _. relay_law };

    fn fresh_view(&self, _alloc: Global) -> Result<(u64, u64), OutOfMemory> {
        Ok((0, 0))
    }

    fn fresh_local(&self, _alloc: Global, _slot: u32) -> Result<u64, OutOfMemory> {
        Ok(0)
    }

    fn absorb(
        &self,
        _alloc: Global,
        view: &mut (u64, u64),
        _key: Key,
        entry: &Entry,
    ) -> Result<(), OutOfMemory> {
        let (starts, ends) = *view;
        match entry {
            Entry::Start { .. } => *view = (one_more(starts), ends),
            Entry::Done => *view = (starts, one_more(ends)),
            _ => {}
        }
        Ok(())
    }

    fn at_start(&self, local: &u64) -> bool {
        *local == 0
    }

    fn begin(
        &self,
        alloc: Global,
        view: &(u64, u64),
        local: &mut u64,
    ) -> Result<Begin, OutOfMemory> {
        let (starts, ends) = *view;
        if starts < 3 {
            let mut entries = List::new(alloc);
            entries.push(Entry::Start { node: starts })?;
            *local = 2;
            return Ok(Begin::Take(entries));
        }
        Ok(if ends < 3 { Begin::Idle } else { Begin::End })
    }

    fn chunk<P: Pulse>(
        &self,
        alloc: Global,
        local: &mut u64,
        pulse: &mut P,
    ) -> Result<Chunk, OutOfMemory> {
        let mut entries = List::new(alloc);
        let mut records = List::new(alloc);
        if *local == 2 {
            pulse.tick(399);
            entries.push(found(alloc)?)?;
            *local = 1;
            return Ok(Chunk {
                entries,
                records,
                work: 400,
            });
        }
        entries.push(Entry::Done)?;
        records.push(leaf(alloc))?;
        *local = 0;
        Ok(Chunk {
            entries,
            records,
            work: 300,
        })
    }
}

fn one_more(count: u64) -> u64
    ensures { result ≡ one_more_of count }
{
    if count < 3 { count + 1 } else { count }
}

/// A point of twenty columns.
fn found(alloc: Global) -> Result<Entry, OutOfMemory>
    ensures { IfOk result (λ entry. entry ≡ found_of) }
{
    let values = vec![in alloc; 0i64; 20]?;
    Ok(Entry::Found {
        value: 0,
        point: Point::of(List::of(values)),
    })
}

fn leaf(alloc: Global) -> Record
    ensures { result ≡ leaf_of }
{
    Record {
        node: 7,
        leaf: Leaf {
            steps: List::new(alloc),
            closing: Closing::Empty(0),
        },
    }
}

// The numbers of the kinds of entries that a relay publishes.
const START: u64 = 1;

const FOUND: u64 = 2;

const DONE: u64 = 3;

const HALT: u64 = 4;

/// The number of an entry's kind, and the node of a Start. Another kind has the number 0.
fn kind_and_node(entry: &Entry) -> (u64, u64) {
    match entry {
        Entry::Start { node } => (START, *node),
        Entry::Found { .. } => (FOUND, 0),
        Entry::Done => (DONE, 0),
        Entry::Halt => (HALT, 0),
        _ => (0, 0),
    }
}

/// A row for each entry: its stamp, its slot, the number of its kind, and the node of a Start.
fn entry_rows(alloc: Global, history: &History) -> Result<List<[u64; 4]>, OutOfMemory> {
    let mut rows = List::new(alloc);
    for item in history.entries.as_slice() {
        let (kind, node) = kind_and_node(&item.entry);
        rows.push([item.key.stamp, u64::from(item.key.slot), kind, node])?;
    }
    Ok(rows)
}

/// How many records each slot has.
fn record_counts(alloc: Global, history: &History) -> Result<List<usize>, OutOfMemory> {
    let mut counts = List::new(alloc);
    for records in history.records.as_slice() {
        counts.push(records.len())?;
    }
    Ok(counts)
}

/// The history of the relay under these limits.
fn relay_history(alloc: Global, slots: u32, work: u64, store: u32) -> Result<History, OutOfMemory>
    requires { AreLimits (record { slots = slots; work = work; store = store }) }
{
    let limits = Limits { slots, work, store };
    run_alone(alloc, &Relay, &limits)
}

/// Whether a history has these rows, these numbers of records and these ends.
fn is_outline(
    alloc: Global,
    history: &History,
    rows: &[[u64; 4]],
    records: &[usize],
    ends: &[u64],
) -> Result<bool, OutOfMemory> {
    Ok(
        entry_rows(alloc, history)?.as_slice() == rows
            && record_counts(alloc, history)?.as_slice() == records
            && history.ends.as_slice() == ends,
    )
}

// At 700 slot 1 waits for slot 0, and both are over once three tasks have ended.
#[test]
fn two_slots_share_a_history(rt: HostRuntime) -> Result<(), Fail> {
    let history = relay_history(rt.alloc(), 2, 2_000, 1_000)?;
    let rows = [
        [0, 0, START, 0],
        [0, 1, START, 1],
        [400, 0, FOUND, 0],
        [400, 1, FOUND, 0],
        [700, 0, DONE, 0],
        [700, 0, START, 2],
        [700, 1, DONE, 0],
        [1_100, 0, FOUND, 0],
        [1_400, 0, DONE, 0],
    ];
    assert!(rt; is_outline(rt.alloc(), &history, &rows, &[2, 1], &[1_400, 1_700])?);
    Ok(())
}

// The last entry of slot 0 would be its words 60 to 62, of 60 that it may publish. Slot 1 waits past the limit of work.
#[test]
fn a_full_slot_halts(rt: HostRuntime) -> Result<(), Fail> {
    let history = relay_history(rt.alloc(), 2, 2_000, 64)?;
    let rows = [
        [0, 0, START, 0],
        [0, 1, START, 1],
        [400, 0, FOUND, 0],
        [400, 1, FOUND, 0],
        [700, 0, DONE, 0],
        [700, 0, START, 2],
        [700, 1, DONE, 0],
        [1_100, 0, FOUND, 0],
        [1_400, 0, HALT, 0],
    ];
    assert!(rt; is_outline(rt.alloc(), &history, &rows, &[1, 1], &[1_400, 2_700])?);
    Ok(())
}

// What is pending at the limit of work is dropped with its record.
#[test]
fn work_ends_at_its_limit(rt: HostRuntime) -> Result<(), Fail> {
    let history = relay_history(rt.alloc(), 2, 700, 1_000)?;
    let rows = [
        [0, 0, START, 0],
        [0, 1, START, 1],
        [400, 0, FOUND, 0],
        [400, 1, FOUND, 0],
    ];
    assert!(rt; is_outline(rt.alloc(), &history, &rows, &[0, 0], &[700, 700])?);
    Ok(())
}

// Two whole tasks have 62 words, all that fit. A third one doesn't.
#[test]
fn a_task_that_does_not_fit_is_not_taken(rt: HostRuntime) -> Result<(), Fail> {
    let history = relay_history(rt.alloc(), 1, 5_000, 66)?;
    let rows = [
        [0, 0, START, 0],
        [400, 0, FOUND, 0],
        [700, 0, DONE, 0],
        [700, 0, START, 1],
        [1_100, 0, FOUND, 0],
        [1_400, 0, DONE, 0],
        [1_400, 0, HALT, 0],
    ];
    assert!(rt; is_outline(rt.alloc(), &history, &rows, &[2], &[1_400])?);
    Ok(())
}

/// The parts of a move of a slot at 700, with the end of its task pending and two tasks begun: the kinds of what joins
/// first and of what it takes, its node, and the slot's clock and words afterwards. None where the slot's move reads no
/// history, or the slot doesn't go on.
fn parts_of_move(alloc: Global) -> Result<Option<[u64; 5]>, OutOfMemory> {
    let limits = Limits {
        slots: 2,
        work: 2_000,
        store: 1_000,
    };
    let mut pending = List::new(alloc);
    pending.push(Entry::Done)?;
    let live = Live {
        local: 0,
        pending,
        leaves: List::new(alloc),
    };
    let slot = Slot {
        clock: 700,
        words: 28,
        records: List::new(alloc),
        live: Some(live),
    };
    if !reads_history(&Relay, &limits, &slot) {
        return Ok(None);
    }
    let Opening::Goes { turn: first, local } = pending_opening(alloc, &limits, slot)? else {
        return Ok(None);
    };
    let Opening::Goes { turn: next, local } = task_opening(
        alloc,
        &Relay,
        &limits,
        &(2, 1),
        first.slot,
        local,
    )?
    else {
        return Ok(None);
    };
    let (joined, _) = first_kind(&first.entries);
    let (taken, node) = first_kind(&next.entries);
    let mut pulse = NoPulse::new();
    let after = slot_after_chunk(alloc, &Relay, next.slot, local, &mut pulse)?;
    Ok(Some([joined, taken, node, after.clock, after.words]))
}

/// The number of the first entry's kind, and the node of a Start.
fn first_kind(entries: &List<Entry>) -> (u64, u64) {
    match entries.as_slice().first() {
        Some(entry) => kind_and_node(entry),
        None => (0, 0),
    }
}

// The third task is taken at 700, and its first chunk counts 400.
#[test]
fn a_move_has_parts(rt: HostRuntime) -> Result<(), Fail> {
    assert!(rt; parts_of_move(rt.alloc())? == Some([DONE, START, 2, 1_100, 35]));
    Ok(())
}

// The laws have nothing to run. This shows that a system of tasks and limits meet what they ask.
#[test]
fn laws_are_said_of_the_relay(_rt: HostRuntime) -> Result<(), Fail> {
    let limits = Limits {
        slots: 2,
        work: 2_000,
        store: 1_000,
    };
    moves_keep_the_laws(&Relay, &limits);
    clocks_rise(&Relay, &limits);
    keys_rise(&Relay, &limits);
    machine_stops(&Relay, &limits);
    history_is_sorted(&Relay, &limits);
    lesser_keys_are_before(&Relay, &limits);
    slots_play_by_the_history(&Relay, &limits);
    live_slots_are_chosen(&Relay, &limits);
    live_locals_fit(&Relay, &limits);
    logs_are_known(&Relay, &limits);
    ends_are_known(&Relay, &limits);
    moves_are_in_front(&Relay, &limits);
    records_have_chunks(&Relay, &limits);
    entries_have_origins(&Relay, &limits);
    entries_have_words(&Relay, &limits);
    clocks_are_low(&Relay, &limits);
    entries_fit_stores(&Relay, &limits);
    over_slots_are_last(&Relay, &limits);
    machine_turns_are_by_the_history(&Relay, &limits);
    own_moves_keep_the_laws(&Relay, &limits);
    turns_have_parts(&Relay, &limits);
    running_tasks_read_nothing(&Relay, &limits);
    keys_part_by_slots();
    least_key_is_first();
    sorted_histories_are_same();
    Ok(())
}
