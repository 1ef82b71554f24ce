ghost use Rattle.std.specs.Prelude.{◌≡◌, ◌≢◌, ◌<◌, ◌≤◌};

use crate::counted::CountedTasks;
use crate::numbers::are_alike;
use crate::relay::Relay;
use crate::tests::{ODD, search_of};
use crate::three_gate::ThreeGate;
use crate::watched::WatchedSearch;
use ip_core::OutOfMemory;
use stamp_machine::{Limits, run_alone};
use std::alloc::Global;
use std::sync::Wait;
use std::test::Fail;
use std::thread::Threads;
use task_crew::{Gate, MeetGate, OpenGate, run_crew};
use work_stamp::Tasker;

/// How many turns of a loop a slot waits for others at most.
const TURNS: u64 = 10_000_000;

/// The limits of a run of so many slots.
fn limits(slots: u32) -> Limits
    ensures { result ≡ record { slots = slots; work = 200000000; store = 4096 } }
{
    Limits {
        slots,
        work: 200_000_000,
        store: 4_096,
    }
}

/// Whether a crew of so many threads leaves the history of one thread, and runs as many chunks.
fn is_as_alone<T: Tasker + Sync, G: Gate + Sync, R: Threads + Wait + Sync>(
    rt: &R,
    alloc: Global,
    tasker: &T,
    slots: u32,
    threads: u32,
    gate: &G,
) -> Result<bool, OutOfMemory>
    requires slots { (0 < slots) × (slots ≤ 64) }
    requires threads { (0 < threads) × (threads ≤ 64) }
{
    let alone = CountedTasks::new(tasker);
    let history = run_alone(alloc, &alone, &limits(slots))?;
    let together = CountedTasks::new(tasker);
    let other = run_crew(rt, alloc, &together, &limits(slots), threads, gate)?;
    Ok(are_alike(alloc, &history, &other)? && alone.chunks() == together.chunks())
}

/// The first of these numbers of slots and threads with which a crew doesn't do as one thread.
fn first_apart<T: Tasker + Sync, R: Threads + Wait + Sync>(
    rt: &R,
    alloc: Global,
    tasker: &T,
) -> Result<Option<usize>, OutOfMemory> {
    for (place, (slots, threads)) in [(1, 1), (2, 1), (2, 2), (3, 2), (4, 4), (8, 3), (2, 8)]
        .into_iter()
        .enumerate()
    {
        if !is_as_alone(rt, alloc, tasker, slots, threads, &OpenGate)? {
            return Ok(Some(place));
        }
    }
    Ok(None)
}

#[test]
fn each_chunk_is_run_once(rt: HostRuntime) -> Result<(), Fail> {
    let search = search_of(rt.alloc(), &ODD)?;
    assert_eq!(rt; first_apart(&rt, rt.alloc(), &Relay)?, None);
    assert_eq!(rt; first_apart(&rt, rt.alloc(), &search)?, None);
    Ok(())
}

/// Whether two slots met, of so many on so many threads. None where the crew didn't do as one
/// thread.
fn meets<T: Tasker + Sync, R: Threads + Wait + Sync>(
    rt: &R,
    alloc: Global,
    tasker: &T,
    slots: u32,
    threads: u32,
    one: u32,
    other: u32,
) -> Result<Option<bool>, OutOfMemory>
    requires slots { (0 < slots) × (slots ≤ 64) }
    requires threads { (0 < threads) × (threads ≤ 64) }
    requires apart { one ≢ other }
{
    let gate = MeetGate::new(TURNS, one, other);
    if !is_as_alone(rt, alloc, tasker, slots, threads, &gate)? {
        return Ok(None);
    }
    Ok(Some(gate.met()))
}

#[test]
fn two_slots_meet(rt: HostRuntime) -> Result<(), Fail> {
    let search = search_of(rt.alloc(), &ODD)?;
    assert_eq!(rt; meets(&rt, rt.alloc(), &Relay, 2, 2, 0, 1)?, Some(true));
    assert_eq!(rt; meets(&rt, rt.alloc(), &search, 2, 2, 0, 1)?, Some(true));
    Ok(())
}

// One worker serves the slots one after the other.
#[test]
fn one_thread_meets_nobody(rt: HostRuntime) -> Result<(), Fail> {
    let search = search_of(rt.alloc(), &ODD)?;
    assert_eq!(rt; meets(&rt, rt.alloc(), &Relay, 2, 1, 0, 1)?, Some(false));
    assert_eq!(rt; meets(&rt, rt.alloc(), &search, 2, 1, 0, 1)?, Some(false));
    Ok(())
}

/// The first two of three slots on two threads that don't meet.
fn first_unmet<T: Tasker + Sync, R: Threads + Wait + Sync>(
    rt: &R,
    alloc: Global,
    tasker: &T,
) -> Result<Option<(u32, u32)>, OutOfMemory> {
    for (one, other) in [(0, 1), (0, 2), (1, 2)] {
        if meets(rt, alloc, tasker, 3, 2, one, other)? != Some(true) {
            return Ok(Some((one, other)));
        }
    }
    Ok(None)
}

// No worker keeps a slot for itself.
#[test]
fn carriers_pass(rt: HostRuntime) -> Result<(), Fail> {
    let search = search_of(rt.alloc(), &ODD)?;
    assert_eq!(rt; first_unmet(&rt, rt.alloc(), &Relay)?, None);
    assert_eq!(rt; first_unmet(&rt, rt.alloc(), &search)?, None);
    Ok(())
}

/// Whether three slots met on so many threads. None where the crew didn't do as one thread.
fn three_meet<T: Tasker + Sync, R: Threads + Wait + Sync>(
    rt: &R,
    alloc: Global,
    tasker: &T,
    threads: u32,
) -> Result<Option<bool>, OutOfMemory>
    requires { (0 < threads) × (threads ≤ 64) }
{
    let gate = ThreeGate::new(TURNS);
    if !is_as_alone(rt, alloc, tasker, 3, threads, &gate)? {
        return Ok(None);
    }
    Ok(Some(gate.met()))
}

// A crew has as many workers as threads were asked for.
#[test]
fn three_slots_meet(rt: HostRuntime) -> Result<(), Fail> {
    let search = search_of(rt.alloc(), &ODD)?;
    assert_eq!(rt; three_meet(&rt, rt.alloc(), &Relay, 3)?, Some(true));
    assert_eq!(rt; three_meet(&rt, rt.alloc(), &search, 3)?, Some(true));
    assert_eq!(rt; three_meet(&rt, rt.alloc(), &search, 2)?, Some(false));
    Ok(())
}

/// Whether slot 1 looked for a task while the first chunk of slot 0 ran, on so many threads. None
/// where the history isn't that of one thread.
fn is_pulse_seen<R: Threads + Wait + Sync>(
    rt: &R,
    alloc: Global,
    threads: u32,
) -> Result<Option<bool>, Fail>
    requires { (0 < threads) × (threads ≤ 64) }
{
    let search = search_of(alloc, &ODD)?;
    let alone = run_alone(alloc, &search, &limits(2))?;
    let watched = WatchedSearch::new(&search, TURNS);
    let history = run_crew(rt, alloc, &watched, &limits(2), threads, &OpenGate)?;
    if !are_alike(alloc, &alone, &history)? {
        return Ok(None);
    }
    Ok(Some(watched.was_seen()))
}

// Slot 1 moves at 0 only when slot 0 has passed 0, which only the pulse tells while the chunk runs.
#[test]
fn pulse_is_seen(rt: HostRuntime) -> Result<(), Fail> {
    assert_eq!(rt; is_pulse_seen(&rt, rt.alloc(), 2)?, Some(true));
    assert_eq!(rt; is_pulse_seen(&rt, rt.alloc(), 1)?, Some(false));
    Ok(())
}
