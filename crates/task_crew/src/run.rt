//! The threads of a crew, and the history that they leave.
ghost use Rattle.std.specs.Prelude.{◌≡◌, ◌+◌, ◌++◌, ◌<◌, ◌≤◌, [], true, IfOk};
ghost use Rattle.std.specs.Thread.{IsSync};
ghost use Rattle.clock_words.specs.Seats.{new_seat, new_seats};
ghost use Rattle.crossbeam_queue.specs.Passes.{IsPassOf, ruled_capacity, view};
ghost use Rattle.stamp_machine.specs.Limits.{AreLimits};
ghost use Rattle.stamp_machine.specs.Machine.{history as history_of};
ghost use Rattle.task_crew.specs.Crews.{CanWork, HasWorked, IsCrew, IsOverAll, IsWorker, WhenEmpty, end_of, run_of, run_on};
ghost use Rattle.version_store.specs.Advances.{lives};
ghost use Rattle.version_store.specs.Gathers.{AreEnded};
ghost use Rattle.task_crew.specs.Hands.{filled, first_hand};

use crate::gate::Gate;
use crate::item::QueueItem;
use crate::rule::{Enter, Pass, Queue, Share, TakeIn};
use crate::worker::{Crew, End, Worker, start, start_first};
use clock_words::{Board, BoardSeat};
use ip_core::{List, OutOfMemory};
use stamp_machine::{History, Limits, entries_fit_stores};
use std::alloc::Global;
use std::sync::Wait;
use std::sync::atomic::AtomicU64;
use std::thread;
use std::thread::{Threads, available_parallelism};
use version_store::{Carrier, RunStory, gather};
use work_stamp::Tasker;

/// Puts a new carrier into the queue, under the next slot.
fn put_in<T: Tasker, G, R: Wait>(
    rt: &R,
    crew: &Crew<'_, '_, T, G>,
    mut pass: Pass<T>,
    carrier: Carrier<T>,
) -> Pass<T>
    requires queue { IsPassOf crew.now.queue.now pass }
    requires lives { lives carrier ≡ true }
    requires room { carrier.seat.slot < ruled_capacity crew.now.queue.now }
    requires filled { view pass ≡ filled (run_of carrier) carrier.seat.slot }
    ensures queue { IsPassOf crew.now.queue.now result }
    ensures filled { view result ≡ filled (run_of carrier) (carrier.seat.slot + 1) }
{
    // There is room for it, so it doesn't come back.
    let _ = crew
        .queue
        .push_as::<Enter, R>(rt, &mut pass, QueueItem::new(carrier, None));
    pass
}

/// Puts a carrier for a seat of the board into the queue, under the next slot.
fn enter<T: Tasker, G, R: Wait>(
    rt: &R,
    alloc: Global,
    crew: &Crew<'_, '_, T, G>,
    pass: Pass<T>,
    seat: BoardSeat,
) -> Result<Pass<T>, OutOfMemory>
    requires crew { IsCrew (T.rules crew.now.tasker.now) crew.now.limits.now crew.now.board.now
        (ruled_capacity crew.now.queue.now) }
    requires queue { IsPassOf crew.now.queue.now pass }
    requires seat { seat ≡ new_seat crew.now.board.now seat.slot }
    requires slot { seat.slot < crew.now.limits.now.slots }
    requires filled { view pass ≡ filled
        (run_on crew.now.tasker.now crew.now.limits.now crew.now.board.now) seat.slot }
    ensures queue { IfOk result (λ after. IsPassOf crew.now.queue.now after) }
    ensures filled { IfOk result (λ after. view after ≡ filled
        (run_on crew.now.tasker.now crew.now.limits.now crew.now.board.now) (seat.slot + 1)) }
{
    let carrier = Carrier::new(alloc, crew.tasker, crew.limits, seat)?;
    Ok(put_in(rt, crew, pass, carrier))
}

/// Puts a carrier for each seat into the queue, in the order of their slots.
fn fill<T: Tasker, G, R: Wait>(
    rt: &R,
    alloc: Global,
    crew: &Crew<'_, '_, T, G>,
    seats: List<BoardSeat>,
    mut pass: Pass<T>,
) -> Result<Pass<T>, OutOfMemory>
    requires crew { IsCrew (T.rules crew.now.tasker.now) crew.now.limits.now crew.now.board.now
        (ruled_capacity crew.now.queue.now) }
    requires seats { seats ≡ new_seats crew.now.board.now crew.now.limits.now.slots }
    requires queue { IsPassOf crew.now.queue.now pass }
    requires first { view pass ≡ first_hand }
    ensures queue { IfOk result (λ after. IsPassOf crew.now.queue.now after) }
    ensures filled { IfOk result (λ after. view after ≡ filled
        (run_on crew.now.tasker.now crew.now.limits.now crew.now.board.now)
        crew.now.limits.now.slots) }
{
    for seat in seats.into_vec() {
        pass = enter(rt, alloc, crew, pass, seat)?;
    }
    Ok(pass)
}

/// Keeps further carriers, and says whether there was memory for them.
fn keep_all<T: Tasker>(mut worker: Worker<T>, mut others: Vec<Carrier<T>>) -> (Worker<T>, bool)
    ensures pass { result.0.pass ≡ worker.pass }
    ensures kept { result.1 ≡ true → result.0.kept.items ≡ worker.kept.items ++ others.items }
{
    let fits = worker.kept.append(&mut others).is_ok();
    (worker, fits)
}

/// Why two workers return: where both found the queue empty, and there was memory for what they
/// keep, it was empty.
fn end_of_both(fits: bool, one: End, other: End) -> End
    ensures { result ≡ end_of fits one other }
{
    if !fits {
        return End::Stopped;
    }
    match one {
        End::Empty => other,
        End::Stopped => End::Stopped,
    }
}

/// What two workers leave.
fn both<T: Tasker, G>(
    crew: &Crew<'_, '_, T, G>,
    one: (Worker<T>, End),
    other: (Worker<T>, End),
) -> (Worker<T>, End)
    requires queue { IsPassOf crew.now.queue.now one.0.pass }
    requires other { IsPassOf crew.now.queue.now other.0.pass }
    requires worker { IsWorker
        (run_on crew.now.tasker.now crew.now.limits.now crew.now.board.now) (view one.0.pass) }
    requires kept { WhenEmpty one.1 (IsOverAll
        (run_on crew.now.tasker.now crew.now.limits.now crew.now.board.now)
        (view one.0.pass) one.0.kept.items) }
    requires also { WhenEmpty other.1 (IsOverAll
        (run_on crew.now.tasker.now crew.now.limits.now crew.now.board.now)
        (view other.0.pass) other.0.kept.items) }
    ensures queue { IsPassOf crew.now.queue.now result.0.pass }
    ensures worker { IsWorker
        (run_on crew.now.tasker.now crew.now.limits.now crew.now.board.now) (view result.0.pass) }
    ensures parts { (view result.0.pass).parts ≡
        (view one.0.pass).parts + (view other.0.pass).parts }
    ensures kept { WhenEmpty result.1 (IsOverAll
        (run_on crew.now.tasker.now crew.now.limits.now crew.now.board.now)
        (view result.0.pass) result.0.kept.items) }
{
    let (mut worker, end) = one;
    let (other, other_end) = other;
    let Worker {
        pass,
        kept,
        waiting: _,
    } = other;
    crew.queue.absorb::<TakeIn>(&mut worker.pass, pass);
    let (worker, fits) = keep_all(worker, kept);
    (worker, end_of_both(fits, end, other_end))
}

/// Parts a pass that holds nothing in two, of which the first one keeps one part.
fn share<T: Tasker, G>(crew: &Crew<'_, '_, T, G>, mut pass: Pass<T>) -> (Pass<T>, Pass<T>)
    requires queue { IsPassOf crew.now.queue.now pass }
    requires worker { IsWorker
        (run_on crew.now.tasker.now crew.now.limits.now crew.now.board.now) (view pass) }
    requires more { 1 < (view pass).parts }
    requires none { (view pass).holds ≡ [] }
    ensures queue { IsPassOf crew.now.queue.now result.0 }
    ensures others { IsPassOf crew.now.queue.now result.1 }
    ensures worker { IsWorker
        (run_on crew.now.tasker.now crew.now.limits.now crew.now.board.now) (view result.0) }
    ensures also { IsWorker
        (run_on crew.now.tasker.now crew.now.limits.now crew.now.board.now) (view result.1) }
    ensures none { (view result.0).holds ≡ [] }
    ensures nothing { (view result.1).holds ≡ [] }
    ensures part { (view result.0).parts ≡ 1 }
    ensures parts { (view result.1).parts + 1 ≡ (view pass).parts }
{
    let others = crew.queue.another::<Share>(&mut pass);
    (pass, others)
}

/// Lets so many workers work, each in a thread of its own but the last one, which is the caller.
/// Where a thread can't be started, the caller does its work.
fn workers<T: Tasker + Sync, G: Gate + Sync, R: Threads + Wait + Sync>(
    rt: &R,
    alloc: Global,
    crew: &Crew<'_, '_, T, G>,
    threads: u32,
    pass: Pass<T>,
) -> (Worker<T>, End)
    requires crew { IsCrew (T.rules crew.now.tasker.now) crew.now.limits.now crew.now.board.now
        (ruled_capacity crew.now.queue.now) }
    requires queue { IsPassOf crew.now.queue.now pass }
    requires worker { IsWorker
        (run_on crew.now.tasker.now crew.now.limits.now crew.now.board.now) (view pass) }
    requires none { (view pass).holds ≡ [] }
    requires threads { (0 < threads) × (threads ≤ (view pass).parts) }
    ensures queue { IsPassOf crew.now.queue.now result.0.pass }
    ensures worker { IsWorker
        (run_on crew.now.tasker.now crew.now.limits.now crew.now.board.now) (view result.0.pass) }
    ensures parts { (view result.0.pass).parts ≡ (view pass).parts }
    ensures kept { WhenEmpty result.1 (IsOverAll
        (run_on crew.now.tasker.now crew.now.limits.now crew.now.board.now)
        (view result.0.pass) result.0.kept.items) }
{
    if threads == 1 {
        return start_first(rt, alloc, crew, pass);
    }
    let (pass, others) = share(crew, pass);
    let (one, other) = thread::join(
        rt,
        move || -> (Worker<T>, End)
            requires { IsPassOf crew.now.queue.now pass × CanWork (T.rules crew.now.tasker.now)
                (run_on crew.now.tasker.now crew.now.limits.now crew.now.board.now)
                (ruled_capacity crew.now.queue.now) (view pass) }
            ensures { IsPassOf crew.entry.now.queue.now result.0.pass × HasWorked
                (run_on crew.entry.now.tasker.now crew.entry.now.limits.now
                crew.entry.now.board.now)
                (view pass).parts (view result.0.pass) result.0.kept.items result.1 }
        { start_first(rt, alloc, crew, pass) },
        move || -> (Worker<T>, End)
            requires { IsSync T.row × IsSync G.row × IsSync R.row
                × (1 < threads) × (threads ≤ (view others).parts + 1)
                × IsPassOf crew.now.queue.now others × CanWork (T.rules crew.now.tasker.now)
                (run_on crew.now.tasker.now crew.now.limits.now crew.now.board.now)
                (ruled_capacity crew.now.queue.now) (view others) }
            ensures { IsPassOf crew.entry.now.queue.now result.0.pass × HasWorked
                (run_on crew.entry.now.tasker.now crew.entry.now.limits.now
                crew.entry.now.board.now)
                (view others).parts (view result.0.pass) result.0.kept.items result.1 }
        { workers(rt, alloc, crew, threads - 1, others) },
    );
    both(crew, one, other)
}

/// The carriers of the seats, all of which are over.
fn carriers_at_end<T: Tasker + Sync, G: Gate + Sync, R: Threads + Wait + Sync>(
    rt: &R,
    alloc: Global,
    crew: &Crew<'_, '_, T, G>,
    threads: u32,
    seats: List<BoardSeat>,
    pass: Pass<T>,
) -> Result<List<Carrier<T>>, OutOfMemory>
    requires crew { IsCrew (T.rules crew.now.tasker.now) crew.now.limits.now crew.now.board.now
        (ruled_capacity crew.now.queue.now) }
    requires threads { (0 < threads) × (threads ≤ 64) }
    requires seats { seats ≡ new_seats crew.now.board.now crew.now.limits.now.slots }
    requires queue { IsPassOf crew.now.queue.now pass }
    requires first { view pass ≡ first_hand }
    ensures { IfOk result (λ carriers. AreEnded crew.now.board.now crew.now.tasker.now
        crew.now.limits.now carriers) }
{
    let pass = fill(rt, alloc, crew, seats, pass)?;
    let (worker, end) = workers(rt, alloc, crew, threads, pass);
    let End::Empty = end else {
        return Err(OutOfMemory);
    };
    let Worker {
        pass,
        kept,
        waiting: _,
    } = worker;
    let mut kept = kept;
    kept.reserve(crew.limits.slots as usize)?;
    let (worker, end) = start(rt, alloc, crew, pass, kept);
    let End::Empty = end else {
        return Err(OutOfMemory);
    };
    Ok(List::of(worker.kept))
}

/// How many workers there are: no more than threads are asked for, than slots, and than processors,
/// or four where those are fewer.
fn number_of_workers<R: Threads>(rt: &R, threads: u32, slots: u32) -> u32
    requires { (0 < threads) × (threads ≤ 64) × (0 < slots) }
    ensures { (0 < result) × (result ≤ threads) }
{
    let processors = match available_parallelism(rt) {
        Ok(count) => u32::try_from(count.get()).unwrap_or(u32::MAX),
        Err(_) => threads,
    };
    threads.min(slots).min(processors.max(4))
}

/// Lets the slots work on 1 to 64 threads until none lives, and gives what they leave: the history
/// of the machine on one thread, however many threads there are and whatever the gate does. It waits
/// for its threads, of which there are no more than slots, nor than processors, or four where those
/// are fewer.
pub fn run_crew<T: Tasker + Sync, G: Gate + Sync, R: Threads + Wait + Sync>(
    rt: &R,
    alloc: Global,
    tasker: &T,
    limits: &Limits,
    threads: u32,
    gate: &G,
) -> Result<History, OutOfMemory>
    requires limits { AreLimits limits.now }
    requires threads { (0 < threads) × (threads ≤ 64) }
    ensures { IfOk result (λ history. history ≡ history_of (T.rules tasker.now) limits.now) }
{
    entries_fit_stores(tasker, limits);
    let story = RunStory::of(tasker, *limits);
    let (board, seats) = Board::new(alloc, story, limits.slots, limits.store)?;
    let (queue, pass) = Queue::ruled(alloc, limits.slots as usize)?;
    let ended_slots = AtomicU64::new(0);
    let workers = number_of_workers(rt, threads, limits.slots);
    let crew = Crew {
        board: &board,
        tasker,
        limits,
        gate,
        queue: &queue,
        most_waiting: limits.slots.div_ceil(workers) as usize,
        ended_slots: &ended_slots,
    };
    let carriers = carriers_at_end(rt, alloc, &crew, workers, seats, pass)?;
    gather(alloc, &board, carriers)
}
