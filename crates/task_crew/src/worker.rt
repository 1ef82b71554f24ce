//! The work of one thread of a crew.
ghost use Rattle.std.specs.Prelude.{◌≡◌, ◌+◌, ◌++◌, ◌∷◌, ◌<◌, ◌≤◌, [], length, true, vec_capacity, vec_len, IfNone, IfOk, IfSome};
ghost use Rattle.crossbeam_queue.specs.Passes.{IsPassOf, ruled_capacity, view};
ghost use Rattle.task_crew.specs.Crews.{AreHeld, HoldsAll, IsAfterMove, IsAfterTurn, IsAtWork, IsCrew, IsOverAll, IsServing, IsWorker, WhenEmpty, WhenGoesOn, WhenOver, run_of, run_on};
ghost use Rattle.version_store.specs.Advances.{lives};

use crate::gate::Gate;
use crate::item::{Awaited, QueueItem, awaited_of, awaited_still};
use crate::rule::{Leave, Pass, Queue, Return};
use clock_words::Board;
use ip_core::OutOfMemory;
use stamp_machine::Limits;
use std::alloc::Global;
use std::hint::spin_loop;
use std::sync::Wait;
use std::sync::atomic::{AtomicU64, Ordering};
use std::thread;
use version_store::{Advance, Carrier, RunStory};
use work_stamp::Tasker;

/// After so many looks in vain a worker lets other threads run.
const LOOKS: u32 = 100;

/// What the workers of a crew share. At most so many carriers wait with a worker. How many slots are
/// over is a hint on which no contract rests: a worker that finds no carrier returns where all are. A
/// stop adds all slots to it.
#[derive(Drop)]
pub(crate) struct Crew<'a, 't, T: Tasker, G> {
    pub board: &'a Board<RunStory<'t, T>>,
    pub tasker: &'a T,
    pub limits: &'a Limits,
    pub gate: &'a G,
    pub queue: &'a Queue<T>,
    pub most_waiting: usize,
    pub ended_slots: &'a AtomicU64,
}

/// A pass of the queue, the carriers that its worker keeps, whose slots are over, and those that
/// wait with it, which are at most as many as there is room for.
#[derive(Drop)]
pub(crate) struct Worker<T: Tasker> {
    pub pass: Pass<T>,
    pub kept: Vec<Carrier<T>>,
    pub waiting: Vec<QueueItem<T>>,
}

/// Why a worker returns.
#[derive(Clone, Copy)]
pub enum End {
    /// It found the queue empty, or had no memory to begin, and no carrier waits with it.
    Empty,
    /// It found a stop, or called it.
    Stopped,
}

/// What a turn makes of a carrier.
#[derive(Clone, Copy)]
pub enum After {
    /// It can go on at once.
    Goes,
    /// It can go on when another slot has, as far as is known.
    Waits(Awaited),
    /// Its slot is over.
    Over,
    /// It found a stop, and made no move.
    Halted,
    /// It found no memory, and called the stop.
    Broken,
}

/// What a worker does after a step.
#[derive(Clone, Copy)]
pub enum Next {
    /// It served a carrier, and goes on.
    Served,
    /// It found none that may move, and looks again.
    Idle,
    /// It returns, for this reason.
    Ends(End),
}

/// Makes the next move of a carrier.
fn move_once<T: Tasker, G>(
    alloc: Global,
    crew: &Crew<'_, '_, T, G>,
    carrier: &mut Carrier<T>,
) -> Result<Advance, OutOfMemory>
    requires crew { IsCrew (T.rules crew.now.tasker.now) crew.now.limits.now crew.now.board.now
        (ruled_capacity crew.now.queue.now) }
    requires run { run_of carrier.old ≡
        run_on crew.now.tasker.now crew.now.limits.now crew.now.board.now }
    requires lives { lives carrier.old ≡ true }
    ensures run { run_of carrier.new ≡ run_of carrier.old }
    ensures slot { carrier.new.seat.slot ≡ carrier.old.seat.slot }
    ensures after { IfOk result (λ does. IsAfterMove does carrier.new) }
{
    carrier.advance(alloc, crew.board, crew.tasker, crew.limits)
}

/// Lets a carrier make its next move, unless a stop was called or it has to wait on.
fn turn<T: Tasker, G: Gate>(
    alloc: Global,
    crew: &Crew<'_, '_, T, G>,
    mut carrier: Carrier<T>,
    awaited: Option<Awaited>,
) -> (Carrier<T>, After)
    requires crew { IsCrew (T.rules crew.now.tasker.now) crew.now.limits.now crew.now.board.now
        (ruled_capacity crew.now.queue.now) }
    requires run { run_of carrier ≡
        run_on crew.now.tasker.now crew.now.limits.now crew.now.board.now }
    requires lives { lives carrier ≡ true }
    ensures run { run_of result.0 ≡ run_of carrier }
    ensures slot { result.0.seat.slot ≡ carrier.seat.slot }
    ensures after { IsAfterTurn result.1 result.0 }
{
    if carrier.stop_seen(crew.board) {
        return (carrier, After::Halted);
    }
    if let Some(still) = awaited_still(crew, awaited) {
        return (carrier, After::Waits(still));
    }
    crew.gate.arrive(carrier.slot(), carrier.clock());
    match move_once(alloc, crew, &mut carrier) {
        Ok(Advance::Moved) => (carrier, After::Goes),
        Ok(Advance::Blocked { slot, .. }) => {
            let awaited = awaited_of(&carrier, slot);
            (carrier, After::Waits(awaited))
        }
        Ok(Advance::Ended) => (carrier, After::Over),
        Err(OutOfMemory) => {
            carrier.call_stop(crew.board);
            (carrier, After::Broken)
        }
    }
}

/// Puts a carrier back into the queue.
fn put_back<T: Tasker, G: Gate, R: Wait>(
    rt: &R,
    crew: &Crew<'_, '_, T, G>,
    mut worker: Worker<T>,
    item: QueueItem<T>,
) -> Worker<T>
    requires crew { IsCrew (T.rules crew.now.tasker.now) crew.now.limits.now crew.now.board.now
        (ruled_capacity crew.now.queue.now) }
    requires queue { IsPassOf crew.now.queue.now worker.pass }
    requires serving { IsServing
        (run_on crew.now.tasker.now crew.now.limits.now crew.now.board.now)
        (view worker.pass) worker.kept.items worker.waiting.items item }
    ensures queue { IsPassOf crew.now.queue.now result.pass }
    ensures parts { (view result.pass).parts ≡ (view worker.pass).parts }
    ensures kept { result.kept ≡ worker.kept }
    ensures work { IsAtWork
        (run_on crew.now.tasker.now crew.now.limits.now crew.now.board.now)
        (view result.pass) result.kept.items result.waiting.items }
{
    let Ok(()) = crew.queue.push_as::<Return, R>(rt, &mut worker.pass, item) else {
        unreachable!()
    };
    worker
}

/// Lets a carrier wait with the worker. Where there is no room for it, it goes back into the queue,
/// and other threads run.
fn set_aside<T: Tasker, G: Gate, R: Wait>(
    rt: &R,
    crew: &Crew<'_, '_, T, G>,
    mut worker: Worker<T>,
    item: QueueItem<T>,
) -> Worker<T>
    requires crew { IsCrew (T.rules crew.now.tasker.now) crew.now.limits.now crew.now.board.now
        (ruled_capacity crew.now.queue.now) }
    requires queue { IsPassOf crew.now.queue.now worker.pass }
    requires serving { IsServing
        (run_on crew.now.tasker.now crew.now.limits.now crew.now.board.now)
        (view worker.pass) worker.kept.items worker.waiting.items item }
    ensures queue { IsPassOf crew.now.queue.now result.pass }
    ensures parts { (view result.pass).parts ≡ (view worker.pass).parts }
    ensures kept { result.kept ≡ worker.kept }
    ensures work { IsAtWork
        (run_on crew.now.tasker.now crew.now.limits.now crew.now.board.now)
        (view result.pass) result.kept.items result.waiting.items }
{
    if worker.waiting.len() < worker.waiting.capacity() {
        worker.waiting.push_reserved(item);
        return worker;
    }
    let worker = put_back(rt, crew, worker, item);
    thread::yield_now();
    worker
}

/// Keeps a carrier, for which there is room.
fn keep<T: Tasker>(mut worker: Worker<T>, carrier: Carrier<T>) -> Worker<T>
    requires room { vec_len worker.kept < vec_capacity worker.kept }
    ensures pass { result.pass ≡ worker.pass }
    ensures kept { result.kept.items ≡ worker.kept.items ++ carrier ∷ [] }
    ensures room { vec_capacity worker.kept ≤ vec_capacity result.kept }
    ensures waiting { result.waiting ≡ worker.waiting }
{
    worker.kept.push_reserved(carrier);
    worker
}

/// Gives a carrier that is out of the queue a turn, and says whether the worker goes on.
fn serve<T: Tasker, G: Gate, R: Wait>(
    rt: &R,
    alloc: Global,
    crew: &Crew<'_, '_, T, G>,
    worker: Worker<T>,
    item: QueueItem<T>,
) -> (Worker<T>, bool)
    requires crew { IsCrew (T.rules crew.now.tasker.now) crew.now.limits.now crew.now.board.now
        (ruled_capacity crew.now.queue.now) }
    requires queue { IsPassOf crew.now.queue.now worker.pass }
    requires serving { IsServing
        (run_on crew.now.tasker.now crew.now.limits.now crew.now.board.now)
        (view worker.pass) worker.kept.items worker.waiting.items item }
    requires room { crew.now.limits.now.slots ≤ vec_capacity worker.kept }
    ensures queue { IsPassOf crew.now.queue.now result.0.pass }
    ensures parts { (view result.0.pass).parts ≡ (view worker.pass).parts }
    ensures room { crew.now.limits.now.slots ≤ vec_capacity result.0.kept }
    ensures worker { IsWorker
        (run_on crew.now.tasker.now crew.now.limits.now crew.now.board.now) (view result.0.pass) }
    ensures held { AreHeld (view result.0.pass).holds
        (result.0.kept.items ++ result.0.waiting.items) }
    ensures work { result.1 ≡ true → IsAtWork
        (run_on crew.now.tasker.now crew.now.limits.now crew.now.board.now)
        (view result.0.pass) result.0.kept.items result.0.waiting.items }
{
    let (carrier, awaited) = item.into_parts();
    let (carrier, after) = turn(alloc, crew, carrier, awaited);
    match after {
        After::Goes => (
            put_back(rt, crew, worker, QueueItem::new(carrier, None)),
            true,
        ),
        After::Waits(awaited) => (
            set_aside(rt, crew, worker, QueueItem::new(carrier, Some(awaited))),
            true,
        ),
        After::Over => {
            crew.ended_slots.fetch_add(1, Ordering::Relaxed);
            (keep(worker, carrier), true)
        }
        After::Halted => (
            put_back(rt, crew, worker, QueueItem::new(carrier, None)),
            false,
        ),
        After::Broken => (keep(worker, carrier), false),
    }
}

/// Takes the next carrier out of the queue.
fn take_out<T: Tasker, G, R: Wait>(
    rt: &R,
    crew: &Crew<'_, '_, T, G>,
    mut worker: Worker<T>,
) -> (Worker<T>, Option<QueueItem<T>>)
    requires queue { IsPassOf crew.now.queue.now worker.pass }
    requires work { IsAtWork
        (run_on crew.now.tasker.now crew.now.limits.now crew.now.board.now)
        (view worker.pass) worker.kept.items worker.waiting.items }
    ensures queue { IsPassOf crew.now.queue.now result.0.pass }
    ensures parts { (view result.0.pass).parts ≡ (view worker.pass).parts }
    ensures kept { result.0.kept ≡ worker.kept }
    ensures serving { IfSome result.1 (λ item. IsServing
        (run_on crew.now.tasker.now crew.now.limits.now crew.now.board.now)
        (view result.0.pass) result.0.kept.items result.0.waiting.items item) }
    ensures work { IfNone result.1 (IsAtWork
        (run_on crew.now.tasker.now crew.now.limits.now crew.now.board.now)
        (view result.0.pass) result.0.kept.items result.0.waiting.items) }
    ensures all { IfNone result.1 (HoldsAll (view result.0.pass)) }
{
    let item = crew.queue.pop_as::<Leave, R>(rt, &mut worker.pass);
    (worker, item)
}

/// The place of a carrier whose awaited clock has come, as far as a plain look tells.
fn first_ready<T: Tasker, G>(crew: &Crew<'_, '_, T, G>, waiting: &[QueueItem<T>]) -> Option<usize>
    requires crew { IsCrew (T.rules crew.now.tasker.now) crew.now.limits.now crew.now.board.now
        (ruled_capacity crew.now.queue.now) }
    ensures { IfSome result (λ place. place < length waiting.now) }
{
    for place in 0..waiting.len() {
        if awaited_still(crew, waiting[place].awaited()).is_none() {
            return Some(place);
        }
    }
    None
}

/// Takes up a carrier that waits with the worker.
fn take_up<T: Tasker, G>(
    crew: &Crew<'_, '_, T, G>,
    mut worker: Worker<T>,
    place: usize,
) -> (Worker<T>, QueueItem<T>)
    requires place { place < vec_len worker.waiting }
    requires stands { place < length worker.waiting.items }
    requires work { IsAtWork
        (run_on crew.now.tasker.now crew.now.limits.now crew.now.board.now)
        (view worker.pass) worker.kept.items worker.waiting.items }
    ensures pass { result.0.pass ≡ worker.pass }
    ensures kept { result.0.kept ≡ worker.kept }
    ensures serving { IsServing
        (run_on crew.now.tasker.now crew.now.limits.now crew.now.board.now)
        (view result.0.pass) result.0.kept.items result.0.waiting.items result.1 }
{
    let _ = crew;
    let item = worker.waiting.remove(place);
    (worker, item)
}

/// The carrier that the worker serves next: one that waited with it and may move, or else the next
/// one of the queue.
fn next_item<T: Tasker, G, R: Wait>(
    rt: &R,
    crew: &Crew<'_, '_, T, G>,
    worker: Worker<T>,
) -> (Worker<T>, Option<QueueItem<T>>)
    requires crew { IsCrew (T.rules crew.now.tasker.now) crew.now.limits.now crew.now.board.now
        (ruled_capacity crew.now.queue.now) }
    requires queue { IsPassOf crew.now.queue.now worker.pass }
    requires work { IsAtWork
        (run_on crew.now.tasker.now crew.now.limits.now crew.now.board.now)
        (view worker.pass) worker.kept.items worker.waiting.items }
    ensures queue { IsPassOf crew.now.queue.now result.0.pass }
    ensures parts { (view result.0.pass).parts ≡ (view worker.pass).parts }
    ensures kept { result.0.kept ≡ worker.kept }
    ensures serving { IfSome result.1 (λ item. IsServing
        (run_on crew.now.tasker.now crew.now.limits.now crew.now.board.now)
        (view result.0.pass) result.0.kept.items result.0.waiting.items item) }
    ensures work { IfNone result.1 (IsAtWork
        (run_on crew.now.tasker.now crew.now.limits.now crew.now.board.now)
        (view result.0.pass) result.0.kept.items result.0.waiting.items) }
    ensures all { IfNone result.1 (HoldsAll (view result.0.pass)) }
{
    match first_ready(crew, worker.waiting.as_slice()) {
        Some(place) => {
            let (worker, item) = take_up(crew, worker, place);
            (worker, Some(item))
        }
        None => take_out(rt, crew, worker),
    }
}

/// What a worker does that found no carrier: it returns where no slot lives, or a stop was called.
fn idle_next<T: Tasker, G>(crew: &Crew<'_, '_, T, G>, waiting: &[QueueItem<T>]) -> Next
    ensures { WhenOver result (waiting.now ≡ []) }
{
    if crew.ended_slots.load(Ordering::Relaxed) < u64::from(crew.limits.slots) {
        return Next::Idle;
    }
    Next::Ends(if waiting.is_empty() {
        End::Empty
    } else {
        End::Stopped
    })
}

/// Serves a carrier, where one may move.
fn step<T: Tasker, G: Gate, R: Wait>(
    rt: &R,
    alloc: Global,
    crew: &Crew<'_, '_, T, G>,
    worker: Worker<T>,
) -> (Worker<T>, Next)
    requires crew { IsCrew (T.rules crew.now.tasker.now) crew.now.limits.now crew.now.board.now
        (ruled_capacity crew.now.queue.now) }
    requires queue { IsPassOf crew.now.queue.now worker.pass }
    requires work { IsAtWork
        (run_on crew.now.tasker.now crew.now.limits.now crew.now.board.now)
        (view worker.pass) worker.kept.items worker.waiting.items }
    requires room { crew.now.limits.now.slots ≤ vec_capacity worker.kept }
    ensures queue { IsPassOf crew.now.queue.now result.0.pass }
    ensures parts { (view result.0.pass).parts ≡ (view worker.pass).parts }
    ensures room { crew.now.limits.now.slots ≤ vec_capacity result.0.kept }
    ensures worker { IsWorker
        (run_on crew.now.tasker.now crew.now.limits.now crew.now.board.now) (view result.0.pass) }
    ensures held { AreHeld (view result.0.pass).holds
        (result.0.kept.items ++ result.0.waiting.items) }
    ensures work { WhenGoesOn result.1 (IsAtWork
        (run_on crew.now.tasker.now crew.now.limits.now crew.now.board.now)
        (view result.0.pass) result.0.kept.items result.0.waiting.items) }
    ensures kept { WhenOver result.1 (IsOverAll
        (run_on crew.now.tasker.now crew.now.limits.now crew.now.board.now)
        (view result.0.pass) result.0.kept.items) }
    ensures all { WhenOver result.1 (HoldsAll (view result.0.pass)) }
{
    let (holder, item) = next_item(rt, crew, worker);
    let Some(item) = item else {
        let next = idle_next(crew, holder.waiting.as_slice());
        return (holder, next);
    };
    let (after, goes_on) = serve(rt, alloc, crew, holder, item);
    if goes_on {
        return (after, Next::Served);
    }
    crew.ended_slots
        .fetch_add(u64::from(crew.limits.slots), Ordering::Relaxed);
    (after, Next::Ends(End::Stopped))
}

/// Lets some time pass after so many looks in vain, and gives the number of looks.
fn pause(looks: u32) -> u32 {
    if looks < LOOKS {
        spin_loop();
        return looks + 1;
    }
    thread::yield_now();
    looks
}

/// Serves one carrier after the other, until no slot lives or a stop was called.
fn work<T: Tasker, G: Gate, R: Wait>(
    rt: &R,
    alloc: Global,
    crew: &Crew<'_, '_, T, G>,
    mut worker: Worker<T>,
) -> (Worker<T>, End)
    requires crew { IsCrew (T.rules crew.now.tasker.now) crew.now.limits.now crew.now.board.now
        (ruled_capacity crew.now.queue.now) }
    requires queue { IsPassOf crew.now.queue.now worker.pass }
    requires work { IsAtWork
        (run_on crew.now.tasker.now crew.now.limits.now crew.now.board.now)
        (view worker.pass) worker.kept.items worker.waiting.items }
    requires room { crew.now.limits.now.slots ≤ vec_capacity worker.kept }
    ensures queue { IsPassOf crew.now.queue.now result.0.pass }
    ensures parts { (view result.0.pass).parts ≡ (view worker.pass).parts }
    ensures worker { IsWorker
        (run_on crew.now.tasker.now crew.now.limits.now crew.now.board.now) (view result.0.pass) }
    ensures held { AreHeld (view result.0.pass).holds
        (result.0.kept.items ++ result.0.waiting.items) }
    ensures kept { WhenEmpty result.1 (IsOverAll
        (run_on crew.now.tasker.now crew.now.limits.now crew.now.board.now)
        (view result.0.pass) result.0.kept.items) }
    ensures all { WhenEmpty result.1 (HoldsAll (view result.0.pass)) }
{
    let mut looks = 0;
    for _ in rt.forever() {
        let (after, next) = step(rt, alloc, crew, worker);
        worker = after;
        match next {
            Next::Served => looks = 0,
            Next::Idle => looks = pause(looks),
            Next::Ends(end) => return (worker, end),
        }
    }
    unreachable!()
}

/// Room for so many carriers that wait with a worker, or none where there is no memory for it.
fn room_for_waiting<T: Tasker>(alloc: Global, carriers: usize) -> Vec<QueueItem<T>>
    ensures { result.items ≡ [] }
{
    match Vec::with_capacity(alloc, carriers) {
        Ok(room) => room,
        Err(_) => Vec::new(alloc),
    }
}

/// The same for a pass whose worker keeps these carriers, and has room for those of all slots.
pub(crate) fn start<T: Tasker, G: Gate, R: Wait>(
    rt: &R,
    alloc: Global,
    crew: &Crew<'_, '_, T, G>,
    pass: Pass<T>,
    kept: Vec<Carrier<T>>,
) -> (Worker<T>, End)
    requires crew { IsCrew (T.rules crew.now.tasker.now) crew.now.limits.now crew.now.board.now
        (ruled_capacity crew.now.queue.now) }
    requires queue { IsPassOf crew.now.queue.now pass }
    requires worker { IsWorker
        (run_on crew.now.tasker.now crew.now.limits.now crew.now.board.now) (view pass) }
    requires kept { IsOverAll
        (run_on crew.now.tasker.now crew.now.limits.now crew.now.board.now) (view pass) kept.items }
    requires room { crew.now.limits.now.slots ≤ vec_capacity kept }
    ensures queue { IsPassOf crew.now.queue.now result.0.pass }
    ensures parts { (view result.0.pass).parts ≡ (view pass).parts }
    ensures worker { IsWorker
        (run_on crew.now.tasker.now crew.now.limits.now crew.now.board.now) (view result.0.pass) }
    ensures held { AreHeld (view result.0.pass).holds
        (result.0.kept.items ++ result.0.waiting.items) }
    ensures kept { WhenEmpty result.1 (IsOverAll
        (run_on crew.now.tasker.now crew.now.limits.now crew.now.board.now)
        (view result.0.pass) result.0.kept.items) }
    ensures all { WhenEmpty result.1 (HoldsAll (view result.0.pass)) }
{
    let waiting = room_for_waiting(alloc, crew.most_waiting);
    let worker = Worker {
        pass,
        kept,
        waiting,
    };
    work(rt, alloc, crew, worker)
}

/// The same for a pass whose worker keeps nothing yet. Where there is no memory for what it may come
/// to keep, it leaves all carriers to the others.
pub(crate) fn start_first<T: Tasker, G: Gate, R: Wait>(
    rt: &R,
    alloc: Global,
    crew: &Crew<'_, '_, T, G>,
    pass: Pass<T>,
) -> (Worker<T>, End)
    requires crew { IsCrew (T.rules crew.now.tasker.now) crew.now.limits.now crew.now.board.now
        (ruled_capacity crew.now.queue.now) }
    requires queue { IsPassOf crew.now.queue.now pass }
    requires worker { IsWorker
        (run_on crew.now.tasker.now crew.now.limits.now crew.now.board.now) (view pass) }
    requires none { (view pass).holds ≡ [] }
    ensures queue { IsPassOf crew.now.queue.now result.0.pass }
    ensures worker { IsWorker
        (run_on crew.now.tasker.now crew.now.limits.now crew.now.board.now) (view result.0.pass) }
    ensures parts { (view result.0.pass).parts ≡ (view pass).parts }
    ensures kept { WhenEmpty result.1 (IsOverAll
        (run_on crew.now.tasker.now crew.now.limits.now crew.now.board.now)
        (view result.0.pass) result.0.kept.items) }
{
    let Ok(kept) = Vec::with_capacity(alloc, crew.limits.slots as usize) else {
        return (
            Worker {
                pass,
                kept: Vec::new(alloc),
                waiting: Vec::new(alloc),
            },
            End::Empty,
        );
    };
    start(rt, alloc, crew, pass, kept)
}
