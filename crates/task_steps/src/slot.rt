ghost use Rattle.std.specs.Prelude.{◌≡◌, ◌≤◌, ◌<◌, ◌+◌, [], ◌∷◌, is_none, IfOk, OnOk};
ghost use Rattle.work_stamp.specs.declared.task.Begin.TheVariants.{Take};
ghost use Rattle.task_steps.specs.CutTasks.{cut_task as cut_task_of};
ghost use Rattle.task_steps.specs.DiveTasks.{dive_task as dive_task_of};
ghost use Rattle.task_steps.specs.Fits.{FitsLocal};
ghost use Rattle.task_steps.specs.Rules.{begin_of, chunk_of, dive_on as dive_on_of, fresh_local as fresh_local_of, local_with, task_on as task_on_of};

use crate::copies::{append_rows, copy_rows};
use crate::cut_chunk::cut_chunk;
use crate::dive_chunk::dive_chunk;
use crate::local::{CutTask, DiveTask, Local, NodeTask, Task};
use crate::node_chunk::node_chunk;
use crate::task_chunk::Worker;
use ip_core::{List, Model, OutOfMemory};
use node_pool::{Pick, Pool};
use std::alloc::Global;
use work_stamp::{Begin, Chunk, Entry, Pulse};

/// A slot that has split nothing, between tasks.
pub fn fresh_local(alloc: Global, slot: u32) -> Local
    ensures { result ≡ fresh_local_of slot }
{
    Local {
        slot,
        splits: 0,
        cuts: List::new(alloc),
        task: None,
    }
}

/// Whether the slot is between tasks.
pub fn is_at_start(local: &Local) -> bool
    ensures { result ≡ is_none local.now.task }
{
    local.task.is_none()
}

/// What a slot between tasks does: it looks for cuts where they are on and no task has, dives from
/// the best open node or takes it, waits where nothing is open, and is over where a Halt stands, or
/// nothing is open or held. A task has the view's cuts, and one on nodes or a dive the view's
/// cutoff.
pub fn begin(
    alloc: Global,
    model: &Model,
    pool: &Pool,
    local: &mut Local,
) -> Result<Begin, OutOfMemory>
    ensures does { IfOk result (λ does. does ≡ (begin_of model.now pool.now local.old).does) }
    ensures local { OnOk result (local.new ≡ (begin_of model.now pool.now local.old).local) }
{
    match pool.pick() {
        Pick::Over => Ok(Begin::End),
        Pick::Nothing => Ok(Begin::Idle),
        Pick::CutLoop => {
            let task = Task::Cuts(CutTask { chunks: 1 });
            take(alloc, pool, local, Entry::CutStart, task)
        }
        Pick::Heuristic(node) => {
            let task = Task::Dive(dive_on(alloc, model, pool, node)?);
            take(alloc, pool, local, Entry::HeurStart { node }, task)
        }
        Pick::Node(node) => {
            let task = Task::Nodes(task_on(alloc, model, pool, node)?);
            take(alloc, pool, local, Entry::Start { node }, task)
        }
    }
}

/// The slot takes a task, with the view's cuts.
fn take(
    alloc: Global,
    pool: &Pool,
    local: &mut Local,
    entry: Entry,
    task: Task,
) -> Result<Begin, OutOfMemory>
    ensures does { IfOk result (λ does. does ≡ Take (entry ∷ [])) }
    ensures local { OnOk result (local.new ≡ local_with pool.now local.old task) }
{
    let mut entries = List::new(alloc);
    entries.push(entry)?;
    local.cuts = copy_rows(alloc, pool.cuts())?;
    local.task = Some(task);
    Ok(Begin::Take(entries))
}

/// A task on a node of the view, with its box and the view's cutoff.
fn task_on(alloc: Global, model: &Model, pool: &Pool, node: u64) -> Result<NodeTask, OutOfMemory>
    ensures { IfOk result (λ task. task ≡ task_on_of model.now pool.now node) }
{
    Ok(NodeTask {
        node,
        bounds: pool.bounds_of(alloc, model, node)?,
        cutoff: pool.cutoff(),
        nodes: 1,
    })
}

/// A dive from a node of the view, with its box and the view's cutoff.
fn dive_on(alloc: Global, model: &Model, pool: &Pool, node: u64) -> Result<DiveTask, OutOfMemory>
    ensures { IfOk result (λ task. task ≡ dive_on_of model.now pool.now node) }
{
    Ok(DiveTask {
        bounds: pool.bounds_of(alloc, model, node)?,
        cutoff: pool.cutoff(),
        point: None,
    })
}

/// A chunk of the slot's task. Without a task nothing happens.
pub fn chunk<P: Pulse>(
    alloc: Global,
    model: &Model,
    local: &mut Local,
    pulse: &mut P,
) -> Result<Chunk, OutOfMemory>
    requires fits { FitsLocal model.now local.old }
    requires ready { P.IsReady pulse.old }
    requires allowed { (chunk_of model.now local.old local.old.task).gives.work
        ≤ P.allowance pulse.old }
    ensures gives { IfOk result (λ chunk.
        chunk ≡ (chunk_of model.now local.old local.old.task).gives) }
    ensures local { OnOk result (local.new
        ≡ (chunk_of model.now local.old local.old.task).local) }
    ensures ready { P.IsReady pulse.new }
    ensures rest { P.rest pulse.new ≡ P.rest pulse.old }
    ensures spent { P.allowance pulse.old
        ≤ P.allowance pulse.new + (chunk_of model.now local.old local.old.task).gives.work }
{
    let Some(task) = &local.task else {
        return Ok(chunk_without_records(alloc, List::new(alloc), 0));
    };
    match task {
        Task::Nodes(task) => {
            let worker = Worker {
                slot: local.slot,
                splits: local.splits,
            };
            let chunk = node_chunk(alloc, model, local.cuts.as_slice(), worker, task, pulse)?;
            local.splits = chunk.splits;
            local.task = chunk.task;
            Ok(Chunk {
                entries: chunk.entries,
                records: chunk.records,
                work: chunk.work,
            })
        }
        Task::Cuts(task) => {
            let chunk = cut_chunk(alloc, model, local.cuts.as_slice(), task.chunks, pulse)?;
            append_rows(&mut local.cuts, chunk.cuts)?;
            local.task = cut_task(chunk.task);
            Ok(chunk_without_records(alloc, chunk.entries, chunk.work))
        }
        Task::Dive(task) => {
            let chunk = dive_chunk(alloc, model, local.cuts.as_slice(), task, pulse)?;
            local.task = dive_task(chunk.task);
            Ok(chunk_without_records(alloc, chunk.entries, chunk.work))
        }
    }
}

/// The task of a slot that goes on to look for cuts.
fn cut_task(task: Option<CutTask>) -> Option<Task>
    ensures { result ≡ cut_task_of task }
{
    Some(Task::Cuts(task?))
}

/// The task of a slot whose dive goes on.
fn dive_task(task: Option<DiveTask>) -> Option<Task>
    ensures { result ≡ dive_task_of task }
{
    Some(Task::Dive(task?))
}

/// A chunk that closes no node.
fn chunk_without_records(alloc: Global, entries: List<Entry>, work: u64) -> Chunk
    ensures { result ≡ record { entries = entries; records = []; work = work } }
{
    Chunk {
        entries,
        records: List::new(alloc),
        work,
    }
}
