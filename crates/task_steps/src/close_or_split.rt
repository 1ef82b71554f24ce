ghost use Rattle.std.specs.Prelude.{◌≡◌, ◌≤◌, ◌<◌, ◌^◌, ◌<ℤ◌, ◌≤ℤ◌, ◌+◌, pos, neg_ℤ, length, IfOk};
ghost use Rattle.node_pool.specs.BoundChanges.{with_change};
ghost use Rattle.task_steps.specs.Fits.{IsSmall, IsWorker};
ghost use Rattle.task_steps.specs.Tasks.{after_point as after_point_of, closing_chunk as closing_chunk_of, kept_child as kept_child_of, splitting_chunk as splitting_chunk_of, task_after as task_after_of};
ghost use Rattle.task_steps.specs.declared.keep.Keep.TheVariants.{Neither};

use crate::column::{end_at, middle, widest};
use crate::keep::Keep;
use crate::local::{NodeTask, Task};
use crate::naming::{child_name, next_ordinal};
use crate::task_chunk::{Progress, SplitChoice, TaskChunk, Worker};
use dual_ascent::Ascent;
use ip_core::{Bounds, Closing, Leaf, List, Model, OutOfMemory, Record};
use leaf_truth::pairs_of;
use node_pool::BoundChange;
use std::alloc::Global;
use work_stamp::Entry;

/// Closes the node where its bound is no longer below the cutoff, else splits it in the widest
/// column of the box after the passes.
pub fn after_point(
    alloc: Global,
    model: &Model,
    task: &NodeTask,
    worker: Worker,
    progress: Progress,
    ascent: &Ascent,
    cutoff: i64,
    found: List<Entry>,
) -> Result<TaskChunk, OutOfMemory>
    requires small { IsSmall progress.bounds }
    requires nodes { task.now.nodes ≤ 8 }
    requires worker { IsWorker worker }
    requires few { length ascent.now.mults < 2 ^ 32 }
    requires low { neg_ℤ (pos (2 ^ 62)) ≤ℤ ascent.now.bound }
    ensures { IfOk result (λ chunk.
        chunk ≡ after_point_of model.now task.now worker progress ascent.now cutoff found) }
{
    if i128::from(cutoff) <= ascent.bound {
        let pairs = pairs_of(alloc, model.rows().len(), ascent.mults.as_slice())?;
        return closing_chunk(
            alloc,
            task.node,
            worker.splits,
            found,
            progress,
            Closing::Bound(pairs),
        );
    }
    let col = widest(&progress.bounds);
    let at = middle(&progress.bounds, col);
    let keep = kept_child(task.nodes, end_at(ascent.point.values(), col as usize), at);
    let choice = SplitChoice {
        col,
        at,
        keep,
        bound: word_of(ascent.bound),
    };
    splitting_chunk(alloc, task, worker, found, cutoff, progress.work, choice)
}

/// A bound as a number of 64 bits, which it fits.
fn word_of(bound: i128) -> i64
    requires low { neg_ℤ (pos (2 ^ 62)) ≤ℤ bound }
    requires high { bound <ℤ pos (2 ^ 63) }
    ensures { result ≡ bound }
{
    bound as i64
}

/// A task ends with its eighth node; before that it goes on with the child that holds the point.
fn kept_child(nodes: u32, value: i64, at: i64) -> Keep
    ensures { result ≡ kept_child_of nodes value at }
{
    if nodes == 8 {
        Keep::Neither
    } else if value <= at {
        Keep::Low
    } else {
        Keep::High
    }
}

/// The node is done with for a reason that is kept, and the task ends.
pub fn closing_chunk(
    alloc: Global,
    node: u64,
    splits: u64,
    found: List<Entry>,
    progress: Progress,
    why: Closing,
) -> Result<TaskChunk, OutOfMemory>
    ensures { IfOk result (λ chunk. chunk ≡ closing_chunk_of node splits found progress why) }
{
    let mut entries = found;
    entries.push(Entry::Closed { node })?;
    entries.push(Entry::Done)?;
    let mut records = List::new(alloc);
    records.push(Record {
        node,
        leaf: Leaf {
            steps: progress.steps,
            closing: why,
        },
    })?;
    Ok(TaskChunk {
        entries,
        records,
        work: progress.work,
        task: None,
        splits,
    })
}

/// The node is split, and the task goes on with the kept child.
fn splitting_chunk(
    alloc: Global,
    task: &NodeTask,
    worker: Worker,
    found: List<Entry>,
    cutoff: i64,
    work: u64,
    choice: SplitChoice,
) -> Result<TaskChunk, OutOfMemory>
    requires small { choice.at <ℤ pos (2 ^ 62) }
    requires nodes { task.now.nodes ≤ 8 }
    requires worker { IsWorker worker }
    ensures { IfOk result (λ chunk. chunk ≡ splitting_chunk_of task.now worker found cutoff work
        choice.col choice.at choice.keep choice.bound) }
{
    let splits = next_ordinal(worker.splits);
    let first = child_name(worker.slot, splits);
    let mut entries = found;
    entries.push(Entry::Split {
        node: task.node,
        col: choice.col,
        at: choice.at,
        first,
        keep: choice.keep.number(),
        bound: choice.bound,
    })?;
    if let Keep::Neither = choice.keep {
        entries.push(Entry::Done)?;
    }
    Ok(TaskChunk {
        entries,
        records: List::new(alloc),
        work,
        task: task_after(alloc, task, cutoff, first, choice)?,
        splits,
    })
}

/// The task on the child that is kept.
fn task_after(
    alloc: Global,
    task: &NodeTask,
    cutoff: i64,
    first: u64,
    choice: SplitChoice,
) -> Result<Option<Task>, OutOfMemory>
    requires small { choice.at <ℤ pos (2 ^ 62) }
    requires room { first + 1 < 2 ^ 64 }
    requires nodes { task.now.nodes ≤ 8 }
    ensures { IfOk result (λ after.
        after ≡ task_after_of task.now choice.col choice.at first cutoff choice.keep) }
{
    let SplitChoice { col, at, keep, .. } = choice;
    let (node, change) = match keep {
        Keep::Low => (first, BoundChange::High { col, high: at }),
        Keep::High => (first + 1, BoundChange::Low { col, low: at + 1 }),
        Keep::Neither => return Ok(None),
    };
    let bounds = child_box(alloc, &task.bounds, change)?;
    Ok(Some(Task::Nodes(NodeTask {
        node,
        bounds,
        cutoff,
        nodes: task.nodes + 1,
    })))
}

/// The box of a child: the node's box with one end of one column changed.
fn child_box(alloc: Global, bounds: &Bounds, change: BoundChange) -> Result<Bounds, OutOfMemory>
    ensures { IfOk result (λ child. child ≡ with_change change bounds.now) }
{
    let mut child = bounds.copy(alloc)?;
    change.apply(&mut child);
    Ok(child)
}
