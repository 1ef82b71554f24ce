ghost use Rattle.std.specs.Prelude.{◌≡◌, ◌≤◌, ◌<◌, ◌^◌, ◌+◌, ◌≤ℤ◌, pos, neg_ℤ, length, IfOk, IsTrue};
ghost use Rattle.ip_core.specs.Truth.{IsFeasible};
ghost use Rattle.task_steps.specs.Fits.{AreFewDerived, IsSmall, IsTask, IsWorker};
ghost use Rattle.round_dive.specs.Feasible.{is_feasible_at};
ghost use Rattle.task_steps.specs.Tasks.{is_found as is_found_of, node_chunk as node_chunk_of, on_point as on_point_of};

use crate::close_or_split::{after_point, closing_chunk};
use crate::local::NodeTask;
use crate::task_chunk::{Progress, TaskChunk, Worker};
use dual_ascent::{Ascent, ascend};
use ip_core::{Closing, List, Model, OutOfMemory, Point, Row, is_feasible, value};
use row_propagate::{Outcome as Ended, propagate};
use std::alloc::Global;
use work_stamp::{Entry, Pulse};

/// One chunk of a task, on its node: passes over the rows and the cuts, then an ascent over the box
/// that they leave. The node is closed where the passes close its box, or the bound is at least the
/// task's cutoff; the reason is kept. Else it is split. The chunk counts 1, the passes and the
/// ascent, and the pulse hears of no more.
#[tactic(auto, using(crate::specs::Lemmas::Boxes::copied_within, crate::specs::Lemmas::ChunkWork::ascent_allowed))]
pub fn node_chunk<P: Pulse>(
    alloc: Global,
    model: &Model,
    cuts: &[Row],
    worker: Worker,
    task: &NodeTask,
    pulse: &mut P,
) -> Result<TaskChunk, OutOfMemory>
    requires cuts { AreFewDerived model.now cuts.now }
    requires task { IsTask model.now task.now }
    requires worker { IsWorker worker }
    requires ready { P.IsReady pulse.old }
    requires allowed { (node_chunk_of model.now cuts.now worker task.now).work
        ≤ P.allowance pulse.old }
    ensures value { IfOk result (λ chunk.
        chunk ≡ node_chunk_of model.now cuts.now worker task.now) }
    ensures ready { P.IsReady pulse.new }
    ensures rest { P.rest pulse.new ≡ P.rest pulse.old }
    ensures spent { P.allowance pulse.old
        ≤ P.allowance pulse.new + (node_chunk_of model.now cuts.now worker task.now).work }
{
    let _limits = model.parts();
    let mut bounds = task.bounds.copy(alloc)?;
    let mut steps = List::new(alloc);
    let run = propagate(alloc, model, cuts, &mut bounds, &mut steps)?;
    let why = match run.outcome {
        Ended::Open => {
            let ascent = ascend(alloc, model, cuts, &bounds, pulse)?;
            let work = 1 + run.work + ascent.work;
            let progress = Progress {
                bounds,
                steps,
                work,
            };
            return on_point(alloc, model, task, worker, progress, &ascent);
        }
        Ended::Conflict(row) => Closing::Conflict(row),
        Ended::Empty(col) => Closing::Empty(col),
    };
    let progress = Progress {
        bounds,
        steps,
        work: 1 + run.work,
    };
    let none = List::new(alloc);
    closing_chunk(alloc, task.node, worker.splits, none, progress, why)
}

/// Tries the ascent's point: where it is found, the task's cutoff is lowered to its value.
fn on_point(
    alloc: Global,
    model: &Model,
    task: &NodeTask,
    worker: Worker,
    progress: Progress,
    ascent: &Ascent,
) -> Result<TaskChunk, OutOfMemory>
    requires small { IsSmall progress.bounds }
    requires nodes { task.now.nodes ≤ 8 }
    requires worker { IsWorker worker }
    requires few { length ascent.now.mults < 2 ^ 32 }
    requires low { neg_ℤ (pos (2 ^ 62)) ≤ℤ ascent.now.bound }
    ensures { IfOk result (λ chunk. chunk ≡ on_point_of model.now task.now worker progress
        ascent.now (is_found_of model.now task.now.cutoff ascent.now)) }
{
    let mut found = List::new(alloc);
    if !is_found(model, task.cutoff, ascent) {
        return after_point(
            alloc,
            model,
            task,
            worker,
            progress,
            ascent,
            task.cutoff,
            found,
        );
    }
    let value = value(model, &ascent.point);
    found.push(Entry::Found {
        value,
        point: ascent.point.copy(alloc)?,
    })?;
    after_point(alloc, model, task, worker, progress, ascent, value, found)
}

/// Whether the ascent's point is found: the bound is below the cutoff, and the point is feasible
/// with a value below it.
fn is_found(model: &Model, cutoff: i64, ascent: &Ascent) -> bool
    ensures value { result ≡ is_found_of model.now cutoff ascent.now }
    ensures feasible { IsTrue result → IsFeasible model.now ascent.now.point }
{
    if i128::from(cutoff) <= ascent.bound {
        return false;
    }
    if !is_feasible_point(model, &ascent.point) {
        return false;
    }
    value(model, &ascent.point) < cutoff
}

fn is_feasible_point(model: &Model, point: &Point) -> bool
    ensures value { result ≡ is_feasible_at model.now point.now }
    ensures feasible { IsTrue result → IsFeasible model.now point.now }
{
    is_feasible(model, point)
}
