ghost use Rattle.std.specs.Prelude.{◌≡◌, ◌≤◌, ◌+◌, IfOk, IfSome};
ghost use Rattle.ip_core.specs.Truth.{IsFeasible};
ghost use Rattle.task_steps.specs.DiveTasks.{dive_chunk as dive_chunk_of, first_dive_chunk, last_dive_chunk, next_dive_chunk, point_trial};
ghost use Rattle.task_steps.specs.Fits.{AreFewDerived, IsDive, IsTowards};

use crate::local::DiveTask;
use dual_ascent::ascend;
use ip_core::{List, Model, OutOfMemory, Point, Row, value};
use round_dive::{DiveEnd, dive_step, round};
use row_propagate::{Outcome as Ended, propagate};
use std::alloc::Global;
use work_stamp::{Entry, Pulse};

/// What a chunk of a dive gives: its entries, the work that it counts, and how the dive goes on.
#[derive(Debug, Drop)]
pub struct DiveChunk {
    pub entries: List<Entry>,
    pub work: u64,
    pub task: Option<DiveTask>,
}

/// What a point that was tried gives: the entry that tells of it where its value is below the
/// cutoff, and the cutoff afterwards.
#[derive(Debug, Drop)]
struct PointTrial {
    entries: List<Entry>,
    cutoff: i64,
}

/// One chunk of a dive. The first does passes over the rows and the cuts on the box of the dive's
/// node, and then an ascent; it counts 1, the passes and the ascent. Each later one is a step
/// towards the ascent's point, and counts 1 and the passes. The dive ends where the passes close
/// the box, or all columns are fixed at a feasible point. A feasible point with a value below the
/// cutoff is found, the ascent's too. The pulse hears of no more than is counted.
pub fn dive_chunk<P: Pulse>(
    alloc: Global,
    model: &Model,
    cuts: &[Row],
    task: &DiveTask,
    pulse: &mut P,
) -> Result<DiveChunk, OutOfMemory>
    requires cuts { AreFewDerived model.now cuts.now }
    requires task { IsDive model.now task.now }
    requires ready { P.IsReady pulse.old }
    requires allowed { (dive_chunk_of model.now cuts.now task.now).work ≤ P.allowance pulse.old }
    ensures value { IfOk result (λ chunk. chunk ≡ dive_chunk_of model.now cuts.now task.now) }
    ensures ready { P.IsReady pulse.new }
    ensures rest { P.rest pulse.new ≡ P.rest pulse.old }
    ensures spent { P.allowance pulse.old
        ≤ P.allowance pulse.new + (dive_chunk_of model.now cuts.now task.now).work }
{
    match &task.point {
        None => first_chunk(alloc, model, cuts, task, pulse),
        Some(point) => next_chunk(alloc, model, cuts, task, point),
    }
}

/// The first chunk. The dive goes on with the box that the passes leave.
fn first_chunk<P: Pulse>(
    alloc: Global,
    model: &Model,
    cuts: &[Row],
    task: &DiveTask,
    pulse: &mut P,
) -> Result<DiveChunk, OutOfMemory>
    requires cuts { AreFewDerived model.now cuts.now }
    requires task { IsDive model.now task.now }
    requires ready { P.IsReady pulse.old }
    requires allowed { (first_dive_chunk model.now cuts.now task.now).work ≤ P.allowance pulse.old }
    ensures value { IfOk result (λ chunk. chunk ≡ first_dive_chunk model.now cuts.now task.now) }
    ensures ready { P.IsReady pulse.new }
    ensures rest { P.rest pulse.new ≡ P.rest pulse.old }
    ensures spent { P.allowance pulse.old
        ≤ P.allowance pulse.new + (first_dive_chunk model.now cuts.now task.now).work }
{
    let _limits = model.parts();
    let mut bounds = task.bounds.copy(alloc)?;
    let mut steps = List::new(alloc);
    let run = propagate(alloc, model, cuts, &mut bounds, &mut steps)?;
    match run.outcome {
        Ended::Open => {
            let ascent = ascend(alloc, model, cuts, &bounds, pulse)?;
            let work = 1 + run.work + ascent.work;
            let found = round(alloc, model, &ascent)?;
            let trial = try_point(alloc, model, task.cutoff, found)?;
            Ok(DiveChunk {
                entries: trial.entries,
                work,
                task: Some(DiveTask {
                    bounds,
                    cutoff: trial.cutoff,
                    point: Some(ascent.point),
                }),
            })
        }
        Ended::Conflict(_) | Ended::Empty(_) => last_chunk(List::new(alloc), 1 + run.work),
    }
}

/// A later chunk, one step towards the point.
fn next_chunk(
    alloc: Global,
    model: &Model,
    cuts: &[Row],
    task: &DiveTask,
    point: &Point,
) -> Result<DiveChunk, OutOfMemory>
    requires cuts { AreFewDerived model.now cuts.now }
    requires task { IsDive model.now task.now }
    requires towards { IsTowards model.now task.now.bounds point.now }
    ensures { IfOk result (λ chunk. chunk ≡ next_dive_chunk model.now cuts.now task.now point.now) }
{
    let _limits = model.parts();
    let mut bounds = task.bounds.copy(alloc)?;
    let run = dive_step(alloc, model, cuts, &mut bounds, point)?;
    let work = 1 + run.work;
    match run.end {
        DiveEnd::On => Ok(DiveChunk {
            entries: List::new(alloc),
            work,
            task: Some(DiveTask {
                bounds,
                cutoff: task.cutoff,
                point: Some(point.copy(alloc)?),
            }),
        }),
        DiveEnd::Found(found) => {
            let trial = try_point(alloc, model, task.cutoff, Some(found))?;
            last_chunk(trial.entries, work)
        }
        DiveEnd::Stuck => last_chunk(List::new(alloc), work),
    }
}

/// The last chunk of a dive, with what it found.
fn last_chunk(found: List<Entry>, work: u64) -> Result<DiveChunk, OutOfMemory>
    ensures { IfOk result (λ chunk. chunk ≡ last_dive_chunk found work) }
{
    let mut entries = found;
    entries.push(Entry::Done)?;
    Ok(DiveChunk {
        entries,
        work,
        task: None,
    })
}

/// Tries a feasible point, if there is one: where its value is below the cutoff, the point is found
/// and lowers the cutoff.
fn try_point(
    alloc: Global,
    model: &Model,
    cutoff: i64,
    point: Option<Point>,
) -> Result<PointTrial, OutOfMemory>
    requires feasible { IfSome point (IsFeasible model.now) }
    ensures { IfOk result (λ trial. trial ≡ point_trial model.now cutoff point) }
{
    let mut entries = List::new(alloc);
    let Some(point) = point else {
        return Ok(PointTrial { entries, cutoff });
    };
    let value = value(model, &point);
    if value >= cutoff {
        return Ok(PointTrial { entries, cutoff });
    }
    entries.push(Entry::Found { value, point })?;
    Ok(PointTrial {
        entries,
        cutoff: value,
    })
}
