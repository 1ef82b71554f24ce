ghost use Rattle.std.specs.Prelude.{◌≡◌, ◌≢◌, length, OnOk, IfOk};
ghost use Rattle.ip_core.specs.Boxes.{IsWithin};
ghost use Rattle.ip_core.specs.Sides.{HasNoEmpty};
ghost use Rattle.row_propagate.specs.Passes.{propagation_of};
ghost use Rattle.row_propagate.specs.Points.{HasMetPoints, HasNoMetPoint};
ghost use Rattle.safe_bound.specs.Premises.{AreCuts};
ghost use Rattle.round_dive.specs.Dives.{HasFeasiblePoint, IsEndOf, IsReachedBySteps};
ghost use Rattle.round_dive.specs.Dives.{dive_end as dive_end_of, dive_of, next_box};
ghost use Rattle.round_dive.specs.declared.dive.DiveEnd.TheVariants.{Stuck};

use crate::feasible::is_feasible_point;
use crate::fixing::{fix_first_free, is_fixed};
use ip_core::{Bounds, List, Model, OutOfMemory, Point, Row};
use row_propagate::{Outcome, propagate};
use std::alloc::Global;

/// How a step of a dive ended.
#[derive(Debug, Drop)]
pub enum DiveEnd {
    /// The box is open, and a column isn't fixed yet or the point of the fixed box isn't feasible. The dive goes on.
    On,
    /// All columns are fixed at this point, which is feasible.
    Found(Point),
    /// The passes closed the box.
    Stuck,
}

/// How a step of a dive ended, and the work of its passes: for each the number of terms of all rows plus 1.
#[derive(Debug, Drop)]
pub struct DiveRun {
    pub end: DiveEnd,
    pub work: u64,
}

/// A step of a dive towards a point: it fixes the first column of the box that isn't fixed, at the value of its range
/// nearest to the point's, and then does passes over the model's rows and the cuts. Stuck comes exactly where they
/// close the box. Found comes exactly where they don't, all columns are then fixed and their point is feasible.
///
/// # Errors
/// `OutOfMemory` where there is no memory for the passes or the point. The column is then fixed, and some or all of the
/// tightenings of the passes have been made.
#[tactic(auto, using(ip_core::proofs::NarrowerBoxes::within_both, crate::proofs::Ends::fixed_box_stays, crate::proofs::Ends::end_feasible, crate::proofs::Ends::reached_by_steps))]
pub fn dive_step(
    alloc: Global,
    model: &Model,
    cuts: &[Row],
    bounds: &mut Bounds,
    point: &Point,
) -> Result<DiveRun, OutOfMemory>
    requires cuts { AreCuts model.now cuts.now }
    requires within { IsWithin model.now.root bounds.old }
    requires solid { HasNoEmpty bounds.old }
    requires one_each { length point.now ≡ length model.now.cols }
    ensures sides { OnOk result (bounds.new
        ≡ (dive_of model.now cuts.now bounds.old point.now).sides) }
    ensures run { IfOk result (λ run.
        run ≡ (dive_of model.now cuts.now bounds.old point.now).run) }
    ensures end { IfOk result (λ run. IsEndOf model.now
        (propagation_of model.now.rows cuts.now (next_box bounds.old point.now)).run.outcome
        bounds.new run.end) }
    ensures feasible { IfOk result (λ run. HasFeasiblePoint model.now run.end) }
    ensures within { IsWithin bounds.old bounds.new }
    ensures in_root { IsWithin model.now.root bounds.new }
    ensures next { IsWithin (next_box bounds.old point.now) bounds.new }
    ensures steps { IsReachedBySteps model.now.rows cuts.now
        (next_box bounds.old point.now) bounds.new }
    ensures stays { IfOk result (λ run. bounds.old.lows ≡ bounds.old.highs →
        run.end ≢ Stuck → bounds.new ≡ bounds.old) }
    ensures keeps { HasMetPoints model.now.rows cuts.now
        (next_box bounds.old point.now) bounds.new }
    ensures none { IfOk result (λ run. run.end ≡ Stuck →
        HasNoMetPoint model.now.rows cuts.now (next_box bounds.old point.now)) }
    ensures solid { IfOk result (λ run. run.end ≢ Stuck → HasNoEmpty bounds.new) }
{
    // The model's limits say that its root box has its columns.
    let _limits = model.parts();
    fix_first_free(bounds, point);
    let mut steps = List::new(alloc);
    let passes = propagate(alloc, model, cuts, bounds, &mut steps)?;
    let end = dive_end(alloc, model, passes.outcome, bounds)?;
    Ok(DiveRun {
        end,
        work: passes.work,
    })
}

/// How a step ends, by the outcome of its passes and the box after them.
fn dive_end(
    alloc: Global,
    model: &Model,
    outcome: Outcome,
    bounds: &Bounds,
) -> Result<DiveEnd, OutOfMemory>
    ensures value { IfOk result (λ end. end ≡ dive_end_of model.now outcome bounds.now) }
    ensures meaning { IfOk result (λ end. IsEndOf model.now outcome bounds.now end) }
{
    if !outcome.is_open() {
        return Ok(DiveEnd::Stuck);
    }
    if !is_fixed(bounds) {
        return Ok(DiveEnd::On);
    }
    let point = Point::of(List::of(Vec::from_slice(alloc, bounds.lows())?));
    if is_feasible_point(model, &point) {
        Ok(DiveEnd::Found(point))
    } else {
        Ok(DiveEnd::On)
    }
}
