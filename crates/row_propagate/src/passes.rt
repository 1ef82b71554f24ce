ghost use Rattle.std.specs.Prelude.{◌≡◌, ◌≢◌, [], ◌≤◌, ◌<◌, ◌^◌, length, IfOk, OnOk};
ghost use Rattle.ip_core.specs.Boxes.{IsWithin};
ghost use Rattle.ip_core.specs.Rows.{AreRows};
ghost use Rattle.ip_core.specs.Sides.{HasNoEmpty};
ghost use Rattle.ip_core.specs.declared.row.Row.{Row as RowValue};
ghost use Rattle.ip_core.specs.Seq.{Seq};
ghost use Rattle.row_propagate.specs.Passes.{after_column, after_columns, after_pass, after_passes, after_row, after_rows, counted_run, outcome_of_column, name_of, open_run, propagation_of, run_of};
ghost use Rattle.row_propagate.specs.Quiet.{IsPassing};
ghost use Rattle.row_propagate.specs.Points.{HasMetPoints, HasNoMetPoint};
ghost use Rattle.ip_core.specs.Rows.{AreReady, IsReady};
ghost use Rattle.row_propagate.specs.Replay.{AreNamed, IsNamed, replay, row_named};
ghost use Rattle.row_propagate.specs.Lawful.{AreLawfulSteps, IsCause, IsReplayed};
ghost use Rattle.row_propagate.specs.declared.outcome.Outcome.TheVariants.{Open};

use crate::outcome::{Outcome, PassRun};
use crate::row_kind::RowKind;
use crate::visiting::visit_rows;
use crate::visits::Visits;
use ip_core::{Bounds, List, Model, OutOfMemory, Row, Tighten, term_count};
use std::alloc::Global;

/// The most passes that are begun.
const MAX_PASSES: u32 = 10;

/// One pass: the model's rows and then the cuts.
fn run_pass(
    alloc: Global,
    model: &Model,
    cuts: &[Row],
    bounds: &mut Bounds,
    steps: &mut List<Tighten>,
    visits: &mut Visits,
) -> Result<Outcome, OutOfMemory>
    requires few { length cuts.now ≤ 2 ^ 30 }
    requires few_rows { length model.now.rows ≤ 2 ^ 30 }
    requires passing { IsPassing model.now cuts.now bounds.old visits.old }
    ensures whole { IfOk result (λ outcome.
        run_of bounds.new steps.new outcome
        ≡ after_pass model.now.rows cuts.now (open_run bounds.old steps.old)) }
    ensures within { IsWithin bounds.old bounds.new }
    ensures passing { IfOk result (λ outcome. outcome ≡ Open →
        IsPassing model.now cuts.now bounds.new visits.new) }
    ensures replays { IsReplayed model.now.rows cuts.now bounds.old steps.old bounds.new steps.new }
{
    let rows = model.rows();
    let first = rows.len();
    let model_rows = RowKind::ModelRow;
    let outcome = visit_rows(
        alloc, model, cuts, model_rows, rows, 0, bounds, steps, visits,
    )?;
    if !outcome.is_open() {
        return Ok(outcome);
    }
    let cut_rows = RowKind::CutRow;
    visit_rows(
        alloc, model, cuts, cut_rows, cuts, first, bounds, steps, visits,
    )
}

/// Passes until one changes nothing or closes the box, and at most ten; with their number.
fn run_passes(
    alloc: Global,
    model: &Model,
    cuts: &[Row],
    bounds: &mut Bounds,
    steps: &mut List<Tighten>,
    visits: &mut Visits,
) -> Result<(Outcome, u32), OutOfMemory>
    requires few { length cuts.now ≤ 2 ^ 30 }
    requires few_rows { length model.now.rows ≤ 2 ^ 30 }
    requires passing { IsPassing model.now cuts.now bounds.old visits.old }
    ensures whole { IfOk result (λ ended.
        counted_run (run_of bounds.new steps.new ended.0) ended.1
        ≡ after_passes 10 model.now.rows cuts.now (open_run bounds.old steps.old) 0) }
    ensures few { IfOk result (λ ended. ended.1 ≤ 10) }
    ensures within { IsWithin bounds.old bounds.new }
    ensures passing { IfOk result (λ ended. ended.0 ≡ Open →
        IsPassing model.now cuts.now bounds.new visits.new) }
    ensures replays { IsReplayed model.now.rows cuts.now bounds.old steps.old bounds.new steps.new }
{
    for passes in 0..MAX_PASSES {
        let before = steps.len();
        let outcome = run_pass(alloc, model, cuts, bounds, steps, visits)?;
        if !outcome.is_open() || steps.len() == before {
            return Ok((outcome, passes + 1));
        }
    }
    Ok((Outcome::Open, MAX_PASSES))
}

/// Passes over the model's rows and then the cuts: each row that doesn't conflict tightens its columns, and passes go on
/// until one changes nothing, a row conflicts, a column becomes empty, or ten are over. `steps` is empty before, and then
/// lists each real tightening in order. With a column that is empty at the start there is no pass, and no memory is taken.
/// Else there is a sum for each row, and from the first tightening on an entry for each term.
///
/// A row is passed over where none of its columns has changed since a visit without a real tightening. A pass counts
/// the same with such rows.
///
/// # Errors
/// `OutOfMemory` where there is no memory for these or for a step. The box is then the starting box after the listed steps.
pub fn propagate(
    alloc: Global,
    model: &Model,
    cuts: &[Row],
    bounds: &mut Bounds,
    steps: &mut List<Tighten>,
) -> Result<PassRun, OutOfMemory>
    requires few { length cuts.now ≤ 2 ^ 30 }
    requires cuts { AreRows (length model.now.cols) model.now.root cuts.now }
    requires within { HasNoEmpty bounds.old → IsWithin model.now.root bounds.old }
    requires unlisted { steps.old ≡ [] }
    ensures sides { OnOk result (bounds.new ≡
        (propagation_of model.now.rows cuts.now bounds.old).sides) }
    ensures steps { OnOk result (steps.new ≡
        (propagation_of model.now.rows cuts.now bounds.old).steps) }
    ensures run { IfOk result (λ run.
        run ≡ (propagation_of model.now.rows cuts.now bounds.old).run) }
    ensures replays { bounds.new ≡ replay (row_named model.now.rows cuts.now) bounds.old steps.new }
    ensures lawful { AreLawfulSteps model.now.rows cuts.now bounds.old steps.new }
    ensures cause { IfOk result (λ run. IsCause model.now.rows cuts.now bounds.new run.outcome) }
    ensures within { IsWithin bounds.old bounds.new }
    ensures solid { IfOk result (λ run. run.outcome ≡ Open → HasNoEmpty bounds.new) }
    ensures keeps { HasMetPoints model.now.rows cuts.now bounds.old bounds.new }
    ensures none { IfOk result (λ run.
        run.outcome ≢ Open → HasNoMetPoint model.now.rows cuts.now bounds.old) }
{
    let parts = model.parts();
    let rows = parts.rows.as_slice();
    if let Some(col) = bounds.first_empty() {
        return Ok(PassRun {
            outcome: Outcome::Empty(col),
            passes: 0,
            work: 0,
        });
    }
    let mut visits = Visits::of(alloc, rows, cuts, bounds)?;
    let (outcome, passes) = run_passes(alloc, model, cuts, bounds, steps, &mut visits)?;
    let work = u64::from(passes) * (term_count(rows) + term_count(cuts) + 1);
    Ok(PassRun {
        outcome,
        passes,
        work,
    })
}
