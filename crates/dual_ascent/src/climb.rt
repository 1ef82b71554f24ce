ghost use Rattle.std.specs.Prelude.{◌≡◌, ◌+◌, ◌*◌, ◌≤◌, ◌<◌, ◌==◌, ◌≤ℤ◌, not, min, length, pos, slice_index, IfOk, MatchOption, OnErr};
ghost use Rattle.safe_bound.specs.Bounds.{all_rows, numerator as numerator_of};
ghost use Rattle.safe_bound.specs.Premises.{AreCuts};
ghost use Rattle.ip_core.specs.Boxes.{IsWithinReach};
ghost use Rattle.dual_ascent.specs.Climbs.{after_round, after_row, after_rows, is_same, next_multiplier};
ghost use Rattle.dual_ascent.specs.Ascents.{ascent, ascent_work, first_climb as first_climb_of, first_step_size as first_step_size_of, round_work as round_work_of};
ghost use Rattle.dual_ascent.specs.Kept.{IsKept, lack};
ghost use Rattle.dual_ascent.specs.KeptClimbs.{IsChoice, climb_of};

use crate::reduced::Reduced;
use crate::work::round_work;
use ip_core::{Bounds, Model, OutOfMemory, Row};
use safe_bound::MAX_MULTIPLIER;
use std::alloc::Global;
use work_stamp::Pulse;

/// The most rounds of a climb.
const MAX_ROUNDS: u64 = 64;

/// A climb between two rounds: what is kept of its multipliers, its step size, and how many rounds it has had.
#[derive(Debug, Drop)]
pub struct KeptClimb {
    pub kept: Reduced,
    pub step_size: u64,
    pub rounds: u64,
}

/// Another multiplier for a row, and the numerator with it.
#[derive(Clone, Copy, Debug)]
pub struct Choice {
    pub mult: u64,
    pub numerator: i128,
}

/// The climb at its end: its step size is 0, or it has had 64 rounds. The pulse hears of each round's work after it. Want
/// of memory comes before the first round.
pub fn final_climb<P: Pulse>(
    alloc: Global,
    model: &Model,
    cuts: &[Row],
    bounds: &Bounds,
    pulse: &mut P,
) -> Result<KeptClimb, OutOfMemory>
    requires cuts { AreCuts model.now cuts.now }
    requires within { IsWithinReach model.now.root bounds.now }
    requires ready { P.IsReady pulse.old }
    requires allowed { ascent_work model.now cuts.now bounds.now ≤ P.allowance pulse.old }
    ensures value { IfOk result (λ c. climb_of c ≡ ascent model.now cuts.now bounds.now) }
    ensures kept { IfOk result (λ c. IsKept model.now cuts.now bounds.now c.kept) }
    ensures few { IfOk result (λ c. c.rounds ≤ 64) }
    ensures told { IfOk result (λ c. P.allowance pulse.new
        + c.rounds * round_work_of model.now cuts.now ≡ P.allowance pulse.old) }
    ensures untold { OnErr result (P.allowance pulse.new ≡ P.allowance pulse.old) }
    ensures rest { P.rest pulse.new ≡ P.rest pulse.old }
    ensures ready { P.IsReady pulse.new }
{
    let mut climb = first_climb(alloc, model, cuts, bounds)?;
    let work = round_work(model, cuts);
    for _round in 0..MAX_ROUNDS {
        if climb.step_size == 0 {
            break;
        }
        climb_round(model, cuts, bounds, &mut climb);
        pulse.tick(work);
    }
    Ok(climb)
}

/// The climb at its beginning: every multiplier is 0.
fn first_climb(
    alloc: Global,
    model: &Model,
    cuts: &[Row],
    bounds: &Bounds,
) -> Result<KeptClimb, OutOfMemory>
    requires cuts { AreCuts model.now cuts.now }
    requires within { IsWithinReach model.now.root bounds.now }
    ensures value { IfOk result (λ c. climb_of c ≡ first_climb_of model.now cuts.now) }
    ensures kept { IfOk result (λ c. IsKept model.now cuts.now bounds.now c.kept) }
{
    let kept = Reduced::of(alloc, model, cuts, bounds)?;
    let step_size = first_step_size(model.costs());
    Ok(KeptClimb {
        kept,
        step_size,
        rounds: 0,
    })
}

/// 1,024 times one more than the greatest absolute cost, and at most the greatest multiplier.
fn first_step_size(costs: &[i64]) -> u64
    ensures { result ≡ first_step_size_of costs.now }
{
    let mut greatest = 0;
    for cost in costs {
        greatest = cost.unsigned_abs().max(greatest);
    }
    greatest
        .saturating_add(1)
        .saturating_mul(1_024)
        .min(MAX_MULTIPLIER)
}

/// One more round: each row takes its multiplier, and where none changed the step size is halved.
fn climb_round(model: &Model, cuts: &[Row], bounds: &Bounds, climb: &mut KeptClimb)
    requires cuts { AreCuts model.now cuts.now }
    requires within { IsWithinReach model.now.root bounds.now }
    requires kept { IsKept model.now cuts.now bounds.now climb.old.kept }
    requires step { 0 < climb.old.step_size }
    requires few { climb.old.rounds < 64 }
    ensures value { climb_of climb.new
        ≡ after_round (numerator_of model.now cuts.now bounds.now) (climb_of climb.old) }
    ensures kept { IsKept model.now cuts.now bounds.now climb.new.kept }
{
    if climb_rows(model, cuts, bounds, &mut climb.kept, climb.step_size) {
        climb.step_size /= 2;
    }
    climb.rounds += 1;
}

/// Each row in order takes its multiplier. It tells whether all multipliers are the same as before.
fn climb_rows(
    model: &Model,
    cuts: &[Row],
    bounds: &Bounds,
    kept: &mut Reduced,
    step_size: u64,
) -> bool
    requires cuts { AreCuts model.now cuts.now }
    requires within { IsWithinReach model.now.root bounds.now }
    requires kept { IsKept model.now cuts.now bounds.now kept.old }
    requires step { 0 < step_size }
    ensures mults { kept.new.mults ≡ after_rows (numerator_of model.now cuts.now bounds.now)
        step_size kept.old.mults (length kept.old.mults) }
    ensures same { result ≡ is_same kept.old.mults kept.new.mults }
    ensures kept { IsKept model.now cuts.now bounds.now kept.new }
{
    let mut is_same = true;
    for row in 0..kept.mults().len() {
        if climb_row(model, cuts, bounds, kept, row, step_size) {
            is_same = false;
        }
    }
    is_same
}

/// A row takes the first of greatest numerator among its multiplier and what that can change to. It tells whether the
/// multiplier changed.
fn climb_row(
    model: &Model,
    cuts: &[Row],
    bounds: &Bounds,
    kept: &mut Reduced,
    row: usize,
    step_size: u64,
) -> bool
    requires cuts { AreCuts model.now cuts.now }
    requires within { IsWithinReach model.now.root bounds.now }
    requires kept { IsKept model.now cuts.now bounds.now kept.old }
    requires step { 0 < step_size }
    requires known { row < length kept.old.mults }
    ensures mults { kept.new.mults ≡ after_row (numerator_of model.now cuts.now bounds.now)
        step_size kept.old.mults row }
    ensures changed { result ≡ not (next_multiplier (numerator_of model.now cuts.now bounds.now)
        step_size kept.old.mults row == slice_index kept.old.mults row) }
    ensures kept { IsKept model.now cuts.now bounds.now kept.new }
{
    match choice_at(model, cuts, bounds, kept, row, step_size) {
        None => false,
        Some(choice) => {
            kept.change(model, cuts, bounds, row, choice.mult, choice.numerator);
            true
        }
    }
}

/// What a row takes in place of its multiplier, or None where it keeps that. The numerator is concave in the multiplier:
/// only a greater one can help a row that lacks something, and only a lesser one a row that has more than it needs.
fn choice_at(
    model: &Model,
    cuts: &[Row],
    bounds: &Bounds,
    kept: &Reduced,
    row: usize,
    step_size: u64,
) -> Option<Choice>
    requires cuts { AreCuts model.now cuts.now }
    requires within { IsWithinReach model.now.root bounds.now }
    requires kept { IsKept model.now cuts.now bounds.now kept.now }
    requires step { 0 < step_size }
    requires known { row < length (all_rows model.now cuts.now) }
    ensures { MatchOption result
        (next_multiplier (numerator_of model.now cuts.now bounds.now) step_size kept.now.mults row
        ≡ slice_index kept.now.mults row)
        (λ c. IsChoice model.now cuts.now bounds.now step_size kept.now row c) }
{
    // The model's limits keep the numerators small.
    let _limits = model.parts();
    let lack = kept.lack(model, cuts, bounds, row);
    if lack > 0 {
        choice_above(model, cuts, bounds, kept, row, step_size)
    } else if lack < 0 {
        choice_below(model, cuts, bounds, kept, row, step_size)
    } else {
        None
    }
}

/// The raised multiplier of a row that lacks something, where that is worth more.
fn choice_above(
    model: &Model,
    cuts: &[Row],
    bounds: &Bounds,
    kept: &Reduced,
    row: usize,
    step_size: u64,
) -> Option<Choice>
    requires cuts { AreCuts model.now cuts.now }
    requires within { IsWithinReach model.now.root bounds.now }
    requires kept { IsKept model.now cuts.now bounds.now kept.now }
    requires known { row < length (all_rows model.now cuts.now) }
    requires lacking { pos 0 ≤ℤ lack model.now cuts.now kept.now row }
    ensures { MatchOption result
        (next_multiplier (numerator_of model.now cuts.now bounds.now) step_size kept.now.mults row
        ≡ slice_index kept.now.mults row)
        (λ c. IsChoice model.now cuts.now bounds.now step_size kept.now row c) }
{
    // The model's limits keep the numerators small.
    let _limits = model.parts();
    let up = raised(kept.mults()[row], step_size);
    let gain = kept.gain(model, cuts, bounds, row, up, 0);
    if gain > 0 {
        Some(Choice {
            mult: up,
            numerator: kept.numerator() + gain,
        })
    } else {
        None
    }
}

/// The lowered multiplier of a row that has more than it needs, or 0, where that is worth more. Where the lowered one
/// isn't, 0 isn't either.
fn choice_below(
    model: &Model,
    cuts: &[Row],
    bounds: &Bounds,
    kept: &Reduced,
    row: usize,
    step_size: u64,
) -> Option<Choice>
    requires cuts { AreCuts model.now cuts.now }
    requires within { IsWithinReach model.now.root bounds.now }
    requires kept { IsKept model.now cuts.now bounds.now kept.now }
    requires step { 0 < step_size }
    requires known { row < length (all_rows model.now cuts.now) }
    requires above { lack model.now cuts.now kept.now row ≤ℤ pos 0 }
    ensures { MatchOption result
        (next_multiplier (numerator_of model.now cuts.now bounds.now) step_size kept.now.mults row
        ≡ slice_index kept.now.mults row)
        (λ c. IsChoice model.now cuts.now bounds.now step_size kept.now row c) }
{
    // The model's limits keep the numerators small.
    let _limits = model.parts();
    let down = kept.mults()[row].saturating_sub(step_size);
    let gain = kept.gain(model, cuts, bounds, row, down, 0);
    if gain <= 0 {
        return None;
    }
    if down > 0 {
        let whole = kept.gain(model, cuts, bounds, row, 0, gain);
        if whole > gain {
            return Some(Choice {
                mult: 0,
                numerator: kept.numerator() + whole,
            });
        }
    }
    Some(Choice {
        mult: down,
        numerator: kept.numerator() + gain,
    })
}

/// A multiplier raised by the step size, to at most the greatest multiplier.
fn raised(mult: u64, step_size: u64) -> u64
    ensures { result ≡ min (mult + step_size) MAX_MULTIPLIER }
{
    mult.saturating_add(step_size).min(MAX_MULTIPLIER)
}
