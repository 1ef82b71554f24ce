ghost use Rattle.std.specs.Prelude.{◌≡◌, ◌≤◌, ◌+◌, ◌^◌, ◌≤ℤ◌, pos, neg_ℤ, IfOk};
ghost use Rattle.ip_core.specs.Boxes.{least_value};
ghost use Rattle.safe_bound.specs.Bounds.{bound_point, lagrangian_bound};
ghost use Rattle.safe_bound.specs.Premises.{AreCuts, AreMultipliers};
ghost use Rattle.ip_core.specs.Boxes.{IsWithinReach};
ghost use Rattle.dual_ascent.specs.Ascents.{ascent, ascent_work};

use crate::climb::final_climb;
use crate::work::round_work;
use ip_core::{Bounds, List, Model, OutOfMemory, Point, Row};
use safe_bound::{bound, least_point};
use std::alloc::Global;
use work_stamp::Pulse;

/// What an ascent found: a multiplier for each row and then for each cut, their bound, the point at the cheapest ends
/// of their reduced costs, and the work that it took.
#[derive(Debug, Drop)]
pub struct Ascent {
    pub mults: List<u64>,
    pub bound: i128,
    pub point: Point,
    pub work: u64,
}

/// The ascent over a box. Multipliers begin at 0. In a round each row in order takes the first of greatest numerator
/// among its multiplier, that plus and minus the step size within 0 and 2^40, and 0. A round that changes none halves
/// the step size; the ascent ends where that is 0, and after 64 rounds. The pulse hears of each round's work after it, so
/// of just the work of the ascent. The only error is want of memory, of which the pulse hears nothing.
pub fn ascend<P: Pulse>(
    alloc: Global,
    model: &Model,
    cuts: &[Row],
    bounds: &Bounds,
    pulse: &mut P,
) -> Result<Ascent, OutOfMemory>
    requires cuts { AreCuts model.now cuts.now }
    requires within { IsWithinReach model.now.root bounds.now }
    requires ready { P.IsReady pulse.old }
    requires allowed { ascent_work model.now cuts.now bounds.now ≤ P.allowance pulse.old }
    ensures mults { IfOk result (λ a. a.mults ≡ (ascent model.now cuts.now bounds.now).mults) }
    ensures bound { IfOk result (λ a. a.bound ≡
        lagrangian_bound model.now cuts.now bounds.now a.mults) }
    ensures point { IfOk result (λ a. a.point ≡ bound_point model.now cuts.now bounds.now a.mults) }
    ensures work { IfOk result (λ a. a.work ≡ ascent_work model.now cuts.now bounds.now) }
    ensures multipliers { IfOk result (λ a. AreMultipliers model.now cuts.now a.mults) }
    ensures least { IfOk result (λ a. least_value model.now bounds.now ≤ℤ a.bound) }
    ensures limit { IfOk result (λ a. neg_ℤ (pos (2 ^ 50)) ≤ℤ a.bound) }
    ensures exact { IfOk result (λ a. P.allowance pulse.old ≡ P.allowance pulse.new + a.work) }
    ensures told { P.allowance pulse.old ≤ P.allowance pulse.new + ascent_work model.now cuts.now
        bounds.now }
    ensures lowered { P.allowance pulse.new ≤ P.allowance pulse.old }
    ensures rest { P.rest pulse.new ≡ P.rest pulse.old }
    ensures ready { P.IsReady pulse.new }
{
    let columns = model.parts().cols.len();
    let mut scratch = vec![in alloc; 0; columns]?;
    let mut point = Point::of(List::of(vec![in alloc; 0; columns]?));
    let climb = final_climb(alloc, model, cuts, bounds, pulse)?;
    let bound = bound(model, cuts, bounds, climb.kept.mults(), &mut scratch);
    least_point(
        model,
        cuts,
        bounds,
        climb.kept.mults(),
        &mut scratch,
        &mut point,
    );
    let work = climb.rounds * round_work(model, cuts);
    Ok(Ascent {
        mults: climb.kept.into_mults(),
        bound,
        point,
        work,
    })
}
