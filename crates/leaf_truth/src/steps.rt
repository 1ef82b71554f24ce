ghost use Rattle.std.specs.Prelude.{◌≡◌, ◌<◌, ◌∷◌, [], length, map, true, false, MatchOption};
ghost use Rattle.std.specs.List.Sorted.{IsStrictlyIncreasing};
ghost use Rattle.ip_core.specs.Boxes.{IsWithin};
ghost use Rattle.ip_core.specs.Rows.{coefficient as coefficient_of};
ghost use Rattle.safe_bound.specs.Premises.{AreCuts};
ghost use Rattle.leaf_truth.specs.Steps.{are_lawful_steps, box_after, is_open_at, is_on_side as is_on_side_of, is_row_step as is_row_step_of, has_no_empty as has_no_empty_of, is_lawful_step};

use crate::rows::row_named;
use ip_core::{Bounds, Model, Row, Term, Tighten};
use row_propagate::tighten;

/// Makes the tightenings of a leaf in order, each on the box that the one before it left, up to the first that can't be
/// made. None says that there is such a one; else the answer is whether the box then has no empty column.
pub fn make_steps(
    model: &Model,
    cuts: &[Row],
    bounds: &mut Bounds,
    steps: &[Tighten],
) -> Option<bool>
    requires cuts { AreCuts model.now cuts.now }
    requires within { IsWithin model.now.root bounds.old }
    ensures answer { MatchOption result
        (are_lawful_steps model.now.rows cuts.now bounds.old steps.now ≡ false)
        (λ no_empty. (are_lawful_steps model.now.rows cuts.now bounds.old steps.now ≡ true)
        × (no_empty ≡ has_no_empty_of bounds.new)) }
    ensures sides { bounds.new ≡ box_after model.now.rows cuts.now bounds.old steps.now }
    ensures within { IsWithin model.now.root bounds.new }
{
    let mut no_empty = has_no_empty(bounds);
    for step in steps {
        if !no_empty {
            return None;
        }
        if !make_step(model, cuts, bounds, *step) {
            return None;
        }
        no_empty = is_open_at(bounds, step.col);
    }
    Some(no_empty)
}

/// Makes a tightening on a box without empty columns, where it can be made, and tells whether it can.
#[tactic(auto, using(crate::proofs::Stepping::step_test, crate::proofs::Stepping::step_box))]
fn make_step(model: &Model, cuts: &[Row], bounds: &mut Bounds, step: Tighten) -> bool
    requires cuts { AreCuts model.now cuts.now }
    requires within { IsWithin model.now.root bounds.old }
    requires solid { has_no_empty_of bounds.old ≡ true }
    ensures value { result ≡ is_lawful_step model.now.rows cuts.now bounds.old step }
    ensures sides { bounds.new ≡ box_after model.now.rows cuts.now bounds.old (step ∷ []) }
{
    let _limits = model.parts();
    let Some(row) = row_named(model, cuts, step.row) else {
        return false;
    };
    if !is_row_step(row, bounds, step) {
        return false;
    }
    tighten(row, step.row, bounds, step.col);
    true
}

/// Whether a step is one of a row, on a box without empty columns: its column exists, and its side is that of the
/// coefficient's sign.
fn is_row_step(row: &Row, bounds: &Bounds, step: Tighten) -> bool
    requires rising { IsStrictlyIncreasing (map (λ t. t.col) row.now.terms) }
    requires solid { has_no_empty_of bounds.now ≡ true }
    ensures { result ≡ is_row_step_of row.now bounds.now step }
{
    if step.col as usize >= bounds.lows().len() {
        return false;
    }
    is_on_side(step.low, coefficient(row.terms.as_slice(), step.col))
}

/// The coefficient of a column, and 0 where it stands in no term. The columns of the terms rise.
#[tactic(auto, using(crate::proofs::Coefficients::coefficient_found, crate::proofs::Coefficients::coefficient_apart))]
fn coefficient(terms: &[Term], col: u32) -> i64
    requires { IsStrictlyIncreasing (map (λ t. t.col) terms.now) }
    ensures { result ≡ coefficient_of col terms.now }
{
    for term in terms {
        if term.col == col {
            return term.coef;
        }
    }
    0
}

/// Whether a coefficient is above 0 where a low is raised, and below 0 where a high is lowered.
fn is_on_side(low: bool, coef: i64) -> bool
    ensures { result ≡ is_on_side_of low coef }
{
    if low { coef > 0 } else { coef < 0 }
}

/// Whether no column of the box is empty.
#[tactic(auto, using(crate::proofs::Solid::solid_found))]
fn has_no_empty(bounds: &Bounds) -> bool
    ensures { result ≡ has_no_empty_of bounds.now }
{
    bounds.first_empty().is_none()
}

/// Whether a column's low is at most its high.
fn is_open_at(bounds: &Bounds, col: u32) -> bool
    requires { col < length bounds.now.lows }
    ensures { result ≡ is_open_at bounds.now col }
{
    let (low, high) = bounds.get(col);
    low <= high
}
