ghost use Rattle.std.specs.Prelude.{ℕ, ◌≡◌, ◌<◌, ◌≤◌, ◌^◌, ◌*ℤ◌, length, slice_index, sum_by, IfOk};
ghost use Rattle.ip_core.specs.Numbers.{int_at};
ghost use Rattle.ip_core.specs.Rows.{AreTerms, term_width};
ghost use Rattle.safe_bound.specs.Bounds.{all_rows, row_of};
ghost use Rattle.safe_bound.specs.Premises.{AreCuts};
ghost use Rattle.ip_core.specs.Boxes.{IsWithinReach};
ghost use Rattle.dual_ascent.specs.Ends.{end_activity as end_activity_of, end_at as end_at_of, spread};

use crate::all_rows::row_at;
use ip_core::{Bounds, List, Model, OutOfMemory, Row, Term};
use std::alloc::Global;

/// How far the two ends of each column are apart.
pub fn spreads(alloc: Global, bounds: &Bounds) -> Result<List<u64>, OutOfMemory>
    ensures long { IfOk result (λ w. length w ≡ length bounds.now.lows) }
    ensures each { IfOk result (λ w. (j : ℕ) → j < length bounds.now.lows →
        slice_index w j ≡ spread bounds.now j) }
{
    let lows = bounds.lows();
    let highs = bounds.highs();
    let mut widths = vec![in alloc; 0; lows.len()]?;
    for j in 0..lows.len() {
        widths[j] = highs[j].abs_diff(lows[j]);
    }
    Ok(List::of(widths))
}

/// The activity of each row and cut where each column stands at the end at which its cost costs least.
pub fn end_activities(
    alloc: Global,
    model: &Model,
    cuts: &[Row],
    bounds: &Bounds,
    costs: &[i128],
) -> Result<List<i128>, OutOfMemory>
    requires cuts { AreCuts model.now cuts.now }
    requires within { IsWithinReach model.now.root bounds.now }
    requires costs { length costs.now ≡ length model.now.cols }
    ensures long { IfOk result (λ a. length a ≡ length (all_rows model.now cuts.now)) }
    ensures each { IfOk result (λ a. (k : ℕ) → k < length (all_rows model.now cuts.now) →
        int_at a k ≡ end_activity_of bounds.now (int_at costs.now)
        (row_of model.now cuts.now k).terms) }
{
    // The model's limits keep the activities small.
    let _limits = model.parts();
    let rows = model.rows().len() + cuts.len();
    let mut active = vec![in alloc; 0; rows]?;
    for row in 0..rows {
        active[row] = end_activity(row_at(model, cuts, row).terms.as_slice(), bounds, costs);
    }
    Ok(List::of(active))
}

/// The activity of terms where each column stands at the end at which its cost costs least.
fn end_activity(terms: &[Term], bounds: &Bounds, costs: &[i128]) -> i128
    requires known { AreTerms (length bounds.now.lows) terms.now }
    requires costs { length costs.now ≡ length bounds.now.lows }
    requires narrow { sum_by (term_width bounds.now) terms.now ≤ 2 ^ 50 }
    ensures { result ≡ end_activity_of bounds.now (int_at costs.now) terms.now }
{
    let mut sum = 0;
    for term in terms {
        let col = term.col as usize;
        sum += product(term.coef, end_at(bounds, costs[col], col));
    }
    sum
}

/// The end of a column at which a cost costs least: the lesser of both where the cost is 0 or more, else the greater.
fn end_at(bounds: &Bounds, cost: i128, col: usize) -> i64
    requires { col < length bounds.now.lows }
    ensures { result ≡ end_at_of bounds.now cost col }
{
    let low = bounds.lows()[col];
    let high = bounds.highs()[col];
    if cost >= 0 {
        low.min(high)
    } else {
        low.max(high)
    }
}

/// The product of two numbers.
fn product(a: i64, b: i64) -> i128
    ensures { result ≡ a *ℤ b }
{
    i128::from(a) * i128::from(b)
}
