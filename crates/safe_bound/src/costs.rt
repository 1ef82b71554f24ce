ghost use Rattle.std.specs.Prelude.{◌≡◌, ◌≤◌, ◌<◌, ◌^◌, ◌-ℤ◌, ◌*ℤ◌, ℕ, pos, length, slice_set, unsigned_abs};
ghost use Rattle.ip_core.specs.Numbers.{int_at, int_sum_below};
ghost use Rattle.ip_core.specs.Boxes.{cheapest_end as cheapest_end_of};
ghost use Rattle.safe_bound.specs.Bounds.{all_rows, reduced_cost, share as share_of};
ghost use Rattle.safe_bound.specs.Premises.{AreCuts, AreLight, AreMultipliers, AreLightTerms, AreSmall, AreWithin, HasNarrowLeasts, shares_width};
ghost use Rattle.ip_core.specs.Rows.{coefficient};
ghost use Rattle.safe_bound.specs.Weights.{weighted_coefficient, weighted_least as weighted_least_of};

use crate::limits::{MAX_MULTIPLIER, SCALE};
use ip_core::{Bounds, Model, Row, Term};

/// Writes the reduced cost of each column: 1,024 times its cost, less multiplier times coefficient for each row.
pub fn reduce(model: &Model, cuts: &[Row], mults: &[u64], costs: &mut [i128])
    requires cuts { AreCuts model.now cuts.now }
    requires multipliers { AreMultipliers model.now cuts.now mults.now }
    requires room { length model.now.cols ≤ length costs.old }
    ensures { (j : ℕ) → j < length model.now.cols →
        int_at costs.new j ≡ reduced_cost model.now cuts.now mults.now j }
{
    let parts = model.parts();
    let rows = parts.rows.as_slice();
    let (front, back) = mults.split_at(rows.len());
    scale(parts.costs.as_slice(), costs);
    subtract_rows(rows, front, parts.costs.len(), costs);
    subtract_rows(cuts, back, parts.costs.len(), costs);
}

/// Writes 1,024 times each cost.
fn scale(costs: &[i64], scaled: &mut [i128])
    requires { length costs.now ≤ length scaled.old }
    ensures { (j : ℕ) → j < length costs.now →
        int_at scaled.new j ≡ pos 1024 *ℤ int_at costs.now j }
{
    for j in 0..costs.len() {
        scaled[j] = SCALE * i128::from(costs[j]);
    }
}

/// Subtracts multiplier times coefficient for each row from the first `columns` costs.
fn subtract_rows(rows: &[Row], mults: &[u64], columns: usize, costs: &mut [i128])
    requires columns { columns ≤ length costs.old }
    requires rows { AreLight columns rows.now }
    requires few { length rows.now ≤ 2 ^ 31 }
    requires one_each { length mults.now ≡ length rows.now }
    requires small { AreSmall mults.now }
    requires room { AreWithin columns (2 ^ 124) costs.old }
    ensures { (j : ℕ) → j < columns →
        int_at costs.new j ≡ int_at costs.old j -ℤ weighted_coefficient j rows.now mults.now }
{
    for i in 0..rows.len() {
        subtract_terms(rows[i].terms.as_slice(), mults[i], columns, costs);
    }
}

/// Subtracts multiplier times coefficient from the first `columns` costs.
fn subtract_terms(terms: &[Term], mult: u64, columns: usize, costs: &mut [i128])
    requires columns { columns ≤ length costs.old }
    requires terms { AreLightTerms columns terms.now }
    requires small { mult ≤ MAX_MULTIPLIER }
    requires room { AreWithin columns (2 ^ 125) costs.old }
    ensures { (j : ℕ) → j < columns →
        int_at costs.new j ≡ int_at costs.old j -ℤ (pos mult *ℤ coefficient j terms.now) }
{
    for term in terms {
        subtract(costs, term.col as usize, mult, term.coef);
    }
}

/// Subtracts multiplier times coefficient from one cost.
fn subtract(costs: &mut [i128], col: usize, mult: u64, coef: i64)
    requires known { col < length costs.old }
    requires small { mult ≤ MAX_MULTIPLIER }
    requires room { unsigned_abs (int_at costs.old col) ≤ 2 ^ 126 }
    ensures { costs.new ≡ slice_set costs.old col (int_at costs.old col -ℤ (pos mult *ℤ coef)) }
{
    let cost = costs[col];
    costs[col] = cost - i128::from(mult) * i128::from(coef);
}

/// The sum of multiplier times `least` over the rows of the model and the cuts.
pub fn least(model: &Model, cuts: &[Row], mults: &[u64]) -> i128
    requires cuts { AreCuts model.now cuts.now }
    requires multipliers { AreMultipliers model.now cuts.now mults.now }
    ensures value { result ≡ weighted_least_of (all_rows model.now cuts.now) mults.now }
    ensures small { unsigned_abs result ≤ 2 ^ 122 }
{
    let rows = model.parts().rows.as_slice();
    let (front, back) = mults.split_at(rows.len());
    weighted_least(rows, front) + weighted_least(cuts, back)
}

/// The sum of multiplier times `least` over rows.
fn weighted_least(rows: &[Row], mults: &[u64]) -> i128
    requires rows { HasNarrowLeasts rows.now }
    requires few { length rows.now ≤ 2 ^ 31 }
    requires one_each { length mults.now ≡ length rows.now }
    requires small { AreSmall mults.now }
    ensures value { result ≡ weighted_least_of rows.now mults.now }
    ensures small { unsigned_abs result ≤ 2 ^ 121 }
{
    let mut sum = 0;
    for i in 0..rows.len() {
        sum += weighted(mults[i], rows[i].least);
    }
    sum
}

/// A multiplier times a number.
fn weighted(mult: u64, number: i64) -> i128
    ensures { result ≡ pos mult *ℤ number }
{
    i128::from(mult) * i128::from(number)
}

/// The sum over the columns of the lesser of cost times low and cost times high.
pub fn shares(costs: &[i128], bounds: &Bounds) -> i128
    requires columns { length bounds.now.lows ≤ length costs.now }
    requires narrow { shares_width bounds.now costs.now ≤ 2 ^ 123 }
    ensures value { result ≡ int_sum_below (length bounds.now.lows)
        (λ j. share_of bounds.now (int_at costs.now j) j) }
    ensures small { unsigned_abs result ≤ shares_width bounds.now costs.now }
{
    let mut sum = 0;
    for j in 0..bounds.lows().len() {
        sum += share(costs, bounds, j);
    }
    sum
}

/// The lesser of a column's cost times its low and times its high.
fn share(costs: &[i128], bounds: &Bounds, col: usize) -> i128
    requires columns { length bounds.now.lows ≤ length costs.now }
    requires known { col < length bounds.now.lows }
    requires narrow { shares_width bounds.now costs.now ≤ 2 ^ 123 }
    ensures { result ≡ share_of bounds.now (int_at costs.now col) col }
{
    let low = product(costs, bounds.lows(), col);
    let high = product(costs, bounds.highs(), col);
    low.min(high)
}

/// A cost times an end of a column.
fn product(costs: &[i128], ends: &[i64], col: usize) -> i128
    requires costs { col < length costs.now }
    requires ends { col < length ends.now }
    requires narrow { unsigned_abs (int_at costs.now col *ℤ int_at ends.now col) ≤ 2 ^ 123 }
    ensures { result ≡ int_at costs.now col *ℤ int_at ends.now col }
{
    costs[col] * i128::from(ends[col])
}

/// The end of a column at which its cost costs least: its low where the cost is 0 or more, else its high.
pub fn cheapest_end(costs: &[i128], bounds: &Bounds, col: usize) -> i64
    requires columns { length bounds.now.lows ≤ length costs.now }
    requires known { col < length bounds.now.lows }
    ensures { result ≡ cheapest_end_of bounds.now (int_at costs.now col) col }
{
    if costs[col] >= 0 {
        bounds.lows()[col]
    } else {
        bounds.highs()[col]
    }
}
