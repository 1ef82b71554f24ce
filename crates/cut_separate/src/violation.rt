ghost use Rattle.std.specs.Prelude.{◌≡◌, ◌≤◌, ◌<◌, ◌^◌, ◌+ℤ◌, ◌-ℤ◌, ◌*ℤ◌, int_lt, length, unsigned_abs};
ghost use Rattle.ip_core.specs.Numbers.{int_at, int_sum_below};
ghost use Rattle.ip_core.specs.Rows.{IsReady};
ghost use Rattle.cut_derive.specs.Gomory.{rounded_coefficient, rounded_least as rounded_least_of};
ghost use Rattle.cut_derive.specs.Premises.{AreNear, IsNarrowSum};
ghost use Rattle.cut_separate.specs.Violations.{rounded_activity as rounded_activity_of, rounded_row_least as rounded_row_least_of};

use crate::activity::{activity, round_up, rounded_activity};
use cut_derive::{rounded_least, rounded_sum};
use ip_core::{Bounds, MAX_WIDTH, Row};

/// Whether the point doesn't meet the row, once that is divided and rounded up.
pub fn violates_rounded(root: &Bounds, row: &Row, divisor: u64, point: &[i64]) -> bool
    requires above { 0 < divisor }
    requires row { IsReady root.now row.now }
    requires near { AreNear root.now point.now }
    ensures { result ≡ int_lt (rounded_activity_of divisor point.now row.now.terms)
        (rounded_row_least_of root.now row.now divisor) }
{
    rounded_activity(row, divisor, root, point) < rounded_row_least(root, row, divisor)
}

/// What the row asks for above the lows of the box, divided and rounded up, and then from 0 again.
fn rounded_row_least(root: &Bounds, row: &Row, divisor: u64) -> i64
    requires above { 0 < divisor }
    requires row { IsReady root.now row.now }
    ensures { result ≡ rounded_row_least_of root.now row.now divisor }
{
    let lows = root.lows();
    let asked = difference(row.least, activity(row, root, lows));
    sum(
        round_up(asked, divisor),
        rounded_activity(row, divisor, root, lows),
    )
}

/// The difference of two narrow numbers.
fn difference(a: i64, b: i64) -> i64
    requires first { unsigned_abs a ≤ MAX_WIDTH }
    requires second { unsigned_abs b ≤ MAX_WIDTH }
    ensures value { result ≡ a -ℤ b }
    ensures small { unsigned_abs result ≤ 2 ^ 51 }
{
    a - b
}

/// The sum of two small numbers.
fn sum(a: i64, b: i64) -> i64
    requires first { unsigned_abs a ≤ 2 ^ 51 }
    requires second { unsigned_abs b ≤ MAX_WIDTH }
    ensures { result ≡ a +ℤ b }
{
    a + b
}

/// Whether the point doesn't meet the row of coefficients and of what they ask for, once these are divided and rounded
/// up.
pub fn violates_sums(
    root: &Bounds,
    coefs: &[i128],
    least: i128,
    divisor: u64,
    point: &[i64],
) -> bool
    requires above { 0 < divisor }
    requires narrow { IsNarrowSum root.now coefs.now least }
    requires near { AreNear root.now point.now }
    ensures { result ≡ int_lt
        (int_sum_below (length root.now.lows) (λ j.
        rounded_coefficient (int_at coefs.now) divisor j *ℤ int_at point.now j))
        (rounded_least_of (length root.now.lows) root.now (int_at coefs.now) least divisor) }
{
    let asked = rounded_least(coefs, least, divisor, root);
    rounded_sum(coefs, divisor, root, point) < asked
}
