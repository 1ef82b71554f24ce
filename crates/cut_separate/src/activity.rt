ghost use Rattle.std.specs.Prelude.{ℕ, pos, ◌≡◌, ◌≤◌, ◌<◌, ◌^◌, ◌*ℤ◌, length, unsigned_abs};
ghost use Rattle.ip_core.specs.Numbers.{int_at};
ghost use Rattle.ip_core.specs.Rows.{IsReady, activity as activity_of, term_width};
ghost use Rattle.ip_core.specs.Quotients.{ceiling_quotient};
ghost use Rattle.cut_derive.specs.Premises.{AreNear};
ghost use Rattle.cut_separate.specs.Violations.{rounded_activity as rounded_activity_of, rounded_part as rounded_part_of};

use ip_core::{Bounds, MAX_WIDTH, Row, Term};

/// What a row's terms add up to at values within the reach of the box.
pub fn activity(row: &Row, root: &Bounds, values: &[i64]) -> i64
    requires row { IsReady root.now row.now }
    requires near { AreNear root.now values.now }
    ensures value { result ≡ activity_of values.now row.now.terms }
    ensures small { unsigned_abs result ≤ MAX_WIDTH }
{
    let mut sum = 0;
    for term in row.terms.as_slice() {
        sum += value_part(term, root, values);
    }
    sum
}

/// What a row's terms, divided and rounded up, add up to at values within the reach of the box.
pub fn rounded_activity(row: &Row, divisor: u64, root: &Bounds, values: &[i64]) -> i64
    requires above { 0 < divisor }
    requires row { IsReady root.now row.now }
    requires near { AreNear root.now values.now }
    ensures value { result ≡ rounded_activity_of divisor values.now row.now.terms }
    ensures small { unsigned_abs result ≤ MAX_WIDTH }
{
    let mut sum = 0;
    for term in row.terms.as_slice() {
        sum += rounded_part(term, divisor, root, values);
    }
    sum
}

/// A coefficient times the value of its column.
fn value_part(term: &Term, root: &Bounds, values: &[i64]) -> i64
    requires known { term.now.col < length root.now.lows }
    requires narrow { term_width root.now term.now ≤ MAX_WIDTH }
    requires near { AreNear root.now values.now }
    ensures { result ≡ term.now.coef *ℤ int_at values.now term.now.col }
{
    product(term.coef, values[term.col as usize])
}

/// A coefficient, divided and rounded up, times the value of its column.
fn rounded_part(term: &Term, divisor: u64, root: &Bounds, values: &[i64]) -> i64
    requires above { 0 < divisor }
    requires known { term.now.col < length root.now.lows }
    requires narrow { term_width root.now term.now ≤ MAX_WIDTH }
    requires near { AreNear root.now values.now }
    ensures { result ≡ rounded_part_of divisor values.now term.now }
{
    product(round_up(term.coef, divisor), values[term.col as usize])
}

/// The product of a coefficient and a value.
fn product(coef: i64, value: i64) -> i64
    requires { unsigned_abs (coef *ℤ value) ≤ MAX_WIDTH }
    ensures { result ≡ coef *ℤ value }
{
    coef * value
}

/// A number divided by a divisor, rounded up.
pub fn round_up(number: i64, divisor: u64) -> i64
    requires above { 0 < divisor }
    requires narrow { unsigned_abs number ≤ 2 ^ 52 }
    ensures value { result ≡ ceiling_quotient number (pos divisor) }
    ensures small { unsigned_abs result ≤ unsigned_abs number }
{
    narrow(cut_derive::round_up(i128::from(number), divisor))
}

/// A narrow number at 64 bits.
fn narrow(number: i128) -> i64
    requires { unsigned_abs number ≤ 2 ^ 52 }
    ensures { result ≡ number }
{
    number as i64
}
