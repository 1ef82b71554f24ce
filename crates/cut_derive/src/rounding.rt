ghost use Rattle.std.specs.Prelude.{◌≡◌, ◌<◌, ◌≤◌, ◌^◌, ◌+◌, ◌-ℤ◌, ◌*ℤ◌, ℕ, pos, length, unsigned_abs, IfOk};
ghost use Rattle.ip_core.specs.Numbers.{int_at, int_sum_below, sum_below};
ghost use Rattle.ip_core.specs.Sides.{HasLimits, reach as reach_of};
ghost use Rattle.ip_core.specs.Rows.{part_width as part_width_of};
ghost use Rattle.ip_core.specs.Quotients.{ceiling_quotient};
ghost use Rattle.safe_bound.specs.Premises.{shares_width};
ghost use Rattle.cut_derive.specs.Gomory.{low_sum as low_sum_of, rounded_coefficient as rounded_coefficient_of, rounded_least as rounded_least_of, terms_below};
ghost use Rattle.cut_derive.specs.Premises.{AreNear, IsNarrowSum};

use ip_core::{Bounds, List, MAX_COLUMNS, MAX_WIDTH, OutOfMemory, Term};
use std::alloc::Global;

/// What coefficients, one for each column, ask for above the lows of the box, divided and rounded up, and then from 0
/// again.
pub fn rounded_least(coefs: &[i128], least: i128, divisor: u64, root: &Bounds) -> i128
    requires above { 0 < divisor }
    requires narrow { IsNarrowSum root.now coefs.now least }
    ensures value { result
        ≡ rounded_least_of (length root.now.lows) root.now (int_at coefs.now) least divisor }
    ensures small { unsigned_abs result ≤ 2 ^ 100 }
{
    let asked = above_lows(coefs, least, root);
    let rounded = round_up(asked, divisor);
    let lows = rounded_low_sum(coefs, divisor, root);
    rounded + lows
}

/// What coefficients ask for above the lows of the box.
fn above_lows(coefs: &[i128], least: i128, root: &Bounds) -> i128
    requires { IsNarrowSum root.now coefs.now least }
    ensures value { result
        ≡ least -ℤ low_sum_of (length root.now.lows) root.now (int_at coefs.now) }
    ensures small { unsigned_abs result ≤ 2 ^ 99 }
{
    difference(least, low_sum(coefs, root))
}

/// The difference of two numbers.
fn difference(a: i128, b: i128) -> i128
    requires first { unsigned_abs a ≤ 2 ^ 98 }
    requires second { unsigned_abs b ≤ 2 ^ 98 }
    ensures value { result ≡ a -ℤ b }
    ensures small { unsigned_abs result ≤ 2 ^ 99 }
{
    a - b
}

/// What coefficients give at the lows of the box.
fn low_sum(coefs: &[i128], root: &Bounds) -> i128
    requires columns { length coefs.now ≡ length root.now.lows }
    requires narrow { shares_width root.now coefs.now ≤ 2 ^ 98 }
    ensures value { result ≡ low_sum_of (length root.now.lows) root.now (int_at coefs.now) }
    ensures small { unsigned_abs result ≤ 2 ^ 98 }
{
    let mut sum = 0;
    for j in 0..root.lows().len() {
        sum += low_part(coefs, root, j);
    }
    sum
}

/// What coefficients, divided and rounded up, give at the lows of the box.
fn rounded_low_sum(coefs: &[i128], divisor: u64, root: &Bounds) -> i128
    requires above { 0 < divisor }
    requires columns { length coefs.now ≡ length root.now.lows }
    requires narrow { shares_width root.now coefs.now ≤ 2 ^ 98 }
    ensures value { result
        ≡ low_sum_of (length root.now.lows) root.now
        (rounded_coefficient_of (int_at coefs.now) divisor) }
    ensures small { unsigned_abs result ≤ 2 ^ 98 }
{
    rounded_sum(coefs, divisor, root, root.lows())
}

/// What coefficients, one for each column, give at values within the reach of the box, once they are divided and rounded
/// up.
pub fn rounded_sum(coefs: &[i128], divisor: u64, root: &Bounds, values: &[i64]) -> i128
    requires above { 0 < divisor }
    requires columns { length coefs.now ≡ length root.now.lows }
    requires narrow { shares_width root.now coefs.now ≤ 2 ^ 98 }
    requires near { AreNear root.now values.now }
    ensures value { result ≡ int_sum_below (length root.now.lows) (λ j.
        rounded_coefficient_of (int_at coefs.now) divisor j *ℤ int_at values.now j) }
    ensures small { unsigned_abs result ≤ 2 ^ 98 }
{
    let mut sum = 0;
    for j in 0..root.lows().len() {
        sum += rounded_part(coefs, divisor, root, values, j);
    }
    sum
}

/// A coefficient times the low of its column.
fn low_part(coefs: &[i128], root: &Bounds, col: usize) -> i128
    requires known { col < length root.now.lows }
    requires columns { length coefs.now ≡ length root.now.lows }
    requires narrow { shares_width root.now coefs.now ≤ 2 ^ 98 }
    ensures { result ≡ int_at coefs.now col *ℤ int_at root.now.lows col }
{
    product(coefs[col], root.lows()[col])
}

/// A coefficient, divided and rounded up, times the value of its column.
fn rounded_part(coefs: &[i128], divisor: u64, root: &Bounds, values: &[i64], col: usize) -> i128
    requires above { 0 < divisor }
    requires known { col < length root.now.lows }
    requires columns { length coefs.now ≡ length root.now.lows }
    requires narrow { shares_width root.now coefs.now ≤ 2 ^ 98 }
    requires near { AreNear root.now values.now }
    ensures { result
        ≡ rounded_coefficient_of (int_at coefs.now) divisor col *ℤ int_at values.now col }
{
    product(rounded_coefficient(coefs, col, divisor), values[col])
}

/// The product of a coefficient and a value.
fn product(coef: i128, value: i64) -> i128
    requires { unsigned_abs (coef *ℤ value) ≤ 2 ^ 98 }
    ensures { result ≡ coef *ℤ value }
{
    coef * i128::from(value)
}

/// The coefficient of a column, divided and rounded up.
fn rounded_coefficient(coefs: &[i128], col: usize, divisor: u64) -> i128
    requires above { 0 < divisor }
    requires known { col < length coefs.now }
    requires narrow { unsigned_abs (int_at coefs.now col) ≤ 2 ^ 98 }
    ensures value { result ≡ rounded_coefficient_of (int_at coefs.now) divisor col }
    ensures small { unsigned_abs result ≤ unsigned_abs (int_at coefs.now col) }
{
    round_up(coefs[col], divisor)
}

/// A number divided by a divisor, rounded up.
pub fn round_up(number: i128, divisor: u64) -> i128
    requires above { 0 < divisor }
    requires narrow { unsigned_abs number ≤ 2 ^ 99 }
    ensures value { result ≡ ceiling_quotient number (pos divisor) }
    ensures small { unsigned_abs result ≤ unsigned_abs number }
{
    -(-number).div_euclid(i128::from(divisor))
}

/// The width of coefficients, divided and rounded up, and of what they ask for.
pub fn rounded_width(coefs: &[i128], least: i128, divisor: u64, root: &Bounds) -> u128
    requires above { 0 < divisor }
    requires limits { HasLimits root.now }
    requires columns { length coefs.now ≡ length root.now.lows }
    requires narrow { shares_width root.now coefs.now ≤ 2 ^ 98 }
    requires least { unsigned_abs least ≤ 2 ^ 100 }
    ensures { result ≡ unsigned_abs least + sum_below (length root.now.lows)
        (λ j. part_width_of root.now (rounded_coefficient_of (int_at coefs.now) divisor j) j) }
{
    let mut width = least.unsigned_abs();
    for j in 0..root.lows().len() {
        width += rounded_part_width(coefs, divisor, root, j);
    }
    width
}

/// The absolute coefficient, divided and rounded up, times the reach of its column.
fn rounded_part_width(coefs: &[i128], divisor: u64, root: &Bounds, col: usize) -> u128
    requires above { 0 < divisor }
    requires limits { HasLimits root.now }
    requires known { col < length root.now.lows }
    requires columns { length coefs.now ≡ length root.now.lows }
    requires narrow { shares_width root.now coefs.now ≤ 2 ^ 98 }
    ensures value { result
        ≡ part_width_of root.now (rounded_coefficient_of (int_at coefs.now) divisor col) col }
    ensures small { result ≤ 2 ^ 98 }
{
    let coef = rounded_coefficient(coefs, col, divisor);
    coef.unsigned_abs() * u128::from(reach(root, col))
}

/// How far a column's values reach from 0, and at least 1.
fn reach(root: &Bounds, col: usize) -> u64
    requires known { col < length root.now.lows }
    requires limits { HasLimits root.now }
    ensures { result ≡ reach_of root.now col }
{
    let low = root.lows()[col];
    let high = root.highs()[col];
    low.unsigned_abs().max(high.unsigned_abs()).max(1)
}

/// The terms of coefficients, divided and rounded up, without those that are 0.
pub fn rounded_terms(alloc: Global, coefs: &[i128], divisor: u64) -> Result<List<Term>, OutOfMemory>
    requires above { 0 < divisor }
    requires few { length coefs.now ≤ MAX_COLUMNS }
    requires small { (j : ℕ) → j < length coefs.now → unsigned_abs (int_at coefs.now j) ≤ 2 ^ 98 }
    requires narrow { (j : ℕ) → j < length coefs.now →
        unsigned_abs (rounded_coefficient_of (int_at coefs.now) divisor j) ≤ MAX_WIDTH }
    ensures { IfOk result (λ terms. terms
        ≡ terms_below (length coefs.now) (rounded_coefficient_of (int_at coefs.now) divisor)) }
{
    let mut terms = List::new(alloc);
    for j in 0..coefs.len() {
        let coef = rounded_coefficient(coefs, j, divisor);
        if coef != 0 {
            terms.push(Term {
                col: j as u32,
                coef: coef as i64,
            })?;
        }
    }
    Ok(terms)
}
