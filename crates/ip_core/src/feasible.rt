ghost use Rattle.std.specs.Prelude.{◌≡◌, ◌≤◌, ◌<◌, ◌↔◌, ◌*ℤ◌, length, IsTrue};
ghost use Rattle.ip_core.specs.Numbers.{int_at};
ghost use Rattle.ip_core.specs.Sides.{IsInside};
ghost use Rattle.ip_core.specs.Rows.{AreMet, AreRows, IsRow, activity, part_width};
ghost use Rattle.ip_core.specs.Truth.{IsFeasible, value_at};

use crate::limits::MAX_WIDTH;
use crate::{Bounds, Model, Point, Row};

/// Whether the point has one value for each column, lies in the root box and meets every row. It takes no memory.
pub fn is_feasible(model: &Model, point: &Point) -> bool
    ensures { IsTrue result ↔ IsFeasible model.now point.now }
{
    let parts = model.parts();
    let values = point.values();
    if values.len() != parts.cols.len() {
        return false;
    }
    if !is_inside(&parts.root, values) {
        return false;
    }
    are_met(parts.rows.as_slice(), &parts.root, values)
}

/// The sum of cost times value, without the constant. It takes no memory.
pub fn value(model: &Model, point: &Point) -> i64
    requires one_each { length point.now ≡ length model.now.cols }
    requires inside { IsInside model.now.root point.now }
    ensures { result ≡ value_at model.now point.now }
{
    let parts = model.parts();
    let costs = parts.costs.as_slice();
    let values = point.values();
    let mut sum = 0;
    for j in 0..costs.len() {
        sum += product(costs[j], &parts.root, values, j as u32);
    }
    sum
}

fn is_inside(root: &Bounds, values: &[i64]) -> bool
    requires { length values.now ≡ length root.now.lows }
    ensures { IsTrue result ↔ IsInside root.now values.now }
{
    let lows = root.lows();
    let highs = root.highs();
    for j in 0..values.len() {
        if values[j] < lows[j] || highs[j] < values[j] {
            return false;
        }
    }
    true
}

fn are_met(rows: &[Row], root: &Bounds, values: &[i64]) -> bool
    requires one_each { length values.now ≡ length root.now.lows }
    requires inside { IsInside root.now values.now }
    requires rows { AreRows (length root.now.lows) root.now rows.now }
    ensures { IsTrue result ↔ AreMet values.now rows.now }
{
    for row in rows {
        if activity(row, root, values) < row.least {
            return false;
        }
    }
    true
}

/// What a row's terms add up to at a point.
fn activity(row: &Row, root: &Bounds, values: &[i64]) -> i64
    requires one_each { length values.now ≡ length root.now.lows }
    requires inside { IsInside root.now values.now }
    requires row { IsRow (length root.now.lows) root.now row.now }
    ensures { result ≡ activity values.now row.now.terms }
{
    let mut sum = 0;
    for term in row.terms.as_slice() {
        sum += product(term.coef, root, values, term.col);
    }
    sum
}

/// A coefficient times the value of its column.
fn product(coef: i64, root: &Bounds, values: &[i64], col: u32) -> i64
    requires inside { IsInside root.now values.now }
    requires known { col < length values.now }
    requires narrow { part_width root.now coef col ≤ MAX_WIDTH }
    ensures { result ≡ coef *ℤ int_at values.now col }
{
    coef * values[col as usize]
}
