//! The lines of a certificate before its cuts.
ghost use Rattle.std.specs.Prelude.{◌≡◌, ◌<◌, length, true, Some, None};
ghost use Rattle.std.specs.List.{list_all};
ghost use Rattle.cert_check.specs.declared.verdict.Why.TheVariants.{PointValue};
ghost use Rattle.cert_check.specs.Nodes.{reason_unless as reason_unless_of};
ghost use Rattle.cert_check.specs.Verdicts.{all_below, is_between as is_between_of, is_in_root as is_in_root_of, is_met, size_reason as size_reason_of, value_reason as value_reason_of, point_reason as point_reason_of};

use crate::Why;
use ip_core::{Bounds, Model, Point, greatest_value, is_feasible, value};
use tree_cert::Certificate;

/// Why the numbers of columns and rows are rejected.
pub fn size_reason(model: &Model, certificate: &Certificate) -> Option<Why>
    ensures { result ≡ size_reason_of model.now certificate.now }
{
    let parts = model.parts();
    let cols = certificate.cols as usize == parts.cols.len();
    let rows = certificate.rows as usize == parts.rows.len();
    reason_unless(Why::Size, cols && rows)
}

/// Why the value is rejected. A point outside the root box is no reason here.
pub fn value_reason(model: &Model, certificate: &Certificate) -> Option<Why>
    ensures { result ≡ value_reason_of model.now certificate.now.value certificate.now.point }
{
    let holds = match &certificate.point {
        None => is_above_greatest(model, certificate.value),
        Some(point) => is_value_of(model, certificate.value, point),
    };
    reason_unless(Why::PointValue, holds)
}

/// Whether a value is one more than the greatest value on the root box.
fn is_above_greatest(model: &Model, v: i64) -> bool
    ensures { reason_unless_of PointValue result ≡ value_reason_of model.now v None }
{
    v == greatest_value(model, model.root()) + 1
}

/// Whether a point has this value, if it lies in the root box.
#[tactic(auto, using(crate::proofs::Faultless::in_root_inside, crate::proofs::Faultless::in_root_length))]
fn is_value_of(model: &Model, v: i64, point: &Point) -> bool
    ensures { reason_unless_of PointValue result ≡ value_reason_of model.now v (Some point.now) }
{
    if !is_in_root(model, point) {
        return true;
    }
    v == value(model, point)
}

/// Why the point is rejected.
pub fn point_reason(model: &Model, certificate: &Certificate) -> Option<Why>
    ensures { result ≡ point_reason_of model.now certificate.now.point }
{
    let Some(point) = &certificate.point else {
        return None;
    };
    if !is_in_root(model, point) {
        return Some(Why::PointBounds);
    }
    reason_unless(Why::PointRow, meets_rows(model, point))
}

/// Whether a point of the root box meets each row.
fn meets_rows(model: &Model, point: &Point) -> bool
    requires { is_in_root_of model.now point.now ≡ true }
    ensures { result ≡ list_all (is_met point.now) model.now.rows }
{
    is_feasible(model, point)
}

/// The reason, unless a test passes.
pub fn reason_unless(why: Why, passes: bool) -> Option<Why>
    ensures { result ≡ reason_unless_of why passes }
{
    if passes { None } else { Some(why) }
}

/// Whether a point has a value for each column and lies in the root box.
fn is_in_root(model: &Model, point: &Point) -> bool
    ensures { result ≡ is_in_root_of model.now point.now }
{
    let parts = model.parts();
    let values = point.values();
    if values.len() != parts.cols.len() {
        return false;
    }
    is_inside(&parts.root, values)
}

/// Whether each value lies between the low and the high of its column.
fn is_inside(root: &Bounds, values: &[i64]) -> bool
    requires { length values.now ≡ length root.now.lows }
    ensures { result ≡ all_below (length values.now) (is_between_of root.now values.now) }
{
    for j in 0..values.len() {
        if !is_between(root, values, j) {
            return false;
        }
    }
    true
}

/// Whether the value of a column lies between the column's low and high.
fn is_between(root: &Bounds, values: &[i64], col: usize) -> bool
    requires known { col < length values.now }
    requires one_each { length values.now ≡ length root.now.lows }
    ensures { result ≡ is_between_of root.now values.now col }
{
    let lows = root.lows();
    let highs = root.highs();
    lows[col] <= values[col] && values[col] <= highs[col]
}
