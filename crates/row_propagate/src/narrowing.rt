ghost use Rattle.std.specs.Prelude.{◌≡◌, ◌≢◌, ◌<◌, ◌≤◌, length, unsigned_abs, IfSome};
ghost use Rattle.ip_core.specs.Rows.{IsReady};
ghost use Rattle.row_propagate.specs.Rounding.{narrower_box, narrower_high as narrower_high_of, narrower_low as narrower_low_of, narrower_bound as narrower_bound_of, rounded_bound as rounded_bound_of, tightening_of};

use crate::activity::{coefficient, remainder};
use crate::quotient::{ceiling_quotient, floor_quotient};
use ip_core::{Bounds, MAX_WIDTH, Row, RowRef, Tighten};

/// A bound that is narrower than a column's own: a new low, or a new high.
#[derive(Clone, Copy, Debug, PartialEq, Eq)]
pub enum Narrowing {
    Low(i64),
    High(i64),
}

impl Narrowing {
    /// Puts the bound into the box.
    pub fn apply(self, bounds: &mut Bounds, col: u32)
        requires { col < length bounds.old.lows }
        ensures { bounds.new ≡ narrower_box bounds.old col self }
    {
        match self {
            Narrowing::Low(low) => bounds.cut_low(col, low),
            Narrowing::High(high) => bounds.cut_high(col, high),
        }
    }

    /// The tightening by the row of a name.
    pub fn tightening(self, name: RowRef, col: u32) -> Tighten
        ensures { result ≡ tightening_of name col self }
    {
        Tighten {
            row: name,
            col,
            low: matches!(self, Narrowing::Low(_)),
        }
    }
}

/// The bound that a row gives for a column, rounded to whole numbers, where it is narrower than the column's own.
pub fn narrower_bound(row: &Row, bounds: &Bounds, col: u32) -> Option<Narrowing>
    requires ready { IsReady bounds.now row.now }
    requires known { col < length bounds.now.lows }
    ensures value { result ≡ narrower_bound_of row.now bounds.now col }
    ensures changes { IfSome result (λ bound. narrower_box bounds.now col bound ≢ bounds.now) }
{
    let left = remainder(row, bounds, col);
    let coef = coefficient(row.terms.as_slice(), col);
    rounded_bound(bounds, col, left, coef)
}

/// The bound by what is left to a column and its coefficient, where it is narrower than the column's own.
pub fn rounded_bound(bounds: &Bounds, col: u32, left: i64, coef: i64) -> Option<Narrowing>
    requires known { col < length bounds.now.lows }
    requires left { unsigned_abs left ≤ MAX_WIDTH }
    requires coef { unsigned_abs coef ≤ MAX_WIDTH }
    ensures value { result ≡ rounded_bound_of bounds.now col left coef }
    ensures changes { IfSome result (λ bound. narrower_box bounds.now col bound ≢ bounds.now) }
{
    if coef > 0 {
        narrower_low(bounds, col, ceiling_quotient(left, coef))
    } else if coef < 0 {
        narrower_high(bounds, col, floor_quotient(left, coef))
    } else {
        None
    }
}

fn narrower_low(bounds: &Bounds, col: u32, low: i64) -> Option<Narrowing>
    requires { col < length bounds.now.lows }
    ensures value { result ≡ narrower_low_of bounds.now col low }
    ensures changes { IfSome result (λ bound. narrower_box bounds.now col bound ≢ bounds.now) }
{
    if bounds.lows()[col as usize] < low {
        Some(Narrowing::Low(low))
    } else {
        None
    }
}

fn narrower_high(bounds: &Bounds, col: u32, high: i64) -> Option<Narrowing>
    requires { col < length bounds.now.lows }
    ensures value { result ≡ narrower_high_of bounds.now col high }
    ensures changes { IfSome result (λ bound. narrower_box bounds.now col bound ≢ bounds.now) }
{
    if high < bounds.highs()[col as usize] {
        Some(Narrowing::High(high))
    } else {
        None
    }
}
