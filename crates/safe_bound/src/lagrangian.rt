ghost use Rattle.std.specs.Prelude.{ℕ, ◌≡◌, ◌<◌, ◌≤◌, ◌^◌, pos, length, unsigned_abs};
ghost use Rattle.ip_core.specs.Numbers.{int_at};
ghost use Rattle.ip_core.specs.Quotients.{ceiling_quotient};
ghost use Rattle.safe_bound.specs.Bounds.{bound_point, lagrangian_bound, numerator, reduced_cost};
ghost use Rattle.safe_bound.specs.Premises.{AreCuts, AreMultipliers};
ghost use Rattle.ip_core.specs.Boxes.{IsWithinReach};

use crate::costs::{cheapest_end, least, reduce, shares};
use crate::limits::SCALE;
use ip_core::{Bounds, Model, Point, Row};

/// The numerator of the bound, which is 1,024 times as large. Rows stand before cuts, with one multiplier for each.
/// It takes no memory. It leaves the reduced cost of each column in `scratch`, which has a place for each.
pub fn numerator(
    model: &Model,
    cuts: &[Row],
    bounds: &Bounds,
    mults: &[u64],
    scratch: &mut [i128],
) -> i128
    requires cuts { AreCuts model.now cuts.now }
    requires within { IsWithinReach model.now.root bounds.now }
    requires multipliers { AreMultipliers model.now cuts.now mults.now }
    requires room { length model.now.cols ≤ length scratch.old }
    ensures value { result ≡ numerator model.now cuts.now bounds.now mults.now }
    ensures small { unsigned_abs result ≤ 2 ^ 123 }
    ensures reduced { (j : ℕ) → j < length model.now.cols →
        int_at scratch.new j ≡ reduced_cost model.now cuts.now mults.now j }
    ensures long { length scratch.new ≡ length scratch.old }
{
    let _limits = model.parts();
    reduce(model, cuts, mults, scratch);
    least(model, cuts, mults) + shares(scratch, bounds)
}

/// A lower bound on the value of the box's points that meet all rows and cuts: the numerator divided by 1,024,
/// rounded up. It takes no memory. What it leaves in `scratch` has no meaning.
pub fn bound(
    model: &Model,
    cuts: &[Row],
    bounds: &Bounds,
    mults: &[u64],
    scratch: &mut [i128],
) -> i128
    requires cuts { AreCuts model.now cuts.now }
    requires within { IsWithinReach model.now.root bounds.now }
    requires multipliers { AreMultipliers model.now cuts.now mults.now }
    requires room { length model.now.cols ≤ length scratch.old }
    ensures { result ≡ lagrangian_bound model.now cuts.now bounds.now mults.now }
{
    round_up(numerator(model, cuts, bounds, mults, scratch))
}

/// A number divided by 1,024, rounded up.
fn round_up(number: i128) -> i128
    requires { unsigned_abs number ≤ 2 ^ 123 }
    ensures { result ≡ ceiling_quotient number (pos 1024) }
{
    -(-number).div_euclid(SCALE)
}

/// Writes the point at which each column stands at its low where its reduced cost is 0 or more, else at its high.
/// It takes no memory. What it leaves in `scratch` has no meaning.
pub fn least_point(
    model: &Model,
    cuts: &[Row],
    bounds: &Bounds,
    mults: &[u64],
    scratch: &mut [i128],
    out: &mut Point,
)
    requires cuts { AreCuts model.now cuts.now }
    requires within { IsWithinReach model.now.root bounds.now }
    requires multipliers { AreMultipliers model.now cuts.now mults.now }
    requires room { length model.now.cols ≤ length scratch.old }
    requires point { length out.old ≡ length model.now.cols }
    ensures { out.new ≡ bound_point model.now cuts.now bounds.now mults.now }
{
    reduce(model, cuts, mults, scratch);
    let columns = model.parts().cols.len();
    for j in 0..columns {
        out.set(j as u32, cheapest_end(scratch, bounds, j));
    }
}
