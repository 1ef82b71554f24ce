ghost use Rattle.std.specs.Prelude.{◌≡◌, ◌≤◌, ◌+◌, ◌++◌, ◌∷◌, ◌^◌, [], true, length, map, unsigned_abs, IfOk};
ghost use Rattle.ip_core.specs.Sides.{HasLimits};
ghost use Rattle.ip_core.specs.Models.{objective_width as objective_width_of};
ghost use Rattle.width_admit.specs.Exact.{units, are_whole};
ghost use Rattle.width_admit.specs.Admission.{exact_costs, objective_exponent as objective_exponent_of, minimised_number};
ghost use Rattle.width_admit.specs.Held.{IsFinest, held_whole, costs_width as costs_width_of};

use crate::rows::{reach, under_sign};
use crate::scale::{decimals, scaled_value};
use ip_core::{Bounds, List, OutOfMemory};
use mps_model::{MpsCol, MpsModel};
use std::alloc::Global;

/// How many decimals costs have.
fn cost_decimals(cols: &[MpsCol]) -> u8
    ensures { IsFinest (exact_costs cols.now) result }
{
    let mut most: u8 = 0;
    for col in cols {
        most = most.max(decimals(col.cost));
    }
    most
}

/// The least exponent of a power of ten that makes costs and constant whole.
pub fn objective_exponent(mps: &MpsModel) -> u8
    ensures value { result ≡ objective_exponent_of mps.now }
    ensures small { result ≤ 18 }
    ensures costs { are_whole (exact_costs mps.now.cols) result ≡ true }
    ensures constant { are_whole (units mps.now.constant ∷ []) result ≡ true }
{
    cost_decimals(mps.cols.as_slice()).max(decimals(mps.constant))
}

/// The absolute costs under a power of ten, held down, times the reach of their columns, added up.
fn costs_width(cols: &[MpsCol], exponent: u8, root: &Bounds) -> u128
    requires small { exponent ≤ 18 }
    requires whole { are_whole (exact_costs cols.now) exponent ≡ true }
    requires paired { length root.now.lows ≡ length cols.now }
    requires limits { HasLimits root.now }
    requires short { length cols.now ≤ 2 ^ 30 }
    ensures value { result ≡ costs_width_of root.now exponent cols.now }
    ensures small { result ≤ 2 ^ 113 }
{
    let mut width: u128 = 0;
    for at in 0..cols.len() {
        let size = scaled_value(cols[at].cost, exponent).unsigned_abs();
        width += u128::from(size) * u128::from(reach(root, at as u32));
    }
    width
}

/// A bound on the constant under a power of ten and on the value of each point of the box, held down.
pub fn objective_width(mps: &MpsModel, exponent: u8, root: &Bounds) -> u128
    requires small { exponent ≤ 18 }
    requires costs { are_whole (exact_costs mps.now.cols) exponent ≡ true }
    requires constant { are_whole (units mps.now.constant ∷ []) exponent ≡ true }
    requires paired { length root.now.lows ≡ length mps.now.cols }
    requires limits { HasLimits root.now }
    requires short { length mps.now.cols ≤ 2 ^ 30 }
    ensures { let size = unsigned_abs (held_whole exponent mps.now.constant) in
        result ≡ size + costs_width_of root.now exponent mps.now.cols }
{
    let size = scaled_value(mps.constant, exponent).unsigned_abs();
    u128::from(size) + costs_width(mps.cols.as_slice(), exponent, root)
}

/// The costs in whole numbers under a power of ten, held down, as they are minimised.
pub fn costs_of(
    alloc: Global,
    cols: &[MpsCol],
    maximise: bool,
    exponent: u8,
) -> Result<List<i64>, OutOfMemory>
    requires small { exponent ≤ 18 }
    requires whole { are_whole (exact_costs cols.now) exponent ≡ true }
    ensures { IfOk result (λ costs.
        costs ≡ map (λ c. minimised_number maximise (held_whole exponent c.cost)) cols.now) }
{
    let mut costs = List::new(alloc);
    for col in cols {
        costs.push(under_sign(maximise, scaled_value(col.cost, exponent)))?;
    }
    Ok(costs)
}

/// The constant in whole numbers under a power of ten, held down, as it is minimised.
pub fn constant_of(mps: &MpsModel, exponent: u8) -> i64
    requires small { exponent ≤ 18 }
    requires whole { are_whole (units mps.now.constant ∷ []) exponent ≡ true }
    ensures { result ≡ minimised_number mps.now.maximise (held_whole exponent mps.now.constant) }
{
    under_sign(mps.maximise, scaled_value(mps.constant, exponent))
}
