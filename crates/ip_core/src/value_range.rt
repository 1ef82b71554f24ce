ghost use Rattle.std.specs.Prelude.{◌≡◌, ◌≤◌, ◌<◌, length, unsigned_abs};
ghost use Rattle.ip_core.specs.Numbers.{int_at};
ghost use Rattle.ip_core.specs.Boxes.{IsWithinReach, greatest_value, least_value};

use crate::limits::MAX_WIDTH;
use crate::terms::{greatest_part, least_part};
use crate::{Bounds, Model, Term};

/// The least value of the costs over the box, rows aside. It takes no memory.
pub fn least_value(model: &Model, bounds: &Bounds) -> i64
    requires { IsWithinReach model.now.root bounds.now }
    ensures value { result ≡ least_value model.now bounds.now }
    ensures small { unsigned_abs result ≤ MAX_WIDTH }
{
    let parts = model.parts();
    let costs = parts.costs.as_slice();
    let mut sum = 0;
    for j in 0..costs.len() {
        let term = cost_term(costs, j as u32);
        sum += least_part(&term, bounds);
    }
    sum
}

/// The greatest value of the costs over the box, rows aside. It takes no memory.
pub fn greatest_value(model: &Model, bounds: &Bounds) -> i64
    requires { IsWithinReach model.now.root bounds.now }
    ensures value { result ≡ greatest_value model.now bounds.now }
    ensures small { unsigned_abs result ≤ MAX_WIDTH }
{
    let parts = model.parts();
    let costs = parts.costs.as_slice();
    let mut sum = 0;
    for j in 0..costs.len() {
        let term = cost_term(costs, j as u32);
        sum += greatest_part(&term, bounds);
    }
    sum
}

/// A column with its cost.
fn cost_term(costs: &[i64], col: u32) -> Term
    requires { col < length costs.now }
    ensures { result ≡ record { col = col; coef = int_at costs.now col } }
{
    Term {
        col,
        coef: costs[col as usize],
    }
}
