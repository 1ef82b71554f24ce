ghost use Rattle.std.specs.Prelude.{◌≡◌, ◌↔◌, IsTrue};
ghost use Rattle.ip_core.specs.Truth.{IsFeasible};
ghost use Rattle.round_dive.specs.Feasible.{is_feasible_at};

use ip_core::{Model, Point, is_feasible};

/// Whether a point is feasible.
pub fn is_feasible_point(model: &Model, point: &Point) -> bool
    ensures value { result ≡ is_feasible_at model.now point.now }
    ensures exact { IsTrue result ↔ IsFeasible model.now point.now }
{
    is_feasible(model, point)
}
