ghost use Rattle.std.specs.Prelude.{◌≡◌, IfOk};
ghost use Rattle.std.specs.Option.{SomeIff};
ghost use Rattle.ip_core.specs.Seq.{Seq};
ghost use Rattle.ip_core.specs.Sides.{Sides};
ghost use Rattle.ip_core.specs.Truth.{IsFeasible};
ghost use Rattle.ip_core.specs.declared.row.Row.{Row as RowValue};
ghost use Rattle.safe_bound.specs.Bounds.{bound_point};
ghost use Rattle.round_dive.specs.Rounds.{feasible_point, rounded_point};

use crate::feasible::is_feasible_point;
use dual_ascent::Ascent;
use ip_core::{Model, OutOfMemory, Point};
use std::alloc::Global;

/// A copy of the ascent's point, and None exactly where that point isn't feasible.
///
/// # Errors
/// `OutOfMemory` where there is no memory for the copy.
pub fn round(alloc: Global, model: &Model, ascent: &Ascent) -> Result<Option<Point>, OutOfMemory>
    ensures exact { IfOk result (λ found.
        SomeIff found (IsFeasible model.now ascent.now.point) ascent.now.point) }
    ensures value { IfOk result (λ found. found ≡ feasible_point model.now ascent.now.point) }
    ensures ends { IfOk result (λ found. (cuts : Seq RowValue) (s : Sides) →
        ascent.now.point ≡ bound_point model.now cuts s ascent.now.mults →
        found ≡ rounded_point model.now cuts s ascent.now.mults) }
{
    if is_feasible_point(model, &ascent.point) {
        Ok(Some(ascent.point.copy(alloc)?))
    } else {
        Ok(None)
    }
}
