ghost use Rattle.std.specs.Prelude.{◌≡◌, ◌↔◌, ◌<◌, length, IsTrue, None};
ghost use Rattle.ip_core.specs.Boxes.{IsConflict, IsWithin};
ghost use Rattle.row_propagate.specs.Points.{HasNoRowPoint, HasRowPoints};
ghost use Rattle.ip_core.specs.Rows.{IsReady};
ghost use Rattle.row_propagate.specs.Rounding.{tight_box, tightening};

use crate::narrowing::narrower_bound;
use ip_core::{Bounds, Row, RowRef, Tighten, greatest_activity};

/// Whether the row's greatest activity over the box is below its `least`, so that no point of the box meets it.
/// It takes no memory.
pub fn conflict(row: &Row, bounds: &Bounds) -> bool
    requires { IsReady bounds.now row.now }
    ensures value { IsTrue result ↔ IsConflict bounds.now row.now }
    ensures none { IsTrue result → HasNoRowPoint row.now bounds.now }
{
    greatest_activity(row, bounds) < row.least
}

/// Applies the bound that the row gives for one of its columns, rounded to whole numbers. None comes exactly where this
/// changes nothing. It takes no memory.
pub fn tighten(row: &Row, name: RowRef, bounds: &mut Bounds, col: u32) -> Option<Tighten>
    requires ready { IsReady bounds.old row.now }
    requires known { col < length bounds.old.lows }
    ensures sides { bounds.new ≡ tight_box row.now bounds.old col }
    ensures answer { result ≡ tightening name row.now bounds.old col }
    ensures unchanged { (result ≡ None) ↔ (bounds.new ≡ bounds.old) }
    ensures within { IsWithin bounds.old bounds.new }
    ensures keeps { HasRowPoints row.now bounds.old bounds.new }
{
    let bound = narrower_bound(row, bounds, col)?;
    bound.apply(bounds, col);
    Some(bound.tightening(name, col))
}
