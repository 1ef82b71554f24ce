ghost use Rattle.std.specs.Prelude.{◌≡◌};
ghost use Rattle.ip_core.specs.Boxes.{IsWithin};
ghost use Rattle.safe_bound.specs.Premises.{AreCuts};
ghost use Rattle.leaf_truth.specs.Steps.{has_no_empty};
ghost use Rattle.leaf_truth.specs.Leaves.{closing_reason as closing_reason_of, is_bound_by as is_bound_by_of, is_conflict_at as is_conflict_at_of, is_empty_column as is_empty_column_of, reason_unless as reason_unless_of};
ghost use Rattle.leaf_truth.specs.Rooms.{HasRoom};

use crate::multipliers::{are_pairs, are_rising, write_multipliers};
use crate::rows::row_named;
use crate::{LeafReason, Scratch};
use ip_core::{Bounds, Closing, Model, Pair, Row, RowRef};
use row_propagate::conflict;
use safe_bound::bound;

/// Why a closing doesn't close a box at a cutoff, and None where it does. The caller knows whether the box has no empty
/// column. It takes no memory.
pub fn closing_reason(
    model: &Model,
    cuts: &[Row],
    bounds: &Bounds,
    no_empty: bool,
    cutoff: i64,
    closing: &Closing,
    scratch: &mut Scratch,
) -> Option<LeafReason>
    requires cuts { AreCuts model.now cuts.now }
    requires within { IsWithin model.now.root bounds.now }
    requires solid { no_empty ≡ has_no_empty bounds.now }
    requires room { HasRoom model.now cuts.now scratch.old }
    ensures reason { result ≡
        closing_reason_of model.now cuts.now cutoff bounds.now closing.now }
    ensures room { HasRoom model.now cuts.now scratch.new }
{
    match closing {
        Closing::Conflict(name) => {
            let closes = is_conflict_at(model, cuts, bounds, no_empty, *name);
            reason_unless(LeafReason::BadConflict, closes)
        }
        Closing::Empty(col) => {
            reason_unless(LeafReason::BadConflict, is_empty_column(bounds, *col))
        }
        Closing::Bound(pairs) => {
            let pairs = pairs.as_slice();
            let closes = is_bound_by(model, cuts, bounds, no_empty, cutoff, pairs, scratch);
            reason_unless(LeafReason::BadBound, closes)
        }
    }
}

/// The reason, unless a test passes.
fn reason_unless(reason: LeafReason, passes: bool) -> Option<LeafReason>
    ensures { result ≡ reason_unless_of reason passes }
{
    if passes { None } else { Some(reason) }
}

/// Whether a row of this name exists and conflicts on the box, which has no empty column.
fn is_conflict_at(
    model: &Model,
    cuts: &[Row],
    bounds: &Bounds,
    no_empty: bool,
    name: RowRef,
) -> bool
    requires cuts { AreCuts model.now cuts.now }
    requires within { IsWithin model.now.root bounds.now }
    requires solid { no_empty ≡ has_no_empty bounds.now }
    ensures { result ≡ is_conflict_at_of model.now.rows cuts.now bounds.now name }
{
    let _limits = model.parts();
    if !no_empty {
        return false;
    }
    let Some(row) = row_named(model, cuts, name) else {
        return false;
    };
    conflict(row, bounds)
}

/// Whether there is such a column, and it is empty.
fn is_empty_column(bounds: &Bounds, col: u32) -> bool
    ensures { result ≡ is_empty_column_of bounds.now col }
{
    if col as usize >= bounds.lows().len() {
        return false;
    }
    let (low, high) = bounds.get(col);
    high < low
}

/// Whether the pairs are of rising rows that exist, with multipliers of at most 2^40, the box has no empty column, and
/// their bound there is at least the cutoff.
fn is_bound_by(
    model: &Model,
    cuts: &[Row],
    bounds: &Bounds,
    no_empty: bool,
    cutoff: i64,
    pairs: &[Pair],
    scratch: &mut Scratch,
) -> bool
    requires cuts { AreCuts model.now cuts.now }
    requires within { IsWithin model.now.root bounds.now }
    requires solid { no_empty ≡ has_no_empty bounds.now }
    requires room { HasRoom model.now cuts.now scratch.old }
    ensures value { result ≡ is_bound_by_of model.now cuts.now cutoff bounds.now pairs.now }
    ensures room { HasRoom model.now cuts.now scratch.new }
{
    let _limits = model.parts();
    if !are_pairs(model.rows(), cuts, pairs) {
        return false;
    }
    if !are_rising(pairs) {
        return false;
    }
    if !no_empty {
        return false;
    }
    write_multipliers(model, cuts, pairs, &mut scratch.mults);
    let least = bound(
        model,
        cuts,
        bounds,
        &scratch.mults,
        &mut scratch.reduced_costs,
    );
    i128::from(cutoff) <= least
}
