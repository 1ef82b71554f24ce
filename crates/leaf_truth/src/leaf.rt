ghost use Rattle.std.specs.Prelude.{◌≡◌};
ghost use Rattle.ip_core.specs.Boxes.{IsWithin};
ghost use Rattle.safe_bound.specs.Premises.{AreCuts};
ghost use Rattle.leaf_truth.specs.Steps.{box_after};
ghost use Rattle.leaf_truth.specs.Leaves.{leaf_reason as leaf_reason_of};
ghost use Rattle.leaf_truth.specs.Rooms.{HasRoom};

use crate::closing::closing_reason;
use crate::steps::make_steps;
use crate::{LeafReason, Scratch};
use ip_core::{Bounds, Leaf, Model, Row};

/// Why a leaf doesn't hold on a box at a cutoff, and None where it holds. Where it holds and each feasible point of the
/// model meets the cuts, no feasible point of the box has a value below the cutoff. The steps are made on the box that is
/// handed in, one after the other, up to the first that can't be made; the box is left after these. It takes no memory.
pub fn leaf_reason(
    model: &Model,
    cuts: &[Row],
    bounds: &mut Bounds,
    cutoff: i64,
    leaf: &Leaf,
    scratch: &mut Scratch,
) -> Option<LeafReason>
    requires cuts { AreCuts model.now cuts.now }
    requires within { IsWithin model.now.root bounds.old }
    requires room { HasRoom model.now cuts.now scratch.old }
    ensures reason { result ≡ leaf_reason_of model.now cuts.now cutoff bounds.old leaf.now }
    ensures sides { bounds.new ≡ box_after model.now.rows cuts.now bounds.old leaf.now.steps }
    ensures within { IsWithin model.now.root bounds.new }
    ensures room { HasRoom model.now cuts.now scratch.new }
{
    let Some(no_empty) = make_steps(model, cuts, bounds, leaf.steps.as_slice()) else {
        return Some(LeafReason::BadStep);
    };
    closing_reason(
        model,
        cuts,
        bounds,
        no_empty,
        cutoff,
        &leaf.closing,
        scratch,
    )
}
