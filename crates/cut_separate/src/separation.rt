ghost use Rattle.std.specs.Prelude.{◌≡◌, length, IfOk};
ghost use Rattle.safe_bound.specs.Premises.{AreCuts, AreMultipliers};
ghost use Rattle.cut_derive.specs.Premises.{AreNear};
ghost use Rattle.cut_separate.specs.Separation.{separated_cuts};

use crate::NewCut;
use crate::combined_cuts::keep_combined;
use crate::cover_cuts::keep_all_covers;
use crate::own_cuts::keep_all_own;
use crate::source::RowSource;
use ip_core::{List, Model, OutOfMemory, Point, Row};
use std::alloc::Global;

/// New cuts that a point doesn't meet, at most 16 of them, from rows of the model and the cuts and one multiplier for
/// each of these. No value of the point is further from 0 than the root box reaches there. The only error is want of
/// memory.
///
/// Tried are, in this order, each row divided by its own coefficients, the rows of multipliers above 0 weighted by
/// these, and the cover of each row by columns that stand at their bad end in the point. Kept are rows that the point
/// doesn't meet and that differ from each row of the model, each cut and each row kept before, while there are fewer
/// than 512 cuts with those kept.
#[tactic(auto, using(crate::proofs::Trying::separated_parts))]
pub fn separate(
    alloc: Global,
    model: &Model,
    cuts: &[Row],
    point: &Point,
    mults: &[u64],
) -> Result<List<NewCut>, OutOfMemory>
    requires cuts { AreCuts model.now cuts.now }
    requires one_each { length point.now ≡ length model.now.cols }
    requires near { AreNear model.now.root point.now }
    requires multipliers { AreMultipliers model.now cuts.now mults.now }
    ensures { IfOk result (λ new. new ≡ separated_cuts model.now cuts.now point.now mults.now) }
{
    let values = point.values();
    let mut kept = List::new(alloc);
    keep_all_own(alloc, model, cuts, values, &mut kept, RowSource::ModelRows)?;
    keep_all_own(alloc, model, cuts, values, &mut kept, RowSource::CutRows)?;
    keep_combined(alloc, model, cuts, values, &mut kept, mults)?;
    keep_all_covers(alloc, model, cuts, values, &mut kept, RowSource::ModelRows)?;
    keep_all_covers(alloc, model, cuts, values, &mut kept, RowSource::CutRows)?;
    Ok(kept)
}
