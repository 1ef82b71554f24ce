ghost use Rattle.std.specs.Prelude.{◌≡◌, ◌<◌, ◌∷◌, [], length, map, OnOk};
ghost use Rattle.ip_core.specs.declared.derivation.Derivation.TheVariants.{Gomory};
ghost use Rattle.safe_bound.specs.Premises.{AreCuts, AreMultipliers};
ghost use Rattle.cut_separate.specs.Candidates.{combined_candidates, scales};
ghost use Rattle.cut_derive.specs.Gomory.{combined_least as combined_least_of};
ghost use Rattle.cut_derive.specs.Premises.{AreNear, AreSums, IsNarrowSum};
ghost use Rattle.cut_separate.specs.Separation.{kept_after, with_candidate};

use crate::NewCut;
use crate::keep::keep;
use crate::violation::violates_sums;
use cut_derive::{combined_coefficients, combined_least, is_count};
use ip_core::{Derivation, List, Model, OutOfMemory, Pair, Row};
use leaf_truth::pairs_of;
use std::alloc::Global;

/// Keeps the rows of multipliers above 0, weighted by these and divided by 2^10 to 2^14.
#[tactic(auto, using(crate::proofs::Trying::combined_some, crate::proofs::Trying::combined_none))]
pub fn keep_combined(
    alloc: Global,
    model: &Model,
    cuts: &[Row],
    point: &[i64],
    kept: &mut List<NewCut>,
    mults: &[u64],
) -> Result<(), OutOfMemory>
    requires cuts { AreCuts model.now cuts.now }
    requires one_each { length point.now ≡ length model.now.cols }
    requires near { AreNear model.now.root point.now }
    requires multipliers { AreMultipliers model.now cuts.now mults.now }
    ensures { OnOk result (kept.new ≡ kept_after model.now cuts.now point.now kept.old
        (combined_candidates model.now mults.now)) }
{
    let _limits = model.parts();
    let parts = pairs_of(alloc, model.rows().len(), mults)?;
    if !is_count(parts.len()) {
        return Ok(());
    }
    let pairs = parts.as_slice();
    let coefs = combined_coefficients(alloc, model, cuts, pairs)?;
    let least = combined_least(model, cuts, pairs);
    keep_scales(alloc, model, cuts, point, kept, pairs, &coefs, least)?;
    Ok(())
}

/// Keeps the weighted sum of rows, divided by 2^10 to 2^14.
fn keep_scales(
    alloc: Global,
    model: &Model,
    cuts: &[Row],
    point: &[i64],
    kept: &mut List<NewCut>,
    pairs: &[Pair],
    coefs: &[i128],
    least: i128,
) -> Result<(), OutOfMemory>
    requires cuts { AreCuts model.now cuts.now }
    requires one_each { length point.now ≡ length model.now.cols }
    requires near { AreNear model.now.root point.now }
    requires sums { AreSums model.now cuts.now pairs.now coefs.now }
    requires least { least ≡ combined_least_of model.now.rows cuts.now pairs.now }
    requires narrow { IsNarrowSum model.now.root coefs.now least }
    ensures { OnOk result (kept.new ≡ kept_after model.now cuts.now point.now kept.old
        (map (λ divisor. Gomory pairs.now divisor) scales)) }
{
    keep_scaled(alloc, model, cuts, point, kept, pairs, coefs, least, 1_024)?;
    keep_scaled(alloc, model, cuts, point, kept, pairs, coefs, least, 2_048)?;
    keep_scaled(alloc, model, cuts, point, kept, pairs, coefs, least, 4_096)?;
    keep_scaled(alloc, model, cuts, point, kept, pairs, coefs, least, 8_192)?;
    keep_scaled(alloc, model, cuts, point, kept, pairs, coefs, least, 16_384)?;
    Ok(())
}

/// Keeps the weighted sum of rows, divided by a divisor. Whether the point meets it is seen before it is derived, from
/// the sums by columns.
fn keep_scaled(
    alloc: Global,
    model: &Model,
    cuts: &[Row],
    point: &[i64],
    kept: &mut List<NewCut>,
    pairs: &[Pair],
    coefs: &[i128],
    least: i128,
    divisor: u64,
) -> Result<(), OutOfMemory>
    requires cuts { AreCuts model.now cuts.now }
    requires one_each { length point.now ≡ length model.now.cols }
    requires near { AreNear model.now.root point.now }
    requires sums { AreSums model.now cuts.now pairs.now coefs.now }
    requires least { least ≡ combined_least_of model.now.rows cuts.now pairs.now }
    requires narrow { IsNarrowSum model.now.root coefs.now least }
    requires above { 0 < divisor }
    ensures { OnOk result (kept.new
        ≡ with_candidate model.now cuts.now point.now kept.old (Gomory pairs.now divisor)) }
{
    let _limits = model.parts();
    if !violates_sums(model.root(), coefs, least, divisor, point) {
        return Ok(());
    }
    let parts = List::of(Vec::from_slice(alloc, pairs)?);
    let derivation = Derivation::Gomory { parts, divisor };
    keep(alloc, model, cuts, point, kept, derivation)
}
