ghost use Rattle.std.specs.Prelude.{◌≡◌, ◌<◌, ◌∷◌, [], length, OnOk, IfOk};
ghost use Rattle.ip_core.specs.Rows.{IsRow};
ghost use Rattle.row_propagate.specs.Replay.{row_named};
ghost use Rattle.ip_core.specs.declared.derivation.Derivation.TheVariants.{Gomory};
ghost use Rattle.cut_derive.specs.Premises.{AreNear};
ghost use Rattle.safe_bound.specs.Premises.{AreCuts};
ghost use Rattle.cut_separate.specs.Candidates.{single_part as single_part_of, by_rows, own_candidates, rows_of};
ghost use Rattle.cut_separate.specs.Separation.{kept_after, with_candidate};

use crate::NewCut;
use crate::divisors::divisors_of;
use crate::keep::{has_room, keep};
use crate::source::RowSource;
use crate::violation::violates_rounded;
use ip_core::{Derivation, List, Model, OutOfMemory, Pair, Row, RowRef};
use std::alloc::Global;

/// Keeps the rows of the model, or the cuts, each alone and divided by its own coefficients.
#[tactic(auto, using(crate::proofs::Trying::full_rest, crate::proofs::Trying::rows_more))]
pub fn keep_all_own(
    alloc: Global,
    model: &Model,
    cuts: &[Row],
    point: &[i64],
    kept: &mut List<NewCut>,
    source: RowSource,
) -> Result<(), OutOfMemory>
    requires cuts { AreCuts model.now cuts.now }
    requires one_each { length point.now ≡ length model.now.cols }
    requires near { AreNear model.now.root point.now }
    ensures { OnOk result (kept.new ≡ kept_after model.now cuts.now point.now kept.old
        (by_rows own_candidates source 0 (rows_of source model.now cuts.now))) }
{
    let rows = source.rows(model, cuts);
    for place in 0..rows.len() {
        if !has_room(cuts, kept.as_slice()) {
            return Ok(());
        }
        let name = source.name(place as u32);
        keep_own(alloc, model, cuts, point, kept, name, &rows[place])?;
    }
    Ok(())
}

/// Keeps a row alone, divided by its own coefficients.
#[tactic(auto, using(crate::proofs::Trying::own_more))]
fn keep_own(
    alloc: Global,
    model: &Model,
    cuts: &[Row],
    point: &[i64],
    kept: &mut List<NewCut>,
    name: RowRef,
    row: &Row,
) -> Result<(), OutOfMemory>
    requires cuts { AreCuts model.now cuts.now }
    requires one_each { length point.now ≡ length model.now.cols }
    requires near { AreNear model.now.root point.now }
    requires row { IsRow (length model.now.cols) model.now.root row.now }
    requires named { row_named model.now.rows cuts.now name ≡ row.now }
    ensures { OnOk result (kept.new
        ≡ kept_after model.now cuts.now point.now kept.old (own_candidates name row.now)) }
{
    let divisors = divisors_of(alloc, row)?;
    for divisor in divisors.as_slice() {
        keep_alone(alloc, model, cuts, point, kept, name, row, *divisor)?;
    }
    Ok(())
}

/// Keeps a row alone, divided by a divisor. Whether the point meets it is seen before it is derived.
fn keep_alone(
    alloc: Global,
    model: &Model,
    cuts: &[Row],
    point: &[i64],
    kept: &mut List<NewCut>,
    name: RowRef,
    row: &Row,
    divisor: u64,
) -> Result<(), OutOfMemory>
    requires cuts { AreCuts model.now cuts.now }
    requires one_each { length point.now ≡ length model.now.cols }
    requires near { AreNear model.now.root point.now }
    requires row { IsRow (length model.now.cols) model.now.root row.now }
    requires named { row_named model.now.rows cuts.now name ≡ row.now }
    requires above { 0 < divisor }
    ensures { OnOk result (kept.new ≡ with_candidate model.now cuts.now point.now kept.old
        (Gomory (single_part_of name) divisor)) }
{
    let _limits = model.parts();
    if !violates_rounded(model.root(), row, divisor, point) {
        return Ok(());
    }
    let parts = single_part(alloc, name)?;
    let derivation = Derivation::Gomory { parts, divisor };
    keep(alloc, model, cuts, point, kept, derivation)
}

/// The row alone, with weight 1.
fn single_part(alloc: Global, row: RowRef) -> Result<List<Pair>, OutOfMemory>
    ensures { IfOk result (λ parts. parts ≡ single_part_of row) }
{
    let mut parts = List::new(alloc);
    parts.push(Pair { row, weight: 1 })?;
    Ok(parts)
}
