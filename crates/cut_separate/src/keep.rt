ghost use Rattle.std.specs.Prelude.{◌≡◌, ◌≤◌, ◌<◌, ◌++◌, ◌^◌, length, OnOk};
ghost use Rattle.ip_core.specs.Rows.{IsRow};
ghost use Rattle.safe_bound.specs.Premises.{AreCuts};
ghost use Rattle.cut_derive.specs.Premises.{AreNear};
ghost use Rattle.cut_separate.specs.Separation.{are_same_terms as are_same_terms_of, has_room as has_room_of, is_among_cuts as is_among_cuts_of, is_among_rows as is_among_rows_of, is_new as is_new_of, is_same_row as is_same_row_of, is_violated as is_violated_of, with_candidate};

use crate::NewCut;
use crate::activity::activity;
use crate::limits::MAX_NEW_CUTS;
use cut_derive::{MAX_CUTS, derived_row};
use ip_core::{Derivation, List, Model, OutOfMemory, Row, Term};
use std::alloc::Global;

/// Keeps the row of a derivation, where it gives one, the point doesn't meet it, it is new, and one more may be kept.
#[tactic(auto, using(crate::proofs::Keeping::full_same))]
pub fn keep(
    alloc: Global,
    model: &Model,
    cuts: &[Row],
    point: &[i64],
    kept: &mut List<NewCut>,
    derivation: Derivation,
) -> Result<(), OutOfMemory>
    requires cuts { AreCuts model.now cuts.now }
    requires one_each { length point.now ≡ length model.now.cols }
    requires near { AreNear model.now.root point.now }
    ensures { OnOk result (kept.new
        ≡ with_candidate model.now cuts.now point.now kept.old derivation) }
{
    let _limits = model.parts();
    if !has_room(cuts, kept.as_slice()) {
        return Ok(());
    }
    match derived_row(alloc, model, cuts, &derivation)? {
        Ok(row) => {
            if is_violated(model, &row, point) && is_new(model, cuts, kept.as_slice(), &row) {
                kept.push(NewCut { derivation, row })?;
            }
            Ok(())
        }
        Err(_refusal) => Ok(()),
    }
}

/// Whether one more may be kept: there are fewer than 16 kept rows, and fewer than 512 cuts with them.
pub fn has_room(cuts: &[Row], kept: &[NewCut]) -> bool
    requires { length cuts.now ≤ 2 ^ 30 }
    ensures { result ≡ has_room_of cuts.now kept.now }
{
    if MAX_NEW_CUTS <= kept.len() {
        return false;
    }
    cuts.len() + kept.len() < MAX_CUTS
}

/// Whether the point doesn't meet the row.
fn is_violated(model: &Model, row: &Row, point: &[i64]) -> bool
    requires row { IsRow (length model.now.cols) model.now.root row.now }
    requires one_each { length point.now ≡ length model.now.cols }
    requires near { AreNear model.now.root point.now }
    ensures { result ≡ is_violated_of point.now row.now }
{
    let _limits = model.parts();
    activity(row, model.root(), point) < row.least
}

/// Whether the row differs from each row of the model, each cut and each row kept before.
fn is_new(model: &Model, cuts: &[Row], kept: &[NewCut], row: &Row) -> bool
    ensures { result ≡ is_new_of model.now cuts.now kept.now row.now }
{
    if is_among_rows(model.rows(), row) {
        return false;
    }
    if is_among_rows(cuts, row) {
        return false;
    }
    !is_among_cuts(kept, row)
}

/// Whether the row is among rows.
#[tactic(auto, using(crate::proofs::Keeping::rows_first))]
fn is_among_rows(rows: &[Row], row: &Row) -> bool
    ensures { result ≡ is_among_rows_of rows.now row.now }
{
    for other in rows {
        if is_same_row(other, row) {
            return true;
        }
    }
    false
}

/// Whether the row is among those of new cuts.
#[tactic(auto, using(crate::proofs::Keeping::cuts_first))]
fn is_among_cuts(kept: &[NewCut], row: &Row) -> bool
    ensures { result ≡ is_among_cuts_of kept.now row.now }
{
    for cut in kept {
        if is_same_row(&cut.row, row) {
            return true;
        }
    }
    false
}

/// Whether rows are the same as they stand.
fn is_same_row(a: &Row, b: &Row) -> bool
    ensures { result ≡ is_same_row_of a.now b.now }
{
    a.least == b.least && are_same_terms(a.terms.as_slice(), b.terms.as_slice())
}

/// Whether terms are the same, one by one.
#[tactic(auto, using(crate::proofs::Keeping::terms_first, crate::proofs::Keeping::lengths_differ))]
fn are_same_terms(a: &[Term], b: &[Term]) -> bool
    ensures { result ≡ are_same_terms_of a.now b.now }
{
    if a.len() != b.len() {
        return false;
    }
    for i in 0..a.len() {
        if a[i].col != b[i].col || a[i].coef != b[i].coef {
            return false;
        }
    }
    true
}
