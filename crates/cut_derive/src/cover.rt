ghost use Rattle.std.specs.Prelude.{◌≡◌, ◌<◌, ◌≤◌, ◌++◌, ◌^◌, ◌-ℤ◌, [], int_lt, pos, length, true, unsigned_abs, IfOk, None, Some};
ghost use Rattle.ip_core.specs.Rows.{IsRow, IsReady};
ghost use Rattle.safe_bound.specs.Premises.{AreCuts};
ghost use Rattle.cut_derive.specs.Chosen.{is_fit as is_fit_of, negatives_of, signs_of, unfit_column as unfit_column_of, weight_of};
ghost use Rattle.cut_derive.specs.Covers.{are_columns as are_columns_of, first_unfit, is_binary as is_binary_of, sign_of as sign_of_coefficient, slack as slack_of};
ghost use Rattle.cut_derive.specs.Derivations.{cover_unless, derived_cover};
ghost use Rattle.cut_derive.specs.Premises.{AreNarrowTerms};

use crate::Refusal;
use crate::chosen::chosen_terms;
use crate::numbers::are_columns;
use crate::rows::{has_row, known_row};
use ip_core::{Bounds, List, Model, OutOfMemory, Row, RowRef, Term, greatest_activity};
use std::alloc::Global;

/// The row of columns of a row, or the first reason that refuses it.
pub fn cover_row(
    alloc: Global,
    model: &Model,
    cuts: &[Row],
    name: RowRef,
    cols: &[u32],
) -> Result<Result<Row, Refusal>, OutOfMemory>
    requires { AreCuts model.now cuts.now }
    ensures { IfOk result (λ answer. answer
        ≡ derived_cover model.now cuts.now name cols.now) }
{
    if !has_row(model, cuts, name) {
        return Ok(Err(Refusal::UnknownRow));
    }
    if !are_columns(cols) {
        return Ok(Err(Refusal::BadNumbers));
    }
    let _limits = model.parts();
    covered_row(alloc, model.root(), known_row(model, cuts, name), cols)
}

/// The row of columns of this row, or the first reason that refuses it.
fn covered_row(
    alloc: Global,
    root: &Bounds,
    row: &Row,
    cols: &[u32],
) -> Result<Result<Row, Refusal>, OutOfMemory>
    requires row { IsRow (length root.now.lows) root.now row.now }
    requires columns { are_columns_of cols.now ≡ true }
    ensures { IfOk result (λ answer. answer ≡ cover_unless root.now row.now cols.now
        (first_unfit root.now row.now cols.now)) }
{
    let chosen = chosen_terms(alloc, row.terms.as_slice(), cols)?;
    if let Some(col) = unfit_column(root, chosen.as_slice()) {
        return Ok(Err(Refusal::NotBinary { col }));
    }
    if !is_more(weight(chosen.as_slice()), slack(root, row)) {
        return Ok(Err(Refusal::NotCover));
    }
    let terms = signs(alloc, chosen.as_slice())?;
    let least = least(chosen.as_slice());
    Ok(Ok(Row { terms, least }))
}

/// Whether the absolute coefficients together are more than the row leaves.
fn is_more(weight: u64, left: i64) -> bool
    ensures { result ≡ int_lt left (pos weight) }
{
    i128::from(left) < i128::from(weight)
}

/// What the cover of chosen columns asks for: 1 less the number of coefficients below 0.
fn least(chosen: &[Term]) -> i64
    requires { length chosen.now ≤ 256 }
    ensures { result ≡ pos 1 -ℤ pos (negatives_of chosen.now) }
{
    1 - negatives(chosen)
}

/// The first chosen column that isn't in the row or whose range isn't 0 to 1.
#[tactic(auto, using(crate::proofs::Choosing::unfit_first))]
fn unfit_column(root: &Bounds, chosen: &[Term]) -> Option<u32>
    ensures { result ≡ unfit_column_of root.now chosen.now }
{
    for term in chosen {
        if !is_fit(root, term) {
            return Some(term.col);
        }
    }
    None
}

/// Whether a chosen column is in the row and its range is 0 to 1.
fn is_fit(root: &Bounds, term: &Term) -> bool
    ensures { result ≡ is_fit_of root.now term.now }
{
    term.coef != 0 && is_binary(root, term.col)
}

/// Whether the range of a column is 0 to 1. A column that isn't in the box has none.
pub fn is_binary(root: &Bounds, col: u32) -> bool
    ensures { result ≡ is_binary_of root.now col }
{
    if root.lows().len() <= col as usize {
        return false;
    }
    root.get(col) == (0, 1)
}

/// The absolute coefficients of chosen columns together.
fn weight(chosen: &[Term]) -> u64
    requires few { length chosen.now ≤ 256 }
    requires narrow { AreNarrowTerms chosen.now }
    ensures { result ≡ weight_of chosen.now }
{
    let mut sum = 0;
    for term in chosen {
        sum += term.coef.unsigned_abs();
    }
    sum
}

/// What the row leaves: its greatest activity over the box less what it asks for.
pub fn slack(root: &Bounds, row: &Row) -> i64
    requires { IsReady root.now row.now }
    ensures { result ≡ slack_of root.now row.now }
{
    greatest_activity(row, root) - row.least
}

/// The chosen columns with the signs of their coefficients.
fn signs(alloc: Global, chosen: &[Term]) -> Result<List<Term>, OutOfMemory>
    ensures { IfOk result (λ terms. terms ≡ signs_of chosen.now) }
{
    let mut terms = List::new(alloc);
    for term in chosen {
        terms.push(Term {
            col: term.col,
            coef: sign_of(term.coef),
        })?;
    }
    Ok(terms)
}

/// 1 for a coefficient above 0, else -1.
fn sign_of(coef: i64) -> i64
    ensures { result ≡ sign_of_coefficient coef }
{
    if coef > 0 { 1 } else { -1 }
}

/// The number of coefficients below 0.
fn negatives(chosen: &[Term]) -> i64
    requires { length chosen.now ≤ 256 }
    ensures value { result ≡ pos (negatives_of chosen.now) }
    ensures small { unsigned_abs result ≤ 256 }
{
    let mut count = 0;
    for term in chosen {
        if term.coef < 0 {
            count += 1;
        }
    }
    count
}
