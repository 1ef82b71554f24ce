ghost use Rattle.std.specs.Prelude.{◌≡◌, ◌≤◌, ◌<◌, ◌+◌, ◌++◌, ◌∷◌, ◌^◌, if◌then◌else◌, [], pos, length, map, true, IfOk, OnOk};
ghost use Rattle.std.specs.List.{filter};
ghost use Rattle.ip_core.specs.Rows.{IsRow};
ghost use Rattle.cut_derive.specs.Premises.{AreNear};
ghost use Rattle.safe_bound.specs.Premises.{AreCuts};
ghost use Rattle.cut_separate.specs.Candidates.{by_rows, cover_candidates, cover_of, is_bad as is_bad_of, rows_of, taken_terms};
ghost use Rattle.cut_derive.specs.Chosen.{weight_of};
ghost use Rattle.cut_derive.specs.Covers.{rise_from};
ghost use Rattle.cut_separate.specs.Separation.{kept_after};
ghost use Rattle.cut_separate.specs.Thresholds.{is_taken_at, size_at as size_at_of, size_from as size_from_of, weight_from as weight_from_of};

use crate::NewCut;
use crate::keep::{has_room, keep};
use crate::source::RowSource;
use cut_derive::{is_binary, slack};
use ip_core::{Bounds, Derivation, List, Model, OutOfMemory, Row, RowRef, Term};
use std::alloc::Global;

/// Keeps covers of the rows of the model, or of the cuts.
pub fn keep_all_covers(
    alloc: Global,
    model: &Model,
    cuts: &[Row],
    point: &[i64],
    kept: &mut List<NewCut>,
    source: RowSource,
) -> Result<(), OutOfMemory>
    requires cuts { AreCuts model.now cuts.now }
    requires one_each { length point.now ≡ length model.now.cols }
    requires near { AreNear model.now.root point.now }
    ensures { OnOk result (kept.new ≡ kept_after model.now cuts.now point.now kept.old
        (by_rows (cover_candidates model.now.root point.now) source 0
        (rows_of source model.now cuts.now))) }
{
    let rows = source.rows(model, cuts);
    for place in 0..rows.len() {
        if !has_room(cuts, kept.as_slice()) {
            return Ok(());
        }
        let name = source.name(place as u32);
        keep_cover(alloc, model, cuts, point, kept, name, &rows[place])?;
    }
    Ok(())
}

/// Keeps the cover of a row by columns that stand at their bad end in the point.
fn keep_cover(
    alloc: Global,
    model: &Model,
    cuts: &[Row],
    point: &[i64],
    kept: &mut List<NewCut>,
    name: RowRef,
    row: &Row,
) -> Result<(), OutOfMemory>
    requires cuts { AreCuts model.now cuts.now }
    requires one_each { length point.now ≡ length model.now.cols }
    requires near { AreNear model.now.root point.now }
    requires row { IsRow (length model.now.cols) model.now.root row.now }
    ensures { OnOk result (kept.new ≡ kept_after model.now cuts.now point.now kept.old
        (cover_candidates model.now.root point.now name row.now)) }
{
    let _limits = model.parts();
    let root = model.root();
    let left = slack(root, row);
    let bad = bad_terms(alloc, root, point, row)?;
    keep_taken(alloc, model, cuts, point, kept, name, left, bad.as_slice())?;
    Ok(())
}

/// Keeps the cover of a row by terms at their bad end, where they are more than the row leaves.
fn keep_taken(
    alloc: Global,
    model: &Model,
    cuts: &[Row],
    point: &[i64],
    kept: &mut List<NewCut>,
    name: RowRef,
    left: i64,
    bad: &[Term],
) -> Result<(), OutOfMemory>
    requires cuts { AreCuts model.now cuts.now }
    requires one_each { length point.now ≡ length model.now.cols }
    requires near { AreNear model.now.root point.now }
    requires rising { rise_from 0 (map (λ t. t.col) bad.now) ≡ true }
    requires narrow { weight_of bad.now ≤ 2 ^ 50 }
    ensures { OnOk result (kept.new ≡ kept_after model.now cuts.now point.now kept.old
        (cover_of left name bad.now)) }
{
    if left < 0 {
        return Ok(());
    }
    let most = left.unsigned_abs();
    if weight_from(bad, 0) <= most {
        return Ok(());
    }
    let cols = taken_columns(alloc, bad, most)?;
    let derivation = Derivation::Cover { row: name, cols };
    keep(alloc, model, cuts, point, kept, derivation)?;
    Ok(())
}

/// The terms of a row whose columns have the range 0 to 1 and stand at their bad end in the point.
fn bad_terms(
    alloc: Global,
    root: &Bounds,
    point: &[i64],
    row: &Row,
) -> Result<List<Term>, OutOfMemory>
    requires one_each { length point.now ≡ length root.now.lows }
    requires row { IsRow (length root.now.lows) root.now row.now }
    ensures { IfOk result (λ bad. bad ≡ filter (is_bad_of root.now point.now) row.now.terms) }
{
    let mut bad = List::new(alloc);
    for term in row.terms.as_slice() {
        if is_bad(root, point, term) {
            bad.push(*term)?;
        }
    }
    Ok(bad)
}

/// Whether a term's column has the range 0 to 1 and stands at its bad end in the point.
fn is_bad(root: &Bounds, point: &[i64], term: &Term) -> bool
    requires one_each { length point.now ≡ length root.now.lows }
    requires known { term.now.col < length root.now.lows }
    ensures { result ≡ is_bad_of root.now point.now term.now }
{
    if !is_binary(root, term.col) {
        return false;
    }
    let end = if term.coef > 0 { 0 } else { 1 };
    point[term.col as usize] == end
}

/// The columns of terms that are taken, by falling absolute coefficient and then by column, until they are more than
/// the row leaves, which all of them together are.
fn taken_columns(alloc: Global, bad: &[Term], left: u64) -> Result<List<u32>, OutOfMemory>
    requires rising { rise_from 0 (map (λ t. t.col) bad.now) ≡ true }
    requires more { left < weight_from_of 0 bad.now }
    requires narrow { weight_of bad.now ≤ 2 ^ 50 }
    ensures { IfOk result (λ cols. cols ≡ map (λ t. t.col) (taken_terms (pos left) bad.now)) }
{
    let low = threshold(bad, left);
    let mut sum = weight_from(bad, low + 1);
    let mut cols = List::new(alloc);
    for term in bad {
        let taken = is_taken(term.coef.unsigned_abs(), low, sum, left);
        add_column(&mut cols, term.col, taken)?;
        sum += size_at(term, low);
    }
    Ok(cols)
}

/// Appends a column, if it is taken.
fn add_column(cols: &mut List<u32>, col: u32, taken: bool) -> Result<(), OutOfMemory>
    ensures { OnOk result (cols.new ≡ cols.old ++ (if taken then col ∷ [] else [])) }
{
    if taken {
        cols.push(col)?;
    }
    Ok(())
}

/// The absolute coefficient, if it is `size`, else 0.
fn size_at(term: &Term, size: u64) -> u64
    ensures { result ≡ size_at_of size term.now }
{
    let own = term.coef.unsigned_abs();
    if own == size { own } else { 0 }
}

/// Whether a term is taken: its absolute coefficient is above the threshold, or is the threshold itself while those
/// before it aren't more than the row leaves.
fn is_taken(size: u64, low: u64, sum: u64, left: u64) -> bool
    ensures { result ≡ is_taken_at size low sum left }
{
    low < size || (size == low && sum <= left)
}

/// The absolute coefficient down to which terms are taken: those of this size or above it are more than the row leaves,
/// and those above it aren't.
fn threshold(bad: &[Term], left: u64) -> u64
    requires more { left < weight_from_of 0 bad.now }
    requires narrow { weight_of bad.now ≤ 2 ^ 50 }
    ensures more { left < weight_from_of result bad.now }
    ensures less { weight_from_of (result + 1) bad.now ≤ left }
    ensures small { result ≤ 2 ^ 50 }
{
    let mut low = 0;
    let mut high = greatest_size(bad) + 1;
    while low + 1 < high {
        let middle = low + (high - low) / 2;
        if left < weight_from(bad, middle) {
            low = middle;
        } else {
            high = middle;
        }
    }
    low
}

/// The greatest absolute coefficient, and 0 where there is no term.
fn greatest_size(terms: &[Term]) -> u64
    requires { weight_of terms.now ≤ 2 ^ 50 }
    ensures none { weight_from_of (result + 1) terms.now ≡ 0 }
    ensures small { result ≤ 2 ^ 50 }
{
    let mut most = 0;
    for term in terms {
        most = most.max(term.coef.unsigned_abs());
    }
    most
}

/// The absolute coefficients together that are at least `low`.
#[tactic(auto, using(crate::proofs::Taking::from_more, crate::proofs::Taking::from_front))]
fn weight_from(terms: &[Term], low: u64) -> u64
    requires { weight_of terms.now ≤ 2 ^ 50 }
    ensures value { result ≡ weight_from_of low terms.now }
    ensures small { result ≤ 2 ^ 50 }
{
    let mut sum = 0;
    for term in terms {
        sum += size_from(term, low);
    }
    sum
}

/// The absolute coefficient, if it is at least `low`, else 0.
fn size_from(term: &Term, low: u64) -> u64
    ensures { result ≡ size_from_of low term.now }
{
    let size = term.coef.unsigned_abs();
    if low <= size { size } else { 0 }
}
