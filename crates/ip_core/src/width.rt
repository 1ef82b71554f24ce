ghost use Rattle.std.specs.Prelude.{◌≡◌, ◌≤◌, ◌<◌, ◌^◌, ◌↔◌, length, map, IsTrue};
ghost use Rattle.std.specs.List.Sorted.{IsStrictlyIncreasing};
ghost use Rattle.ip_core.specs.Sides.{HasLimits, reach};
ghost use Rattle.ip_core.specs.Rows.{AreTerms, IsRow, part_width, row_width};
ghost use Rattle.ip_core.specs.Models.{HasBounds, objective_width};

use crate::limits::{MAX_BOUND, MAX_TERMS, MAX_WIDTH};
use crate::{Bounds, ModelParts, Row, Term};

/// Whether a row is one of a model with this root box.
pub fn is_row(row: &Row, root: &Bounds) -> bool
    requires limits { HasLimits root.now }
    requires few { length row.now.terms ≤ MAX_TERMS }
    ensures { IsTrue result ↔ IsRow (length root.now.lows) root.now row.now }
{
    let terms = row.terms.as_slice();
    if !are_terms(terms, root.lows().len()) {
        return false;
    }
    if !is_rising(terms) {
        return false;
    }
    row_width(row, root) <= MAX_WIDTH
}

fn are_terms(terms: &[Term], columns: usize) -> bool
    ensures { IsTrue result ↔ AreTerms columns terms.now }
{
    terms
        .iter()
        .all(|term| (term.col as usize) < columns && term.coef != 0)
}

fn is_rising(terms: &[Term]) -> bool
    ensures { IsTrue result ↔ IsStrictlyIncreasing (map (λ t. t.col) terms.now) }
{
    for i in 1..terms.len() {
        if terms[i - 1].col >= terms[i].col {
            return false;
        }
    }
    true
}

/// The absolute value of `least` plus, for each term, the absolute coefficient times the reach of its column.
fn row_width(row: &Row, root: &Bounds) -> u128
    requires limits { HasLimits root.now }
    requires known { AreTerms (length root.now.lows) row.now.terms }
    requires few { length row.now.terms ≤ MAX_TERMS }
    ensures { result ≡ row_width root.now row.now }
{
    let mut width = u128::from(row.least.unsigned_abs());
    for term in row.terms.as_slice() {
        width += part_width(term.coef, root, term.col);
    }
    width
}

/// The absolute constant plus, for each column, the absolute cost times its reach.
pub fn objective_width(parts: &ModelParts) -> u128
    requires { HasBounds parts.now }
    ensures { result ≡ objective_width parts.now.root parts.now.costs parts.now.constant }
{
    let costs = parts.costs.as_slice();
    let mut width = u128::from(parts.constant.unsigned_abs());
    for j in 0..costs.len() {
        width += part_width(costs[j], &parts.root, j as u32);
    }
    width
}

/// The absolute coefficient times the reach of the column.
fn part_width(coef: i64, root: &Bounds, col: u32) -> u128
    requires limits { HasLimits root.now }
    requires known { col < length root.now.lows }
    ensures value { result ≡ part_width root.now coef col }
    ensures small { result ≤ 2 ^ 95 }
{
    u128::from(coef.unsigned_abs()) * u128::from(reach(root, col))
}

/// How far a column's values reach from 0, and at least 1.
fn reach(root: &Bounds, col: u32) -> u64
    requires limits { HasLimits root.now }
    requires known { col < length root.now.lows }
    ensures value { result ≡ reach root.now col }
    ensures small { result ≤ MAX_BOUND }
{
    let (low, high) = root.get(col);
    low.unsigned_abs().max(high.unsigned_abs()).max(1)
}
