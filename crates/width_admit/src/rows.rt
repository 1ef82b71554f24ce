ghost use Rattle.std.specs.Prelude.{◌≡◌, ◌≤◌, ◌<◌, ◌+◌, ◌*◌, ◌++◌, ◌^◌, true, neg_ℤ, if◌then◌else◌, length, map, unsigned_abs, sum_by, IfOk, IfSome, OnOk};
ghost use Rattle.ip_core.specs.Sides.{HasLimits, reach as reach_of};
ghost use Rattle.ip_core.specs.Rows.{AreTerms, term_width};
ghost use Rattle.width_admit.specs.Exact.{are_whole};
ghost use Rattle.width_admit.specs.Sides.{exact_sides, side_list};
ghost use Rattle.width_admit.specs.ExactRows.{row_exponent as row_exponent_of, is_too_wide as is_too_wide_row};
ghost use Rattle.width_admit.specs.Held.{IsFinest, held_terms, held_rows, is_wide_side, has_wide_side as has_wide_side_of, terms_under_sign, side_rows};
ghost use Rattle.width_admit.specs.Gathered.{exact, listed_row};

use crate::gather::Coefficient;
use crate::scale::{CAP, decimals, scaled_value};
use crate::sides::{RowSides, scaled_sides, side_decimals};
use ip_core::{Bounds, List, MAX_WIDTH, OutOfMemory, Row, Term};
use mps_model::MpsRow;
use std::alloc::Global;

/// How many decimals coefficients have.
fn term_decimals(terms: &[Coefficient]) -> u8
    ensures { IsFinest (map (λ t. t.coef) (exact terms.now)) result }
{
    let mut most: u8 = 0;
    for term in terms {
        most = most.max(decimals(term.value));
    }
    most
}

/// The least exponent of a power of ten that makes a row's coefficients and sides whole.
pub fn row_exponent(terms: &[Coefficient], row: &MpsRow) -> u8
    ensures value { result ≡ row_exponent_of (listed_row terms.now row.now) }
    ensures small { result ≤ 18 }
    ensures terms { are_whole (map (λ t. t.coef) (exact terms.now)) result ≡ true }
    ensures sides { are_whole (side_list (exact_sides row.now)) result ≡ true }
{
    term_decimals(terms).max(side_decimals(row))
}

/// How far a column's values reach from 0, and at least 1.
pub fn reach(root: &Bounds, col: u32) -> u64
    requires { col < length root.now.lows }
    ensures { result ≡ reach_of root.now col }
{
    let (low, high) = root.get(col);
    low.unsigned_abs().max(high.unsigned_abs()).max(1)
}

/// The absolute coefficients under a power of ten, held down, times the reach of their columns, added up.
fn terms_width(terms: &[Coefficient], exponent: u8, root: &Bounds) -> u128
    requires small { exponent ≤ 18 }
    requires whole { are_whole (map (λ t. t.coef) (exact terms.now)) exponent ≡ true }
    requires known { AreTerms (length root.now.lows) (exact terms.now) }
    requires limits { HasLimits root.now }
    requires short { length terms.now ≤ 2 ^ 30 }
    ensures value { result
        ≡ sum_by (term_width root.now) (held_terms exponent (exact terms.now)) }
    ensures small { result ≤ 2 ^ 113 }
{
    let mut width = 0;
    for term in terms {
        let size = scaled_value(term.value, exponent).unsigned_abs();
        width += u128::from(size) * u128::from(reach(root, term.col));
    }
    width
}

/// Whether terms of this width and a side are too wide for a row.
fn is_wide(width: u128, side: Option<i64>) -> bool
    requires { width ≤ 2 ^ 126 }
    ensures { result ≡ is_wide_side width side }
{
    match side {
        None => false,
        Some(side) => width + u128::from(side.unsigned_abs()) > MAX_WIDTH,
    }
}

/// Whether terms of this width and one of two sides are too wide for a row.
fn has_wide_side(width: u128, sides: RowSides) -> bool
    requires { width ≤ 2 ^ 126 }
    ensures { result ≡ has_wide_side_of width sides }
{
    is_wide(width, sides.lower) || is_wide(width, sides.upper)
}

/// Whether one of the rows of at least of a row of the file is too wide.
pub fn is_too_wide(terms: &[Coefficient], row: &MpsRow, root: &Bounds) -> bool
    requires known { AreTerms (length root.now.lows) (exact terms.now) }
    requires limits { HasLimits root.now }
    requires short { length terms.now ≤ 2 ^ 30 }
    ensures { result ≡ is_too_wide_row root.now (listed_row terms.now row.now) }
{
    let exponent = row_exponent(terms, row);
    let width = terms_width(terms, exponent, root);
    has_wide_side(width, scaled_sides(row, exponent))
}

/// A number that is held down, or that number negated.
pub fn under_sign(negate: bool, number: i64) -> i64
    requires { unsigned_abs number ≤ 2 ^ 54 }
    ensures { result ≡ (if negate then neg_ℤ number else number) }
{
    if negate { -number } else { number }
}

/// Terms in whole numbers under a power of ten, held down, or these negated.
fn whole_terms(
    alloc: Global,
    terms: &[Coefficient],
    exponent: u8,
    negate: bool,
) -> Result<List<Term>, OutOfMemory>
    requires small { exponent ≤ 18 }
    requires whole { are_whole (map (λ t. t.coef) (exact terms.now)) exponent ≡ true }
    ensures { IfOk result (λ whole.
        whole ≡ terms_under_sign negate (held_terms exponent (exact terms.now))) }
{
    let mut whole = List::new(alloc);
    for term in terms {
        whole.push(Term {
            col: term.col,
            coef: under_sign(negate, scaled_value(term.value, exponent)),
        })?;
    }
    Ok(whole)
}

/// Appends the row of at least of one side, if there is one: the row as it stands, or negated of an upper side.
fn push_side(
    alloc: Global,
    rows: &mut List<Row>,
    terms: &[Coefficient],
    exponent: u8,
    side: Option<i64>,
    is_upper: bool,
) -> Result<(), OutOfMemory>
    requires small { exponent ≤ 18 }
    requires whole { are_whole (map (λ t. t.coef) (exact terms.now)) exponent ≡ true }
    requires held { IfSome side (λ b. unsigned_abs b ≤ 2 ^ 54) }
    ensures { OnOk result
        (rows.new ≡ rows.old ++ side_rows is_upper (held_terms exponent (exact terms.now)) side) }
{
    match side {
        None => Ok(()),
        Some(side) => {
            let terms = whole_terms(alloc, terms, exponent, is_upper)?;
            let least = under_sign(is_upper, side);
            rows.push(Row { terms, least })
        }
    }
}

/// Appends the rows of at least that a row of the file becomes, its lower side first.
pub fn push_rows(
    alloc: Global,
    rows: &mut List<Row>,
    terms: &[Coefficient],
    row: &MpsRow,
) -> Result<(), OutOfMemory>
    ensures { let exponent = row_exponent_of (listed_row terms.now row.now) in
        OnOk result (rows.new ≡ rows.old ++ held_rows exponent (exact terms.now) row.now) }
{
    let exponent = row_exponent(terms, row);
    let sides = scaled_sides(row, exponent);
    push_side(alloc, rows, terms, exponent, sides.lower, false)?;
    push_side(alloc, rows, terms, exponent, sides.upper, true)
}
