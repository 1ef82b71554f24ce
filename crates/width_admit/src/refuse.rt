ghost use Rattle.std.specs.Prelude.{◌≡◌, ◌≤◌, ◌^◌, [], None, length, sum_by};
ghost use Rattle.ip_core.specs.Sides.{HasLimits};
ghost use Rattle.width_admit.specs.Columns.{root as root_of_columns};
ghost use Rattle.width_admit.specs.Sides.{side_count as side_count_of};
ghost use Rattle.width_admit.specs.ExactRows.{is_too_fine as is_too_fine_row};
ghost use Rattle.width_admit.specs.Admission.{column_refusal as column_refusal_of, count_refusal as count_refusal_of, width_refusal as width_refusal_of, first_too_fine as first_too_fine_of, first_too_wide as first_too_wide_of, has_wide_objective as has_wide_objective_of};
ghost use Rattle.width_admit.specs.Gathered.{listed_row, AreGathered};
ghost use Rattle.width_admit.specs.Held.{AreUsable, terms_from};

use crate::Refusal;
use crate::columns::{ColumnFault, first_with};
use crate::gather::Coefficient;
use crate::objective::{objective_exponent, objective_width};
use crate::rows::{is_too_wide, row_exponent};
use crate::sides::side_count;
use ip_core::{Bounds, List, MAX_COLUMNS, MAX_DECIMALS, MAX_ROWS, MAX_TERMS, MAX_WIDTH};
use mps_model::{MpsModel, MpsRow};

/// Why a column refuses the model, if one does.
pub fn column_refusal(mps: &MpsModel, upper: Option<u32>) -> Option<Refusal>
    requires { length mps.now.cols ≤ 2 ^ 30 }
    ensures { result ≡ column_refusal_of mps.now upper }
{
    let cols = mps.cols.as_slice();
    if let Some(col) = first_with(ColumnFault::Continuous, upper, cols) {
        return Some(Refusal::Continuous { col });
    }
    if let Some(col) = first_with(ColumnFault::NegativeUpper, upper, cols) {
        return Some(Refusal::NegativeUpper { col });
    }
    if let Some(col) = first_with(ColumnFault::Unbounded, upper, cols) {
        return Some(Refusal::Unbounded { col });
    }
    if let Some(col) = first_with(ColumnFault::BoundTooLarge, upper, cols) {
        return Some(Refusal::BoundTooLarge { col });
    }
    None
}

/// How many rows of at least the rows become.
fn row_count(rows: &[MpsRow]) -> u64
    requires { length rows.now ≤ 2 ^ 30 }
    ensures { result ≡ sum_by side_count_of rows.now }
{
    let mut count: u64 = 0;
    for row in rows {
        count += side_count(row) as u64;
    }
    count
}

/// How many terms the rows of at least have.
fn term_count(rows: &[MpsRow], lists: &[List<Coefficient>]) -> u128
    requires short { length rows.now ≤ 2 ^ 30 }
    requires lists { length lists.now ≡ length rows.now }
    ensures { result ≡ terms_from lists.now 0 rows.now }
{
    let mut count: u128 = 0;
    for at in 0..rows.len() {
        let terms = lists[at].len() as u128;
        count += side_count(&rows[at]) as u128 * terms;
    }
    count
}

/// Why the number of columns, rows or terms refuses the model, if one does.
pub fn count_refusal(mps: &MpsModel, lists: &[List<Coefficient>]) -> Option<Refusal>
    requires short { length mps.now.rows ≤ 2 ^ 30 }
    requires gathered { AreGathered (length mps.now.rows) mps.now.cols lists.now }
    ensures { result ≡ count_refusal_of mps.now }
{
    let rows = mps.rows.as_slice();
    if mps.cols.len() > MAX_COLUMNS {
        return Some(Refusal::TooManyColumns);
    }
    if row_count(rows) > MAX_ROWS as u64 {
        return Some(Refusal::TooManyRows);
    }
    if term_count(rows, lists) > MAX_TERMS as u128 {
        return Some(Refusal::TooManyTerms);
    }
    None
}

/// Whether a row has too many decimals.
fn is_too_fine(terms: &[Coefficient], row: &MpsRow) -> bool
    ensures { result ≡ is_too_fine_row (listed_row terms.now row.now) }
{
    row_exponent(terms, row) > MAX_DECIMALS
}

/// The first row that has too many decimals, if any.
fn first_too_fine(mps: &MpsModel, lists: &[List<Coefficient>]) -> Option<u32>
    requires short { length mps.now.rows ≤ 2 ^ 30 }
    requires gathered { AreGathered (length mps.now.rows) mps.now.cols lists.now }
    ensures { result ≡ first_too_fine_of mps.now }
{
    let rows = mps.rows.as_slice();
    for at in 0..rows.len() {
        if is_too_fine(lists[at].as_slice(), &rows[at]) {
            return Some(at as u32);
        }
    }
    None
}

/// The first row that is too wide, if any.
fn first_too_wide(
    mps: &MpsModel,
    upper: Option<u32>,
    lists: &[List<Coefficient>],
    root: &Bounds,
) -> Option<u32>
    requires short { length mps.now.rows ≤ 2 ^ 30 }
    requires gathered { AreGathered (length mps.now.rows) mps.now.cols lists.now }
    requires usable { AreUsable (length root.now.lows) lists.now }
    requires root { root.now ≡ root_of_columns upper mps.now.cols }
    requires limits { HasLimits root.now }
    ensures { result ≡ first_too_wide_of mps.now upper }
{
    let rows = mps.rows.as_slice();
    for at in 0..rows.len() {
        if is_too_wide(lists[at].as_slice(), &rows[at], root) {
            return Some(at as u32);
        }
    }
    None
}

/// Whether the objective has too many decimals or is too wide.
fn has_wide_objective(mps: &MpsModel, upper: Option<u32>, root: &Bounds) -> bool
    requires short { length mps.now.cols ≤ 2 ^ 30 }
    requires root { root.now ≡ root_of_columns upper mps.now.cols }
    requires limits { HasLimits root.now }
    ensures { result ≡ has_wide_objective_of mps.now upper }
{
    let exponent = objective_exponent(mps);
    exponent > MAX_DECIMALS || objective_width(mps, exponent, root) > MAX_WIDTH
}

/// Why a row or the objective refuses the model, if one does.
pub fn width_refusal(
    mps: &MpsModel,
    upper: Option<u32>,
    lists: &[List<Coefficient>],
    root: &Bounds,
) -> Option<Refusal>
    requires rows { length mps.now.rows ≤ 2 ^ 30 }
    requires cols { length mps.now.cols ≤ 2 ^ 30 }
    requires gathered { AreGathered (length mps.now.rows) mps.now.cols lists.now }
    requires usable { AreUsable (length root.now.lows) lists.now }
    requires root { root.now ≡ root_of_columns upper mps.now.cols }
    requires limits { HasLimits root.now }
    ensures { result ≡ width_refusal_of mps.now upper }
{
    if let Some(row) = first_too_fine(mps, lists) {
        return Some(Refusal::RowTooFine { row });
    }
    if let Some(row) = first_too_wide(mps, upper, lists, root) {
        return Some(Refusal::RowTooWide { row });
    }
    if has_wide_objective(mps, upper, root) {
        return Some(Refusal::ObjectiveTooWide);
    }
    None
}
