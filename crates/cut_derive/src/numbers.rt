ghost use Rattle.std.specs.Prelude.{◌≡◌};
ghost use Rattle.std.specs.List.{list_all};
ghost use Rattle.leaf_truth.specs.Multipliers.{are_rising as are_rising_of, rise_after as rise_after_of};
ghost use Rattle.cut_derive.specs.Gomory.{are_known as are_known_of, are_weights as are_weights_of, has_weight as has_weight_of, is_count as is_count_of, is_divisor as is_divisor_of};
ghost use Rattle.cut_derive.specs.Covers.{are_columns as are_columns_of, rise_from as rise_from_of};

use crate::limits::{MAX_DIVISOR, MAX_PARTS};
use crate::rows::has_row;
use ip_core::{Model, Pair, Row, RowRef};
use safe_bound::MAX_MULTIPLIER;

/// Whether each part's row is one of the model or a cut.
#[tactic(auto, using(crate::proofs::Testing::known_first))]
pub fn are_known(model: &Model, cuts: &[Row], parts: &[Pair]) -> bool
    ensures { result ≡ are_known_of model.now.rows cuts.now parts.now }
{
    for part in parts {
        if !has_row(model, cuts, part.row) {
            return false;
        }
    }
    true
}

/// Whether the divisor, the number of parts and their weights are in range, and the rows rise.
pub fn are_weights(parts: &[Pair], divisor: u64) -> bool
    ensures { result ≡ are_weights_of parts.now divisor }
{
    if !is_divisor(divisor) || !is_count(parts.len()) {
        return false;
    }
    if !have_weights(parts) {
        return false;
    }
    are_rising(parts)
}

/// Whether a divisor is 1 to 2^62.
fn is_divisor(divisor: u64) -> bool
    ensures { result ≡ is_divisor_of divisor }
{
    1 <= divisor && divisor <= MAX_DIVISOR
}

/// Whether a derivation may have this number of parts or columns: 1 to 256.
pub fn is_count(number: usize) -> bool
    ensures { result ≡ is_count_of number }
{
    1 <= number && number <= MAX_PARTS
}

/// Whether each part's weight is 1 to 2^40.
#[tactic(auto, using(crate::proofs::Testing::weights_first))]
fn have_weights(parts: &[Pair]) -> bool
    ensures { result ≡ list_all has_weight_of parts.now }
{
    for part in parts {
        if !has_weight(*part) {
            return false;
        }
    }
    true
}

/// Whether a part's weight is 1 to 2^40.
fn has_weight(part: Pair) -> bool
    ensures { result ≡ has_weight_of part }
{
    1 <= part.weight && part.weight <= MAX_MULTIPLIER
}

/// Whether the rows of parts rise strictly.
fn are_rising(parts: &[Pair]) -> bool
    ensures { result ≡ are_rising_of parts.now }
{
    match parts.split_first() {
        None => true,
        Some((first, rest)) => rise_after(first.row, rest),
    }
}

/// Whether the rows of parts rise strictly, behind a row of this name.
#[tactic(auto, using(crate::proofs::Testing::rise_first))]
fn rise_after(name: RowRef, parts: &[Pair]) -> bool
    ensures { result ≡ rise_after_of name parts.now }
{
    let mut last = name;
    for part in parts {
        if !last.is_before(part.row) {
            return false;
        }
        last = part.row;
    }
    true
}

/// Whether there are 1 to 256 columns, and they rise strictly.
pub fn are_columns(cols: &[u32]) -> bool
    ensures { result ≡ are_columns_of cols.now }
{
    is_count(cols.len()) && rise(cols)
}

/// Whether columns rise strictly.
#[tactic(auto, using(crate::proofs::Testing::columns_first))]
fn rise(cols: &[u32]) -> bool
    ensures { result ≡ rise_from_of 0 cols.now }
{
    let mut low = 0u64;
    for col in cols {
        let next = u64::from(*col);
        if next < low {
            return false;
        }
        low = next + 1;
    }
    true
}
