ghost use Rattle.std.specs.Prelude.{◌≡◌, ◌+ℤ◌, ◌-ℤ◌, ◌≤◌, ◌^◌, IfSome, pos, true, unsigned_abs};
ghost use Rattle.width_admit.specs.Exact.{are_whole};
ghost use Rattle.width_admit.specs.Sides.{exact_sides, side_list, sides, side_count as side_count_of};
ghost use Rattle.width_admit.specs.Held.{held_sides, IsFinest};

use crate::scale::{CAP, decimals, scaled_value};
use mps_model::{MpsRow, RowKind};

/// What a row's sum is at least and at most.
#[derive(Clone, Copy, Debug, PartialEq, Eq)]
pub struct RowSides {
    pub lower: Option<i64>,
    pub upper: Option<i64>,
}

/// How many sides a row has.
pub fn side_count(row: &MpsRow) -> usize
    ensures value { result ≡ side_count_of row.now }
    ensures few { result ≤ 2 }
{
    match (row.kind, row.range) {
        (RowKind::Less | RowKind::Greater, None) => 1,
        _ => 2,
    }
}

/// How many decimals a row's sides have.
pub fn side_decimals(row: &MpsRow) -> u8
    ensures { IsFinest (side_list (exact_sides row.now)) result }
{
    let side = decimals(row.rhs);
    match row.range {
        None => side,
        Some(range) => side.max(decimals(range)),
    }
}

/// The sum of two numbers that are held down.
fn sum(side: i64, range: i64) -> i64
    requires side { unsigned_abs side ≤ CAP }
    requires range { unsigned_abs range ≤ CAP }
    ensures value { result ≡ side +ℤ range }
    ensures small { unsigned_abs result ≤ 2 ^ 54 }
{
    side + range
}

/// A number that is held down less the size of another.
fn less_size(side: i64, range: i64) -> i64
    requires side { unsigned_abs side ≤ CAP }
    requires range { unsigned_abs range ≤ CAP }
    ensures value { result ≡ side -ℤ pos (unsigned_abs range) }
    ensures small { unsigned_abs result ≤ 2 ^ 54 }
{
    side - range.abs()
}

/// A number that is held down and the size of another.
fn plus_size(side: i64, range: i64) -> i64
    requires side { unsigned_abs side ≤ CAP }
    requires range { unsigned_abs range ≤ CAP }
    ensures value { result ≡ side +ℤ pos (unsigned_abs range) }
    ensures small { unsigned_abs result ≤ 2 ^ 54 }
{
    side + range.abs()
}

/// The sides of a row with a range.
fn ranged_sides(kind: RowKind, side: i64, range: i64) -> RowSides
    requires side { unsigned_abs side ≤ CAP }
    requires range { unsigned_abs range ≤ CAP }
    ensures value { result ≡ sides kind side (Some range) }
    ensures lower { IfSome result.lower (λ side. unsigned_abs side ≤ 2 ^ 54) }
    ensures upper { IfSome result.upper (λ side. unsigned_abs side ≤ 2 ^ 54) }
{
    let (lower, upper) = match kind {
        RowKind::Less => (less_size(side, range), side),
        RowKind::Greater => (side, plus_size(side, range)),
        RowKind::Equal if range < 0 => (sum(side, range), side),
        RowKind::Equal => (side, sum(side, range)),
    };
    RowSides {
        lower: Some(lower),
        upper: Some(upper),
    }
}

/// The sides of a row without a range.
fn plain_sides(kind: RowKind, side: i64) -> RowSides
    requires { unsigned_abs side ≤ CAP }
    ensures value { result ≡ sides kind side None }
    ensures lower { IfSome result.lower (λ side. unsigned_abs side ≤ 2 ^ 54) }
    ensures upper { IfSome result.upper (λ side. unsigned_abs side ≤ 2 ^ 54) }
{
    match kind {
        RowKind::Less => RowSides {
            lower: None,
            upper: Some(side),
        },
        RowKind::Greater => RowSides {
            lower: Some(side),
            upper: None,
        },
        RowKind::Equal => RowSides {
            lower: Some(side),
            upper: Some(side),
        },
    }
}

/// The sides of a row times ten to the power of `exponent`, which makes them whole, held down.
pub fn scaled_sides(row: &MpsRow, exponent: u8) -> RowSides
    requires small { exponent ≤ 18 }
    requires whole { are_whole (side_list (exact_sides row.now)) exponent ≡ true }
    ensures value { result ≡ held_sides exponent row.now }
    ensures lower { IfSome result.lower (λ side. unsigned_abs side ≤ 2 ^ 54) }
    ensures upper { IfSome result.upper (λ side. unsigned_abs side ≤ 2 ^ 54) }
{
    let side = scaled_value(row.rhs, exponent);
    match row.range {
        None => plain_sides(row.kind, side),
        Some(range) => ranged_sides(row.kind, side, scaled_value(range, exponent)),
    }
}
