ghost use Rattle.std.specs.Prelude.{◌≡◌, ◌≤◌, ◌^◌, ◌&&◌, length, map, IfOk};
ghost use Rattle.width_admit.specs.Columns.{low, high, root, given_high as given_high_of, is_unset, is_negative, is_free as is_free_of, is_large, lacks_high as lacks_high_of, has_large_bound};
ghost use Rattle.width_admit.specs.Admission.{first_from};
ghost use Rattle.width_admit.specs.Held.{held_number, has_fault as has_fault_of};

use crate::scale::{ceiling, floor};
use ip_core::{Bounds, List, MAX_BOUND, OutOfMemory};
use mps_model::{Limit, MpsCol};
use std::alloc::Global;

/// What refuses a column.
#[derive(Clone, Copy, Debug, PartialEq, Eq)]
pub enum ColumnFault {
    Continuous,
    NegativeUpper,
    Unbounded,
    BoundTooLarge,
}

/// The low of a column in whole numbers, held down: 0 where the file gives none.
fn low_of(limit: Limit) -> i64
    ensures { result ≡ held_number (low limit) }
{
    match limit {
        Limit::Unset | Limit::Free => 0,
        Limit::At(value) => ceiling(value),
    }
}

/// The high that is given for columns without one, or 0.
fn given_high(upper: Option<u32>) -> i64
    ensures { result ≡ held_number (given_high_of upper) }
{
    match upper {
        None => 0,
        Some(high) => i64::from(high),
    }
}

/// The high of a column in whole numbers, held down: the given one where the file gives none.
fn high_of(upper: Option<u32>, limit: Limit) -> i64
    ensures { result ≡ held_number (high upper limit) }
{
    match limit {
        Limit::Unset | Limit::Free => given_high(upper),
        Limit::At(value) => floor(value),
    }
}

/// Whether a low is unset and a high a negative number.
fn has_negative_upper(low: Limit, high: Limit) -> bool
    ensures { result ≡ (is_unset low && is_negative high) }
{
    match (low, high) {
        (Limit::Unset, Limit::At(value)) => value.mantissa() < 0,
        _ => false,
    }
}

/// Whether a high is missing, so that one has to be given.
fn lacks_high(upper: Option<u32>, high: Limit) -> bool
    ensures { result ≡ lacks_high_of upper high }
{
    match (upper, high) {
        (None, Limit::Unset | Limit::Free) => true,
        _ => false,
    }
}

fn is_free(limit: Limit) -> bool
    ensures { result ≡ is_free_of limit }
{
    match limit {
        Limit::Free => true,
        Limit::Unset | Limit::At(_) => false,
    }
}

/// Whether a low lies outside the limit.
fn has_large_low(limit: Limit) -> bool
    ensures { result ≡ is_large (low limit) }
{
    low_of(limit).unsigned_abs() > MAX_BOUND
}

/// Whether a high lies outside the limit.
fn has_large_high(upper: Option<u32>, limit: Limit) -> bool
    ensures { result ≡ is_large (high upper limit) }
{
    high_of(upper, limit).unsigned_abs() > MAX_BOUND
}

/// Whether a column is refused for this reason.
fn has_fault(fault: ColumnFault, upper: Option<u32>, col: &MpsCol) -> bool
    ensures { result ≡ has_fault_of fault upper col.now }
{
    match fault {
        ColumnFault::Continuous => !col.integer,
        ColumnFault::NegativeUpper => has_negative_upper(col.low, col.high),
        ColumnFault::Unbounded => is_free(col.low) || lacks_high(upper, col.high),
        ColumnFault::BoundTooLarge => has_large_low(col.low) || has_large_high(upper, col.high),
    }
}

/// The first column that is refused for this reason, if any.
pub fn first_with(fault: ColumnFault, upper: Option<u32>, cols: &[MpsCol]) -> Option<u32>
    requires { length cols.now ≤ 2 ^ 30 }
    ensures { result ≡ first_from (λ _ c. has_fault_of fault upper c) 0 cols.now }
{
    for at in 0..cols.len() {
        if has_fault(fault, upper, &cols[at]) {
            return Some(at as u32);
        }
    }
    None
}

fn lows_of(alloc: Global, cols: &[MpsCol]) -> Result<List<i64>, OutOfMemory>
    ensures { IfOk result (λ lows. lows ≡ map (λ c. held_number (low c.low)) cols.now) }
{
    let mut lows = List::new(alloc);
    for col in cols {
        lows.push(low_of(col.low))?;
    }
    Ok(lows)
}

fn highs_of(alloc: Global, upper: Option<u32>, cols: &[MpsCol]) -> Result<List<i64>, OutOfMemory>
    ensures { IfOk result (λ highs. highs ≡ map (λ c. held_number (high upper c.high)) cols.now) }
{
    let mut highs = List::new(alloc);
    for col in cols {
        highs.push(high_of(upper, col.high))?;
    }
    Ok(highs)
}

/// The box of these sides.
fn box_of(lows: List<i64>, highs: List<i64>) -> Bounds
    requires short { length lows ≤ 2 ^ 30 }
    requires same { length highs ≡ length lows }
    ensures { result ≡ record { lows = lows; highs = highs } }
{
    match Bounds::of(lows, highs) {
        Some(root) => root,
        None => unreachable!(),
    }
}

/// The box of columns none of which has a bound that is too large.
pub fn root_of(alloc: Global, upper: Option<u32>, cols: &[MpsCol]) -> Result<Bounds, OutOfMemory>
    requires short { length cols.now ≤ 2 ^ 30 }
    requires bounds { first_from (λ _ c. has_large_bound upper c) 0 cols.now ≡ None }
    ensures { IfOk result (λ b. b ≡ root upper cols.now) }
{
    let lows = lows_of(alloc, cols)?;
    let highs = highs_of(alloc, upper, cols)?;
    Ok(box_of(lows, highs))
}
