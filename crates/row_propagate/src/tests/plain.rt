//! Plain passes, in which each sum is made anew.
use crate::Outcome;
use ip_core::{OutOfMemory, RowRef, Tighten};

/// A real tightening by the row `row`: of the low, or else of the high.
pub fn step(row: RowRef, col: u32, low: bool) -> Tighten {
    Tighten { row, col, low }
}

/// A row of plain passes, with its name.
#[derive(Clone, Copy)]
pub struct PlainRow<'a> {
    pub name: RowRef,
    pub coefs: &'a [i64],
    pub least: i64,
}

/// A box of three columns in plain passes, and the tightenings so far.
#[derive(Drop)]
pub struct PlainBox {
    pub lows: [i64; 3],
    pub highs: [i64; 3],
    pub steps: Vec<Tighten>,
}

/// The most that a column adds to a row.
fn plain_part(coefs: &[i64], state: &PlainBox, j: usize) -> i64 {
    let coef = coefs.get(j).copied().unwrap_or(0);
    let low = state.lows.get(j).copied().unwrap_or(0);
    let high = state.highs.get(j).copied().unwrap_or(0);
    coef.wrapping_mul(low).max(coef.wrapping_mul(high))
}

/// The most that the columns of a row come to, without the column `apart`.
fn plain_most(coefs: &[i64], state: &PlainBox, apart: usize) -> i64 {
    let mut most = 0i64;
    for j in 0..3 {
        if j != apart {
            most = most.wrapping_add(plain_part(coefs, state, j));
        }
    }
    most
}

/// A quotient rounded down, and 0 by 0.
fn plain_floor(number: i64, divisor: i64) -> i64 {
    let quotient = number.checked_div(divisor).unwrap_or(0);
    let left = number.checked_rem(divisor).unwrap_or(0);
    if left != 0 && (left < 0) != (divisor < 0) {
        quotient.wrapping_sub(1)
    } else {
        quotient
    }
}

/// The bound that a row gives for a column where its coefficient is `coef`: a low where this is above 0, or else a high.
/// The sum over the other columns is made anew.
fn plain_bound(row: &PlainRow, state: &PlainBox, j: usize, coef: i64) -> i64 {
    let left = row.least.wrapping_sub(plain_most(row.coefs, state, j));
    if coef > 0 {
        plain_floor(left.wrapping_neg(), coef).wrapping_neg()
    } else {
        plain_floor(left, coef)
    }
}

fn plain_raise(state: &mut PlainBox, name: RowRef, j: usize, low: i64) -> Result<(), OutOfMemory> {
    if j < 3 && state.lows[j] < low {
        state.lows[j] = low;
        state.steps.push(step(name, j as u32, true))?;
    }
    Ok(())
}

fn plain_lower(state: &mut PlainBox, name: RowRef, j: usize, high: i64) -> Result<(), OutOfMemory> {
    if j < 3 && high < state.highs[j] {
        state.highs[j] = high;
        state.steps.push(step(name, j as u32, false))?;
    }
    Ok(())
}

/// Whether a column is empty.
fn is_empty(state: &PlainBox, j: usize) -> bool {
    j < 3 && state.highs[j] < state.lows[j]
}

/// Tightens a column by a row, and tells whether the column is empty then.
fn plain_tighten(row: &PlainRow, state: &mut PlainBox, j: usize) -> Result<bool, OutOfMemory> {
    let coef = row.coefs.get(j).copied().unwrap_or(0);
    if coef == 0 {
        return Ok(false);
    }
    let bound = plain_bound(row, state, j, coef);
    if coef > 0 {
        plain_raise(state, row.name, j, bound)?;
    } else {
        plain_lower(state, row.name, j, bound)?;
    }
    Ok(is_empty(state, j))
}

/// A visit to a row in plain passes.
fn plain_visit(row: &PlainRow, state: &mut PlainBox) -> Result<Outcome, OutOfMemory> {
    if plain_most(row.coefs, state, 3) < row.least {
        return Ok(Outcome::Conflict(row.name));
    }
    for j in 0..3u32 {
        if plain_tighten(row, state, j as usize)? {
            return Ok(Outcome::Empty(j));
        }
    }
    Ok(Outcome::Open)
}

/// A plain pass over rows.
fn plain_pass(rows: &[PlainRow], state: &mut PlainBox) -> Result<Outcome, OutOfMemory> {
    for row in rows {
        let outcome = plain_visit(row, state)?;
        if outcome != Outcome::Open {
            return Ok(outcome);
        }
    }
    Ok(Outcome::Open)
}

/// The first empty column of a box.
fn plain_first_empty(state: &PlainBox) -> Option<u32> {
    for j in 0..3u32 {
        if is_empty(state, j as usize) {
            return Some(j);
        }
    }
    None
}

/// Plain passes over rows, with their number.
pub fn plain_passes(
    rows: &[PlainRow],
    state: &mut PlainBox,
) -> Result<(Outcome, u32), OutOfMemory> {
    if let Some(col) = plain_first_empty(state) {
        return Ok((Outcome::Empty(col), 0));
    }
    for passes in 1..11u32 {
        let before = state.steps.len();
        let outcome = plain_pass(rows, state)?;
        if outcome != Outcome::Open || state.steps.len() == before {
            return Ok((outcome, passes));
        }
    }
    Ok((Outcome::Open, 10))
}
