ghost use Rattle.std.specs.Prelude.{◌↔◌, IsTrue};
ghost use Rattle.safe_bound.specs.Premises.{AreCuts, AreSmall};

use crate::*;
use ip_core::dense::{DenseModel, DenseRow};
use ip_core::{List, Model, OutOfMemory, Point, Row};
use std::alloc::Global;
use std::test::Fail;

/// The model of a dense model, without a contract.
fn model_of(alloc: Global, dense: &DenseModel) -> Result<Option<Model>, OutOfMemory> {
    dense.build(alloc)
}

fn are_small(mults: &[u64]) -> bool
    ensures { IsTrue result ↔ AreSmall mults.now }
{
    mults.iter().all(|&mult| mult <= MAX_MULTIPLIER)
}

/// What multipliers give over the root box: the numerator, the bound and the point.
#[derive(Drop)]
struct Outcome {
    numerator: i128,
    bound: i128,
    point: Point,
}

/// What multipliers give, and None where they are none.
fn outcome_of(
    alloc: Global,
    model: &Model,
    cuts: &[Row],
    mults: &[u64],
) -> Result<Option<Outcome>, OutOfMemory>
    requires { AreCuts model.now cuts.now }
{
    if mults.len() != model.rows().len() + cuts.len() || !are_small(mults) {
        return Ok(None);
    }
    let columns = model.cols().len();
    let mut scratch = vec![in alloc; 7; columns]?;
    let mut point = Point::of(List::of(vec![in alloc; 9; columns]?));
    let numerator = numerator(model, cuts, model.root(), mults, &mut scratch);
    let bound = bound(model, cuts, model.root(), mults, &mut scratch);
    least_point(model, cuts, model.root(), mults, &mut scratch, &mut point);
    Ok(Some(Outcome {
        numerator,
        bound,
        point,
    }))
}

fn outcome_alone(
    alloc: Global,
    model: &Model,
    mults: &[u64],
) -> Result<Option<Outcome>, OutOfMemory> {
    outcome_of(alloc, model, &[], mults)
}

/// What multipliers give where the model's rows stand once more as cuts.
fn outcome_again(
    alloc: Global,
    model: &Model,
    mults: &[u64],
) -> Result<Option<Outcome>, OutOfMemory> {
    let _limits = model.parts();
    outcome_of(alloc, model, model.rows(), mults)
}

/// What multipliers give in a dense model, and None where there is none.
fn dense_outcome(
    alloc: Global,
    dense: &DenseModel,
    again: bool,
    mults: &[u64],
) -> Result<Option<Outcome>, OutOfMemory> {
    let Some(model) = model_of(alloc, dense)? else {
        return Ok(None);
    };
    if again {
        outcome_again(alloc, &model, mults)
    } else {
        outcome_alone(alloc, &model, mults)
    }
}

/// The least of x in 0 to 5 with 2x >= 3.
const SINGLE: DenseModel<'static> = DenseModel {
    costs: &[1],
    lows: &[0],
    highs: &[5],
    rows: &[DenseRow {
        coefs: &[2],
        least: 3,
    }],
};

/// The multiplier of the row of `SINGLE`, and the numerator, the bound and the value that it gives.
struct Case {
    mult: u64,
    numerator: i128,
    bound: i128,
    value: i64,
}

const CASES: [Case; 6] = [
    Case {
        mult: 0,
        numerator: 0,
        bound: 0,
        value: 0,
    },
    Case {
        mult: 341,
        numerator: 1_023,
        bound: 1,
        value: 0,
    },
    Case {
        mult: 342,
        numerator: 1_026,
        bound: 2,
        value: 0,
    },
    Case {
        mult: 512,
        numerator: 1_536,
        bound: 2,
        value: 0,
    },
    Case {
        mult: 513,
        numerator: 1_529,
        bound: 2,
        value: 5,
    },
    Case {
        mult: 1_024,
        numerator: -2_048,
        bound: -2,
        value: 5,
    },
];

fn gives_so(alloc: Global, case: &Case) -> Result<bool, OutOfMemory> {
    let Some(found) = dense_outcome(alloc, &SINGLE, false, &[case.mult])? else {
        return Ok(false);
    };
    Ok(
        found.numerator == case.numerator
            && found.bound == case.bound
            && found.point.values() == [case.value].as_slice(),
    )
}

/// The first case that isn't as it says.
fn first_wrong_case(alloc: Global, cases: &[Case]) -> Result<Option<usize>, OutOfMemory> {
    for (at, case) in cases.iter().enumerate() {
        if !gives_so(alloc, case)? {
            return Ok(Some(at));
        }
    }
    Ok(None)
}

#[test]
fn bounds_one_column(rt: HostRuntime) -> Result<(), Fail> {
    assert_eq!(rt; first_wrong_case(rt.alloc(), &CASES)?, None);
    Ok(())
}

/// The sum over rows of multiplier times `least`.
fn slow_least(rows: &[DenseRow], mults: &[u64]) -> i128 {
    let mut sum = 0i128;
    for (row, mult) in rows.iter().zip(mults) {
        sum = sum.wrapping_add(i128::from(*mult).wrapping_mul(i128::from(row.least)));
    }
    sum
}

/// The reduced cost of a column.
fn slow_reduced(dense: &DenseModel, mults: &[u64], j: usize) -> i128 {
    let cost = dense.costs.get(j).copied().unwrap_or(0);
    let mut reduced = i128::from(cost).wrapping_mul(1_024);
    for (row, mult) in dense.rows.iter().zip(mults) {
        let coef = row.coefs.get(j).copied().unwrap_or(0);
        reduced = reduced.wrapping_sub(i128::from(coef).wrapping_mul(i128::from(*mult)));
    }
    reduced
}

/// What a column adds to the numerator.
fn slow_share(dense: &DenseModel, mults: &[u64], j: usize) -> i128 {
    let reduced = slow_reduced(dense, mults, j);
    let low = dense.lows.get(j).copied().unwrap_or(0);
    let high = dense.highs.get(j).copied().unwrap_or(0);
    let at_low = reduced.wrapping_mul(i128::from(low));
    let at_high = reduced.wrapping_mul(i128::from(high));
    at_low.min(at_high)
}

/// The numerator, summed row by row and then column by column.
fn slow_numerator(dense: &DenseModel, mults: &[u64]) -> i128 {
    let mut sum = slow_least(dense.rows, mults);
    for j in 0..dense.costs.len() {
        sum = sum.wrapping_add(slow_share(dense, mults, j));
    }
    sum
}

/// Whether a bound is the least whole number that is no less than a numerator divided by 1,024.
fn is_slow_bound(bound: i128, numerator: i128) -> bool {
    let above = bound.wrapping_mul(1_024);
    numerator <= above && above.wrapping_sub(1_024) < numerator
}

fn slow_value(dense: &DenseModel, mults: &[u64], j: usize) -> i64 {
    let ends = if slow_reduced(dense, mults, j) < 0 {
        dense.highs
    } else {
        dense.lows
    };
    ends.get(j).copied().unwrap_or(0)
}

/// Whether each value is the slow one.
fn are_slow_values(dense: &DenseModel, mults: &[u64], values: &[i64]) -> bool {
    for (j, value) in values.iter().enumerate() {
        if *value != slow_value(dense, mults, j) {
            return false;
        }
    }
    values.len() == dense.costs.len()
}

/// Whether numerator, bound and point are the slow ones at multipliers of a dense model's rows.
fn is_slow(found: &Outcome, dense: &DenseModel, mults: &[u64]) -> bool {
    found.numerator == slow_numerator(dense, mults)
        && is_slow_bound(found.bound, found.numerator)
        && are_slow_values(dense, mults, found.point.values())
}

fn agrees(alloc: Global, dense: &DenseModel, mults: &[u64]) -> Result<bool, OutOfMemory> {
    let Some(found) = dense_outcome(alloc, dense, false, mults)? else {
        return Ok(false);
    };
    Ok(is_slow(&found, dense, mults))
}

/// The first multipliers at which a dense model's sums aren't the slow ones.
fn first_difference(
    alloc: Global,
    dense: &DenseModel,
    tries: &[&[u64]],
) -> Result<Option<usize>, OutOfMemory> {
    for (at, mults) in tries.iter().enumerate() {
        if !agrees(alloc, dense, mults)? {
            return Ok(Some(at));
        }
    }
    Ok(None)
}

/// Two columns from -1 to 4 and from 1 to 3, and two rows.
const PAIR: DenseModel<'static> = DenseModel {
    costs: &[2, -3],
    lows: &[-1, 1],
    highs: &[4, 3],
    rows: &[
        DenseRow {
            coefs: &[1, 2],
            least: 3,
        },
        DenseRow {
            coefs: &[-1, 1],
            least: -2,
        },
    ],
};

/// Three columns from 0 to 1 without costs.
const EVEN: DenseModel<'static> = DenseModel {
    costs: &[0, 0, 0],
    lows: &[0, 0, 0],
    highs: &[1, 1, 1],
    rows: &[
        DenseRow {
            coefs: &[2, 2, 2],
            least: 3,
        },
        DenseRow {
            coefs: &[-2, -2, -2],
            least: -3,
        },
    ],
};

/// The first column is empty.
const EMPTY: DenseModel<'static> = DenseModel {
    costs: &[1, 5],
    lows: &[4, -2],
    highs: &[1, 7],
    rows: &[
        DenseRow {
            coefs: &[3, 0],
            least: 1,
        },
        DenseRow {
            coefs: &[0, -1],
            least: -9,
        },
    ],
};

const NO_ROWS: DenseModel<'static> = DenseModel {
    costs: &[-7],
    lows: &[-5],
    highs: &[6],
    rows: &[],
};

const TRIES: [&[u64]; 5] = [
    &[0, 0],
    &[1_024, 0],
    &[512, 1_024],
    &[3, 2_000],
    &[700, 701],
];

#[test]
fn agrees_with_slow_sums(rt: HostRuntime) -> Result<(), Fail> {
    let alloc = rt.alloc();
    assert_eq!(rt; first_difference(alloc, &PAIR, &TRIES)?, None);
    assert_eq!(rt; first_difference(alloc, &EVEN, &TRIES)?, None);
    assert_eq!(rt; first_difference(alloc, &EMPTY, &TRIES)?, None);
    assert!(rt; agrees(alloc, &NO_ROWS, &[])?);
    Ok(())
}

/// Whether the rows of a dense model and then the same rows as cuts give what the rows alone give at the sums of the
/// multipliers.
fn adds_up(
    alloc: Global,
    dense: &DenseModel,
    mults: &[u64],
    sums: &[u64],
) -> Result<bool, OutOfMemory> {
    let Some(found) = dense_outcome(alloc, dense, true, mults)? else {
        return Ok(false);
    };
    Ok(is_slow(&found, dense, sums))
}

/// Each row of the model stands once more as a cut: its multipliers add up.
#[test]
fn takes_cuts_after_rows(rt: HostRuntime) -> Result<(), Fail> {
    let alloc = rt.alloc();
    assert!(rt; adds_up(alloc, &PAIR, &[100, 20, 3, 4_000], &[103, 4_020])?);
    assert!(rt; adds_up(alloc, &PAIR, &[4_000, 3, 20, 100], &[4_020, 103])?);
    Ok(())
}

#[test]
fn keeps_its_laws(_rt: HostRuntime) -> Result<(), Fail> {
    bound_is_safe();
    numerator_is_small();
    greatest_multiplier();
    Ok(())
}
