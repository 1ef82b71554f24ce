use crate::*;
use ip_core::dense::{DenseModel, DenseRow};
use ip_core::{Derivation, List, Model, OutOfMemory, Pair, Point, Row, RowRef, Term, is_feasible};
use std::alloc::Global;
use std::test::Fail;

/// A derivation in plain numbers.
#[derive(Clone, Copy, Debug)]
enum Plain {
    Gomory(&'static [Pair], u64),
    Cover(RowRef, &'static [u32]),
}

fn derivation(alloc: Global, plain: Plain) -> Result<Derivation, OutOfMemory> {
    match plain {
        Plain::Gomory(parts, divisor) => Ok(Derivation::Gomory {
            parts: List::of(Vec::from_slice(alloc, parts)?),
            divisor,
        }),
        Plain::Cover(row, cols) => Ok(Derivation::Cover {
            row,
            cols: List::of(Vec::from_slice(alloc, cols)?),
        }),
    }
}

/// What a derivation gives where the model's rows stand once more as cuts.
fn derive_again(alloc: Global, model: &Model, plain: Plain) -> Result<Row, CutError> {
    let _limits = model.parts();
    let derivation = derivation(alloc, plain)?;
    derive(alloc, model, model.rows(), &derivation)
}

/// What a derivation gives from a model alone.
fn derive_alone(alloc: Global, model: &Model, plain: Plain) -> Result<Row, CutError> {
    let derivation = derivation(alloc, plain)?;
    derive(alloc, model, &[], &derivation)
}

fn model_of(alloc: Global, dense: &DenseModel) -> Result<Option<Model>, OutOfMemory> {
    dense.build(alloc)
}

/// x and y from 0 to 1, with 2x + 2y >= 3.
const PAIR: DenseModel<'static> = DenseModel {
    costs: &[0, 0],
    lows: &[0, 0],
    highs: &[1, 1],
    rows: &[DenseRow {
        coefs: &[2, 2],
        least: 3,
    }],
};

/// x, y and z from 0 to 1, with -3x - 3y - 3z >= -5.
const TRIPLE: DenseModel<'static> = DenseModel {
    costs: &[0, 0, 0],
    lows: &[0, 0, 0],
    highs: &[1, 1, 1],
    rows: &[DenseRow {
        coefs: &[-3, -3, -3],
        least: -5,
    }],
};

/// x from 2 to 5 and y from -1 to 2, with 3x + 2y >= 7 and -x + 4y >= -3.
const SHIFTED: DenseModel<'static> = DenseModel {
    costs: &[0, 0],
    lows: &[2, -1],
    highs: &[5, 2],
    rows: &[
        DenseRow {
            coefs: &[3, 2],
            least: 7,
        },
        DenseRow {
            coefs: &[-1, 4],
            least: -3,
        },
    ],
};

/// x from 0 to 1, with 2^40 x >= 1.
const STEEP: DenseModel<'static> = DenseModel {
    costs: &[0],
    lows: &[0],
    highs: &[1],
    rows: &[DenseRow {
        coefs: &[1_099_511_627_776],
        least: 1,
    }],
};

/// 257 columns from 0 to 1, of which one is 1.
const LONG: DenseModel<'static> = DenseModel {
    costs: &[0; 257],
    lows: &[0; 257],
    highs: &[1; 257],
    rows: &[DenseRow {
        coefs: &[1; 257],
        least: 1,
    }],
};

/// A model, a derivation over it, and what that gives.
struct Case {
    model: DenseModel<'static>,
    plain: Plain,
    terms: &'static [Term],
    least: i64,
}

/// The first row of the model, with weight 1.
const FIRST: &[Pair] = &[Pair {
    row: RowRef::Model(0),
    weight: 1,
}];

const CASES: [Case; 5] = [
    Case {
        model: PAIR,
        plain: Plain::Gomory(FIRST, 2),
        terms: &[Term { col: 0, coef: 1 }, Term { col: 1, coef: 1 }],
        least: 2,
    },
    Case {
        model: TRIPLE,
        plain: Plain::Cover(RowRef::Model(0), &[0, 1]),
        terms: &[Term { col: 0, coef: -1 }, Term { col: 1, coef: -1 }],
        least: -1,
    },
    // 3(x - 2) + 2(y + 1) >= 3, and by 2: 2(x - 2) + (y + 1) >= 2
    Case {
        model: SHIFTED,
        plain: Plain::Gomory(FIRST, 2),
        terms: &[Term { col: 0, coef: 2 }, Term { col: 1, coef: 1 }],
        least: 5,
    },
    // the sum of 1 and 3 times the rows is 14y >= -2, which is 14(y + 1) >= 12, and by 5: 3(y + 1) >= 3
    Case {
        model: SHIFTED,
        plain: Plain::Gomory(
            &[
                Pair {
                    row: RowRef::Model(0),
                    weight: 1,
                },
                Pair {
                    row: RowRef::Cut(1),
                    weight: 3,
                },
            ],
            5,
        ),
        terms: &[Term { col: 1, coef: 3 }],
        least: 0,
    },
    Case {
        model: TRIPLE,
        plain: Plain::Cover(RowRef::Cut(0), &[0, 2]),
        terms: &[Term { col: 0, coef: -1 }, Term { col: 2, coef: -1 }],
        least: -1,
    },
];

fn gives_so(alloc: Global, case: &Case) -> Result<bool, CutError> {
    let Some(model) = model_of(alloc, &case.model)? else {
        return Ok(false);
    };
    let row = derive_again(alloc, &model, case.plain)?;
    Ok(row.terms.as_slice() == case.terms && row.least == case.least)
}

/// The first case that isn't as it says.
fn first_wrong_case(alloc: Global) -> Result<Option<usize>, CutError> {
    for (at, case) in CASES.iter().enumerate() {
        if !gives_so(alloc, case)? {
            return Ok(Some(at));
        }
    }
    Ok(None)
}

#[test]
fn rows_are_derived(rt: HostRuntime) -> Result<(), Fail> {
    assert_eq!(rt; first_wrong_case(rt.alloc())?, None);
    Ok(())
}

/// A derivation that is refused, and why.
struct Refused {
    model: DenseModel<'static>,
    plain: Plain,
    refusal: Refusal,
}

const REFUSED: [Refused; 12] = [
    // no part and no divisor, but an unknown row in front
    Refused {
        model: PAIR,
        plain: Plain::Gomory(
            &[Pair {
                row: RowRef::Cut(0),
                weight: 0,
            }],
            0,
        ),
        refusal: Refusal::UnknownRow,
    },
    Refused {
        model: PAIR,
        plain: Plain::Cover(RowRef::Model(1), &[]),
        refusal: Refusal::UnknownRow,
    },
    Refused {
        model: PAIR,
        plain: Plain::Gomory(FIRST, 0),
        refusal: Refusal::BadNumbers,
    },
    Refused {
        model: PAIR,
        plain: Plain::Gomory(FIRST, 4_611_686_018_427_387_905),
        refusal: Refusal::BadNumbers,
    },
    Refused {
        model: STEEP,
        plain: Plain::Gomory(
            &[Pair {
                row: RowRef::Model(0),
                weight: 1_099_511_627_777,
            }],
            1,
        ),
        refusal: Refusal::BadNumbers,
    },
    Refused {
        model: TRIPLE,
        plain: Plain::Cover(RowRef::Model(0), &[]),
        refusal: Refusal::BadNumbers,
    },
    Refused {
        model: TRIPLE,
        plain: Plain::Cover(RowRef::Model(0), &[1, 1]),
        refusal: Refusal::BadNumbers,
    },
    Refused {
        model: TRIPLE,
        plain: Plain::Cover(RowRef::Model(0), &[0, 7, 9]),
        refusal: Refusal::NotBinary { col: 7 },
    },
    Refused {
        model: SHIFTED,
        plain: Plain::Cover(RowRef::Model(0), &[0]),
        refusal: Refusal::NotBinary { col: 0 },
    },
    Refused {
        model: TRIPLE,
        plain: Plain::Cover(RowRef::Model(0), &[0]),
        refusal: Refusal::NotCover,
    },
    Refused {
        model: STEEP,
        plain: Plain::Gomory(
            &[Pair {
                row: RowRef::Model(0),
                weight: 1_024,
            }],
            1,
        ),
        refusal: Refusal::TooWide,
    },
    Refused {
        model: LONG,
        plain: Plain::Gomory(FIRST, 1),
        refusal: Refusal::TooLong,
    },
];

fn is_refused_so(alloc: Global, case: &Refused) -> Result<bool, OutOfMemory> {
    let Some(model) = model_of(alloc, &case.model)? else {
        return Ok(false);
    };
    match derive_alone(alloc, &model, case.plain) {
        Ok(_row) => Ok(false),
        Err(error) => Ok(error.refusal() == Some(case.refusal)),
    }
}

/// The first derivation that isn't refused as it says.
fn first_wrong_refusal(alloc: Global) -> Result<Option<usize>, OutOfMemory> {
    for (at, case) in REFUSED.iter().enumerate() {
        if !is_refused_so(alloc, case)? {
            return Ok(Some(at));
        }
    }
    Ok(None)
}

#[test]
fn derivations_are_refused(rt: HostRuntime) -> Result<(), Fail> {
    assert_eq!(rt; first_wrong_refusal(rt.alloc())?, None);
    Ok(())
}

/// The point of a number, whose digits to the base 4 are counted from the low of each column.
fn point_of(alloc: Global, lows: &[i64], number: u32) -> Result<Point, OutOfMemory> {
    let mut values = List::new(alloc);
    let mut left = number;
    for low in lows {
        values.push(low.wrapping_add(i64::from(left % 4)))?;
        left /= 4;
    }
    Ok(Point::of(values))
}

fn is_met(row: &Row, values: &[i64]) -> bool {
    let mut sum = 0i64;
    for term in row.terms.as_slice() {
        let value = values.get(term.col as usize).copied().unwrap_or(0);
        sum = sum.wrapping_add(term.coef.wrapping_mul(value));
    }
    row.least <= sum
}

/// Whether some feasible point doesn't meet the row of a case.
fn cuts_off(alloc: Global, case: &Case) -> Result<bool, CutError> {
    let Some(model) = model_of(alloc, &case.model)? else {
        return Ok(true);
    };
    let row = derive_again(alloc, &model, case.plain)?;
    for number in 0..64u32 {
        let point = point_of(alloc, case.model.lows, number)?;
        if is_feasible(&model, &point) && !is_met(&row, point.values()) {
            return Ok(true);
        }
    }
    Ok(false)
}

/// The first case whose row cuts off a feasible point.
fn first_cut_off(alloc: Global) -> Result<Option<usize>, CutError> {
    for (at, case) in CASES.iter().enumerate() {
        if cuts_off(alloc, case)? {
            return Ok(Some(at));
        }
    }
    Ok(None)
}

#[test]
fn no_feasible_point_is_cut_off(rt: HostRuntime) -> Result<(), Fail> {
    assert_eq!(rt; first_cut_off(rt.alloc())?, None);
    Ok(())
}
