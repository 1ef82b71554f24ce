ghost use Rattle.std.specs.Prelude.{◌≡◌, ◌↔◌, length, IsTrue};
ghost use Rattle.ip_core.specs.Sides.{IsInside};
ghost use Rattle.safe_bound.specs.Premises.{AreSmall};

use crate::*;
use ip_core::dense::{DenseModel, DenseRow};
use ip_core::{Bounds, Derivation, List, Model, OutOfMemory, Pair, Point, RowRef, Term};
use safe_bound::MAX_MULTIPLIER;
use std::alloc::Global;
use std::test::Fail;

/// A derivation in plain numbers.
#[derive(Clone, Copy, Debug)]
enum Plain {
    Gomory(&'static [Pair], u64),
    Cover(RowRef, &'static [u32]),
}

/// x from 0 to 5, with 2x >= 3.
const SINGLE: DenseModel<'static> = DenseModel {
    costs: &[1],
    lows: &[0],
    highs: &[5],
    rows: &[DenseRow {
        coefs: &[2],
        least: 3,
    }],
};

/// x, y and z from 0 to 1, with -3x - 3y - 3z >= -5.
const TRIPLE: DenseModel<'static> = DenseModel {
    costs: &[0, 0, 0],
    lows: &[0, 0, 0],
    highs: &[1, 1, 1],
    rows: &[DenseRow {
        coefs: &[-3, -3, -3],
        least: -5,
    }],
};

/// The first row of the model, with weight 1.
const FIRST: &[Pair] = &[Pair {
    row: RowRef::Model(0),
    weight: 1,
}];

fn are_small(mults: &[u64]) -> bool
    ensures { IsTrue result ↔ AreSmall mults.now }
{
    mults.iter().all(|&mult| mult <= MAX_MULTIPLIER)
}

fn is_inside(root: &Bounds, values: &[i64]) -> bool
    requires { length values.now ≡ length root.now.lows }
    ensures { IsTrue result ↔ IsInside root.now values.now }
{
    let lows = root.lows();
    let highs = root.highs();
    for j in 0..values.len() {
        if values[j] < lows[j] || highs[j] < values[j] {
            return false;
        }
    }
    true
}

/// The cuts that a point of a model's root box gives with multipliers, and none where these don't fit the model.
#[tactic(auto, using(crate::proofs::Nearness::inside_near))]
fn separate_alone(
    alloc: Global,
    model: &Model,
    values: &[i64],
    mults: &[u64],
) -> Result<List<NewCut>, OutOfMemory> {
    let parts = model.parts();
    if values.len() != parts.cols.len() || mults.len() != parts.rows.len() {
        return Ok(List::new(alloc));
    }
    if !is_inside(&parts.root, values) || !are_small(mults) {
        return Ok(List::new(alloc));
    }
    let point = Point::of(List::of(Vec::from_slice(alloc, values)?));
    separate(alloc, model, &[], &point, mults)
}

/// A cut in plain numbers.
struct PlainCut {
    plain: Plain,
    terms: &'static [Term],
    least: i64,
}

/// A model, a point and multipliers, and the cuts that these give.
struct Separated {
    model: DenseModel<'static>,
    values: &'static [i64],
    mults: &'static [u64],
    cuts: &'static [PlainCut],
}

const SEPARATED: [Separated; 3] = [
    Separated {
        model: SINGLE,
        values: &[0],
        mults: &[512],
        cuts: &[
            PlainCut {
                plain: Plain::Gomory(FIRST, 2),
                terms: &[Term { col: 0, coef: 1 }],
                least: 2,
            },
            PlainCut {
                plain: Plain::Gomory(
                    &[Pair {
                        row: RowRef::Model(0),
                        weight: 512,
                    }],
                    2_048,
                ),
                terms: &[Term { col: 0, coef: 1 }],
                least: 1,
            },
        ],
    },
    // at x = 2 the model's row holds, and so do all that follow from it
    Separated {
        model: SINGLE,
        values: &[2],
        mults: &[512],
        cuts: &[],
    },
    // -3x - 3y - 3z >= -5 is -x - y - z >= -1 by 3, and x and y are more than the row leaves, which is 5
    Separated {
        model: TRIPLE,
        values: &[1, 1, 1],
        mults: &[0],
        cuts: &[
            PlainCut {
                plain: Plain::Gomory(FIRST, 3),
                terms: &[
                    Term { col: 0, coef: -1 },
                    Term { col: 1, coef: -1 },
                    Term { col: 2, coef: -1 },
                ],
                least: -1,
            },
            PlainCut {
                plain: Plain::Cover(RowRef::Model(0), &[0, 1]),
                terms: &[Term { col: 0, coef: -1 }, Term { col: 1, coef: -1 }],
                least: -1,
            },
        ],
    },
];

fn is_plain(derivation: &Derivation, plain: &Plain) -> bool {
    match (derivation, plain) {
        (Derivation::Gomory { parts, divisor }, Plain::Gomory(pairs, number)) => {
            parts.as_slice() == *pairs && divisor == number
        }
        (Derivation::Cover { row, cols }, Plain::Cover(name, list)) => {
            row == name && cols.as_slice() == *list
        }
        _ => false,
    }
}

fn is_plain_cut(cut: &NewCut, plain: &PlainCut) -> bool {
    is_plain(&cut.derivation, &plain.plain)
        && cut.row.terms.as_slice() == plain.terms
        && cut.row.least == plain.least
}

fn are_plain_cuts(cuts: &[NewCut], plain: &[PlainCut]) -> bool {
    if cuts.len() != plain.len() {
        return false;
    }
    for (cut, expected) in cuts.iter().zip(plain) {
        if !is_plain_cut(cut, expected) {
            return false;
        }
    }
    true
}

fn separates_so(alloc: Global, case: &Separated) -> Result<bool, OutOfMemory> {
    let Some(model) = case.model.build(alloc)? else {
        return Ok(false);
    };
    let cuts = separate_alone(alloc, &model, case.values, case.mults)?;
    Ok(are_plain_cuts(cuts.as_slice(), case.cuts))
}

/// The first case whose cuts aren't as it says.
fn first_wrong_separation(alloc: Global) -> Result<Option<usize>, OutOfMemory> {
    for (at, case) in SEPARATED.iter().enumerate() {
        if !separates_so(alloc, case)? {
            return Ok(Some(at));
        }
    }
    Ok(None)
}

#[test]
fn cuts_are_separated(rt: HostRuntime) -> Result<(), Fail> {
    assert_eq!(rt; first_wrong_separation(rt.alloc())?, None);
    Ok(())
}
