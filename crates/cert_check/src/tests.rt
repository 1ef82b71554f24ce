ghost use Rattle.std.specs.Prelude.{◌≤◌, ◌^◌, length, IfOk};
ghost use Rattle.tree_cert.specs.Trees.{IsTree};

use crate::{Verdict, Why, accepted_is_faultless, accepted_is_true, check};
use ip_core::dense::{DenseModel, DenseRow};
use ip_core::{Closing, Derivation, Leaf, List, OutOfMemory, Pair, Point, RowRef, Tighten};
use std::alloc::Global;
use std::test::Fail;
use tree_cert::{CertNode, Certificate};

/// The least x in 0 to 5 with 2x >= 3.
const SINGLE: DenseModel<'static> = DenseModel {
    costs: &[1],
    lows: &[0],
    highs: &[5],
    rows: &[DenseRow {
        coefs: &[2],
        least: 3,
    }],
};

/// The least x in 0 to 5 with 2x = 3.
const ODD: DenseModel<'static> = DenseModel {
    costs: &[1],
    lows: &[0],
    highs: &[5],
    rows: &[
        DenseRow {
            coefs: &[2],
            least: 3,
        },
        DenseRow {
            coefs: &[-2],
            least: -3,
        },
    ],
};

/// 2x + 2y + 2z = 3 in 0 to 1, without costs.
const HALVES: DenseModel<'static> = DenseModel {
    costs: &[0, 0, 0],
    lows: &[0, 0, 0],
    highs: &[1, 1, 1],
    rows: &[
        DenseRow {
            coefs: &[2, 2, 2],
            least: 3,
        },
        DenseRow {
            coefs: &[-2, -2, -2],
            least: -3,
        },
    ],
};

/// Tightenings, each by a row, of a column whose low is raised or whose high is lowered.
type Steps = &'static [(u32, u32, bool)];

/// A leaf: steps, and then a row that conflicts, or multipliers of rows.
#[derive(Clone, Copy, Debug)]
enum LeafPlan {
    Conflict(Steps, u32),
    Bound(Steps, &'static [Pair]),
}

/// A tree: one leaf, or a split (its column, the end of the low child, the beginning of the high one) with two.
#[derive(Clone, Copy, Debug)]
enum Plan {
    One(LeafPlan),
    Two(u32, i64, i64, LeafPlan, LeafPlan),
}

/// A cut: a row, its weight and the divisor.
type CutPlan = (RowRef, u64, u64);

/// The cuts of a certificate.
#[derive(Clone, Copy, Debug)]
enum Cuts {
    Zero,
    One(CutPlan),
    Two(CutPlan, CutPlan),
}

/// A certificate with what is said of it: the model, the numbers of columns and rows, the value, the point, the cuts,
/// the tree and the verdict.
type Case = (
    DenseModel<'static>,
    (u32, u32),
    i64,
    Option<&'static [i64]>,
    Cuts,
    Plan,
    Verdict,
);

const RAISED: Plan = Plan::One(LeafPlan::Conflict(&[(0, 0, true)], 1));

const BOUND_342: Plan = Plan::One(LeafPlan::Bound(
    &[],
    &[Pair {
        row: RowRef::Model(0),
        weight: 342,
    }],
));

const BOUND_341: Plan = Plan::One(LeafPlan::Bound(
    &[],
    &[Pair {
        row: RowRef::Model(0),
        weight: 341,
    }],
));

/// No row is needed once the low is raised by the first one.
const RAISED_TO_TWO: Plan = Plan::One(LeafPlan::Bound(&[(0, 0, true)], &[]));

/// A multiplier of the first cut that bounds x >= 2 at 2, a lesser one, and the same of the second cut.
const FIRST_CUT_513: Plan = Plan::One(LeafPlan::Bound(
    &[],
    &[Pair {
        row: RowRef::Cut(0),
        weight: 513,
    }],
));

const FIRST_CUT_512: Plan = Plan::One(LeafPlan::Bound(
    &[],
    &[Pair {
        row: RowRef::Cut(0),
        weight: 512,
    }],
));

const SECOND_CUT_513: Plan = Plan::One(LeafPlan::Bound(
    &[],
    &[Pair {
        row: RowRef::Cut(1),
        weight: 513,
    }],
));

/// x >= 2 from 2x >= 3, and then x >= 1 from it with a great weight.
const HALF: CutPlan = (RowRef::Model(0), 1, 2);

const SMALL: CutPlan = (RowRef::Model(0), 512, 2_048);

/// A cut again, as it is.
const AGAIN: CutPlan = (RowRef::Cut(0), 1, 1);

const NO_DIVISOR: CutPlan = (RowRef::Model(0), 1, 0);

/// The cut behind the first one.
const LATER: CutPlan = (RowRef::Cut(1), 1, 1);

/// What closes the halves with x at 0, and at 1.
const LOW: LeafPlan = LeafPlan::Conflict(&[(0, 1, true), (0, 2, true)], 1);

const HIGH: LeafPlan = LeafPlan::Conflict(&[(1, 1, false), (1, 2, false)], 0);

/// A step of a column that isn't there, before a row that isn't there.
const NO_STEP: LeafPlan = LeafPlan::Conflict(&[(0, 3, true)], 2);

const CASES: [Case; 26] = [
    // the models that are called 2, 4 and 9, each with its certificate
    (ODD, (1, 2), 6, None, Cuts::Zero, RAISED, Verdict::Accepted),
    (
        SINGLE,
        (1, 1),
        2,
        Some(&[2]),
        Cuts::Zero,
        BOUND_342,
        Verdict::Accepted,
    ),
    (
        HALVES,
        (3, 2),
        1,
        None,
        Cuts::Zero,
        Plan::Two(0, 0, 1, LOW, HIGH),
        Verdict::Accepted,
    ),
    // a lesser multiplier, and a split that leaves out a value
    (
        SINGLE,
        (1, 1),
        2,
        Some(&[2]),
        Cuts::Zero,
        BOUND_341,
        Verdict::Rejected {
            line: 7,
            why: Why::Bound,
        },
    ),
    (
        HALVES,
        (3, 2),
        1,
        None,
        Cuts::Zero,
        Plan::Two(0, 0, 2, LOW, HIGH),
        Verdict::Rejected {
            line: 7,
            why: Why::SplitGap,
        },
    ),
    // each line: its own reasons before those of the next lines, and the least of them
    (
        SINGLE,
        (1, 2),
        3,
        Some(&[6]),
        Cuts::One(NO_DIVISOR),
        BOUND_341,
        Verdict::Rejected {
            line: 2,
            why: Why::Size,
        },
    ),
    (
        SINGLE,
        (2, 1),
        2,
        Some(&[2]),
        Cuts::Zero,
        BOUND_342,
        Verdict::Rejected {
            line: 2,
            why: Why::Size,
        },
    ),
    (
        SINGLE,
        (1, 1),
        3,
        Some(&[1]),
        Cuts::One(NO_DIVISOR),
        BOUND_341,
        Verdict::Rejected {
            line: 3,
            why: Why::PointValue,
        },
    ),
    (
        HALVES,
        (3, 2),
        0,
        None,
        Cuts::Zero,
        Plan::Two(0, 0, 2, LOW, HIGH),
        Verdict::Rejected {
            line: 3,
            why: Why::PointValue,
        },
    ),
    (
        SINGLE,
        (1, 1),
        3,
        Some(&[6]),
        Cuts::One(NO_DIVISOR),
        BOUND_341,
        Verdict::Rejected {
            line: 4,
            why: Why::PointBounds,
        },
    ),
    (
        SINGLE,
        (1, 1),
        3,
        Some(&[2, 2]),
        Cuts::One(NO_DIVISOR),
        BOUND_341,
        Verdict::Rejected {
            line: 4,
            why: Why::PointBounds,
        },
    ),
    (
        SINGLE,
        (1, 1),
        1,
        Some(&[1]),
        Cuts::One(NO_DIVISOR),
        BOUND_341,
        Verdict::Rejected {
            line: 4,
            why: Why::PointRow,
        },
    ),
    (
        SINGLE,
        (1, 1),
        2,
        Some(&[2]),
        Cuts::One(NO_DIVISOR),
        BOUND_341,
        Verdict::Rejected {
            line: 6,
            why: Why::CutDerivation,
        },
    ),
    (
        HALVES,
        (3, 2),
        1,
        None,
        Cuts::Zero,
        Plan::Two(3, 0, 2, LOW, HIGH),
        Verdict::Rejected {
            line: 7,
            why: Why::SplitColumn,
        },
    ),
    (
        HALVES,
        (3, 2),
        1,
        None,
        Cuts::Zero,
        Plan::Two(0, 0, 1, NO_STEP, HIGH),
        Verdict::Rejected {
            line: 8,
            why: Why::Step,
        },
    ),
    (
        HALVES,
        (3, 2),
        1,
        None,
        Cuts::Zero,
        Plan::Two(0, 0, 1, HIGH, LOW),
        Verdict::Rejected {
            line: 8,
            why: Why::Conflict,
        },
    ),
    (
        HALVES,
        (3, 2),
        1,
        None,
        Cuts::Zero,
        Plan::Two(0, 0, 1, LOW, LOW),
        Verdict::Rejected {
            line: 9,
            why: Why::Conflict,
        },
    ),
    // a point at an end of the root box, whose value is too great
    (
        SINGLE,
        (1, 1),
        5,
        Some(&[5]),
        Cuts::Zero,
        BOUND_342,
        Verdict::Rejected {
            line: 7,
            why: Why::Bound,
        },
    ),
    // the model that is called 4 with its two cuts
    (
        SINGLE,
        (1, 1),
        2,
        Some(&[2]),
        Cuts::Two(HALF, SMALL),
        RAISED_TO_TWO,
        Verdict::Accepted,
    ),
    // leaves over a cut and over a cut over a cut, and one whose multiplier of a cut is too small
    (
        SINGLE,
        (1, 1),
        2,
        Some(&[2]),
        Cuts::One(HALF),
        FIRST_CUT_513,
        Verdict::Accepted,
    ),
    (
        SINGLE,
        (1, 1),
        2,
        Some(&[2]),
        Cuts::Two(HALF, AGAIN),
        SECOND_CUT_513,
        Verdict::Accepted,
    ),
    (
        SINGLE,
        (1, 1),
        2,
        Some(&[2]),
        Cuts::Two(HALF, AGAIN),
        FIRST_CUT_512,
        Verdict::Rejected {
            line: 9,
            why: Why::Bound,
        },
    ),
    // a leaf over a cut that isn't there
    (
        SINGLE,
        (1, 1),
        2,
        Some(&[2]),
        Cuts::One(HALF),
        SECOND_CUT_513,
        Verdict::Rejected {
            line: 8,
            why: Why::Bound,
        },
    ),
    // cuts over a later cut and over themselves, and a second cut with a bad divisor
    (
        SINGLE,
        (1, 1),
        2,
        Some(&[2]),
        Cuts::Two(LATER, HALF),
        RAISED_TO_TWO,
        Verdict::Rejected {
            line: 6,
            why: Why::CutDerivation,
        },
    ),
    (
        SINGLE,
        (1, 1),
        2,
        Some(&[2]),
        Cuts::Two(AGAIN, HALF),
        RAISED_TO_TWO,
        Verdict::Rejected {
            line: 6,
            why: Why::CutDerivation,
        },
    ),
    (
        SINGLE,
        (1, 1),
        2,
        Some(&[2]),
        Cuts::Two(HALF, NO_DIVISOR),
        BOUND_341,
        Verdict::Rejected {
            line: 7,
            why: Why::CutDerivation,
        },
    ),
];

fn steps_of(alloc: Global, tightenings: Steps) -> Result<List<Tighten>, OutOfMemory> {
    let mut steps = List::new(alloc);
    for &(row, col, low) in tightenings {
        let row = RowRef::Model(row);
        steps.push(Tighten { row, col, low })?;
    }
    Ok(steps)
}

fn leaf_of(alloc: Global, plan: LeafPlan) -> Result<Leaf, OutOfMemory> {
    match plan {
        LeafPlan::Conflict(tightenings, row) => {
            let steps = steps_of(alloc, tightenings)?;
            let closing = Closing::Conflict(RowRef::Model(row));
            Ok(Leaf { steps, closing })
        }
        LeafPlan::Bound(tightenings, pairs) => {
            let steps = steps_of(alloc, tightenings)?;
            let closing = Closing::Bound(List::of(Vec::from_slice(alloc, pairs)?));
            Ok(Leaf { steps, closing })
        }
    }
}

fn nodes_of(alloc: Global, plan: Plan) -> Result<List<CertNode>, OutOfMemory>
    ensures tree { IfOk result (λ nodes. IsTree nodes) }
    ensures few { IfOk result (λ nodes. length nodes ≤ 2 ^ 30) }
{
    let mut nodes = List::new(alloc);
    match plan {
        Plan::One(leaf) => nodes.push(CertNode::Leaf(leaf_of(alloc, leaf)?))?,
        Plan::Two(col, at, next, low, high) => {
            nodes.push(CertNode::Split { col, at, next })?;
            nodes.push(CertNode::Leaf(leaf_of(alloc, low)?))?;
            nodes.push(CertNode::Leaf(leaf_of(alloc, high)?))?;
        }
    }
    Ok(nodes)
}

fn point_of(alloc: Global, values: Option<&[i64]>) -> Result<Option<Point>, OutOfMemory> {
    match values {
        Some(values) => Ok(Some(Point::of(List::of(Vec::from_slice(alloc, values)?)))),
        None => Ok(None),
    }
}

fn cut_of(alloc: Global, plan: CutPlan) -> Result<Derivation, OutOfMemory> {
    let (row, weight, divisor) = plan;
    let mut parts = List::new(alloc);
    parts.push(Pair { row, weight })?;
    Ok(Derivation::Gomory { parts, divisor })
}

fn cuts_of(alloc: Global, plan: Cuts) -> Result<List<Derivation>, OutOfMemory>
    ensures { IfOk result (λ cuts. length cuts ≤ 2 ^ 30) }
{
    let mut cuts = List::new(alloc);
    match plan {
        Cuts::Zero => {}
        Cuts::One(cut) => cuts.push(cut_of(alloc, cut)?)?,
        Cuts::Two(first, second) => {
            cuts.push(cut_of(alloc, first)?)?;
            cuts.push(cut_of(alloc, second)?)?;
        }
    }
    Ok(cuts)
}

fn is_so(alloc: Global, case: &Case) -> Result<bool, Fail> {
    let (dense, (cols, rows), value, values, cut_plans, plan, verdict) = *case;
    let model = dense.build(alloc)?.ok_or("a model")?;
    let nodes = nodes_of(alloc, plan)?;
    let certificate = Certificate {
        cols,
        rows,
        value,
        point: point_of(alloc, values)?,
        cuts: cuts_of(alloc, cut_plans)?,
        nodes,
    };
    Ok(check(alloc, &model, &certificate)? == verdict)
}

/// The first case that isn't so.
fn first_wrong(alloc: Global, cases: &[Case]) -> Result<Option<usize>, Fail> {
    for (place, case) in cases.iter().enumerate() {
        if !is_so(alloc, case)? {
            return Ok(Some(place));
        }
    }
    Ok(None)
}

#[test]
fn certificates_have_their_verdicts(rt: HostRuntime) -> Result<(), Fail> {
    accepted_is_faultless();
    accepted_is_true();
    let wrong = first_wrong(rt.alloc(), &CASES)?;
    assert_eq!(rt; wrong, None);
    Ok(())
}
