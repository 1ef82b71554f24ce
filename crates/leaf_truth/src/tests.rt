ghost use Rattle.std.specs.Prelude.{IfOk};
ghost use Rattle.ip_core.specs.Boxes.{IsWithin};

use crate::*;
use ip_core::{
    Bounds, Closing, Leaf, List, Model, ModelParts, Name, OutOfMemory, Pair, Row, RowRef, Term,
    Text, Tighten,
};
use std::alloc::Global;
use std::test::Fail;

fn numbers(alloc: Global, values: &[i64]) -> Result<List<i64>, OutOfMemory> {
    Ok(List::of(Vec::from_slice(alloc, values)?))
}

fn row(alloc: Global, coefs: &[i64], least: i64) -> Result<Row, OutOfMemory> {
    let mut terms = List::new(alloc);
    let mut col = 0u32;
    for coef in coefs {
        if *coef != 0 {
            terms.push(Term { col, coef: *coef })?;
        }
        col = col.wrapping_add(1);
    }
    Ok(Row { terms, least })
}

fn bounds(alloc: Global, lows: &[i64], highs: &[i64]) -> Result<Option<Bounds>, OutOfMemory> {
    let lows = numbers(alloc, lows)?;
    let highs = numbers(alloc, highs)?;
    if lows.len() < 100 {
        Ok(Bounds::of(lows, highs))
    } else {
        Ok(None)
    }
}

/// A model of three columns from 0 on, in plain numbers: costs, highs, and two rows with their coefficients.
#[derive(Clone, Copy, Debug)]
struct Plain {
    costs: [i64; 3],
    highs: [i64; 3],
    rows: [([i64; 3], i64); 2],
}

fn model(alloc: Global, plain: Plain) -> Result<Model, Fail> {
    let mut rows = List::new(alloc);
    for (coefs, least) in plain.rows {
        rows.push(row(alloc, &coefs, least)?)?;
    }
    let mut cols = List::new(alloc);
    for letter in b"xyz" {
        let mut name = Text::new(alloc);
        name.push(*letter)?;
        cols.push(Name::of(name).ok_or("a name")?)?;
    }
    Ok(Model::of(ModelParts {
        name: Name::of(Text::new(alloc)).ok_or("a name")?,
        cols,
        costs: numbers(alloc, &plain.costs)?,
        constant: 0,
        decimals: 0,
        maximise: false,
        root: bounds(alloc, &[0, 0, 0], &plain.highs)?.ok_or("a box")?,
        rows,
    })
    .ok_or("a model")?)
}

/// The least of x in 0 to 5 with 2x = 3.
const ODD: Plain = Plain {
    costs: [1, 0, 0],
    highs: [5, 0, 0],
    rows: [([2, 0, 0], 3), ([-2, 0, 0], -3)],
};

/// The least of x in 0 to 5 with 2x >= 3.
const SINGLE: Plain = Plain {
    costs: [1, 0, 0],
    highs: [5, 0, 0],
    rows: [([2, 0, 0], 3), ([0, 0, 0], 0)],
};

/// 2x + 2y + 2z = 3 in 0 to 1, without costs.
const HALVES: Plain = Plain {
    costs: [0, 0, 0],
    highs: [1, 1, 1],
    rows: [([2, 2, 2], 3), ([-2, -2, -2], -3)],
};

const FIRST: RowRef = RowRef::Model(0);

const SECOND: RowRef = RowRef::Model(1);

/// A row that no model here has.
const THIRD: RowRef = RowRef::Model(2);

/// The model's rows where they stand again as cuts.
const FIRST_CUT: RowRef = RowRef::Cut(0);

const SECOND_CUT: RowRef = RowRef::Cut(1);

/// A tightening by a row: of a column's low, or else of its high.
type Step = (RowRef, u32, bool);

/// Pairs of a row and a multiplier.
type Pairs = &'static [(RowRef, u64)];

/// What closes a box.
#[derive(Clone, Copy, Debug)]
enum End {
    Conflict(RowRef),
    Empty(u32),
    Bound(Pairs),
}

/// A leaf with what is said of it: the model, whether its rows stand again as cuts, the low and the high of x, the
/// cutoff, the steps, what closes the box, and why the leaf doesn't hold.
type Case = (
    Plain,
    bool,
    (i64, i64),
    i64,
    &'static [Step],
    End,
    Option<LeafReason>,
);

const STEP: Option<LeafReason> = Some(LeafReason::BadStep);

const CONFLICT: Option<LeafReason> = Some(LeafReason::BadConflict);

const BOUND: Option<LeafReason> = Some(LeafReason::BadBound);

/// All of x, where it is 0 to 5; and no value of it.
const ALL: (i64, i64) = (0, 5);

const NO_VALUE: (i64, i64) = (1, 0);

/// The low of x, raised by the first row.
const RAISE: &[Step] = &[(FIRST, 0, true)];

const BY_SECOND: End = End::Conflict(SECOND);

const STEPS_AND_CONFLICTS: [Case; 19] = [
    // an odd number isn't twice a whole one
    (ODD, false, ALL, 6, RAISE, BY_SECOND, None),
    (
        ODD,
        false,
        ALL,
        6,
        &[(SECOND, 0, false)],
        End::Conflict(FIRST),
        None,
    ),
    (
        ODD,
        true,
        ALL,
        6,
        &[(FIRST_CUT, 0, true)],
        End::Conflict(SECOND_CUT),
        None,
    ),
    (
        HALVES,
        false,
        (0, 0),
        1,
        &[(FIRST, 1, true), (FIRST, 2, true)],
        BY_SECOND,
        None,
    ),
    (
        HALVES,
        false,
        (1, 1),
        1,
        &[(SECOND, 1, false), (SECOND, 2, false)],
        End::Conflict(FIRST),
        None,
    ),
    // the same on too large a box, without the step, and with the other row
    (
        HALVES,
        false,
        (0, 1),
        1,
        &[(FIRST, 1, true), (FIRST, 2, true)],
        BY_SECOND,
        CONFLICT,
    ),
    (ODD, false, ALL, 6, &[], BY_SECOND, CONFLICT),
    (ODD, false, ALL, 6, RAISE, End::Conflict(FIRST), CONFLICT),
    (ODD, false, ALL, 6, RAISE, End::Conflict(THIRD), CONFLICT),
    // a row or a column that isn't there, a column that isn't in the row, and the other side
    (
        ODD,
        false,
        ALL,
        6,
        &[(THIRD, 0, true)],
        End::Conflict(THIRD),
        STEP,
    ),
    (ODD, false, ALL, 6, &[(FIRST_CUT, 0, true)], BY_SECOND, STEP),
    (ODD, false, ALL, 6, &[(FIRST, 3, true)], BY_SECOND, STEP),
    (ODD, false, ALL, 6, &[(FIRST, 1, true)], BY_SECOND, STEP),
    (ODD, false, ALL, 6, &[(FIRST, 0, false)], BY_SECOND, STEP),
    // an empty column before a step, at a conflict, and as what closes the box
    (ODD, false, NO_VALUE, 6, RAISE, BY_SECOND, STEP),
    (ODD, false, NO_VALUE, 6, &[], BY_SECOND, CONFLICT),
    (ODD, false, NO_VALUE, 6, &[], End::Empty(0), None),
    (ODD, false, ALL, 6, &[], End::Empty(0), CONFLICT),
    (ODD, false, NO_VALUE, 6, &[], End::Empty(3), CONFLICT),
];

const BOUNDS: [Case; 13] = [
    // 2x >= 3 makes x at least 2: 3 times 342 is above 1,024, and 3 times 341 isn't
    (
        SINGLE,
        false,
        ALL,
        2,
        &[],
        End::Bound(&[(FIRST, 342)]),
        None,
    ),
    (
        SINGLE,
        false,
        ALL,
        2,
        &[],
        End::Bound(&[(FIRST, 341)]),
        BOUND,
    ),
    (
        SINGLE,
        false,
        ALL,
        3,
        &[],
        End::Bound(&[(FIRST, 342)]),
        BOUND,
    ),
    (
        SINGLE,
        true,
        ALL,
        2,
        &[],
        End::Bound(&[(FIRST, 171), (FIRST_CUT, 171)]),
        None,
    ),
    // the low that the step raises bounds x by itself
    (SINGLE, false, ALL, 2, RAISE, End::Bound(&[]), None),
    (SINGLE, false, ALL, 2, &[], End::Bound(&[]), BOUND),
    (SINGLE, false, ALL, 0, &[], End::Bound(&[(FIRST, 0)]), None),
    // rows that don't rise or don't exist, a multiplier above 2^40, and an empty column
    (
        SINGLE,
        false,
        ALL,
        0,
        &[],
        End::Bound(&[(FIRST, 0), (FIRST, 0)]),
        BOUND,
    ),
    (
        SINGLE,
        true,
        ALL,
        0,
        &[],
        End::Bound(&[(FIRST_CUT, 0), (FIRST, 0)]),
        BOUND,
    ),
    (
        SINGLE,
        false,
        ALL,
        0,
        &[],
        End::Bound(&[(FIRST_CUT, 0)]),
        BOUND,
    ),
    (
        SINGLE,
        false,
        ALL,
        -10_000_000_000,
        &[],
        End::Bound(&[(FIRST, 1_099_511_627_776)]),
        None,
    ),
    (
        SINGLE,
        false,
        ALL,
        -10_000_000_000,
        &[],
        End::Bound(&[(FIRST, 1_099_511_627_777)]),
        BOUND,
    ),
    (SINGLE, false, NO_VALUE, 0, &[], End::Bound(&[]), BOUND),
];

fn steps_of(alloc: Global, steps: &[Step]) -> Result<List<Tighten>, OutOfMemory> {
    let mut list = List::new(alloc);
    for &(row, col, low) in steps {
        list.push(Tighten { row, col, low })?;
    }
    Ok(list)
}

fn closing_of(alloc: Global, end: End) -> Result<Closing, OutOfMemory> {
    match end {
        End::Conflict(name) => Ok(Closing::Conflict(name)),
        End::Empty(col) => Ok(Closing::Empty(col)),
        End::Bound(pairs) => {
            let mut list = List::new(alloc);
            for &(row, weight) in pairs {
                list.push(Pair { row, weight })?;
            }
            Ok(Closing::Bound(list))
        }
    }
}

/// The root box with x in `low` to `high`.
fn part_of(alloc: Global, root: &Bounds, low: i64, high: i64) -> Result<Bounds, Fail>
    ensures { IfOk result (λ part. IsWithin root.now part) }
{
    let mut part = root.copy(alloc)?;
    if part.lows().is_empty() {
        return Err("a column".into());
    }
    part.cut_low(0, low);
    part.cut_high(0, high);
    Ok(part)
}

fn is_so(alloc: Global, case: &Case) -> Result<bool, Fail> {
    let (plain, again, (low, high), cutoff, steps, end, reason) = *case;
    let model = model(alloc, plain)?;
    let parts = model.parts();
    let rows = parts.rows.as_slice();
    let cuts = if again { rows } else { &rows[..0] };
    let mut bounds = part_of(alloc, &parts.root, low, high)?;
    let mut scratch = Scratch::of(alloc, &model, cuts)?;
    let leaf = Leaf {
        steps: steps_of(alloc, steps)?,
        closing: closing_of(alloc, end)?,
    };
    let found = leaf_reason(&model, cuts, &mut bounds, cutoff, &leaf, &mut scratch);
    Ok(found == reason)
}

/// The first case that isn't so.
fn first_wrong(alloc: Global, cases: &[Case]) -> Result<Option<usize>, Fail> {
    for (place, case) in cases.iter().enumerate() {
        if !is_so(alloc, case)? {
            return Ok(Some(place));
        }
    }
    Ok(None)
}

#[test]
fn leaves_of_steps_and_conflicts(rt: HostRuntime) -> Result<(), Fail> {
    let wrong = first_wrong(rt.alloc(), &STEPS_AND_CONFLICTS)?;
    assert_eq!(rt; wrong, None);
    Ok(())
}

#[test]
fn leaves_of_bounds(rt: HostRuntime) -> Result<(), Fail> {
    let wrong = first_wrong(rt.alloc(), &BOUNDS)?;
    assert_eq!(rt; wrong, None);
    Ok(())
}

#[test]
fn pairs_of_multipliers_above_none(rt: HostRuntime) -> Result<(), Fail> {
    let pairs = pairs_of(rt.alloc(), 2, &[0, 7, 9, 0])?;
    let wanted = [
        Pair {
            row: SECOND,
            weight: 7,
        },
        Pair {
            row: FIRST_CUT,
            weight: 9,
        },
    ];
    assert!(rt; pairs.as_slice() == wanted.as_slice());
    Ok(())
}
