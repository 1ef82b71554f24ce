ghost use Rattle.std.specs.Prelude.{◌<◌, ◌≤◌, ◌^◌, length};
ghost use Rattle.ip_core.specs.Boxes.{IsWithin};
ghost use Rattle.ip_core.specs.Rows.{AreRows};
ghost use Rattle.ip_core.specs.Sides.{HasNoEmpty};

mod plain;

use crate::{Activities, Outcome, PassRun, conflict, propagate, tighten};
use ip_core::dense::{DenseModel, DenseRow};
use ip_core::{Bounds, List, Model, OutOfMemory, Row, RowRef, Tighten};
use plain::{PlainBox, PlainRow, plain_passes, step};
use std::alloc::Global;
use std::test::Fail;

/// The model of rows over three columns with these bounds, without costs. None where it is no model.
fn model_of(
    alloc: Global,
    lows: &[i64],
    highs: &[i64],
    rows: &[DenseRow],
) -> Result<Option<Model>, OutOfMemory> {
    let dense = DenseModel {
        costs: &[0, 0, 0],
        lows,
        highs,
        rows,
    };
    dense.build(alloc)
}

/// What passes come to: their run, the last box, and the real tightenings.
#[derive(Drop)]
struct Propagation {
    run: PassRun,
    bounds: Bounds,
    steps: List<Tighten>,
}

fn propagation_with(alloc: Global, model: &Model, cuts: &[Row]) -> Result<Propagation, OutOfMemory>
    requires few { length cuts.now ≤ 2 ^ 30 }
    requires cuts { AreRows (length model.now.cols) model.now.root cuts.now }
{
    let mut bounds = model.root().copy(alloc)?;
    let mut steps = List::new(alloc);
    let run = propagate(alloc, model, cuts, &mut bounds, &mut steps)?;
    Ok(Propagation { run, bounds, steps })
}

fn propagation_alone(alloc: Global, model: &Model) -> Result<Propagation, OutOfMemory> {
    propagation_with(alloc, model, &[])
}

fn propagation_again(alloc: Global, model: &Model) -> Result<Propagation, OutOfMemory> {
    let _limits = model.parts();
    propagation_with(alloc, model, model.rows())
}

/// The passes over a model's rows from its root box, with no cuts, or with its own rows as cuts again.
fn propagation_of(alloc: Global, model: &Model, again: bool) -> Result<Propagation, OutOfMemory> {
    if again {
        propagation_again(alloc, model)
    } else {
        propagation_alone(alloc, model)
    }
}

/// 2x >= 3 and 2x <= 3.
const DOUBLE: [DenseRow<'static>; 2] = [
    DenseRow {
        coefs: &[2, 0, 0],
        least: 3,
    },
    DenseRow {
        coefs: &[-2, 0, 0],
        least: -3,
    },
];

/// 2x + 2y + 2z = 3 as two rows.
const HALVES: [DenseRow<'static>; 2] = [
    DenseRow {
        coefs: &[2, 2, 2],
        least: 3,
    },
    DenseRow {
        coefs: &[-2, -2, -2],
        least: -3,
    },
];

/// x + y >= 4 and x + y <= 3.
const SUMS: [DenseRow<'static>; 2] = [
    DenseRow {
        coefs: &[1, 1, 0],
        least: 4,
    },
    DenseRow {
        coefs: &[-1, -1, 0],
        least: -3,
    },
];

/// x >= y + 1 and y >= x + 1: each pass raises both lows and lowers both highs by 2.
const CHASE: [DenseRow<'static>; 2] = [
    DenseRow {
        coefs: &[1, -1, 0],
        least: 1,
    },
    DenseRow {
        coefs: &[-1, 1, 0],
        least: 1,
    },
];

/// 3x - 5y >= 7.
const RIGHT: [DenseRow<'static>; 2] = [
    DenseRow {
        coefs: &[3, -5, 0],
        least: 7,
    },
    DenseRow {
        coefs: &[0, 0, 0],
        least: 0,
    },
];

/// The mirror image of `RIGHT`.
const LEFT: [DenseRow<'static>; 2] = [
    DenseRow {
        coefs: &[-3, 5, 0],
        least: 7,
    },
    DenseRow {
        coefs: &[0, 0, 0],
        least: 0,
    },
];

/// Rows without a term.
const NONE: [DenseRow<'static>; 2] = [
    DenseRow {
        coefs: &[0, 0, 0],
        least: 0,
    },
    DenseRow {
        coefs: &[0, 0, 0],
        least: 0,
    },
];

const ZERO: [i64; 3] = [0, 0, 0];

const BY_MODEL: Outcome = Outcome::Conflict(RowRef::Model(1));

const BY_CUT: Outcome = Outcome::Conflict(RowRef::Cut(1));

/// Rows over a box, whether they stand again as cuts, and what the passes come to: their run, the last box, and the
/// number of real tightenings.
struct Case {
    lows: [i64; 3],
    highs: [i64; 3],
    rows: [DenseRow<'static>; 2],
    again: bool,
    run: PassRun,
    last_lows: [i64; 3],
    last_highs: [i64; 3],
    steps: usize,
}

const CASES: [Case; 9] = [
    Case {
        lows: ZERO,
        highs: [5, 0, 0],
        rows: DOUBLE,
        again: false,
        run: PassRun {
            outcome: BY_MODEL,
            passes: 1,
            work: 3,
        },
        last_lows: [2, 0, 0],
        last_highs: [5, 0, 0],
        steps: 1,
    },
    Case {
        lows: ZERO,
        highs: [1, 1, 1],
        rows: HALVES,
        again: false,
        run: PassRun {
            outcome: Outcome::Open,
            passes: 1,
            work: 7,
        },
        last_lows: ZERO,
        last_highs: [1, 1, 1],
        steps: 0,
    },
    Case {
        lows: ZERO,
        highs: [3, 3, 0],
        rows: SUMS,
        again: false,
        run: PassRun {
            outcome: BY_MODEL,
            passes: 2,
            work: 10,
        },
        last_lows: [2, 2, 0],
        last_highs: [2, 2, 0],
        steps: 6,
    },
    Case {
        lows: ZERO,
        highs: [3, 3, 0],
        rows: SUMS,
        again: true,
        run: PassRun {
            outcome: BY_CUT,
            passes: 1,
            work: 9,
        },
        last_lows: [2, 2, 0],
        last_highs: [2, 2, 0],
        steps: 6,
    },
    Case {
        lows: ZERO,
        highs: [100, 100, 0],
        rows: CHASE,
        again: false,
        run: PassRun {
            outcome: Outcome::Open,
            passes: 10,
            work: 50,
        },
        last_lows: [19, 20, 0],
        last_highs: [80, 81, 0],
        steps: 40,
    },
    Case {
        lows: ZERO,
        highs: [4, 4, 4],
        rows: RIGHT,
        again: false,
        run: PassRun {
            outcome: Outcome::Open,
            passes: 2,
            work: 6,
        },
        last_lows: [3, 0, 0],
        last_highs: [4, 1, 4],
        steps: 2,
    },
    Case {
        lows: [-4, -4, -4],
        highs: ZERO,
        rows: LEFT,
        again: false,
        run: PassRun {
            outcome: Outcome::Open,
            passes: 2,
            work: 6,
        },
        last_lows: [-4, -1, -4],
        last_highs: [-3, 0, 0],
        steps: 2,
    },
    Case {
        lows: [0, 4, 7],
        highs: [9, 3, 6],
        rows: HALVES,
        again: false,
        run: PassRun {
            outcome: Outcome::Empty(1),
            passes: 0,
            work: 0,
        },
        last_lows: [0, 4, 7],
        last_highs: [9, 3, 6],
        steps: 0,
    },
    Case {
        lows: ZERO,
        highs: [4, 4, 4],
        rows: NONE,
        again: false,
        run: PassRun {
            outcome: Outcome::Open,
            passes: 1,
            work: 1,
        },
        last_lows: ZERO,
        last_highs: [4, 4, 4],
        steps: 0,
    },
];

fn is_passed(passed: &Propagation, case: &Case) -> bool {
    passed.run == case.run
        && passed.bounds.lows() == case.last_lows.as_slice()
        && passed.bounds.highs() == case.last_highs.as_slice()
        && passed.steps.len() == case.steps
}

fn ends_so(alloc: Global, case: &Case) -> Result<bool, OutOfMemory> {
    let Some(model) = model_of(alloc, &case.lows, &case.highs, &case.rows)? else {
        return Ok(false);
    };
    let passed = propagation_of(alloc, &model, case.again)?;
    Ok(is_passed(&passed, case))
}

/// The first case that doesn't end as it says.
fn first_wrong_case(alloc: Global, cases: &[Case]) -> Result<Option<usize>, OutOfMemory> {
    for (at, case) in cases.iter().enumerate() {
        if !ends_so(alloc, case)? {
            return Ok(Some(at));
        }
    }
    Ok(None)
}

#[test]
fn propagates(rt: HostRuntime) -> Result<(), Fail> {
    assert_eq!(rt; first_wrong_case(rt.alloc(), &CASES)?, None);
    Ok(())
}

/// Whether the passes over these rows, from lows of 0, list these tightenings.
fn lists(
    alloc: Global,
    highs: &[i64],
    rows: &[DenseRow],
    again: bool,
    wanted: &[Tighten],
) -> Result<bool, OutOfMemory> {
    let Some(model) = model_of(alloc, &ZERO, highs, rows)? else {
        return Ok(false);
    };
    let passed = propagation_of(alloc, &model, again)?;
    Ok(passed.steps.as_slice() == wanted)
}

#[test]
fn lists_one_step(rt: HostRuntime) -> Result<(), Fail> {
    let wanted = [step(RowRef::Model(0), 0, true)];
    assert!(rt; lists(rt.alloc(), &[5, 0, 0], &DOUBLE, false, &wanted)?);
    Ok(())
}

#[test]
fn lists_steps_in_order(rt: HostRuntime) -> Result<(), Fail> {
    let wanted = [
        step(RowRef::Model(0), 0, true),
        step(RowRef::Model(0), 1, true),
        step(RowRef::Model(1), 0, false),
        step(RowRef::Model(1), 1, false),
        step(RowRef::Cut(0), 0, true),
        step(RowRef::Cut(0), 1, true),
    ];
    assert!(rt; lists(rt.alloc(), &[3, 3, 0], &SUMS, true, &wanted)?);
    Ok(())
}

/// A column of rows over a box: whether the first row conflicts there, whether it tightens a low or a high of the column,
/// and the column's bounds then.
struct Judged {
    lows: [i64; 3],
    highs: [i64; 3],
    rows: [DenseRow<'static>; 2],
    col: u32,
    conflicts: bool,
    step: Option<Tighten>,
    bounds: (i64, i64),
}

const RAISED: Option<Tighten> = Some(Tighten {
    row: RowRef::Model(0),
    col: 0,
    low: true,
});

const LOWERED: Option<Tighten> = Some(Tighten {
    row: RowRef::Model(0),
    col: 1,
    low: false,
});

const JUDGED: [Judged; 5] = [
    Judged {
        lows: ZERO,
        highs: [1, 1, 1],
        rows: HALVES,
        col: 0,
        conflicts: false,
        step: None,
        bounds: (0, 1),
    },
    Judged {
        lows: ZERO,
        highs: ZERO,
        rows: HALVES,
        col: 0,
        conflicts: true,
        step: RAISED,
        bounds: (2, 0),
    },
    Judged {
        lows: [2, 0, 0],
        highs: [5, 0, 0],
        rows: DOUBLE,
        col: 0,
        conflicts: false,
        step: None,
        bounds: (2, 5),
    },
    Judged {
        lows: ZERO,
        highs: [4, 4, 0],
        rows: RIGHT,
        col: 0,
        conflicts: false,
        step: RAISED,
        bounds: (3, 4),
    },
    Judged {
        lows: ZERO,
        highs: [4, 4, 0],
        rows: RIGHT,
        col: 1,
        conflicts: false,
        step: LOWERED,
        bounds: (0, 1),
    },
];

/// Whether the first row of the case's model conflicts on the root box as it says.
fn conflicts_so(model: &Model, case: &Judged) -> bool {
    let _limits = model.parts();
    let rows = model.rows();
    if rows.is_empty() || model.root().first_empty().is_some() {
        return false;
    }
    conflict(&rows[0], model.root()) == case.conflicts
}

/// Whether the first row of the case's model tightens a column of the root box as it says.
fn tightens_so(alloc: Global, model: &Model, case: &Judged) -> Result<bool, OutOfMemory> {
    let parts = model.parts();
    let rows = parts.rows.as_slice();
    let mut bounds = parts.root.copy(alloc)?;
    if rows.is_empty() || bounds.lows().len() <= case.col as usize {
        return Ok(false);
    }
    if bounds.first_empty().is_some() {
        return Ok(false);
    }
    let step = tighten(&rows[0], RowRef::Model(0), &mut bounds, case.col);
    Ok(step == case.step && bounds.get(case.col) == case.bounds)
}

fn judges_so(alloc: Global, case: &Judged) -> Result<bool, OutOfMemory> {
    let Some(model) = model_of(alloc, &case.lows, &case.highs, &case.rows)? else {
        return Ok(false);
    };
    if !conflicts_so(&model, case) {
        return Ok(false);
    }
    tightens_so(alloc, &model, case)
}

/// The first case that isn't judged as it says.
fn first_misjudged(alloc: Global, cases: &[Judged]) -> Result<Option<usize>, OutOfMemory> {
    for (at, case) in cases.iter().enumerate() {
        if !judges_so(alloc, case)? {
            return Ok(Some(at));
        }
    }
    Ok(None)
}

#[test]
fn judges_one_row(rt: HostRuntime) -> Result<(), Fail> {
    assert_eq!(rt; first_misjudged(rt.alloc(), &JUDGED)?, None);
    Ok(())
}

/// The greatest activity of a model's first row over its root box, and then where column 0 is at most 0.
fn first_activities(alloc: Global, model: &Model) -> Result<Option<(i128, i128)>, OutOfMemory> {
    let root = model.root();
    let mut narrowed = root.copy(alloc)?;
    if model.rows().len() == 0 || narrowed.lows().len() == 0 {
        return Ok(None);
    }
    narrowed.cut_high(0, 0);
    if root.first_empty().is_some() || narrowed.first_empty().is_some() {
        return Ok(None);
    }
    activities_before_and_after(alloc, model, &narrowed)
}

/// The greatest activity of a model's first row over its root box, and then where column 0 has gone to its ends in
/// another box within it.
fn activities_before_and_after(
    alloc: Global,
    model: &Model,
    narrowed: &Bounds,
) -> Result<Option<(i128, i128)>, OutOfMemory>
    requires row { 0 < length model.now.rows }
    requires column { 0 < length narrowed.now.lows }
    requires solid { HasNoEmpty model.now.root }
    requires narrow { HasNoEmpty narrowed.now }
    requires within { IsWithin model.now.root narrowed.now }
{
    let root = model.root();
    let mut kept = Activities::of(alloc, model, &model.rows()[..0], root)?;
    let before = kept.greatest(0);
    kept.moved(0, root.get(0), narrowed.get(0));
    Ok(Some((before, kept.greatest(0))))
}

/// The same of rows over a box from lows of 0.
fn dense_activities(
    alloc: Global,
    highs: &[i64],
    rows: &[DenseRow],
) -> Result<Option<(i128, i128)>, OutOfMemory> {
    let Some(model) = model_of(alloc, &ZERO, highs, rows)? else {
        return Ok(None);
    };
    first_activities(alloc, &model)
}

#[test]
fn keeps_activities(rt: HostRuntime) -> Result<(), Fail> {
    let found = dense_activities(rt.alloc(), &[1, 1, 1], &HALVES)?;
    assert_eq!(rt; found, Some((6, 4)));
    Ok(())
}

/// The next state of a chain of draws.
fn next_state(state: u64) -> u64 {
    state
        .wrapping_mul(6364136223846793005)
        .wrapping_add(1442695040888963407)
}

/// A number from -`most` to `most`, the one at a place among those of a seed.
fn drawn_number(seed: u64, place: u64, most: u32) -> i64 {
    let state = next_state(next_state(seed.wrapping_mul(100).wrapping_add(place)));
    let range = u64::from(most).wrapping_mul(2).wrapping_add(1);
    let above = (state >> 33).checked_rem(range).unwrap_or(0);
    (above as u32 as i64).wrapping_sub(i64::from(most))
}

/// Three numbers in turn, times a scale.
fn three_numbers(seed: u64, place: u64, most: u32, scale: i64) -> [i64; 3] {
    [
        drawn_number(seed, place, most).wrapping_mul(scale),
        drawn_number(seed, place.wrapping_add(1), most).wrapping_mul(scale),
        drawn_number(seed, place.wrapping_add(2), most).wrapping_mul(scale),
    ]
}

fn moved(numbers: [i64; 3], by: i64) -> [i64; 3] {
    [
        numbers[0].wrapping_add(by),
        numbers[1].wrapping_add(by),
        numbers[2].wrapping_add(by),
    ]
}

/// The scales of a drawn model's bounds and of its coefficients: every fourth model has large numbers.
fn scales_of(seed: u64) -> (i64, i64) {
    if seed % 4 == 3 {
        (1 << 27, 1 << 12)
    } else {
        (1, 1)
    }
}

/// The box of a drawn model before any tightening. Some columns are empty.
fn drawn_box(alloc: Global, seed: u64) -> PlainBox {
    let (scale, _) = scales_of(seed);
    PlainBox {
        lows: moved(three_numbers(seed, 0, 6, scale), scale.wrapping_neg()),
        highs: moved(three_numbers(seed, 3, 6, scale), scale.wrapping_mul(4)),
        steps: Vec::new(alloc),
    }
}

/// Whether passes over rows come to what plain passes come to.
fn agrees(
    alloc: Global,
    state: &mut PlainBox,
    rows: &[DenseRow],
    plain_rows: &[PlainRow],
    again: bool,
) -> Result<bool, OutOfMemory> {
    let Some(model) = model_of(alloc, &state.lows, &state.highs, rows)? else {
        return Ok(false);
    };
    let passed = propagation_of(alloc, &model, again)?;
    let (outcome, passes) = plain_passes(plain_rows, state)?;
    Ok(passed.run.outcome == outcome && passed.run.passes == passes && is_same(&passed, state))
}

/// Whether box and tightenings are those of plain passes.
fn is_same(passed: &Propagation, state: &PlainBox) -> bool {
    passed.bounds.lows() == state.lows.as_slice()
        && passed.bounds.highs() == state.highs.as_slice()
        && passed.steps.as_slice() == state.steps.as_slice()
}

fn plain_row<'a>(name: RowRef, row: DenseRow<'a>) -> PlainRow<'a> {
    PlainRow {
        name,
        coefs: row.coefs,
        least: row.least,
    }
}

/// Whether passes over two rows, which may stand again as cuts, come to what plain passes come to.
fn agrees_on_rows<'a>(
    alloc: Global,
    state: &mut PlainBox,
    first: DenseRow<'a>,
    second: DenseRow<'a>,
    again: bool,
) -> Result<bool, OutOfMemory> {
    let whole = [
        plain_row(RowRef::Model(0), first),
        plain_row(RowRef::Model(1), second),
        plain_row(RowRef::Cut(0), first),
        plain_row(RowRef::Cut(1), second),
    ];
    let rows = [first, second];
    if again {
        agrees(alloc, state, &rows, &whole, true)
    } else {
        agrees(alloc, state, &rows, &whole[..2], false)
    }
}

/// Whether passes over a drawn model come to what plain passes come to. Every third has its rows as cuts again.
fn agrees_drawn(alloc: Global, seed: u64) -> Result<bool, OutOfMemory> {
    let mut state = drawn_box(alloc, seed);
    let (scale, coef_scale) = scales_of(seed);
    let coefs = three_numbers(seed, 6, 5, coef_scale);
    let more_coefs = three_numbers(seed, 9, 5, coef_scale);
    let leasts = three_numbers(seed, 12, 30, scale.wrapping_mul(coef_scale));
    let first = DenseRow {
        coefs: &coefs,
        least: leasts[0],
    };
    let second = DenseRow {
        coefs: &more_coefs,
        least: leasts[1],
    };
    agrees_on_rows(alloc, &mut state, first, second, seed % 3 == 1)
}

/// The first of `count` drawn models on which the passes differ.
fn first_difference(alloc: Global, count: u64) -> Result<Option<u64>, OutOfMemory> {
    for seed in 0..count {
        if !agrees_drawn(alloc, seed)? {
            return Ok(Some(seed));
        }
    }
    Ok(None)
}

#[test]
fn agrees_with_plain_passes(rt: HostRuntime) -> Result<(), Fail> {
    assert_eq!(rt; first_difference(rt.alloc(), 100)?, None);
    Ok(())
}
