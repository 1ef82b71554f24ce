ghost use Rattle.std.specs.Prelude.{◌≡◌, length};
ghost use Rattle.ip_core.specs.Boxes.{IsWithin};
ghost use Rattle.ip_core.specs.Sides.{HasNoEmpty};
ghost use Rattle.safe_bound.specs.Premises.{AreCuts};

use crate::*;
use dual_ascent::Ascent;
use ip_core::dense::{DenseModel, DenseRow};
use ip_core::{Bounds, List, Model, OutOfMemory, Point, Row};
use std::alloc::Global;
use std::test::Fail;

/// A point with these values.
fn point_of(alloc: Global, values: &[i64]) -> Result<Point, OutOfMemory> {
    Ok(Point::of(List::of(Vec::from_slice(alloc, values)?)))
}

/// How a step is to end, and with what work.
#[derive(Clone, Copy, Debug)]
enum Wanted {
    On(u64),
    Found(&'static [i64], u64),
    Stuck(u64),
}

/// Whether a step ended so.
fn is_wanted(run: &DiveRun, wanted: Wanted) -> bool {
    match (&run.end, wanted) {
        (DiveEnd::On, Wanted::On(work)) => run.work == work,
        (DiveEnd::Found(point), Wanted::Found(values, work)) => {
            point.values() == values && run.work == work
        }
        (DiveEnd::Stuck, Wanted::Stuck(work)) => run.work == work,
        _ => false,
    }
}

/// A dive from a model's root box towards a point: how its first step ends and, where that goes on, its second, and the
/// box after them. The model's rows may stand once more as cuts.
struct Case {
    dense: DenseModel<'static>,
    again: bool,
    values: &'static [i64],
    first: Wanted,
    second: Option<Wanted>,
    lows: &'static [i64],
    highs: &'static [i64],
}

/// Two columns from 0 to 1, and no row.
const PAIR: DenseModel<'static> = DenseModel {
    costs: &[0, 0],
    lows: &[0, 0],
    highs: &[1, 1],
    rows: &[],
};

/// x in 0 to 5 with 2x >= 3.
const SINGLE: DenseModel<'static> = DenseModel {
    costs: &[1],
    lows: &[0],
    highs: &[5],
    rows: &[DenseRow {
        coefs: &[2],
        least: 3,
    }],
};

/// z in 0 to 1, and x and y in 0 to 20 with x >= y + 1 and y >= x. Each pass takes one value off both ends of x and y.
const SLOW: DenseModel<'static> = DenseModel {
    costs: &[0, 0, 0],
    lows: &[0, 0, 0],
    highs: &[1, 20, 20],
    rows: &[
        DenseRow {
            coefs: &[0, 1, -1],
            least: 1,
        },
        DenseRow {
            coefs: &[0, -1, 1],
            least: 0,
        },
    ],
};

/// x in 2 to 2 and y in -3 to 4.
const HALF_FIXED: DenseModel<'static> = DenseModel {
    costs: &[1, 1],
    lows: &[2, -3],
    highs: &[2, 4],
    rows: &[],
};

const CASES: [Case; 7] = [
    Case {
        dense: PAIR,
        again: false,
        values: &[0, 0],
        first: Wanted::On(1),
        second: Some(Wanted::Found(&[0, 0], 1)),
        lows: &[0, 0],
        highs: &[0, 0],
    },
    // 2x >= 3 fails at 0.
    Case {
        dense: SINGLE,
        again: false,
        values: &[0],
        first: Wanted::Stuck(2),
        second: None,
        lows: &[0],
        highs: &[0],
    },
    // 9 is moved to 5.
    Case {
        dense: SINGLE,
        again: false,
        values: &[9],
        first: Wanted::Found(&[5], 2),
        second: None,
        lows: &[5],
        highs: &[5],
    },
    // The row stands again as a cut, so a pass counts its terms twice.
    Case {
        dense: SINGLE,
        again: true,
        values: &[2],
        first: Wanted::Found(&[2], 3),
        second: None,
        lows: &[2],
        highs: &[2],
    },
    // The first column is fixed already, and -8 is moved to -3.
    Case {
        dense: HALF_FIXED,
        again: false,
        values: &[7, -8],
        first: Wanted::Found(&[2, -3], 1),
        second: None,
        lows: &[2, -3],
        highs: &[2, -3],
    },
    // A box that is fixed at first stays.
    Case {
        dense: DenseModel {
            lows: &[0, 1],
            highs: &[0, 1],
            ..PAIR
        },
        again: false,
        values: &[1, 0],
        first: Wanted::Found(&[0, 1], 1),
        second: None,
        lows: &[0, 1],
        highs: &[0, 1],
    },
    // The tenth pass fixes x and y at 10, where x >= y + 1 fails.
    Case {
        dense: SLOW,
        again: false,
        values: &[0, 0, 0],
        first: Wanted::On(50),
        second: Some(Wanted::Stuck(5)),
        lows: &[0, 10, 10],
        highs: &[0, 10, 10],
    },
];

/// Whether one or two steps of a dive end as they are to.
fn ends_so(
    alloc: Global,
    model: &Model,
    cuts: &[Row],
    bounds: &mut Bounds,
    point: &Point,
    case: &Case,
) -> Result<bool, OutOfMemory>
    requires cuts { AreCuts model.now cuts.now }
    requires within { IsWithin model.now.root bounds.old }
    requires solid { HasNoEmpty bounds.old }
    requires one_each { length point.now ≡ length model.now.cols }
{
    let run = dive_step(alloc, model, cuts, bounds, point)?;
    if !is_wanted(&run, case.first) {
        return Ok(false);
    }
    match (run.end, case.second) {
        (DiveEnd::On, Some(wanted)) => {
            let next = dive_step(alloc, model, cuts, bounds, point)?;
            Ok(is_wanted(&next, wanted))
        }
        (_, second) => Ok(second.is_none()),
    }
}

/// Whether the dive of a case goes so, from the model's root box.
#[tactic(auto, using(ip_core::proofs::NarrowerBoxes::within_itself))]
fn goes_so(alloc: Global, model: &Model, case: &Case) -> Result<bool, OutOfMemory> {
    let parts = model.parts();
    let point = point_of(alloc, case.values)?;
    let mut bounds = parts.root.copy(alloc)?;
    if point.values().len() != parts.cols.len() || bounds.first_empty().is_some() {
        return Ok(false);
    }
    let rows = parts.rows.as_slice();
    let cuts = if case.again { rows } else { &rows[..0] };
    if !ends_so(alloc, model, cuts, &mut bounds, &point, case)? {
        return Ok(false);
    }
    Ok(bounds.lows() == case.lows && bounds.highs() == case.highs)
}

/// The first case that goes otherwise.
fn first_wrong_case(alloc: Global, cases: &[Case]) -> Result<Option<usize>, OutOfMemory> {
    for (at, case) in cases.iter().enumerate() {
        let Some(model) = case.dense.build(alloc)? else {
            return Ok(Some(at));
        };
        if !goes_so(alloc, &model, case)? {
            return Ok(Some(at));
        }
    }
    Ok(None)
}

#[test]
fn dives(rt: HostRuntime) -> Result<(), Fail> {
    assert_eq!(rt; first_wrong_case(rt.alloc(), &CASES)?, None);
    Ok(())
}

/// Points of 2x >= 3 with x in 0 to 5, and whether each is feasible: the last has a value too many.
const ROUNDED: [(&[i64], bool); 5] = [
    (&[1], false),
    (&[2], true),
    (&[5], true),
    (&[6], false),
    (&[2, 2], false),
];

/// Whether an ascent's point is given again exactly where it is feasible.
fn rounds_so(
    alloc: Global,
    model: &Model,
    values: &[i64],
    feasible: bool,
) -> Result<bool, OutOfMemory> {
    let ascent = Ascent {
        mults: List::new(alloc),
        bound: 0,
        point: point_of(alloc, values)?,
        work: 0,
    };
    match round(alloc, model, &ascent)? {
        Some(point) => Ok(feasible && point.values() == values),
        None => Ok(!feasible),
    }
}

/// The first point that is rounded otherwise.
fn first_wrong_point(
    alloc: Global,
    points: &[(&[i64], bool)],
) -> Result<Option<usize>, OutOfMemory> {
    let Some(model) = SINGLE.build(alloc)? else {
        return Ok(Some(points.len()));
    };
    for (at, (values, feasible)) in points.iter().enumerate() {
        if !rounds_so(alloc, &model, values, *feasible)? {
            return Ok(Some(at));
        }
    }
    Ok(None)
}

#[test]
fn rounds(rt: HostRuntime) -> Result<(), Fail> {
    assert_eq!(rt; first_wrong_point(rt.alloc(), &ROUNDED)?, None);
    Ok(())
}
