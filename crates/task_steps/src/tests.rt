ghost use Rattle.std.specs.Prelude.{◌≡◌, IfOk, IfSome};
ghost use Rattle.stamp_machine.specs.Limits.{AreLimits};
ghost use Rattle.task_steps.specs.Truth.{IsTrueAnswer};

use crate::{
    Answer, Search, Status, answer_of, answers_are_true, best_nodes_are_taken, histories_are_read,
    limits_are_met, records_hold,
};
use ip_core::dense::{DenseModel, DenseRow};
use ip_core::{Derivation, List, OutOfMemory};
use node_pool::SearchSettings;
use stamp_machine::{History, Limits, run_alone};
use std::alloc::Global;
use std::test::Fail;
use work_stamp::Entry;

/// By splits alone.
const SPLITS: SearchSettings = SearchSettings {
    cuts: false,
    heuristics: false,
};

/// With cuts.
const CUTS: SearchSettings = SearchSettings {
    cuts: true,
    heuristics: false,
};

/// With dives.
const DIVES: SearchSettings = SearchSettings {
    cuts: false,
    heuristics: true,
};

/// With cuts and dives.
const CUTS_AND_DIVES: SearchSettings = SearchSettings {
    cuts: true,
    heuristics: true,
};

/// The search of a model in plain numbers.
fn search_of(alloc: Global, dense: &DenseModel, settings: SearchSettings) -> Result<Search, Fail> {
    let model = dense.build(alloc)?.ok_or("a model")?;
    Ok(Search::new(model, settings))
}

/// The least x in 0 to 1.
const UNIT: DenseModel<'static> = DenseModel {
    costs: &[1],
    lows: &[0],
    highs: &[1],
    rows: &[],
};

/// The least x in 0 to 5 with 2x at least 3.
const DOUBLED: DenseModel<'static> = DenseModel {
    costs: &[1],
    lows: &[0],
    highs: &[5],
    rows: &[DenseRow {
        coefs: &[2],
        least: 3,
    }],
};

/// 46 columns in 0 to 1 with cost 1.
const UNITS_46: DenseModel<'static> = DenseModel {
    costs: &[1; 46],
    lows: &[0; 46],
    highs: &[1; 46],
    rows: &[],
};

/// One column less.
const UNITS_45: DenseModel<'static> = DenseModel {
    costs: &[1; 45],
    lows: &[0; 45],
    highs: &[1; 45],
    rows: &[],
};

/// 2x + 2y + 2z = 3 in 0 to 1, without costs.
const ODD: DenseModel<'static> = DenseModel {
    costs: &[0, 0, 0],
    lows: &[0, 0, 0],
    highs: &[1, 1, 1],
    rows: &[
        DenseRow {
            coefs: &[2, 2, 2],
            least: 3,
        },
        DenseRow {
            coefs: &[-2, -2, -2],
            least: -3,
        },
    ],
};

/// 2 times the sum of seven columns in 0 to 1 is 7, without costs.
const ODD_SEVEN: DenseModel<'static> = DenseModel {
    costs: &[0; 7],
    lows: &[0; 7],
    highs: &[1; 7],
    rows: &[
        DenseRow {
            coefs: &[2; 7],
            least: 7,
        },
        DenseRow {
            coefs: &[-2; 7],
            least: -7,
        },
    ],
};

/// The least y with x in 0 to 1, y in 0 to 2, 2x - 3y at least -5 and x + 3y at least 4.
const ROUNDED: DenseModel<'static> = DenseModel {
    costs: &[0, 1],
    lows: &[0, 0],
    highs: &[1, 2],
    rows: &[
        DenseRow {
            coefs: &[2, -3],
            least: -5,
        },
        DenseRow {
            coefs: &[1, 3],
            least: 4,
        },
    ],
};

/// The least -3x + y in 0 to 3 with -3x + 4y at least 2 and x + y at most 3.
const STEPPED: DenseModel<'static> = DenseModel {
    costs: &[-3, 1],
    lows: &[0, 0],
    highs: &[3, 3],
    rows: &[
        DenseRow {
            coefs: &[-3, 4],
            least: 2,
        },
        DenseRow {
            coefs: &[-1, -1],
            least: -3,
        },
    ],
};

/// x + y = 2 in 0 to 1, without costs.
const BOTH: DenseModel<'static> = DenseModel {
    costs: &[0, 0],
    lows: &[0, 0],
    highs: &[1, 1],
    rows: &[
        DenseRow {
            coefs: &[1, 1],
            least: 2,
        },
        DenseRow {
            coefs: &[-1, -1],
            least: -2,
        },
    ],
};

/// The greatest 5x + 4y + 3z in 0 to 3 with 2x + 3y + z at most 5, 4x + y + 2z at most 11 and
/// 3x + 4y + 2z at most 8.
const PRODUCTS: DenseModel<'static> = DenseModel {
    costs: &[-5, -4, -3],
    lows: &[0, 0, 0],
    highs: &[3, 3, 3],
    rows: &[
        DenseRow {
            coefs: &[-2, -3, -1],
            least: -5,
        },
        DenseRow {
            coefs: &[-4, -1, -2],
            least: -11,
        },
        DenseRow {
            coefs: &[-3, -4, -2],
            least: -8,
        },
    ],
};

/// The machine's history with its answer, which is true by the laws.
fn answer(alloc: Global, search: &Search, limits: &Limits) -> Result<(History, Answer), OutOfMemory>
    requires { AreLimits limits.now }
    ensures { IfOk result (λ both. IsTrueAnswer search.now.model both.1) }
{
    let history = run_alone(alloc, search, limits)?;
    histories_are_read(search, limits);
    answers_are_true(search, limits);
    limits_are_met(search, limits);
    records_hold(search, limits);
    best_nodes_are_taken();
    let answer = answer_of(alloc, search.model(), &history)?;
    Ok((history, answer))
}

// The numbers of the kinds of entries.
const START: u64 = 1;

const FOUND: u64 = 2;

const SPLIT: u64 = 3;

const CLOSED: u64 = 4;

const DONE: u64 = 5;

const HALT: u64 = 6;

const CUT_START: u64 = 7;

const CUT: u64 = 8;

const DIVE: u64 = 9;

/// The value -1 as a word.
const MINUS_ONE: u64 = 18_446_744_073_709_551_615;

/// The number of an entry's kind, and its node with a split's first child, its value, or a cut's
/// divisor with the weight of its one part.
fn kind_row(entry: &Entry) -> [u64; 3] {
    match entry {
        Entry::Start { node } => [START, *node, 0],
        Entry::Found { value, .. } => [FOUND, value.cast_unsigned(), 0],
        Entry::Split { node, first, .. } => [SPLIT, *node, *first],
        Entry::Closed { node } => [CLOSED, *node, 0],
        Entry::Done => [DONE, 0, 0],
        Entry::Halt => [HALT, 0, 0],
        Entry::CutStart => [CUT_START, 0, 0],
        Entry::HeurStart { node } => [DIVE, *node, 0],
        Entry::Cut { derivation } => cut_row(derivation),
    }
}

fn cut_row(derivation: &Derivation) -> [u64; 3] {
    match derivation {
        Derivation::Gomory { parts, divisor } => match parts.as_slice() {
            [part] => [CUT, *divisor, part.weight],
            _ => [0, 0, 0],
        },
        Derivation::Cover { .. } => [0, 0, 0],
    }
}

/// Whether a history has these entries, each with its stamp and its slot before its kind, and these
/// ends.
fn has_rows(
    alloc: Global,
    history: &History,
    wanted: &[[u64; 5]],
    ends: &[u64],
) -> Result<bool, OutOfMemory> {
    let mut rows = List::new(alloc);
    for item in history.entries.as_slice() {
        let [kind, first, second] = kind_row(&item.entry);
        rows.push([
            item.key.stamp,
            u64::from(item.key.slot),
            kind,
            first,
            second,
        ])?;
    }
    Ok(rows.as_slice() == wanted && history.ends.as_slice() == ends)
}

/// Whether an answer has this status, and a best point with this value, or none.
fn is_answer(answer: &Answer, status: Status, wanted: Option<(i64, &[i64])>) -> bool {
    if answer.status != status {
        return false;
    }
    match (&answer.best, wanted) {
        (Some(best), Some((value, point))) => best.value == value && best.point.values() == point,
        (None, None) => true,
        _ => false,
    }
}

/// A run of the search of a model by one slot or two, what its history is, and what it answers.
#[derive(Clone, Copy)]
struct Run {
    dense: DenseModel<'static>,
    settings: SearchSettings,
    slots: u32,
    work: u64,
    store: u32,
    rows: &'static [[u64; 5]],
    ends: &'static [u64],
    status: Status,
    best: Option<(i64, &'static [i64])>,
}

const RUNS: [Run; 11] = [
    // The chunk counts 1, a pass of 1 and twelve rounds of 1. Slot 1 finds nothing open at stamp
    // 0, waits until 1,000, and is over then.
    Run {
        dense: UNIT,
        settings: SPLITS,
        slots: 2,
        work: 200_000_000,
        store: 2_097_152,
        rows: &[
            [0, 0, START, 0, 0],
            [14, 0, FOUND, 0, 0],
            [14, 0, CLOSED, 0, 0],
            [14, 0, DONE, 0, 0],
        ],
        ends: &[14, 1_000],
        status: Status::Optimal,
        best: Some((0, &[0])),
    },
    // The first chunk counts 1 + 13 * 4 + 16, and finds two cuts. The second counts 1 + 13 * 10 +
    // 48, and finds none. On the root's node one pass raises the low, after which nothing changes.
    Run {
        dense: DOUBLED,
        settings: CUTS,
        slots: 1,
        work: 200_000_000,
        store: 2_097_152,
        rows: &[
            [0, 0, CUT_START, 0, 0],
            [69, 0, CUT, 2, 1],
            [69, 0, CUT, 2_048, 512],
            [248, 0, DONE, 0, 0],
            [248, 0, START, 0, 0],
            [377, 0, FOUND, 2, 0],
            [377, 0, CLOSED, 0, 0],
            [377, 0, DONE, 0, 0],
        ],
        ends: &[377],
        status: Status::Optimal,
        best: Some((2, &[2])),
    },
    // The root is split after 1 + 7 + 11 * 19, and each child is closed by its passes.
    Run {
        dense: ODD,
        settings: SPLITS,
        slots: 1,
        work: 200_000_000,
        store: 2_097_152,
        rows: &[
            [0, 0, START, 0, 0],
            [217, 0, SPLIT, 0, 4],
            [225, 0, CLOSED, 4, 0],
            [225, 0, DONE, 0, 0],
            [225, 0, START, 5, 0],
            [240, 0, CLOSED, 5, 0],
            [240, 0, DONE, 0, 0],
        ],
        ends: &[240],
        status: Status::Infeasible,
        best: None,
    },
    // The same with a dive from the second child, before it is taken: two passes of 7 close its
    // box.
    Run {
        dense: ODD,
        settings: DIVES,
        slots: 1,
        work: 200_000_000,
        store: 2_097_152,
        rows: &[
            [0, 0, START, 0, 0],
            [217, 0, SPLIT, 0, 4],
            [225, 0, CLOSED, 4, 0],
            [225, 0, DONE, 0, 0],
            [225, 0, DIVE, 5, 0],
            [240, 0, DONE, 0, 0],
            [240, 0, START, 5, 0],
            [255, 0, CLOSED, 5, 0],
            [255, 0, DONE, 0, 0],
        ],
        ends: &[255],
        status: Status::Infeasible,
        best: None,
    },
    // The first chunk of the dive finds the ascent's point. The second fixes a column at its value,
    // and comes to the same point, which isn't below the cutoff.
    Run {
        dense: ROUNDED,
        settings: DIVES,
        slots: 1,
        work: 200_000_000,
        store: 2_097_152,
        rows: &[
            [0, 0, START, 0, 0],
            [167, 0, SPLIT, 0, 4],
            [173, 0, CLOSED, 4, 0],
            [173, 0, DONE, 0, 0],
            [173, 0, DIVE, 5, 0],
            [340, 0, FOUND, 1, 0],
            [346, 0, DONE, 0, 0],
            [346, 0, START, 5, 0],
            [513, 0, CLOSED, 5, 0],
            [513, 0, DONE, 0, 0],
        ],
        ends: &[513],
        status: Status::Optimal,
        best: Some((1, &[1, 1])),
    },
    // The ascent's point of the dive fails a row, and its second chunk finds a point.
    Run {
        dense: STEPPED,
        settings: DIVES,
        slots: 1,
        work: 200_000_000,
        store: 2_097_152,
        rows: &[
            [0, 0, START, 0, 0],
            [193, 0, SPLIT, 0, 4],
            [199, 0, CLOSED, 5, 0],
            [199, 0, DONE, 0, 0],
            [199, 0, DIVE, 4, 0],
            [403, 0, FOUND, MINUS_ONE, 0],
            [403, 0, DONE, 0, 0],
            [403, 0, START, 4, 0],
            [596, 0, CLOSED, 4, 0],
            [596, 0, DONE, 0, 0],
        ],
        ends: &[596],
        status: Status::Optimal,
        best: Some((-1, &[1, 2])),
    },
    Run {
        dense: UNIT,
        settings: SPLITS,
        slots: 1,
        work: 0,
        store: 2_097_152,
        rows: &[],
        ends: &[0],
        status: Status::WorkLimit,
        best: None,
    },
    Run {
        dense: UNIT,
        settings: SPLITS,
        slots: 1,
        work: 14,
        store: 2_097_152,
        rows: &[[0, 0, START, 0, 0]],
        ends: &[14],
        status: Status::WorkLimit,
        best: None,
    },
    Run {
        dense: UNIT,
        settings: SPLITS,
        slots: 1,
        work: 15,
        store: 2_097_152,
        rows: &[
            [0, 0, START, 0, 0],
            [14, 0, FOUND, 0, 0],
            [14, 0, CLOSED, 0, 0],
            [14, 0, DONE, 0, 0],
        ],
        ends: &[14],
        status: Status::Optimal,
        best: Some((0, &[0])),
    },
    // The entries of the chunk have 4 + 46 + 4 + 3 words, and the Start had 4, of 60 that the slot
    // may publish.
    Run {
        dense: UNITS_46,
        settings: SPLITS,
        slots: 1,
        work: 200_000_000,
        store: 64,
        rows: &[[0, 0, START, 0, 0], [14, 0, HALT, 0, 0]],
        ends: &[14],
        status: Status::StoreLimit,
        best: None,
    },
    // With one column less they are 60 words in all.
    Run {
        dense: UNITS_45,
        settings: SPLITS,
        slots: 1,
        work: 200_000_000,
        store: 64,
        rows: &[
            [0, 0, START, 0, 0],
            [14, 0, FOUND, 0, 0],
            [14, 0, CLOSED, 0, 0],
            [14, 0, DONE, 0, 0],
        ],
        ends: &[14],
        status: Status::Optimal,
        best: Some((0, &[0; 45])),
    },
];

/// Limits of one slot or two within their ranges.
fn limits_of(slots: u32, work: u64, store: u32) -> Option<Limits>
    ensures { IfSome result (λ limits. AreLimits limits) }
{
    if work > 1_000_000_000_000 || store < 64 || store > 2_097_152 {
        return None;
    }
    match slots {
        1 => Some(Limits {
            slots: 1,
            work,
            store,
        }),
        2 => Some(Limits {
            slots: 2,
            work,
            store,
        }),
        _ => None,
    }
}

/// Whether a run comes out as it is to.
fn is_as_wanted(alloc: Global, run: &Run) -> Result<bool, Fail> {
    let search = search_of(alloc, &run.dense, run.settings)?;
    let limits = limits_of(run.slots, run.work, run.store).ok_or("limits")?;
    let (history, answer) = answer(alloc, &search, &limits)?;
    let same = has_rows(alloc, &history, run.rows, run.ends)?;
    Ok(same && is_answer(&answer, run.status, run.best))
}

/// The first run that comes out otherwise.
fn unlike_runs(alloc: Global) -> Result<Option<usize>, Fail> {
    for k in 0..RUNS.len() {
        if !is_as_wanted(alloc, &RUNS[k])? {
            return Ok(Some(k));
        }
    }
    Ok(None)
}

#[test]
fn histories_follow_the_rules(rt: HostRuntime) -> Result<(), Fail> {
    assert!(rt; unlike_runs(rt.alloc())? == None);
    Ok(())
}

/// How many nodes were taken before each dive of a history.
fn starts_before_dives(alloc: Global, history: &History) -> Result<List<u64>, OutOfMemory> {
    let mut counts = List::new(alloc);
    let mut starts = 0u64;
    for item in history.entries.as_slice() {
        match &item.entry {
            Entry::Start { .. } => starts = starts.saturating_add(1),
            Entry::HeurStart { .. } => counts.push(starts)?,
            _ => {}
        }
    }
    Ok(counts)
}

/// Whether one slot dives from a node after the first, the ninth and the seventeenth start, and
/// after no other.
fn dives_when_due(alloc: Global) -> Result<bool, Fail> {
    let search = search_of(alloc, &ODD_SEVEN, DIVES)?;
    let limits = Limits {
        slots: 1,
        work: 200_000_000,
        store: 1_048_576,
    };
    let (history, answer) = answer(alloc, &search, &limits)?;
    let counts = starts_before_dives(alloc, &history)?;
    Ok(counts.as_slice() == [1, 9, 17].as_slice() && is_answer(&answer, Status::Infeasible, None))
}

#[test]
fn dives_come_in_turn(rt: HostRuntime) -> Result<(), Fail> {
    assert!(rt; dives_when_due(rt.alloc())?);
    Ok(())
}

/// Whether four slots find this best point of a model, with this value.
fn is_best(alloc: Global, dense: &DenseModel, value: i64, point: &[i64]) -> Result<bool, Fail> {
    let search = search_of(alloc, dense, CUTS_AND_DIVES)?;
    let limits = Limits {
        slots: 4,
        work: 200_000_000,
        store: 1_048_576,
    };
    let (_history, answer) = answer(alloc, &search, &limits)?;
    Ok(is_answer(&answer, Status::Optimal, Some((value, point))))
}

#[test]
fn best_points_are_found(rt: HostRuntime) -> Result<(), Fail> {
    assert!(rt; is_best(rt.alloc(), &PRODUCTS, -13, &[2, 0, 1])?);
    assert!(rt; is_best(rt.alloc(), &BOTH, 0, &[1, 1])?);
    Ok(())
}

/// Models of three columns in 0 to 2: the costs, and two rows of three coefficients and a right
/// side.
const MODELS: [[i64; 11]; 20] = [
    [1, 1, 1, 2, 3, 5, 13, 1, -1, 0, 0],
    [-5, -4, -3, -2, -3, -1, -5, -4, -1, -2, -11],
    [2, -3, 1, 3, 3, 0, 7, -3, -3, -6, -17],
    [1, 0, 0, 2, 2, 2, 3, -2, -2, -2, -3],
    [0, 0, 0, 1, 1, 1, 6, 0, 0, 0, 0],
    [-1, 7, -2, 5, -7, 3, 4, -4, 6, -9, -20],
    [3, 2, 1, 1, 2, 3, 7, -1, -1, -1, -4],
    [-3, -2, -1, -3, -2, -2, -7, 0, 1, 1, 1],
    [4, -5, 6, 2, -4, 1, -3, -2, 4, -1, 1],
    [1, 1, 1, 2, 4, 6, 7, -2, -4, -6, -7],
    [-7, 3, 5, -1, 1, 0, 0, 0, -1, 1, 0],
    [2, 2, 2, 3, 5, 7, 11, -3, -5, -7, -13],
    [1, -1, 0, 1, 1, 1, 4, -1, 2, -1, 1],
    [0, 0, 1, 4, -4, 2, 2, -4, 4, 2, 2],
    [5, 4, 3, 1, 1, 0, 3, 0, 1, 1, 3],
    [-1, -1, -1, -7, -5, -3, -16, -3, -5, -7, -16],
    [6, -6, 6, 0, 3, -3, -3, 3, 0, -3, -3],
    [9, 8, 7, 3, 2, 1, 12, 1, 2, 3, 12],
    [9, 8, 7, 3, 2, 1, 13, 0, 0, 0, -1],
    [-2, 5, -2, 1, -2, 1, 1, -1, 2, -1, -1],
];

/// Three coefficients times three numbers.
fn dot(a: i64, b: i64, c: i64, point: [i64; 3]) -> i64 {
    let [x, y, z] = point;
    a.wrapping_mul(x)
        .wrapping_add(b.wrapping_mul(y))
        .wrapping_add(c.wrapping_mul(z))
}

/// The least value of all points of a model that meet both rows, tried one after the other.
fn least(case: &[i64; 11]) -> Option<i64> {
    let mut least = None;
    for code in 0..27i64 {
        let point = [code % 3, code / 3 % 3, code / 9];
        let first = dot(case[3], case[4], case[5], point) >= case[6];
        let second = dot(case[7], case[8], case[9], point) >= case[10];
        if first && second {
            least = lesser(least, dot(case[0], case[1], case[2], point));
        }
    }
    least
}

fn lesser(least: Option<i64>, value: i64) -> Option<i64> {
    match least {
        Some(so_far) => Some(so_far.min(value)),
        None => Some(value),
    }
}

/// Whether the search of a model within limits has the least value of all points.
fn is_least(
    alloc: Global,
    case: &[i64; 11],
    limits: &Limits,
    settings: SearchSettings,
) -> Result<bool, Fail>
    requires { AreLimits limits.now }
{
    let dense = DenseModel {
        costs: &case[..3],
        lows: &[0, 0, 0],
        highs: &[2, 2, 2],
        rows: &[
            DenseRow {
                coefs: &case[3..6],
                least: case[6],
            },
            DenseRow {
                coefs: &case[7..10],
                least: case[10],
            },
        ],
    };
    let search = search_of(alloc, &dense, settings)?;
    let (_history, answer) = answer(alloc, &search, limits)?;
    let value = match &answer.best {
        Some(best) => Some(best.value),
        None => None,
    };
    let ended = answer.status == Status::Optimal || answer.status == Status::Infeasible;
    Ok(ended && value == least(case))
}

/// Whether so many slots have the least value, by splits alone, with cuts and dives, and with
/// dives.
fn is_least_on(alloc: Global, case: &[i64; 11], slots: u32) -> Result<bool, Fail>
    requires { AreLimits (record { slots = slots; work = 1000000; store = 10000 }) }
{
    let limits = Limits {
        slots,
        work: 1_000_000,
        store: 10_000,
    };
    Ok(
        is_least(alloc, case, &limits, SPLITS)?
            && is_least(alloc, case, &limits, CUTS_AND_DIVES)?
            && is_least(alloc, case, &limits, DIVES)?,
    )
}

/// The first model whose search differs from the enumeration of all its points, by 1, 2, 5 or 64
/// slots.
fn unlike_enumeration(alloc: Global) -> Result<Option<usize>, Fail> {
    for k in 0..MODELS.len() {
        let case = &MODELS[k];
        if !is_least_on(alloc, case, 1)? || !is_least_on(alloc, case, 2)? {
            return Ok(Some(k));
        }
        if !is_least_on(alloc, case, 5)? || !is_least_on(alloc, case, 64)? {
            return Ok(Some(k));
        }
    }
    Ok(None)
}

#[test]
fn agrees_with_an_enumeration(rt: HostRuntime) -> Result<(), Fail> {
    assert!(rt; unlike_enumeration(rt.alloc())? == None);
    Ok(())
}
