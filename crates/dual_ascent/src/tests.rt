ghost use Rattle.std.specs.Prelude.{◌≡◌, ◌^◌};

use crate::*;
use ip_core::dense::{DenseModel, DenseRow};
use ip_core::{Model, OutOfMemory};
use safe_bound::MAX_MULTIPLIER;
use std::alloc::Global;
use std::test::Fail;
use work_stamp::{NoPulse, Pulse};

/// The model of a dense model, without a contract.
fn model_of(alloc: Global, dense: &DenseModel) -> Result<Option<Model>, OutOfMemory> {
    dense.build(alloc)
}

/// The ascent over the root box.
#[tactic(auto, using(crate::proofs::AscentWork::ascent_work_allowed))]
fn ascent_alone(alloc: Global, model: &Model) -> Result<Ascent, OutOfMemory> {
    // The model's limits keep the ascent's work within the allowance.
    let _limits = model.parts();
    let mut pulse = NoPulse::new();
    ascend(alloc, model, &[], model.root(), &mut pulse)
}

/// The ascent over the root box, where the model's rows stand once more as cuts.
#[tactic(auto, using(crate::proofs::AscentWork::ascent_work_allowed))]
fn ascent_again(alloc: Global, model: &Model) -> Result<Ascent, OutOfMemory> {
    // The model's limits keep the ascent's work within the allowance.
    let _limits = model.parts();
    let mut pulse = NoPulse::new();
    ascend(alloc, model, model.rows(), model.root(), &mut pulse)
}

/// The ascent of a dense model over its root box, and None where it is no model.
fn ascent_of(
    alloc: Global,
    dense: &DenseModel,
    again: bool,
) -> Result<Option<Ascent>, OutOfMemory> {
    let Some(model) = model_of(alloc, dense)? else {
        return Ok(None);
    };
    let found = if again {
        ascent_again(alloc, &model)?
    } else {
        ascent_alone(alloc, &model)?
    };
    Ok(Some(found))
}

/// The least of x in 0 to 5 with 2x >= 3.
const SINGLE: DenseModel<'static> = DenseModel {
    costs: &[1],
    lows: &[0],
    highs: &[5],
    rows: &[DenseRow {
        coefs: &[2],
        least: 3,
    }],
};

/// The least of x in 0 to 1.
const NO_ROWS: DenseModel<'static> = DenseModel {
    costs: &[1],
    lows: &[0],
    highs: &[1],
    rows: &[],
};

/// 2x + 2y + 2z = 3 in 0 to 1, without costs.
const EVEN: DenseModel<'static> = DenseModel {
    costs: &[0, 0, 0],
    lows: &[0, 0, 0],
    highs: &[1, 1, 1],
    rows: &[
        DenseRow {
            coefs: &[2, 2, 2],
            least: 3,
        },
        DenseRow {
            coefs: &[-2, -2, -2],
            least: -3,
        },
    ],
};

/// x in 0 to 5 is never 10, so the multiplier climbs by 2,048 in each of the 64 rounds.
const HOPELESS: DenseModel<'static> = DenseModel {
    costs: &[1],
    lows: &[0],
    highs: &[5],
    rows: &[DenseRow {
        coefs: &[1],
        least: 10,
    }],
};

/// A cost of 2^40: the first step size and the multiplier are held at 2^40.
const COSTLY: DenseModel<'static> = DenseModel {
    costs: &[1_099_511_627_776],
    lows: &[0],
    highs: &[1],
    rows: &[DenseRow {
        coefs: &[1],
        least: 2,
    }],
};

/// A model, whether its rows stand once more as cuts, and what the ascent finds with what work.
struct Case {
    dense: DenseModel<'static>,
    again: bool,
    mults: &'static [u64],
    bound: i128,
    values: &'static [i64],
    work: u64,
}

const CASES: [Case; 6] = [
    Case {
        dense: SINGLE,
        again: false,
        mults: &[512],
        bound: 2,
        values: &[0],
        work: 52,
    },
    Case {
        dense: NO_ROWS,
        again: false,
        mults: &[],
        bound: 0,
        values: &[0],
        work: 12,
    },
    Case {
        dense: EVEN,
        again: false,
        mults: &[0, 0],
        bound: 0,
        values: &[0, 0, 0],
        work: 209,
    },
    Case {
        dense: HOPELESS,
        again: false,
        mults: &[131_072],
        bound: 645,
        values: &[5],
        work: 256,
    },
    Case {
        dense: COSTLY,
        again: false,
        mults: &[1_099_511_627_776],
        bound: 2_147_483_648,
        values: &[0],
        work: 168,
    },
    // The first row takes all, and its copy nothing.
    Case {
        dense: SINGLE,
        again: true,
        mults: &[512, 0],
        bound: 2,
        values: &[0],
        work: 91,
    },
];

fn is_found(found: &Ascent, case: &Case) -> bool {
    found.mults.as_slice() == case.mults
        && found.bound == case.bound
        && found.point.values() == case.values
        && found.work == case.work
}

fn finds_so(alloc: Global, case: &Case) -> Result<bool, OutOfMemory> {
    let Some(found) = ascent_of(alloc, &case.dense, case.again)? else {
        return Ok(false);
    };
    Ok(is_found(&found, case))
}

/// The first case that isn't found.
fn first_wrong_case(alloc: Global, cases: &[Case]) -> Result<Option<usize>, OutOfMemory> {
    for (at, case) in cases.iter().enumerate() {
        if !finds_so(alloc, case)? {
            return Ok(Some(at));
        }
    }
    Ok(None)
}

#[test]
fn climbs(rt: HostRuntime) -> Result<(), Fail> {
    assert_eq!(rt; first_wrong_case(rt.alloc(), &CASES)?, None);
    Ok(())
}

/// The sum over rows of multiplier times `least`.
fn slow_least(rows: &[DenseRow], mults: &[u64]) -> i128 {
    let mut sum = 0i128;
    for (row, mult) in rows.iter().zip(mults) {
        sum = sum.wrapping_add(i128::from(*mult).wrapping_mul(i128::from(row.least)));
    }
    sum
}

/// The reduced cost of a column.
fn slow_reduced(dense: &DenseModel, mults: &[u64], j: usize) -> i128 {
    let cost = dense.costs.get(j).copied().unwrap_or(0);
    let mut reduced = i128::from(cost).wrapping_mul(1_024);
    for (row, mult) in dense.rows.iter().zip(mults) {
        let coef = row.coefs.get(j).copied().unwrap_or(0);
        reduced = reduced.wrapping_sub(i128::from(coef).wrapping_mul(i128::from(*mult)));
    }
    reduced
}

/// What a column adds to the numerator.
fn slow_share(dense: &DenseModel, mults: &[u64], j: usize) -> i128 {
    let reduced = slow_reduced(dense, mults, j);
    let low = dense.lows.get(j).copied().unwrap_or(0);
    let high = dense.highs.get(j).copied().unwrap_or(0);
    let at_low = reduced.wrapping_mul(i128::from(low));
    let at_high = reduced.wrapping_mul(i128::from(high));
    at_low.min(at_high)
}

/// The numerator, summed row by row and then column by column.
fn slow_numerator(dense: &DenseModel, mults: &[u64]) -> i128 {
    let mut sum = slow_least(dense.rows, mults);
    for j in 0..dense.costs.len() {
        sum = sum.wrapping_add(slow_share(dense, mults, j));
    }
    sum
}

/// Gives row i a multiplier, where there is such a row.
fn put(mults: &mut [u64], i: usize, mult: u64) {
    if i < mults.len() {
        mults[i] = mult;
    }
}

/// Gives row i its next multiplier, found from the last candidate to the first. It tells whether that is another one.
fn slow_row(dense: &DenseModel, mults: &mut [u64], i: usize, step_size: u64) -> bool {
    let own = mults.get(i).copied().unwrap_or(0);
    let raised = own.saturating_add(step_size).min(MAX_MULTIPLIER);
    let mut greatest = i128::MIN;
    let mut best = 0;
    for candidate in [0, own.saturating_sub(step_size), raised, own] {
        put(mults, i, candidate);
        let worth = slow_numerator(dense, mults);
        if worth >= greatest {
            greatest = worth;
            best = candidate;
        }
    }
    put(mults, i, best);
    best != own
}

/// One round. It tells whether a multiplier changed.
fn slow_round(dense: &DenseModel, mults: &mut [u64], step_size: u64) -> bool {
    let mut changed = false;
    for i in 0..dense.rows.len() {
        if slow_row(dense, mults, i, step_size) {
            changed = true;
        }
    }
    changed
}

/// The first step size, by the greatest absolute cost.
fn slow_step_size(costs: &[i64]) -> u64 {
    let mut greatest = 0;
    for cost in costs {
        greatest = cost.unsigned_abs().max(greatest);
    }
    let above = greatest.saturating_add(1);
    above.saturating_mul(1_024).min(MAX_MULTIPLIER)
}

/// Makes the multipliers those of an ascent that begins with them. It tells the number of rounds.
fn slow_ascent(dense: &DenseModel, mults: &mut [u64]) -> u64 {
    let mut step_size = slow_step_size(dense.costs);
    for rounds in 0..64 {
        if step_size == 0 {
            return rounds;
        }
        if !slow_round(dense, mults, step_size) {
            step_size /= 2;
        }
    }
    64
}

/// How many coefficients aren't 0.
fn term_count(rows: &[DenseRow]) -> u64 {
    let mut count = 0u64;
    for row in rows {
        for coef in row.coefs {
            count = count.wrapping_add(u64::from(*coef != 0));
        }
    }
    count
}

/// Whether an ascent has the multipliers and the work of the slow one, whose rows are given.
fn is_slow(alloc: Global, found: &Ascent, dense: &DenseModel) -> Result<bool, OutOfMemory> {
    let mut mults = vec![in alloc; 0u64; dense.rows.len()]?;
    let rounds = slow_ascent(dense, &mut mults);
    let round_work = term_count(dense.rows).wrapping_mul(3).wrapping_add(1);
    Ok(found.mults.as_slice() == mults.as_slice() && found.work == rounds.wrapping_mul(round_work))
}

/// Whether the ascent of a dense model agrees with the slow one, which is given all rows: those that stand again too.
fn agrees(
    alloc: Global,
    dense: &DenseModel,
    again: bool,
    whole: &DenseModel,
) -> Result<bool, OutOfMemory> {
    let Some(found) = ascent_of(alloc, dense, again)? else {
        return Ok(false);
    };
    is_slow(alloc, &found, whole)
}

/// Two columns from -1 to 4 and from 1 to 3, and two rows.
const PAIR: DenseModel<'static> = DenseModel {
    costs: &[2, -3],
    lows: &[-1, 1],
    highs: &[4, 3],
    rows: &[
        DenseRow {
            coefs: &[1, 2],
            least: 3,
        },
        DenseRow {
            coefs: &[-1, 1],
            least: -2,
        },
    ],
};

/// Three columns from 0 to 3, to be kept within 5, 11 and 8.
const PACKED: DenseModel<'static> = DenseModel {
    costs: &[-5, -4, -3],
    lows: &[0, 0, 0],
    highs: &[3, 3, 3],
    rows: &[
        DenseRow {
            coefs: &[-2, -3, -1],
            least: -5,
        },
        DenseRow {
            coefs: &[-4, -1, -2],
            least: -11,
        },
        DenseRow {
            coefs: &[-3, -4, -2],
            least: -8,
        },
    ],
};

/// The first column is empty.
const EMPTY: DenseModel<'static> = DenseModel {
    costs: &[1, 5],
    lows: &[4, -2],
    highs: &[1, 7],
    rows: &[
        DenseRow {
            coefs: &[3, 0],
            least: 1,
        },
        DenseRow {
            coefs: &[1, -1],
            least: -9,
        },
    ],
};

const COMPARED: [DenseModel<'static>; 4] = [PAIR, PACKED, EMPTY, HOPELESS];

/// The first model on which the two ascents differ.
fn first_difference(alloc: Global, models: &[DenseModel]) -> Result<Option<usize>, OutOfMemory> {
    for (at, dense) in models.iter().enumerate() {
        if !agrees(alloc, dense, false, dense)? {
            return Ok(Some(at));
        }
    }
    Ok(None)
}

#[test]
fn agrees_with_slow_climbs(rt: HostRuntime) -> Result<(), Fail> {
    assert_eq!(rt; first_difference(rt.alloc(), &COMPARED)?, None);
    Ok(())
}

/// The next state of a chain of draws.
fn next_state(state: u64) -> u64 {
    state
        .wrapping_mul(6_364_136_223_846_793_005)
        .wrapping_add(1_442_695_040_888_963_407)
}

/// A number from -3 to 3, the one at a place among those of a seed.
fn drawn_number(seed: u64, place: u64) -> i64 {
    let state = next_state(next_state(seed.wrapping_mul(100).wrapping_add(place)));
    ((state >> 33) % 7) as i64 - 3
}

/// Three numbers in turn, times a scale.
fn three_numbers(seed: u64, place: u64, scale: i64) -> [i64; 3] {
    [
        drawn_number(seed, place).wrapping_mul(scale),
        drawn_number(seed, place.wrapping_add(1)).wrapping_mul(scale),
        drawn_number(seed, place.wrapping_add(2)).wrapping_mul(scale),
    ]
}

/// Highs that are up to 5 above lows, and at most 1 below.
fn highs_above(lows: &[i64; 3], seed: u64) -> [i64; 3] {
    [
        lows[0].wrapping_add(drawn_number(seed, 6)).wrapping_add(2),
        lows[1].wrapping_add(drawn_number(seed, 7)).wrapping_add(2),
        lows[2].wrapping_add(drawn_number(seed, 8)).wrapping_add(2),
    ]
}

/// The scale of a drawn model's numbers: every third model has some of up to 2^40.
fn scale_of(seed: u64) -> i64 {
    match seed % 3 {
        0 => 1,
        1 => 1_000,
        _ => 274_877_906_944,
    }
}

/// Whether the ascent agrees with the slow one on a drawn model whose rows stand once more as cuts. Some have empty
/// columns.
fn agrees_drawn(alloc: Global, seed: u64) -> Result<bool, OutOfMemory> {
    let scale = scale_of(seed);
    let costs = three_numbers(seed, 0, scale);
    let lows = three_numbers(seed, 3, 1);
    let highs = highs_above(&lows, seed);
    let coefs = three_numbers(seed, 9, scale);
    let more_coefs = three_numbers(seed, 12, scale);
    let leasts = three_numbers(seed, 15, scale);
    let first = DenseRow {
        coefs: &coefs,
        least: leasts[0],
    };
    let second = DenseRow {
        coefs: &more_coefs,
        least: leasts[1],
    };
    let dense = DenseModel {
        costs: &costs,
        lows: &lows,
        highs: &highs,
        rows: &[first, second],
    };
    let whole = DenseModel {
        rows: &[first, second, first, second],
        ..dense
    };
    agrees(alloc, &dense, true, &whole)
}

/// The first of `count` drawn models on which the two ascents differ.
fn first_drawn_difference(alloc: Global, count: u64) -> Result<Option<u64>, OutOfMemory> {
    for seed in 0..count {
        if !agrees_drawn(alloc, seed)? {
            return Ok(Some(seed));
        }
    }
    Ok(None)
}

#[test]
fn agrees_on_drawn_models(rt: HostRuntime) -> Result<(), Fail> {
    assert_eq!(rt; first_drawn_difference(rt.alloc(), 100)?, None);
    Ok(())
}

/// Where the first row's multiplier is `before`, the numerator with another one, and then once it has that.
fn numerators(
    alloc: Global,
    model: &Model,
    before: u64,
    mult: u64,
) -> Result<Option<(i128, i128)>, OutOfMemory> {
    if model.rows().is_empty() || before > MAX_MULTIPLIER || mult > MAX_MULTIPLIER {
        return Ok(None);
    }
    let mut kept = Reduced::of(alloc, model, &[], model.root())?;
    kept.set(model, &[], model.root(), 0, before);
    let trial = kept.trial(model, &[], model.root(), 0, mult);
    kept.set(model, &[], model.root(), 0, mult);
    Ok(Some((trial, kept.numerator())))
}

/// The same of a dense model.
fn dense_numerators(
    alloc: Global,
    dense: &DenseModel,
    before: u64,
    mult: u64,
) -> Result<Option<(i128, i128)>, OutOfMemory> {
    let Some(model) = model_of(alloc, dense)? else {
        return Ok(None);
    };
    numerators(alloc, &model, before, mult)
}

#[test]
fn keeps_sums(rt: HostRuntime) -> Result<(), Fail> {
    let alloc = rt.alloc();
    for (before, mult, wanted) in [(0, 512, 1_536), (512, 1_024, -2_048), (1_024, 0, 0)] {
        let found = dense_numerators(alloc, &SINGLE, before, mult)?;
        assert_eq!(rt; found, Some((wanted, wanted)), "from {before} to {mult}");
    }
    Ok(())
}

/// A pulse that adds up what it is told. Contracts see it as the work that may still be told.
#[derive(Debug, Drop)]
struct Told {
    left: u64,
    ticks: u64,
    sum: u64,
}

impl std::marker::Model for Told {
    ghost use Rattle.std.specs.Prelude.{ℕ};

    ghost Value = { ℕ };

    ghost view = { λ p. p.left };
}

impl Told {
    fn new() -> Told
        ensures { result ≡ 2 ^ 40 }
    {
        Told {
            left: 1_099_511_627_776,
            ticks: 0,
            sum: 0,
        }
    }
}

impl Pulse for Told {
    ghost Rest = { Unit {0} };

    ghost allowance = { λ p. p };

    ghost IsReady = { λ _. Unit {0} };

    ghost rest = { λ _. tt };

    fn tick(&mut self, work: u64) {
        self.left -= work;
        self.ticks = self.ticks.wrapping_add(1);
        self.sum = self.sum.wrapping_add(work);
    }
}

/// The ticks of the ascent over the root box, and their sum.
#[tactic(auto, using(crate::proofs::AscentWork::ascent_work_allowed))]
fn ticks(alloc: Global, model: &Model) -> Result<(u64, u64), OutOfMemory> {
    // The model's limits keep the ascent's work within the allowance.
    let _limits = model.parts();
    let mut pulse = Told::new();
    let _found = ascend(alloc, model, &[], model.root(), &mut pulse)?;
    Ok((pulse.ticks, pulse.sum))
}

/// The same of a dense model.
fn dense_ticks(alloc: Global, dense: &DenseModel) -> Result<Option<(u64, u64)>, OutOfMemory> {
    let Some(model) = model_of(alloc, dense)? else {
        return Ok(None);
    };
    Ok(Some(ticks(alloc, &model)?))
}

#[test]
fn tells_each_round(rt: HostRuntime) -> Result<(), Fail> {
    assert_eq!(rt; dense_ticks(rt.alloc(), &SINGLE)?, Some((13, 52)));
    Ok(())
}

#[test]
fn keeps_its_laws(_rt: HostRuntime) -> Result<(), Fail> {
    row_takes_first_greatest();
    no_row_lowers();
    no_round_lowers();
    ascent_has_multipliers();
    bound_is_above_least();
    point_is_reached();
    failing_point_is_passed();
    Ok(())
}
