ghost use Rattle.stamp_machine.specs.Limits.{AreLimits};

use crate::drive::{Outcome, driven_history, listed_history};
use crate::numbers::{CLOSED, DONE, FOUND, START, are_alike, entry_numbers};
use crate::order::Order;
use crate::relay::Relay;
use ip_core::OutOfMemory;
use ip_core::dense::{DenseModel, DenseRow};
use node_pool::SearchSettings;
use stamp_machine::{History, Limits, run_alone};
use std::alloc::Global;
use std::test::Fail;
use task_steps::{Best, Search, answer_of, histories_are_read};
use version_store::Advance;
use work_stamp::Tasker;

/// The least x in 0 to 1.
const UNIT: DenseModel<'static> = DenseModel {
    costs: &[1],
    lows: &[0],
    highs: &[1],
    rows: &[],
};

/// 2x + 2y + 2z = 3 in 0 to 1, without costs.
pub(crate) const ODD: DenseModel<'static> = DenseModel {
    costs: &[0, 0, 0],
    lows: &[0, 0, 0],
    highs: &[1, 1, 1],
    rows: &[
        DenseRow {
            coefs: &[2, 2, 2],
            least: 3,
        },
        DenseRow {
            coefs: &[-2, -2, -2],
            least: -3,
        },
    ],
};

/// How often a roll is cut by each of four patterns, so that there are 7 long, 6 middle and 9 short pieces.
const CUTTING: DenseModel<'static> = DenseModel {
    costs: &[20, 21, 19, 18],
    lows: &[0, 0, 0, 0],
    highs: &[8, 8, 8, 8],
    rows: &[
        DenseRow {
            coefs: &[2, 1, 0, 0],
            least: 7,
        },
        DenseRow {
            coefs: &[0, 1, 2, 0],
            least: 6,
        },
        DenseRow {
            coefs: &[0, 1, 2, 5],
            least: 9,
        },
    ],
};

/// How many people take each of four shifts, each of which covers two parts of the day, where twice its pay is counted.
/// The last part has at most two more than it needs.
const SHIFTS: DenseModel<'static> = DenseModel {
    costs: &[63, 54, 60, 77],
    lows: &[0, 0, 0, 0],
    highs: &[8, 8, 8, 8],
    rows: &[
        DenseRow {
            coefs: &[1, 0, 0, 1],
            least: 3,
        },
        DenseRow {
            coefs: &[1, 1, 0, 0],
            least: 5,
        },
        DenseRow {
            coefs: &[0, 1, 1, 0],
            least: 6,
        },
        DenseRow {
            coefs: &[0, 0, 1, 1],
            least: 4,
        },
        DenseRow {
            coefs: &[0, 0, -1, -1],
            least: -6,
        },
    ],
};

/// The search of a model in plain numbers, with cuts and dives.
pub(crate) fn search_of(alloc: Global, dense: &DenseModel) -> Result<Search, Fail> {
    let model = dense.build(alloc)?.ok_or("a model")?;
    let settings = SearchSettings {
        cuts: true,
        heuristics: true,
    };
    Ok(Search::new(model, settings))
}

/// Whether carriers that are driven by an order leave this history.
fn leaves<T: Tasker>(
    alloc: Global,
    tasker: &T,
    limits: &Limits,
    order: Order,
    alone: &History,
) -> Result<bool, OutOfMemory>
    requires { AreLimits limits.now }
{
    match driven_history(alloc, tasker, limits, order)? {
        Some(driven) => are_alike(alloc, &driven, alone),
        None => Ok(false),
    }
}

/// What became of the turns of slot 1, slot 0, slot 1, slot 1, slot 0 and slot 1.
const OUTCOMES: [Outcome; 6] = [
    Outcome {
        advance: Some(Advance::Blocked { slot: 0, clock: 0 }),
        clock: 0,
    },
    Outcome {
        advance: Some(Advance::Moved),
        clock: 14,
    },
    Outcome {
        advance: Some(Advance::Moved),
        clock: 1_000,
    },
    Outcome {
        advance: Some(Advance::Blocked { slot: 0, clock: 14 }),
        clock: 1_000,
    },
    Outcome {
        advance: Some(Advance::Ended),
        clock: 14,
    },
    Outcome {
        advance: Some(Advance::Ended),
        clock: 1_000,
    },
];

/// The entries that the two slots leave: a node is taken at 0, and at 14 the point 0 with the value 0 is found.
const ENTRIES: [u64; 17] = [
    0, 0, START, 0, 14, 0, FOUND, 0, 1, 0, 14, 0, CLOSED, 0, 14, 0, DONE,
];

/// Whether two slots that search the least x in 0 to 1 come to these outcomes, and leave these entries and ends.
fn turns_come_out(alloc: Global) -> Result<bool, Fail> {
    let search = search_of(alloc, &UNIT)?;
    let limits = Limits {
        slots: 2,
        work: 200_000_000,
        store: 2_097_152,
    };
    let (outcomes, history) = listed_history(alloc, &search, &limits, &[1, 0, 1, 1, 0, 1])?;
    let history = history.ok_or("a history")?;
    Ok(
        outcomes.as_slice() == OUTCOMES.as_slice()
            && entry_numbers(alloc, &history)?.as_slice() == ENTRIES.as_slice()
            && history.ends.as_slice() == [14, 1_000].as_slice(),
    )
}

// Slot 1 may read at 0 when slot 0 has passed 0, and at 1,000 when slot 0 is over.
#[test]
fn carriers_wait_for_lesser_slots(rt: HostRuntime) -> Result<(), Fail> {
    assert!(rt; turns_come_out(rt.alloc())?);
    Ok(())
}

/// The first of these orders by which carriers don't leave the history of the machine on one thread.
fn unlike_order<T: Tasker>(
    alloc: Global,
    tasker: &T,
    limits: &Limits,
    orders: &[Order],
) -> Result<Option<usize>, OutOfMemory>
    requires { AreLimits limits.now }
{
    let alone = run_alone(alloc, tasker, limits)?;
    for k in 0..orders.len() {
        if !leaves(alloc, tasker, limits, orders[k], &alone)? {
            return Ok(Some(k));
        }
    }
    Ok(None)
}

/// Whether three slots that search a model leave the machine's history, in turn and each until it is blocked.
fn orders_agree(alloc: Global) -> Result<bool, Fail> {
    let search = search_of(alloc, &ODD)?;
    let limits = Limits {
        slots: 3,
        work: 200_000_000,
        store: 4_096,
    };
    let orders = [
        Order::InTurn,
        Order::UntilBlocked(0),
        Order::UntilBlocked(2),
    ];
    Ok(unlike_order(alloc, &search, &limits, &orders)? == None)
}

#[test]
fn any_slot_may_be_first(rt: HostRuntime) -> Result<(), Fail> {
    assert!(rt; orders_agree(rt.alloc())?);
    Ok(())
}

/// Twenty orders by numbers.
const ORDERS: [Order; 20] = [
    Order::ByNumbers(1),
    Order::ByNumbers(2),
    Order::ByNumbers(3),
    Order::ByNumbers(4),
    Order::ByNumbers(5),
    Order::ByNumbers(6),
    Order::ByNumbers(7),
    Order::ByNumbers(8),
    Order::ByNumbers(9),
    Order::ByNumbers(10),
    Order::ByNumbers(11),
    Order::ByNumbers(12),
    Order::ByNumbers(13),
    Order::ByNumbers(14),
    Order::ByNumbers(15),
    Order::ByNumbers(16),
    Order::ByNumbers(17),
    Order::ByNumbers(18),
    Order::ByNumbers(19),
    Order::ByNumbers(20),
];

/// Whether so many slots leave the machine's history by each of twenty orders.
fn agrees_on<T: Tasker>(alloc: Global, tasker: &T, slots: u32) -> Result<bool, OutOfMemory>
    requires { AreLimits (record { slots = slots; work = 200000000; store = 4096 }) }
{
    let limits = Limits {
        slots,
        work: 200_000_000,
        store: 4_096,
    };
    Ok(unlike_order(alloc, tasker, &limits, &ORDERS)? == None)
}

/// The first of these numbers of slots, 1, 2, 5 and 64, that don't leave the machine's history by each of twenty orders.
fn unlike_slots<T: Tasker>(alloc: Global, tasker: &T) -> Result<Option<u32>, OutOfMemory> {
    if !agrees_on(alloc, tasker, 1)? {
        return Ok(Some(1));
    }
    if !agrees_on(alloc, tasker, 2)? {
        return Ok(Some(2));
    }
    if !agrees_on(alloc, tasker, 5)? {
        return Ok(Some(5));
    }
    if !agrees_on(alloc, tasker, 64)? {
        return Ok(Some(64));
    }
    Ok(None)
}

#[test]
fn relays_leave_one_history(rt: HostRuntime) -> Result<(), Fail> {
    assert_eq!(rt; unlike_slots(rt.alloc(), &Relay)?, None);
    Ok(())
}

/// The same for the search of a model.
fn unlike_search(alloc: Global, dense: &DenseModel) -> Result<Option<u32>, Fail> {
    let search = search_of(alloc, dense)?;
    Ok(unlike_slots(alloc, &search)?)
}

#[test]
fn searches_leave_one_history(rt: HostRuntime) -> Result<(), Fail> {
    assert_eq!(rt; unlike_search(rt.alloc(), &CUTTING)?, None);
    assert_eq!(rt; unlike_search(rt.alloc(), &SHIFTS)?, None);
    Ok(())
}

/// The best point by the history of carriers that are driven in turn.
fn best_of(alloc: Global, search: &Search, limits: &Limits) -> Result<Option<Best>, OutOfMemory>
    requires { AreLimits limits.now }
{
    histories_are_read(search, limits);
    let Some(history) = driven_history(alloc, search, limits, Order::InTurn)? else {
        return Ok(None);
    };
    Ok(answer_of(alloc, search.model(), &history)?.best)
}

/// Whether the history of two slots gives this best point of a model, with this value.
fn has_best(alloc: Global, dense: &DenseModel, value: i64, point: &[i64]) -> Result<bool, Fail> {
    let search = search_of(alloc, dense)?;
    let limits = Limits {
        slots: 2,
        work: 200_000_000,
        store: 4_096,
    };
    let best = best_of(alloc, &search, &limits)?.ok_or("a point")?;
    Ok(best.value == value && best.point.values() == point)
}

#[test]
fn histories_have_the_best_point(rt: HostRuntime) -> Result<(), Fail> {
    assert!(rt; has_best(rt.alloc(), &CUTTING, 155, &[4, 0, 3, 1])?);
    assert!(rt; has_best(rt.alloc(), &SHIFTS, 537, &[3, 2, 4, 0])?);
    Ok(())
}
