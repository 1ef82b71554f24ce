ghost use Rattle.std.specs.Prelude.{◌≡◌, ◌+◌, ◌≤◌, ◌<◌, ◌^◌, IfOk};
ghost use Rattle.work_stamp.specs.Writable.{IsWritable};

use super::*;
use ip_core::{Derivation, List, OutOfMemory, Pair, Point, RowRef};
use std::alloc::Global;
use std::test::Fail;

fn point(alloc: Global, values: &[i64]) -> Result<Point, OutOfMemory>
    ensures { IfOk result (λ p. p ≡ values.now) }
{
    Ok(Point::of(List::of(Vec::from_slice(alloc, values)?)))
}

fn gomory(alloc: Global) -> Result<Entry, OutOfMemory>
    ensures { IfOk result IsWritable }
{
    let parts = [
        Pair {
            row: RowRef::Model(3),
            weight: 7,
        },
        Pair {
            row: RowRef::Cut(2),
            weight: 9,
        },
    ];
    Ok(Entry::Cut {
        derivation: Derivation::Gomory {
            parts: List::of(Vec::from_slice(alloc, &parts)?),
            divisor: 4,
        },
    })
}

fn cover(alloc: Global) -> Result<Entry, OutOfMemory>
    ensures { IfOk result IsWritable }
{
    Ok(Entry::Cut {
        derivation: Derivation::Cover {
            row: RowRef::Cut(1),
            cols: List::of(Vec::from_slice(alloc, &[0, 5])?),
        },
    })
}

const SPLIT: Entry = Entry::Split {
    node: 0,
    col: 0,
    at: 0,
    first: 4,
    keep: 0,
    bound: 0,
};

const LOW_SPLIT: Entry = Entry::Split {
    node: 6,
    col: 2,
    at: -1,
    first: 12,
    keep: 2,
    bound: -3,
};

/// Appends the words of an entry, and says whether they are these.
fn has_words(
    out: &mut List<u64>,
    stamp: u64,
    entry: Entry,
    words: &[u64],
) -> Result<bool, OutOfMemory>
    requires { IsWritable entry }
{
    let before = out.len();
    let count = entry.word_count();
    to_words(&Stamped { stamp, entry }, out)?;
    Ok(count == words.len() as u64 && &out.as_slice()[before..] == words)
}

/// Whether entries without lists have these words.
fn short_entries(out: &mut List<u64>) -> Result<[bool; 8], OutOfMemory> {
    let most = u64::MAX;
    let low = [9, 7, 1, 6, 2, most, 12, 2, most - 2];
    Ok([
        has_words(out, 0, Entry::Start { node: 0 }, &[4, 1, 0, 0])?,
        has_words(out, 7, Entry::CutStart, &[3, 2, 7])?,
        has_words(out, 8, Entry::HeurStart { node: 5 }, &[4, 3, 8, 5])?,
        has_words(out, 9, Entry::Done, &[3, 4, 9])?,
        has_words(out, 217, SPLIT, &[9, 7, 217, 0, 0, 0, 4, 0, 0])?,
        has_words(out, 1, LOW_SPLIT, &low)?,
        has_words(out, 13, Entry::Closed { node: 4 }, &[4, 8, 13, 4])?,
        has_words(out, 14, Entry::Halt, &[3, 9, 14])?,
    ])
}

/// Whether entries with lists have these words.
fn long_entries(alloc: Global, out: &mut List<u64>) -> Result<[bool; 4], OutOfMemory> {
    let most = u64::MAX;
    let found = Entry::Found {
        value: -2,
        point: point(alloc, &[5, -1])?,
    };
    let least = Entry::Found {
        value: i64::MIN,
        point: point(alloc, &[])?,
    };
    Ok([
        has_words(out, 10, found, &[6, 5, 10, most - 1, 5, most])?,
        has_words(out, most, least, &[4, 5, most, 9_223_372_036_854_775_808])?,
        has_words(out, 11, gomory(alloc)?, &[9, 6, 11, 0, 4, 6, 7, 5, 9])?,
        has_words(out, 12, cover(alloc)?, &[7, 6, 12, 1, 3, 0, 5])?,
    ])
}

#[test]
fn entries_are_these_words(rt: HostRuntime) -> Result<(), Fail> {
    let mut out = List::new(rt.alloc());
    assert!(rt; short_entries(&mut out)? == [true; 8]);
    assert!(rt; long_entries(rt.alloc(), &mut out)? == [true; 4]);
    Ok(())
}

/// Words, and what is read from them: each form of entry, some with a word behind it, and then each refusal.
const READS: [(&[u64], &str); 34] = [
    (
        &[4, 1, 0, 0, 3],
        "Ok(WordRead { item: Stamped { stamp: 0, entry: Start { node: 0 } }, used: 4 })",
    ),
    (
        &[3, 2, 7, 3],
        "Ok(WordRead { item: Stamped { stamp: 7, entry: CutStart }, used: 3 })",
    ),
    (
        &[4, 3, 8, 5],
        "Ok(WordRead { item: Stamped { stamp: 8, entry: HeurStart { node: 5 } }, used: 4 })",
    ),
    (
        &[3, 4, 9],
        "Ok(WordRead { item: Stamped { stamp: 9, entry: Done }, used: 3 })",
    ),
    (
        &[
            6,
            5,
            10,
            18_446_744_073_709_551_614,
            5,
            18_446_744_073_709_551_615,
            9,
        ],
        "Ok(WordRead { item: Stamped { stamp: 10, entry: Found { value: -2, point: Point { values: List { items: [5, -1] } } } }, used: 6 })",
    ),
    (
        &[4, 5, 18_446_744_073_709_551_615, 9_223_372_036_854_775_808],
        "Ok(WordRead { item: Stamped { stamp: 18446744073709551615, entry: Found { value: -9223372036854775808, point: Point { values: List { items: [] } } } }, used: 4 })",
    ),
    (
        &[9, 6, 11, 0, 4, 6, 7, 5, 9],
        "Ok(WordRead { item: Stamped { stamp: 11, entry: Cut { derivation: Gomory { parts: List { items: [Pair { row: Model(3), weight: 7 }, Pair { row: Cut(2), weight: 9 }] }, divisor: 4 } } }, used: 9 })",
    ),
    (
        &[7, 6, 12, 1, 3, 0, 5],
        "Ok(WordRead { item: Stamped { stamp: 12, entry: Cut { derivation: Cover { row: Cut(1), cols: List { items: [0, 5] } } } }, used: 7 })",
    ),
    (
        &[9, 7, 217, 0, 0, 0, 4, 0, 0],
        "Ok(WordRead { item: Stamped { stamp: 217, entry: Split { node: 0, col: 0, at: 0, first: 4, keep: 0, bound: 0 } }, used: 9 })",
    ),
    (
        &[
            9,
            7,
            1,
            6,
            2,
            18_446_744_073_709_551_615,
            12,
            2,
            18_446_744_073_709_551_613,
        ],
        "Ok(WordRead { item: Stamped { stamp: 1, entry: Split { node: 6, col: 2, at: -1, first: 12, keep: 2, bound: -3 } }, used: 9 })",
    ),
    (
        &[4, 8, 13, 4],
        "Ok(WordRead { item: Stamped { stamp: 13, entry: Closed { node: 4 } }, used: 4 })",
    ),
    (
        &[3, 9, 14],
        "Ok(WordRead { item: Stamped { stamp: 14, entry: Halt }, used: 3 })",
    ),
    (&[], "Err(Short)"),
    (&[4, 1, 0], "Err(Short)"),
    (&[2], "Err(Short)"),
    (&[1], "Err(Length)"),
    (&[0, 12, 0], "Err(Length)"),
    (&[3, 12, 0], "Err(Kind)"),
    (&[3, 0, 0], "Err(Kind)"),
    (&[5, 10, 0, 0, 0], "Err(Kind)"),
    (&[3, 1, 0], "Err(Length)"),
    (&[4, 2, 0, 0], "Err(Length)"),
    (&[3, 5, 0], "Err(Length)"),
    (&[10, 7, 0, 0, 0, 0, 0, 0, 0, 0], "Err(Length)"),
    (&[9, 7, 0, 0, 4_294_967_296, 0, 0, 0, 0], "Err(Value)"),
    (&[9, 7, 0, 0, 0, 0, 0, 3, 0], "Err(Value)"),
    (&[3, 6, 0], "Err(Length)"),
    (&[4, 6, 0, 2], "Err(Value)"),
    (&[4, 6, 0, 1], "Err(Length)"),
    (&[4, 6, 0, 0], "Err(Length)"),
    (&[6, 6, 0, 0, 1, 8_589_934_592], "Err(Length)"),
    (&[7, 6, 0, 0, 1, 8_589_934_592, 1], "Err(Value)"),
    (&[5, 6, 0, 1, 8_589_934_592], "Err(Value)"),
    (&[6, 6, 0, 1, 0, 4_294_967_296], "Err(Value)"),
];

/// The first case that is read in another way.
fn first_wrong_read(alloc: Global) -> Result<Option<usize>, OutOfMemory> {
    for place in 0..READS.len() {
        let (words, wanted) = READS[place];
        if 100 < words.len() {
            return Ok(Some(place));
        }
        let read = format!(in alloc; "{:?}", read_words(alloc, words))?;
        if read.as_str() != wanted {
            return Ok(Some(place));
        }
    }
    Ok(None)
}

#[test]
fn words_are_read_so(rt: HostRuntime) -> Result<(), Fail> {
    assert_eq!(rt; first_wrong_read(rt.alloc())?, None);
    Ok(())
}

/// The stamps and the slots of two keys, and whether the first key comes before the second.
const ORDERS: [(u64, u32, u64, u32, bool); 6] = [
    (0, 1, 0, 2, true),
    (0, 2, 0, 1, false),
    (0, 2, 1, 0, true),
    (1, 0, 0, 2, false),
    (1, 7, 1, 7, false),
    (1, 7, 2, 3, true),
];

/// The first case in which keys are in another order.
fn first_wrong_order() -> Option<usize> {
    for place in 0..ORDERS.len() {
        let (stamp, slot, other_stamp, other_slot, wanted) = ORDERS[place];
        let key = Key { stamp, slot };
        let other = Key {
            stamp: other_stamp,
            slot: other_slot,
        };
        if key.is_below(other) != wanted {
            return Some(place);
        }
    }
    None
}

#[test]
fn keys_are_in_the_order_of_stamps_then_slots(rt: HostRuntime) -> Result<(), Fail> {
    assert_eq!(rt; first_wrong_order(), None);
    Ok(())
}

/// Tells a pulse of the same work twice.
fn tell_twice<P: Pulse>(pulse: &mut P, work: u64)
    requires ready { P.IsReady pulse.old }
    requires allowed { work + work ≤ P.allowance pulse.old }
    ensures allowance { P.allowance pulse.new + work + work ≡ P.allowance pulse.old }
    ensures rest { P.rest pulse.new ≡ P.rest pulse.old }
    ensures ready { P.IsReady pulse.new }
{
    pulse.tick(work);
    pulse.tick(work);
}

/// A pulse that sums what it hears, and bears a number.
#[derive(Drop)]
struct Summing {
    left: u64,
    sum: u64,
    number: u64,
}

impl Pulse for Summing {
    ghost use Rattle.std.specs.Prelude.{◌≡◌, ℕ, ◌+◌, ◌<◌, ◌^◌};

    ghost Rest = { ℕ };

    ghost allowance = { λ p. p.left };

    ghost IsReady = { λ p. p.left + p.sum < 2 ^ 64 };

    ghost rest = { λ p. p.number };

    fn tick(&mut self, work: u64) {
        self.left -= work;
        self.sum += work;
    }
}

#[test]
fn hears_of_work(rt: HostRuntime) -> Result<(), Fail> {
    let mut pulse = Summing {
        left: 30,
        sum: 5,
        number: 7,
    };
    tell_twice(&mut pulse, 12);
    pulse.tick(4);
    assert_eq!(rt; (pulse.left, pulse.sum, pulse.number), (2, 33, 7));
    Ok(())
}

/// All of the first allowance, in two ticks.
#[test]
fn spends_its_allowance(_rt: HostRuntime) -> Result<(), Fail> {
    let mut pulse = NoPulse::new();
    tell_twice(&mut pulse, 549_755_813_888);
    pulse.tick(0);
    Ok(())
}

// The laws have nothing to run.
#[test]
fn laws_of_words_ask_nothing(_rt: HostRuntime) -> Result<(), Fail> {
    words_are_read_again();
    no_words_begin_others();
    only_words_are_read();
    Ok(())
}
