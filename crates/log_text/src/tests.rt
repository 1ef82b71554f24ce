use crate::log_text;
use ip_core::{Derivation, List, OutOfMemory, Pair, Point, RowRef, Text};
use node_pool::SearchSettings;
use stamp_machine::{History, Limits};
use std::alloc::Global;
use std::test::Fail;
use work_stamp::{Entry, Key, KeyedEntry};

/// An entry of a task, as a constant.
#[derive(Clone, Copy)]
enum Told {
    CutLoop,
    /// A cut that follows from row 0 by this divisor and weight.
    Cut(u64, u64),
    Start(u64),
    Dive(u64),
    /// The value of a point, and its one column.
    Found(i64, i64),
    /// Node 0 at column 0 and 0, of which the first child is kept.
    Split(u64),
    Closed(u64),
    Done,
    Halt,
}

/// A finished search, and its log.
#[derive(Clone, Copy)]
struct Search {
    limits: Limits,
    settings: SearchSettings,
    /// Stamps and entries, all of slot 0.
    told: &'static [(u64, Told)],
    ends: &'static [u64],
    status: &'static [u8],
    log: &'static [u8],
}

const NEITHER: SearchSettings = SearchSettings {
    cuts: false,
    heuristics: false,
};

const BOTH: SearchSettings = SearchSettings {
    cuts: true,
    heuristics: true,
};

const HEURISTICS: SearchSettings = SearchSettings {
    cuts: false,
    heuristics: true,
};

const ONE_SLOT: Limits = Limits {
    slots: 1,
    work: 200_000_000,
    store: 4_194_304,
};

const SEARCHES: [Search; 6] = [
    // One column of cost 1 in 0..1, and a slot that finds nothing to do.
    Search {
        limits: Limits {
            slots: 2,
            work: 200_000_000,
            store: 2_097_152,
        },
        settings: BOTH,
        told: &[
            (0, Told::Start(0)),
            (14, Told::Found(0, 0)),
            (14, Told::Closed(0)),
            (14, Told::Done),
        ],
        ends: &[14, 1000],
        status: b"optimal",
        log: b"xsearch log 1
tasks 2 work 200000000 store 2097152 cuts yes heuristics yes
0 0 start 0
14 0 found 0 0
14 0 closed 0
14 0 done
end 0 14
end 1 1000
status optimal
",
    },
    // The same model without work.
    Search {
        limits: Limits {
            slots: 1,
            work: 0,
            store: 4_194_304,
        },
        settings: NEITHER,
        told: &[],
        ends: &[0],
        status: b"worklimit",
        log: b"xsearch log 1
tasks 1 work 0 store 4194304 cuts no heuristics no
end 0 0
status worklimit
",
    },
    // 46 columns, whose point doesn't fit into the store.
    Search {
        limits: Limits {
            slots: 1,
            work: 200_000_000,
            store: 64,
        },
        settings: NEITHER,
        told: &[(0, Told::Start(0)), (14, Told::Halt)],
        ends: &[14],
        status: b"storelimit",
        log: b"xsearch log 1
tasks 1 work 200000000 store 64 cuts no heuristics no
0 0 start 0
14 0 halt
end 0 14
status storelimit
",
    },
    // 2x >= 3 at cost x.
    Search {
        limits: ONE_SLOT,
        settings: BOTH,
        told: &[
            (0, Told::CutLoop),
            (69, Told::Cut(2, 1)),
            (69, Told::Cut(2048, 512)),
            (248, Told::Done),
            (248, Told::Start(0)),
            (377, Told::Found(2, 2)),
            (377, Told::Closed(0)),
            (377, Told::Done),
        ],
        ends: &[377],
        status: b"optimal",
        log: b"xsearch log 1
tasks 1 work 200000000 store 4194304 cuts yes heuristics yes
0 0 cutloop
69 0 gomory 2 1 r0 1
69 0 gomory 2048 1 r0 512
248 0 done
248 0 start 0
377 0 found 2 2
377 0 closed 0
377 0 done
end 0 377
status optimal
",
    },
    // 2x + 2y + 2z = 3.
    Search {
        limits: ONE_SLOT,
        settings: NEITHER,
        told: &[
            (0, Told::Start(0)),
            (217, Told::Split(4)),
            (225, Told::Closed(4)),
            (225, Told::Done),
            (225, Told::Start(5)),
            (240, Told::Closed(5)),
            (240, Told::Done),
        ],
        ends: &[240],
        status: b"infeasible",
        log: b"xsearch log 1
tasks 1 work 200000000 store 4194304 cuts no heuristics no
0 0 start 0
217 0 split 0 0 0 4 0 0
225 0 closed 4
225 0 done
225 0 start 5
240 0 closed 5
240 0 done
end 0 240
status infeasible
",
    },
    // The same with dives.
    Search {
        limits: ONE_SLOT,
        settings: HEURISTICS,
        told: &[
            (0, Told::Start(0)),
            (217, Told::Split(4)),
            (225, Told::Closed(4)),
            (225, Told::Done),
            (225, Told::Dive(5)),
            (240, Told::Done),
            (240, Told::Start(5)),
            (255, Told::Closed(5)),
            (255, Told::Done),
        ],
        ends: &[255],
        status: b"infeasible",
        log: b"xsearch log 1
tasks 1 work 200000000 store 4194304 cuts no heuristics yes
0 0 start 0
217 0 split 0 0 0 4 0 0
225 0 closed 4
225 0 done
225 0 dive 5
240 0 done
240 0 start 5
255 0 closed 5
255 0 done
end 0 255
status infeasible
",
    },
];

fn cut(alloc: Global, divisor: u64, weight: u64) -> Result<Entry, OutOfMemory> {
    let mut parts = List::new(alloc);
    parts.push(Pair {
        row: RowRef::Model(0),
        weight,
    })?;
    Ok(Entry::Cut {
        derivation: Derivation::Gomory { parts, divisor },
    })
}

fn entry(alloc: Global, told: Told) -> Result<Entry, OutOfMemory> {
    Ok(match told {
        Told::CutLoop => Entry::CutStart,
        Told::Cut(divisor, weight) => cut(alloc, divisor, weight)?,
        Told::Start(node) => Entry::Start { node },
        Told::Dive(node) => Entry::HeurStart { node },
        Told::Found(value, x) => Entry::Found {
            value,
            point: Point::of(List::of(Vec::from_slice(alloc, &[x])?)),
        },
        Told::Split(first) => Entry::Split {
            node: 0,
            col: 0,
            at: 0,
            first,
            keep: 0,
            bound: 0,
        },
        Told::Closed(node) => Entry::Closed { node },
        Told::Done => Entry::Done,
        Told::Halt => Entry::Halt,
    })
}

fn history(alloc: Global, search: Search) -> Result<History, OutOfMemory> {
    let mut entries = List::new(alloc);
    for (stamp, told) in search.told {
        let key = Key {
            stamp: *stamp,
            slot: 0,
        };
        let entry = entry(alloc, *told)?;
        entries.push(KeyedEntry { key, entry })?;
    }
    Ok(History {
        entries,
        records: List::new(alloc),
        ends: List::of(Vec::from_slice(alloc, search.ends)?),
    })
}

fn log_of(alloc: Global, search: Search) -> Result<Text, OutOfMemory> {
    let history = history(alloc, search)?;
    log_text(
        alloc,
        &search.limits,
        search.settings,
        &history,
        search.status,
    )
}

/// The number of the first search whose log is another.
fn first_other(alloc: Global, searches: &[Search]) -> Result<Option<usize>, OutOfMemory> {
    for (i, search) in searches.iter().enumerate() {
        if log_of(alloc, *search)?.as_slice() != search.log {
            return Ok(Some(i));
        }
    }
    Ok(None)
}

#[test]
fn searches_have_their_logs(rt: HostRuntime) -> Result<(), Fail> {
    assert_eq!(rt; first_other(rt.alloc(), &SEARCHES)?, None);
    Ok(())
}
