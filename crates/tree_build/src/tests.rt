ghost use Rattle.std.specs.Prelude.{◌≡◌, IfOk, IfSome};
ghost use Rattle.stamp_machine.specs.Limits.{AreLimits};
ghost use Rattle.tree_build.specs.Laws.{IsProofIfMade};

use crate::{build, finished_is_proof, finished_searches_are_accepted, trees_are_whole};
use ip_core::dense::{DenseModel, DenseRow};
use ip_core::{Closing, Leaf, OutOfMemory, RowRef, Tighten};
use node_pool::SearchSettings;
use stamp_machine::{Limits, run_alone};
use std::alloc::Global;
use std::test::Fail;
use task_steps::{Search, answer_of, histories_are_read};
use tree_cert::{CertNode, Certificate};

/// The least x in 0 to 1.
const UNIT: DenseModel<'static> = DenseModel {
    costs: &[1],
    lows: &[0],
    highs: &[1],
    rows: &[],
};

/// The least x in 0 to 5 with 2x = 3.
const HALF: DenseModel<'static> = DenseModel {
    costs: &[1],
    lows: &[0],
    highs: &[5],
    rows: &[
        DenseRow {
            coefs: &[2],
            least: 3,
        },
        DenseRow {
            coefs: &[-2],
            least: -3,
        },
    ],
};

/// 2x + 2y + 2z = 3 in 0 to 1, without costs.
const ODD: DenseModel<'static> = DenseModel {
    costs: &[0, 0, 0],
    lows: &[0, 0, 0],
    highs: &[1, 1, 1],
    rows: &[
        DenseRow {
            coefs: &[2, 2, 2],
            least: 3,
        },
        DenseRow {
            coefs: &[-2, -2, -2],
            least: -3,
        },
    ],
};

/// A node as it is to be.
#[derive(Clone, Copy)]
enum Wanted {
    /// A split at a column, with the end of the low child and the beginning of the high one.
    Split(u32, i64, i64),
    /// A leaf of these steps, after which a row of the model conflicts.
    Conflict(&'static [Tighten], u32),
    /// A leaf of no steps, with no multiplier above 0.
    NoMultipliers,
}

/// A certificate as it is to be.
#[derive(Clone, Copy)]
struct Shown {
    cols: u32,
    rows: u32,
    value: i64,
    point: Option<&'static [i64]>,
    nodes: &'static [Wanted],
}

/// A model, a limit of work for its search by one slot, and the certificate.
#[derive(Clone, Copy)]
struct Run {
    dense: DenseModel<'static>,
    work: u64,
    shown: Option<Shown>,
}

const RUNS: [Run; 4] = [
    Run {
        dense: UNIT,
        work: 1_000_000,
        shown: Some(Shown {
            cols: 1,
            rows: 0,
            value: 0,
            point: Some(&[0]),
            nodes: &[Wanted::NoMultipliers],
        }),
    },
    // Row 0 gives x >= 2, and the greatest activity of row 1 is then -4.
    Run {
        dense: HALF,
        work: 1_000_000,
        shown: Some(Shown {
            cols: 1,
            rows: 2,
            value: 6,
            point: None,
            nodes: &[Wanted::Conflict(
                &[Tighten {
                    row: RowRef::Model(0),
                    col: 0,
                    low: true,
                }],
                1,
            )],
        }),
    },
    Run {
        dense: ODD,
        work: 1_000_000,
        shown: Some(Shown {
            cols: 3,
            rows: 2,
            value: 1,
            point: None,
            nodes: &[
                Wanted::Split(0, 0, 1),
                Wanted::Conflict(
                    &[
                        Tighten {
                            row: RowRef::Model(0),
                            col: 1,
                            low: true,
                        },
                        Tighten {
                            row: RowRef::Model(0),
                            col: 2,
                            low: true,
                        },
                    ],
                    1,
                ),
                Wanted::Conflict(
                    &[
                        Tighten {
                            row: RowRef::Model(1),
                            col: 1,
                            low: false,
                        },
                        Tighten {
                            row: RowRef::Model(1),
                            col: 2,
                            low: false,
                        },
                    ],
                    0,
                ),
            ],
        }),
    },
    Run {
        dense: UNIT,
        work: 0,
        shown: None,
    },
];

/// The certificate of a search, which is a proof by the laws.
fn proof(
    alloc: Global,
    search: &Search,
    limits: &Limits,
) -> Result<Option<Certificate>, OutOfMemory>
    requires { AreLimits limits.now }
    ensures { IfOk result (IsProofIfMade search.now.model) }
{
    let history = run_alone(alloc, search, limits)?;
    histories_are_read(search, limits);
    finished_searches_are_accepted(search, limits);
    trees_are_whole();
    finished_is_proof();
    let answer = answer_of(alloc, search.model(), &history)?;
    build(alloc, search.model(), &history, &answer)
}

/// Limits of one slot.
fn limits_of(work: u64) -> Option<Limits>
    ensures { IfSome result (λ limits. AreLimits limits) }
{
    if work > 1_000_000 {
        return None;
    }
    Some(Limits {
        slots: 1,
        work,
        store: 10_000,
    })
}

fn is_leaf(leaf: &Leaf, wanted: &Wanted) -> bool {
    match (&leaf.closing, wanted) {
        (Closing::Conflict(RowRef::Model(row)), Wanted::Conflict(steps, number)) => {
            leaf.steps.as_slice() == *steps && row == number
        }
        (Closing::Bound(pairs), Wanted::NoMultipliers) => {
            leaf.steps.is_empty() && pairs.is_empty()
        }
        _ => false,
    }
}

fn is_node(node: &CertNode, wanted: &Wanted) -> bool {
    match (node, wanted) {
        (CertNode::Split { col, at, next }, Wanted::Split(column, end, beginning)) => {
            col == column && at == end && next == beginning
        }
        (CertNode::Leaf(leaf), _) => is_leaf(leaf, wanted),
        _ => false,
    }
}

fn are_nodes(nodes: &[CertNode], wanted: &[Wanted]) -> bool {
    if nodes.len() != wanted.len() {
        return false;
    }
    for k in 0..nodes.len() {
        if !is_node(&nodes[k], &wanted[k]) {
            return false;
        }
    }
    true
}

fn is_point(certificate: &Certificate, wanted: Option<&[i64]>) -> bool {
    match (&certificate.point, wanted) {
        (Some(point), Some(values)) => point.values() == values,
        (None, None) => true,
        _ => false,
    }
}

/// Whether a certificate is as it is to be; it has no cuts.
fn is_shown(made: &Option<Certificate>, shown: &Option<Shown>) -> bool {
    match (made, shown) {
        (Some(c), Some(s)) => {
            c.cols == s.cols
                && c.rows == s.rows
                && c.value == s.value
                && c.cuts.is_empty()
                && is_point(c, s.point)
                && are_nodes(c.nodes.as_slice(), s.nodes)
        }
        (None, None) => true,
        _ => false,
    }
}

/// Whether a run gives its certificate.
fn is_as_wanted(alloc: Global, run: &Run) -> Result<bool, Fail> {
    let model = run.dense.build(alloc)?.ok_or("a model")?;
    let settings = SearchSettings {
        cuts: false,
        heuristics: false,
    };
    let search = Search::new(model, settings);
    let limits = limits_of(run.work).ok_or("limits")?;
    let made = proof(alloc, &search, &limits)?;
    Ok(is_shown(&made, &run.shown))
}

/// The first run that gives another certificate.
fn unlike_runs(alloc: Global) -> Result<Option<usize>, Fail> {
    for k in 0..RUNS.len() {
        if !is_as_wanted(alloc, &RUNS[k])? {
            return Ok(Some(k));
        }
    }
    Ok(None)
}

#[test]
fn certificates_are_those_of_the_searches(rt: HostRuntime) -> Result<(), Fail> {
    assert!(rt; unlike_runs(rt.alloc())? == None);
    Ok(())
}
