ghost use Rattle.std.specs.Prelude.{◌≡◌, ◌<◌, length, IfOk};
ghost use Rattle.node_pool.specs.Runs.{dives_view};

use crate::{Pick, Pool, SearchSettings};
use cut_derive::derive;
use ip_core::{
    Bounds, Derivation, List, Model, ModelParts, Name, OutOfMemory, Pair, Row, RowRef, Term, Text,
};
use std::alloc::Global;
use std::test::Fail;
use work_stamp::Entry;

/// A row of one coefficient for each of three columns.
fn row(alloc: Global, coef: i64, least: i64) -> Result<Row, OutOfMemory> {
    let mut terms = List::new(alloc);
    for col in 0..3 {
        terms.push(Term { col, coef })?;
    }
    Ok(Row { terms, least })
}

/// Three columns in 0 to 1 without costs, of which twice the sum is to be 3.
fn model(alloc: Global) -> Result<Model, Fail> {
    let mut cols = List::new(alloc);
    for letter in b"xyz" {
        let mut name = Text::new(alloc);
        name.push(*letter)?;
        cols.push(Name::of(name).ok_or("a name")?)?;
    }
    let mut rows = List::new(alloc);
    rows.push(row(alloc, 2, 3)?)?;
    rows.push(row(alloc, -2, -3)?)?;
    let lows = List::of(Vec::from_slice(alloc, &[0; 3])?);
    let highs = List::of(Vec::from_slice(alloc, &[1; 3])?);
    Ok(Model::of(ModelParts {
        name: Name::of(Text::new(alloc)).ok_or("a name")?,
        cols,
        costs: List::of(Vec::from_slice(alloc, &[0; 3])?),
        constant: 0,
        decimals: 0,
        maximise: false,
        root: Bounds::of(lows, highs).ok_or("a box")?,
        rows,
    })
    .ok_or("a model")?)
}

/// The pool when the root has been split and its low child closed.
fn half_done(alloc: Global, model: &Model) -> Result<Pool, OutOfMemory>
    requires { 0 < length model.now.cols }
    ensures { IfOk result (λ pool. pool ≡ dives_view model.now) }
{
    let settings = SearchSettings {
        cuts: false,
        heuristics: true,
    };
    let mut pool = Pool::new(alloc, model, settings)?;
    pool.absorb(alloc, model, &Entry::Start { node: 0 })?;
    pool.absorb(
        alloc,
        model,
        &Entry::Split {
            node: 0,
            col: 0,
            at: 0,
            first: 4,
            keep: 0,
            bound: 0,
        },
    )?;
    pool.absorb(alloc, model, &Entry::Closed { node: 4 })?;
    pool.absorb(alloc, model, &Entry::Done)?;
    Ok(pool)
}

// After one start and no dive a dive from the high child is due; its box has the first column at 1.
fn a_dive_is_due(alloc: Global, model: &Model) -> Result<bool, OutOfMemory> {
    if model.cols().is_empty() {
        return Ok(false);
    }
    let pool = half_done(alloc, model)?;
    let bounds = pool.bounds_of(alloc, model, 5)?;
    Ok(
        pool.pick() == Pick::Heuristic(5)
            && pool.best_open() == Some(5)
            && bounds.lows() == [1, 0, 0].as_slice()
            && bounds.highs() == [1, 1, 1].as_slice(),
    )
}

// When the high child is closed too, nothing is open or held.
fn the_search_ends(alloc: Global, model: &Model) -> Result<bool, OutOfMemory> {
    if model.cols().is_empty() {
        return Ok(false);
    }
    let mut pool = half_done(alloc, model)?;
    pool.absorb(alloc, model, &Entry::Start { node: 5 })?;
    let waits = pool.pick() == Pick::Nothing && !pool.is_finished();
    pool.absorb(alloc, model, &Entry::Closed { node: 5 })?;
    pool.absorb(alloc, model, &Entry::Halt)?;
    Ok(
        waits
            && pool.is_finished()
            && pool.has_halt()
            && pool.pick() == Pick::Over
            && pool.cutoff() == 1
            && pool.cuts().is_empty(),
    )
}

// Cuts are looked for before the root is taken, where they are on and the model has a row.
fn cuts_come_first(alloc: Global, model: &Model) -> Result<bool, OutOfMemory> {
    let settings = SearchSettings {
        cuts: true,
        heuristics: true,
    };
    let pool = Pool::new(alloc, model, settings)?;
    Ok(pool.pick() == Pick::CutLoop && pool.best_open() == Some(0))
}

/// Half the first row of the model, rounded up.
fn half_row(alloc: Global) -> Result<Derivation, OutOfMemory> {
    let mut parts = List::new(alloc);
    parts.push(Pair {
        row: RowRef::Model(0),
        weight: 1,
    })?;
    Ok(Derivation::Gomory { parts, divisor: 2 })
}

// Once cuts are looked for the root is next. The sum of the columns is at least 2, where twice it
// is at least 3, and a cut says so.
fn a_cut_is_seen(alloc: Global, model: &Model) -> Result<bool, OutOfMemory> {
    let settings = SearchSettings {
        cuts: true,
        heuristics: true,
    };
    let _limits = model.parts();
    let mut pool = Pool::new(alloc, model, settings)?;
    pool.absorb(alloc, model, &Entry::CutStart)?;
    let derivation = half_row(alloc)?;
    let Ok(row) = derive(alloc, model, pool.cuts(), &derivation) else {
        return Ok(false);
    };
    pool.absorb(alloc, model, &Entry::Cut { derivation })?;
    let [cut] = pool.cuts() else {
        return Ok(false);
    };
    Ok(
        pool.pick() == Pick::Node(0)
            && row.least == 2
            && cut.least == row.least
            && cut.terms.as_slice() == row.terms.as_slice(),
    )
}

#[test]
fn picks_a_dive_from_the_other_child(rt: HostRuntime) -> Result<(), Fail> {
    let model = model(rt.alloc())?;
    assert!(rt; a_dive_is_due(rt.alloc(), &model)?);
    Ok(())
}

#[test]
fn is_over_when_both_children_are_closed(rt: HostRuntime) -> Result<(), Fail> {
    let model = model(rt.alloc())?;
    assert!(rt; the_search_ends(rt.alloc(), &model)?);
    Ok(())
}

#[test]
fn looks_for_cuts_before_the_root(rt: HostRuntime) -> Result<(), Fail> {
    let model = model(rt.alloc())?;
    assert!(rt; cuts_come_first(rt.alloc(), &model)?);
    Ok(())
}

#[test]
fn keeps_the_row_of_a_cut(rt: HostRuntime) -> Result<(), Fail> {
    let model = model(rt.alloc())?;
    assert!(rt; a_cut_is_seen(rt.alloc(), &model)?);
    Ok(())
}
