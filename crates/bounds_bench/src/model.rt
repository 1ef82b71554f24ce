ghost use Rattle.std.specs.Prelude.{◌≡◌, ◌≤◌, ◌<◌, length, IfOk, IfSome};

use crate::words::Job;
use ip_core::{Bounds, List, Model, ModelParts, Name, OutOfMemory, Row, Text};
use std::alloc::Global;

/// The model that a job asks for: the first columns of a sample model, and as many rows as it asks for, which are the model's in
/// turn without the terms of further columns. None where the model has fewer columns or no row, or where a limit is broken.
pub fn bench_model(alloc: Global, model: &Model, job: &Job) -> Result<Option<Model>, OutOfMemory>
    ensures rows { IfOk result (λ found. IfSome found (λ m. length m.rows ≡ job.now.rows)) }
    ensures columns { IfOk result (λ found. IfSome found (λ m. length m.cols ≡ job.now.columns)) }
{
    let parts = model.parts();
    let columns = job.columns as usize;
    if parts.costs.len() < columns || parts.rows.is_empty() {
        return Ok(None);
    }
    let Some(root) = first_bounds(alloc, &parts.root, job)? else {
        return Ok(None);
    };
    let rows = rows_in_turn(
        alloc,
        parts.rows.as_slice(),
        &parts.root.highs()[..columns],
        job.rows,
    )?;
    let Some(name) = Name::of(Text::new(alloc)) else {
        return Ok(None);
    };
    let Some(cols) = names(alloc, job.columns)? else {
        return Ok(None);
    };
    Ok(Model::of(ModelParts {
        name,
        cols,
        costs: List::of(Vec::from_slice(alloc, &parts.costs.as_slice()[..columns])?),
        constant: 0,
        decimals: 0,
        maximise: false,
        root,
        rows,
    }))
}

/// So many names, all empty.
fn names(alloc: Global, count: u32) -> Result<Option<List<Name>>, OutOfMemory>
    ensures { IfOk result (λ found. IfSome found (λ names. length names ≡ count)) }
{
    let mut names = List::new(alloc);
    for _at in 0..count {
        let Some(name) = Name::of(Text::new(alloc)) else {
            return Ok(None);
        };
        names.push(name)?;
    }
    Ok(Some(names))
}

/// The rows in turn, as many as are asked for, with the terms of the columns of these highs.
fn rows_in_turn(
    alloc: Global,
    rows: &[Row],
    highs: &[i64],
    count: u32,
) -> Result<List<Row>, OutOfMemory>
    requires { 0 < length rows.now }
    ensures { IfOk result (λ made. length made ≡ count) }
{
    let mut made = List::new(alloc);
    for at in 0..count {
        made.push(first_row(alloc, &rows[at as usize % rows.len()], highs)?)?;
    }
    Ok(made)
}

/// The terms of a row in the columns of these highs. As in a sample model, the row allows a third of what they add up to there.
fn first_row(alloc: Global, row: &Row, highs: &[i64]) -> Result<Row, OutOfMemory> {
    let mut terms = List::new(alloc);
    let mut most = 0i64;
    for term in row.terms.as_slice() {
        if let Some(high) = highs.get(term.col as usize) {
            terms.push(*term)?;
            most = most.saturating_add(term.coef.saturating_mul(*high));
        }
    }
    Ok(Row {
        terms,
        least: most / 3,
    })
}

/// The bounds of the first columns. In a deep box every second column is fixed: of four such columns one at its high and three at
/// their lows.
fn first_bounds(alloc: Global, root: &Bounds, job: &Job) -> Result<Option<Bounds>, OutOfMemory>
    requires { job.now.columns ≤ length root.now.lows }
{
    let columns = job.columns as usize;
    let mut lows = Vec::from_slice(alloc, &root.lows()[..columns])?;
    let mut highs = Vec::from_slice(alloc, &root.highs()[..columns])?;
    if job.is_deep {
        fix_half(&mut lows, &mut highs);
    }
    Ok(Bounds::of(List::of(lows), List::of(highs)))
}

fn fix_half(lows: &mut [i64], highs: &mut [i64])
    requires { length lows.old ≡ length highs.old }
{
    for at in 0..lows.len() {
        if at % 8 == 0 {
            lows[at] = highs[at];
        } else if at % 2 == 0 {
            highs[at] = lows[at];
        }
    }
}
