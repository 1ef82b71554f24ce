ghost use Rattle.std.specs.Prelude.{◌≡◌, ◌++◌, ◌+◌, ◌<◌, ◌≤◌, ◌^◌, ℕ, drop, length, slice_index_or, IsTrue, IfOk, unsigned_abs, ◌-ℤ◌, ◌*ℤ◌};
ghost use Rattle.ip_core.specs.Boxes.{IsWithin, greatest_part as greatest_part_of};
ghost use Rattle.ip_core.specs.Numbers.{int_at};
ghost use Rattle.ip_core.specs.Rows.{AreTerms, term_width};
ghost use Rattle.ip_core.specs.Sides.{HasNoEmpty};
ghost use Rattle.ip_core.specs.declared.row.Term.{Term as TermValue};
ghost use Rattle.row_propagate.specs.Lawful.{IsReplayed};
ghost use Rattle.row_propagate.specs.Passes.{after_column, after_columns, after_row, after_rows, outcome_of_column, name_of, open_run, run_of};
ghost use Rattle.row_propagate.specs.Quiet.{AreNarrowTerms, ArePlaced, IsLoose, IsPassing, IsRowAt, IsVisitable, no_term, room_of};
ghost use Rattle.row_propagate.specs.Rounding.{narrower_bound as narrower_bound_of};
ghost use Rattle.row_propagate.specs.declared.outcome.Outcome.TheVariants.{Open};

use crate::narrowing::{Narrowing, rounded_bound};
use crate::outcome::Outcome;
use crate::row_kind::RowKind;
use crate::sums::difference;
use crate::visits::Visits;
use ip_core::{
    Bounds, List, MAX_WIDTH, Model, OutOfMemory, Row, RowRef, Term, Tighten, greatest_part,
};
use std::alloc::Global;

/// Visits rows in order, the first of which stands at a place of all rows, until one closes the box.
pub fn visit_rows(
    alloc: Global,
    model: &Model,
    cuts: &[Row],
    kind: RowKind,
    rows: &[Row],
    first: usize,
    bounds: &mut Bounds,
    steps: &mut List<Tighten>,
    visits: &mut Visits,
) -> Result<Outcome, OutOfMemory>
    requires few { length cuts.now ≤ 2 ^ 30 }
    requires few_rows { length model.now.rows ≤ 2 ^ 30 }
    requires few_here { length rows.now ≤ 2 ^ 30 }
    requires near { first ≤ 2 ^ 30 }
    requires passing { IsPassing model.now cuts.now bounds.old visits.old }
    requires placed { ArePlaced model.now cuts.now first (name_of kind) rows.now }
    ensures whole { IfOk result (λ outcome.
        run_of bounds.new steps.new outcome
        ≡ after_rows (name_of kind) 0 rows.now (open_run bounds.old steps.old)) }
    ensures within { IsWithin bounds.old bounds.new }
    ensures passing { IfOk result (λ outcome. outcome ≡ Open →
        IsPassing model.now cuts.now bounds.new visits.new) }
    ensures replays { IsReplayed model.now.rows cuts.now bounds.old steps.old bounds.new steps.new }
{
    for (index, row) in rows.iter().enumerate() {
        let name = kind.name(index as u32);
        let place = first + index;
        let outcome = visit_row(alloc, model, cuts, row, place, name, bounds, steps, visits)?;
        if !outcome.is_open() {
            return Ok(outcome);
        }
    }
    Ok(Outcome::Open)
}

/// Visits a row: it conflicts, or else its rounded bound is applied to its columns. A quiet row is passed over.
fn visit_row(
    alloc: Global,
    model: &Model,
    cuts: &[Row],
    row: &Row,
    place: usize,
    name: RowRef,
    bounds: &mut Bounds,
    steps: &mut List<Tighten>,
    visits: &mut Visits,
) -> Result<Outcome, OutOfMemory>
    requires few { length cuts.now ≤ 2 ^ 30 }
    requires few_rows { length model.now.rows ≤ 2 ^ 30 }
    requires passing { IsPassing model.now cuts.now bounds.old visits.old }
    requires row { IsRowAt model.now cuts.now place name row.now }
    ensures whole { IfOk result (λ outcome.
        run_of bounds.new steps.new outcome
        ≡ after_row name row.now (open_run bounds.old steps.old)) }
    ensures within { IsWithin bounds.old bounds.new }
    ensures passing { IfOk result (λ outcome. outcome ≡ Open →
        IsPassing model.now cuts.now bounds.new visits.new) }
    ensures replays { IsReplayed model.now.rows cuts.now bounds.old steps.old bounds.new steps.new }
{
    if visits.is_quiet(place) {
        return Ok(Outcome::Open);
    }
    let room = visits.room(place, row);
    if room < 0 {
        return Ok(Outcome::Conflict(name));
    }
    let first = first_tight(row.terms.as_slice(), 0, bounds, room);
    if first == row.terms.len() {
        visits.set_quiet(place);
        return Ok(Outcome::Open);
    }
    tighten_from(
        alloc, model, cuts, row, place, name, first, bounds, steps, visits,
    )
}

/// Applies a row's rounded bound to its columns in order, from that of the term `first` on, until one becomes empty.
fn tighten_from(
    alloc: Global,
    model: &Model,
    cuts: &[Row],
    row: &Row,
    place: usize,
    name: RowRef,
    first: usize,
    bounds: &mut Bounds,
    steps: &mut List<Tighten>,
    visits: &mut Visits,
) -> Result<Outcome, OutOfMemory>
    requires few { length cuts.now ≤ 2 ^ 30 }
    requires few_rows { length model.now.rows ≤ 2 ^ 30 }
    requires passing { IsPassing model.now cuts.now bounds.old visits.old }
    requires row { IsRowAt model.now cuts.now place name row.now }
    requires first { first ≤ length row.now.terms }
    ensures whole { IfOk result (λ outcome.
        run_of bounds.new steps.new outcome
        ≡ after_columns name row.now (drop first row.now.terms)
        (open_run bounds.old steps.old)) }
    ensures within { IsWithin bounds.old bounds.new }
    ensures passing { IfOk result (λ outcome. outcome ≡ Open →
        IsPassing model.now cuts.now bounds.new visits.new) }
    ensures replays { IsReplayed model.now.rows cuts.now bounds.old steps.old bounds.new steps.new }
{
    let mut at = first;
    while at < row.terms.len() {
        let outcome = tighten_at(
            alloc, model, cuts, row, place, name, at, bounds, steps, visits,
        )?;
        if !outcome.is_open() {
            return Ok(outcome);
        }
        let room = visits.room(place, row);
        at = first_tight(row.terms.as_slice(), at + 1, bounds, room);
    }
    Ok(Outcome::Open)
}

/// Applies a row's rounded bound to the column of one of its terms. The step is listed before the box changes.
fn tighten_at(
    alloc: Global,
    model: &Model,
    cuts: &[Row],
    row: &Row,
    place: usize,
    name: RowRef,
    at: usize,
    bounds: &mut Bounds,
    steps: &mut List<Tighten>,
    visits: &mut Visits,
) -> Result<Outcome, OutOfMemory>
    requires few { length cuts.now ≤ 2 ^ 30 }
    requires few_rows { length model.now.rows ≤ 2 ^ 30 }
    requires passing { IsPassing model.now cuts.now bounds.old visits.old }
    requires row { IsRowAt model.now cuts.now place name row.now }
    requires at { at < length row.now.terms }
    ensures whole { IfOk result (λ outcome.
        run_of bounds.new steps.new outcome
        ≡ after_column name row.now (slice_index_or row.now.terms at no_term).col
        (open_run bounds.old steps.old)) }
    ensures within { IsWithin bounds.old bounds.new }
    ensures passing { IfOk result (λ outcome. outcome ≡ Open →
        IsPassing model.now cuts.now bounds.new visits.new) }
    ensures replays { IsReplayed model.now.rows cuts.now bounds.old steps.old bounds.new steps.new }
{
    let room = visits.room(place, row);
    let Some(bound) = narrower_at(row, at, bounds, room) else {
        return Ok(Outcome::Open);
    };
    let col = column_at(row, at);
    visits.index(alloc, model.cols().len(), model.rows(), cuts)?;
    steps.push(bound.tightening(name, col))?;
    let old = bounds.get(col);
    bound.apply(bounds, col);
    let outcome = outcome_at(bounds, col);
    if !outcome.is_open() {
        return Ok(outcome);
    }
    visits.moved(col, old, bounds.get(col));
    Ok(outcome)
}

/// The coefficient of one of a row's terms.
fn coefficient_at(row: &Row, at: usize) -> i64
    requires { at < length row.now.terms }
    ensures { result ≡ (slice_index_or row.now.terms at no_term).coef }
{
    row.terms.as_slice()[at].coef
}

/// The column of one of a row's terms.
fn column_at(row: &Row, at: usize) -> u32
    requires { at < length row.now.terms }
    ensures { result ≡ (slice_index_or row.now.terms at no_term).col }
{
    row.terms.as_slice()[at].col
}

/// Whether a column is empty.
fn outcome_at(bounds: &Bounds, col: u32) -> Outcome
    requires { col < length bounds.now.lows }
    ensures { result ≡ outcome_of_column bounds.now col }
{
    let (low, high) = bounds.get(col);
    if high < low {
        Outcome::Empty(col)
    } else {
        Outcome::Open
    }
}

/// The first place from `start` on of a term that isn't loose, or else the number of terms.
fn first_tight(terms: &[Term], start: usize, bounds: &Bounds, room: i64) -> usize
    requires start { start ≤ length terms.now }
    requires known { AreTerms (length bounds.now.lows) terms.now }
    requires narrow { AreNarrowTerms bounds.now terms.now }
    ensures from { start ≤ result }
    ensures to { result ≤ length terms.now }
    ensures loose { (i : ℕ) → start ≤ i → i < result →
        IsLoose bounds.now room (slice_index_or terms.now i no_term) }
{
    for place in start..terms.len() {
        if !is_loose(&terms[place], bounds, room) {
            return place;
        }
    }
    terms.len()
}

/// Whether a term adds no more at one end of its column than at the other by more than the room. Its row then can't narrow
/// the column.
fn is_loose(term: &Term, bounds: &Bounds, room: i64) -> bool
    requires known { term.now.col < length bounds.now.lows }
    requires narrow { term_width bounds.now term.now ≤ MAX_WIDTH }
    ensures { IsTrue result → IsLoose bounds.now room term.now }
{
    let low = product(term, bounds.lows());
    let high = product(term, bounds.highs());
    if difference(high, low) > room {
        return false;
    }
    difference(low, high) <= room
}

/// The bound that a row gives for the column of one of its terms, where it is narrower than the column's own.
fn narrower_at(row: &Row, at: usize, bounds: &Bounds, room: i64) -> Option<Narrowing>
    requires row { IsVisitable bounds.now row.now }
    requires known { at < length row.now.terms }
    requires room { room ≡ room_of bounds.now row.now }
    ensures { result ≡ narrower_bound_of row.now bounds.now
        (slice_index_or row.now.terms at no_term).col }
{
    let left = left_of(&row.terms.as_slice()[at], bounds, room);
    let coef = coefficient_at(row, at);
    rounded_bound(bounds, column_at(row, at), left, coef)
}

/// What a row of this room leaves to the column of one of its terms: the most that the term adds, less the room.
fn left_of(term: &Term, bounds: &Bounds, room: i64) -> i64
    requires known { term.now.col < length bounds.now.lows }
    requires narrow { term_width bounds.now term.now ≤ MAX_WIDTH }
    requires room { unsigned_abs room ≤ MAX_WIDTH }
    ensures { result ≡ greatest_part_of bounds.now term.now -ℤ room }
{
    difference(greatest_part(term, bounds), room)
}

/// A term's coefficient times an end of its column.
fn product(term: &Term, ends: &[i64]) -> i64
    requires known { term.now.col < length ends.now }
    requires narrow { unsigned_abs (term.now.coef *ℤ int_at ends.now term.now.col) ≤ MAX_WIDTH }
    ensures value { result ≡ term.now.coef *ℤ int_at ends.now term.now.col }
    ensures small { unsigned_abs result ≤ MAX_WIDTH }
{
    term.coef * ends[term.col as usize]
}
