//! Small models in plain numbers, for tests, examples and measurements.
ghost use Rattle.std.specs.Prelude.{◌≡◌, ◌↔◌, ◌∷◌, ◌++◌, ◌≤◌, [], length, replicate, IsTrue, IfOk, OnOk};
ghost use Rattle.std.specs.Option.{SomeIff};
ghost use Rattle.ip_core.specs.Dense.{HasColumns, IsDense, dense_parts, dense_row, dense_rows, dense_term, dense_terms};

use crate::limits::MAX_COLUMNS;
use crate::{Bounds, List, Model, ModelParts, Name, OutOfMemory, Row, Term, Text};
use std::alloc::Global;

/// A row in plain numbers: the coefficient of each column, and what they are to come to at least.
#[derive(Clone, Copy, Debug)]
pub struct DenseRow<'a> {
    pub coefs: &'a [i64],
    pub least: i64,
}

/// A small model in plain numbers: for each column its cost, its low and its high, and rows with a coefficient for
/// each column.
#[derive(Clone, Copy, Debug)]
pub struct DenseModel<'a> {
    pub costs: &'a [i64],
    pub lows: &'a [i64],
    pub highs: &'a [i64],
    pub rows: &'a [DenseRow<'a>],
}

impl DenseModel<'_> {
    /// The model of these numbers, which minimises and has no constant and no decimals. Each name is `x`, and a row has
    /// no term where its coefficient is 0. None exactly where a row has more or fewer coefficients than there are costs,
    /// or where the parts make no model.
    pub fn build(&self, alloc: Global) -> Result<Option<Model>, OutOfMemory>
        ensures { IfOk result (λ m. SomeIff m (IsDense self.now) (dense_parts self.now)) }
    {
        let columns = self.costs.len();
        if columns > MAX_COLUMNS || self.lows.len() != columns {
            return Ok(None);
        }
        if !has_columns(self.rows, columns) {
            return Ok(None);
        }
        let lows = List::of(Vec::from_slice(alloc, self.lows)?);
        let highs = List::of(Vec::from_slice(alloc, self.highs)?);
        let Some(root) = Bounds::of(lows, highs) else {
            return Ok(None);
        };
        let name = dense_name(alloc)?;
        let cols = dense_names(alloc, columns)?;
        let costs = List::of(Vec::from_slice(alloc, self.costs)?);
        let rows = dense_rows(alloc, self.rows, columns)?;
        Ok(Model::of(ModelParts {
            name,
            cols,
            costs,
            constant: 0,
            decimals: 0,
            maximise: false,
            root,
            rows,
        }))
    }
}

/// Whether each row has so many coefficients.
fn has_columns(rows: &[DenseRow], columns: usize) -> bool
    ensures { IsTrue result ↔ HasColumns columns rows.now }
{
    for row in rows {
        if row.coefs.len() != columns {
            return false;
        }
    }
    true
}

/// The name `x`.
fn dense_name(alloc: Global) -> Result<Name, OutOfMemory>
    ensures { IfOk result (λ name. name ≡ 120 ∷ []) }
{
    let mut text = Text::new(alloc);
    text.push(b'x')?;
    match Name::of(text) {
        Some(name) => Ok(name),
        None => unreachable!(),
    }
}

/// So many names `x`.
fn dense_names(alloc: Global, count: usize) -> Result<List<Name>, OutOfMemory>
    ensures { IfOk result (λ names. names ≡ replicate count (120 ∷ [])) }
{
    let mut names = List::new(alloc);
    for _ in 0..count {
        names.push(dense_name(alloc)?)?;
    }
    Ok(names)
}

/// The rows of dense rows.
fn dense_rows(alloc: Global, rows: &[DenseRow], columns: usize) -> Result<List<Row>, OutOfMemory>
    requires columns { HasColumns columns rows.now }
    requires few { columns ≤ MAX_COLUMNS }
    ensures { IfOk result (λ list. list ≡ dense_rows rows.now) }
{
    let mut list = List::new(alloc);
    for row in rows {
        list.push(dense_row(alloc, row)?)?;
    }
    Ok(list)
}

/// The row of a dense row.
fn dense_row(alloc: Global, row: &DenseRow) -> Result<Row, OutOfMemory>
    requires { length row.now.coefs.now ≤ MAX_COLUMNS }
    ensures { IfOk result (λ made. made ≡ dense_row row.now) }
{
    let mut terms = List::new(alloc);
    let mut col = 0u32;
    for &coef in row.coefs {
        add_term(&mut terms, col, coef)?;
        col += 1;
    }
    let least = row.least;
    Ok(Row { terms, least })
}

/// Appends the term of a coefficient, if it isn't 0.
fn add_term(terms: &mut List<Term>, col: u32, coef: i64) -> Result<(), OutOfMemory>
    ensures { OnOk result (terms.new ≡ terms.old ++ dense_term col coef) }
{
    if coef != 0 {
        terms.push(Term { col, coef })?;
    }
    Ok(())
}
