ghost use Rattle.std.specs.Prelude.{◌≡◌, ◌≤◌, ◌↔◌, length, IsTrue};
ghost use Rattle.std.specs.Option.{SomeIff};
ghost use Rattle.ip_core.specs.Sides.{IsWithinLimit};
ghost use Rattle.ip_core.specs.Rows.{AreRows};
ghost use Rattle.ip_core.specs.Models.{HasBounds, HasFewRows, IsModel, term_count};

use crate::limits::{MAX_BOUND, MAX_COLUMNS, MAX_DECIMALS, MAX_ROWS, MAX_TERMS, MAX_WIDTH};
use crate::width::{is_row, objective_width};
use crate::{Bounds, List, Name, Row};

/// What a model is made of. Costs and constant are those of minimising: where the file maximises, both are negated.
#[derive(Debug, Drop)]
pub struct ModelParts {
    pub name: Name,
    pub cols: List<Name>,
    pub costs: List<i64>,
    pub constant: i64,
    pub decimals: u8,
    pub maximise: bool,
    pub root: Bounds,
    pub rows: List<Row>,
}

/// A model within all limits: at most 4,096 columns, 4,096 rows and 65,536 terms, bounds in -2^31 to 2^31,
/// at most 9 decimals, and no width above 2^50. The columns of a row rise, and no coefficient is zero.
#[derive(Debug, Drop)]
pub struct Model {
    parts: ModelParts,
}

impl std::marker::Model for Model {
    ghost use Rattle.ip_core.specs.declared.model.ModelParts.{ModelParts};
    ghost use Rattle.ip_core.specs.Models.{IsModel};

    ghost Value = { ModelParts };

    ghost view = { λ m. m.parts };

    ghost invariant = { λ m. IsModel m.parts };
}

impl Model {
    /// The model of these parts, or None exactly where a limit is broken, a list has another length than the columns,
    /// a row names an unknown column, a row's columns don't rise, or a coefficient is zero. It takes no memory.
    pub fn of(parts: ModelParts) -> Option<Model>
        ensures { SomeIff result (IsModel parts) parts }
    {
        if is_model(&parts) {
            Some(Model { parts })
        } else {
            None
        }
    }

    /// The parts of the model, which keep its limits.
    pub fn parts(&self) -> &ModelParts
        ensures value { result.now ≡ self.now }
        ensures limits { IsModel self.now }
    {
        &self.parts
    }

    /// The name of the model.
    pub fn name(&self) -> &Name
        ensures { result.now ≡ self.now.name }
    {
        &self.parts.name
    }

    /// The names of the columns.
    pub fn cols(&self) -> &[Name]
        ensures { result.now ≡ self.now.cols }
    {
        self.parts.cols.as_slice()
    }

    /// The cost of each column, to be kept small.
    pub fn costs(&self) -> &[i64]
        ensures { result.now ≡ self.now.costs }
    {
        self.parts.costs.as_slice()
    }

    /// What is added to the value of a point.
    pub fn constant(&self) -> i64
        ensures { result ≡ self.now.constant }
    {
        self.parts.constant
    }

    /// How many decimals the objective has: a value stands for itself divided by 10 to this power.
    pub fn decimals(&self) -> u8
        ensures { result ≡ self.now.decimals }
    {
        self.parts.decimals
    }

    /// Whether the file maximises, so that costs and constant are negated.
    pub fn maximise(&self) -> bool
        ensures { result ≡ self.now.maximise }
    {
        self.parts.maximise
    }

    /// The box in which all points lie.
    pub fn root(&self) -> &Bounds
        ensures { result.now ≡ self.now.root }
    {
        &self.parts.root
    }

    /// The rows, each to be met.
    pub fn rows(&self) -> &[Row]
        ensures { result.now ≡ self.now.rows }
    {
        self.parts.rows.as_slice()
    }
}

fn is_model(parts: &ModelParts) -> bool
    ensures { IsTrue result ↔ IsModel parts.now }
{
    if !has_bounds(parts) {
        return false;
    }
    if !has_few_rows(parts.rows.as_slice()) {
        return false;
    }
    if !are_rows(parts) {
        return false;
    }
    if objective_width(parts) > MAX_WIDTH {
        return false;
    }
    parts.decimals <= MAX_DECIMALS
}

fn has_bounds(parts: &ModelParts) -> bool
    ensures { IsTrue result ↔ HasBounds parts.now }
{
    let columns = parts.cols.len();
    let lows = parts.root.lows();
    if columns > MAX_COLUMNS || parts.costs.len() != columns || lows.len() != columns {
        return false;
    }
    if !is_within_limit(lows) {
        return false;
    }
    is_within_limit(parts.root.highs())
}

fn is_within_limit(bounds: &[i64]) -> bool
    ensures { IsTrue result ↔ IsWithinLimit bounds.now }
{
    bounds
        .iter()
        .all(|&bound| bound.unsigned_abs() <= MAX_BOUND)
}

fn has_few_rows(rows: &[Row]) -> bool
    ensures { IsTrue result ↔ HasFewRows rows.now }
{
    rows.len() <= MAX_ROWS && has_few_terms(rows)
}

fn has_few_terms(rows: &[Row]) -> bool
    ensures { IsTrue result ↔ (term_count rows.now ≤ MAX_TERMS) }
{
    let mut left = MAX_TERMS;
    for row in rows {
        let terms = row.terms.len();
        if terms > left {
            return false;
        }
        left -= terms;
    }
    true
}

fn are_rows(parts: &ModelParts) -> bool
    requires bounds { HasBounds parts.now }
    requires few { term_count parts.now.rows ≤ MAX_TERMS }
    ensures { IsTrue result ↔ AreRows (length parts.now.cols) parts.now.root parts.now.rows }
{
    for row in parts.rows.as_slice() {
        if !is_row(row, &parts.root) {
            return false;
        }
    }
    true
}
