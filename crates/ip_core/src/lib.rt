//! Pure integer models: names, rows, boxes, points, and what it means that a point is feasible.
//!
//! A model asks for whole numbers, one per column, within a box and meeting rows of the form
//! `sum of coefficient times value >= least`, at the least cost.
#![tactic(auto)]

mod bounds;
pub mod decimal;
pub mod dense;
mod derivation;
mod feasible;
mod leaf;
mod limits;
mod list;
mod memory;
mod model;
mod name;
mod numeral;
mod point;
mod row;
mod row_ref;
mod terms;
#[cfg(test)]
mod tests;
mod text;
mod value_range;
mod width;

pub use bounds::Bounds;
pub use decimal::{Decimal, NumeralError};
pub use derivation::Derivation;
pub use feasible::{is_feasible, value};
pub use leaf::{Closing, Leaf, Pair, Record, Tighten};
pub use limits::{
    MAX_BOUND, MAX_COLUMNS, MAX_DECIMALS, MAX_NAME, MAX_ROWS, MAX_TERMS, MAX_WIDTH, limit_numbers,
};
pub use list::List;
pub use memory::OutOfMemory;
pub use model::{Model, ModelParts};
pub use name::Name;
pub use point::Point;
pub use row::{Row, Term};
pub use row_ref::RowRef;
pub use terms::{greatest_activity, greatest_part, term_count};
pub use text::Text;
pub use value_range::{greatest_value, least_value};
