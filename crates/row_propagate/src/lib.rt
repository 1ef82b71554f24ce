//! Propagation: the bounds that rows give to the columns of a box, applied in passes.
//!
//! A row that is met leaves each of its columns at least what the other columns can't give. This raises the column's low
//! or lowers its high, rounded to whole numbers. Passes over all rows go on until one changes nothing, a row asks for more
//! than the box can give, or a column becomes empty. No point of the box that meets all rows is lost.
#![tactic(auto)]

mod activities;
mod activity;
mod columns;
mod narrowing;
mod outcome;
mod passes;
mod quotient;
mod row_kind;
mod single;
mod sums;
#[cfg(test)]
mod tests;
mod visiting;
mod visits;

pub use activities::Activities;
pub use outcome::{Outcome, PassRun};
pub use passes::propagate;
pub use single::{conflict, tighten};
