//! The models of MPS files, in decimal numbers, and the canonical text that each of them has.
//!
//! A model has rows of all kinds with ranges, columns with limits, and names for all of them. What holds of the model of
//! every file is `IsMpsModel`; [`canonical_text`] writes such a model as a file.
#![tactic(auto)]

mod bounds;
mod canonical;
mod columns;
mod fields;
mod header;
mod model;
mod ranges;
mod rows;
mod sides;
#[cfg(test)]
mod tests;

pub use canonical::canonical_text;
pub use model::{Limit, MpsCol, MpsEntry, MpsModel, MpsRow, RowKind};
