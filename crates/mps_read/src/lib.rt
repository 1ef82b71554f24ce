//! Reads MPS files: models in decimal numbers, with rows of all kinds, ranges, bounds and several sets.
//!
//! Blanks, tabs and carriage returns part the fields of a line, so columns of text mean nothing. A line that begins with
//! `*` is a comment. A section line begins with its name, and a data line with what parts fields. The sections are
//! `NAME` and `OBJSENSE`, which may be missing, `ROWS`, `COLUMNS`, then `RHS`, `RANGES` and `BOUNDS` in any order, each
//! of which may be missing, and `ENDATA`.
//!
//! [`read`] gives the model, or the first line that isn't allowed given those before it with the first [`MpsKind`] that
//! applies to it. A line is judged by what all lines before it say; the reader goes over the bytes once, with numbered
//! names.
#![tactic(auto)]

mod bounds;
mod columns;
mod draft;
mod error;
mod found_row;
mod name;
mod names;
mod numeral;
mod printer;
mod reader;
mod rows;
mod section_line;
mod sets;
mod sides_and_ranges;
#[cfg(test)]
mod tests;

pub use error::{MpsError, MpsKind};
pub use mps_model::{Limit, MpsCol, MpsEntry, MpsModel, MpsRow, RowKind};
pub use printer::print;
pub use reader::read;
