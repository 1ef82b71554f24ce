//! Admits the model of a file to the search: rows of at least in whole numbers, within the limits of a model.
#![tactic(auto)]

mod admission;
mod build;
mod columns;
mod error;
mod gather;
mod laws;
mod objective;
mod refusal;
mod refuse;
mod rows;
mod scale;
mod sides;
#[cfg(test)]
mod tests;

pub use admission::admit;
pub use error::AdmitError;
pub use laws::{
    admission_keeps_answers, admission_keeps_points, admission_keeps_rows, admission_keeps_values,
};
pub use refusal::Refusal;
