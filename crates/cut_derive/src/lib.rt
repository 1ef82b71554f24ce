//! Cuts: rows that every feasible point of a model meets, each derived from rows before it.
//!
//! A derivation says how: a weighted sum of rows, divided and rounded up, or a cover of a row. It gives its row, or the
//! first reason that refuses it, whoever made it.
#![tactic(auto)]

mod chosen;
mod cover;
mod derived;
mod error;
mod gomory;
mod laws;
mod limits;
mod numbers;
mod refusal;
mod rounding;
mod rows;
mod sums;
#[cfg(test)]
mod tests;

pub use cover::{is_binary, slack};
pub use derived::{derive, derived_row};
pub use error::CutError;
pub use laws::{
    derived_are_cut_rows, derived_are_valid, derived_over_more, derived_row_is_cut,
    derived_row_is_met,
};
pub use limits::{MAX_CUT_TERMS, MAX_CUTS, MAX_DIVISOR, MAX_PARTS};
pub use numbers::is_count;
pub use refusal::Refusal;
pub use rounding::{round_up, rounded_least, rounded_sum};
pub use sums::{combined_coefficients, combined_least};
