//! Lower bounds on the value of a model's points within a box, from one multiplier for each row.
//!
//! A multiplier stands for itself divided by 1,024. Whatever the multipliers are, no point of the box that meets all
//! rows has a value below the bound.
#![tactic(auto)]

mod costs;
mod lagrangian;
mod laws;
mod limits;
#[cfg(test)]
mod tests;

pub use lagrangian::{bound, least_point, numerator};
pub use laws::{bound_is_safe, greatest_multiplier, numerator_is_small};
pub use limits::{MAX_MULTIPLIER, SCALE};
