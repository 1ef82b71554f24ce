//! Sample models: knapsack problems of 400 columns and 100 rows, each drawn from one number.
//!
//! A chain of states begins with the number. A draw below n takes the next state and gives a number below n. First each
//! column's upper bound is drawn, from 1 to 3, then each column's cost, from -100 to -1, then each row's coefficients: a
//! quarter of the places has one, from 1 to 50. A row allows a third of what its columns add up to at their upper bounds.
#![tactic(auto)]

mod draws;
mod knapsack;
mod laws;
mod sample;
#[cfg(test)]
mod tests;
mod whole;

pub use laws::samples_are_admitted;
pub use sample::generate;
