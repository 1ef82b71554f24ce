//! The checker: whether a certificate shows what it says of a model.
//!
//! It judges the lines of a certificate in order. Each cut is derived over the rows before it. The tree is gone through
//! with one box, which each split narrows and which is put back behind the split's children. A leaf is tried on a copy
//! of the box.
#![tactic(auto)]

mod branch;
mod checker;
mod cuts;
mod laws;
mod lines;
mod nodes;
#[cfg(test)]
mod tests;
mod verdict;
mod walk;

pub use checker::check;
pub use laws::{accepted_is_faultless, accepted_is_true};
pub use verdict::{Verdict, Why};
