//! The search for cuts that a point doesn't meet.
//!
//! Derivations are tried in one fixed order, and the rows of those that serve are kept with them: each row of the model
//! and each cut alone, all of them weighted by multipliers, and the cover of each.
#![tactic(auto)]

mod activity;
mod combined_cuts;
mod cover_cuts;
mod divisors;
mod keep;
mod laws;
mod limits;
mod new_cut;
mod own_cuts;
mod separation;
mod source;
#[cfg(test)]
mod tests;
mod violation;

pub use laws::{new_cuts_are_derived, separated_are_new};
pub use limits::MAX_NEW_CUTS;
pub use new_cut::NewCut;
pub use separation::separate;
