//! What makes a leaf of a proof tree hold, and what follows where it does.
//!
//! A leaf says why a box is done with: tightenings of the box in order, and then a row that conflicts, a column that
//! is empty, or multipliers whose bound is high enough. Whether it holds depends on the model, the cuts, the box and
//! a value. Where it holds, no feasible point of the box has a smaller value, whoever made the leaf.
#![tactic(auto)]

mod closing;
mod laws;
mod leaf;
mod multipliers;
mod reason;
mod rows;
mod scratch;
mod steps;
#[cfg(test)]
mod tests;

pub use laws::{
    bound_gives_leaf, leaf_closes, leaf_holds_below, leaf_holds_over_more, leaf_reason_is_exact,
    outcome_gives_leaf,
};
pub use leaf::leaf_reason;
pub use multipliers::pairs_of;
pub use reason::LeafReason;
pub use scratch::Scratch;
