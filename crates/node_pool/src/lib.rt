//! The pool of open nodes: what the history of a search comes to.
//!
//! The history's entries are absorbed one after the other. The pool then tells which node is the
//! best to go on with, what a slot between tasks takes, and the box of a node.
#![tactic(auto)]

mod bound_change;
mod branching;
mod laws;
mod node;
mod origin;
mod pick;
mod pool;
mod settings;
mod tree;

pub use bound_change::BoundChange;
pub use branching::Branching;
pub use laws::{best_is_least, boxes_are_parts, cuts_are_derived, entries_are_counted};
pub use node::OpenNode;
pub use pick::Pick;
pub use pool::Pool;
pub use settings::SearchSettings;

#[cfg(test)]
mod tests;
