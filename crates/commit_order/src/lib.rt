//! Entries of several slots, brought into the order of their keys.
//!
//! Each slot publishes its entries in the order of their stamps. A merge is fed with them slot by
//! slot, and gives them back in the order of their keys, as far as a caller asks.
#![tactic(auto)]

mod key_heap;
mod laws;
mod merge;
mod queue;
#[cfg(test)]
mod tests;

pub use laws::{fed_entry_waits_last, taken_entry_is_least, taken_entry_waited_first};
pub use merge::Merge;
