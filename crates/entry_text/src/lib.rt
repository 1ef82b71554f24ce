//! The lines of a search's log that tell of its entries, and the text of a cut's derivation.
#![tactic(auto)]

mod derivation;
mod entry;
mod field;
#[cfg(test)]
mod tests;

pub use derivation::append_derivation;
pub use entry::append_entries;
pub use field::{append_number, append_row, append_signed};
