//! The certificate of a finished search, made from its history and its records.
//!
//! Each split of the history is an inner node of the certificate's tree, and each node that was
//! closed is a leaf with the reason that its record gives.
#![tactic(auto)]

mod certificate;
mod copies;
mod laws;
mod parting;
mod record_place;
mod tree;

pub use certificate::build;
pub use laws::{
    finished_has_text, finished_is_proof, finished_searches_are_accepted, trees_are_whole,
};

#[cfg(test)]
mod tests;
