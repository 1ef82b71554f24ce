//! The log of a search: how it was run, what each slot told the others, and how it ended.
#![tactic(auto)]

mod log;
#[cfg(test)]
mod tests;

pub use log::log_text;
