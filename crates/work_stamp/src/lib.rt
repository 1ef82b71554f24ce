//! What a slot of a search tells the others: entries under keys, entries as words, and what a system of tasks owes.
//!
//! A slot works on tasks and publishes entries. Each entry has a key: the slot's count of work at that time and the slot.
//! A list of entries in the order of their keys is a history.
#![tactic(auto)]

mod entry;
mod error;
mod key;
mod kind;
mod laws;
mod no_pulse;
mod pulse;
mod read;
mod stamped;
mod task;
mod tasker;
#[cfg(test)]
mod tests;
mod write;

pub use entry::Entry;
pub use error::WordsError;
pub use key::Key;
pub use laws::{no_words_begin_others, only_words_are_read, words_are_read_again};
pub use no_pulse::NoPulse;
pub use pulse::Pulse;
pub use read::read_words;
pub use stamped::{KeyedEntry, Stamped, WordRead};
pub use task::{Begin, Chunk};
pub use tasker::Tasker;
pub use write::to_words;
