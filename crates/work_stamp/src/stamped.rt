use crate::{Entry, Key};

/// An entry with its stamp, the slot's count of work when it was published.
#[derive(Debug, Drop)]
pub struct Stamped {
    pub stamp: u64,
    pub entry: Entry,
}

/// An entry of a history under its key.
#[derive(Debug, Drop)]
pub struct KeyedEntry {
    pub key: Key,
    pub entry: Entry,
}

/// What was read from the front of a list of words, and the number of the words that it took.
#[derive(Debug, Drop)]
pub struct WordRead {
    pub item: Stamped,
    pub used: u32,
}
