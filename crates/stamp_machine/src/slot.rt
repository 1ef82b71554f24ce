use ip_core::{List, Record};
use work_stamp::Entry;

/// A slot: its count of work, the number of words that it has published, its records, and what it works with while it
/// lives.
#[derive(Debug, Drop)]
pub struct Slot<L> {
    pub clock: u64,
    pub words: u64,
    pub records: List<Record>,
    pub live: Option<Live<L>>,
}

/// What a live slot works with: its local, and the entries and records of its last chunk, which join at its next move.
#[derive(Debug, Drop)]
pub struct Live<L> {
    pub local: L,
    pub pending: List<Entry>,
    pub leaves: List<Record>,
}
