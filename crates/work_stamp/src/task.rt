use crate::Entry;
use ip_core::{List, Record};

/// What a slot between tasks does.
#[derive(Debug, Drop)]
pub enum Begin {
    /// It takes a task, and publishes these entries.
    Take(List<Entry>),
    /// It waits.
    Idle,
    /// It is over.
    End,
}

/// What a part of a task gives: entries to publish, records of closed nodes, and the work that it counts.
#[derive(Debug, Drop)]
pub struct Chunk {
    pub entries: List<Entry>,
    pub records: List<Record>,
    pub work: u64,
}
