use ip_core::{List, Record};
use work_stamp::KeyedEntry;

/// What the slots leave: their entries in the order of the keys, and of each slot its records in order and the clock at
/// which it ended.
#[derive(Debug, Drop)]
pub struct History {
    pub entries: List<KeyedEntry>,
    pub records: List<List<Record>>,
    pub ends: List<u64>,
}
