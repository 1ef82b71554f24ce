use crate::Slot;
use ip_core::List;
use work_stamp::KeyedEntry;

/// The history so far with its view.
#[derive(Drop)]
pub struct HistoryView<V> {
    pub entries: List<KeyedEntry>,
    pub view: V,
}

/// What a slot's move leaves.
#[derive(Drop)]
pub struct AfterMove<V, L> {
    pub so_far: HistoryView<V>,
    pub slot: Slot<L>,
}

/// The history so far with its view, and the slots.
#[derive(Drop)]
pub struct Play<V, L> {
    pub so_far: HistoryView<V>,
    pub slots: List<Slot<L>>,
}
