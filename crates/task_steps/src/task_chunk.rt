use crate::keep::Keep;
use crate::local::Task;
use ip_core::{Bounds, List, Record, Tighten};
use work_stamp::Entry;

/// The slot that works on a task, and how often it has split a node.
#[derive(Clone, Copy)]
pub struct Worker {
    pub slot: u32,
    pub splits: u64,
}

/// What a chunk has come to: the box after the passes, the tightenings that led to it, and the work
/// that it counts.
#[derive(Debug, Drop)]
pub struct Progress {
    pub bounds: Bounds,
    pub steps: List<Tighten>,
    pub work: u64,
}

/// A split that a chunk makes: its column and value, the child that is kept, and the bound of both
/// children.
#[derive(Clone, Copy)]
pub struct SplitChoice {
    pub col: u32,
    pub at: i64,
    pub keep: Keep,
    pub bound: i64,
}

/// What a chunk on a node gives: its entries, its records and the work that it counts; how the task
/// goes on; and the slot's count of splits.
#[derive(Debug, Drop)]
pub struct TaskChunk {
    pub entries: List<Entry>,
    pub records: List<Record>,
    pub work: u64,
    pub task: Option<Task>,
    pub splits: u64,
}
