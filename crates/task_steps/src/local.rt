use ip_core::{Bounds, List, Point, Row};

/// What a slot keeps: its number, how often it has split a node, the cuts that its task works with,
/// and the task, none between tasks. The cuts are those of the view at the task's start,
/// and those that the task itself found.
#[derive(Debug, Drop)]
pub struct Local {
    pub slot: u32,
    pub splits: u64,
    pub cuts: List<Row>,
    pub task: Option<Task>,
}

/// What a slot works on.
#[derive(Debug, Drop)]
pub enum Task {
    /// It closes or splits nodes, one in each chunk.
    Nodes(NodeTask),
    /// It looks for cuts that the model's rows give on the root box.
    Cuts(CutTask),
    /// It looks for a feasible point in the box of an open node.
    Dive(DiveTask),
}

/// The number of chunks that a task for cuts has begun, with this one.
#[derive(Clone, Copy, Debug)]
pub struct CutTask {
    pub chunks: u32,
}

/// What a task on nodes keeps: its node with the node's box, the value that a point must be below
/// to be worth finding, and the number of nodes that the task has begun, with this one. The box is
/// the root box cut by the splits on the node's path, without what passes tightened.
#[derive(Debug, Drop)]
pub struct NodeTask {
    pub node: u64,
    pub bounds: Bounds,
    pub cutoff: i64,
    pub nodes: u32,
}

/// What a dive keeps: its box, which is its node's at first; the value that a point must be below
/// to be worth finding; and the point that it goes towards, none before its first chunk.
#[derive(Debug, Drop)]
pub struct DiveTask {
    pub bounds: Bounds,
    pub cutoff: i64,
    pub point: Option<Point>,
}
