use crate::bound_change::BoundChange;

/// How a node came to be: the place of the branching that made it, the change of its parent's box,
/// and its parent.
#[derive(Clone, Copy)]
pub struct Origin {
    pub place: usize,
    pub change: BoundChange,
    pub parent: u64,
}
