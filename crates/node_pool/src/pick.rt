/// What a slot between tasks takes.
#[derive(Clone, Copy, Debug, PartialEq, Eq)]
pub enum Pick {
    /// It looks for cuts at the root.
    CutLoop,
    /// It looks for a feasible point from this open node, which stays open.
    Heuristic(u64),
    /// It takes this open node.
    Node(u64),
    /// Nothing is open, but a node is held, whose children may come.
    Nothing,
    /// The search is over: a Halt stands, or nothing is open or held.
    Over,
}
