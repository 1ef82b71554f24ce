use ip_core::{Derivation, Point};

/// What a slot publishes.
#[derive(Debug, Drop)]
pub enum Entry {
    /// A task begins with an open node, which it holds from then on.
    Start {
        node: u64,
    },
    /// A task begins to look for cuts.
    CutStart,
    /// A task begins to look for a feasible point from an open node, which stays open.
    HeurStart {
        node: u64,
    },
    /// A task ends.
    Done,
    /// A feasible point with its value.
    Found {
        value: i64,
        point: Point,
    },
    /// A cut, by the way in which it follows from the rows before it.
    Cut {
        derivation: Derivation,
    },
    /// A held node is parted in two: `first` with the column at most `at`, and the next name with it at least `at + 1`.
    /// The task keeps the first child where `keep` is 0, the second where it is 1, and none where it is 2.
    Split {
        node: u64,
        col: u32,
        at: i64,
        first: u64,
        keep: u8,
        bound: i64,
    },
    /// A held node is done with.
    Closed {
        node: u64,
    },
    /// The slot's entries no longer fit into its store.
    Halt,
}
