/// A split on the path to a node, in whose low or high child the path goes on.
#[derive(Clone, Copy, Debug)]
pub enum Branch {
    /// In the low child: the column's high in the box of the split, and the column's low in the high child.
    Low { col: u32, high: i64, next: i64 },
    /// In the high child: the column's low in the box of the split.
    High { col: u32, low: i64 },
}
