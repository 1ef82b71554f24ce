use ip_core::Leaf;

/// A node of a certificate's tree, with a box that its place in the tree gives it.
#[derive(Debug, Drop)]
pub enum CertNode {
    /// The box is parted at a column: at most `at` in the low child, and at least `next` in the high one.
    Split { col: u32, at: i64, next: i64 },
    /// The box is done with, for this reason.
    Leaf(Leaf),
}
