use ip_core::{Derivation, Point};
use tree_cert::CertNode;

/// A line of a certificate.
#[derive(Debug, Drop)]
pub enum Line {
    /// The first line: `xsearch certificate 1`.
    Header,
    /// The model's numbers of columns and of rows: `size COLS ROWS`.
    Size { cols: u32, rows: u32 },
    /// The value that the certificate shows to be the least: `value V`.
    Value(i64),
    /// A point by its values, or that there is none: `point X..` or `none`.
    Point(Option<Point>),
    /// How many cut lines follow: `cuts N`.
    Cuts(u32),
    /// A cut: `gomory DIVISOR K` with K rows and weights, or `cover ROW K` with K columns.
    Cut(Derivation),
    /// How many node lines follow: `tree M`.
    Tree(u32),
    /// A node: `split COL AT NEXT`, or `leaf K` with K steps and a closing.
    Node(CertNode),
    /// The last line: `end`.
    End,
}

/// What the bytes of a line are read as.
#[derive(Debug, Drop)]
pub enum LineReading {
    /// The words don't stand as in any form of line.
    NoForm,
    /// The words stand as in a form of line, and one of its numbers isn't canonical or lies outside its range.
    BadNumber,
    /// This line.
    Is(Line),
}
