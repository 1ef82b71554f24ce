ghost use Rattle.std.specs.Prelude.{◌≡◌, ◌<◌, ◌^◌, IfSome};
ghost use Rattle.cert_text.specs.Places.{is_over as is_over_at, next_place, node_place as place_of_node, trees_due as trees_due_after, IsPlace};

use cert_line::Line;
use tree_cert::CertNode;

/// The line that must come next.
#[derive(Clone, Copy)]
pub(crate) enum Place {
    /// The line that names the format.
    Header,
    /// The line `size`.
    Size,
    /// The line `value`.
    Value,
    /// The line `point`, or `none`.
    Point,
    /// The line `cuts`.
    Cuts,
    /// A cut where some are left, and else the line `tree`.
    Cut { left: u32 },
    /// A node: so many are left, and so many trees are due in them.
    Node { left: u32, due: u64 },
    /// The line `end`.
    End,
    /// No line.
    Nothing,
}

/// The trees that are due after a node, where so many were due behind it.
fn trees_due(node: &CertNode, due: u64) -> u64
    requires { due < 2 ^ 32 }
    ensures { result ≡ trees_due_after node.now due }
{
    match node {
        CertNode::Split { .. } => due + 2,
        CertNode::Leaf(_) => due,
    }
}

/// The place of a node where so many are left and so many trees are due in them.
fn node_place(left: u32, due: u64) -> Option<Place>
    ensures { result ≡ place_of_node left due }
{
    match (left, due) {
        (0, 0) => Some(Place::End),
        (0, _) | (_, 0) => None,
        _ => Some(Place::Node { left, due }),
    }
}

impl Place {
    /// Whether no line may come.
    pub(crate) fn is_over(self) -> bool
        ensures { result ≡ is_over_at self }
    {
        matches!(self, Place::Nothing)
    }

    /// The place after a line, or None where the line can't stand here.
    pub(crate) fn next(self, line: &Line) -> Option<Place>
        requires { IsPlace self }
        ensures next { result ≡ next_place self line.now }
        ensures kept { IfSome result (λ place. IsPlace place) }
    {
        match (self, line) {
            (Place::Header, Line::Header) => Some(Place::Size),
            (Place::Size, Line::Size { .. }) => Some(Place::Value),
            (Place::Value, Line::Value(_)) => Some(Place::Point),
            (Place::Point, Line::Point(_)) => Some(Place::Cuts),
            (Place::Cuts, Line::Cuts(number)) => Some(Place::Cut { left: *number }),
            (Place::Cut { left: 0 }, Line::Tree(number)) => node_place(*number, 1),
            (Place::Cut { left }, Line::Cut(_)) if left > 0 => Some(Place::Cut { left: left - 1 }),
            (Place::Node { left, due }, Line::Node(node)) if left > 0 && due > 0 => {
                node_place(left - 1, trees_due(node, due - 1))
            }
            (Place::End, Line::End) => Some(Place::Nothing),
            _ => None,
        }
    }
}
