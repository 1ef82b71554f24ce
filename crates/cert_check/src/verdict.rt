ghost use Rattle.std.specs.Prelude.{◌≡◌};
ghost use Rattle.cert_check.specs.Reasons.{reason_number};

/// Why a certificate is rejected. The reasons are numbered from 1 to 10, in this order, and of the reasons that a line
/// has the one with the least number decides.
#[derive(Clone, Copy, Debug, PartialEq, Eq)]
pub enum Why {
    /// The point has another number of values than the model has columns, or leaves the root box.
    PointBounds,
    /// The point doesn't meet a row.
    PointRow,
    /// The value isn't that of the point; or there is no point, and the value isn't one more than the greatest value
    /// on the root box.
    PointValue,
    /// The cut doesn't follow from the rows and cuts before it.
    CutDerivation,
    /// There is no such column.
    SplitColumn,
    /// The high child doesn't begin one above the low one's end.
    SplitGap,
    /// A step of a leaf can't be made.
    Step,
    /// A row doesn't conflict, or a column isn't empty.
    Conflict,
    /// The multipliers don't bound the box at the value.
    Bound,
    /// The numbers of columns and rows aren't those of the model.
    Size,
}

impl Why {
    /// The number of the reason, from 1 to 10 in their order.
    pub fn number(self) -> u32
        ensures { result ≡ reason_number self }
    {
        match self {
            Why::PointBounds => 1,
            Why::PointRow => 2,
            Why::PointValue => 3,
            Why::CutDerivation => 4,
            Why::SplitColumn => 5,
            Why::SplitGap => 6,
            Why::Step => 7,
            Why::Conflict => 8,
            Why::Bound => 9,
            Why::Size => 10,
        }
    }
}

/// What the checker says of a certificate.
#[derive(Clone, Copy, Debug, PartialEq, Eq)]
pub enum Verdict {
    /// No line has a reason.
    Accepted,
    /// The first line with a reason, numbered from 1 as in the certificate's text, and the least of its reasons.
    Rejected { line: u32, why: Why },
}
