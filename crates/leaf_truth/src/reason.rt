/// Why a leaf doesn't hold.
#[derive(Clone, Copy, Debug, PartialEq, Eq)]
pub enum LeafReason {
    /// A step's row or column doesn't exist, the column isn't in the row, the side isn't that of the coefficient's
    /// sign, or the box has an empty column before the step.
    BadStep,
    /// After the steps, the row doesn't exist or doesn't conflict, or the box has an empty column beside; or the column
    /// that is said to be empty doesn't exist or isn't empty.
    BadConflict,
    /// The rows of the multipliers don't exist or don't rise, a multiplier is above 2^40, the box has an empty column
    /// after the steps, or the bound there is below the value.
    BadBound,
}
