//! What makes the answer of a search true, whatever the order in which it looks at boxes.
//!
//! A search keeps the boxes that are left and the best point so far. In one step each box stays, is closed for a reason,
//! or is parted in two, and the best point stays or gives way to a feasible one of smaller value. A search that began
//! with the root box and has no box left has a best point of the model, or shows that there is none.
#![tactic(auto)]

ghost use Rattle.search_truth.specs.Search.{SearchIsTrue};

/// A law over every search of every model, with nothing to run: once no box is left, the best point is one of the least
/// value, and where there is no best point, no point is feasible.
pub fn search_is_true()
    ensures { SearchIsTrue }
{}
