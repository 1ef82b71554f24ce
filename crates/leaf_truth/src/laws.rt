ghost use Rattle.leaf_truth.specs.Laws.{BoundGivesLeaf, LeafCloses, LeafHoldsBelow, LeafHoldsOverMore, LeafReasonIsExact, OutcomeGivesLeaf};

/// A law with nothing to run: a leaf that holds at a value on a box closes the box at this value, where every feasible
/// point meets the cuts.
pub fn leaf_closes()
    ensures { LeafCloses }
{}

/// A law with nothing to run: where passes over a box end with another outcome than Open, their steps and their outcome
/// make a leaf that holds at every value.
pub fn outcome_gives_leaf()
    ensures { OutcomeGivesLeaf }
{}

/// A law with nothing to run: where passes over a box leave it open, and the bound of multipliers on the box after them
/// is at least a value, the steps with the multipliers above 0 make a leaf that holds at this value.
pub fn bound_gives_leaf()
    ensures { BoundGivesLeaf }
{}

/// A law with nothing to run: a leaf that holds at a value holds at each lesser one.
pub fn leaf_holds_below()
    ensures { LeafHoldsBelow }
{}

/// A law with nothing to run: a leaf that holds over cuts holds where more cuts stand behind them.
pub fn leaf_holds_over_more()
    ensures { LeafHoldsOverMore }
{}

/// A law with nothing to run: a leaf has no reason exactly where each of its steps is lawful on the box after the steps
/// before it, and its closing is so of the box after all of them.
pub fn leaf_reason_is_exact()
    ensures { LeafReasonIsExact }
{}
