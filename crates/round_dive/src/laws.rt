ghost use Rattle.round_dive.specs.Laws.{FixedBoxIsDecided, StepFixesColumn, StepIsSound};

/// A law with nothing to run: a step leaves a box within the one before, and no empty column unless it is stuck. A
/// point that it finds is feasible, and its work is at most that of ten passes.
pub fn step_is_sound()
    ensures { StepIsSound }
{}

/// A law with nothing to run: where a column isn't fixed, a step leaves fewer such columns, unless it is stuck. So a
/// dive takes no more such steps than its first box has columns that aren't fixed.
pub fn step_fixes_column()
    ensures { StepFixesColumn }
{}

/// A law with nothing to run: a step from a box whose columns are all fixed is stuck, or it leaves the box as it is and
/// finds its point. So a dive takes at most one step more once all columns are fixed.
pub fn fixed_box_is_decided()
    ensures { FixedBoxIsDecided }
{}
