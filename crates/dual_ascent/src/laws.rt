ghost use Rattle.dual_ascent.specs.Laws.{AscentHasMultipliers, BoundFits, BoundIsAboveLeast, BoundIsAboveLimit, FailingPointIsPassed, NoRoundLowers, NoRowLowers, PointIsReached, RowTakesFirstGreatest};

/// A law with nothing to run: of its multiplier, that raised, that lowered and 0, in this order, a row takes the first
/// one of greatest numerator, so one that is worth no less than each and more than each before it.
pub fn row_takes_first_greatest()
    ensures { RowTakesFirstGreatest }
{}

/// A law with nothing to run: no row takes a multiplier that lowers the numerator.
pub fn no_row_lowers()
    ensures { NoRowLowers }
{}

/// A law with nothing to run: no number of rounds lowers the numerator.
pub fn no_round_lowers()
    ensures { NoRoundLowers }
{}

/// A law with nothing to run: an ascent has one multiplier of at most 2^40 for each row and cut.
pub fn ascent_has_multipliers()
    ensures { AscentHasMultipliers }
{}

/// A law with nothing to run: the bound of an ascent is at least the least value of the costs on the box, which isn't
/// below -2^50. So it fits 64 bits where it is below a cutoff of at most 2^51.
pub fn bound_is_above_least()
    ensures least { BoundIsAboveLeast }
    ensures limit { BoundIsAboveLimit }
    ensures fits { BoundFits }
{}

/// A law with nothing to run: on a box of one point the bound of an ascent is at least the point's value.
pub fn point_is_reached()
    ensures { PointIsReached }
{}

/// A law with nothing to run: on a box of one point that fails a row, with costs below 2^24 in size, the bound of an
/// ascent is at least the point's value and 64 times one more than the greatest absolute cost.
pub fn failing_point_is_passed()
    ensures { FailingPointIsPassed }
{}
