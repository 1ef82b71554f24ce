ghost use Rattle.std.specs.Prelude.{◌≡◌, ◌^◌};
ghost use Rattle.safe_bound.specs.Laws.{BoundIsSafe, NumeratorIsSmall};

use crate::limits::MAX_MULTIPLIER;

/// A law with nothing to run: at any multipliers, no point of the box that meets the rows and the cuts has a value
/// below the bound.
pub fn bound_is_safe()
    ensures { BoundIsSafe }
{}

/// A law with nothing to run: with fewer than 2^32 rows and multipliers of at most 2^40 a numerator is below 2^123
/// in size, so its sums never leave 128 bits.
pub fn numerator_is_small()
    ensures { NumeratorIsSmall }
{}

/// A law with nothing to run: the greatest multiplier is 2^40.
pub fn greatest_multiplier()
    ensures { MAX_MULTIPLIER ≡ 2 ^ 40 }
{}
