//! Multipliers for the rows of a model, found by climbing: row by row, each takes the first of a few candidates at which
//! the numerator of the bound is greatest.
#![tactic(auto)]

mod all_rows;
mod ascent;
mod climb;
mod columns;
mod ends;
mod gain;
mod laws;
mod reduced;
#[cfg(test)]
mod tests;
mod work;

pub use ascent::{Ascent, ascend};
pub use laws::{
    ascent_has_multipliers, bound_is_above_least, failing_point_is_passed, no_round_lowers,
    no_row_lowers, point_is_reached, row_takes_first_greatest,
};
pub use reduced::Reduced;
