//! Points near an ascent's point: the point itself, and dives towards it.
//!
//! Rounding gives the ascent's point where it is feasible. A dive begins with a box. Each step fixes one more column
//! at the value nearest to the point's, and passes over the rows narrow the others. It ends with a feasible point, or
//! where the passes close the box.
#![tactic(auto)]

mod dive;
mod feasible;
mod fixing;
mod laws;
mod rounding;
#[cfg(test)]
mod tests;

pub use dive::{DiveEnd, DiveRun, dive_step};
pub use laws::{fixed_box_is_decided, step_fixes_column, step_is_sound};
pub use rounding::round;
