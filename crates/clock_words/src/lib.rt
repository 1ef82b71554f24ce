//! What the slots of a search on several threads see of each other: a clock and a row of words for
//! each slot.
//!
//! A board is one table of atomic words without a lock. Each slot is owned by one seat, which puts
//! the slot's words and raises its clock. Any seat may look at a clock, and fetch the words that
//! are due below the clock that it saw.
#![tactic(auto)]

mod board;
mod clock;
mod rule;
mod seat;
mod seating;
mod steps;
mod story;
#[cfg(test)]
mod tests;
mod view;

pub use board::Board;
pub use seat::BoardSeat;
pub use story::{END_STAMP, StampedWord, Story};
pub use view::Shape;
