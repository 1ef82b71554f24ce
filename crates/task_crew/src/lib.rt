//! A crew: workers on several threads let the carriers of a search make their moves, and the history
//! is that of the machine on one thread.
//!
//! The carriers pass through a queue. A worker takes one out, lets it make a move, and puts it back
//! unless its slot is over.
#![tactic(auto)]

mod gate;
mod hand;
mod item;
mod rule;
mod run;
mod worker;

pub use gate::{Gate, MeetGate, OpenGate};
pub use run::run_crew;
