//! A slot of a search on several threads: a carrier keeps a replica of what it has to see of the
//! others, and makes its moves as the machine on one thread does.
#![tactic(auto)]

mod absorbing;
mod advance;
mod awaiting;
mod carrier;
mod closing;
mod feeding;
mod finish;
mod fresh;
mod gathering;
mod heard;
mod hearing;
mod hearing_all;
mod joining;
mod moving;
mod opening;
mod playing;
mod publishing;
mod pulse;
mod step;
mod story;

pub use advance::Advance;
pub use carrier::Carrier;
pub use gathering::gather;
pub use heard::Heard;
pub use playing::{Parts, Playing, Start, Stepped};
pub use pulse::BoardPulse;
pub use story::RunStory;
