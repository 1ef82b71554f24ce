//! The search as a system of tasks: branch-and-bound by several slots that share one history.
//!
//! The first task looks for cuts, where they are on. Any other takes the best open node and works
//! on up to eight nodes, one in each chunk, or dives from it. A chunk tightens the node's box by
//! passes over the rows and bounds what is left by an ascent. The node is closed where its box is
//! seen to hold no point that is wanted, and the reason is kept; else it is split in two. A dive
//! leaves its node open: it fixes the columns of the node's box one after the other, and gives the
//! feasible points that it comes to.
#![tactic(auto)]

mod answer;
mod close_or_split;
mod column;
mod copies;
mod cut_chunk;
mod dive_chunk;
mod keep;
mod laws;
mod local;
mod naming;
mod node_chunk;
mod search;
mod slot;
mod task_chunk;
mod tasker;

pub use answer::{Answer, Best, Status, answer_of};
pub use laws::{
    answers_are_true, best_nodes_are_taken, histories_are_read, limits_are_met, records_hold,
};
pub use local::{CutTask, DiveTask, Local, NodeTask, Task};
pub use search::Search;

#[cfg(test)]
mod tests;
