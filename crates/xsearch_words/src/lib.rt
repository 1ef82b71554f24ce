//! The outside of the program: the words of the command line, shelves of files that are read and
//! written by name, and sinks that take text.
//!
//! A shelf or a sink in memory tells contracts what it holds. The shelf of real files and the sink
//! over the standard output tell nothing of that, and are trusted.
#![tactic(auto)]

mod calls;
mod command;
mod error;
mod fault;
mod file_shelf;
mod files;
mod form;
mod job;
mod memory_shelf;
mod memory_sink;
mod number;
mod output;
mod shelf;
mod sink;
mod stdout_sink;
mod streams;
mod sure_shelf;
mod sure_sink;
mod switch;
mod tune;

pub use error::{JobError, OutputError, ShelfError, WriteError};
pub use fault::LastFault;
pub use file_shelf::FileShelf;
pub use job::{CheckJob, Job, SampleJob, SolveJob, settings};
pub use memory_shelf::MemoryShelf;
pub use memory_sink::MemorySink;
pub use output::{OutputFile, write_all};
pub use shelf::Shelf;
pub use sink::Sink;
pub use stdout_sink::StdoutSink;
pub use sure_shelf::SureShelf;
pub use sure_sink::SureSink;
pub use tune::Tune;

#[cfg(test)]
mod tests;
