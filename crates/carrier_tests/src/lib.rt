//! Tests that drive the carriers of a run on one thread: by a list of slots, in turn, each until it
//! is blocked, and by numbers of a generator. Whatever the order is, the carriers end, and what
//! they leave is the history of the machine that plays all slots itself.
//!
//! And tests of crews on several threads: they leave the same history, each chunk is run once, and
//! the threads work at the same time.
#![tactic(auto)]

#[cfg(test)]
mod counted;
#[cfg(test)]
mod crew_tests;
#[cfg(test)]
mod drive;
#[cfg(test)]
mod numbers;
#[cfg(test)]
mod order;
#[cfg(test)]
mod relay;
#[cfg(test)]
mod tests;
#[cfg(test)]
mod three_gate;
#[cfg(test)]
mod watched;
