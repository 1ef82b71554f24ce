//! The machine on one thread: slots work on tasks, and their entries join one history in the order of their keys.
//!
//! Each slot has a clock, its count of work. While a slot lives, the live slot of the least clock moves, and of equal
//! clocks the one of the least number. What the slots publish is the same whatever else may run beside the machine.
#![tactic(auto)]

mod chunk;
mod history;
mod laws;
mod limits;
mod next;
mod opening;
mod play;
mod run;
mod slot;
#[cfg(test)]
mod tests;
mod turn;

pub use chunk::slot_after_chunk;
pub use history::History;
pub use laws::{
    clocks_are_low, clocks_rise, ends_are_known, ends_have_causes, entries_fit_stores,
    entries_have_origins, entries_have_words, halts_have_causes, history_is_sorted,
    keys_part_by_slots, keys_rise, least_key_is_first, lesser_keys_are_before, live_locals_fit,
    live_slots_are_chosen, logs_are_known, machine_stops, machine_turns_are_by_the_history,
    moves_are_in_front, moves_keep_the_laws, over_slots_are_last, own_moves_keep_the_laws,
    records_have_chunks, running_tasks_read_nothing, slots_play_by_the_history,
    sorted_histories_are_same, turns_have_parts,
};
pub use limits::Limits;
pub use opening::{Opening, Turn, pending_opening, reads_history, task_opening};
pub use run::run_alone;
pub use slot::{Live, Slot};
