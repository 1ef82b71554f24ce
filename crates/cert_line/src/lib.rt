//! One line of a certificate's text, read and printed.
//!
//! A line is words parted by single blanks, without its line feed. Its first word says which form it is to have, and
//! each line that is read is read from just one text: the one that is printed for it.
#![tactic(auto)]

mod closing;
mod forms;
mod items;
mod keyword;
mod laws;
mod line;
mod numeral;
mod print;
mod read;
#[cfg(test)]
mod tests;
mod words;

pub use laws::{line_has_no_feed, reading_is_exact};
pub use line::{Line, LineReading};
pub use numeral::{MAX_COUNT, MAX_NUMBER, MAX_WEIGHT};
pub use print::{
    append_cut, append_cuts, append_end, append_header, append_line, append_node, append_point,
    append_size, append_tree, append_value,
};
pub use read::read_line;
