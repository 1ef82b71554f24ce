//! The text of a certificate, both ways: printed, and read with the first line that isn't allowed.
//!
//! A certificate has one text: the line `xsearch certificate 1`, its `size`, its `value`, its `point` or `none`, `cuts`
//! and their number before a line for each cut, `tree` and the number of its nodes before a line for each node in
//! preorder, and `end`. Each line ends at a line feed.
//!
//! [`read`] judges the lines in order and refuses a text at its first line that isn't allowed there. It goes over the
//! bytes once, and reserves no room by a number that the text names.
#![tactic(auto)]

mod error;
mod laws;
mod place;
mod printer;
mod reader;
#[cfg(test)]
mod tests;

pub use error::{CertError, CertKind};
pub use laws::{read_is_its_text, text_is_read};
pub use printer::print;
pub use reader::read;
