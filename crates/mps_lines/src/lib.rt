//! The lines of MPS files: their fields, the sections and types that words name, and what one line says.
//!
//! Blanks, tabs and carriage returns part the fields of a line, so columns of text mean nothing. A line that begins with
//! `*` is a comment. A section line begins with its name, and a data line with what parts fields. What a line says by the
//! section that it stands in is a form of line (`Form` in specs/Forms); what the lines say together is the reader's part.
#![tactic(auto)]

mod line;
mod section;
#[cfg(test)]
mod tests;

pub use line::{FieldPair, Fields, fields_of, is_comment, is_data, is_text, next_line};
pub use section::{
    BoundKind, Section, ValueKind, bound_named, has_numeral, is_last, is_word, row_kind_named,
    section_named, sense_named,
};
