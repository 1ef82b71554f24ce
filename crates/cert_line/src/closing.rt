ghost use Rattle.std.specs.Prelude.{◌≡◌, ◌≤◌, ◌^◌, IfOk};
ghost use Rattle.cert_line.specs.Words.{left_words, left_size};
ghost use Rattle.cert_line.specs.Readings.{conflict_form, empty_form, bound_form, closing_form};

use crate::items::{are_counted, pairs_of};
use crate::numeral::{count_of, is_row, row_of};
use crate::words::{Words, is_word, next_word};
use ip_core::{Closing, OutOfMemory};
use std::alloc::Global;

/// What the words after a leaf's steps are read as.
#[derive(Drop)]
pub(crate) enum ClosingReading {
    /// The words don't stand as in any form of closing.
    NoForm,
    /// The words stand as in a form of closing, and one of its numbers isn't canonical or lies outside its range.
    BadNumber,
    /// This closing.
    Is(Closing),
}

/// What the words after `conflict` are read as: a row.
fn read_conflict(words: Words<'_>) -> ClosingReading
    ensures { result ≡ conflict_form (left_words words.entry) }
{
    let Some((row, rest)) = next_word(words) else {
        return ClosingReading::NoForm;
    };
    let None = next_word(rest) else {
        return ClosingReading::NoForm;
    };
    if !is_row(row) {
        return ClosingReading::NoForm;
    }
    match row_of(row) {
        Some(row) => ClosingReading::Is(Closing::Conflict(row)),
        None => ClosingReading::BadNumber,
    }
}

/// What the words after `empty` are read as: a column.
fn read_empty(words: Words<'_>) -> ClosingReading
    ensures { result ≡ empty_form (left_words words.entry) }
{
    let Some((col, rest)) = next_word(words) else {
        return ClosingReading::NoForm;
    };
    let None = next_word(rest) else {
        return ClosingReading::NoForm;
    };
    match count_of(col) {
        Some(col) => ClosingReading::Is(Closing::Empty(col)),
        None => ClosingReading::BadNumber,
    }
}

/// What the words after `bound` are read as: a count, and that many rows with their multipliers.
fn read_bound(alloc: Global, words: Words<'_>) -> Result<ClosingReading, OutOfMemory>
    requires { left_size words ≤ 2 ^ 30 }
    ensures { IfOk result (λ r. r ≡ bound_form (left_words words.entry)) }
{
    let Some((count, items)) = next_word(words) else {
        return Ok(ClosingReading::NoForm);
    };
    let count = count_of(count);
    let pairs = pairs_of(alloc, items)?;
    if !are_counted(count, &pairs) {
        return Ok(ClosingReading::NoForm);
    }
    let Some(_) = count else {
        return Ok(ClosingReading::BadNumber);
    };
    let Some(values) = pairs.values else {
        return Ok(ClosingReading::BadNumber);
    };
    Ok(ClosingReading::Is(Closing::Bound(values)))
}

/// What the words after a leaf's steps are read as. Err comes only of want of memory.
pub(crate) fn read_closing(alloc: Global, words: Words<'_>) -> Result<ClosingReading, OutOfMemory>
    requires { left_size words ≤ 2 ^ 30 }
    ensures { IfOk result (λ r. r ≡ closing_form (left_words words.entry)) }
{
    let Some((word, rest)) = next_word(words) else {
        return Ok(ClosingReading::NoForm);
    };
    if is_word(word, b"conflict") {
        return Ok(read_conflict(rest));
    }
    if is_word(word, b"empty") {
        return Ok(read_empty(rest));
    }
    if is_word(word, b"bound") {
        return read_bound(alloc, rest);
    }
    Ok(ClosingReading::NoForm)
}
