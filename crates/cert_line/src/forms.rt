ghost use Rattle.std.specs.Prelude.{◌≡◌, ◌≤◌, ◌^◌, IfOk};
ghost use Rattle.cert_line.specs.Words.{left_words, left_size};
ghost use Rattle.cert_line.specs.Items.{items_view};
ghost use Rattle.cert_line.specs.Numerals.{count_of as count_in};
ghost use Rattle.cert_line.specs.Readings.{header_form, size_form, value_form, point_form, none_form, cuts_form, gomory_form, cover_form, tree_form, split_form, leaf_form, end_form};

use crate::closing::{ClosingReading, read_closing};
use crate::items::{agrees, are_counted, columns_of, numbers_of, pairs_of, steps_of};
use crate::numeral::{count_of, is_row, number_of, row_of, weight_of};
use crate::words::{Words, is_word, next_word};
use crate::{Line, LineReading};
use ip_core::{Derivation, Leaf, OutOfMemory, Point};
use std::alloc::Global;
use tree_cert::CertNode;

/// What the words after `xsearch` are read as: `certificate 1`, which has no number.
pub(crate) fn read_header(words: Words<'_>) -> LineReading
    ensures { result ≡ header_form (left_words words.entry) }
{
    let Some((name, after_name)) = next_word(words) else {
        return LineReading::NoForm;
    };
    let Some((version, rest)) = next_word(after_name) else {
        return LineReading::NoForm;
    };
    let None = next_word(rest) else {
        return LineReading::NoForm;
    };
    if is_word(name, b"certificate") && is_word(version, b"1") {
        LineReading::Is(Line::Header)
    } else {
        LineReading::NoForm
    }
}

/// What the words after `size` are read as: the numbers of columns and of rows.
pub(crate) fn read_size(words: Words<'_>) -> LineReading
    ensures { result ≡ size_form (left_words words.entry) }
{
    let Some((cols, after_cols)) = next_word(words) else {
        return LineReading::NoForm;
    };
    let Some((rows, rest)) = next_word(after_cols) else {
        return LineReading::NoForm;
    };
    let None = next_word(rest) else {
        return LineReading::NoForm;
    };
    let Some(cols) = count_of(cols) else {
        return LineReading::BadNumber;
    };
    let Some(rows) = count_of(rows) else {
        return LineReading::BadNumber;
    };
    LineReading::Is(Line::Size { cols, rows })
}

/// What the words after `value` are read as: a number that may have a sign.
pub(crate) fn read_value(words: Words<'_>) -> LineReading
    ensures { result ≡ value_form (left_words words.entry) }
{
    let Some((value, rest)) = next_word(words) else {
        return LineReading::NoForm;
    };
    let None = next_word(rest) else {
        return LineReading::NoForm;
    };
    match number_of(value) {
        Some(value) => LineReading::Is(Line::Value(value)),
        None => LineReading::BadNumber,
    }
}

/// What the words after `point` are read as: any number of values.
pub(crate) fn read_point(alloc: Global, words: Words<'_>) -> Result<LineReading, OutOfMemory>
    requires { left_size words ≤ 2 ^ 30 }
    ensures { IfOk result (λ r. r ≡ point_form (left_words words.entry)) }
{
    let numbers = numbers_of(alloc, words)?;
    match numbers.values {
        Some(values) => Ok(LineReading::Is(Line::Point(Some(Point::of(values))))),
        None => Ok(LineReading::BadNumber),
    }
}

/// What the words after `none` are read as: there are none.
pub(crate) fn read_none(words: Words<'_>) -> LineReading
    ensures { result ≡ none_form (left_words words.entry) }
{
    match next_word(words) {
        None => LineReading::Is(Line::Point(None)),
        Some(_) => LineReading::NoForm,
    }
}

/// What the words after `cuts` are read as: a count.
pub(crate) fn read_cuts(words: Words<'_>) -> LineReading
    ensures { result ≡ cuts_form (left_words words.entry) }
{
    let Some((count, rest)) = next_word(words) else {
        return LineReading::NoForm;
    };
    let None = next_word(rest) else {
        return LineReading::NoForm;
    };
    match count_of(count) {
        Some(count) => LineReading::Is(Line::Cuts(count)),
        None => LineReading::BadNumber,
    }
}

/// What the words after `gomory` are read as: a divisor, a count, and that many rows with their weights.
pub(crate) fn read_gomory(alloc: Global, words: Words<'_>) -> Result<LineReading, OutOfMemory>
    requires { left_size words ≤ 2 ^ 30 }
    ensures { IfOk result (λ r. r ≡ gomory_form (left_words words.entry)) }
{
    let Some((divisor, after_divisor)) = next_word(words) else {
        return Ok(LineReading::NoForm);
    };
    let Some((count, items)) = next_word(after_divisor) else {
        return Ok(LineReading::NoForm);
    };
    let count = count_of(count);
    let pairs = pairs_of(alloc, items)?;
    if !are_counted(count, &pairs) {
        return Ok(LineReading::NoForm);
    }
    let Some(divisor) = weight_of(divisor) else {
        return Ok(LineReading::BadNumber);
    };
    let Some(_) = count else {
        return Ok(LineReading::BadNumber);
    };
    let Some(parts) = pairs.values else {
        return Ok(LineReading::BadNumber);
    };
    Ok(LineReading::Is(Line::Cut(Derivation::Gomory { parts, divisor })))
}

/// What the words after `cover` are read as: a row, a count, and that many columns.
pub(crate) fn read_cover(alloc: Global, words: Words<'_>) -> Result<LineReading, OutOfMemory>
    requires { left_size words ≤ 2 ^ 30 }
    ensures { IfOk result (λ r. r ≡ cover_form (left_words words.entry)) }
{
    let Some((row, after_row)) = next_word(words) else {
        return Ok(LineReading::NoForm);
    };
    let Some((count, items)) = next_word(after_row) else {
        return Ok(LineReading::NoForm);
    };
    if !is_row(row) {
        return Ok(LineReading::NoForm);
    }
    let count = count_of(count);
    let columns = columns_of(alloc, items)?;
    if !are_counted(count, &columns) {
        return Ok(LineReading::NoForm);
    }
    let Some(row) = row_of(row) else {
        return Ok(LineReading::BadNumber);
    };
    let Some(_) = count else {
        return Ok(LineReading::BadNumber);
    };
    let Some(cols) = columns.values else {
        return Ok(LineReading::BadNumber);
    };
    Ok(LineReading::Is(Line::Cut(Derivation::Cover { row, cols })))
}

/// What the words after `tree` are read as: a count.
pub(crate) fn read_tree(words: Words<'_>) -> LineReading
    ensures { result ≡ tree_form (left_words words.entry) }
{
    let Some((count, rest)) = next_word(words) else {
        return LineReading::NoForm;
    };
    let None = next_word(rest) else {
        return LineReading::NoForm;
    };
    match count_of(count) {
        Some(count) => LineReading::Is(Line::Tree(count)),
        None => LineReading::BadNumber,
    }
}

/// What the words after `split` are read as: a column, the most of the low child and the least of the high one.
pub(crate) fn read_split(words: Words<'_>) -> LineReading
    ensures { result ≡ split_form (left_words words.entry) }
{
    let Some((col, after_col)) = next_word(words) else {
        return LineReading::NoForm;
    };
    let Some((at, after_at)) = next_word(after_col) else {
        return LineReading::NoForm;
    };
    let Some((next, rest)) = next_word(after_at) else {
        return LineReading::NoForm;
    };
    let None = next_word(rest) else {
        return LineReading::NoForm;
    };
    let Some(col) = count_of(col) else {
        return LineReading::BadNumber;
    };
    let Some(at) = number_of(at) else {
        return LineReading::BadNumber;
    };
    let Some(next) = number_of(next) else {
        return LineReading::BadNumber;
    };
    LineReading::Is(Line::Node(CertNode::Split { col, at, next }))
}

/// What the words after `leaf` are read as: a count, that many steps, and a closing.
pub(crate) fn read_leaf(alloc: Global, words: Words<'_>) -> Result<LineReading, OutOfMemory>
    requires { left_size words ≤ 2 ^ 30 }
    ensures { IfOk result (λ r. r ≡ leaf_form (left_words words.entry)) }
{
    let Some((count, items)) = next_word(words) else {
        return Ok(LineReading::NoForm);
    };
    let count = count_of(count);
    let found = steps_of(alloc, items)?;
    if !agrees(count, found.count) {
        return Ok(LineReading::NoForm);
    }
    let closing = match read_closing(alloc, found.rest)? {
        ClosingReading::NoForm => return Ok(LineReading::NoForm),
        ClosingReading::BadNumber => return Ok(LineReading::BadNumber),
        ClosingReading::Is(closing) => closing,
    };
    let Some(_) = count else {
        return Ok(LineReading::BadNumber);
    };
    let Some(steps) = found.values else {
        return Ok(LineReading::BadNumber);
    };
    Ok(LineReading::Is(Line::Node(CertNode::Leaf(Leaf { steps, closing }))))
}

/// What the words after `end` are read as: there are none.
pub(crate) fn read_end(words: Words<'_>) -> LineReading
    ensures { result ≡ end_form (left_words words.entry) }
{
    match next_word(words) {
        None => LineReading::Is(Line::End),
        Some(_) => LineReading::NoForm,
    }
}
