ghost use Rattle.std.specs.Prelude.{◌≡◌, ◌<◌, ◌≤◌, ◌^◌, IfOk, MatchOption};
ghost use Rattle.cert_line.specs.Words.{left_words, left_size};
ghost use Rattle.cert_line.specs.Numerals.{count_of as count_in, weight_of as weight_in, number_of as number_in, row_of as row_in};
ghost use Rattle.cert_line.specs.Items.{with_last, items_view, no_items, with_item, items_by, pairs_of, pair_by, steps_of, step_by, is_low, is_step, agrees, are_counted};

use crate::numeral::{count_of, is_row, number_of, row_of, weight_of};
use crate::words::{Words, is_done, is_word, next_word};
use ip_core::{List, OutOfMemory, Pair, Tighten};
use std::alloc::Global;

/// Items that words begin with.
#[derive(Drop)]
pub(crate) struct FoundItems<'a, T> {
    /// The values in order, or None where one of them has a number that isn't canonical and in its range.
    pub values: Option<List<T>>,
    /// How many items they are.
    pub count: u32,
    /// The words after them.
    pub rest: Words<'a>,
}

/// Values with one more at their end, where all are good.
fn with_last<T: Drop>(
    values: Option<List<T>>,
    value: Option<T>,
) -> Result<Option<List<T>>, OutOfMemory>
    ensures { IfOk result (λ r. r ≡ with_last values value) }
{
    let Some(mut list) = values else {
        return Ok(None);
    };
    let Some(value) = value else {
        return Ok(None);
    };
    list.push(value)?;
    Ok(Some(list))
}

/// The numbers that may have a sign, one for each word.
pub(crate) fn numbers_of(
    alloc: Global,
    words: Words<'_>,
) -> Result<FoundItems<'_, i64>, OutOfMemory>
    requires { left_size words ≤ 2 ^ 30 }
    ensures { IfOk result
        (λ found. items_view found ≡ items_by number_in (left_words words.entry)) }
{
    let mut values = Some(List::new(alloc));
    let mut count: u32 = 0;
    let mut rest = words;
    while let Some((word, more)) = next_word(rest) {
        values = with_last(values, number_of(word))?;
        count += 1;
        rest = more;
    }
    Ok(FoundItems {
        values,
        count,
        rest,
    })
}

/// The columns, one for each word.
pub(crate) fn columns_of(
    alloc: Global,
    words: Words<'_>,
) -> Result<FoundItems<'_, u32>, OutOfMemory>
    requires { left_size words ≤ 2 ^ 30 }
    ensures { IfOk result
        (λ found. items_view found ≡ items_by count_in (left_words words.entry)) }
{
    let mut values = Some(List::new(alloc));
    let mut count: u32 = 0;
    let mut rest = words;
    while let Some((word, more)) = next_word(rest) {
        values = with_last(values, count_of(word))?;
        count += 1;
        rest = more;
    }
    Ok(FoundItems {
        values,
        count,
        rest,
    })
}

/// A row with its weight, if both numbers are good.
fn pair_of(row: &[u8], weight: &[u8]) -> Option<Pair>
    ensures { result ≡ pair_by (row_in row.now) (weight_in weight.now) }
{
    let row = row_of(row)?;
    let weight = weight_of(weight)?;
    Some(Pair { row, weight })
}

/// The first two words as a row with its weight, and the words after them, or None where they don't stand so.
fn next_pair(words: Words<'_>) -> Option<(Option<Pair>, Words<'_>)>
    ensures { MatchOption result
        (pairs_of (left_words words.entry) ≡ no_items (left_words words.entry))
        (λ p. (pairs_of (left_words words.entry) ≡ with_item p.0 (pairs_of (left_words p.1)))
        × (left_size p.1 < left_size words.entry)) }
{
    let (row, more) = next_word(words)?;
    let (weight, rest) = next_word(more)?;
    if !is_row(row) {
        return None;
    }
    Some((pair_of(row, weight), rest))
}

/// The rows with their weights at the front of words.
pub(crate) fn pairs_of(alloc: Global, words: Words<'_>) -> Result<FoundItems<'_, Pair>, OutOfMemory>
    requires { left_size words ≤ 2 ^ 30 }
    ensures { IfOk result (λ found. items_view found ≡ pairs_of (left_words words.entry)) }
{
    let mut values = Some(List::new(alloc));
    let mut count: u32 = 0;
    let mut rest = words;
    while let Some((pair, more)) = next_pair(rest) {
        values = with_last(values, pair)?;
        count += 1;
        rest = more;
    }
    Ok(FoundItems {
        values,
        count,
        rest,
    })
}

/// Whether a word says that a column's low was raised.
fn is_low(side: &[u8]) -> bool
    ensures { result ≡ is_low side.now }
{
    is_word(side, b"L")
}

/// Whether words stand as a step: a row, and which side of a column it narrows.
fn is_step(row: &[u8], side: &[u8]) -> bool
    ensures { result ≡ is_step row.now side.now }
{
    is_row(row) && (is_low(side) || is_word(side, b"H"))
}

/// A step of a row and a column, if both numbers are good.
fn step_of(row: &[u8], col: &[u8], low: bool) -> Option<Tighten>
    ensures { result ≡ step_by (row_in row.now) (count_in col.now) low }
{
    let row = row_of(row)?;
    let col = count_of(col)?;
    Some(Tighten { row, col, low })
}

/// The first three words as a step, and the words after them, or None where they don't stand so.
fn next_step(words: Words<'_>) -> Option<(Option<Tighten>, Words<'_>)>
    ensures { MatchOption result
        (steps_of (left_words words.entry) ≡ no_items (left_words words.entry))
        (λ p. (steps_of (left_words words.entry) ≡ with_item p.0 (steps_of (left_words p.1)))
        × (left_size p.1 < left_size words.entry)) }
{
    let (row, after_row) = next_word(words)?;
    let (col, after_col) = next_word(after_row)?;
    let (side, rest) = next_word(after_col)?;
    if !is_step(row, side) {
        return None;
    }
    Some((step_of(row, col, is_low(side)), rest))
}

/// The steps at the front of words.
pub(crate) fn steps_of(
    alloc: Global,
    words: Words<'_>,
) -> Result<FoundItems<'_, Tighten>, OutOfMemory>
    requires { left_size words ≤ 2 ^ 30 }
    ensures found { IfOk result (λ found. items_view found ≡ steps_of (left_words words.entry)) }
    ensures shorter { IfOk result (λ found. left_size found.rest ≤ left_size words.entry) }
{
    let mut values = Some(List::new(alloc));
    let mut count: u32 = 0;
    let mut rest = words;
    while let Some((step, more)) = next_step(rest) {
        values = with_last(values, step)?;
        count += 1;
        rest = more;
    }
    Ok(FoundItems {
        values,
        count,
        rest,
    })
}

/// Whether a count is that of the items, or is none itself.
pub(crate) fn agrees(count: Option<u32>, items: u32) -> bool
    ensures { result ≡ agrees count items }
{
    match count {
        Some(count) => count == items,
        None => true,
    }
}

/// Whether items are all the words of a line, as many as a count says that isn't bad itself.
pub(crate) fn are_counted<T>(count: Option<u32>, items: &FoundItems<'_, T>) -> bool
    ensures { result ≡ are_counted count (items_view items.now) }
{
    is_done(items.rest) && agrees(count, items.count)
}
