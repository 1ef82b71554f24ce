//! Histories as lists of numbers.

use ip_core::{Closing, Derivation, List, OutOfMemory, Record};
use stamp_machine::History;
use std::alloc::Global;
use work_stamp::Entry;

// The numbers of the kinds of entries.
pub(crate) const START: u64 = 1;

pub(crate) const FOUND: u64 = 2;

pub(crate) const CLOSED: u64 = 3;

pub(crate) const DONE: u64 = 4;

const CUT_START: u64 = 5;

const DIVE: u64 = 6;

const GOMORY: u64 = 7;

const COVER: u64 = 8;

const SPLIT: u64 = 9;

const HALT: u64 = 10;

/// Of each entry its stamp, its slot, the number of its kind, and what the kind has: a node, a value with its point, a
/// divisor with the weights of its parts, columns, or the numbers of a split.
pub(crate) fn entry_numbers(alloc: Global, history: &History) -> Result<List<u64>, OutOfMemory> {
    let mut numbers = List::new(alloc);
    for item in history.entries.as_slice() {
        numbers.push(item.key.stamp)?;
        numbers.push(u64::from(item.key.slot))?;
        push_entry(&mut numbers, &item.entry)?;
    }
    Ok(numbers)
}

fn push_entry(numbers: &mut List<u64>, entry: &Entry) -> Result<(), OutOfMemory> {
    match entry {
        Entry::Start { node } => push_pair(numbers, START, *node),
        Entry::CutStart => numbers.push(CUT_START),
        Entry::HeurStart { node } => push_pair(numbers, DIVE, *node),
        Entry::Done => numbers.push(DONE),
        Entry::Found { value, point } => {
            push_pair(numbers, FOUND, value.cast_unsigned())?;
            push_values(numbers, point.values())
        }
        Entry::Cut { derivation } => push_derivation(numbers, derivation),
        Entry::Split {
            node,
            col,
            at,
            first,
            keep,
            bound,
        } => {
            push_pair(numbers, SPLIT, *node)?;
            push_pair(numbers, u64::from(*col), at.cast_unsigned())?;
            push_pair(numbers, *first, u64::from(*keep))?;
            numbers.push(bound.cast_unsigned())
        }
        Entry::Closed { node } => push_pair(numbers, CLOSED, *node),
        Entry::Halt => numbers.push(HALT),
    }
}

fn push_pair(numbers: &mut List<u64>, first: u64, second: u64) -> Result<(), OutOfMemory> {
    numbers.push(first)?;
    numbers.push(second)
}

/// How many values there are, and each of them.
fn push_values(numbers: &mut List<u64>, values: &[i64]) -> Result<(), OutOfMemory> {
    numbers.push(values.len() as u64)?;
    for value in values {
        numbers.push(value.cast_unsigned())?;
    }
    Ok(())
}

fn push_derivation(numbers: &mut List<u64>, derivation: &Derivation) -> Result<(), OutOfMemory> {
    match derivation {
        Derivation::Gomory { parts, divisor } => {
            push_pair(numbers, GOMORY, *divisor)?;
            numbers.push(parts.len() as u64)?;
            for part in parts.as_slice() {
                numbers.push(part.weight)?;
            }
        }
        Derivation::Cover { cols, .. } => {
            push_pair(numbers, COVER, cols.len() as u64)?;
            for col in cols.as_slice() {
                numbers.push(u64::from(*col))?;
            }
        }
    }
    Ok(())
}

/// Of each slot how many records it has, and of each record its node, how many steps it has, and what closes it: 0 for a
/// row, 1 for a column, or 2 more than the rows of its bound.
fn record_numbers(alloc: Global, history: &History) -> Result<List<u64>, OutOfMemory> {
    let mut numbers = List::new(alloc);
    for records in history.records.as_slice() {
        numbers.push(records.len() as u64)?;
        for record in records.as_slice() {
            push_pair(&mut numbers, record.node, record.leaf.steps.len() as u64)?;
            numbers.push(closing_number(record))?;
        }
    }
    Ok(numbers)
}

fn closing_number(record: &Record) -> u64 {
    match &record.leaf.closing {
        Closing::Conflict(_) => 0,
        Closing::Empty(_) => 1,
        Closing::Bound(rows) => (rows.len() as u64).saturating_add(2),
    }
}

/// Whether two histories have the same numbers of entries, of records, and ends.
pub(crate) fn are_alike(
    alloc: Global,
    one: &History,
    other: &History,
) -> Result<bool, OutOfMemory> {
    let entries = entry_numbers(alloc, one)?.as_slice() == entry_numbers(alloc, other)?.as_slice();
    let records = record_numbers(alloc, one)?.as_slice()
        == record_numbers(alloc, other)?.as_slice();
    Ok(entries && records && one.ends.as_slice() == other.ends.as_slice())
}
