ghost use Rattle.std.specs.Prelude.{◌≡◌, ◌≤◌, ◌<◌, ◌^◌, ◌+◌, ◌==◌, ◌&&◌, not, true, false, length, Option, Some, None, IfOk, OnOk};
ghost use Rattle.std.specs.List.{list_any};
ghost use Rattle.mps_read.specs.Names.{is_among, place_among, is_long as is_long_name};
ghost use Rattle.mps_lines.specs.Forms.{columns_form, marker_form, Entries};
ghost use Rattle.mps_read.specs.DraftKinds.{draft_kind, has_mark};
ghost use Rattle.mps_lines.specs.FieldWords.{field_words, pair_words, AreFields, IsField, IsPair};
ghost use Rattle.mps_read.specs.Steps.{after_entry, after_column};
ghost use Rattle.mps_read.specs.Drafts.{IsDraft, IsPlaced};
ghost use Rattle.mps_read.specs.Judges.{Judges};

use crate::draft::{Draft, Judgement, Mark, RowPlace};
use crate::error::MpsKind;
use crate::found_row::{FoundRow, find_row, is_same_row};
use crate::name::{is_long, name_of};
use crate::numeral::{is_zero, read_numeral};
use ip_core::{Decimal, List, OutOfMemory};
use mps_lines::{FieldPair, Fields, is_word};
use mps_model::{Limit, MpsCol, MpsEntry};
use std::alloc::Global;

/// A column by its number, which is that of the next one where the column is new.
#[derive(Clone, Copy)]
pub struct FoundColumn {
    pub number: usize,
    pub is_known: bool,
}

/// The column of a name.
#[tactic(auto, using(crate::proofs::Places::place_new))]
fn find_column(draft: &Draft, name: &[u8]) -> FoundColumn
    ensures number { result.number ≡ place_among name.now draft.now.column_names }
    ensures known { result.is_known ≡ is_among name.now draft.now.column_names }
    ensures within { result.number ≤ length draft.now.column_names }
{
    match draft.column_names.find(name) {
        Some(number) => FoundColumn {
            number,
            is_known: true,
        },
        None => FoundColumn {
            number: draft.column_names.len(),
            is_known: false,
        },
    }
}

/// Whether a row has an entry in a column, looked for among all marks.
fn is_among_marks(marks: &[Mark], row: usize, col: usize) -> bool
    ensures { result ≡ has_mark row col marks.now }
{
    marks.iter().any(|&mark| mark.row == row && mark.col == col)
}

/// Whether a row has an entry in a column. Only for a column before the last one all marks are looked through, and such
/// a line is refused.
fn is_marked(draft: &Draft, row: usize, col: usize) -> bool
    requires draft { IsDraft draft.now }
    requires known { row < length draft.now.row_names }
    requires within { col ≤ length draft.now.column_names }
    requires few { length draft.now.column_names < 2 ^ 31 }
    ensures { result ≡ has_mark row col draft.now.marks }
{
    if col + 1 < draft.column_names.len() {
        return is_among_marks(draft.marks.as_slice(), row, col);
    }
    draft.latest.as_slice()[row] == col + 1
}

/// Begins a column, where it is new.
fn begin_column(
    alloc: Global,
    draft: &mut Draft,
    name: &[u8],
    is_known: bool,
) -> Result<(), OutOfMemory>
    requires field { IsField name.now }
    requires short { is_long_name name.now ≡ false }
    requires known { is_known ≡ is_among name.now draft.old.column_names }
    ensures { OnOk result (draft.new ≡ after_column draft.old name.now) }
{
    if is_known {
        return Ok(());
    }
    draft.column_names.add(alloc, name)?;
    draft.cols.push(MpsCol {
        name: name_of(alloc, name)?,
        integer: draft.is_integer,
        cost: Decimal::zero(),
        entries: List::new(alloc),
        low: Limit::Unset,
        high: Limit::Unset,
    })?;
    Ok(())
}

/// Enters a coefficient of a row in a column.
fn enter(draft: &mut Draft, row: FoundRow, col: usize, value: Decimal) -> Result<(), OutOfMemory>
    requires known { row.number < length draft.old.latest }
    requires column { col < length draft.old.cols }
    requires few { col < 2 ^ 31 }
    ensures after_entry { OnOk result (draft.new ≡
        after_entry row.number row.state.place col value draft.old) }
    ensures columns { OnOk result (length draft.new.cols ≡ length draft.old.cols) }
{
    match row.state.place {
        RowPlace::Dropped => return Ok(()),
        RowPlace::Objective => draft.cols.as_mut_slice()[col].cost = value,
        RowPlace::Kept(row) => {
            if !is_zero(value) {
                draft.cols.as_mut_slice()[col]
                    .entries
                    .push(MpsEntry { row, value })?;
            }
        }
    }
    draft.marks.push(Mark {
        row: row.number,
        col,
    })?;
    draft.latest.set(row.number, col + 1);
    Ok(())
}

/// A column's line of one pair.
fn take_entry(
    alloc: Global,
    draft: &mut Draft,
    column: &[u8],
    first: FieldPair<'_>,
) -> Result<Judgement, OutOfMemory>
    requires draft { IsDraft draft.old }
    requires few { length draft.old.column_names < 2 ^ 31 }
    requires column { IsField column.now }
    requires first { IsPair first }
    ensures { IfOk result (λ j. Judges j draft.old
        (Entries column.now (pair_words first.entry) None) draft.new) }
{
    let Some(value) = read_numeral(first.numeral) else {
        return Ok(Judgement::Refused(MpsKind::Numeral));
    };
    let Some(row) = find_row(draft, first.row) else {
        return Ok(Judgement::Refused(MpsKind::UnknownName));
    };
    let found = find_column(draft, column);
    if is_marked(draft, row.number, found.number) {
        return Ok(Judgement::Refused(MpsKind::RepeatedEntry));
    }
    if found.is_known && found.number + 1 != draft.column_names.len() {
        return Ok(Judgement::Refused(MpsKind::SplitColumn));
    }
    if is_long(column) {
        return Ok(Judgement::Refused(MpsKind::LongName));
    }
    begin_column(alloc, draft, column, found.is_known)?;
    enter(draft, row, found.number, value)?;
    Ok(Judgement::Taken)
}

/// A column's line of two pairs.
fn take_entries(
    alloc: Global,
    draft: &mut Draft,
    column: &[u8],
    first: FieldPair<'_>,
    second: FieldPair<'_>,
) -> Result<Judgement, OutOfMemory>
    requires draft { IsDraft draft.old }
    requires few { length draft.old.column_names < 2 ^ 31 }
    requires column { IsField column.now }
    requires first { IsPair first }
    requires second { IsPair second }
    ensures { IfOk result (λ j. Judges j draft.old
        (Entries column.now (pair_words first.entry) (Some (pair_words second.entry))) draft.new) }
{
    let (Some(value), Some(value2)) = (read_numeral(first.numeral), read_numeral(second.numeral))
    else {
        return Ok(Judgement::Refused(MpsKind::Numeral));
    };
    let (Some(row), Some(row2)) = (find_row(draft, first.row), find_row(draft, second.row)) else {
        return Ok(Judgement::Refused(MpsKind::UnknownName));
    };
    let found = find_column(draft, column);
    if is_marked(draft, row.number, found.number)
        || is_marked(draft, row2.number, found.number)
        || is_same_row(row, row2)
    {
        return Ok(Judgement::Refused(MpsKind::RepeatedEntry));
    }
    if found.is_known && found.number + 1 != draft.column_names.len() {
        return Ok(Judgement::Refused(MpsKind::SplitColumn));
    }
    if is_long(column) {
        return Ok(Judgement::Refused(MpsKind::LongName));
    }
    begin_column(alloc, draft, column, found.is_known)?;
    enter(draft, row, found.number, value)?;
    enter(draft, row2, found.number, value2)?;
    Ok(Judgement::Taken)
}

/// A marker: whether the columns after it are integer.
fn take_marker(draft: &mut Draft, word: &[u8]) -> Judgement
    ensures { Judges result draft.old (marker_form word.now) draft.new }
{
    if is_word(word, b"'INTORG'") {
        draft.is_integer = true;
        return Judgement::Taken;
    }
    if is_word(word, b"'INTEND'") {
        draft.is_integer = false;
        return Judgement::Taken;
    }
    Judgement::Refused(MpsKind::Marker)
}

/// A line of columns: a column with one or two pairs, or a marker.
pub fn take_columns(
    alloc: Global,
    draft: &mut Draft,
    fields: Fields<'_>,
) -> Result<Judgement, OutOfMemory>
    requires draft { IsDraft draft.old }
    requires few { length draft.old.column_names < 2 ^ 31 }
    requires fields { AreFields (field_words fields) }
    ensures { IfOk result (λ j. Judges j draft.old
        (columns_form (field_words fields.entry)) draft.new) }
{
    match fields {
        Fields::Triple(column, row, numeral) => {
            if is_word(row, b"'MARKER'") {
                return Ok(take_marker(draft, numeral));
            }
            take_entry(alloc, draft, column, FieldPair { row, numeral })
        }
        Fields::Quintuple(column, row, numeral, row2, numeral2) => {
            if is_word(row, b"'MARKER'") {
                return Ok(Judgement::Refused(MpsKind::FieldCount));
            }
            let first = FieldPair { row, numeral };
            let second = FieldPair {
                row: row2,
                numeral: numeral2,
            };
            take_entries(alloc, draft, column, first, second)
        }
        _ => Ok(Judgement::Refused(MpsKind::FieldCount)),
    }
}
