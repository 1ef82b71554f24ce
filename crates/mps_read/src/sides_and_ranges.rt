ghost use Rattle.std.specs.Prelude.{◌≡◌, ◌≤◌, ◌<◌, ◌^◌, true, false, length, Some, None, IfOk, OnOk};
ghost use Rattle.mps_read.specs.Names.{is_long as is_long_name};
ghost use Rattle.mps_lines.specs.Forms.{values_form, Values};
ghost use Rattle.mps_read.specs.Sets.{is_used as is_used_set};
ghost use Rattle.mps_read.specs.Steps.{after_value, with_values_set};
ghost use Rattle.mps_read.specs.DraftKinds.{values_use, has_value as has_value_of};
ghost use Rattle.mps_read.specs.DraftRows.{with_marked_state, with_value, with_constant};
ghost use Rattle.mps_lines.specs.FieldWords.{field_words, pair_words, AreFields, IsField, IsPair};
ghost use Rattle.mps_read.specs.Drafts.{IsDraft, IsPlaced};
ghost use Rattle.mps_read.specs.Judges.{Judges};

use crate::draft::{Draft, Judgement, RowPlace, RowState};
use crate::error::MpsKind;
use crate::found_row::{FoundRow, find_row, is_same_row, is_tested};
use crate::name::is_long;
use crate::numeral::read_numeral;
use crate::sets::{is_used, name_set};
use ip_core::{Decimal, OutOfMemory};
use mps_lines::{FieldPair, Fields, ValueKind};
use std::alloc::Global;

/// Whether a line of right-hand sides or ranges of this set is used.
fn is_used_for(draft: &Draft, kind: ValueKind, set: &[u8]) -> bool
    ensures { result ≡ is_used_set (values_use kind draft.now).set set.now }
{
    match kind {
        ValueKind::Side => is_used(&draft.rhs, set),
        ValueKind::Range => is_used(&draft.ranges, set),
    }
}

/// Names the set of right-hand sides or ranges, where there is none.
fn name_set_for(
    alloc: Global,
    draft: &mut Draft,
    kind: ValueKind,
    set: &[u8],
) -> Result<(), OutOfMemory>
    requires field { IsField set.now }
    requires short { is_long_name set.now ≡ false }
    requires used { is_used_set (values_use kind draft.old).set set.now ≡ true }
    ensures { OnOk result (draft.new ≡ with_values_set kind set.now draft.old) }
{
    match kind {
        ValueKind::Side => name_set(alloc, &mut draft.rhs, set),
        ValueKind::Range => name_set(alloc, &mut draft.ranges, set),
    }
}

/// Whether a row has a value of this kind.
fn has_value(kind: ValueKind, state: RowState) -> bool
    ensures { result ≡ has_value_of kind state }
{
    match kind {
        ValueKind::Side => state.has_side,
        ValueKind::Range => state.has_range,
    }
}

/// Marks that a row has a value, unless it is dropped.
fn mark_value(draft: &mut Draft, kind: ValueKind, row: usize)
    requires { row < length draft.old.row_states }
    ensures { draft.new ≡ record draft.old
        { row_states = with_marked_state kind row draft.old.row_states } }
{
    let mut state = draft.row_states.as_slice()[row];
    if is_tested(state.place) {
        match kind {
            ValueKind::Side => state.has_side = true,
            ValueKind::Range => state.has_range = true,
        }
    }
    draft.row_states.set(row, state);
}

/// Sets a right-hand side or a range. The objective's right-hand side is the negated constant, and its range is dropped.
fn set_value(draft: &mut Draft, kind: ValueKind, place: RowPlace, value: Decimal)
    requires { IsPlaced (length draft.old.rows) place }
    ensures { draft.new ≡ record draft.old {
      rows = with_value kind place value draft.old.rows;
      constant =
          with_constant kind place value draft.old.constant;
    } }
{
    match place {
        RowPlace::Dropped => {}
        RowPlace::Objective => {
            if let ValueKind::Side = kind {
                draft.constant = value.negation();
            }
        }
        RowPlace::Kept(row) => match kind {
            ValueKind::Side => draft.rows.as_mut_slice()[row as usize].rhs = value,
            ValueKind::Range => draft.rows.as_mut_slice()[row as usize].range = Some(value),
        },
    }
}

/// Gives a row a right-hand side or a range.
fn give(draft: &mut Draft, kind: ValueKind, row: FoundRow, value: Decimal)
    requires known { row.number < length draft.old.row_states }
    requires place { IsPlaced (length draft.old.rows) row.state.place }
    ensures draft { draft.new ≡ after_value kind row.number row.state.place value draft.old }
    ensures states { length draft.new.row_states ≡ length draft.old.row_states }
    ensures rows { length draft.new.rows ≡ length draft.old.rows }
{
    mark_value(draft, kind, row.number);
    set_value(draft, kind, row.state.place, value);
}

/// A line of one value in the used set.
fn take_value(
    alloc: Global,
    draft: &mut Draft,
    kind: ValueKind,
    set: &[u8],
    first: FieldPair<'_>,
) -> Result<Judgement, OutOfMemory>
    requires draft { IsDraft draft.old }
    requires set { IsField set.now }
    requires first { IsPair first }
    requires used { is_used_set (values_use kind draft.old).set set.now ≡ true }
    ensures { IfOk result (λ j. Judges j draft.old
        (Values kind set.now (pair_words first.entry) None) draft.new) }
{
    let Some(value) = read_numeral(first.numeral) else {
        return Ok(Judgement::Refused(MpsKind::Numeral));
    };
    let Some(row) = find_row(draft, first.row) else {
        return Ok(Judgement::Refused(MpsKind::UnknownName));
    };
    if has_value(kind, row.state) {
        return Ok(Judgement::Refused(MpsKind::RepeatedEntry));
    }
    if is_long(set) {
        return Ok(Judgement::Refused(MpsKind::LongName));
    }
    name_set_for(alloc, draft, kind, set)?;
    give(draft, kind, row, value);
    Ok(Judgement::Taken)
}

/// A line of two values in the used set.
fn take_two_values(
    alloc: Global,
    draft: &mut Draft,
    kind: ValueKind,
    set: &[u8],
    first: FieldPair<'_>,
    second: FieldPair<'_>,
) -> Result<Judgement, OutOfMemory>
    requires draft { IsDraft draft.old }
    requires set { IsField set.now }
    requires first { IsPair first }
    requires second { IsPair second }
    requires used { is_used_set (values_use kind draft.old).set set.now ≡ true }
    ensures { IfOk result (λ j. Judges j draft.old
        (Values kind set.now (pair_words first.entry) (Some (pair_words second.entry))) draft.new) }
{
    let (Some(value), Some(value2)) = (read_numeral(first.numeral), read_numeral(second.numeral))
    else {
        return Ok(Judgement::Refused(MpsKind::Numeral));
    };
    let (Some(row), Some(row2)) = (find_row(draft, first.row), find_row(draft, second.row)) else {
        return Ok(Judgement::Refused(MpsKind::UnknownName));
    };
    if has_value(kind, row.state) || has_value(kind, row2.state) || is_same_row(row, row2) {
        return Ok(Judgement::Refused(MpsKind::RepeatedEntry));
    }
    if is_long(set) {
        return Ok(Judgement::Refused(MpsKind::LongName));
    }
    name_set_for(alloc, draft, kind, set)?;
    give(draft, kind, row, value);
    give(draft, kind, row2, value2);
    Ok(Judgement::Taken)
}

/// A line of one pair: its set is used, or it is skipped.
fn take_single(
    alloc: Global,
    draft: &mut Draft,
    kind: ValueKind,
    set: &[u8],
    first: FieldPair<'_>,
) -> Result<Judgement, OutOfMemory>
    requires draft { IsDraft draft.old }
    requires set { IsField set.now }
    requires first { IsPair first }
    ensures { IfOk result (λ j. Judges j draft.old
        (Values kind set.now (pair_words first.entry) None) draft.new) }
{
    if is_used_for(draft, kind, set) {
        return take_value(alloc, draft, kind, set, first);
    }
    if is_long(set) || is_long(first.row) {
        return Ok(Judgement::Refused(MpsKind::LongName));
    }
    Ok(Judgement::Taken)
}

/// The same of a line of two pairs.
fn take_double(
    alloc: Global,
    draft: &mut Draft,
    kind: ValueKind,
    set: &[u8],
    first: FieldPair<'_>,
    second: FieldPair<'_>,
) -> Result<Judgement, OutOfMemory>
    requires draft { IsDraft draft.old }
    requires set { IsField set.now }
    requires first { IsPair first }
    requires second { IsPair second }
    ensures { IfOk result (λ j. Judges j draft.old
        (Values kind set.now (pair_words first.entry) (Some (pair_words second.entry))) draft.new) }
{
    if is_used_for(draft, kind, set) {
        return take_two_values(alloc, draft, kind, set, first, second);
    }
    if is_long(set) || is_long(first.row) || is_long(second.row) {
        return Ok(Judgement::Refused(MpsKind::LongName));
    }
    Ok(Judgement::Taken)
}

/// A line of right-hand sides or ranges: one or two pairs, after the name of a set or without one.
pub fn take_values(
    alloc: Global,
    draft: &mut Draft,
    kind: ValueKind,
    fields: Fields<'_>,
) -> Result<Judgement, OutOfMemory>
    requires draft { IsDraft draft.old }
    requires fields { AreFields (field_words fields) }
    ensures { IfOk result (λ j. Judges j draft.old
        (values_form kind (field_words fields.entry)) draft.new) }
{
    match fields {
        Fields::Double(row, numeral) => {
            take_single(alloc, draft, kind, &[], FieldPair { row, numeral })
        }
        Fields::Triple(set, row, numeral) => {
            take_single(alloc, draft, kind, set, FieldPair { row, numeral })
        }
        Fields::Quadruple(row, numeral, row2, numeral2) => {
            let first = FieldPair { row, numeral };
            let second = FieldPair {
                row: row2,
                numeral: numeral2,
            };
            take_double(alloc, draft, kind, &[], first, second)
        }
        Fields::Quintuple(set, row, numeral, row2, numeral2) => {
            let first = FieldPair { row, numeral };
            let second = FieldPair {
                row: row2,
                numeral: numeral2,
            };
            take_double(alloc, draft, kind, set, first, second)
        }
        _ => Ok(Judgement::Refused(MpsKind::FieldCount)),
    }
}
