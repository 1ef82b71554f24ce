ghost use Rattle.std.specs.Prelude.{◌≡◌, ◌≤◌, ◌<◌, ◌^◌, ◌&&◌, not, true, false, length, Some, None, IfOk, OnOk, MatchOption};
ghost use Rattle.mps_read.specs.Names.{is_long as is_long_name};
ghost use Rattle.mps_lines.specs.Forms.{bounds_form, BoundLine, has_numeral as is_with_numeral};
ghost use Rattle.mps_read.specs.Sets.{is_used as is_used_set};
ghost use Rattle.mps_read.specs.Numerals.{is_numeral, decimal_of};
ghost use Rattle.mps_read.specs.Columns.{low_limit as low_limit_of, high_limit as high_limit_of};
ghost use Rattle.mps_read.specs.DraftColumns.{with_bound};
ghost use Rattle.mps_lines.specs.FieldWords.{field_words, AreFields, IsField};
ghost use Rattle.mps_read.specs.Drafts.{IsDraft};
ghost use Rattle.mps_read.specs.Judges.{Judges};

use crate::draft::{Draft, Judgement};
use crate::error::MpsKind;
use crate::name::is_long;
use crate::numeral::{is_infinite, one};
use crate::sets::{is_used, name_set};
use ip_core::{Decimal, List, OutOfMemory};
use mps_lines::{BoundKind, Fields, bound_named, has_numeral};
use mps_model::{Limit, MpsCol};
use std::alloc::Global;

/// A number as a low: -10^20 or less stands for none.
fn low_limit(value: Decimal) -> Limit
    ensures { result ≡ low_limit_of value }
{
    if is_infinite(value.negation()) {
        Limit::Free
    } else {
        Limit::At(value)
    }
}

/// A number as a high: 10^20 or more stands for none.
fn high_limit(value: Decimal) -> Limit
    ensures { result ≡ high_limit_of value }
{
    if is_infinite(value) {
        Limit::Free
    } else {
        Limit::At(value)
    }
}

/// Bounds a column.
fn set_bound(cols: &mut List<MpsCol>, kind: BoundKind, col: usize, value: Decimal)
    requires { col < length cols.old }
    ensures { cols.new ≡ with_bound kind value col cols.old }
{
    let column = &mut cols.as_mut_slice()[col];
    match kind {
        BoundKind::Lower => column.low = low_limit(value),
        BoundKind::Upper => column.high = high_limit(value),
        BoundKind::Fixed => {
            column.low = low_limit(value);
            column.high = high_limit(value);
        }
        BoundKind::IntegerLower => {
            column.integer = true;
            column.low = low_limit(value);
        }
        BoundKind::IntegerUpper => {
            column.integer = true;
            column.high = high_limit(value);
        }
        BoundKind::Free => {
            column.low = Limit::Free;
            column.high = Limit::Free;
        }
        BoundKind::NoLower => column.low = Limit::Free,
        BoundKind::NoUpper => column.high = Limit::Free,
        BoundKind::Binary => {
            column.integer = true;
            column.low = Limit::At(Decimal::zero());
            column.high = Limit::At(one());
        }
    }
}

/// The number of a bound, or 0 for a type that has none; None where a numeral is asked for and the bytes aren't one.
fn bound_value(kind: BoundKind, numeral: &[u8]) -> Option<Decimal>
    requires { length numeral.now ≤ 2 ^ 30 }
    ensures { MatchOption result ((is_with_numeral kind && not (is_numeral numeral.now)) ≡ true)
        (λ d. ((is_with_numeral kind && not (is_numeral numeral.now)) ≡ false)
        × (d ≡ decimal_of numeral.now)) }
{
    match Decimal::read(numeral) {
        Ok(value) => Some(value),
        Err(_) => {
            if has_numeral(kind) {
                return None;
            }
            Some(Decimal::zero())
        }
    }
}

/// A bound line of the used set.
fn take_used(
    alloc: Global,
    draft: &mut Draft,
    kind: BoundKind,
    set: &[u8],
    column: &[u8],
    numeral: &[u8],
) -> Result<Judgement, OutOfMemory>
    requires draft { IsDraft draft.old }
    requires set { IsField set.now }
    requires numeral { length numeral.now ≤ 2 ^ 30 }
    requires used { is_used_set draft.old.bounds.set set.now ≡ true }
    ensures { IfOk result (λ j. Judges j draft.old
        (BoundLine kind set.now column.now numeral.now) draft.new) }
{
    let Some(value) = bound_value(kind, numeral) else {
        return Ok(Judgement::Refused(MpsKind::Numeral));
    };
    let Some(col) = draft.column_names.find(column) else {
        return Ok(Judgement::Refused(MpsKind::UnknownName));
    };
    if is_long(set) {
        return Ok(Judgement::Refused(MpsKind::LongName));
    }
    name_set(alloc, &mut draft.bounds, set)?;
    set_bound(&mut draft.cols, kind, col, value);
    Ok(Judgement::Taken)
}

/// A bound line: its set is used, or it is skipped.
fn take_bound(
    alloc: Global,
    draft: &mut Draft,
    kind: BoundKind,
    set: &[u8],
    column: &[u8],
    numeral: &[u8],
) -> Result<Judgement, OutOfMemory>
    requires draft { IsDraft draft.old }
    requires set { IsField set.now }
    requires numeral { length numeral.now ≤ 2 ^ 30 }
    ensures { IfOk result (λ j. Judges j draft.old
        (BoundLine kind set.now column.now numeral.now) draft.new) }
{
    if is_used(&draft.bounds, set) {
        return take_used(alloc, draft, kind, set, column, numeral);
    }
    if is_long(set) || is_long(column) {
        return Ok(Judgement::Refused(MpsKind::LongName));
    }
    Ok(Judgement::Taken)
}

/// A line of bounds: a type, a set or none, a column, and the number that the type asks for.
pub fn take_bounds(
    alloc: Global,
    draft: &mut Draft,
    fields: Fields<'_>,
) -> Result<Judgement, OutOfMemory>
    requires draft { IsDraft draft.old }
    requires fields { AreFields (field_words fields) }
    ensures { IfOk result (λ j. Judges j draft.old
        (bounds_form (field_words fields.entry)) draft.new) }
{
    let Some(kind) = bound_named(fields.first()) else {
        return Ok(Judgement::Refused(MpsKind::BoundType));
    };
    if has_numeral(kind) {
        return match fields {
            Fields::Triple(_, column, numeral) => {
                take_bound(alloc, draft, kind, &[], column, numeral)
            }
            Fields::Quadruple(_, set, column, numeral) => {
                take_bound(alloc, draft, kind, set, column, numeral)
            }
            _ => Ok(Judgement::Refused(MpsKind::FieldCount)),
        };
    }
    match fields {
        Fields::Double(_, column) => take_bound(alloc, draft, kind, &[], column, &[]),
        Fields::Triple(_, set, column) => take_bound(alloc, draft, kind, set, column, &[]),
        Fields::Quadruple(_, set, column, _) => take_bound(alloc, draft, kind, set, column, &[]),
        _ => Ok(Judgement::Refused(MpsKind::FieldCount)),
    }
}
