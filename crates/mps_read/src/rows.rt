ghost use Rattle.std.specs.Prelude.{◌≡◌, ◌<◌, ◌^◌, true, false, IfOk, IfNone};
ghost use Rattle.mps_read.specs.Names.{is_among, is_long as is_long_name};
ghost use Rattle.mps_lines.specs.Forms.{rows_form, FreeRow, KeptRow, marker_word};
ghost use Rattle.mps_read.specs.DraftKinds.{draft_kind};
ghost use Rattle.mps_lines.specs.FieldWords.{field_words, AreFields, IsField};
ghost use Rattle.mps_read.specs.Judges.{Judges};

use crate::draft::{Draft, Judgement, RowPlace, RowState};
use crate::error::MpsKind;
use crate::name::{is_long, name_of};
use ip_core::{Decimal, OutOfMemory};
use mps_lines::{Fields, is_word, row_kind_named};
use mps_model::{MpsRow, RowKind};
use std::alloc::Global;

/// Why a row may not have this name, if it may not.
fn name_kind(draft: &Draft, name: &[u8]) -> Option<MpsKind>
    ensures kind { result ≡ draft_kind draft.now (FreeRow name.now) }
    ensures new { IfNone result (is_among name.now draft.now.row_names ≡ false) }
    ensures short { IfNone result (is_long_name name.now ≡ false) }
{
    if draft.row_names.find(name).is_some() {
        return Some(MpsKind::RepeatedName);
    }
    if is_word(name, b"'MARKER'") {
        return Some(MpsKind::Marker);
    }
    if is_long(name) {
        return Some(MpsKind::LongName);
    }
    None
}

/// What the next row without right-hand side stands for: the objective is the first of them.
fn take_free(alloc: Global, draft: &mut Draft, name: &[u8]) -> Result<Judgement, OutOfMemory>
    requires { IsField name.now }
    ensures { IfOk result (λ j. Judges j draft.old (FreeRow name.now) draft.new) }
{
    if let Some(kind) = name_kind(draft, name) {
        return Ok(Judgement::Refused(kind));
    }
    draft.row_names.add(alloc, name)?;
    draft.latest.push(0)?;
    let place = if draft.objective.is_none() {
        draft.objective = Some(name_of(alloc, name)?);
        RowPlace::Objective
    } else {
        RowPlace::Dropped
    };
    draft.row_states.push(RowState {
        place,
        has_side: false,
        has_range: false,
    })?;
    Ok(Judgement::Taken)
}

/// A row of the model.
fn take_kept(
    alloc: Global,
    draft: &mut Draft,
    kind: RowKind,
    name: &[u8],
) -> Result<Judgement, OutOfMemory>
    requires few { draft.old.kept < 2 ^ 31 }
    requires field { IsField name.now }
    ensures { IfOk result (λ j. Judges j draft.old (KeptRow kind name.now) draft.new) }
{
    if let Some(refusal) = name_kind(draft, name) {
        return Ok(Judgement::Refused(refusal));
    }
    draft.row_names.add(alloc, name)?;
    draft.latest.push(0)?;
    draft.row_states.push(RowState {
        place: RowPlace::Kept(draft.kept),
        has_side: false,
        has_range: false,
    })?;
    draft.rows.push(MpsRow {
        name: name_of(alloc, name)?,
        kind,
        rhs: Decimal::zero(),
        range: None,
    })?;
    draft.kept += 1;
    Ok(Judgement::Taken)
}

/// A line of rows: a type and a name.
pub fn take_rows(
    alloc: Global,
    draft: &mut Draft,
    fields: Fields<'_>,
) -> Result<Judgement, OutOfMemory>
    requires few { draft.old.kept < 2 ^ 31 }
    requires fields { AreFields (field_words fields) }
    ensures { IfOk result (λ j. Judges j draft.old
        (rows_form (field_words fields.entry)) draft.new) }
{
    let Fields::Double(kind, name) = fields else {
        return Ok(Judgement::Refused(MpsKind::FieldCount));
    };
    if is_word(kind, b"N") {
        return take_free(alloc, draft, name);
    }
    match row_kind_named(kind) {
        Some(kind) => take_kept(alloc, draft, kind, name),
        None => Ok(Judgement::Refused(MpsKind::RowType)),
    }
}
