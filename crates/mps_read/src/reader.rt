ghost use Rattle.std.specs.Prelude.{◌≡◌, ◌≤◌, ◌<◌, ◌^◌, length, IfOk, MatchResult};
ghost use Rattle.mps_lines.specs.Forms.{form_of, data_form};
ghost use Rattle.mps_read.specs.Readings.{Reads, IsRefused, name_or_empty as name_or_empty_of};
ghost use Rattle.mps_read.specs.Steps.{draft_model};
ghost use Rattle.mps_read.specs.Refusals.{IsCause};
ghost use Rattle.mps_lines.specs.FieldWords.{field_words, AreFields};
ghost use Rattle.mps_read.specs.Judges.{Judges};
ghost use Rattle.mps_read.specs.Drafts.{IsDraft};
ghost use Rattle.mps_model.specs.MpsModels.{IsMpsModel};

use crate::bounds::take_bounds;
use crate::columns::take_columns;
use crate::draft::{Draft, Judgement};
use crate::error::{MpsError, MpsKind, MpsRefusal};
use crate::name::empty_name;
use crate::rows::take_rows;
use crate::section_line::{take_head, take_sense};
use crate::sides_and_ranges::take_values;
use ip_core::{Name, OutOfMemory};
use mps_lines::{Fields, Section, ValueKind, fields_of, is_comment, is_data, is_text, next_line};
use mps_model::MpsModel;
use std::alloc::Global;

/// A data line, by the section that it stands in.
fn take_data(alloc: Global, draft: &mut Draft, fields: Fields<'_>) -> Result<Judgement, OutOfMemory>
    requires draft { IsDraft draft.old }
    requires few_rows { draft.old.kept < 2 ^ 31 }
    requires few_columns { length draft.old.column_names < 2 ^ 31 }
    requires fields { AreFields (field_words fields) }
    ensures { IfOk result (λ j. Judges j draft.old
        (data_form draft.old.section draft.old.has_sense_line (field_words fields.entry))
        draft.new) }
{
    match draft.section {
        None | Some(Section::Name | Section::Endata) => {
            Ok(Judgement::Refused(MpsKind::SectionOrder))
        }
        Some(Section::Objsense) => {
            if draft.has_sense_line {
                return Ok(Judgement::Refused(MpsKind::SectionOrder));
            }
            Ok(take_sense(draft, fields))
        }
        Some(Section::Rows) => take_rows(alloc, draft, fields),
        Some(Section::Columns) => take_columns(alloc, draft, fields),
        Some(Section::Rhs) => take_values(alloc, draft, ValueKind::Side, fields),
        Some(Section::Ranges) => take_values(alloc, draft, ValueKind::Range, fields),
        Some(Section::Bounds) => take_bounds(alloc, draft, fields),
    }
}

/// Takes one more line into the draft, if it is allowed there.
fn take_line(alloc: Global, draft: &mut Draft, line: &[u8]) -> Result<Judgement, OutOfMemory>
    requires draft { IsDraft draft.old }
    requires few_rows { draft.old.kept < 2 ^ 31 }
    requires few_columns { length draft.old.column_names < 2 ^ 31 }
    requires short { length line.now ≤ 2 ^ 30 }
    ensures { IfOk result (λ j. Judges j draft.old
        (form_of draft.old.section draft.old.has_sense_line line.now) draft.new) }
{
    if is_comment(line) {
        return Ok(Judgement::Taken);
    }
    if !is_text(line) {
        return Ok(Judgement::Refused(MpsKind::BadByte));
    }
    let fields = fields_of(line);
    if fields.is_empty() {
        return Ok(Judgement::Taken);
    }
    if is_data(line) {
        return take_data(alloc, draft, fields);
    }
    take_head(alloc, draft, fields)
}

/// A name, or that of no byte.
fn name_or_empty(alloc: Global, name: Option<Name>) -> Name
    ensures { result ≡ name_or_empty_of name }
{
    match name {
        Some(name) => name,
        None => empty_name(alloc),
    }
}

/// The model of what was read.
fn finish(alloc: Global, draft: Draft) -> MpsModel
    ensures { result ≡ draft_model draft }
{
    MpsModel {
        name: draft.name,
        maximise: draft.maximise.unwrap_or(false),
        objective: name_or_empty(alloc, draft.objective),
        constant: draft.constant,
        rows: draft.rows,
        cols: draft.cols,
    }
}

/// Reads the lines in order to the end of the file, or to the first that isn't allowed.
fn read_lines(alloc: Global, bytes: &[u8]) -> Result<Result<MpsModel, MpsRefusal>, OutOfMemory>
    requires { length bytes.now ≤ 2 ^ 30 }
    ensures { IfOk result (λ answer. MatchResult answer
        (λ m. Reads bytes.now m) (λ r. IsRefused bytes.now r.line r.kind)) }
{
    let mut draft = Draft::new(alloc);
    let mut rest = bytes;
    let mut number: u32 = 1;
    while let Some((line, after)) = next_line(rest) {
        match take_line(alloc, &mut draft, line)? {
            Judgement::Refused(kind) => return Ok(Err(MpsRefusal { line: number, kind })),
            Judgement::Ended => return Ok(Ok(finish(alloc, draft))),
            Judgement::Taken => {}
        }
        rest = after;
        number += 1;
    }
    Ok(Err(MpsRefusal {
        line: number,
        kind: MpsKind::NoEndata,
    }))
}

/// Reads a file: its model, or the first line that isn't allowed given all lines before it, with the first kind that
/// applies to it. Lines after `ENDATA` aren't read. Only memory can end it otherwise. What it gives is a model that a
/// file can have, which can be printed, with at most as many rows and at most as many columns as the file has bytes.
pub fn read(alloc: Global, bytes: &[u8]) -> Result<MpsModel, MpsError>
    requires { length bytes.now ≤ 2 ^ 30 }
    ensures answer { MatchResult result (λ m. Reads bytes.now m) (λ e. IsCause bytes.now e) }
    ensures kept { IfOk result (λ m. IsMpsModel m) }
    ensures few_rows { IfOk result (λ m. length m.rows ≤ length bytes.now) }
    ensures few_columns { IfOk result (λ m. length m.cols ≤ length bytes.now) }
{
    match read_lines(alloc, bytes)? {
        Ok(model) => Ok(model),
        Err(MpsRefusal { line, kind }) => Err(MpsError::Refused { line, kind }),
    }
}
