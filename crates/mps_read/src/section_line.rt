ghost use Rattle.std.specs.Prelude.{◌≡◌, [], true, false, IfOk, OnOk, IfNone};
ghost use Rattle.mps_lines.specs.Forms.{head_form, sense_form, Head};
ghost use Rattle.mps_read.specs.DraftKinds.{draft_kind, has_begun as has_begun_of};
ghost use Rattle.mps_read.specs.Kinds.{is_in_order as is_in_order_of, rank_of, is_objsense as is_objsense_of, lacks_objective as lacks_objective_of, is_long_title as is_long_title_of, has_bad_sense as has_bad_sense_of};
ghost use Rattle.mps_lines.specs.FieldWords.{field_words, AreFields, IsField};
ghost use Rattle.mps_read.specs.Steps.{after_head};
ghost use Rattle.mps_read.specs.Judges.{Judges};

use crate::draft::{Draft, Judgement};
use crate::error::MpsKind;
use crate::name::{is_long, name_of};
use ip_core::OutOfMemory;
use mps_lines::{Fields, Section, is_last, section_named, sense_named};
use std::alloc::Global;

/// How far a file is after a section, or before any.
fn rank(section: Option<Section>) -> u32
    ensures { result ≡ rank_of section }
{
    match section {
        None => 0,
        Some(Section::Name) => 1,
        Some(Section::Objsense) => 2,
        Some(Section::Rows) => 3,
        Some(Section::Columns) => 4,
        Some(Section::Rhs | Section::Ranges | Section::Bounds) => 5,
        Some(Section::Endata) => 6,
    }
}

/// Whether a section may stand next.
fn is_in_order(draft: &Draft, section: Section) -> bool
    ensures { result ≡ is_in_order_of draft.now.section (has_begun_of draft.now section) section }
{
    let rank = rank(draft.section);
    match section {
        Section::Name => rank == 0,
        Section::Objsense => rank <= 1,
        Section::Rows => rank <= 2,
        Section::Columns => rank == 3,
        Section::Rhs => 4 <= rank && !draft.rhs.has_begun,
        Section::Ranges => 4 <= rank && !draft.ranges.has_begun,
        Section::Bounds => 4 <= rank && !draft.bounds.has_begun,
        Section::Endata => 4 <= rank,
    }
}

/// Whether the columns begin without an objective.
fn lacks_objective(draft: &Draft, section: Section) -> bool
    ensures { result ≡ lacks_objective_of draft.now.objective (Head section []) }
{
    match section {
        Section::Columns => draft.objective.is_none(),
        _ => false,
    }
}

/// Whether the model's name is too long.
fn is_long_title(section: Section, word: &[u8]) -> bool
    ensures { result ≡ is_long_title_of section word.now }
{
    match section {
        Section::Name => is_long(word),
        _ => false,
    }
}

/// Whether the last section is that of the sense.
fn is_objsense(section: Option<Section>) -> bool
    ensures { result ≡ is_objsense_of section }
{
    match section {
        Some(Section::Objsense) => true,
        _ => false,
    }
}

/// Whether the section's word is no sense, or the sense is missing where the next section begins.
fn has_bad_sense(draft: &Draft, section: Section, word: &[u8]) -> bool
    ensures { result ≡ has_bad_sense_of draft.now.section draft.now.maximise
        (Head section word.now) }
{
    match section {
        Section::Objsense => !word.is_empty() && sense_named(word).is_none(),
        _ => is_objsense(draft.section) && draft.maximise.is_none(),
    }
}

/// Why a section line isn't allowed, if it isn't.
fn head_kind(draft: &Draft, section: Section, word: &[u8]) -> Option<MpsKind>
    ensures kind { result ≡ draft_kind draft.now (Head section word.now) }
    ensures short { IfNone result (is_long_title_of section word.now ≡ false) }
{
    if !is_in_order(draft, section) {
        return Some(MpsKind::SectionOrder);
    }
    if lacks_objective(draft, section) {
        return Some(MpsKind::NoObjective);
    }
    if is_long_title(section, word) {
        return Some(MpsKind::LongName);
    }
    if has_bad_sense(draft, section, word) {
        return Some(MpsKind::Sense);
    }
    None
}

/// Begins a section.
fn begin_section(
    alloc: Global,
    draft: &mut Draft,
    section: Section,
    word: &[u8],
) -> Result<(), OutOfMemory>
    requires field { IsField word.now }
    requires short { is_long_title_of section word.now ≡ false }
    ensures { OnOk result (draft.new ≡ after_head draft.old section word.now) }
{
    match section {
        Section::Name => draft.name = name_of(alloc, word)?,
        Section::Objsense => draft.maximise = sense_named(word),
        Section::Rhs => draft.rhs.has_begun = true,
        Section::Ranges => draft.ranges.has_begun = true,
        Section::Bounds => draft.bounds.has_begun = true,
        Section::Rows | Section::Columns | Section::Endata => {}
    }
    draft.section = Some(section);
    Ok(())
}

/// A section line.
pub fn take_head(
    alloc: Global,
    draft: &mut Draft,
    fields: Fields<'_>,
) -> Result<Judgement, OutOfMemory>
    requires { AreFields (field_words fields) }
    ensures { IfOk result (λ j. Judges j draft.old
        (head_form (field_words fields.entry)) draft.new) }
{
    let Some(section) = section_named(fields.first()) else {
        return Ok(Judgement::Refused(MpsKind::UnknownSection));
    };
    let word = fields.second();
    if let Some(kind) = head_kind(draft, section, word) {
        return Ok(Judgement::Refused(kind));
    }
    if is_last(section) {
        return Ok(Judgement::Ended);
    }
    begin_section(alloc, draft, section, word)?;
    Ok(Judgement::Taken)
}

/// The data line of the sense.
pub fn take_sense(draft: &mut Draft, fields: Fields<'_>) -> Judgement
    ensures { Judges result draft.old (sense_form (field_words fields.entry)) draft.new }
{
    let Fields::Single(word) = fields else {
        return Judgement::Refused(MpsKind::FieldCount);
    };
    let Some(maximise) = sense_named(word) else {
        return Judgement::Refused(MpsKind::Sense);
    };
    if draft.maximise.is_some() {
        return Judgement::Refused(MpsKind::Sense);
    }
    draft.has_sense_line = true;
    draft.maximise = Some(maximise);
    Judgement::Taken
}
