ghost use Rattle.std.specs.Prelude.{◌≡◌, IfOk};
ghost use Rattle.mps_model.specs.MpsModels.{IsMpsModel};
ghost use Rattle.mps_model.specs.Prints.{canonical_text as canonical_text_of};

use crate::bounds::bounds_text;
use crate::columns::append_columns;
use crate::fields::append_section;
use crate::header::append_header;
use crate::model::MpsModel;
use crate::ranges::ranges_text;
use crate::rows::{append_row, append_rows};
use crate::sides::sides_text;
use ip_core::{OutOfMemory, Text};
use std::alloc::Global;

/// The canonical text of a model that a file can have: an MPS file with one number on a line, in which nothing stands
/// that says nothing. The one error is want of memory.
pub fn canonical_text(alloc: Global, mps: &MpsModel) -> Result<Text, OutOfMemory>
    requires { IsMpsModel mps.now }
    ensures { IfOk result (λ text. text ≡ canonical_text_of mps.now) }
{
    let mut text = Text::new(alloc);
    append_header(&mut text, mps)?;
    text.extend(b"ROWS\n")?;
    append_row(&mut text, b"N", &mps.objective)?;
    append_rows(&mut text, mps.rows.as_slice())?;
    text.extend(b"COLUMNS\n")?;
    append_columns(&mut text, mps)?;
    append_section(&mut text, b"RHS", &sides_text(alloc, mps)?)?;
    append_section(
        &mut text,
        b"RANGES",
        &ranges_text(alloc, mps.rows.as_slice())?,
    )?;
    append_section(
        &mut text,
        b"BOUNDS",
        &bounds_text(alloc, mps.cols.as_slice())?,
    )?;
    text.extend(b"ENDATA\n")?;
    Ok(text)
}
