ghost use Rattle.std.specs.Prelude.{◌≡◌, ◌∷◌, ◌++◌, [], codes, IfOk, OnOk};
ghost use Rattle.ip_core.specs.Prints.{number_text};
ghost use Rattle.mps_model.specs.Prints.{bound_lines, data_line, high_line, low_line};

use crate::fields::{append_field, append_number};
use crate::model::{Limit, MpsCol};
use ip_core::{Decimal, Name, OutOfMemory, Text};
use std::alloc::Global;

/// Appends the line of a side that is free.
fn append_free(lines: &mut Text, kind: &[u8], name: &Name) -> Result<(), OutOfMemory>
    ensures { OnOk result (lines.new ≡ lines.old ++ data_line
        (kind.now ∷ codes "BND" ∷ name.now ∷ [])) }
{
    append_field(lines, kind)?;
    append_field(lines, b"BND")?;
    append_field(lines, name.text().as_slice())?;
    lines.push(b'\n')
}

/// Appends the line of a side at a number.
fn append_bound(
    lines: &mut Text,
    kind: &[u8],
    name: &Name,
    value: Decimal,
) -> Result<(), OutOfMemory>
    ensures { OnOk result (lines.new ≡ lines.old ++ data_line
        (kind.now ∷ codes "BND" ∷ name.now ∷ number_text value ∷ [])) }
{
    append_field(lines, kind)?;
    append_field(lines, b"BND")?;
    append_field(lines, name.text().as_slice())?;
    append_number(lines, value)?;
    lines.push(b'\n')
}

/// Appends the low of a column, where a line gave it.
fn append_low(lines: &mut Text, col: &MpsCol) -> Result<(), OutOfMemory>
    ensures { OnOk result (lines.new ≡ lines.old ++ low_line col.now.name col.now.low) }
{
    match col.low {
        Limit::Unset => Ok(()),
        Limit::Free => append_free(lines, b"MI", &col.name),
        Limit::At(value) => append_bound(lines, b"LO", &col.name, value),
    }
}

/// Appends the high of a column, where a line gave it.
fn append_high(lines: &mut Text, col: &MpsCol) -> Result<(), OutOfMemory>
    ensures { OnOk result (lines.new ≡ lines.old ++ high_line col.now.name col.now.high) }
{
    match col.high {
        Limit::Unset => Ok(()),
        Limit::Free => append_free(lines, b"PL", &col.name),
        Limit::At(value) => append_bound(lines, b"UP", &col.name, value),
    }
}

/// The lines of the bounds.
pub fn bounds_text(alloc: Global, cols: &[MpsCol]) -> Result<Text, OutOfMemory>
    ensures { IfOk result (λ lines. lines ≡ bound_lines cols.now) }
{
    let mut lines = Text::new(alloc);
    for col in cols {
        append_low(&mut lines, col)?;
        append_high(&mut lines, col)?;
    }
    Ok(lines)
}
