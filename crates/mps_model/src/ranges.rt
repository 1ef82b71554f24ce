ghost use Rattle.std.specs.Prelude.{◌≡◌, ◌++◌, IfOk, OnOk};
ghost use Rattle.mps_model.specs.Prints.{range_line, range_lines};

use crate::fields::append_pair;
use crate::model::MpsRow;
use ip_core::{OutOfMemory, Text};
use std::alloc::Global;

/// Appends the range of a row that has one, zero or not.
fn append_range(lines: &mut Text, row: &MpsRow) -> Result<(), OutOfMemory>
    ensures { OnOk result (lines.new ≡ lines.old ++ range_line row.now.name row.now.range) }
{
    match row.range {
        None => Ok(()),
        Some(range) => append_pair(lines, b"RNG", &row.name, range),
    }
}

/// The lines of the ranges.
pub fn ranges_text(alloc: Global, rows: &[MpsRow]) -> Result<Text, OutOfMemory>
    ensures { IfOk result (λ lines. lines ≡ range_lines rows.now) }
{
    let mut lines = Text::new(alloc);
    for row in rows {
        append_range(&mut lines, row)?;
    }
    Ok(lines)
}
