ghost use Rattle.std.specs.Prelude.{◌≡◌, ◌++◌, IfOk, OnOk};
ghost use Rattle.mps_model.specs.Prints.{side_lines, sides_lines};

use crate::fields::append_nonzero;
use crate::model::{MpsModel, MpsRow};
use ip_core::{OutOfMemory, Text};
use std::alloc::Global;

/// The lines of the right-hand sides.
pub fn sides_text(alloc: Global, mps: &MpsModel) -> Result<Text, OutOfMemory>
    ensures { IfOk result (λ lines. lines ≡ sides_lines mps.now) }
{
    let mut lines = Text::new(alloc);
    append_nonzero(&mut lines, b"RHS", &mps.objective, mps.constant.negation())?;
    append_sides(&mut lines, mps.rows.as_slice())?;
    Ok(lines)
}

/// Appends the right-hand sides of rows that are not 0.
fn append_sides(lines: &mut Text, rows: &[MpsRow]) -> Result<(), OutOfMemory>
    ensures { OnOk result (lines.new ≡ lines.old ++ side_lines rows.now) }
{
    for row in rows {
        append_nonzero(lines, b"RHS", &row.name, row.rhs)?;
    }
    Ok(())
}
