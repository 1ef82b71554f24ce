ghost use Rattle.std.specs.Prelude.{◌≡◌, ◌++◌, false, length, OnOk};
ghost use Rattle.mps_model.specs.MpsModels.{IsMpsCol, IsMpsModel};
ghost use Rattle.mps_model.specs.Prints.{columns_lines, cost_line, entry_lines, marker_line, omits_cost as omits_cost_of};

use crate::fields::{append_pair, is_zero};
use crate::model::{MpsCol, MpsModel, MpsRow};
use ip_core::{Name, OutOfMemory, Text};

/// Appends the marker between a column and the next one.
fn append_marker(text: &mut Text, before: bool, after: bool) -> Result<(), OutOfMemory>
    ensures { OnOk result (text.new ≡ text.old ++ marker_line before after) }
{
    if before == after {
        return Ok(());
    }
    if after {
        text.extend(b" M 'MARKER' 'INTORG'\n")
    } else {
        text.extend(b" M 'MARKER' 'INTEND'\n")
    }
}

/// Whether a column's cost is on no line: it is 0, and the column has entries.
fn omits_cost(col: &MpsCol) -> bool
    ensures { result ≡ omits_cost_of col.now }
{
    is_zero(col.cost) && !col.entries.is_empty()
}

/// Appends the line of a column's cost.
fn append_cost(text: &mut Text, objective: &Name, col: &MpsCol) -> Result<(), OutOfMemory>
    ensures { OnOk result (text.new ≡ text.old ++ cost_line objective.now col.now) }
{
    if omits_cost(col) {
        return Ok(());
    }
    append_pair(text, col.name.text().as_slice(), objective, col.cost)
}

/// Appends the entries of a column, whose rows are known.
fn append_entries(text: &mut Text, rows: &[MpsRow], col: &MpsCol) -> Result<(), OutOfMemory>
    requires { IsMpsCol (length rows.now) col.now }
    ensures { OnOk result (text.new ≡ text.old
        ++ entry_lines rows.now col.now.name col.now.entries) }
{
    let name = col.name.text().as_slice();
    for entry in col.entries.as_slice() {
        append_pair(text, name, &rows[entry.row as usize].name, entry.value)?;
    }
    Ok(())
}

/// Appends the columns in order, with markers around each run of integer columns.
pub fn append_columns(text: &mut Text, mps: &MpsModel) -> Result<(), OutOfMemory>
    requires { IsMpsModel mps.now }
    ensures { OnOk result (text.new ≡ text.old ++ columns_lines mps.now.objective mps.now.rows false
        mps.now.cols) }
{
    let mut integer = false;
    for col in mps.cols.as_slice() {
        append_marker(text, integer, col.integer)?;
        append_cost(text, &mps.objective, col)?;
        append_entries(text, mps.rows.as_slice(), col)?;
        integer = col.integer;
    }
    append_marker(text, integer, false)
}
