ghost use Rattle.std.specs.Prelude.{◌≡◌, ◌∷◌, ◌++◌, [], OnOk};
ghost use Rattle.mps_model.specs.Prints.{data_line, kind_word, row_lines};

use crate::fields::append_field;
use crate::model::{MpsRow, RowKind};
use ip_core::{Name, OutOfMemory, Text};

/// Appends the line of a row: its type and its name.
pub fn append_row(text: &mut Text, kind: &[u8], name: &Name) -> Result<(), OutOfMemory>
    ensures { OnOk result (text.new ≡ text.old ++ data_line (kind.now ∷ name.now ∷ [])) }
{
    append_field(text, kind)?;
    append_field(text, name.text().as_slice())?;
    text.push(b'\n')
}

/// Appends the line of a row of the model.
fn append_kept_row(text: &mut Text, row: &MpsRow) -> Result<(), OutOfMemory>
    ensures { OnOk result (text.new ≡ text.old ++ data_line
        (kind_word row.now.kind ∷ row.now.name ∷ [])) }
{
    match row.kind {
        RowKind::Less => append_row(text, b"L", &row.name),
        RowKind::Greater => append_row(text, b"G", &row.name),
        RowKind::Equal => append_row(text, b"E", &row.name),
    }
}

/// Appends the rows in order.
pub fn append_rows(text: &mut Text, rows: &[MpsRow]) -> Result<(), OutOfMemory>
    ensures { OnOk result (text.new ≡ text.old ++ row_lines rows.now) }
{
    for row in rows {
        append_kept_row(text, row)?;
    }
    Ok(())
}
