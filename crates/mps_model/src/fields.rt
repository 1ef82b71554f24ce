ghost use Rattle.std.specs.Prelude.{◌≡◌, ◌∷◌, ◌++◌, OnOk};
ghost use Rattle.ip_core.specs.Prints.{number_text};
ghost use Rattle.mps_model.specs.Numbers.{is_zero as is_zero_of};
ghost use Rattle.mps_model.specs.Prints.{nonzero_line, pair_line, section_lines};

use ip_core::{Decimal, Name, OutOfMemory, Text};

/// Appends a blank and a field.
pub fn append_field(text: &mut Text, field: &[u8]) -> Result<(), OutOfMemory>
    ensures { OnOk result (text.new ≡ text.old ++ 32 ∷ field.now) }
{
    text.push(b' ')?;
    text.extend(field)
}

/// Appends a blank and a number.
pub fn append_number(text: &mut Text, value: Decimal) -> Result<(), OutOfMemory>
    ensures { OnOk result (text.new ≡ text.old ++ 32 ∷ number_text value) }
{
    text.push(b' ')?;
    value.append_to(text)
}

/// Appends a line of a name, the name of a row and a number.
pub fn append_pair(
    text: &mut Text,
    name: &[u8],
    row: &Name,
    value: Decimal,
) -> Result<(), OutOfMemory>
    ensures { OnOk result (text.new ≡ text.old ++ pair_line name.now row.now value) }
{
    append_field(text, name)?;
    append_field(text, row.text().as_slice())?;
    append_number(text, value)?;
    text.push(b'\n')
}

/// Whether a number is 0.
pub fn is_zero(value: Decimal) -> bool
    ensures { result ≡ is_zero_of value }
{
    value.mantissa() == 0
}

/// Appends such a line, unless the number is 0.
pub fn append_nonzero(
    text: &mut Text,
    name: &[u8],
    row: &Name,
    value: Decimal,
) -> Result<(), OutOfMemory>
    ensures { OnOk result (text.new ≡ text.old ++ nonzero_line name.now row.now value) }
{
    if is_zero(value) {
        return Ok(());
    }
    append_pair(text, name, row, value)
}

/// Appends a section of these lines, or nothing where there are none.
pub fn append_section(text: &mut Text, head: &[u8], lines: &Text) -> Result<(), OutOfMemory>
    ensures { OnOk result (text.new ≡ text.old ++ section_lines head.now lines.now) }
{
    if lines.is_empty() {
        return Ok(());
    }
    text.extend(head)?;
    text.push(b'\n')?;
    text.extend(lines.as_slice())
}
