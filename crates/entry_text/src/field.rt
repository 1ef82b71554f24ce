ghost use Rattle.std.specs.Prelude.{◌≡◌, ◌++◌, OnOk};
ghost use Rattle.entry_text.specs.Fields.{number_field, number_fields, pair_fields, row_field, signed_field, signed_fields};

use ip_core::{OutOfMemory, Pair, RowRef, Text};
use itoa::Buffer;

/// Appends a blank and a number. Err comes only of want of memory, and the text is used no more then.
pub fn append_number(text: &mut Text, number: u64) -> Result<(), OutOfMemory>
    ensures { OnOk result (text.new ≡ text.old ++ number_field number) }
{
    text.push(b' ')?;
    text.extend(Buffer::new().format(number).as_bytes())
}

/// Appends a blank and a number with its sign. Err comes only of want of memory, and the text is used no more then.
pub fn append_signed(text: &mut Text, number: i64) -> Result<(), OutOfMemory>
    ensures { OnOk result (text.new ≡ text.old ++ signed_field number) }
{
    text.push(b' ')?;
    text.extend(Buffer::new().format(number).as_bytes())
}

/// Appends a blank and the name of a row: `r` and the number of a row of the model, or `k` and the number of a cut. Err
/// comes only of want of memory, and the text is used no more then.
pub fn append_row(text: &mut Text, row: RowRef) -> Result<(), OutOfMemory>
    ensures { OnOk result (text.new ≡ text.old ++ row_field row) }
{
    match row {
        RowRef::Model(number) => {
            text.extend(b" r")?;
            text.extend(Buffer::new().format(number).as_bytes())
        }
        RowRef::Cut(number) => {
            text.extend(b" k")?;
            text.extend(Buffer::new().format(number).as_bytes())
        }
    }
}

/// Appends numbers with their signs, in order.
pub(crate) fn append_signed_all(text: &mut Text, numbers: &[i64]) -> Result<(), OutOfMemory>
    ensures { OnOk result (text.new ≡ text.old ++ signed_fields numbers.now) }
{
    for number in numbers {
        append_signed(text, *number)?;
    }
    Ok(())
}

/// Appends numbers in order.
pub(crate) fn append_numbers(text: &mut Text, numbers: &[u32]) -> Result<(), OutOfMemory>
    ensures { OnOk result (text.new ≡ text.old ++ number_fields numbers.now) }
{
    for number in numbers {
        append_number(text, u64::from(*number))?;
    }
    Ok(())
}

/// Appends rows with their weights, in order.
pub(crate) fn append_pairs(text: &mut Text, pairs: &[Pair]) -> Result<(), OutOfMemory>
    ensures { OnOk result (text.new ≡ text.old ++ pair_fields pairs.now) }
{
    for pair in pairs {
        append_row(text, pair.row)?;
        append_number(text, pair.weight)?;
    }
    Ok(())
}
