ghost use Rattle.std.specs.Prelude.{◌≡◌, ◌++◌, OnOk};
ghost use Rattle.entry_text.specs.Entries.{derivation_text};

use crate::field::{append_number, append_numbers, append_pairs, append_row};
use ip_core::{Derivation, OutOfMemory, Text};

/// Appends how a cut follows from the rows before it: `gomory DIVISOR K` with K rows and their weights, or `cover ROW K`
/// with K columns. Err comes only of want of memory, and the text is used no more then.
pub fn append_derivation(text: &mut Text, derivation: &Derivation) -> Result<(), OutOfMemory>
    ensures { OnOk result (text.new ≡ text.old ++ derivation_text derivation.now) }
{
    match derivation {
        Derivation::Gomory { parts, divisor } => {
            text.extend(b"gomory")?;
            append_number(text, *divisor)?;
            append_number(text, parts.len() as u64)?;
            append_pairs(text, parts.as_slice())
        }
        Derivation::Cover { row, cols } => {
            text.extend(b"cover")?;
            append_row(text, *row)?;
            append_number(text, cols.len() as u64)?;
            append_numbers(text, cols.as_slice())
        }
    }
}
