ghost use Rattle.std.specs.Prelude.{◌≡◌, ◌++◌, OnOk};
ghost use Rattle.entry_text.specs.Entries.{entry_line, entry_lines, entry_text};

use crate::derivation::append_derivation;
use crate::field::{append_number, append_signed, append_signed_all};
use ip_core::{OutOfMemory, Text};
use itoa::Buffer;
use work_stamp::{Entry, KeyedEntry};

/// Appends a line for each entry, in order: its stamp, its slot, its word and its numbers. Err comes only of want of memory,
/// and the text is used no more then.
pub fn append_entries(text: &mut Text, entries: &[KeyedEntry]) -> Result<(), OutOfMemory>
    ensures { OnOk result (text.new ≡ text.old ++ entry_lines entries.now) }
{
    for entry in entries {
        append_line(text, entry)?;
    }
    Ok(())
}

fn append_line(text: &mut Text, item: &KeyedEntry) -> Result<(), OutOfMemory>
    ensures { OnOk result (text.new ≡ text.old ++ entry_line item.now) }
{
    text.extend(Buffer::new().format(item.key.stamp).as_bytes())?;
    append_number(text, u64::from(item.key.slot))?;
    text.push(b' ')?;
    append_entry(text, &item.entry)?;
    text.push(b'\n')
}

fn append_entry(text: &mut Text, entry: &Entry) -> Result<(), OutOfMemory>
    ensures { OnOk result (text.new ≡ text.old ++ entry_text entry.now) }
{
    match entry {
        Entry::Start { node } => {
            text.extend(b"start")?;
            append_number(text, *node)
        }
        Entry::CutStart => text.extend(b"cutloop"),
        Entry::HeurStart { node } => {
            text.extend(b"dive")?;
            append_number(text, *node)
        }
        Entry::Done => text.extend(b"done"),
        Entry::Found { value, point } => {
            text.extend(b"found")?;
            append_signed(text, *value)?;
            append_signed_all(text, point.values())
        }
        Entry::Cut { derivation } => append_derivation(text, derivation),
        Entry::Split {
            node,
            col,
            at,
            first,
            keep,
            bound,
        } => {
            text.extend(b"split")?;
            append_number(text, *node)?;
            append_number(text, u64::from(*col))?;
            append_signed(text, *at)?;
            append_number(text, *first)?;
            append_number(text, u64::from(*keep))?;
            append_signed(text, *bound)
        }
        Entry::Closed { node } => {
            text.extend(b"closed")?;
            append_number(text, *node)
        }
        Entry::Halt => text.extend(b"halt"),
    }
}
