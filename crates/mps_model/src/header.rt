ghost use Rattle.std.specs.Prelude.{◌≡◌, ◌++◌, OnOk};
ghost use Rattle.mps_model.specs.Prints.{name_line, sense_lines};

use crate::fields::append_field;
use crate::model::MpsModel;
use ip_core::{OutOfMemory, Text};

/// Appends the model's name, unless it is empty, and the sense, where it is to maximise.
pub fn append_header(text: &mut Text, mps: &MpsModel) -> Result<(), OutOfMemory>
    ensures { OnOk result (text.new ≡ text.old ++ name_line mps.now.name ++ sense_lines
        mps.now.maximise) }
{
    let name = mps.name.text();
    if !name.is_empty() {
        text.extend(b"NAME")?;
        append_field(text, name.as_slice())?;
        text.push(b'\n')?;
    }
    if mps.maximise {
        text.extend(b"OBJSENSE\n MAX\n")?;
    }
    Ok(())
}
