ghost use Rattle.xsearch_words.specs.Outputs.{AreLeftBy};

use crate::{OutputError, Shelf, WriteError};
use ip_core::Text;
use std::alloc::Global;

/// A file that a run writes: its name, and the text that it is to hold.
#[derive(Debug, Drop)]
pub struct OutputFile {
    pub name: Text,
    pub text: Text,
}

/// Writes files whole, in their order, and ends at the first that can't be written.
///
/// # Errors
/// `Failed` where the write of the file at this place, counted from 0, failed. The files before it
/// are then whole, and it may hold a front of its text. `Memory` where memory could not be had:
/// some first files are then whole. All other files are as before.
#[tactic(auto, using(crate::proofs::OutputWrites::none_written, crate::proofs::OutputWrites::next_written, crate::proofs::OutputWrites::next_failed, crate::proofs::OutputWrites::next_unwritten))]
pub fn write_all<S: Shelf>(
    alloc: Global,
    outputs: &[OutputFile],
    shelf: &mut S,
) -> Result<(), OutputError>
    ensures { AreLeftBy result outputs.now (S.state shelf.old) (S.state shelf.new) }
{
    for (place, output) in outputs.iter().enumerate() {
        match shelf.write(alloc, &output.name, output.text.as_slice()) {
            Ok(()) => {}
            Err(WriteError::Failed) => return Err(OutputError::Failed { place }),
            Err(WriteError::Memory) => return Err(OutputError::Memory),
        }
    }
    Ok(())
}
