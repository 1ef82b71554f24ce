ghost use Rattle.std.specs.Prelude.{◌≡◌, Ok};
ghost use Rattle.xsearch.specs.Writes.{IsWritten, write_failure as write_failure_of};

use crate::output::{Failure, Output};
use std::alloc::Global;
use xsearch_words::{OutputError, Shelf, write_all};

/// Writes the files of what was found, in their order, and says what the command comes to then:
/// what was found where all are written, and else why one isn't.
#[tactic(auto, using(crate::proofs::Running::nothing_to_write))]
pub fn write_files<S: Shelf>(
    alloc: Global,
    found: Result<Output, Failure>,
    shelf: &mut S,
) -> Result<Output, Failure>
    ensures { IsWritten found (S.state shelf.old) (S.state shelf.new) result }
{
    match found {
        Ok(output) => write_output(alloc, output, shelf),
        Err(failure) => Err(failure),
    }
}

fn write_output<S: Shelf>(alloc: Global, output: Output, shelf: &mut S) -> Result<Output, Failure>
    ensures { IsWritten (Ok output) (S.state shelf.old) (S.state shelf.new) result }
{
    match write_all(alloc, output.files.as_slice(), shelf) {
        Ok(()) => Ok(output),
        Err(error) => Err(write_failure(error)),
    }
}

/// What writes come to that ended with this error.
fn write_failure(error: OutputError) -> Failure
    ensures { result ≡ write_failure_of error }
{
    match error {
        OutputError::Failed { place } => Failure::WriteFailed { place },
        OutputError::Memory => Failure::Memory,
    }
}
