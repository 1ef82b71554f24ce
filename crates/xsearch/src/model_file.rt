ghost use Rattle.std.specs.Prelude.{IfOk, IsErrOf, MatchResult};
ghost use Rattle.mps_model.specs.MpsModels.{IsMpsModel};
ghost use Rattle.mps_read.specs.Refusals.{IsCause};
ghost use Rattle.mps_read.specs.Readings.{Reads};
ghost use Rattle.xsearch.specs.ModelFiles.{IsModelFile, IsModelFailure, IsSmall};
ghost use Rattle.xsearch.specs.Shelves.{IsOneRead};
ghost use Rattle.xsearch_words.specs.Shelf.{HasNoFault};

use crate::file_bytes::read_bytes;
use crate::output::Failure;
use ip_core::Text;
use mps_model::MpsModel;
use mps_read::{MpsError, read};
use std::alloc::Global;
use xsearch_words::Shelf;

/// The most bytes of a model file: 16 MiB.
const MAX_MODEL_FILE: u64 = 16_777_216;

/// The model of the file of this name, or why there is none.
#[tactic(auto, using(crate::proofs::Running::no_bytes_no_model))]
pub fn read_model<S: Shelf>(alloc: Global, name: &Text, shelf: &mut S) -> Result<MpsModel, Failure>
    ensures cause { MatchResult result
        (IsModelFile (S.state shelf.old) name.now)
        (IsModelFailure (S.state shelf.old) (S.state shelf.new) name.now) }
    ensures read { IsOneRead (S.state shelf.old) (S.state shelf.new) }
    ensures quiet { ¬ IsErrOf result Failure.ReadFailed →
        HasNoFault (S.state shelf.old) (S.state shelf.new) }
    ensures kept { IfOk result IsMpsModel }
    ensures small { IfOk result IsSmall }
{
    let bytes = match read_bytes(alloc, name, MAX_MODEL_FILE, shelf) {
        Ok(bytes) => bytes,
        Err(failure) => return Err(failure),
    };
    match read(alloc, bytes.as_slice()) {
        Ok(mps) => Ok(mps),
        Err(MpsError::Refused { line, kind }) => Err(Failure::Mps { line, kind }),
        Err(MpsError::Memory) => Err(Failure::Memory),
    }
}
