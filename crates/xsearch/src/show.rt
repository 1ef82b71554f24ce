ghost use Rattle.std.specs.Prelude.{◌≡◌};
ghost use Rattle.mps_model.specs.MpsModels.{IsMpsModel};
ghost use Rattle.xsearch.specs.Causes.{IsCausedBy, IsPrinted};
ghost use Rattle.xsearch.specs.FileJobs.{IsFileJob};
ghost use Rattle.xsearch.specs.ModelFiles.{IsModelFailure, IsModelFile};
ghost use Rattle.xsearch.specs.Runs.{Ends};
ghost use Rattle.xsearch_words.specs.declared.job.Job.TheVariants.{Show};

use crate::model_file::read_model;
use crate::output::{Failure, Output};
use crate::report::finish;
use crate::status::ExitStatus;
use ip_core::{List, OutOfMemory, Text};
use mps_read::{MpsModel, print};
use std::alloc::Global;
use xsearch_words::{Shelf, Sink};

/// Does the command `show`, and answers the exit status: reads the model of a file and puts its
/// canonical text, or the one refusal line. The model needn't be one that is admitted.
///
/// The status is 0 where the text went out, 5 where the file is too long or a line of it is
/// refused, 6 where the read failed, 7 where the put failed, and 8 where memory could not be had.
pub fn show_command<S: Shelf, O: Sink>(
    alloc: Global,
    model: &Text,
    shelf: &mut S,
    out: &mut O,
) -> u8
    ensures { Ends (IsCausedBy (Show model.now) (S.state shelf.old) (S.state shelf.new))
        (O.state out.old) (O.state out.new) result }
{
    let found = show_file(alloc, model, shelf);
    finish(alloc, found, out)
}

/// Prints the model of a file, which isn't admitted: its canonical text, or why there is none.
#[tactic(auto, using(crate::proofs::Running::of_model, crate::proofs::Running::of_no_model))]
fn show_file<S: Shelf>(alloc: Global, model: &Text, shelf: &mut S) -> Result<Output, Failure>
    ensures { IsFileJob IsModelFile IsModelFailure IsPrinted
        (S.state shelf.old) (S.state shelf.new) model.now result }
{
    match read_model(alloc, model, shelf) {
        Ok(mps) => show_model(alloc, &mps),
        Err(failure) => Err(failure),
    }
}

/// Prints a model: its canonical text, or that there is no memory.
pub fn show_model(alloc: Global, mps: &MpsModel) -> Result<Output, Failure>
    requires { IsMpsModel mps.now }
    ensures { IsPrinted mps.now result }
{
    match print(alloc, mps) {
        Ok(text) => Ok(Output {
            files: List::new(alloc),
            text,
            exit: ExitStatus::Done,
        }),
        Err(OutOfMemory) => Err(Failure::Memory),
    }
}
