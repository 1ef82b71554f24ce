ghost use Rattle.std.specs.Prelude.{◌≡◌};
ghost use Rattle.sample_model.specs.Samples.{generated_model};
ghost use Rattle.xsearch.specs.Causes.{IsPrinted};
ghost use Rattle.xsearch.specs.Runs.{Ends};

use crate::output::{Failure, Output};
use crate::report::finish;
use crate::show::show_model;
use ip_core::OutOfMemory;
use sample_model::generate;
use std::alloc::Global;
use xsearch_words::Sink;

/// Does the command `gen`, and answers the exit status: puts the canonical text of the sample model
/// of a number.
///
/// The status is 0 where the text went out, 7 where the put failed, and 8 where memory could not be
/// had.
pub fn gen_command<O: Sink>(alloc: Global, number: u64, out: &mut O) -> u8
    ensures { Ends (IsPrinted (generated_model number)) (O.state out.old) (O.state out.new) result }
{
    let found = show_sample(alloc, number);
    finish(alloc, found, out)
}

fn show_sample(alloc: Global, number: u64) -> Result<Output, Failure>
    ensures { IsPrinted (generated_model number) result }
{
    match generate(alloc, number) {
        Ok(mps) => show_model(alloc, &mps),
        Err(OutOfMemory) => Err(Failure::Memory),
    }
}
