ghost use Rattle.std.specs.Prelude.{◌≡◌, IfOk};
ghost use Rattle.mps_model.specs.MpsModels.{IsMpsModel};
ghost use Rattle.mps_model.specs.Prints.{canonical_text as canonical_text_of};
ghost use Rattle.mps_read.specs.Readings.{Read, reading};

use ip_core::{OutOfMemory, Text};
use mps_model::{MpsModel, canonical_text};
use std::alloc::Global;

/// The canonical text of a model that a file can have: an MPS file with one number on a line, in which nothing stands
/// that says nothing. Reading the text gives the model again. The one error is want of memory.
#[tactic(auto, using(crate::proofs::Printback::reading_canonical_text))]
pub fn print(alloc: Global, mps: &MpsModel) -> Result<Text, OutOfMemory>
    requires { IsMpsModel mps.now }
    ensures text { IfOk result (λ text. text ≡ canonical_text_of mps.now) }
    ensures reading { reading (canonical_text_of mps.now) ≡ Read mps.now }
{
    canonical_text(alloc, mps)
}
