ghost use Rattle.std.specs.Prelude.{◌≡◌, IfOk};
ghost use Rattle.safe_bound.specs.Premises.{AreCuts};
ghost use Rattle.cut_derive.specs.Derivations.{derived_row as derived_row_of};
ghost use Rattle.cut_derive.specs.Refusals.{IsAnswerOf};

use crate::cover::cover_row;
use crate::gomory::gomory_row;
use crate::{CutError, Refusal};
use ip_core::{Derivation, Model, OutOfMemory, Row};
use std::alloc::Global;

/// The row that a derivation gives from rows of the model and the cuts. Every feasible point of the model that meets
/// the cuts meets it.
///
/// # Errors
///
/// The first of these reasons that applies: `UnknownRow`, `BadNumbers`, `NotBinary` with the first such column,
/// `NotCover`, `TooWide`, `TooLong`. `Memory` for want of memory.
pub fn derive(
    alloc: Global,
    model: &Model,
    cuts: &[Row],
    derivation: &Derivation,
) -> Result<Row, CutError>
    requires { AreCuts model.now cuts.now }
    ensures { IsAnswerOf result (derived_row_of model.now cuts.now derivation.now) }
{
    match derived_row(alloc, model, cuts, derivation)? {
        Ok(row) => Ok(row),
        Err(refusal) => Err(CutError::from(refusal)),
    }
}

/// The row that a derivation gives from rows of the model and the cuts, or the first reason that refuses it. The only
/// error is want of memory.
pub fn derived_row(
    alloc: Global,
    model: &Model,
    cuts: &[Row],
    derivation: &Derivation,
) -> Result<Result<Row, Refusal>, OutOfMemory>
    requires { AreCuts model.now cuts.now }
    ensures { IfOk result (λ answer. answer
        ≡ derived_row_of model.now cuts.now derivation.now) }
{
    match derivation {
        Derivation::Gomory { parts, divisor } => {
            gomory_row(alloc, model, cuts, parts.as_slice(), *divisor)
        }
        Derivation::Cover { row, cols } => cover_row(alloc, model, cuts, *row, cols.as_slice()),
    }
}
