//! The cuts of a certificate.
ghost use Rattle.std.specs.Prelude.{◌≡◌, ◌≤◌, ◌^◌, [], length, IfOk};
ghost use Rattle.safe_bound.specs.Premises.{AreCuts};
ghost use Rattle.cut_derive.specs.Derivations.{derived_row as derived_row_of};
ghost use Rattle.cert_check.specs.Verdicts.{cut_rows as cut_rows_of};

use cut_derive::{Refusal, derive};
use ip_core::{Derivation, List, Model, OutOfMemory, Row};
use std::alloc::Global;

/// The rows of cuts, each derived over the model and the rows before it; or the line of the first cut that is refused,
/// where the first of all stands on this line.
pub fn cut_rows(
    alloc: Global,
    model: &Model,
    first_line: u32,
    cuts: &[Derivation],
) -> Result<Result<List<Row>, u32>, OutOfMemory>
    requires line { first_line ≤ 2 ^ 30 }
    requires few { length cuts.now ≤ 2 ^ 30 }
    ensures rows { IfOk result (λ rows. rows ≡ cut_rows_of model.now first_line [] cuts.now) }
    ensures cuts { IfOk result (λ rows. IfOk rows (AreCuts model.now)) }
{
    let _limits = model.parts();
    let mut rows = List::new(alloc);
    let mut line = first_line;
    for cut in cuts {
        match derived_row(alloc, model, rows.as_slice(), cut)? {
            Ok(row) => rows.push(row)?,
            Err(_refusal) => return Ok(Err(line)),
        }
        line += 1;
    }
    Ok(Ok(rows))
}

/// The row of a cut over the rows before it, or why it is refused.
fn derived_row(
    alloc: Global,
    model: &Model,
    rows: &[Row],
    cut: &Derivation,
) -> Result<Result<Row, Refusal>, OutOfMemory>
    requires { AreCuts model.now rows.now }
    ensures { IfOk result (λ answer. answer ≡ derived_row_of model.now rows.now cut.now) }
{
    match derive(alloc, model, rows, cut) {
        Ok(row) => Ok(Ok(row)),
        Err(error) => match error.refusal() {
            Some(refusal) => Ok(Err(refusal)),
            None => Err(OutOfMemory),
        },
    }
}
