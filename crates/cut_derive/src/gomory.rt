ghost use Rattle.std.specs.Prelude.{◌≡◌, ◌<◌, ◌≤◌, ◌^◌, length, IfOk};
ghost use Rattle.ip_core.specs.Numbers.{int_at};
ghost use Rattle.ip_core.specs.Sides.{HasLimits};
ghost use Rattle.safe_bound.specs.Premises.{AreCuts};
ghost use Rattle.cut_derive.specs.Gomory.{rounded_row as rounded_row_of};
ghost use Rattle.cut_derive.specs.Derivations.{derived_gomory, unless_large};
ghost use Rattle.cut_derive.specs.Premises.{IsNarrowSum};

use crate::Refusal;
use crate::limits::MAX_CUT_TERMS;
use crate::numbers::{are_known, are_weights};
use crate::rounding::{rounded_least, rounded_terms, rounded_width};
use crate::sums::{combined_coefficients, combined_least};
use ip_core::{Bounds, MAX_COLUMNS, MAX_WIDTH, Model, OutOfMemory, Pair, Row};
use std::alloc::Global;

/// The row of parts and a divisor, or the first reason that refuses it.
#[tactic(auto, using(crate::proofs::Gomorying::summed_row))]
pub fn gomory_row(
    alloc: Global,
    model: &Model,
    cuts: &[Row],
    parts: &[Pair],
    divisor: u64,
) -> Result<Result<Row, Refusal>, OutOfMemory>
    requires { AreCuts model.now cuts.now }
    ensures { IfOk result (λ answer. answer
        ≡ derived_gomory model.now cuts.now parts.now divisor) }
{
    if !are_known(model, cuts, parts) {
        return Ok(Err(Refusal::UnknownRow));
    }
    if !are_weights(parts, divisor) {
        return Ok(Err(Refusal::BadNumbers));
    }
    let _limits = model.parts();
    let coefs = combined_coefficients(alloc, model, cuts, parts)?;
    let least = combined_least(model, cuts, parts);
    rounded_row(alloc, model.root(), &coefs, least, divisor)
}

/// The row of coefficients and of what they ask for, divided and rounded up, unless it is too large.
fn rounded_row(
    alloc: Global,
    root: &Bounds,
    coefs: &[i128],
    least: i128,
    divisor: u64,
) -> Result<Result<Row, Refusal>, OutOfMemory>
    requires above { 0 < divisor }
    requires limits { HasLimits root.now }
    requires few { length root.now.lows ≤ MAX_COLUMNS }
    requires narrow { IsNarrowSum root.now coefs.now least }
    ensures { IfOk result (λ answer. answer ≡ unless_large root.now
        (rounded_row_of (length root.now.lows) root.now (int_at coefs.now) least divisor)) }
{
    let asked = rounded_least(coefs, least, divisor, root);
    if MAX_WIDTH < rounded_width(coefs, asked, divisor, root) {
        return Ok(Err(Refusal::TooWide));
    }
    let terms = rounded_terms(alloc, coefs, divisor)?;
    if MAX_CUT_TERMS < terms.len() {
        return Ok(Err(Refusal::TooLong));
    }
    Ok(Ok(Row {
        terms,
        least: asked as i64,
    }))
}
