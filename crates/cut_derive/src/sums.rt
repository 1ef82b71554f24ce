ghost use Rattle.std.specs.Prelude.{[], ◌≡◌, ◌<◌, ◌≤◌, ◌^◌, ◌+ℤ◌, ◌*ℤ◌, ℕ, pos, length, slice_set, unsigned_abs, IfOk};
ghost use Rattle.ip_core.specs.Numbers.{int_at};
ghost use Rattle.ip_core.specs.Rows.{coefficient};
ghost use Rattle.safe_bound.specs.Premises.{AreCuts, AreLightTerms, AreWithin};
ghost use Rattle.cut_derive.specs.Gomory.{combined_least as combined_least_of};
ghost use Rattle.cut_derive.specs.Premises.{AreParts, AreSums};

use crate::rows::known_row;
use ip_core::{Model, OutOfMemory, Pair, Row, Term};
use safe_bound::MAX_MULTIPLIER;
use std::alloc::Global;

/// The coefficient of each column of the model in the weighted sum of the parts' rows. The only error is want of memory.
pub fn combined_coefficients(
    alloc: Global,
    model: &Model,
    cuts: &[Row],
    parts: &[Pair],
) -> Result<Vec<i128>, OutOfMemory>
    requires cuts { AreCuts model.now cuts.now }
    requires parts { AreParts model.now cuts.now parts.now }
    ensures { IfOk result (λ coefs. AreSums model.now cuts.now parts.now coefs.items) }
{
    let mut coefs = vec![in alloc; 0; model.cols().len()]?;
    add_parts(model, cuts, parts, &mut coefs);
    Ok(coefs)
}

/// Adds the weighted coefficients of the parts' rows to numbers that are 0.
fn add_parts(model: &Model, cuts: &[Row], parts: &[Pair], coefs: &mut [i128])
    requires cuts { AreCuts model.now cuts.now }
    requires parts { AreParts model.now cuts.now parts.now }
    requires zeros { AreSums model.now cuts.now [] coefs.old }
    ensures { AreSums model.now cuts.now parts.now coefs.new }
{
    let _limits = model.parts();
    for part in parts {
        let row = known_row(model, cuts, part.row);
        add_terms(row.terms.as_slice(), part.weight, coefs);
    }
}

/// Adds weight times coefficient for each term.
fn add_terms(terms: &[Term], weight: u64, coefs: &mut [i128])
    requires terms { AreLightTerms (length coefs.old) terms.now }
    requires small { weight ≤ MAX_MULTIPLIER }
    requires room { AreWithin (length coefs.old) (2 ^ 125) coefs.old }
    ensures { (j : ℕ) → j < length coefs.old →
        int_at coefs.new j ≡ int_at coefs.old j +ℤ (pos weight *ℤ coefficient j terms.now) }
{
    for term in terms {
        add(coefs, term.col as usize, weight, term.coef);
    }
}

/// Adds weight times coefficient to one number.
fn add(coefs: &mut [i128], col: usize, weight: u64, coef: i64)
    requires known { col < length coefs.old }
    requires small { weight ≤ MAX_MULTIPLIER }
    requires room { unsigned_abs (int_at coefs.old col) ≤ 2 ^ 126 }
    ensures { coefs.new ≡ slice_set coefs.old col (int_at coefs.old col +ℤ (pos weight *ℤ coef)) }
{
    let before = coefs[col];
    coefs[col] = before + weighted(weight, coef);
}

/// A weight times a number.
fn weighted(weight: u64, number: i64) -> i128
    requires { weight ≤ MAX_MULTIPLIER }
    ensures value { result ≡ pos weight *ℤ number }
    ensures small { unsigned_abs result ≤ 2 ^ 103 }
{
    i128::from(weight) * i128::from(number)
}

/// What the weighted sum of the parts' rows asks for.
pub fn combined_least(model: &Model, cuts: &[Row], parts: &[Pair]) -> i128
    requires cuts { AreCuts model.now cuts.now }
    requires parts { AreParts model.now cuts.now parts.now }
    ensures { result ≡ combined_least_of model.now.rows cuts.now parts.now }
{
    let _limits = model.parts();
    let mut sum = 0;
    for part in parts {
        let row = known_row(model, cuts, part.row);
        sum += weighted(part.weight, row.least);
    }
    sum
}
