ghost use Rattle.std.specs.Prelude.{ℕ, ◌≡◌, ◌≤◌, map, true, IfOk};
ghost use Rattle.ip_core.specs.Rows.{coefficient, own_coefficient as own_coefficient_of};
ghost use Rattle.cut_derive.specs.Covers.{rise_from};
ghost use Rattle.cut_derive.specs.Chosen.{chosen_terms as chosen_terms_of};

use ip_core::{List, OutOfMemory, Term};
use std::alloc::Global;

/// Chosen columns with their coefficients in terms, which are 0 where a column stands in no term. Both the columns and
/// the terms rise.
pub fn chosen_terms(alloc: Global, terms: &[Term], cols: &[u32]) -> Result<List<Term>, OutOfMemory>
    requires terms { rise_from 0 (map (λ t. t.col) terms.now) ≡ true }
    requires cols { rise_from 0 cols.now ≡ true }
    ensures { IfOk result (λ chosen. chosen ≡ chosen_terms_of terms.now cols.now) }
{
    let mut chosen = List::new(alloc);
    let mut rest = terms;
    for col in cols {
        rest = terms_from(rest, *col);
        chosen.push(Term {
            col: *col,
            coef: first_coefficient(rest, *col),
        })?;
    }
    Ok(chosen)
}

/// The terms from a column on.
#[tactic(auto, using(crate::proofs::Walking::from_here, crate::proofs::Walking::rest_rises, crate::proofs::Walking::passed_term))]
fn terms_from(terms: &[Term], col: u32) -> &[Term]
    requires { rise_from 0 (map (λ t. t.col) terms.now) ≡ true }
    ensures rising { rise_from col (map (λ t. t.col) result.now) ≡ true }
    ensures same { (c : ℕ) → col ≤ c → coefficient c result.now ≡ coefficient c terms.now }
{
    for at in 0..terms.len() {
        if col <= terms[at].col {
            return &terms[at..];
        }
    }
    &terms[terms.len()..]
}

/// The coefficient of a column in terms that rise from this column on.
#[tactic(auto, using(crate::proofs::Walking::first_own))]
fn first_coefficient(terms: &[Term], col: u32) -> i64
    requires { rise_from col (map (λ t. t.col) terms.now) ≡ true }
    ensures { result ≡ coefficient col terms.now }
{
    match terms.split_first() {
        Some((first, _rest)) => own_coefficient(first, col),
        None => 0,
    }
}

/// A term's coefficient where it stands at the column, else 0.
fn own_coefficient(term: &Term, col: u32) -> i64
    ensures { result ≡ own_coefficient_of col term.now }
{
    if term.col == col { term.coef } else { 0 }
}
