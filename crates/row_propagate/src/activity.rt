ghost use Rattle.std.specs.Prelude.{◌≡◌, ◌≤◌, ◌<◌, length, sum_by, unsigned_abs};
ghost use Rattle.ip_core.specs.Rows.{AreTerms, term_width};
ghost use Rattle.ip_core.specs.Rows.{IsReady};
ghost use Rattle.ip_core.specs.Rows.{coefficient as coefficient_of, own_coefficient as own_coefficient_of};
ghost use Rattle.row_propagate.specs.Rounding.{others_activity as others_activity_of, other_part as other_part_of, remainder as remainder_of};

use ip_core::{Bounds, MAX_WIDTH, Row, Term, greatest_part};

/// The greatest activity of the terms at other columns.
fn others_activity(terms: &[Term], bounds: &Bounds, col: u32) -> i64
    requires known { AreTerms (length bounds.now.lows) terms.now }
    requires narrow { sum_by (term_width bounds.now) terms.now ≤ MAX_WIDTH }
    ensures { result ≡ others_activity_of bounds.now terms.now col }
{
    let mut sum = 0;
    for term in terms {
        sum += other_part(term, bounds, col);
    }
    sum
}

/// What the row leaves to a column: its `least` without the most that the other columns give.
pub fn remainder(row: &Row, bounds: &Bounds, col: u32) -> i64
    requires { IsReady bounds.now row.now }
    ensures value { result ≡ remainder_of bounds.now row.now col }
    ensures small { unsigned_abs result ≤ MAX_WIDTH }
{
    row.least - others_activity(row.terms.as_slice(), bounds, col)
}

/// The coefficient of a column, and 0 where it stands in no term.
pub fn coefficient(terms: &[Term], col: u32) -> i64
    requires narrow { sum_by (λ t. unsigned_abs t.coef) terms.now ≤ MAX_WIDTH }
    ensures value { result ≡ coefficient_of col terms.now }
    ensures small { unsigned_abs result ≤ MAX_WIDTH }
{
    let mut sum = 0;
    for term in terms {
        sum += own_coefficient(term, col);
    }
    sum
}

/// The most that a term adds, and nothing where it stands at the column.
fn other_part(term: &Term, bounds: &Bounds, col: u32) -> i64
    requires known { term.now.col < length bounds.now.lows }
    requires narrow { term_width bounds.now term.now ≤ MAX_WIDTH }
    ensures { result ≡ other_part_of bounds.now col term.now }
{
    if term.col == col {
        0
    } else {
        greatest_part(term, bounds)
    }
}

/// A term's coefficient where it stands at the column, else 0.
fn own_coefficient(term: &Term, col: u32) -> i64
    ensures { result ≡ own_coefficient_of col term.now }
{
    if term.col == col { term.coef } else { 0 }
}
