ghost use Rattle.std.specs.Prelude.{◌≡◌, ◌≤◌, ◌<◌, ◌*ℤ◌, ◌^◌, length, unsigned_abs};
ghost use Rattle.ip_core.specs.Numbers.{int_at};
ghost use Rattle.ip_core.specs.Rows.{AreShort, IsReady, term_width};
ghost use Rattle.ip_core.specs.Models.{term_count};
ghost use Rattle.ip_core.specs.Boxes.{greatest_activity, greatest_part, least_part};

use crate::limits::MAX_WIDTH;
use crate::{Bounds, Row, Term};

/// The number of terms of rows. It takes no memory.
pub fn term_count(rows: &[Row]) -> u64
    requires few { length rows.now ≤ 2 ^ 30 }
    requires short { AreShort rows.now }
    ensures value { result ≡ term_count rows.now }
    ensures small { result ≤ 2 ^ 42 }
{
    let mut count = 0;
    for row in rows {
        count += row.terms.len() as u64;
    }
    count
}

/// The greatest activity of a row over the box. It takes no memory.
pub fn greatest_activity(row: &Row, bounds: &Bounds) -> i64
    requires { IsReady bounds.now row.now }
    ensures value { result ≡ greatest_activity bounds.now row.now.terms }
    ensures small { unsigned_abs result ≤ MAX_WIDTH }
{
    let mut sum = 0;
    for term in row.terms.as_slice() {
        sum += greatest_part(term, bounds);
    }
    sum
}

/// The most that a term adds to an activity over the box.
pub fn greatest_part(term: &Term, bounds: &Bounds) -> i64
    requires known { term.now.col < length bounds.now.lows }
    requires narrow { term_width bounds.now term.now ≤ MAX_WIDTH }
    ensures { result ≡ greatest_part bounds.now term.now }
{
    let low = product(term, bounds.lows());
    let high = product(term, bounds.highs());
    low.max(high)
}

/// The least that a term adds to an activity over the box.
pub fn least_part(term: &Term, bounds: &Bounds) -> i64
    requires known { term.now.col < length bounds.now.lows }
    requires narrow { term_width bounds.now term.now ≤ MAX_WIDTH }
    ensures { result ≡ least_part bounds.now term.now }
{
    let low = product(term, bounds.lows());
    let high = product(term, bounds.highs());
    low.min(high)
}

/// A term's coefficient times an end of its column.
fn product(term: &Term, ends: &[i64]) -> i64
    requires known { term.now.col < length ends.now }
    requires narrow { unsigned_abs (term.now.coef *ℤ int_at ends.now term.now.col) ≤ MAX_WIDTH }
    ensures { result ≡ term.now.coef *ℤ int_at ends.now term.now.col }
{
    term.coef * ends[term.col as usize]
}
