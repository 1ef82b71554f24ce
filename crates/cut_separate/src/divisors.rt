ghost use Rattle.std.specs.Prelude.{◌≡◌, ◌≤◌, IfOk, OnOk};
ghost use Rattle.cut_separate.specs.Candidates.{divisors_of as divisors_of_row, is_among as is_among_of, with_divisor};

use crate::limits::MAX_DIVISORS;
use ip_core::{List, OutOfMemory, Row};
use std::alloc::Global;

/// The first 8 absolute coefficients of a row that are at least 2 and differ.
#[tactic(auto, using(crate::proofs::Trying::divisors_more))]
pub fn divisors_of(alloc: Global, row: &Row) -> Result<List<u64>, OutOfMemory>
    ensures { IfOk result (λ divisors. divisors ≡ divisors_of_row row.now) }
{
    let mut found = List::new(alloc);
    for term in row.terms.as_slice() {
        add_divisor(&mut found, term.coef.unsigned_abs())?;
    }
    Ok(found)
}

/// Appends a number of at least 2 that isn't among the divisors, while they are fewer than 8.
fn add_divisor(found: &mut List<u64>, number: u64) -> Result<(), OutOfMemory>
    ensures { OnOk result (found.new ≡ with_divisor found.old number) }
{
    if MAX_DIVISORS <= found.len() || number < 2 {
        return Ok(());
    }
    if is_among(found.as_slice(), number) {
        return Ok(());
    }
    found.push(number)
}

/// Whether a number is among numbers.
fn is_among(found: &[u64], number: u64) -> bool
    ensures { result ≡ is_among_of found.now number }
{
    found.iter().any(|&other| other == number)
}
