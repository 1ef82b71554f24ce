ghost use Rattle.std.specs.Prelude.{◌≡◌, ◌++◌, ◌∷◌, ◌+◌, ◌<◌, ◌≤◌, ◌^◌, [], length, replicate, slice_index_or, slice_set, OnOk, IfOk};
ghost use Rattle.ip_core.specs.Rows.{AreTerms};
ghost use Rattle.ip_core.specs.Seq.{Seq};
ghost use Rattle.ip_core.specs.declared.row.Row.{Row as RowValue};
ghost use Rattle.ip_core.specs.declared.row.Term.{Term as TermValue};
ghost use Rattle.row_propagate.specs.Kept.{AreColumns, HasRowAdded, entry};
ghost use Rattle.row_propagate.specs.Moves.{HaveTerms};

use ip_core::{List, OutOfMemory, Row, Term};
use std::alloc::Global;

/// The entries of each of `count` columns in rows and then cuts, which are numbered in this order.
pub fn columns_of(
    alloc: Global,
    count: usize,
    rows: &[Row],
    cuts: &[Row],
) -> Result<List<List<Term>>, OutOfMemory>
    requires few_rows { length rows.now ≤ 2 ^ 30 }
    requires few_cuts { length cuts.now ≤ 2 ^ 30 }
    requires rows { HaveTerms count rows.now }
    requires cuts { HaveTerms count cuts.now }
    ensures { IfOk result (λ columns. AreColumns count (rows.now ++ cuts.now) columns) }
{
    let counts = entry_counts(alloc, count, rows, cuts)?;
    let mut columns = empty_columns(alloc, counts.as_slice())?;
    add_rows(&mut columns, rows, 0)?;
    add_rows(&mut columns, cuts, rows.len())?;
    Ok(columns)
}

/// How many entries each column has. The counts only say how much room to take; nothing else rests on them.
fn entry_counts(
    alloc: Global,
    count: usize,
    rows: &[Row],
    cuts: &[Row],
) -> Result<Vec<u32>, OutOfMemory>
    requires rows { HaveTerms count rows.now }
    requires cuts { HaveTerms count cuts.now }
    ensures { IfOk result (λ counts. length counts.items ≡ count) }
{
    let mut counts = vec![in alloc; 0u32; count]?;
    count_entries(&mut counts, rows);
    count_entries(&mut counts, cuts);
    Ok(counts)
}

/// Adds to each column's count its entries in rows.
fn count_entries(counts: &mut [u32], rows: &[Row])
    requires { HaveTerms (length counts.old) rows.now }
{
    for row in rows {
        count_terms(counts, row.terms.as_slice());
    }
}

/// The same of one row.
fn count_terms(counts: &mut [u32], terms: &[Term])
    requires { AreTerms (length counts.old) terms.now }
{
    for term in terms {
        let count = &mut counts[term.col as usize];
        *count = count.wrapping_add(1);
    }
}

/// Columns without entries, with room for as many as their counts say.
fn empty_columns(alloc: Global, counts: &[u32]) -> Result<List<List<Term>>, OutOfMemory>
    ensures { IfOk result (λ columns. AreColumns (length counts.now) [] columns) }
{
    let mut columns = List::new(alloc);
    for count in counts {
        columns.push(List::of(Vec::with_capacity(alloc, *count as usize)?))?;
    }
    Ok(columns)
}

/// Gives the columns their entries in further rows, the first of which has the number `first`.
fn add_rows(columns: &mut List<List<Term>>, rows: &[Row], first: usize) -> Result<(), OutOfMemory>
    requires few { length rows.now ≤ 2 ^ 30 }
    requires first { first ≤ 2 ^ 30 }
    requires terms { HaveTerms (length columns.old) rows.now }
    ensures len { OnOk result (length columns.new ≡ length columns.old) }
    ensures ok { OnOk result ((before : Seq RowValue) → length before ≡ first →
        AreColumns (length columns.old) before columns.old →
        AreColumns (length columns.old) (before ++ rows.now) columns.new) }
{
    for (index, row) in rows.iter().enumerate() {
        add_row(columns, row.terms.as_slice(), (first + index) as u32)?;
    }
    Ok(())
}

/// Gives the columns their entries in a row of this number.
fn add_row(columns: &mut List<List<Term>>, terms: &[Term], number: u32) -> Result<(), OutOfMemory>
    requires { AreTerms (length columns.old) terms.now }
    ensures len { OnOk result (length columns.new ≡ length columns.old) }
    ensures ok { OnOk result (HasRowAdded number terms.now columns.old columns.new) }
{
    for term in terms {
        add_entry(columns, term.col, entry_of(number, term))?;
    }
    Ok(())
}

/// A term's entry in its column, from the row of this number.
fn entry_of(number: u32, term: &Term) -> Term
    ensures { result ≡ entry number term.now.coef }
{
    Term {
        col: number,
        coef: term.coef,
    }
}

/// Gives a column one more entry.
fn add_entry(columns: &mut List<List<Term>>, col: u32, added: Term) -> Result<(), OutOfMemory>
    requires { col < length columns.old }
    ensures { OnOk result (columns.new
        ≡ slice_set columns.old col (slice_index_or columns.old col [] ++ added ∷ [])) }
{
    columns.as_mut_slice()[col as usize].push(added)
}
