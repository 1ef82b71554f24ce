ghost use Rattle.std.specs.Prelude.{ℕ, ◌≡◌, ◌<◌, ◌++◌, ◌∷◌, ◌^◌, ◌≤◌, [], length, slice_index_or, slice_set, IfOk, OnOk};
ghost use Rattle.ip_core.specs.Rows.{AreTerms};
ghost use Rattle.safe_bound.specs.Premises.{AreCuts};
ghost use Rattle.dual_ascent.specs.Kept.{AreColumns, HasRowAdded};

use crate::all_rows::row_at;
use ip_core::{List, Model, OutOfMemory, Row, Term};
use std::alloc::Global;

/// The terms of the rows and cuts by columns, each under the number of its row.
pub fn columns(alloc: Global, model: &Model, cuts: &[Row]) -> Result<List<List<Term>>, OutOfMemory>
    requires { AreCuts model.now cuts.now }
    ensures { IfOk result (λ lists. AreColumns model.now cuts.now lists) }
{
    let count = model.parts().cols.len();
    let rows = model.rows().len() + cuts.len();
    let mut lists = empty_lists(alloc, count)?;
    for row in 0..rows {
        add_row(
            &mut lists,
            row_at(model, cuts, row).terms.as_slice(),
            row as u32,
        )?;
    }
    Ok(List::of(lists))
}

/// An empty list for each column.
fn empty_lists(alloc: Global, count: usize) -> Result<Vec<List<Term>>, OutOfMemory>
    ensures long { IfOk result (λ lists. length lists.items ≡ count) }
    ensures empty { IfOk result (λ lists. (j : ℕ) → slice_index_or lists.items j [] ≡ []) }
{
    let mut lists = Vec::new(alloc);
    for _column in 0..count {
        lists.push(List::new(alloc))?;
    }
    Ok(lists)
}

/// Gives each column its term of a row.
fn add_row(lists: &mut Vec<List<Term>>, terms: &[Term], row: u32) -> Result<(), OutOfMemory>
    requires { AreTerms (length lists.old.items) terms.now }
    ensures { OnOk result (HasRowAdded row terms.now lists.old.items lists.new.items) }
{
    for term in terms {
        let entry = Term {
            col: row,
            coef: term.coef,
        };
        add_entry(lists, term.col, entry)?;
    }
    Ok(())
}

/// Gives a column one more term.
fn add_entry(lists: &mut Vec<List<Term>>, col: u32, entry: Term) -> Result<(), OutOfMemory>
    requires { col < length lists.old.items }
    ensures { OnOk result (lists.new.items ≡
        slice_set lists.old.items col (slice_index_or lists.old.items col [] ++ entry ∷ [])) }
{
    lists[col as usize].push(entry)
}
