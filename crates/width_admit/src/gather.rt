ghost use Rattle.std.specs.Prelude.{◌≡◌, ◌≤◌, ◌<◌, ◌^◌, [], length, IfOk};
ghost use Rattle.width_admit.specs.Gathered.{AreColumns, AreGathered};

use ip_core::{Decimal, List, OutOfMemory};
use mps_model::MpsCol;
use std::alloc::Global;

/// A coefficient of a row, not yet a whole number.
#[derive(Clone, Copy, Debug)]
pub struct Coefficient {
    pub col: u32,
    pub value: Decimal,
}

/// An empty list for each row.
fn empty_lists(alloc: Global, rows: usize) -> Result<Vec<List<Coefficient>>, OutOfMemory>
    ensures { IfOk result (λ lists. AreGathered rows [] lists.items) }
{
    let mut lists = Vec::new(alloc);
    for _row in 0..rows {
        lists.push(List::new(alloc))?;
    }
    Ok(lists)
}

/// For each row its coefficients in rising column order, by one pass over the columns.
pub fn gather(
    alloc: Global,
    cols: &[MpsCol],
    rows: usize,
) -> Result<Vec<List<Coefficient>>, OutOfMemory>
    requires short { length cols.now ≤ 2 ^ 30 }
    requires columns { AreColumns rows cols.now }
    ensures { IfOk result (λ lists. AreGathered rows cols.now lists.items) }
{
    let mut lists = empty_lists(alloc, rows)?;
    for at in 0..cols.len() {
        for entry in cols[at].entries.as_slice() {
            lists[entry.row as usize].push(Coefficient {
                col: at as u32,
                value: entry.value,
            })?;
        }
    }
    Ok(lists)
}
