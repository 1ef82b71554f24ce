ghost use Rattle.std.specs.Prelude.{◌≡◌, ◌++◌, IfOk, OnOk};

use ip_core::{List, OutOfMemory, Row};
use std::alloc::Global;

/// Other rows that say the same.
pub fn copy_rows(alloc: Global, rows: &[Row]) -> Result<List<Row>, OutOfMemory>
    ensures { IfOk result (λ copy. copy ≡ rows.now) }
{
    let mut copy = List::new(alloc);
    for row in rows {
        copy.push(copy_row(alloc, row)?)?;
    }
    Ok(copy)
}

fn copy_row(alloc: Global, row: &Row) -> Result<Row, OutOfMemory>
    ensures { IfOk result (λ copy. copy ≡ row.now) }
{
    Ok(Row {
        terms: List::of(Vec::from_slice(alloc, row.terms.as_slice())?),
        least: row.least,
    })
}

/// Puts more rows behind rows.
pub fn append_rows(rows: &mut List<Row>, more: List<Row>) -> Result<(), OutOfMemory>
    ensures { OnOk result (rows.new ≡ rows.old ++ more) }
{
    for row in more.into_vec() {
        rows.push(row)?;
    }
    Ok(())
}
