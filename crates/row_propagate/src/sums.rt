ghost use Rattle.std.specs.Prelude.{◌≡◌, ◌++◌, ◌<◌, ◌≤◌, ◌^◌, ℕ, length, slice_set, unsigned_abs, ◌+ℤ◌, ◌-ℤ◌, ◌*ℤ◌, OnOk, IfOk};
ghost use Rattle.ip_core.specs.Numbers.{int_at};
ghost use Rattle.ip_core.specs.Seq.{Seq};
ghost use Rattle.ip_core.specs.declared.row.Row.{Row as RowValue};
ghost use Rattle.row_propagate.specs.Kept.{AreSums, coefs_at, greatest_product as greatest_product_of, moved_by};
ghost use Rattle.row_propagate.specs.Moves.{AreEntries, AreNarrowMoves, IsNarrowMove, StaySmall};
ghost use Rattle.ip_core.specs.Rows.{AreReady};

use ip_core::{Bounds, List, MAX_WIDTH, OutOfMemory, Row, Term, greatest_activity};
use std::alloc::Global;

/// The greatest activity over the box of each row and then of each cut.
pub fn sums_of(
    alloc: Global,
    rows: &[Row],
    cuts: &[Row],
    bounds: &Bounds,
) -> Result<List<i64>, OutOfMemory>
    requires rows { AreReady bounds.now rows.now }
    requires cuts { AreReady bounds.now cuts.now }
    ensures { IfOk result (λ sums. AreSums (rows.now ++ cuts.now) bounds.now sums) }
{
    let mut sums = List::new(alloc);
    add_sums(&mut sums, rows, bounds)?;
    add_sums(&mut sums, cuts, bounds)?;
    Ok(sums)
}

/// Appends the greatest activity of each row.
fn add_sums(sums: &mut List<i64>, rows: &[Row], bounds: &Bounds) -> Result<(), OutOfMemory>
    requires { AreReady bounds.now rows.now }
    ensures { OnOk result ((before : Seq RowValue) → AreSums before bounds.now sums.old →
        AreSums (before ++ rows.now) bounds.now sums.new) }
{
    for row in rows {
        sums.push(greatest_activity(row, bounds))?;
    }
    Ok(())
}

/// Changes the sums of the rows in which a column stands, where its low and its high become others.
pub fn move_sums(sums: &mut List<i64>, column: &[Term], old: (i64, i64), new: (i64, i64))
    requires known { AreEntries (length sums.old) column.now }
    requires narrow { AreNarrowMoves old.0 old.1 new.0 new.1 column.now }
    requires small { StaySmall old.0 old.1 new.0 new.1 sums.old column.now }
    ensures len { length sums.new ≡ length sums.old }
    ensures each { (k : ℕ) → k < length sums.old →
        int_at sums.new k
        ≡ int_at sums.old k +ℤ moved_by old.0 old.1 new.0 new.1 (coefs_at k column.now) }
{
    for entry in column {
        let change = change_of(entry, old, new);
        add_change(sums, entry.col, change);
    }
}

/// Adds to the sum of a row.
fn add_change(sums: &mut List<i64>, row: u32, change: i64)
    requires known { row < length sums.old }
    requires small { unsigned_abs (int_at sums.old row +ℤ change) ≤ 2 ^ 52 }
    ensures { sums.new ≡ slice_set sums.old row (int_at sums.old row +ℤ change) }
{
    let place = row as usize;
    let sum = sums.as_slice()[place] + change;
    sums.set(place, sum);
}

/// By how much the most that an entry adds changes, where the column's low and high become others.
fn change_of(entry: &Term, old: (i64, i64), new: (i64, i64)) -> i64
    requires { IsNarrowMove old.0 old.1 new.0 new.1 entry.now.coef }
    ensures { result
        ≡ greatest_product_of new.0 new.1 entry.now.coef
        -ℤ greatest_product_of old.0 old.1 entry.now.coef }
{
    difference(greatest_product(entry, new), greatest_product(entry, old))
}

/// The difference of two narrow numbers.
pub fn difference(a: i64, b: i64) -> i64
    requires first { unsigned_abs a ≤ MAX_WIDTH }
    requires second { unsigned_abs b ≤ MAX_WIDTH }
    ensures { result ≡ a -ℤ b }
{
    a - b
}

/// The most that an entry adds over a column from a low to a high.
fn greatest_product(entry: &Term, ends: (i64, i64)) -> i64
    requires low { unsigned_abs (entry.now.coef *ℤ ends.0) ≤ MAX_WIDTH }
    requires high { unsigned_abs (entry.now.coef *ℤ ends.1) ≤ MAX_WIDTH }
    ensures value { result ≡ greatest_product_of ends.0 ends.1 entry.now.coef }
    ensures small { unsigned_abs result ≤ MAX_WIDTH }
{
    let low = product(entry, ends.0);
    let high = product(entry, ends.1);
    low.max(high)
}

/// An entry's coefficient times an end of the column.
fn product(entry: &Term, end: i64) -> i64
    requires { unsigned_abs (entry.now.coef *ℤ end) ≤ MAX_WIDTH }
    ensures { result ≡ entry.now.coef *ℤ end }
{
    entry.coef * end
}
