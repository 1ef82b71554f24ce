ghost use Rattle.std.specs.Prelude.{◌≡◌, ◌++◌, ◌<◌, ◌≤◌, ◌^◌, [], length, slice_index_or, OnOk, IfOk};
ghost use Rattle.ip_core.specs.Boxes.{IsWithinReach, greatest_activity as greatest_activity_of};
ghost use Rattle.ip_core.specs.Numbers.{int_at};
ghost use Rattle.ip_core.specs.Rows.{AreReady, AreRows};
ghost use Rattle.ip_core.specs.Seq.{Seq};
ghost use Rattle.ip_core.specs.Sides.{Sides};
ghost use Rattle.ip_core.specs.declared.model.ModelParts.{ModelParts};
ghost use Rattle.ip_core.specs.declared.row.Row.{Row as RowValue};
ghost use Rattle.row_propagate.specs.Kept.{AreColumns, AreKeepable, AreSums, IsKept, IsMovable, IsMove, with_ends};
ghost use Rattle.row_propagate.specs.Moves.{HaveTerms};
ghost use Rattle.row_propagate.specs.Replay.{no_row};

use crate::columns::columns_of;
use crate::sums::{move_sums, sums_of};
use ip_core::{Bounds, List, Model, OutOfMemory, Row, Term};
use std::alloc::Global;

/// The greatest activity over a box of each row of a model and then of each cut, kept while columns of the box change.
///
/// Beside the sums it has the entries of each column: a term for each row in which the column stands, whose `col` is the
/// number of the row.
#[derive(Debug, Drop)]
pub struct Activities {
    sums: List<i64>,
    columns: List<List<Term>>,
}

impl Activities {
    /// The greatest activities over a box whose ends are no further from 0 than the root box reaches, as those of each
    /// box without empty columns within the root box are.
    ///
    /// # Errors
    /// `OutOfMemory` where there is no memory for a number for each row and each term.
    pub fn of(
        alloc: Global,
        model: &Model,
        cuts: &[Row],
        bounds: &Bounds,
    ) -> Result<Activities, OutOfMemory>
        requires few { length cuts.now ≤ 2 ^ 30 }
        requires cuts { AreRows (length model.now.cols) model.now.root cuts.now }
        requires reach { IsWithinReach model.now.root bounds.now }
        ensures { IfOk result (λ kept. IsKept model.now cuts.now bounds.now kept) }
    {
        let parts = model.parts();
        let rows = parts.rows.as_slice();
        let sums = sums_of(alloc, rows, cuts, bounds)?;
        let columns = columns_of(alloc, bounds.lows().len(), rows, cuts)?;
        Ok(Activities { sums, columns })
    }

    /// The sums alone, without the columns' entries.
    pub(crate) fn unindexed(
        alloc: Global,
        rows: &[Row],
        cuts: &[Row],
        bounds: &Bounds,
    ) -> Result<Activities, OutOfMemory>
        requires rows { AreReady bounds.now rows.now }
        requires cuts { AreReady bounds.now cuts.now }
        ensures sums { IfOk result (λ a. AreSums (rows.now ++ cuts.now) bounds.now a.sums) }
        ensures columns { IfOk result (λ a. a.columns ≡ []) }
    {
        let sums = sums_of(alloc, rows, cuts, bounds)?;
        let columns = List::new(alloc);
        Ok(Activities { sums, columns })
    }

    /// Makes the entries of the columns, where they haven't been made.
    pub(crate) fn index(
        &mut self,
        alloc: Global,
        count: usize,
        rows: &[Row],
        cuts: &[Row],
    ) -> Result<(), OutOfMemory>
        requires few_rows { length rows.now ≤ 2 ^ 30 }
        requires few_cuts { length cuts.now ≤ 2 ^ 30 }
        requires rows { HaveTerms count rows.now }
        requires cuts { HaveTerms count cuts.now }
        ensures sums { self.new.sums ≡ self.old.sums }
        ensures ok { OnOk result (
            (0 < length self.old.columns →
            AreColumns count (rows.now ++ cuts.now) self.old.columns) →
            AreColumns count (rows.now ++ cuts.now) self.new.columns) }
    {
        if !self.columns.is_empty() {
            return Ok(());
        }
        self.columns = columns_of(alloc, count, rows, cuts)?;
        Ok(())
    }

    /// The greatest activity of the row at a place.
    pub(crate) fn sum(&self, place: usize) -> i64
        requires { place < length self.now.sums }
        ensures { result ≡ int_at self.now.sums place }
    {
        self.sums.as_slice()[place]
    }

    /// The entries of a column.
    pub(crate) fn column(&self, col: u32) -> &[Term]
        requires { col < length self.now.columns }
        ensures { result.now ≡ slice_index_or self.now.columns col [] }
    {
        column_of(&self.columns, col)
    }

    /// The greatest activity of a row over the kept box: first the model's rows are numbered, and then the cuts.
    pub fn greatest(&self, row: u32) -> i128
        requires { row < length self.now.sums }
        ensures sum { result ≡ int_at self.now.sums row }
        ensures value { (m : ModelParts) (cuts : Seq RowValue) (s : Sides) →
            IsKept m cuts s self.now →
            result ≡ greatest_activity_of s (slice_index_or (m.rows ++ cuts) row no_row).terms }
    {
        i128::from(self.sums.as_slice()[row as usize])
    }

    /// Keeps other ends of a column: `old` is the kept pair of its low and high, neither pair is empty, and `new` lies in
    /// the root box. It takes no memory.
    pub fn moved(&mut self, col: u32, old: (i64, i64), new: (i64, i64))
        requires { IsMovable self.old col old.0 old.1 new.0 new.1 }
        ensures columns { self.new.columns ≡ self.old.columns }
        ensures keeps { (m : ModelParts) (cuts : Seq RowValue) (s : Sides) →
            IsKept m cuts s self.old →
            IsMove m s col old.0 old.1 new.0 new.1 →
            IsKept m cuts (with_ends s col new.0 new.1) self.new }
    {
        move_sums(&mut self.sums, column_of(&self.columns, col), old, new);
    }
}

/// The entries of a column.
fn column_of(columns: &List<List<Term>>, col: u32) -> &[Term]
    requires { col < length columns.now }
    ensures { result.now ≡ slice_index_or columns.now col [] }
{
    columns.as_slice()[col as usize].as_slice()
}
