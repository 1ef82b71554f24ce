ghost use Rattle.std.specs.Prelude.{◌≡◌, ◌++◌, ◌<◌, ◌≤◌, ◌^◌, [], ℕ, Bool, true, false, length, replicate, slice_index_or, slice_set, unsigned_abs, ◌-ℤ◌, OnOk, IfOk};
ghost use Rattle.ip_core.specs.Numbers.{int_at};
ghost use Rattle.ip_core.specs.Seq.{Seq};
ghost use Rattle.ip_core.specs.Sides.{Sides};
ghost use Rattle.ip_core.specs.declared.model.ModelParts.{ModelParts};
ghost use Rattle.ip_core.specs.declared.row.Row.{Row as RowValue};
ghost use Rattle.row_propagate.specs.Kept.{AreColumns, AreSums, IsKept, IsMovable, IsMove, coefs_at, with_ends};
ghost use Rattle.row_propagate.specs.Moves.{AreEntries, HaveTerms};
ghost use Rattle.row_propagate.specs.Quiet.{AreQuiet, HasQuietLeft};
ghost use Rattle.ip_core.specs.Rows.{AreReady};

use crate::activities::Activities;
use crate::sums::difference;
use ip_core::{Bounds, List, MAX_WIDTH, OutOfMemory, Row, Term};
use std::alloc::Global;

/// What passes keep of the rows: their greatest activities, and which of them are quiet. A row is quiet after a visit
/// without a real tightening, until one of its columns changes; visiting it again would say nothing new.
#[derive(Debug, Drop)]
pub struct Visits {
    activities: Activities,
    quiet: List<bool>,
}

impl Visits {
    /// What is kept at the start: the activities over the box, and no row is quiet.
    pub fn of(
        alloc: Global,
        rows: &[Row],
        cuts: &[Row],
        bounds: &Bounds,
    ) -> Result<Visits, OutOfMemory>
        requires few_rows { length rows.now ≤ 2 ^ 30 }
        requires few_cuts { length cuts.now ≤ 2 ^ 30 }
        requires rows { AreReady bounds.now rows.now }
        requires cuts { AreReady bounds.now cuts.now }
        ensures sums { IfOk result (λ v.
            AreSums (rows.now ++ cuts.now) bounds.now v.activities.sums) }
        ensures columns { IfOk result (λ v. v.activities.columns ≡ []) }
        ensures quiet { IfOk result (λ v.
            v.quiet ≡ replicate (length (rows.now ++ cuts.now)) false) }
    {
        let activities = Activities::unindexed(alloc, rows, cuts, bounds)?;
        let quiet = List::of(vec![in alloc; false; rows.len() + cuts.len()]?);
        Ok(Visits { activities, quiet })
    }

    /// Whether the row at a place is quiet.
    pub fn is_quiet(&self, place: usize) -> bool
        requires { place < length self.now.quiet }
        ensures { result ≡ slice_index_or self.now.quiet place false }
    {
        self.quiet.as_slice()[place]
    }

    /// Marks the row at a place as quiet.
    pub fn set_quiet(&mut self, place: usize)
        requires { place < length self.old.quiet }
        ensures { self.new ≡ record self.old { quiet = slice_set self.old.quiet place true } }
    {
        self.quiet.set(place, true);
    }

    /// By how much the greatest activity of a row, which stands at this place, is above its `least`.
    pub fn room(&self, place: usize, row: &Row) -> i64
        requires known { place < length self.now.activities.sums }
        requires sum { unsigned_abs (int_at self.now.activities.sums place) ≤ MAX_WIDTH }
        requires least { unsigned_abs row.now.least ≤ MAX_WIDTH }
        ensures { result ≡ int_at self.now.activities.sums place -ℤ row.now.least }
    {
        difference(self.activities.sum(place), row.least)
    }

    /// Makes the entries of the columns, where they haven't been made.
    pub fn index(
        &mut self,
        alloc: Global,
        count: usize,
        rows: &[Row],
        cuts: &[Row],
    ) -> Result<(), OutOfMemory>
        requires few_rows { length rows.now ≤ 2 ^ 30 }
        requires few_cuts { length cuts.now ≤ 2 ^ 30 }
        requires rows { HaveTerms count rows.now }
        requires cuts { HaveTerms count cuts.now }
        ensures sums { self.new.activities.sums ≡ self.old.activities.sums }
        ensures quiet { self.new.quiet ≡ self.old.quiet }
        ensures ok { OnOk result (
            (0 < length self.old.activities.columns →
            AreColumns count (rows.now ++ cuts.now) self.old.activities.columns) →
            AreColumns count (rows.now ++ cuts.now) self.new.activities.columns) }
    {
        self.activities.index(alloc, count, rows, cuts)
    }

    /// Keeps other ends of a column: the rows in which it stands are no longer quiet.
    pub fn moved(&mut self, col: u32, old: (i64, i64), new: (i64, i64))
        requires kept { IsMovable self.old.activities col old.0 old.1 new.0 new.1 }
        requires known { AreEntries (length self.old.quiet)
            (slice_index_or self.old.activities.columns col []) }
        ensures columns { self.new.activities.columns ≡ self.old.activities.columns }
        ensures keeps { (m : ModelParts) (cuts : Seq RowValue) (s : Sides) →
            IsKept m cuts s self.old.activities →
            IsMove m s col old.0 old.1 new.0 new.1 →
            IsKept m cuts (with_ends s col new.0 new.1) self.new.activities }
        ensures quiet { HasQuietLeft (slice_index_or self.old.activities.columns col [])
            self.old.quiet self.new.quiet }
    {
        wake(&mut self.quiet, self.activities.column(col));
        self.activities.moved(col, old, new);
    }
}

/// The rows in which a column stands are no longer quiet.
fn wake(quiet: &mut List<bool>, column: &[Term])
    requires { AreEntries (length quiet.old) column.now }
    ensures { HasQuietLeft column.now quiet.old quiet.new }
{
    for entry in column {
        quiet.set(entry.col as usize, false);
    }
}
