ghost use Rattle.std.specs.Prelude.{ℕ, ◌≡◌, ◌≤◌, ◌<◌, ◌^◌, ◌-ℤ◌, ◌*ℤ◌, length, replicate, slice_set, pos, unsigned_abs, IfOk};
ghost use Rattle.ip_core.specs.Numbers.{int_at};
ghost use Rattle.ip_core.specs.Rows.{AreTerms, coefficient};
ghost use Rattle.std.specs.Int.{int_max};
ghost use Rattle.safe_bound.specs.Bounds.{all_rows, numerator as numerator_of};
ghost use Rattle.safe_bound.specs.Premises.{AreCuts, AreWithin};
ghost use Rattle.ip_core.specs.Boxes.{IsWithinReach};
ghost use Rattle.dual_ascent.specs.Kept.{AreOfRows, HasActivities, IsKept, lack as lack_of, sizes};

use crate::all_rows::row_at;
use crate::columns::columns;
use crate::ends::{end_activities, spreads};
use crate::gain::{end_fall, fallen, gain_above};
use ip_core::{Bounds, List, Model, OutOfMemory, Row, Term};
use safe_bound::{MAX_MULTIPLIER, numerator};
use std::alloc::Global;

/// Multipliers of the rows of a model and of cuts on a box, their numerator, and what makes the numerator with another
/// multiplier cheap to tell: the reduced costs, and the rows' activities at the ends at which these cost least. Model,
/// cuts and box aren't kept: each call is to be given the same.
#[derive(Debug, Drop)]
pub struct Reduced {
    mults: List<u64>,
    numerator: i128,
    costs: List<i128>,
    widths: List<u64>,
    active: List<i128>,
    columns: List<List<Term>>,
}

impl Reduced {
    /// All multipliers 0, one for each row and then for each cut.
    pub fn of(
        alloc: Global,
        model: &Model,
        cuts: &[Row],
        bounds: &Bounds,
    ) -> Result<Reduced, OutOfMemory>
        requires cuts { AreCuts model.now cuts.now }
        requires within { IsWithinReach model.now.root bounds.now }
        ensures kept { IfOk result (λ v. IsKept model.now cuts.now bounds.now v) }
        ensures mults { IfOk result (λ v. v.mults ≡
            replicate (length (all_rows model.now cuts.now)) 0) }
    {
        let rows = model.parts().rows.len() + cuts.len();
        let count = model.parts().cols.len();
        let mults = List::of(vec![in alloc; 0; rows]?);
        let mut costs = vec![in alloc; 0; count]?;
        let numerator = numerator(model, cuts, bounds, mults.as_slice(), &mut costs);
        let costs = List::of(costs);
        let widths = spreads(alloc, bounds)?;
        let active = end_activities(alloc, model, cuts, bounds, costs.as_slice())?;
        let columns = columns(alloc, model, cuts)?;
        Ok(Reduced {
            mults,
            numerator,
            costs,
            widths,
            active,
            columns,
        })
    }

    /// The multipliers: one for each row and then for each cut.
    pub fn mults(&self) -> &[u64]
        ensures { result.now ≡ self.now.mults }
    {
        self.mults.as_slice()
    }

    /// The multipliers alone. It takes no memory.
    pub(crate) fn into_mults(self) -> List<u64>
        ensures { result ≡ self.mults }
    {
        self.mults
    }

    /// The numerator of the multipliers.
    pub(crate) fn numerator(&self) -> i128
        ensures { result ≡ self.now.numerator }
    {
        self.numerator
    }

    /// The numerator with another multiplier of a row, at the same model, cuts and box. It takes no memory.
    pub fn trial(&self, model: &Model, cuts: &[Row], bounds: &Bounds, row: u32, mult: u64) -> i128
        requires cuts { AreCuts model.now cuts.now }
        requires within { IsWithinReach model.now.root bounds.now }
        requires kept { IsKept model.now cuts.now bounds.now self.now }
        requires known { row < length (all_rows model.now cuts.now) }
        requires small { mult ≤ MAX_MULTIPLIER }
        ensures { result ≡
            numerator_of model.now cuts.now bounds.now (slice_set self.now.mults row mult) }
    {
        // The model's limits keep both numerators small.
        let _limits = model.parts();
        self.numerator + self.gain(model, cuts, bounds, row as usize, mult, i128::MIN)
    }

    /// Gives a row another multiplier, at the same model, cuts and box. It takes no memory.
    pub fn set(&mut self, model: &Model, cuts: &[Row], bounds: &Bounds, row: u32, mult: u64)
        requires cuts { AreCuts model.now cuts.now }
        requires within { IsWithinReach model.now.root bounds.now }
        requires kept { IsKept model.now cuts.now bounds.now self.old }
        requires known { row < length (all_rows model.now cuts.now) }
        requires small { mult ≤ MAX_MULTIPLIER }
        ensures kept { IsKept model.now cuts.now bounds.now self.new }
        ensures mults { self.new.mults ≡ slice_set self.old.mults row mult }
    {
        let numerator = self.trial(model, cuts, bounds, row, mult);
        self.change(model, cuts, bounds, row as usize, mult, numerator);
    }

    /// How much greater the numerator is with another multiplier of a row, and `floor` where it isn't greater by more.
    pub(crate) fn gain(
        &self,
        model: &Model,
        cuts: &[Row],
        bounds: &Bounds,
        row: usize,
        mult: u64,
        floor: i128,
    ) -> i128
        requires cuts { AreCuts model.now cuts.now }
        requires within { IsWithinReach model.now.root bounds.now }
        requires kept { IsKept model.now cuts.now bounds.now self.now }
        requires known { row < length (all_rows model.now cuts.now) }
        requires small { mult ≤ MAX_MULTIPLIER }
        ensures { result ≡ int_max floor
            (numerator_of model.now cuts.now bounds.now (slice_set self.now.mults row mult)
            -ℤ numerator_of model.now cuts.now bounds.now self.now.mults) }
    {
        // The model's limits keep all parts of the gain small.
        let _limits = model.parts();
        let by = multiplier_change(self.mults.as_slice()[row], mult);
        let lack = self.lack(model, cuts, bounds, row);
        gain_above(
            row_at(model, cuts, row).terms.as_slice(),
            self.costs.as_slice(),
            self.widths.as_slice(),
            by,
            lack,
            floor,
        )
    }

    /// What a row lacks at the ends at which the columns stand: its `least` less its activity there.
    pub(crate) fn lack(&self, model: &Model, cuts: &[Row], bounds: &Bounds, row: usize) -> i128
        requires cuts { AreCuts model.now cuts.now }
        requires within { IsWithinReach model.now.root bounds.now }
        requires kept { IsKept model.now cuts.now bounds.now self.now }
        requires known { row < length (all_rows model.now cuts.now) }
        ensures { result ≡ lack_of model.now cuts.now self.now row }
    {
        // The model's limits keep the row's numbers small.
        let _limits = model.parts();
        i128::from(row_at(model, cuts, row).least) - self.active.as_slice()[row]
    }

    /// Gives a row another multiplier, whose numerator is known.
    pub(crate) fn change(
        &mut self,
        model: &Model,
        cuts: &[Row],
        bounds: &Bounds,
        row: usize,
        mult: u64,
        numerator: i128,
    )
        requires cuts { AreCuts model.now cuts.now }
        requires within { IsWithinReach model.now.root bounds.now }
        requires kept { IsKept model.now cuts.now bounds.now self.old }
        requires known { row < length (all_rows model.now cuts.now) }
        requires small { mult ≤ MAX_MULTIPLIER }
        requires value { numerator ≡
            numerator_of model.now cuts.now bounds.now (slice_set self.old.mults row mult) }
        ensures kept { IsKept model.now cuts.now bounds.now self.new }
        ensures mults { self.new.mults ≡ slice_set self.old.mults row mult }
    {
        // The model's limits keep the reduced costs small.
        let _limits = model.parts();
        let by = multiplier_change(self.mults.as_slice()[row], mult);
        self.lower_costs(
            model,
            cuts,
            bounds,
            row_at(model, cuts, row).terms.as_slice(),
            by,
        );
        self.mults.set(row, mult);
        self.numerator = numerator;
    }

    /// Lowers the reduced costs of the columns of a row's terms by `by` times their coefficients.
    fn lower_costs(&mut self, model: &Model, cuts: &[Row], bounds: &Bounds, terms: &[Term], by: i64)
        requires cuts { AreCuts model.now cuts.now }
        requires within { IsWithinReach model.now.root bounds.now }
        requires activities { HasActivities model.now cuts.now bounds.now self.old }
        requires known { AreTerms (length model.now.cols) terms.now }
        requires light { sizes terms.now ≤ 2 ^ 50 }
        requires costs { AreWithin (length self.old.costs) (2 ^ 122) self.old.costs }
        requires small { unsigned_abs by ≤ 2 ^ 40 }
        ensures activities { HasActivities model.now cuts.now bounds.now self.new }
        ensures costs { (j : ℕ) → j < length model.now.cols →
            int_at self.new.costs j ≡ int_at self.old.costs j -ℤ (by *ℤ coefficient j terms.now) }
        ensures mults { self.new.mults ≡ self.old.mults }
    {
        for term in terms {
            self.lower_cost(model, cuts, bounds, *term, by);
        }
    }

    /// Lowers the reduced cost of a term's column by `by` times its coefficient. Where that moves the end at which the
    /// column stands, the activities of the column's rows move with it.
    fn lower_cost(&mut self, model: &Model, cuts: &[Row], bounds: &Bounds, term: Term, by: i64)
        requires cuts { AreCuts model.now cuts.now }
        requires within { IsWithinReach model.now.root bounds.now }
        requires activities { HasActivities model.now cuts.now bounds.now self.old }
        requires known { term.col < length model.now.cols }
        requires cost { unsigned_abs (int_at self.old.costs term.col) ≤ 2 ^ 123 }
        requires small { unsigned_abs by ≤ 2 ^ 40 }
        ensures activities { HasActivities model.now cuts.now bounds.now self.new }
        ensures costs { self.new.costs ≡ slice_set self.old.costs term.col
            (int_at self.old.costs term.col -ℤ (by *ℤ term.coef)) }
        ensures mults { self.new.mults ≡ self.old.mults }
    {
        // The model's limits keep the activities small.
        let _limits = model.parts();
        let col = term.col as usize;
        let old = self.costs.as_slice()[col];
        let new = fallen(old, by, term.coef);
        self.costs.set(col, new);
        let fall = end_fall(old, new, self.widths.as_slice()[col]);
        lower_activities(
            &mut self.active,
            self.columns.as_slice()[col].as_slice(),
            fall,
        );
    }
}

/// By how much a multiplier changes.
fn multiplier_change(old: u64, new: u64) -> i64
    requires old { old ≤ MAX_MULTIPLIER }
    requires new { new ≤ MAX_MULTIPLIER }
    ensures { result ≡ pos new -ℤ pos old }
{
    new as i64 - old as i64
}

/// Lowers the activity of each row of a column by `fall` times its coefficient there.
fn lower_activities(active: &mut List<i128>, entries: &[Term], fall: i64)
    requires known { AreOfRows (length active.old) entries.now }
    requires light { sizes entries.now ≤ 2 ^ 81 }
    requires small { unsigned_abs fall ≤ 2 ^ 33 }
    requires room { AreWithin (length active.old) (2 ^ 60) active.old }
    ensures long { length active.new ≡ length active.old }
    ensures values { (k : ℕ) → k < length active.old →
        int_at active.new k ≡ int_at active.old k -ℤ (fall *ℤ coefficient k entries.now) }
{
    // Most often no end moves.
    if fall == 0 {
        return;
    }
    for entry in entries {
        let row = entry.col as usize;
        let lowered = fallen(active.as_slice()[row], fall, entry.coef);
        active.set(row, lowered);
    }
}
