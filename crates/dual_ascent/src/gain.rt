ghost use Rattle.std.specs.Prelude.{◌≡◌, ◌≤◌, ◌*◌, ◌^◌, ℕ, ◌*ℤ◌, ◌-ℤ◌, pos, length, slice_index, unsigned_abs};
ghost use Rattle.std.specs.Int.{int_max};
ghost use Rattle.ip_core.specs.Numbers.{int_at};
ghost use Rattle.ip_core.specs.Rows.{AreTerms};
ghost use Rattle.safe_bound.specs.Premises.{AreLightTerms, AreWithin};
ghost use Rattle.dual_ascent.specs.Ends.{end_fall as end_fall_of, loss, turned_size, turns as turns_of};

use ip_core::Term;

/// What a bound's numerator gains as a row's multiplier changes by `by`, and `floor` where that is no more than `floor`:
/// the change times what the row lacks, less what the terms lose as the reduced costs of their columns turn. Each part
/// of the loss is 0 or more, so it stops as soon as no more than `floor` is left.
pub fn gain_above(
    terms: &[Term],
    costs: &[i128],
    widths: &[u64],
    by: i64,
    lack: i128,
    floor: i128,
) -> i128
    requires terms { AreLightTerms (length costs.now) terms.now }
    requires widths { length widths.now ≡ length costs.now }
    requires costs { AreWithin (length costs.now) (2 ^ 122) costs.now }
    requires small { unsigned_abs by ≤ 2 ^ 40 }
    requires lack { unsigned_abs lack ≤ 2 ^ 52 }
    requires loss { loss (int_at costs.now) (slice_index widths.now) by terms.now ≤ 2 ^ 125 }
    ensures { result ≡ int_max floor
        ((by *ℤ lack) -ℤ pos (loss (int_at costs.now) (slice_index widths.now) by terms.now)) }
{
    let mut left = i128::from(by) * lack;
    if left <= floor {
        return floor;
    }
    for term in terms {
        let col = term.col as usize;
        let old = costs[col];
        let new = fallen(old, by, term.coef);
        if turns(old, new) {
            left -= times(new, widths[col]);
            if left <= floor {
                return floor;
            }
        }
    }
    left
}

/// A cost less `by` times a coefficient.
pub fn fallen(cost: i128, by: i64, coef: i64) -> i128
    requires cost { unsigned_abs cost ≤ 2 ^ 123 }
    requires small { unsigned_abs by ≤ 2 ^ 40 }
    ensures { result ≡ cost -ℤ (by *ℤ coef) }
{
    cost - i128::from(by) * i128::from(coef)
}

/// Whether one of two costs is below 0 and the other isn't.
pub fn turns(old: i128, new: i128) -> bool
    ensures { result ≡ turns_of old new }
{
    (old >= 0) != (new >= 0)
}

/// The size of a cost times a width.
fn times(cost: i128, width: u64) -> i128
    requires cost { unsigned_abs cost ≤ 2 ^ 126 }
    requires product { unsigned_abs cost * width ≤ 2 ^ 125 }
    ensures { result ≡ pos (unsigned_abs cost * width) }
{
    let size = if cost >= 0 { cost } else { -cost };
    size * i128::from(width)
}

/// How far the end at which a column stands falls as its cost changes.
pub fn end_fall(old: i128, new: i128, width: u64) -> i64
    requires { width ≤ 2 ^ 33 }
    ensures { result ≡ end_fall_of old new width }
{
    if !turns(old, new) {
        0
    } else if new >= 0 {
        width as i64
    } else {
        -(width as i64)
    }
}
