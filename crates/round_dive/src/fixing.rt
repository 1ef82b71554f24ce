ghost use Rattle.std.specs.Prelude.{◌≡◌, ◌↔◌, ◌<◌, ◌≤ℤ◌, length, IfSome, IsTrue};
ghost use Rattle.ip_core.specs.Boxes.{IsWithin};
ghost use Rattle.ip_core.specs.Numbers.{int_at};
ghost use Rattle.ip_core.specs.Sides.{HasNoEmpty};
ghost use Rattle.round_dive.specs.Dives.{first_difference as first_difference_of, first_free as first_free_of};
ghost use Rattle.round_dive.specs.Dives.{is_fixed as is_fixed_of, nearest_value as nearest_value_of};
ghost use Rattle.round_dive.specs.Dives.{next_box, with_value};

use ip_core::{Bounds, Point};

/// Fixes the first column that isn't fixed, at the value of its range nearest to the point's. Where all are fixed the
/// box stays.
#[tactic(auto, using(ip_core::proofs::NarrowerBoxes::within_itself))]
pub fn fix_first_free(bounds: &mut Bounds, point: &Point)
    requires solid { HasNoEmpty bounds.old }
    requires one_each { length point.now ≡ length bounds.old.lows }
    ensures value { bounds.new ≡ next_box bounds.old point.now }
    ensures within { IsWithin bounds.old bounds.new }
    ensures solid { HasNoEmpty bounds.new }
{
    if let Some(col) = first_free(bounds) {
        let value = nearest_value(bounds, col, point.values()[col as usize]);
        fix(bounds, col, value);
    }
}

/// The first column whose low isn't its high.
fn first_free(bounds: &Bounds) -> Option<u32>
    ensures value { result ≡ first_free_of bounds.now }
    ensures known { IfSome result (λ j. j < length bounds.now.lows) }
{
    let place = first_difference(bounds.lows(), bounds.highs())?;
    Some(place as u32)
}

/// The first place at which two lists of one length have different numbers.
fn first_difference(lows: &[i64], highs: &[i64]) -> Option<usize>
    requires { length highs.now ≡ length lows.now }
    ensures value { result ≡ first_difference_of lows.now highs.now }
    ensures known { IfSome result (λ j. j < length lows.now) }
{
    lows.iter().zip(highs).position(|(low, high)| low != high)
}

/// The value of a column's range that is nearest to a number.
fn nearest_value(bounds: &Bounds, col: u32, value: i64) -> i64
    requires known { col < length bounds.now.lows }
    ensures { result ≡ nearest_value_of bounds.now col value }
{
    let (low, high) = bounds.get(col);
    value.max(low).min(high)
}

/// Puts both ends of a column at a value of its range.
#[tactic(auto, using(crate::proofs::FixedColumns::fixed_within, crate::proofs::FixedColumns::fixed_solid))]
fn fix(bounds: &mut Bounds, col: u32, value: i64)
    requires known { col < length bounds.old.lows }
    requires low { int_at bounds.old.lows col ≤ℤ value }
    requires high { value ≤ℤ int_at bounds.old.highs col }
    ensures value { bounds.new ≡ with_value bounds.old col value }
    ensures within { IsWithin bounds.old bounds.new }
    ensures solid { HasNoEmpty bounds.old → HasNoEmpty bounds.new }
{
    bounds.cut_low(col, value);
    bounds.cut_high(col, value);
}

/// Whether each low is its high.
pub fn is_fixed(bounds: &Bounds) -> bool
    ensures value { result ≡ is_fixed_of bounds.now }
    ensures exact { IsTrue result ↔ (bounds.now.lows ≡ bounds.now.highs) }
{
    bounds.is_fixed()
}
