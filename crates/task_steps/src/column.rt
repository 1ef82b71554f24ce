ghost use Rattle.std.specs.Prelude.{◌≡◌, ◌<◌, ◌+ℤ◌, pos, length};
ghost use Rattle.std.specs.Int.{int_div_euclid};
ghost use Rattle.ip_core.specs.Numbers.{int_at};
ghost use Rattle.task_steps.specs.Columns.{middle, widest, width_at};

use ip_core::Bounds;

/// The column at which the box is split: the first of the widest, and 0 where there is none.
pub fn widest(bounds: &Bounds) -> u32
    ensures value { result ≡ widest bounds.now }
{
    let lows = bounds.lows();
    let highs = bounds.highs();
    let mut widest = 0;
    for j in 0..lows.len() {
        if width(lows, highs, widest) < width(lows, highs, j) {
            widest = j;
        }
    }
    widest as u32
}

fn width(lows: &[i64], highs: &[i64], col: usize) -> i128
    requires lows { col < length lows.now }
    requires highs { col < length highs.now }
    ensures { result ≡ width_at (record { lows = lows.now; highs = highs.now }) col }
{
    i128::from(highs[col]) - i128::from(lows[col])
}

/// The middle of a column's range, rounded down; 0 where there is no such column.
pub fn middle(bounds: &Bounds, col: u32) -> i64
    ensures { result ≡ middle bounds.now col }
{
    let low = end_at(bounds.lows(), col as usize);
    let high = end_at(bounds.highs(), col as usize);
    half(low, high)
}

/// The number at a place, and 0 past the last.
pub fn end_at(ends: &[i64], col: usize) -> i64
    ensures { result ≡ int_at ends.now col }
{
    if col < ends.len() { ends[col] } else { 0 }
}

/// Half the sum of two numbers, rounded down.
fn half(low: i64, high: i64) -> i64
    ensures { result ≡ int_div_euclid (low +ℤ high) (pos 2) }
{
    (i128::from(low) + i128::from(high)).div_euclid(2) as i64
}
