ghost use Rattle.std.specs.Prelude.{◌≡◌, ◌≤◌, ◌<ℤ◌, pos, unsigned_abs};
ghost use Rattle.ip_core.specs.Quotients.{ceiling_quotient as ceiling_quotient_of, floor_quotient as floor_quotient_of};

use ip_core::MAX_WIDTH;

/// A number divided by a divisor above 0, rounded up.
pub fn ceiling_quotient(number: i64, divisor: i64) -> i64
    requires above { pos 0 <ℤ divisor }
    requires narrow { unsigned_abs number ≤ MAX_WIDTH }
    ensures { result ≡ ceiling_quotient_of number divisor }
{
    -(-number).div_euclid(divisor)
}

/// A number divided by a divisor below 0, rounded down.
pub fn floor_quotient(number: i64, divisor: i64) -> i64
    requires below { divisor <ℤ pos 0 }
    requires narrow { unsigned_abs number ≤ MAX_WIDTH }
    requires divisor { unsigned_abs divisor ≤ MAX_WIDTH }
    ensures { result ≡ floor_quotient_of number divisor }
{
    (-number).div_euclid(-divisor)
}
