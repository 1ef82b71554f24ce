ghost use Rattle.std.specs.Prelude.{◌≡◌, ◌≤◌, ◌<◌, ◌*◌, ◌^◌, ◌∷◌, [], min, true, pos, negsuc, ◌+ℤ◌, ◌≤ℤ◌, unsigned_abs};
ghost use Rattle.std.specs.Int.{int_div_euclid};
ghost use Rattle.ip_core.specs.Decimals.{signed_number};
ghost use Rattle.width_admit.specs.Exact.{units, is_whole, floor as floor_of, ceiling as ceiling_of};
ghost use Rattle.width_admit.specs.Held.{held_number, held_whole, IsFinest};

use ip_core::Decimal;

/// What whole numbers are held down to, 2^52: far above each limit, and small enough to add some.
pub const CAP: u64 = 4_503_599_627_370_496;

/// Powers of ten above this one are above the cap by themselves.
const LARGE_POWER: u32 = 16;

/// A size times a power of ten, or the cap where that is greater.
fn held_size(size: u64, power: u32) -> u64
    requires { size < 10 ^ 18 }
    ensures { result ≡ min (size * 10 ^ power) CAP }
{
    if power <= LARGE_POWER {
        (u128::from(size) * 10_u128.pow(power)).min(u128::from(CAP)) as u64
    } else if size == 0 {
        0
    } else {
        CAP
    }
}

/// A size under its sign.
fn signed_size(negative: bool, size: u64) -> i64
    requires { size ≤ CAP }
    ensures { result ≡ signed_number negative size }
{
    let number = size as i64;
    if negative { -number } else { number }
}

/// The sum of two exponents, which isn't below 0.
fn power(exponent: i16, more: u8) -> u32
    requires least { negsuc 17 ≤ℤ exponent }
    requires greatest { exponent ≤ℤ pos 400 }
    requires sum { pos 0 ≤ℤ (exponent +ℤ pos more) }
    ensures { result ≡ unsigned_abs (exponent +ℤ pos more) }
{
    (exponent + i16::from(more)) as u32
}

/// A decimal times ten to the power of `exponent`, which makes it whole, or the cap under its sign where that reaches
/// further from 0.
pub fn scaled_value(value: Decimal, exponent: u8) -> i64
    requires small { exponent ≤ 18 }
    requires whole { is_whole exponent (units value) ≡ true }
    ensures { result ≡ held_whole exponent value }
{
    let mantissa = value.mantissa();
    let power = power(value.exponent(), exponent);
    signed_size(mantissa < 0, held_size(mantissa.unsigned_abs(), power))
}

/// How many decimals a number has: the least exponent of a power of ten that makes it whole.
pub fn decimals(value: Decimal) -> u8
    ensures { IsFinest (units value ∷ []) result }
{
    let exponent = value.exponent();
    if exponent < 0 { (-exponent) as u8 } else { 0 }
}

/// A quotient rounded down.
fn quotient_down(mantissa: i64, divisor: u64) -> i64
    requires positive { 0 < divisor }
    requires small { divisor ≤ 10 ^ 18 }
    ensures { result ≡ held_number (int_div_euclid mantissa (pos divisor)) }
{
    let quotient = mantissa.div_euclid(divisor as i64);
    signed_size(quotient < 0, quotient.unsigned_abs().min(CAP))
}

/// The greatest whole number that isn't above a decimal, or the cap under its sign.
pub fn floor(value: Decimal) -> i64
    ensures { result ≡ held_number (floor_of value) }
{
    let mantissa = value.mantissa();
    let exponent = value.exponent();
    if exponent < 0 {
        quotient_down(mantissa, 10_u64.pow((-exponent) as u32))
    } else {
        signed_size(
            mantissa < 0,
            held_size(mantissa.unsigned_abs(), exponent as u32),
        )
    }
}

/// The least whole number that isn't below a decimal, or the cap under its sign.
pub fn ceiling(value: Decimal) -> i64
    ensures { result ≡ held_number (ceiling_of value) }
{
    -floor(value.negation())
}
