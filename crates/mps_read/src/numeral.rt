ghost use Rattle.std.specs.Prelude.{◌≡◌, ◌≤◌, ◌<◌, ◌^◌, unsigned_abs, true, false, length, MatchOption, option_map};
ghost use Rattle.mps_model.specs.Numbers.{is_zero as is_zero_number, is_infinite as is_infinite_number, reaches_infinity};
ghost use Rattle.mps_read.specs.Numerals.{is_numeral, decimal_of, one_decimal};
ghost use Rattle.mps_read.specs.Kinds.{all_pairs, is_pair_numeral};
ghost use Rattle.mps_lines.specs.FieldWords.{IsField, IsPair, IsSecond, pair_words, second_words};

use ip_core::Decimal;
use mps_lines::FieldPair;

/// The decimal of a numeral, or None where the bytes aren't one.
pub fn read_numeral(bytes: &[u8]) -> Option<Decimal>
    requires { length bytes.now ≤ 2 ^ 30 }
    ensures { MatchOption result (is_numeral bytes.now ≡ false)
        (λ d. (is_numeral bytes.now ≡ true) × (d ≡ decimal_of bytes.now)) }
{
    match Decimal::read(bytes) {
        Ok(value) => Some(value),
        Err(_) => None,
    }
}

/// Whether a decimal is 0.
pub fn is_zero(value: Decimal) -> bool
    ensures { result ≡ is_zero_number value }
{
    value.mantissa() == 0
}

/// The number 1.
pub fn one() -> Decimal
    ensures { result ≡ one_decimal }
{
    match Decimal::read(b"1") {
        Ok(value) => value,
        Err(_) => unreachable!(),
    }
}

/// Whether a mantissa of at most 18 digits times ten to an exponent is 10^20 or more.
fn reaches_infinity(mantissa: i64, exponent: i16) -> bool
    requires { unsigned_abs mantissa < 10 ^ 18 }
    ensures { result ≡ reaches_infinity mantissa exponent }
{
    if mantissa <= 0 {
        return false;
    }
    if exponent < 0 {
        return false;
    }
    if exponent >= 20 {
        return true;
    }
    u128::from(mantissa as u64) * 10u128.pow(exponent as u32) >= 100_000_000_000_000_000_000
}

/// Whether a decimal is 10^20 or more, which stands for no bound.
pub fn is_infinite(value: Decimal) -> bool
    ensures { result ≡ is_infinite_number value }
{
    reaches_infinity(value.mantissa(), value.exponent())
}
