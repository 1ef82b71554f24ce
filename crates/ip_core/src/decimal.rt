ghost use Rattle.std.specs.Prelude.{◌≡◌, ◌≢◌, ◌≤◌, ◌≤ℤ◌, neg_ℤ, ◌<◌, ◌-◌, ◌^◌, ◌==◌, ◌++◌, ◌+◌, min, pos, ◌+ℤ◌, ◌-ℤ◌, unsigned_abs, true, length, take, drop, slice_index_or, IfSome, IfOk, OnOk, Ok};
ghost use Rattle.std.specs.List.{prefix_len, list_all};
ghost use Rattle.ip_core.specs.Prints.{number_text};
ghost use Rattle.ip_core.specs.Texts.{decimal_text, last_digits};
ghost use Rattle.ip_core.specs.Decimals.{decimal, reduced_number, significant_digits, power, signed_number, exponent_in_range, leading_zeros, trailing_zeros, first_passes, is_digit, is_sign, after_one, digits, after_digits, parts_of, parts, AreParts, IsDecimal, negation, read_parts, read_decimal, with_exponent as with_exponent_of, with_fraction as with_fraction_of, lacks_digits as lacks_digits_of};

use crate::numeral::{Numeral, lacks_digits, numeral_of};
use crate::{OutOfMemory, Text};
use itoa::Buffer;
use std::alloc::Global;
use std::marker::Model;
use thiserror::Error;

/// The most digits that a decimal keeps, without the zeros at both ends.
pub const MAX_DIGITS: usize = 18;

/// The least and the greatest power of ten of a decimal.
pub const MIN_EXPONENT: i64 = -18;

pub const MAX_EXPONENT: i64 = 400;

/// A decimal number: mantissa times ten to the exponent. The mantissa isn't divisible by ten, or both are 0.
///
/// 1.5 has mantissa 15 and exponent -1, and 1200 has 12 and 2.
#[derive(Clone, Copy, Debug, PartialEq, Eq)]
pub struct Decimal {
    mantissa: i64,
    exponent: i16,
}

impl Model for Decimal {
    ghost use Rattle.ip_core.specs.Decimals.{Number, IsDecimal};

    ghost Value = { Number };

    ghost view = { λ d. record { mantissa = d.mantissa; exponent = d.exponent } };

    ghost inverse = { λ n. record { mantissa = n.mantissa; exponent = n.exponent } };

    ghost invariant = { λ d. IsDecimal (record { mantissa = d.mantissa; exponent = d.exponent }) };
}

/// Why bytes are no decimal.
#[derive(Clone, Copy, Debug, PartialEq, Eq, Error)]
pub enum NumeralError {
    /// No digit stands before the exponent, or none in it: `+` and `1e`.
    #[error("digits are missing")]
    Empty,
    /// The byte at this place, counted from 0, continues no numeral: `1.2.3` at 3.
    #[error("byte {place} continues no numeral")]
    BadByte { place: u32 },
    /// More than 18 digits remain without the zeros at both ends.
    #[error("more than 18 digits")]
    TooLong,
    /// The exponent of the reduced number is below -18 or above 400: `1e-19`.
    #[error("exponent out of range")]
    Range,
}

/// The digit at a place of the whole part followed by the fraction.
fn digit_at(whole: &[u8], fraction: &[u8], place: usize) -> u8
    requires known { place < length (whole.now ++ fraction.now) }
    ensures { result ≡ slice_index_or (whole.now ++ fraction.now) place 0 }
{
    if place < whole.len() {
        whole[place]
    } else {
        fraction[place - whole.len()]
    }
}

/// The number of zeros at the front of both.
fn leading_zeros(whole: &[u8], fraction: &[u8]) -> usize
    requires short { length (whole.now ++ fraction.now) ≤ 2 ^ 31 }
    ensures value { result ≡ leading_zeros (whole.now ++ fraction.now) }
    ensures within { result ≤ length (whole.now ++ fraction.now) }
{
    let len = whole.len() + fraction.len();
    let mut count = 0;
    while count < len && digit_at(whole, fraction, count) == b'0' {
        count += 1;
    }
    count
}

/// The number of digits of both up to the last that isn't zero.
fn significant_end(whole: &[u8], fraction: &[u8]) -> usize
    requires short { length (whole.now ++ fraction.now) ≤ 2 ^ 31 }
    ensures value { let ds = whole.now ++ fraction.now in result ≡ length ds - trailing_zeros ds }
    ensures within { result ≤ length (whole.now ++ fraction.now) }
    ensures last { 0 < result → slice_index_or (whole.now ++ fraction.now) (result - 1) 0 ≢ 48 }
{
    let mut end = whole.len() + fraction.len();
    while 0 < end && digit_at(whole, fraction, end - 1) == b'0' {
        end -= 1;
    }
    end
}

/// The number that the digits of both from one place up to another stand for.
fn number_between(whole: &[u8], fraction: &[u8], from: usize, to: usize) -> u64
    requires order { from ≤ to }
    requires known { to ≤ length (whole.now ++ fraction.now) }
    requires short { to ≤ from + 18 }
    requires digits { list_all is_digit (whole.now ++ fraction.now) ≡ true }
    ensures value { result ≡ decimal 0 (drop from (take to (whole.now ++ fraction.now))) }
    ensures small { result < 10 ^ 18 }
{
    let mut number: u64 = 0;
    for place in from..to {
        number = number * 10 + u64::from(digit_at(whole, fraction, place) - b'0');
    }
    number
}

/// What an exponent is capped at: far outside the range, whatever the digits before it.
const EXPONENT_CAP: u64 = 1_000_000_000_000;

/// The number that digits stand for, or the cap where it is greater.
fn capped_number(digits: &[u8]) -> u64
    requires { list_all is_digit digits.now ≡ true }
    ensures value { result ≡ min (decimal 0 digits.now) EXPONENT_CAP }
{
    let mut number: u64 = 0;
    for digit in digits {
        number = (number * 10 + u64::from(*digit - b'0')).min(EXPONENT_CAP);
    }
    number
}

/// The number under its sign.
fn signed_number(negative: bool, number: u64) -> i64
    requires { number ≤ 10 ^ 18 }
    ensures value { result ≡ signed_number negative number }
    ensures small { unsigned_abs result ≡ number }
{
    let number = number as i64;
    if negative { -number } else { number }
}

/// An exponent moved down by the digits of the fraction and up by the zeros at the end.
fn shifted_exponent(exponent: i64, fraction_len: u32, zeros: u32) -> i64
    requires { unsigned_abs exponent ≤ EXPONENT_CAP }
    ensures value { result ≡ exponent -ℤ pos fraction_len +ℤ pos zeros }
    ensures small { unsigned_abs result ≤ 10 ^ 13 }
{
    exponent - i64::from(fraction_len) + i64::from(zeros)
}

/// A power of ten, or None where it is out of range.
fn exponent_in_range(power: i64) -> Option<i16>
    ensures value { result ≡ exponent_in_range power }
    ensures least { IfSome result (λ e. neg_ℤ (pos 18) ≤ℤ e) }
    ensures greatest { IfSome result (λ e. e ≤ℤ pos 400) }
{
    if power < MIN_EXPONENT || MAX_EXPONENT < power {
        None
    } else {
        Some(power as i16)
    }
}

/// The decimal of a sign, the digits before the exponent and those of the exponent.
fn reduce(
    negative: bool,
    whole: &[u8],
    fraction: &[u8],
    exponent_negative: bool,
    exponent: &[u8],
) -> Result<Decimal, NumeralError>
    requires short { length (whole.now ++ fraction.now) ≤ 2 ^ 31 }
    requires digits { list_all is_digit (whole.now ++ fraction.now) ≡ true }
    requires exponent { list_all is_digit exponent.now ≡ true }
    ensures { let ds = whole.now ++ fraction.now in
        result ≡ reduced_number negative (significant_digits ds)
        (power exponent_negative exponent.now (length fraction.now) (trailing_zeros ds)) }
{
    let from = leading_zeros(whole, fraction);
    let to = significant_end(whole, fraction);
    if to <= from {
        return Ok(Decimal {
            mantissa: 0,
            exponent: 0,
        });
    }
    if to - from > MAX_DIGITS {
        return Err(NumeralError::TooLong);
    }
    let zeros = whole.len() + fraction.len() - to;
    let power = shifted_exponent(
        signed_number(exponent_negative, capped_number(exponent)),
        fraction.len() as u32,
        zeros as u32,
    );
    let Some(exponent) = exponent_in_range(power) else {
        return Err(NumeralError::Range);
    };
    let mantissa = signed_number(negative, number_between(whole, fraction, from, to));
    Ok(Decimal { mantissa, exponent })
}

/// The decimal of a numeral of so many bytes.
fn decimal_of(numeral: Numeral<'_>, len: usize) -> Result<Decimal, NumeralError>
    requires short { len ≤ 2 ^ 30 }
    requires parts { AreParts len (parts_of numeral) }
    ensures { result ≡ read_parts len (parts_of numeral.entry) }
{
    if !numeral.left.is_empty() {
        let place = (len - numeral.left.len()) as u32;
        return Err(NumeralError::BadByte { place });
    }
    if lacks_digits(numeral) {
        return Err(NumeralError::Empty);
    }
    reduce(
        numeral.negative,
        numeral.whole,
        numeral.fraction,
        numeral.exponent_negative,
        numeral.exponent,
    )
}

impl Decimal {
    /// The decimal that bytes stand for: a sign or none, digits with at most one point, and perhaps an exponent, which is
    /// one of `e`, `E`, `d` and `D`, a sign or none, and digits. It takes no memory.
    ///
    /// `1.50D+2` is 15 and 1, `.5` is 5 and -1, and `0.000` is 0 and 0. The first of these causes that applies refuses:
    /// a byte that continues no numeral (`1.2.3` at 3), no digits (`+`, `1e`), more than 18 digits without the zeros at
    /// both ends, and an exponent of the reduced number below -18 or above 400 (`1e-19`).
    pub fn read(bytes: &[u8]) -> Result<Decimal, NumeralError>
        requires { length bytes.now ≤ 2 ^ 30 }
        ensures { result ≡ read_decimal bytes.now }
    {
        decimal_of(numeral_of(bytes), bytes.len())
    }

    /// The number 0.
    pub fn zero() -> Decimal
        ensures { result ≡ record { mantissa = pos 0; exponent = pos 0 } }
    {
        Decimal {
            mantissa: 0,
            exponent: 0,
        }
    }

    /// The number under the other sign.
    pub fn negation(self) -> Decimal
        ensures { result ≡ negation self }
    {
        Decimal {
            mantissa: -self.mantissa,
            exponent: self.exponent,
        }
    }

    /// Appends the number as a numeral, which is read back as it: the mantissa, with `e` and the exponent after it where
    /// that is above 0, and with decimals where it is below. 1200 is `12e2`, and 1.5 is `1.5`.
    #[tactic(auto, using(crate::proofs::DecimalReadback::read_number_text))]
    pub fn append_to(&self, text: &mut Text) -> Result<(), OutOfMemory>
        ensures appended { OnOk result (text.new ≡ text.old ++ number_text self.now) }
        ensures read { read_decimal (number_text self.now) ≡ Ok self.now }
    {
        if self.exponent < 0 {
            return append_decimal(
                text,
                i128::from(self.mantissa),
                self.exponent.unsigned_abs() as u8,
            );
        }
        text.extend(Buffer::new().format(self.mantissa).as_bytes())?;
        if self.exponent > 0 {
            text.push(b'e')?;
            text.extend(Buffer::new().format(self.exponent).as_bytes())?;
        }
        Ok(())
    }

    /// The digits, without zeros at the end, and the sign.
    pub fn mantissa(&self) -> i64
        ensures { result ≡ self.now.mantissa }
    {
        self.mantissa
    }

    /// The power of ten.
    pub fn exponent(&self) -> i16
        ensures value { result ≡ self.now.exponent }
        ensures reduced { IsDecimal self.now }
    {
        self.exponent
    }
}

/// The text of a value divided by ten to the power of `decimals`: `-` where it is negative, the whole part, and, where
/// `decimals` is above 0, a point and exactly that many digits. -1305 with two decimals is `-13.05`.
pub fn text(alloc: Global, value: i128, decimals: u8) -> Result<Text, OutOfMemory>
    requires { decimals ≤ 18 }
    ensures { IfOk result (λ t. t ≡ decimal_text value decimals) }
{
    let mut text = Text::new(alloc);
    append_decimal(&mut text, value, decimals)?;
    Ok(text)
}

fn append_decimal(text: &mut Text, value: i128, decimals: u8) -> Result<(), OutOfMemory>
    requires { decimals ≤ 18 }
    ensures { OnOk result (text.new ≡ text.old ++ decimal_text value decimals) }
{
    if value < 0 {
        text.push(b'-')?;
    }
    let size = value.unsigned_abs();
    let whole = size / 10_u128.pow(u32::from(decimals));
    text.extend(Buffer::new().format(whole).as_bytes())?;
    if decimals > 0 {
        text.push(b'.')?;
        push_digits(text, decimals, size)?;
    }
    Ok(())
}

/// Appends the last digits of a number, so many of them, with zeros in front where it has fewer.
fn push_digits(text: &mut Text, count: u8, number: u128) -> Result<(), OutOfMemory>
    ensures { OnOk result (text.new ≡ text.old ++ last_digits count number) }
{
    if count == 0 {
        return Ok(());
    }
    push_digits(text, count - 1, number / 10)?;
    text.push(b'0' + (number % 10) as u8)
}
