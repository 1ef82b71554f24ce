ghost use Rattle.std.specs.Prelude.{◌≡◌, ◌<◌, ◌≤◌, ◌^◌, IfSome};
ghost use Rattle.std.specs.List.{list_all};
ghost use Rattle.ip_core.specs.Decimals.{is_digit};
ghost use Rattle.cert_line.specs.Numerals.{is_canonical, natural_of, count_of, weight_of, negative_of, number_of, is_row, row_of};

use ip_core::RowRef;

/// The greatest count, column or number of a row: 2^32 - 1.
pub const MAX_COUNT: u64 = 4_294_967_295;

/// The greatest weight, divisor or multiplier: 2^63 - 1.
pub const MAX_WEIGHT: u64 = 9_223_372_036_854_775_807;

/// The greatest absolute value of a number that may have a sign: 2^62.
pub const MAX_NUMBER: u64 = 4_611_686_018_427_387_904;

fn is_digit(byte: u8) -> bool
    ensures { result ≡ is_digit byte }
{
    b'0' <= byte && byte <= b'9'
}

/// Whether each byte is a digit.
fn are_digits(word: &[u8]) -> bool
    ensures { result ≡ list_all is_digit word.now }
{
    for byte in word {
        if !is_digit(*byte) {
            return false;
        }
    }
    true
}

/// Whether a word is digits, of which the first is `0` only where it is the last.
fn is_canonical(word: &[u8]) -> bool
    ensures { result ≡ is_canonical word.now }
{
    match word {
        [] => false,
        [first, rest @ ..] => are_digits(word) && (*first != b'0' || rest.is_empty()),
    }
}

/// The number of canonical digits, or None where they aren't so or it is above `most`.
fn natural_of(word: &[u8], most: u64) -> Option<u64>
    requires { most < 2 ^ 63 }
    ensures value { result ≡ natural_of most word.now }
    ensures small { IfSome result (λ n. n ≤ most) }
{
    if !is_canonical(word) {
        return None;
    }
    let mut number: u128 = 0;
    for digit in word {
        number = number * 10 + u128::from(*digit - b'0');
        if number > u128::from(most) {
            return None;
        }
    }
    Some(number as u64)
}

/// A count, a column or the number of a row, if it is canonical and in its range.
pub(crate) fn count_of(word: &[u8]) -> Option<u32>
    ensures { result ≡ count_of word.now }
{
    let number = natural_of(word, MAX_COUNT)?;
    Some(number as u32)
}

/// A weight, a divisor or a multiplier, if it is canonical and in its range.
pub(crate) fn weight_of(word: &[u8]) -> Option<u64>
    ensures { result ≡ weight_of word.now }
{
    natural_of(word, MAX_WEIGHT)
}

/// The number below 0 whose absolute value these digits are, if they are canonical and it is in its range.
fn negative_of(digits: &[u8]) -> Option<i64>
    ensures { result ≡ negative_of (natural_of MAX_NUMBER digits.now) }
{
    let size = natural_of(digits, MAX_NUMBER)?;
    if size == 0 {
        return None;
    }
    Some(-(size as i64))
}

/// A number that may have a sign, if it is canonical and in its range.
pub(crate) fn number_of(word: &[u8]) -> Option<i64>
    ensures { result ≡ number_of word.now }
{
    let [first, rest @ ..] = word else {
        return None;
    };
    if *first == b'-' {
        return negative_of(rest);
    }
    let number = natural_of(word, MAX_NUMBER)?;
    Some(number as i64)
}

/// Whether a word is `r` or `k` and at least one byte more.
pub(crate) fn is_row(word: &[u8]) -> bool
    ensures { result ≡ is_row word.now }
{
    match word {
        [] => false,
        [first, rest @ ..] => (*first == b'r' || *first == b'k') && !rest.is_empty(),
    }
}

/// The row of the model that `r` and its number name, or the cut that `k` and its number name, if the number is
/// canonical and in its range.
pub(crate) fn row_of(word: &[u8]) -> Option<RowRef>
    ensures { result ≡ row_of word.now }
{
    let [first, rest @ ..] = word else {
        return None;
    };
    if *first == b'r' {
        let row = count_of(rest)?;
        return Some(RowRef::Model(row));
    }
    if *first == b'k' {
        let cut = count_of(rest)?;
        return Some(RowRef::Cut(cut));
    }
    None
}
