ghost use Rattle.std.specs.Prelude.{◌≡◌, ◌≤◌, ◌<◌, ◌^◌, IfSome, IsTrue};
ghost use Rattle.std.specs.List.{list_all};
ghost use Rattle.ip_core.specs.Decimals.{decimal, is_digit};
ghost use Rattle.std.specs.Option.{option_copied};
ghost use Rattle.xsearch_words.specs.Numbers.{is_numeral, number_between, number_or, optional_number};

/// The most digits of a number among the words.
const MAX_DIGITS: usize = 20;

/// The number of 1 to 20 decimal digits, where it is at least `least` and at most `greatest`.
pub(crate) fn number_between(digits: &[u8], least: u64, greatest: u64) -> Option<u64>
    ensures value { result ≡ number_between least greatest digits.now }
    ensures least { IfSome result (λ number. least ≤ number) }
    ensures most { IfSome result (λ number. number ≤ greatest) }
{
    if !is_numeral(digits) {
        return None;
    }
    let number = decimal(digits);
    if u128::from(least) <= number && number <= u128::from(greatest) {
        Some(number as u64)
    } else {
        None
    }
}

fn is_numeral(digits: &[u8]) -> bool
    ensures { result ≡ is_numeral digits.now }
{
    if digits.is_empty() || digits.len() > MAX_DIGITS {
        return false;
    }
    are_digits(digits)
}

fn are_digits(bytes: &[u8]) -> bool
    ensures { result ≡ list_all is_digit bytes.now }
{
    bytes.iter().all(|byte| is_digit(*byte))
}

fn is_digit(byte: u8) -> bool
    ensures { result ≡ is_digit byte }
{
    48 <= byte && byte <= 57
}

/// The number that digits stand for.
fn decimal(digits: &[u8]) -> u128
    requires { IsTrue (is_numeral digits.now) }
    ensures { result ≡ decimal 0 digits.now }
{
    let mut number = 0;
    for digit in digits {
        number = number * 10 + u128::from(*digit - b'0');
    }
    number
}

/// The number of an option's value, or else `without` where the option isn't given. None where the
/// value is no number in the range.
pub(crate) fn number_or(
    without: u64,
    least: u64,
    greatest: u64,
    value: Option<&[u8]>,
) -> Option<u64>
    requires least { least ≤ without }
    requires most { without ≤ greatest }
    ensures value { result ≡ number_or without least greatest (option_copied value.entry) }
    ensures least { IfSome result (λ number. least ≤ number) }
    ensures most { IfSome result (λ number. number ≤ greatest) }
{
    match value {
        None => Some(without),
        Some(digits) => number_between(digits, least, greatest),
    }
}

/// The number of an option's value, if the option is given. None where the value is no number in
/// the range.
pub(crate) fn optional_number(
    least: u32,
    greatest: u32,
    value: Option<&[u8]>,
) -> Option<Option<u32>>
    ensures value { result ≡ optional_number least greatest (option_copied value.entry) }
    ensures most { IfSome result (λ number. IfSome number (λ n. n ≤ greatest)) }
{
    match value {
        None => Some(None),
        Some(digits) => {
            let number = number_between(digits, u64::from(least), u64::from(greatest))?;
            Some(Some(number as u32))
        }
    }
}
